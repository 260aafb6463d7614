//! Elements that the calls of a ring take.
ghost use Rattle.std.specs.Prelude.{◌≡◌, ◌^◌, ◌≤◌, ◌*ℤ◌, IfOk, unsigned_abs};
ghost use Rattle.ring.specs.Elements.{admitted, at, passed, reach};

use super::elements::{Coordinates, Element};
use refusal::{Cause, Refusal};

/// An element with coordinates from −2^30 to 2^30, which a ring computes with.
#[derive(Clone, Copy)]
pub struct Admitted {
    pub x: i64,
    pub y: i64,
    ghost x_bound: { unsigned_abs x ≤ reach },
    ghost y_bound: { unsigned_abs y ≤ reach },
}

impl From<Admitted> for Element {
    ghost from_gives = { λ a e. e ≡ at a.x a.y };

    fn from(a: Admitted) -> Element {
        Element { x: a.x, y: a.y }
    }
}

/// The products of a coordinate of one element by one of another: `xy` is that of its x by the other's y.
#[derive(Clone, Copy)]
pub struct Products {
    pub xx: i64,
    pub xy: i64,
    pub yx: i64,
    pub yy: i64,
    ghost xx_bound: { unsigned_abs xx ≤ 2 ^ 60 },
    ghost xy_bound: { unsigned_abs xy ≤ 2 ^ 60 },
    ghost yx_bound: { unsigned_abs yx ≤ 2 ^ 60 },
    ghost yy_bound: { unsigned_abs yy ≤ 2 ^ 60 },
}

impl Admitted {
    /// The four products of a coordinate of each.
    pub fn products(self, other: Admitted) -> Products
        ensures xx { result.xx ≡ self.x *ℤ other.x }
        ensures xy { result.xy ≡ self.x *ℤ other.y }
        ensures yx { result.yx ≡ self.y *ℤ other.x }
        ensures yy { result.yy ≡ self.y *ℤ other.y }
    {
        Products {
            xx: self.x * other.x,
            xy: self.x * other.y,
            yx: self.y * other.x,
            yy: self.y * other.y,
        }
    }
}

/// The largest coordinate of an element that may be passed to a ring.
const REACH: u64 = 1 << 30;

impl Coordinates {
    /// Refuses an element with a coordinate out of the limits of a ring's calls.
    pub fn admit(self, e: Element) -> Result<Admitted, Refusal>
        ensures check { passed result ≡ admitted self e }
        ensures x { IfOk result (λ a. a.x ≡ e.x) }
        ensures y { IfOk result (λ a. a.y ≡ e.y) }
    {
        if self.within(REACH, e) {
            Ok(Admitted { x: e.x, y: e.y })
        } else {
            Err(Cause::Coordinate.into())
        }
    }
}
