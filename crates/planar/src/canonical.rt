//! Canonical elements: the one of an element's associates, and those of a norm by number.
ghost use Rattle.std.specs.Prelude.{◌≡◌, ◌+◌, ◌-◌, ◌*◌, ◌^◌, ◌<◌, ◌≤◌, length, take, pos, ◌≤ℤ◌, filter, unsigned_abs};
ghost use Rattle.planes.specs.Planes.{Turned, axes, canonical_of, near, pair, point, turn};
ghost use Rattle.ring.specs.Elements.{element};
ghost use Rattle.std.specs.Option.{option_map};
ghost use Rattle.std.specs.List.{slice_get};

use super::norms::{in_sector, norm_of};
use planes::Plane;
use ring::{Admitted, Element};

/// The product by a unit that generates the others.
fn turn_of(p: Plane, e: Element) -> Element
    requires x_small { unsigned_abs e.x ≤ 2 ^ 40 }
    requires y_small { unsigned_abs e.y ≤ 2 ^ 40 }
    ensures value { pair result.x result.y ≡ turn p (pair e.x e.y) }
    ensures x_bound { unsigned_abs result.x ≤ unsigned_abs e.x + unsigned_abs e.y }
    ensures y_bound { unsigned_abs result.y ≤ unsigned_abs e.x }
{
    match p {
        Plane::Square => Element { x: -e.y, y: e.x },
        Plane::Hexagonal => Element {
            x: e.x - e.y,
            y: e.x,
        },
    }
}

/// The associate in the sector; 0 stays where it is.
pub(super) fn to_sector(p: Plane, e: Admitted) -> Element
    ensures { Turned p (pair e.x e.y) (pair result.x result.y) }
{
    let mut turned = Element::from(e);
    for _k in 0..5u8 {
        if in_sector(p, turned) {
            return turned;
        }
        turned = turn_of(p, turned);
    }
    turned
}

/// How many points are enough to find every canonical element of norm 1 to 64.
// A byte: each step of a walk divides by 9, which takes less in 8 bits.
pub(super) const POINTS: u8 = 81;

/// The points with x from 1 to 9 and y from 0 to 8, row after row.
fn point_of(i: u8) -> Admitted
    requires { i < 81 }
    ensures { pair result.x result.y ≡ point 9 i }
{
    Admitted {
        x: i64::from(1 + i % 9),
        y: i64::from(i / 9),
    }
}

/// The place of an element among the points.
pub(super) fn index_of(e: Element) -> u8
    requires x_low { pos 1 ≤ℤ e.x }
    requires x_high { e.x ≤ℤ pos 9 }
    requires y_low { pos 0 ≤ℤ e.y }
    requires y_high { e.y ≤ℤ pos 8 }
    ensures { result ≡ unsigned_abs e.y * 9 + (unsigned_abs e.x - 1) }
{
    (e.y.unsigned_abs() * 9 + (e.x.unsigned_abs() - 1)) as u8
}

/// The canonical elements of a plane that have this norm.
#[derive(Clone, Copy)]
pub(super) struct Canonicals {
    pub(super) plane: Plane,
    pub(super) norm: u64,
}

impl Canonicals {
    /// Whether the point is one of them.
    fn contains(self, e: Admitted) -> bool
        ensures { result ≡ canonical_of self.plane self.norm (pair e.x e.y) }
    {
        in_sector(self.plane, e.into()) && norm_of(self.plane, e) == self.norm
    }

    /// How many of them are among the first `end` points.
    pub(super) fn count_before(self, end: u8) -> u64
        requires { end ≤ 81 }
        ensures { result ≡ length (filter (canonical_of self.plane self.norm) (take end near)) }
    {
        (0..end).map(point_of).filter(|e| self.contains(*e)).count() as u64
    }

    /// The one of this number among the points.
    pub(super) fn nth(self, number: u64) -> Option<Element>
        ensures { result ≡ option_map (element (axes self.plane)) (slice_get (filter (canonical_of self.plane self.norm) near) number) }
    {
        (0..POINTS)
            .map(point_of)
            .filter(|e| self.contains(*e))
            .nth(number as usize)
            .map(Element::from)
    }
}
