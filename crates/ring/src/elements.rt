//! Elements and their coordinates.
ghost use Rattle.std.specs.Prelude.{◌≡◌, ◌≤◌, pos, OnOk};
ghost use Rattle.ring.specs.Elements.{admits, at, norm_check};

use refusal::{Cause, Refusal};

/// x, or x + yθ; in a ring with one coordinate `y` is 0.
#[derive(Clone, Copy, PartialEq, Eq, Debug)]
pub struct Element {
    pub x: i64,
    pub y: i64,
}

/// The whole number.
impl From<i64> for Element {
    ghost from_gives = { λ x e. e ≡ at x (pos 0) };

    fn from(x: i64) -> Element {
        Element { x, y: 0 }
    }
}

/// What the coordinates of a ring are.
// No `Option` of a pair: a ring with one coordinate lacks nothing.
#[derive(Clone, Copy)]
pub enum Coordinates {
    /// Whole numbers x.
    One,
    /// Pairs x + yθ, where θ² = a + bθ: the fields are a and b.
    Two(i64, i64),
}

impl Coordinates {
    /// Whether the coordinates lie from −`limit` to `limit`; the second one is 0 where a ring has one coordinate.
    pub fn within(self, limit: u64, e: Element) -> bool
        ensures { result ≡ admits self limit e }
    {
        let second = match self {
            Coordinates::One => 0,
            Coordinates::Two(_, _) => limit,
        };
        e.x.unsigned_abs() <= limit && e.y.unsigned_abs() <= second
    }
}

/// What a division gives.
#[derive(Clone, Copy)]
pub struct Division {
    pub quotient: Element,
    pub remainder: Element,
}

/// Refuses a norm that has no list of canonical elements.
pub fn admit_norm(norm: u64) -> Result<(), Refusal>
    ensures value { result ≡ norm_check norm }
    ensures bounds { OnOk result ((1 ≤ norm) × (norm ≤ 64)) }
{
    if (1..=64).contains(&norm) {
        Ok(())
    } else {
        Err(Cause::Index.into())
    }
}
