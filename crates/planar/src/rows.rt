//! Euclid's algorithm on the second coordinates of two multiples of a modulus.
ghost use Rattle.std.specs.Prelude.{◌≡◌, ◌*◌, ◌^◌, ◌<◌, ◌≤◌, pos, ◌-ℤ◌, ◌*ℤ◌, unsigned_abs};
ghost use Rattle.std.specs.Int.{int_rem_euclid};

use super::division::wide_times;
use super::divisor::Modulus;
use planes::Plane;

/// The remainder of x − k·y, which is not negative.
pub(super) fn reduced(x: i64, k: i64, y: i64, n: u64) -> i64
    requires x_small { unsigned_abs x ≤ 2 ^ 62 }
    requires k_small { unsigned_abs k ≤ 2 ^ 62 }
    requires y_small { unsigned_abs y ≤ 2 ^ 62 }
    requires n_some { 0 < n }
    requires n_few { n ≤ 3 * 2 ^ 60 }
    ensures value { result ≡ int_rem_euclid (x -ℤ k *ℤ y) (pos n) }
    ensures bound { unsigned_abs result < n }
{
    (i128::from(x) - wide_times(k, y)).rem_euclid(i128::from(n)) as i64
}

/// A multiple x + yθ of a modulus.
#[derive(Clone, Copy)]
pub(super) struct Row {
    pub(super) x: i64,
    pub(super) y: u64,
    ghost x_bound: { unsigned_abs x ≤ 2 ^ 62 },
    ghost y_bound: { y ≤ 2 ^ 30 },
}

/// Two multiples of a modulus, whose second coordinates have the modulus's content as their greatest common divisor.
// That they are, `AreRows`, is no ghost field: it names the factors, and such a field may hold no more than a fact.
#[derive(Clone, Copy)]
pub(super) struct Rows {
    pub(super) modulus: Modulus,
    pub(super) first: Row,
    pub(super) second: Row,
}

impl Rows {
    ghost use Rattle.planar.specs.Rows.{AreRows};

    /// The modulus itself, and θ times it.
    pub(super) fn of(modulus: Modulus) -> Rows
        ensures modulus { result.modulus ≡ modulus }
        ensures are { AreRows result }
    {
        let m = modulus.divisor.element;
        let first = Row {
            x: m.x,
            y: m.y.unsigned_abs(),
        };
        let x = -m.y;
        match modulus.divisor.plane {
            Plane::Square => Rows {
                modulus,
                first,
                second: Row {
                    x,
                    y: m.x.unsigned_abs(),
                },
            },
            Plane::Hexagonal => Rows {
                modulus,
                first,
                second: Row {
                    x,
                    y: (m.x - m.y).unsigned_abs(),
                },
            },
        }
    }

    /// The second row, and what is left of the first without as many of it as the second coordinate holds.
    pub(super) fn step(self) -> Rows
        requires are { AreRows self }
        requires some { 0 < self.second.y }
        ensures are { AreRows result }
        ensures modulus { result.modulus ≡ self.modulus }
        ensures smaller { result.second.y < self.second.y }
    {
        let (first, second) = (self.first, self.second);
        let times = first.y / second.y;
        let rest = Row {
            x: reduced(first.x, times as i64, second.x, self.modulus.divisor.norm),
            y: first.y % second.y,
        };
        Rows {
            modulus: self.modulus,
            first: second,
            second: rest,
        }
    }
}
