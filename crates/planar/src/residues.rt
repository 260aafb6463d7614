//! Residues, by a basis of the multiples of the modulus.
ghost use Rattle.std.specs.Prelude.{◌≡◌, ◌/◌, ◌%◌, ◌<◌, pos, ◌-ℤ◌, ◌*ℤ◌};
ghost use Rattle.planar.specs.Basis.{IsBasis};
ghost use Rattle.planar.specs.Numbering.{number_of};
ghost use Rattle.ring.specs.Elements.{at};
ghost use Rattle.std.specs.Int.{int_div_euclid, int_rem_euclid};

use super::basis::Basis;
use super::divisor::Modulus;
use super::rows::{Rows, reduced};
use ring::{Admitted, Element};

impl Basis {
    /// A basis of the multiples of a canonical modulus.
    pub(super) fn of(modulus: Modulus) -> Basis
        ensures { IsBasis modulus.divisor.plane (at modulus.divisor.element.x modulus.divisor.element.y) result }
    {
        let mut rows = Rows::of(modulus);
        while rows.second.y != 0 {
            rows = rows.step();
        }
        let norm = modulus.divisor.norm;
        Basis {
            step: rows.first.x,
            content: rows.first.y,
            width: norm / rows.first.y,
            norm,
        }
    }

    /// The residue that is congruent to an element.
    pub(super) fn residue(self, a: Admitted) -> Element
        ensures x { result.x ≡ int_rem_euclid (a.x -ℤ int_div_euclid a.y (pos self.content) *ℤ self.step) (pos self.width) }
        ensures y { result.y ≡ int_rem_euclid a.y (pos self.content) }
    {
        let content = self.content as i64;
        Element {
            x: reduced(a.x, a.y.div_euclid(content), self.step, self.width),
            y: a.y.rem_euclid(content),
        }
    }

    /// The residue of a number below the norm.
    pub(super) fn residue_at(self, number: u64) -> Element
        requires { number < self.norm }
        ensures { result ≡ at (pos (number % self.width)) (pos (number / self.width)) }
    {
        Element {
            x: (number % self.width) as i64,
            y: (number / self.width) as i64,
        }
    }

    /// The number of an element, if it is a residue.
    pub(super) fn number(self, a: Admitted) -> Option<u64>
        ensures { result ≡ number_of self (at a.x a.y) }
    {
        if a.x < 0 || a.y < 0 {
            return None;
        }
        let (x, y) = (a.x as u64, a.y as u64);
        if x < self.width && y < self.content {
            Some(y * self.width + x)
        } else {
            None
        }
    }
}
