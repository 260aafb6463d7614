//! One trait for every ring: its exact arithmetic, what else it has, and the laws that code above it may use.
#![tactic(auto)]

ghost use Rattle.std.specs.Prelude.{◌≡◌};
ghost use Rattle.ring.specs.Answers.{sum_answer, product_answer, norm_answer, unit_answer, CanonicalAnswer, DivisionAnswer, ResidueAnswer, count_answer, canonical_element_answer, canonical_number_answer, residue_element_answer, residue_number_answer};
ghost use Rattle.ring.specs.Meaning.{Meaning, Laws};

use refusal::Refusal;

mod admitted;
mod arithmetic;
mod elements;

pub use admitted::{Admitted, Products};
pub use elements::{Coordinates, Division, Element, admit_norm};

/// A ring with a norm and a division, one canonical element among associates, and numbered residues.
///
/// Elements passed to a call have coordinates from −2^30 to 2^30, and no second coordinate but 0 in a ring that has
/// one; others are refused as `Coordinate`. No call keeps a state.
pub trait Ring {
    /// The ring's coordinates, norm, canonical elements and residues.
    ghost meaning: { Meaning };

    /// The coordinates of an element, and the arithmetic that follows from them.
    fn coordinates(&self) -> Coordinates
        ensures { result ≡ meaning.coordinates };

    fn sum(&self, a: Element, b: Element) -> Result<Element, Refusal>
        ensures { result ≡ sum_answer meaning a b }
    {
        let k = self.coordinates();
        let a = k.admit(a)?;
        let b = k.admit(b)?;
        Ok(k.sum(a, b))
    }

    fn product(&self, a: Element, b: Element) -> Result<Element, Refusal>
        ensures { result ≡ product_answer meaning a b }
    {
        let k = self.coordinates();
        let a = k.admit(a)?;
        let b = k.admit(b)?;
        Ok(k.product(a, b))
    }

    fn norm(&self, a: Element) -> Result<u64, Refusal>
        ensures { result ≡ norm_answer meaning a };

    /// Whether some element multiplies `a` to 1.
    fn is_unit(&self, a: Element) -> Result<bool, Refusal>
        ensures { result ≡ unit_answer meaning a }
    {
        Ok(self.norm(a)? == 1)
    }

    /// The associate of `a` that stands for all of them.
    fn canonical_associate(&self, a: Element) -> Result<Element, Refusal>
        ensures { CanonicalAnswer meaning a result };

    /// A quotient, and a remainder of smaller norm than `b`; `Modulus` if `b` is 0.
    fn divide(&self, a: Element, b: Element) -> Result<Division, Refusal>
        ensures { DivisionAnswer meaning a b result };

    /// The residue modulo `m` that is congruent to `a`; `Modulus` if `m` is 0 or not canonical.
    fn residue(&self, a: Element, m: Element) -> Result<Element, Refusal>
        ensures { ResidueAnswer meaning a m result };

    /// How many canonical elements have this norm; `Index` if it is not 1 to 64.
    fn canonical_count(&self, norm: u64) -> Result<u64, Refusal>
        ensures { result ≡ count_answer meaning norm };

    /// The canonical element of a norm and number; `Index`, then `Outside` past the end of the list.
    fn canonical_element(&self, norm: u64, number: u64) -> Result<Element, Refusal>
        ensures { result ≡ canonical_element_answer meaning norm number };

    /// The number of `a` among the canonical elements of its norm; `Outside` if it is in no such list up to norm 64.
    fn canonical_number(&self, a: Element) -> Result<u64, Refusal>
        ensures { result ≡ canonical_number_answer meaning a };

    /// The residue modulo `m` of this number; `Modulus`, then `Outside` past the end of the list.
    fn residue_element(&self, m: Element, number: u64) -> Result<Element, Refusal>
        ensures { result ≡ residue_element_answer meaning m number };

    /// The number of the residue `a` modulo `m`; `Modulus`, then `Outside` if `a` is no residue.
    fn residue_number(&self, m: Element, a: Element) -> Result<u64, Refusal>
        ensures { result ≡ residue_number_answer meaning m a };

    ghost laws: { Laws meaning };
}
