//! The integers as a ring.
#![tactic(auto)]

ghost use Rattle.std.specs.Prelude.{◌≡◌, pos, ◌≤ℤ◌, ◌<ℤ◌, IfOk};
ghost use Rattle.ring.specs.Answers.{DivisionAnswer, modulus_check};
ghost use Rattle.ring.specs.Elements.{at, passed};
ghost use Rattle.integers.specs.Integers.{integers};
ghost use Rattle.integers.specs.Laws.{integers_laws};

use refusal::{Cause, Refusal};
use ring::{Admitted, Coordinates, Division, Element, Ring, admit_norm};

/// The ring of the integers: the norm is the absolute value, and the canonical elements are those that are not negative.
#[derive(Clone, Copy)]
pub struct Integers;

/// A number that residues are taken by.
#[derive(Clone, Copy)]
struct Modulus {
    value: i64,
    ghost positive: { pos 0 <ℤ value },
}

/// Refuses what is not positive: a negative number is not canonical, and modulo 0 there is no finite list of residues.
impl TryFrom<Admitted> for Modulus {
    type Error = Refusal;

    ghost try_from_gives = { λ m r. (passed r ≡ modulus_check integers (at m.x m.y)) × IfOk r (λ n. n.value ≡ m.x) };

    fn try_from(m: Admitted) -> Result<Modulus, Refusal> {
        if 0 < m.x {
            Ok(Modulus { value: m.x })
        } else {
            Err(Cause::Modulus.into())
        }
    }
}

impl Ring for Integers {
    ghost meaning = { integers };

    ghost laws = { integers_laws };

    fn coordinates(&self) -> Coordinates {
        Coordinates::One
    }

    fn norm(&self, a: Element) -> Result<u64, Refusal> {
        let a = Coordinates::One.admit(a)?;
        Ok(a.x.unsigned_abs())
    }

    fn canonical_associate(&self, a: Element) -> Result<Element, Refusal> {
        let a = Coordinates::One.admit(a)?;
        Ok(Element::from(a.x.abs()))
    }

    /// The remainder is not negative, which leaves one quotient and one remainder.
    fn divide(&self, a: Element, b: Element) -> Result<Division, Refusal>
        ensures answer { DivisionAnswer integers a b result }
        ensures natural { IfOk result (λ d. pos 0 ≤ℤ d.remainder.x) }
    {
        let a = Coordinates::One.admit(a)?;
        let b = Coordinates::One.admit(b)?;
        if b.x == 0 {
            return Err(Cause::Modulus.into());
        }
        Ok(Division {
            quotient: Element::from(a.x.div_euclid(b.x)),
            remainder: Element::from(a.x.rem_euclid(b.x)),
        })
    }

    fn residue(&self, a: Element, m: Element) -> Result<Element, Refusal> {
        let a = Coordinates::One.admit(a)?;
        let m = Coordinates::One.admit(m)?;
        let modulus = Modulus::try_from(m)?;
        Ok(Element::from(a.x.rem_euclid(modulus.value)))
    }

    fn canonical_count(&self, norm: u64) -> Result<u64, Refusal> {
        admit_norm(norm)?;
        Ok(1)
    }

    fn canonical_element(&self, norm: u64, number: u64) -> Result<Element, Refusal> {
        admit_norm(norm)?;
        if number == 0 {
            Ok(Element::from(norm as i64))
        } else {
            Err(Cause::Outside.into())
        }
    }

    fn canonical_number(&self, a: Element) -> Result<u64, Refusal> {
        let a = Coordinates::One.admit(a)?;
        if (1..=64).contains(&a.x) {
            Ok(0)
        } else {
            Err(Cause::Outside.into())
        }
    }

    fn residue_element(&self, m: Element, number: u64) -> Result<Element, Refusal> {
        let m = Coordinates::One.admit(m)?;
        let modulus = Modulus::try_from(m)?;
        if number < modulus.value.unsigned_abs() {
            Ok(Element::from(number as i64))
        } else {
            Err(Cause::Outside.into())
        }
    }

    fn residue_number(&self, m: Element, a: Element) -> Result<u64, Refusal> {
        let m = Coordinates::One.admit(m)?;
        let a = Coordinates::One.admit(a)?;
        let modulus = Modulus::try_from(m)?;
        if (0..modulus.value).contains(&a.x) {
            Ok(a.x as u64)
        } else {
            Err(Cause::Outside.into())
        }
    }
}
