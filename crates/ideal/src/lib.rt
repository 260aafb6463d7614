//! Ideals and congruences, over every ring.
#![tactic(auto)]

ghost use Rattle.ring.specs.Elements.{ops};
ghost use Rattle.ideal.specs.Answers.{CongruenceAnswer, GeneratorAnswer};
ghost use Rattle.ideal.specs.Ideal.{OneGenerator};

use refusal::{Cause, Refusal};
use ring::{Element, Ring};

// An element of at most this norm has coordinates that a ring's calls accept, and so has every remainder after it.
const NORM_LIMIT: u64 = 1 << 29;

/// The canonical generator of the ideal of `a` and `b`, by Euclid's algorithm.
///
/// `Coordinate` also if the norm of `b` is above 2^29, since a remainder could then leave the limits; `Modulus` if `b` is 0.
pub fn gcd<R: Ring>(ring: &R, a: Element, b: Element) -> Result<Element, Refusal>
    ensures { GeneratorAnswer R.meaning a b result }
{
    ring.coordinates().admit(a)?;
    let size = ring.norm(b)?;
    if size > NORM_LIMIT {
        return Err(Cause::Coordinate.into());
    }
    if size == 0 {
        return Err(Cause::Modulus.into());
    }
    let (mut dividend, mut divisor) = (a, b);
    loop {
        let remainder = ring.divide(dividend, divisor)?.remainder;
        if ring.norm(remainder)? == 0 {
            return ring.canonical_associate(divisor);
        }
        (dividend, divisor) = (divisor, remainder);
    }
}

/// Two canonical elements that generate the ideal of the same two are equal, so `gcd` has no choice.
pub fn generator_is_unique<R: Ring>(_ring: &R)
    ensures { OneGenerator (ops R.meaning.coordinates) R.meaning.euclidean }
{}

/// Whether `a` and `b` are congruent modulo `m`; `Modulus` if `m` is 0 or not canonical.
pub fn congruent<R: Ring>(ring: &R, a: Element, b: Element, m: Element) -> Result<bool, Refusal>
    ensures { CongruenceAnswer R.meaning a b m result }
{
    // All coordinates are checked before the modulus.
    ring.coordinates().admit(b)?;
    Ok(ring.residue(a, m)? == ring.residue(b, m)?)
}
