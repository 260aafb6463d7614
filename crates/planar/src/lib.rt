//! The Gaussian and the Eisenstein integers as rings, written once for both planes.
#![tactic(auto)]

ghost use Rattle.planar.specs.Basis.{IsBasis};
ghost use Rattle.planes.specs.Planes.{plane};
ghost use Rattle.ring.specs.Answers.{CanonicalAnswer, DivisionAnswer, ResidueAnswer, canonical_element_answer, canonical_number_answer, count_answer, modulus_check, norm_answer, residue_element_answer, residue_number_answer};
ghost use Rattle.ring.specs.Elements.{at, passed};
ghost use Rattle.std.specs.Prelude.{◌≡◌, IfOk};

use planes::Plane;
use refusal::{Cause, Refusal};
use ring::{Admitted, Division, Element, admit_norm};

mod basis;
mod canonical;
mod division;
mod divisor;
mod norms;
mod residues;
mod rings;
mod rows;

use basis::Basis;
use canonical::{Canonicals, POINTS, index_of, to_sector};
use divisor::{Divisor, Modulus};
use norms::{admit, in_sector, norm_of};
pub use rings::{
    EISENSTEIN, Eisenstein, GAUSSIAN, Gaussian, HexagonalPlane, PlaneRing, SquarePlane,
};

/// The norm of an element.
pub fn norm(p: Plane, a: Element) -> Result<u64, Refusal>
    ensures { result ≡ norm_answer (plane p) a }
{
    Ok(norm_of(p, admit(p, a)?))
}

/// The associate in the sector, or 0.
pub fn canonical_associate(p: Plane, a: Element) -> Result<Element, Refusal>
    ensures { CanonicalAnswer (plane p) a result }
{
    Ok(to_sector(p, admit(p, a)?))
}

/// How many canonical elements have this norm.
pub fn canonical_count(p: Plane, norm: u64) -> Result<u64, Refusal>
    ensures { result ≡ count_answer (plane p) norm }
{
    admit_norm(norm)?;
    Ok(Canonicals { plane: p, norm }.count_before(POINTS))
}

/// The canonical element of this norm and number.
pub fn canonical_element(p: Plane, norm: u64, number: u64) -> Result<Element, Refusal>
    ensures { result ≡ canonical_element_answer (plane p) norm number }
{
    admit_norm(norm)?;
    Canonicals { plane: p, norm }
        .nth(number)
        .ok_or(Cause::Outside.into())
}

/// The number of a canonical element among those of its norm.
pub fn canonical_number(p: Plane, a: Element) -> Result<u64, Refusal>
    ensures { result ≡ canonical_number_answer (plane p) a }
{
    let norm = norm_of(p, admit(p, a)?);
    if !in_sector(p, a) || norm > 64 {
        return Err(Cause::Outside.into());
    }
    Ok(Canonicals { plane: p, norm }.count_before(index_of(a)))
}

/// The nearest quotient, and the remainder that it leaves.
pub fn divide(p: Plane, a: Element, b: Element) -> Result<Division, Refusal>
    ensures { DivisionAnswer (plane p) a b result }
{
    let a = admit(p, a)?;
    let b = admit(p, b)?;
    let Some(divisor) = Divisor::of(p, b) else {
        return Err(Cause::Modulus.into());
    };
    Ok(divisor.divide(a))
}

/// The basis of a modulus; refuses one that is 0 or not canonical.
fn basis_for(p: Plane, m: Admitted) -> Result<Basis, Refusal>
    ensures check { passed result ≡ modulus_check (plane p) (at m.x m.y) }
    ensures basis { IfOk result (IsBasis p (at m.x m.y)) }
{
    Ok(Basis::of(Modulus::of(p, m)?))
}

/// The residue modulo `m` that is congruent to `a`.
pub fn residue(p: Plane, a: Element, m: Element) -> Result<Element, Refusal>
    ensures { ResidueAnswer (plane p) a m result }
{
    let a = admit(p, a)?;
    let m = admit(p, m)?;
    Ok(basis_for(p, m)?.residue(a))
}

/// The residue modulo `m` of this number.
pub fn residue_element(p: Plane, m: Element, number: u64) -> Result<Element, Refusal>
    ensures { result ≡ residue_element_answer (plane p) m number }
{
    let basis = basis_for(p, admit(p, m)?)?;
    if number >= basis.norm {
        return Err(Cause::Outside.into());
    }
    Ok(basis.residue_at(number))
}

/// The number of the residue `a` modulo `m`.
pub fn residue_number(p: Plane, m: Element, a: Element) -> Result<u64, Refusal>
    ensures { result ≡ residue_number_answer (plane p) m a }
{
    let m = admit(p, m)?;
    let a = admit(p, a)?;
    basis_for(p, m)?.number(a).ok_or(Cause::Outside.into())
}
