//! The points of a plane as a ring.
ghost use Rattle.planes.specs.Planes.{plane};
ghost use Rattle.planes.specs.declared.Plane.TheVariants.{Square, Hexagonal};
ghost use Rattle.planes.proofs.Laws;
ghost use Rattle.ring.specs.Answers.{DivisionAnswer, ResidueAnswer};

use planes::{HasPlane, Plane};
use refusal::Refusal;
use ring::{Coordinates, Division, Element, Ring};

/// The ring of the points of a plane, which its parameter names.
#[derive(Clone, Copy)]
pub struct PlaneRing<P>(pub P);

/// The square plane.
#[derive(Clone, Copy)]
pub struct SquarePlane;

/// The hexagonal plane.
#[derive(Clone, Copy)]
pub struct HexagonalPlane;

/// The Gaussian integers x + yi, the points of a square lattice.
pub type Gaussian = PlaneRing<SquarePlane>;

/// The Eisenstein integers x + yω with ω² = −1 − ω, the points of a hexagonal lattice.
pub type Eisenstein = PlaneRing<HexagonalPlane>;

pub const GAUSSIAN: Gaussian = PlaneRing(SquarePlane);

pub const EISENSTEIN: Eisenstein = PlaneRing(HexagonalPlane);

impl HasPlane for SquarePlane {
    ghost plane = { Square };

    fn plane(&self) -> Plane {
        Plane::Square
    }
}

impl HasPlane for HexagonalPlane {
    ghost plane = { Hexagonal };

    fn plane(&self) -> Plane {
        Plane::Hexagonal
    }
}

// Division in the plane that a type names. Its answer is a relation, and is carried over to that plane here.
fn divide_named<P: HasPlane>(named: &P, a: Element, b: Element) -> Result<Division, Refusal>
    ensures { DivisionAnswer (plane P.plane) a b result }
{
    super::divide(named.plane(), a, b)
}

// The same of residues.
fn residue_named<P: HasPlane>(named: &P, a: Element, m: Element) -> Result<Element, Refusal>
    ensures { ResidueAnswer (plane P.plane) a m result }
{
    super::residue(named.plane(), a, m)
}

// Each call is one function of the plane as a value, two of them by way of the functions above: proofs go by cases on the
// plane, which a type parameter has not.
impl<P: HasPlane> Ring for PlaneRing<P> {
    ghost meaning = { plane P.plane };

    ghost laws = { Laws.laws P.plane };

    fn coordinates(&self) -> Coordinates {
        self.0.plane().axes()
    }

    fn norm(&self, a: Element) -> Result<u64, Refusal> {
        super::norm(self.0.plane(), a)
    }

    fn canonical_associate(&self, a: Element) -> Result<Element, Refusal> {
        super::canonical_associate(self.0.plane(), a)
    }

    fn divide(&self, a: Element, b: Element) -> Result<Division, Refusal> {
        divide_named(&self.0, a, b)
    }

    fn residue(&self, a: Element, m: Element) -> Result<Element, Refusal> {
        residue_named(&self.0, a, m)
    }

    fn canonical_count(&self, norm: u64) -> Result<u64, Refusal> {
        super::canonical_count(self.0.plane(), norm)
    }

    fn canonical_element(&self, norm: u64, number: u64) -> Result<Element, Refusal> {
        super::canonical_element(self.0.plane(), norm, number)
    }

    fn canonical_number(&self, a: Element) -> Result<u64, Refusal> {
        super::canonical_number(self.0.plane(), a)
    }

    fn residue_element(&self, m: Element, number: u64) -> Result<Element, Refusal> {
        super::residue_element(self.0.plane(), m, number)
    }

    fn residue_number(&self, m: Element, a: Element) -> Result<u64, Refusal> {
        super::residue_number(self.0.plane(), m, a)
    }
}
