//! The Gaussian and the Eisenstein integers: what they mean, and that they keep the laws of a ring.
//!
//! Both are pairs x + yθ with θ² = −1 + tθ, so one theory serves the two: t is 0 for the square plane, where θ is the
//! imaginary unit, and −1 for the hexagonal plane, where θ is a third root of one.
#![tactic(auto)]

ghost use Rattle.planes.specs.Planes.{axes, plane};
ghost use Rattle.ring.specs.Meaning.{Laws};
ghost use Rattle.std.specs.Prelude.{◌≡◌};

use ring::Coordinates;

/// The plane in which the ring's elements are the points of a lattice.
#[derive(Clone, Copy)]
pub enum Plane {
    /// The Gaussian integers: θ² = −1.
    Square,
    /// The Eisenstein integers: θ² = −1 − θ.
    Hexagonal,
}

impl Plane {
    /// The coordinates of the plane's ring: θ² = −1, or θ² = −1 − θ.
    // A property of a plane and no conversion: the coordinates do not stand for it.
    pub fn axes(self) -> Coordinates
        ensures { result ≡ axes self }
    {
        match self {
            Plane::Square => Coordinates::Two(-1, 0),
            Plane::Hexagonal => Coordinates::Two(-1, -1),
        }
    }
}

/// A type that stands for a plane.
pub trait HasPlane {
    ghost use Rattle.planes.specs.declared.Plane.{Plane};

    ghost plane: { Plane };

    fn plane(&self) -> Plane
        ensures { result ≡ plane };
}

/// Both planes keep every law of a ring.
pub fn planes_keep_the_laws()
    ensures { (p : Plane) → Laws (plane p) }
{}
