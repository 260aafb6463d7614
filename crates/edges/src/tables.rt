//! The cases, by the rings that they are for.
use super::calls::{Call, Point};

mod every;
mod hexagonal;
mod line;
mod plane;
mod square;

pub use every::EVERY;
pub use hexagonal::HEXAGONAL;
pub use line::LINE;
pub use plane::PLANE;
pub use square::SQUARE;

/// The largest coordinate that a ring takes.
const REACH: i64 = 1 << 30;

/// The first that it does not.
const PAST: i64 = REACH + 1;

/// A modulus with one row of residues in either plane.
const LARGE: Point = Point(REACH, REACH - 1);

/// Cases for one ring or more.
#[derive(Clone, Copy)]
pub struct Table {
    /// Points of which every call with one element is asked.
    pub points: &'static [Point],
    pub arithmetic: &'static [Call],
    pub residues: &'static [Call],
    pub canonical: &'static [Call],
    pub ideals: &'static [Call],
}
