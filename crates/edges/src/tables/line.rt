//! Cases for a ring with one coordinate, where a second one is out of its limits.
use super::{Call, Point, REACH, Table};

/// The largest norm of a second argument of `gcd`.
const LIMIT: i64 = 1 << 29;

const POINTS: &[Point] = &[Point(0, 1), Point(5, -1), Point(0, i64::MIN)];

const ARITHMETIC: &[Call] = &[
    Call::Sum(Point(5, 1), Point(5, 0)),
    Call::Sum(Point(5, 0), Point(5, 1)),
    Call::Product(Point(5, 1), Point(0, 0)),
    Call::Product(Point(0, 0), Point(5, 1)),
    Call::Divide(Point(7, 1), Point(0, 0)),
    Call::Divide(Point(7, 0), Point(0, 1)),
];

const RESIDUES: &[Call] = &[
    Call::Residue(Point(7, 1), Point(0, 0)),
    Call::Residue(Point(7, 0), Point(3, 1)),
    Call::ResidueElement(Point(3, 1), 0),
    Call::ResidueNumber(Point(3, 1), Point(0, 0)),
    Call::ResidueNumber(Point(3, 0), Point(0, 1)),
];

const IDEALS: &[Call] = &[
    Call::Gcd(Point(12, 1), Point(0, 0)),
    Call::Gcd(Point(12, 0), Point(0, 1)),
    Call::Gcd(Point(REACH, 0), Point(LIMIT, 0)),
    Call::Gcd(Point(REACH, 0), Point(-LIMIT, 0)),
    Call::Gcd(Point(REACH, 0), Point(LIMIT + 1, 0)),
    Call::Gcd(Point(REACH, 0), Point(-LIMIT - 1, 0)),
    Call::Congruent(Point(0, 1), Point(0, 0), Point(0, 0)),
    Call::Congruent(Point(0, 0), Point(0, 1), Point(0, 0)),
    Call::Congruent(Point(0, 0), Point(0, 0), Point(0, 1)),
];

pub const LINE: Table = Table {
    points: POINTS,
    arithmetic: ARITHMETIC,
    residues: RESIDUES,
    canonical: &[],
    ideals: IDEALS,
};
