//! Cases for the Gaussian integers alone.
use super::{Call, LARGE, Point, REACH, Table};

const LARGE_NORM: u64 = (1 << 61) - (1 << 31) + 1;

const POINTS: &[Point] = &[Point(6, 5), Point(5, 6), Point(7, 4)];

const RESIDUES: &[Call] = &[
    Call::ResidueElement(LARGE, LARGE_NORM - 1),
    Call::ResidueElement(LARGE, LARGE_NORM),
    // The last residue, which is too large to be passed on.
    Call::ResidueNumber(LARGE, Point((1 << 61) - (1 << 31), 0)),
];

const IDEALS: &[Call] = &[
    // The norms of the second arguments are 2^29 and the next that there is.
    Call::Gcd(Point(REACH, REACH), Point(16384, 16384)),
    Call::Gcd(Point(REACH, REACH), Point(22167, 6745)),
];

pub const SQUARE: Table = Table {
    points: POINTS,
    arithmetic: &[],
    residues: RESIDUES,
    canonical: &[],
    ideals: IDEALS,
};
