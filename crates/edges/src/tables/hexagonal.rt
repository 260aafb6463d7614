//! Cases for the Eisenstein integers alone.
use super::{Call, LARGE, Point, REACH, Table};

const LARGE_NORM: u64 = (1 << 60) - (1 << 30) + 1;

const POINTS: &[Point] = &[Point(9, 3), Point(7, 7), Point(8, 8)];

const ARITHMETIC: &[Call] = &[
    // The remainder has a coordinate out of the limits.
    Call::Divide(Point(REACH, REACH / 2 + 1), Point(-REACH, REACH)),
];

const RESIDUES: &[Call] = &[
    Call::ResidueElement(LARGE, LARGE_NORM - 1),
    Call::ResidueElement(LARGE, LARGE_NORM),
    // The last residue, which is too large to be passed on.
    Call::ResidueNumber(LARGE, Point((1 << 60) - (1 << 30), 0)),
];

const IDEALS: &[Call] = &[
    // The norms of the second arguments are the last up to 2^29 and the next: 2^29 is none.
    Call::Gcd(Point(REACH, REACH), Point(25612, 6106)),
    Call::Gcd(Point(REACH, REACH), Point(24534, 3024)),
];

pub const HEXAGONAL: Table = Table {
    points: POINTS,
    arithmetic: ARITHMETIC,
    residues: RESIDUES,
    canonical: &[],
    ideals: IDEALS,
};
