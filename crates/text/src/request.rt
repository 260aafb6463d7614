//! What `locate` is asked, and the values that say it.
ghost use Rattle.std.specs.Prelude.{◌≡◌, ◌<◌, length, Some};
ghost use Rattle.text.specs.Requests.{coordinates_of, elements, entries_of, matrix_answer, number_of, rank_answer, rank_of, ring_answer, size};
ghost use Rattle.text.specs.Written.{ring_written};

use super::parts::cut;
use super::values::{element, number};
use planes::Plane;
use refusal::Cause;
use ring::{Coordinates, Element};
use std::fmt;

/// A ring that a text can name.
#[derive(Clone, Copy, PartialEq, Eq, Debug)]
pub enum RingName {
    Integers,
    Gaussian,
    Eisenstein,
}

impl RingName {
    /// What an element's coordinates mean in the ring.
    // A property of a ring and no conversion: the coordinates do not stand for it.
    pub fn coordinates(self) -> Coordinates
        ensures { result ≡ coordinates_of self }
    {
        match self {
            RingName::Integers => Coordinates::One,
            RingName::Gaussian => Plane::Square.axes(),
            RingName::Eisenstein => Plane::Hexagonal.axes(),
        }
    }
}

/// The ring of the letter.
impl TryFrom<&[u8]> for RingName {
    type Error = Cause;

    ghost try_from_gives = { λ bytes r. r ≡ ring_answer bytes.now };

    fn try_from(bytes: &[u8]) -> Result<RingName, Cause> {
        match bytes {
            b"Z" => Ok(RingName::Integers),
            b"G" => Ok(RingName::Gaussian),
            b"E" => Ok(RingName::Eisenstein),
            _ => Err(Cause::Value),
        }
    }
}

/// The letter of the ring.
impl fmt::Display for RingName {
    ghost output = { λ ring. Some (ring_written ring) };

    fn fmt<W: fmt::Write>(&self, f: &mut fmt::Formatter<W>) -> fmt::Result {
        f.write_str(match self {
            RingName::Integers => "Z",
            RingName::Gaussian => "G",
            RingName::Eisenstein => "E",
        })
    }
}

/// How many rows and columns a matrix has.
#[derive(Clone, Copy, PartialEq, Eq, Debug)]
pub enum Rank {
    One = 1,
    Two = 2,
    Three = 3,
}

impl Rank {
    /// The rank as a number.
    pub fn number(self) -> u8
        ensures { result ≡ number_of self }
    {
        self as u8
    }
}

/// A rank is a number from 1 to 3.
impl TryFrom<&[u8]> for Rank {
    type Error = Cause;

    ghost try_from_gives = { λ bytes r. r ≡ rank_answer bytes.now };

    fn try_from(bytes: &[u8]) -> Result<Rank, Cause> {
        match number(bytes)? {
            1 => Ok(Rank::One),
            2 => Ok(Rank::Two),
            3 => Ok(Rank::Three),
            _ => Err(Cause::Value),
        }
    }
}

/// A square matrix by rows, with a variant for each rank.
#[derive(Clone, Copy, PartialEq, Eq, Debug)]
pub enum Matrix {
    One([Element; 1]),
    Two([Element; 4]),
    Three([Element; 9]),
}

impl Matrix {
    /// Reads the elements of a matrix of that rank.
    pub(super) fn read(k: Coordinates, rank: Rank, bytes: &[u8]) -> Result<Matrix, Cause>
        ensures { result ≡ matrix_answer k rank bytes.now }
    {
        match rank {
            Rank::One => entries(k, bytes).map(Matrix::One),
            Rank::Two => entries(k, bytes).map(Matrix::Two),
            Rank::Three => entries(k, bytes).map(Matrix::Three),
        }
    }

    /// How many rows and columns it has.
    pub fn rank(&self) -> Rank
        ensures { result ≡ rank_of self.now }
    {
        match self {
            Matrix::One(_) => Rank::One,
            Matrix::Two(_) => Rank::Two,
            Matrix::Three(_) => Rank::Three,
        }
    }

    /// The entries by rows.
    pub fn entries(&self) -> &[Element]
        ensures all { result.now ≡ entries_of self.now }
        ensures count { length result.now ≡ size (rank_of self.now) }
        ensures some { 0 < length result.now }
    {
        match self {
            Matrix::One(entries) => entries,
            Matrix::Two(entries) => entries,
            Matrix::Three(entries) => entries,
        }
    }
}

/// A matrix over a ring.
#[derive(Clone, Copy, PartialEq, Eq, Debug)]
pub struct Request {
    pub ring: RingName,
    pub matrix: Matrix,
}

// Just `N` elements with commas between them.
fn entries<const N: usize>(k: Coordinates, bytes: &[u8]) -> Result<[Element; N], Cause>
    ensures { result ≡ elements k N (Some bytes.now) }
{
    let mut entries = [Element::from(0); N];
    let mut rest = Some(bytes);
    for entry in entries.iter_mut() {
        let Some(part) = rest else {
            return Err(Cause::Value);
        };
        let (first, after) = cut(part, b',');
        *entry = element(k, first)?;
        rest = after;
    }
    match rest {
        None => Ok(entries),
        Some(_) => Err(Cause::Value),
    }
}
