//! Where a supercell matrix is filed: a text in, the lattice's place or a refusal out.
#![tactic(auto)]

ghost use Rattle.filing.specs.Filed.{FiledAnswer, Placed};
ghost use Rattle.filing.specs.Report.{report};
ghost use Rattle.std.specs.Prelude.{Some};
ghost use Rattle.text.specs.Written.{element_written};

use integers::Integers;
use location::{Location, locate_one};
use planar::{EISENSTEIN, GAUSSIAN};
use refusal::Refusal;
use ring::{Coordinates, Element, Ring};
use std::fmt;
use text::{Matrix, RingName};

/// A lattice over a ring, and where it stands.
#[derive(Clone, Copy)]
pub struct Filed {
    pub ring: RingName,
    pub location: Location,
}

/// The place of the multiples of `e` in the ring of that name.
pub fn place(ring: RingName, e: Element) -> Result<Location, Refusal>
    ensures { Placed ring e result }
{
    // By cases and not by `dyn Ring`, which would hide from the contract which ring answers.
    match ring {
        RingName::Integers => locate_one(&Integers, e),
        RingName::Gaussian => locate_one(&GAUSSIAN, e),
        RingName::Eisenstein => locate_one(&EISENSTEIN, e),
    }
}

/// Reads a request and files its matrix; `None` for a rank that has no Hermite forms here yet.
pub fn file(request: &[u8]) -> Result<Option<Filed>, Refusal>
    ensures { FiledAnswer request.now result }
{
    let read = text::read(request)?;
    let Matrix::One(entries) = read.matrix else {
        return Ok(None);
    };
    let location = place(read.ring, entries[0])?;
    Ok(Some(Filed {
        ring: read.ring,
        location,
    }))
}

/// An element as texts write it.
#[derive(Clone, Copy)]
struct Written {
    k: Coordinates,
    e: Element,
}

impl fmt::Display for Written {
    ghost output = { λ w. Some (element_written w.k w.e) };

    fn fmt<W: fmt::Write>(&self, f: &mut fmt::Formatter<W>) -> fmt::Result {
        let x = self.e.x;
        let y = self.e.y;
        match self.k {
            Coordinates::One => write!(f, "{x}"),
            Coordinates::Two(_, _) => write!(f, "{x}:{y}"),
        }
    }
}

/// The lines that tell the place, the last without its end.
impl fmt::Display for Filed {
    ghost output = { λ f. Some (report f) };

    fn fmt<W: fmt::Write>(&self, f: &mut fmt::Formatter<W>) -> fmt::Result {
        let ring = self.ring;
        let index = self.location.index;
        let sublattices = self.location.sublattices;
        let lattice = self.location.lattice;
        let h = Written {
            k: self.ring.coordinates(),
            e: self.location.form,
        };
        write!(
            f,
            "ring={ring}\nrank=1\nindex={index}\nsublattices={sublattices}\nlattice={lattice}\nh={h}"
        )
    }
}
