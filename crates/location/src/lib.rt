//! Where a lattice of rank 1 stands among those of its index.
#![tactic(auto)]

ghost use Rattle.location.specs.Located.{Located};

use refusal::{Cause, Refusal};
use ring::{Element, Ring};

/// The largest coordinate of an entry.
const ENTRY: u64 = 99;

/// The largest index of a lattice.
const INDEX: u64 = 64;

/// A lattice by its index, the number of lattices of that index, its own number among them, and its form.
#[derive(Clone, Copy)]
pub struct Location {
    pub index: u64,
    pub sublattices: u64,
    pub lattice: u64,
    pub form: Element,
}

/// The multiples of `e`: their index is its norm, and their form its canonical associate.
pub fn locate_one<R: Ring>(ring: &R, e: Element) -> Result<Location, Refusal>
    ensures { Located R.meaning e result }
{
    // Entries are small, and have no second coordinate in a ring with one.
    if !ring.coordinates().within(ENTRY, e) {
        return Err(Cause::Coordinate.into());
    }
    let index = ring.norm(e)?;
    if index == 0 {
        return Err(Cause::Singular.into());
    }
    if index > INDEX {
        return Err(Cause::Outside.into());
    }
    let form = ring.canonical_associate(e)?;
    Ok(Location {
        index,
        sublattices: ring.canonical_count(index)?,
        lattice: ring.canonical_number(form)?,
        form,
    })
}
