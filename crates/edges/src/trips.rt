//! Elements that go to their numbers and back.
use refusal::Refusal;
use ring::Ring;
use std::fmt;

/// The largest norm whose canonical elements a ring lists.
const LAST: u64 = 64;

/// How many elements were asked for, how many did not come back, and the sum of their norms.
#[derive(Clone, Copy, Default)]
pub struct Tally {
    seen: u64,
    lost: u64,
    norms: u64,
}

impl Tally {
    fn count(&mut self, norm: u64, back: bool) {
        self.seen = self.seen.saturating_add(1);
        self.lost = self.lost.saturating_add(u64::from(!back));
        self.norms = self.norms.saturating_add(norm);
    }
}

impl fmt::Display for Tally {
    fn fmt<W: fmt::Write>(&self, f: &mut fmt::Formatter<W>) -> fmt::Result {
        let Tally { seen, lost, norms } = *self;
        write!(f, "{seen}, lost {lost}, sum of norms {norms}")
    }
}

/// The canonical elements of every norm that has a list.
pub fn canonicals<R: Ring>(ring: &R) -> Result<Tally, Refusal> {
    let mut tally = Tally::default();
    for norm in 1..=LAST {
        for number in 0..ring.canonical_count(norm)? {
            let e = ring.canonical_element(norm, number)?;
            let back = ring.canonical_number(e)? == number && ring.norm(e)? == norm;
            tally.count(norm, back);
        }
    }
    Ok(tally)
}

/// The residues of every canonical modulus whose norm has a list.
pub fn residues<R: Ring>(ring: &R) -> Result<Tally, Refusal> {
    let mut tally = Tally::default();
    for norm in 1..=LAST {
        for number in 0..ring.canonical_count(norm)? {
            let m = ring.canonical_element(norm, number)?;
            for place in 0..norm {
                let e = ring.residue_element(m, place)?;
                let back = ring.residue_number(m, e)? == place && ring.residue(e, m)? == e;
                tally.count(ring.norm(e)?, back);
            }
        }
    }
    Ok(tally)
}
