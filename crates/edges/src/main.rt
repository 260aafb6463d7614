//! Prints what the three rings answer at the edges of their calls.
#![tactic(auto)]

use integers::Integers;
use planar::{EISENSTEIN, GAUSSIAN};
use refusal::Refusal;
use ring::Ring;
use std::fmt::Display;
use std::io;

mod calls;
mod tables;
mod trips;

use calls::{Call, Point, ask};
use tables::{EVERY, HEXAGONAL, LINE, PLANE, SQUARE, Table};

/// Prints a case: the answer, or the refusal's number and place.
fn show<A: Display + Drop>(
    rt: &impl Print,
    name: &str,
    case: impl Display + Drop,
    answer: Result<A, Refusal>,
) -> io::Result<()> {
    match answer {
        Ok(given) => println!(rt; "{name} {case} = {given}"),
        Err(Refusal { cause, place }) => {
            let number = cause.number();
            println!(rt; "{name} {case} refused {number} at {place}")
        }
    }
}

/// A ring, and the name that its lines begin with.
#[derive(Clone, Copy)]
struct Named<'a, R> {
    name: &'a str,
    ring: &'a R,
}

impl<'a, R: Ring> Named<'a, R> {
    fn new(name: &'a str, ring: &'a R) -> Named<'a, R> {
        Named { name, ring }
    }

    fn show_calls(&self, rt: &impl Print, calls: &[Call]) -> io::Result<()> {
        for &call in calls {
            show(rt, self.name, call, ask(self.ring, call))?;
        }
        Ok(())
    }

    fn show_point(&self, rt: &impl Print, a: Point) -> io::Result<()> {
        let calls = [
            Call::Norm(a),
            Call::IsUnit(a),
            Call::CanonicalAssociate(a),
            Call::CanonicalNumber(a),
        ];
        self.show_calls(rt, &calls)
    }

    fn show_table(&self, rt: &impl Print, table: Table) -> io::Result<()> {
        for &a in table.points {
            self.show_point(rt, a)?;
        }
        for calls in [
            table.arithmetic,
            table.residues,
            table.canonical,
            table.ideals,
        ] {
            self.show_calls(rt, calls)?;
        }
        Ok(())
    }

    fn show_all(&self, rt: &impl Print, tables: &[Table]) -> io::Result<()> {
        let Named { name, ring } = *self;
        for &table in tables {
            self.show_table(rt, table)?;
        }
        show(rt, name, "every canonical", trips::canonicals(ring))?;
        show(rt, name, "every residue", trips::residues(ring))
    }
}

fn main(rt: HostRuntime) -> io::Result<()> {
    Named::new("Z", &Integers).show_all(&rt, &[EVERY, LINE])?;
    Named::new("G", &GAUSSIAN).show_all(&rt, &[EVERY, PLANE, SQUARE])?;
    Named::new("E", &EISENSTEIN).show_all(&rt, &[EVERY, PLANE, HEXAGONAL])
}
