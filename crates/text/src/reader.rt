//! The reader of a text, line by line.
ghost use Rattle.refusal.specs.Numbers.{refused};
ghost use Rattle.std.specs.Prelude.{◌≡◌};
ghost use Rattle.text.specs.Lines.{Kept, counted, entered, finished, line_answer, line_of, outcome, placed, seen};
ghost use Rattle.text.specs.declared.state.State.TheVariants.{Ring};

use super::parts::cut;
use super::request::{Matrix, Rank, Request, RingName};
use super::state::State;
use refusal::{Cause, Refusal};

/// What is left of a text, the number of its first line, and what that line has to be.
#[derive(Drop)]
pub(super) struct Reader<'a> {
    rest: &'a [u8],
    line: u64,
    state: State,
    ghost waits: { line ≡ line_of state },
}

impl<'a> Reader<'a> {
    /// A text of which nothing is read.
    pub(super) fn new(text: &'a [u8]) -> Reader<'a>
        ensures rest { result.rest.now ≡ text.now }
        ensures line { result.line ≡ 1 }
        ensures state { result.state ≡ Ring }
    {
        Reader {
            rest: text,
            line: 1,
            state: State::Ring,
        }
    }

    // A fault in the next line.
    fn refusal(&self, cause: Cause) -> Refusal
        ensures { result ≡ refused cause self.now.line }
    {
        Refusal {
            cause,
            place: self.line,
        }
    }

    // What follows a line with this key and value.
    fn enter(&self, key: &[u8], value: &[u8]) -> Result<State, Cause>
        ensures { result ≡ entered self.now.state key.now value.now }
    {
        // A rule of the project: what a line has to be is one match over the state and the key.
        match (self.state, key) {
            (State::Ring, b"ring") => Ok(State::Rank {
                ring: RingName::try_from(value)?,
            }),
            (State::Rank { ring }, b"rank") => Ok(State::Matrix {
                ring,
                rank: Rank::try_from(value)?,
            }),
            (State::Matrix { ring, rank }, b"matrix") => {
                let matrix = Matrix::read(ring.coordinates(), rank, value)?;
                let request = Request { ring, matrix };
                Ok(State::Done { request })
            }
            _ => Err(Cause::Line),
        }
    }

    // What follows the next line, and the text after it.
    fn next(&self) -> Result<(State, &'a [u8]), Cause>
        ensures { seen result ≡ line_answer self.now.state self.now.rest.now }
    {
        let (line, Some(rest)) = cut(self.rest, b'\n') else {
            return Err(Cause::Line);
        };
        let (key, Some(value)) = cut(line, b'=') else {
            return Err(Cause::Line);
        };
        let state = self.enter(key, value)?;
        Ok((state, rest))
    }

    /// Reads one line; a fault takes the line's number, and leaves the reader as it was.
    pub(super) fn step(&mut self) -> Result<(), Refusal>
        ensures answer { outcome result self.new.state self.new.rest.now ≡ placed self.old.line (line_answer self.old.state self.old.rest.now) }
        ensures line { self.new.line ≡ counted result self.old.line }
        ensures kept { Kept result self.old.state self.old.rest.now self.new.state self.new.rest.now }
    {
        match self.next() {
            Ok((state, rest)) => {
                self.state = state;
                self.rest = rest;
                self.line += 1;
                Ok(())
            }
            Err(cause) => Err(self.refusal(cause)),
        }
    }

    /// The request, if the text ends after its last line.
    pub(super) fn finish(&self) -> Result<Request, Refusal>
        ensures { result ≡ finished self.now.line self.now.state self.now.rest.now }
    {
        // The same rule at the end of the text.
        match (self.state, self.rest) {
            (State::Done { request }, []) => Ok(request),
            _ => Err(self.refusal(Cause::Line)),
        }
    }
}
