//! Texts of lines `key=value`: their numbers, coordinates and elements, and the request that a program reads.
#![tactic(auto)]

ghost use Rattle.text.specs.Lines.{read_answer};
ghost use Rattle.text.specs.Written.{ReadingInvertsWriting};
ghost use Rattle.std.specs.Prelude.{◌≡◌};

use refusal::{Cause, Refusal};

mod parts;
mod reader;
mod request;
mod state;
mod values;

pub use parts::cut;
use reader::Reader;
pub use request::{Matrix, Rank, Request, RingName};
pub use values::{coordinate, element, number};

/// The most bytes of a text.
const LIMIT: usize = 16384;

/// How many lines a text has.
const LINES: usize = 3;

/// Reads the three lines `ring=`, `rank=` and `matrix=`.
pub fn read(text: &[u8]) -> Result<Request, Refusal>
    ensures { result ≡ read_answer text.now }
{
    if text.len() > LIMIT {
        return Err(Refusal::from(Cause::Line));
    }
    let mut reader = Reader::new(text);
    for _ in 0..LINES {
        reader.step()?;
    }
    reader.finish()
}

/// A text is read just if it is how a request is written, and gives that request.
pub fn reading_inverts_writing()
    ensures { ReadingInvertsWriting }
{}

#[cfg(test)]
mod tests {
    use super::*;
    use ring::Element;
    use std::test::Fail;

    // Causes by number: with them the tests hold the numbers of reports fixed.
    fn refuses(text: &[u8], cause: u8, place: u64) -> bool {
        read(text).is_err_and(|refusal| (refusal.cause.number(), refusal.place) == (cause, place))
    }

    #[test]
    fn reads_elements_by_rows(rt: HostRuntime) -> Result<(), Fail> {
        let request = read(b"ring=G\nrank=2\nmatrix=1:0,-20:3,0:999999999999999,5:-7\n")?;
        assert!(rt; request.ring == RingName::Gaussian);
        assert!(rt; request.matrix.rank().number() == 2);
        let entries = request.matrix.entries();
        assert!(rt; entries.len() == 4);
        assert!(rt; entries[0] == Element { x: 1, y: 0 });
        assert!(rt; entries[1] == Element { x: -20, y: 3 });
        assert!(rt;
            entries[2]
                == Element {
                    x: 0,
                    y: 999999999999999
                }
        );
        assert!(rt; entries[3] == Element { x: 5, y: -7 });
        Ok(())
    }

    #[test]
    fn refuses_lines(rt: HostRuntime) {
        assert!(rt; refuses(b"", 1, 1));
        assert!(rt; refuses(b"rank=1\n", 1, 1));
        assert!(rt; refuses(b"ring=Z", 1, 1));
        assert!(rt; refuses(b"ring=Z\nrank 1\n", 1, 2));
        assert!(rt; refuses(b"ring=Z\nrank=1\n", 1, 3));
        assert!(rt; refuses(b"ring=Z\nrank=1\nmatrix=5", 1, 3));
        assert!(rt; refuses(b"ring=Z\nrank=1\nmatrix=5\n\n", 1, 4));
        assert!(rt; refuses(&[b'\n'; 16385], 1, 0));
    }

    #[test]
    fn refuses_values(rt: HostRuntime) {
        assert!(rt; refuses(b"ring=Q\nrank=9\n", 2, 1));
        assert!(rt; refuses(b"ring=Z\nrank=4\nmatrix=5\n", 2, 2));
        assert!(rt; refuses(b"ring=Z\nrank=01\nmatrix=5\n", 2, 2));
        assert!(rt; refuses(b"ring=Z\nrank=1\nmatrix=-0\n\n", 2, 3));
        assert!(rt; refuses(b"ring=Z\nrank=1\nmatrix=1000000000000000\n", 2, 3));
        assert!(rt; refuses(b"ring=Z\nrank=1\nmatrix=1,2\n", 2, 3));
        assert!(rt; refuses(b"ring=E\nrank=1\nmatrix=7\n", 2, 3));
        assert!(rt; refuses(b"ring=Z\nrank=1\nmatrix=7:0\n", 2, 3));
    }
}
