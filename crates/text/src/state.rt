//! How far a text has been read.
use super::request::{Rank, Request, RingName};

/// What the next line has to be, with what the lines before it said.
#[derive(Clone, Copy)]
pub(super) enum State {
    Ring,
    Rank { ring: RingName },
    Matrix { ring: RingName, rank: Rank },
    Done { request: Request },
}
