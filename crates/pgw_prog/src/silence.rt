//! A sink that nobody reads.

use pgw_link::log::{Log, Note};
use pgw_link::stream::{Sink, SinkFault};

/// Takes whatever is written to it, and keeps nothing.
#[derive(Drop)]
pub struct Silence {
    log: Log,
}

impl Silence {
    pub fn new() -> Silence {
        Silence { log: Log::new() }
    }
}

impl Sink for Silence {
    ghost use Rattle.pgw_link.specs.Stream.{sink_tape_of};

    ghost tape = { λ s. sink_tape_of s.log };

    ghost faults = { λ s. 0 };

    fn write(&mut self, piece: &[u8]) -> Result<usize, SinkFault> {
        self.log = self.log.then(&Note::Wrote(piece, piece.len()));
        Ok(piece.len())
    }
}
