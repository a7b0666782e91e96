//! Standard input and output.
ghost use Rattle.std.specs.Prelude.{◌≡◌, []};
ghost use Rattle.pgw_link.specs.Stream.{source_tape_of, sink_tape_of};

use crate::log::{Log, Note};
use crate::stream::{Sink, SinkFault, Source, SourceFault};
use std::io::{Read, Write};

/// A source over a reader, as standard input. It tells what it gave.
///
/// The one impl serves every reader. So what it tells and hands to its caller are the bytes that the reader gave, for
/// each reader that states its bytes.
#[derive(Drop)]
pub struct StdSource<R: Read + Drop> {
    reader: R,
    log: Log,
    faults: u64,
}

impl<R: Read + Drop> StdSource<R> {
    pub fn new(reader: R) -> StdSource<R>
        ensures faults { result.faults ≡ 0 }
        ensures tape { source_tape_of result.log ≡ record { took = []; ended = 0; reads = 0 } }
        ensures reader { result.reader ≡ reader }
    {
        StdSource {
            reader,
            log: Log::new(),
            faults: 0,
        }
    }
}

impl<R: Read + Drop> Source for StdSource<R> {
    ghost use Rattle.pgw_link.specs.Stream.{source_tape_of};

    ghost tape = { λ s. source_tape_of s.log };

    ghost left = { λ s. R.remaining s.reader };

    ghost foretells = { ⊥ };

    ghost faults = { λ s. s.faults };

    ghost knows = { λ t s. absurd t };

    fn read(&mut self, buf: &mut [u8]) -> Result<usize, SourceFault> {
        match self.reader.read(buf) {
            Ok(count) => {
                self.log = self.log.then(&Note::Read(buf, count));
                Ok(count)
            }
            Err(_) => {
                self.log = self.log.then(&Note::Unread);
                self.faults = self.faults.saturating_add(1);
                Err(SourceFault)
            }
        }
    }
}

/// A sink over a writer, as standard output. It tells what was written, as a `StdSource` tells what it gave.
#[derive(Drop)]
pub struct StdSink<W: Write + Drop> {
    writer: W,
    log: Log,
    faults: u64,
}

impl<W: Write + Drop> StdSink<W> {
    pub fn new(writer: W) -> StdSink<W>
        ensures faults { result.faults ≡ 0 }
        ensures tape { sink_tape_of result.log ≡ record { wrote = []; writes = 0 } }
        ensures writer { result.writer ≡ writer }
    {
        StdSink {
            writer,
            log: Log::new(),
            faults: 0,
        }
    }
}

impl<W: Write + Drop> Sink for StdSink<W> {
    ghost use Rattle.pgw_link.specs.Stream.{sink_tape_of};

    ghost tape = { λ s. sink_tape_of s.log };

    ghost held = { λ s. W.contents s.writer };

    ghost faults = { λ s. s.faults };

    fn write(&mut self, piece: &[u8]) -> Result<usize, SinkFault> {
        match self.writer.write(piece) {
            Ok(count) if count > 0 => {
                self.log = self.log.then(&Note::Wrote(piece, count));
                Ok(count)
            }
            _ => {
                self.log = self.log.then(&Note::Unwritten);
                self.faults = self.faults.saturating_add(1);
                Err(SinkFault)
            }
        }
    }
}
