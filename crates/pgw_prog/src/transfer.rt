//! Reading a whole source, and writing a whole text.
ghost use Rattle.std.specs.Prelude.{◌≡◌, ◌≤◌, IfOk, IfErr, OnOk, OnErr};
ghost use Rattle.pgw_link.specs.Tape.{HasTapeCause};
ghost use Rattle.pgw_prog.specs.Transfer.{source_span, StopsSource, TookFront, TookWhole, WroteWhole, WroteSinkFront};

use pgw_link::stream::{Sink, SinkFault, Source};
use std::alloc::Global;

/// The most bytes that a script has.
pub const SCRIPT_LIMIT: usize = 16777216;

const CHUNK: usize = 8192;

/// Why a source was not read to its end.
#[derive(Clone, Copy, Debug, PartialEq, Eq)]
pub enum ReadFault {
    /// It holds more than a script may.
    TooLong,
    Source,
    OutOfMemory,
}

/// Reads a source to its end, or until it is too long.
pub fn read_whole<I: Source>(alloc: Global, input: &mut I) -> Result<Vec<u8>, ReadFault>
    ensures later { I.faults input.old ≤ I.faults input.new }
    ensures no_fault { OnOk result (I.faults input.new ≡ I.faults input.old) }
    ensures front { TookFront (source_span I.tape I.left I.faults input.old input.new) }
    ensures whole { IfOk result (λ text. TookWhole (I.tape input.old) (I.tape input.new)
        text.items) }
    ensures stops { IfErr result (StopsSource
        (source_span I.tape I.left I.faults input.old input.new)) }
{
    let mut text = Vec::new(alloc);
    while text.len() <= SCRIPT_LIMIT {
        let mut chunk = [0u8; CHUNK];
        match input.read(&mut chunk) {
            Err(_) => return Err(ReadFault::Source),
            Ok(0) => return Ok(text),
            Ok(count) => {
                if text.extend_from_slice(&chunk[..count]).is_err() {
                    return Err(ReadFault::OutOfMemory);
                }
            }
        }
    }
    Err(ReadFault::TooLong)
}

/// Writes a text to its end.
pub fn write_whole<O: Sink>(output: &mut O, text: &[u8]) -> Result<(), SinkFault>
    ensures cause { HasTapeCause (O.faults output.old) (O.faults output.new) result }
    ensures no_fault { OnOk result (O.faults output.new ≡ O.faults output.old) }
    ensures wrote { OnOk result (WroteWhole (O.tape output.old) (O.tape output.new) text.now) }
    ensures failed { OnErr result (WroteSinkFront (O.tape output.old) (O.tape output.new)
        text.now) }
{
    let mut at = 0;
    while at < text.len() {
        at += output.write(&text[at..])?;
    }
    Ok(())
}
