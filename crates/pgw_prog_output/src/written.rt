//! Writing a whole text.
ghost use Rattle.std.specs.Prelude.{◌≡◌, ◌++◌, OnOk, OnErr};
ghost use Rattle.pgw_link.specs.Tape.{HasTapeCause};
ghost use Rattle.pgw_prog_output.specs.Written.{WroteFront};

use pgw_link::stream::{Sink, SinkFault};

/// Writes a text to its end.
pub fn write_whole<O: Sink>(output: &mut O, text: &[u8]) -> Result<(), SinkFault>
    ensures cause { HasTapeCause (O.faults output.old) (O.faults output.new) result }
    ensures calm { OnOk result (O.faults output.new ≡ O.faults output.old) }
    ensures wrote { OnOk result ((O.tape output.new).wrote
        ≡ (O.tape output.old).wrote ++ text.now) }
    ensures failed { OnErr result (WroteFront (O.tape output.old) (O.tape output.new) text.now) }
{
    let mut at = 0;
    while at < text.len() {
        at += output.write(&text[at..])?;
    }
    Ok(())
}
