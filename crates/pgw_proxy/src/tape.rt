//! Messages that are passed on, and recorded.
ghost use Rattle.std.specs.Prelude.{◌≡◌, ◌<◌, ◌^◌, ◌++◌, length, OnOk, OnErr};
ghost use Rattle.pgw_proxy.specs.Record.{direction as direction_of, relay_entry};

use crate::recorded::Side;
use bytes::BytesMut;
use pgw_types::memory::OutOfMemory;

// The byte that names a side.
fn direction(side: Side) -> u8
    ensures { result ≡ direction_of side }
{
    match side {
        Side::Client => 0,
        Side::Server => 1,
    }
}

// Appends the record of a message, or nothing.
#[tactic(auto, unfolding(crate::specs::Record::relay_entry, pgw_wire::specs::Writing::u32))]
pub fn put_record(side: Side, bytes: &[u8], tape: &mut BytesMut) -> Result<(), OutOfMemory>
    requires { length bytes.now < 2 ^ 32 }
    ensures ok { OnOk result (tape.new.items ≡ tape.old.items ++ relay_entry side bytes.now) }
    ensures err { OnErr result (tape.new.items ≡ tape.old.items) }
{
    let [a, b, c, d] = (bytes.len() as u32).to_be_bytes();
    tape.reserve(bytes.len() + 5)?;
    tape.extend_reserved(&[direction(side), a, b, c, d]);
    tape.extend_reserved(bytes);
    Ok(())
}

// Appends a message's bytes to what goes to the other side, and its record, or nothing to either.
pub fn pass_on(
    side: Side,
    bytes: &[u8],
    out: &mut BytesMut,
    tape: &mut BytesMut,
) -> Result<(), OutOfMemory>
    requires { length bytes.now < 2 ^ 32 }
    ensures out { OnOk result (out.new.items ≡ out.old.items ++ bytes.now) }
    ensures tape { OnOk result (tape.new.items ≡ tape.old.items ++ relay_entry side bytes.now) }
    ensures err { OnErr result
        ((out.new.items ≡ out.old.items) × (tape.new.items ≡ tape.old.items)) }
{
    let start = tape.len();
    put_record(side, bytes, tape)?;
    match out.extend_from_slice(bytes) {
        Ok(()) => Ok(()),
        Err(_) => {
            tape.truncate(start);
            Err(OutOfMemory)
        }
    }
}
