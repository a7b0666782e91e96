//! The messages of a piece, taken one by one.
ghost use Rattle.std.specs.Prelude.{◌≡◌, ◌≤◌, ◌+◌, ◌++◌, false, min, take, IfErr};
ghost use Rattle.pgw_dialogue.specs.Input.{input_of};
ghost use Rattle.pgw_dialogue.specs.Wire.{IsOwn};
ghost use Rattle.pgw_dialogue.specs.Steps.{TookInbox};

use crate::inbox::Inbox;
use crate::input::Input;
use crate::machine::{Progress, advance};
use bytes::BytesMut;
use pgw_backend::client_error::{PgWireClientError, PgWireClientResult};
use pgw_session::notes::Notes;
use std::alloc::Global;

// The bytes of a piece are taken in parts of so many.
const PART: usize = 8192;

// Takes the messages at the front, and puts out what falls due. Answers whether the session is whole.
fn take_all(
    alloc: Global,
    input: &Input<'_>,
    notes: &mut Notes,
    inbox: &mut Inbox,
    out: &mut BytesMut,
) -> PgWireClientResult<bool>
    ensures own { IfErr result IsOwn }
    ensures took { TookInbox (input_of input.now) notes.old notes.new inbox.old inbox.new
        out.old.items
        out.new.items result }
{
    'messages: loop {
        match advance(alloc, input, notes, inbox, out) {
            Ok(Progress::More) => return Ok(false),
            Ok(Progress::Went) => {}
            Ok(Progress::Done) => return Ok(true),
            Err(e) => return Err(e),
        }
    }
}

// Takes a part, with the messages that are whole then.
fn feed_part(
    alloc: Global,
    input: &Input<'_>,
    notes: &mut Notes,
    inbox: &mut Inbox,
    part: &[u8],
    out: &mut BytesMut,
) -> PgWireClientResult<bool>
    ensures own { IfErr result IsOwn }
    ensures took { TookInbox (input_of input.now) notes.old notes.new (inbox.old ++ part.now)
        inbox.new
        out.old.items out.new.items result }
{
    match inbox.append(part) {
        Ok(()) => take_all(alloc, input, notes, inbox, out),
        Err(_) => Err(PgWireClientError::OutOfMemory),
    }
}

// Where the next part ends, of so many bytes: each has 8192, and the last what is left.
fn part_end(at: usize, len: usize) -> usize
    requires { at ≤ len }
    ensures { result ≡ min (at + 8192) len }
{
    if len - at > PART { at + PART } else { len }
}

/// Takes bytes, with the messages that are whole then. It takes them in parts, so that what stands behind a large
/// message is not kept, and not moved, for each of them.
pub fn feed(
    alloc: Global,
    input: &Input<'_>,
    notes: &mut Notes,
    inbox: &mut Inbox,
    bytes: &[u8],
    out: &mut BytesMut,
) -> PgWireClientResult<bool>
    ensures own { IfErr result IsOwn }
    ensures took { TookInbox (input_of input.now) notes.old notes.new (inbox.old ++ bytes.now)
        inbox.new
        out.old.items out.new.items result }
{
    let mut at = 0;
    'parts: loop {
        let end = part_end(at, bytes.len());
        match feed_part(alloc, input, notes, inbox, &bytes[at..end], out) {
            Ok(true) => return Ok(true),
            Ok(false) => {}
            Err(e) => return Err(e),
        }
        if end == bytes.len() {
            return Ok(false);
        }
        at = end;
    }
}

/// The first bytes, no more than there is room for.
pub fn within(bytes: &[u8], room: u64) -> &[u8]
    ensures { result.now ≡ take room bytes.now }
{
    if room < bytes.len() as u64 {
        &bytes[..room as usize]
    } else {
        bytes
    }
}
