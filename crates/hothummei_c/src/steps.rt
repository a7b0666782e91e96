//! Bytes that came, with the messages that are whole then.
ghost use Rattle.std.specs.Prelude.{◌++◌, IfErr};
ghost use Rattle.pgw_dialogue.specs.Input.{input_of};
ghost use Rattle.pgw_dialogue.specs.Steps.{TookInbox};
ghost use Rattle.pgw_dialogue.specs.Wire.{IsOwn};

use bytes::BytesMut;
use pgw_backend::client_error::{PgWireClientError, PgWireClientResult};
use pgw_dialogue::inbox::Inbox;
use pgw_dialogue::input::Input;
use pgw_dialogue::machine::{Progress, advance};
use pgw_session::notes::Notes;
use std::alloc::Global;

// Takes the messages at the front, and puts out what falls due. Answers whether the session is whole.
fn take_all(
    alloc: Global,
    input: &Input<'_>,
    notes: &mut Notes,
    inbox: &mut Inbox,
    out: &mut BytesMut,
) -> PgWireClientResult<bool>
    ensures own { IfErr result IsOwn }
    ensures took { TookInbox (input_of input.now) notes.old notes.new inbox.old inbox.new
        out.old.items
        out.new.items result }
{
    'messages: loop {
        match advance(alloc, input, notes, inbox, out) {
            Ok(Progress::More) => return Ok(false),
            Ok(Progress::Went) => {}
            Ok(Progress::Done) => return Ok(true),
            Err(e) => return Err(e),
        }
    }
}

/// Takes bytes, with the messages that are whole then.
pub fn feed(
    alloc: Global,
    input: &Input<'_>,
    notes: &mut Notes,
    inbox: &mut Inbox,
    bytes: &[u8],
    out: &mut BytesMut,
) -> PgWireClientResult<bool>
    ensures own { IfErr result IsOwn }
    ensures took { TookInbox (input_of input.now) notes.old notes.new (inbox.old ++ bytes.now)
        inbox.new
        out.old.items out.new.items result }
{
    match inbox.append(bytes) {
        Ok(()) => take_all(alloc, input, notes, inbox, out),
        Err(_) => Err(PgWireClientError::OutOfMemory),
    }
}
