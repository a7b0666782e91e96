//! The messages of the open segment, taken up to its end.
ghost use Rattle.std.specs.Prelude.{IfErr};
ghost use Rattle.pgw_dialogue.specs.Input.{input_of};
ghost use Rattle.pgw_dialogue.specs.Wire.{IsOwn};
ghost use Rattle.pgw_client_push.specs.Serving.{Serves};

use bytes::BytesMut;
use pgw_backend::client_error::PgWireClientResult;
use pgw_dialogue::inbox::Inbox;
use pgw_dialogue::input::Input;
use pgw_dialogue::machine::{Progress, advance};
use pgw_session::notes::Notes;
use std::alloc::Global;

/// Takes the messages at the front up to the one that closes the open segment, and puts out what falls due. Answers
/// whether it has closed; what stands behind it stays in the inbox.
pub(crate) fn serve(
    alloc: Global,
    input: &Input<'_>,
    notes: &mut Notes,
    inbox: &mut Inbox,
    out: &mut BytesMut,
) -> PgWireClientResult<bool>
    ensures own { IfErr result IsOwn }
    ensures serves { Serves (input_of input.now) notes.old notes.new inbox.old inbox.new
        out.old.items out.new.items result }
{
    if inbox.len() == 0 {
        return Ok(false);
    }
    'messages: loop {
        match advance(alloc, input, notes, inbox, out) {
            Ok(Progress::More) => return Ok(false),
            Ok(Progress::Went) => {}
            Ok(Progress::Done) => return Ok(true),
            Err(e) => return Err(e),
        }
    }
}
