//! What a client does with bytes.
ghost use Rattle.std.specs.Prelude.{◌≡◌};
ghost use Rattle.pgw_client_push.specs.State.{push_state_behind};

use pgw_backend::client_error::{PgWireClientError, PgWireClientResult};
use pgw_dialogue::DialoguePhase;

/// What a client does with bytes.
#[derive(Clone, Copy, Debug, PartialEq, Eq)]
pub enum State {
    /// It takes them: a segment is open.
    Open,
    /// No segment is open, and it can be asked.
    Idle,
    /// It takes none: what was given before was refused, or the limit was reached,
    Refused,
    /// or memory was wanting.
    Starved,
}

/// Where an answer leaves a client.
pub(crate) fn state_behind(answer: &PgWireClientResult<DialoguePhase>) -> State
    ensures { result ≡ push_state_behind answer.now }
{
    match answer {
        Ok(DialoguePhase::Waiting) | Ok(DialoguePhase::Ready) => State::Open,
        Ok(DialoguePhase::Done) => State::Idle,
        Err(PgWireClientError::OutOfMemory) => State::Starved,
        Err(_) => State::Refused,
    }
}
