//! Errors that a handler answers by itself.
ghost use Rattle.std.specs.Prelude.{ℕ, Bool};
ghost use Rattle.pgw_backend.specs.ClientError.{IsUnexpected};
ghost use Rattle.pgw_handlers.specs.Handling.{IsCaused, OfError};
ghost use Rattle.pgw_handlers.specs.Startup.{IsAdmitted};

use pgw_backend::backend::PgWireBackendMessage;
use pgw_backend::client_error::{PgWireClientError, PgWireClientResult, unexpected};
use std::alloc::Global;

/// What a handler says of a message that may not come.
#[tactic(auto, using(crate::proofs::CauseLaws::unexpected_is_caused))]
pub fn misplaced(alloc: Global, message: PgWireBackendMessage) -> PgWireClientError
    ensures holds { IsUnexpected message result }
    ensures caused { (before now : ℕ) (broken : Bool) → IsCaused result before now broken }
{
    unexpected(alloc, message)
}

/// The message again, where it may come: within a login exchange that is an authentication request or an error.
pub fn admitted(
    alloc: Global,
    in_exchange: bool,
    message: PgWireBackendMessage,
) -> PgWireClientResult<PgWireBackendMessage>
    ensures holds { IsAdmitted in_exchange message result }
    ensures caused { (before now : ℕ) (broken : Bool) → OfError result before now broken }
{
    match message {
        PgWireBackendMessage::Authentication(m) => Ok(PgWireBackendMessage::Authentication(m)),
        PgWireBackendMessage::ErrorResponse(m) => Ok(PgWireBackendMessage::ErrorResponse(m)),
        other => {
            if in_exchange {
                return Err(misplaced(alloc, other));
            }
            Ok(other)
        }
    }
}
