//! What becomes of a session whose lease is over.
ghost use Rattle.std.specs.Prelude.{◌≡◌, List, Result};
ghost use Rattle.pgw_backend.specs.declared.client_error.PgWireClientError.{PgWireClientError as TheError};
ghost use Rattle.pgw_session.specs.declared.types.Response.{Response as TheResponse};
ghost use Rattle.pgw_client_calls.specs.Line.{Foretold};
ghost use Rattle.pgw_pool.specs.Views.{view_of, left_in};
ghost use Rattle.pgw_pool.specs.Returning.{IsAsked, cause_of, kept_by, returned_by};

use pgw_client::{
    ErrorResponse, Link, Listed, PgWireClientError, PgWireClientResult, Response, TransactionStatus,
};
use pgw_client_calls::{ClientInfo, PgWireClient};
use pgw_client_laws::laws::{simple_queries_are_segments, simple_queries_follow_one_another};
use pgw_handlers_default::DefaultSimpleQueryHandler;
use std::alloc::Global;

// What is asked of a session at the end of a lease.
const RESET: &str = "DISCARD ALL";

/// Whether a pool kept a session that was given back.
#[derive(Debug, Drop)]
pub enum Returned {
    Kept,
    Dropped(DropCause),
}

/// Why it did not.
#[derive(Debug, Drop)]
pub enum DropCause {
    /// The reset failed, or an earlier error had left the session unusable.
    Failed(PgWireClientError),
    /// The server's error was its answer.
    Refused(ErrorResponse),
    /// A transaction was open behind it.
    Status(TransactionStatus),
    OutOfMemory,
}

pub(crate) fn cause_of(error: PgWireClientError, broken: bool) -> DropCause
    ensures { result ≡ cause_of error broken }
{
    match error {
        PgWireClientError::OutOfMemory => DropCause::OutOfMemory,
        PgWireClientError::RemoteError(error) => {
            if broken {
                DropCause::Failed(PgWireClientError::RemoteError(error))
            } else {
                DropCause::Refused(error)
            }
        }
        other => DropCause::Failed(other),
    }
}

fn kept_by(status: TransactionStatus) -> Returned
    ensures { result ≡ kept_by status }
{
    match status {
        TransactionStatus::Idle => Returned::Kept,
        other => Returned::Dropped(DropCause::Status(other)),
    }
}

fn returned_by(
    answer: PgWireClientResult<Listed<Response>>,
    status: TransactionStatus,
    broken: bool,
) -> Returned
    ensures { result ≡ returned_by answer status broken }
{
    match answer {
        Ok(_) => kept_by(status),
        Err(error) => Returned::Dropped(cause_of(error, broken)),
    }
}

// Asks the reset.
fn ask_reset<L: Link>(
    alloc: Global,
    client: &mut PgWireClient<L>,
) -> PgWireClientResult<Listed<Response>>
    ensures asked { IsAsked (view_of L.tape L.faults client.old)
        (view_of L.tape L.faults client.new) result }
    ensures foretold { L.foretells →
        Foretold (left_in L.left client.old) (left_in L.left client.new)
        (view_of L.tape L.faults client.old).line.tape
        (view_of L.tape L.faults client.new).line.tape }
{
    simple_queries_are_segments();
    simple_queries_follow_one_another();
    let handler = DefaultSimpleQueryHandler::new(alloc);
    client.simple_query(handler, RESET)
}

// Asks the reset, and tells by its answer whether the session is kept.
#[tactic(auto, using(crate::proofs::ReturnLaws::is_returned))]
pub(crate) fn reset<L: Link>(alloc: Global, client: &mut PgWireClient<L>) -> Returned
    ensures asked { (a : Result (List TheResponse) TheError) ×
        IsAsked (view_of L.tape L.faults client.old) (view_of L.tape L.faults client.new) a ×
        (result ≡ returned_by a (view_of L.tape L.faults client.new).client.transaction_status
        (view_of L.tape L.faults client.new).broken) }
    ensures foretold { L.foretells →
        Foretold (left_in L.left client.old) (left_in L.left client.new)
        (view_of L.tape L.faults client.old).line.tape
        (view_of L.tape L.faults client.new).line.tape }
{
    let answer = ask_reset(alloc, client);
    returned_by(answer, client.transaction_status(), client.is_broken())
}
