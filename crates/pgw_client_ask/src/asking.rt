//! One request, and its answer.
ghost use Rattle.std.specs.Prelude.{◌≡◌, ℕ, List, Err, IfOk, OnErr, Some, false, true};
ghost use Rattle.pgw_backend.specs.declared.client_error.PgWireClientError.TheVariants as failure;
ghost use Rattle.pgw_session.specs.declared.types.Request.TheVariants as kind;
ghost use Rattle.pgw_handlers.specs.Handling.{HasCause};
ghost use Rattle.pgw_client_laws.specs.Extended.{portal_result, call_answer};
ghost use Rattle.pgw_client_calls.specs.Line.{Foretold, StaysWithin};
ghost use Rattle.pgw_client_calls.specs.State.{line_of, link_of, known_by, is_broken};
ghost use Rattle.pgw_client_ask.specs.Asking.{Asks, AnswerCame, EndsRequest, error_as_answer, request_name};

use pgw_client::{
    Answer, DataRows, ExecuteResult, Link, Listed, PgWireClientError, PgWireClientResult, Request,
    Text,
};
use pgw_client_calls::{DescribeResponse, Gathered, PgWireClient, PrepareResponse};
use pgw_client_laws::laws::{
    extended_queries_are_segments, extended_queries_follow_one_another,
    simple_queries_are_segments, simple_queries_follow_one_another,
};
use pgw_handlers_default::{DefaultExtendedQueryHandler, DefaultSimpleQueryHandler};
use pgw_types::listed::Duplicate;
use pgw_types::memory::OutOfMemory;
use std::alloc::Global;

// An error of the server's is an answer, where the client can still be used.
fn answered(error: PgWireClientError, broken: bool) -> PgWireClientResult<Answer>
    ensures { result ≡ error_as_answer error broken }
{
    if broken {
        return Err(error);
    }
    match error {
        PgWireClientError::RemoteError(error) => Ok(Answer::Remote(error)),
        other => Err(other),
    }
}

// The name that the answer of a request tells again.
fn name_in(request: &Request) -> Result<Option<Text>, OutOfMemory>
    ensures copied { IfOk result (λ name. name ≡ request_name request.now) }
    ensures wants { OnErr result ((name : List ℕ) × (request_name request.now ≡ Some name)) }
{
    match request {
        Request::Prepare(Some(name), _, _) => Ok(Some(name.duplicate()?)),
        _ => Ok(None),
    }
}

fn executed(rows: DataRows, suspended: bool) -> ExecuteResult<DataRows>
    ensures { result ≡ portal_result suspended rows }
{
    if suspended {
        ExecuteResult::Suspended(rows)
    } else {
        ExecuteResult::Complete(rows)
    }
}

// What was gathered, as the answer of a request.
fn given(
    alloc: Global,
    request: &Request,
    name: Option<Text>,
    gathered: Gathered<DataRows>,
    suspended: bool,
) -> Answer
    requires { name ≡ request_name request.now }
    ensures { result ≡ call_answer request.now (gathered, suspended) }
{
    let Gathered {
        types,
        columns,
        responses,
    } = gathered;
    match request {
        Request::Prepare(..) => Answer::Prepared(PrepareResponse {
            name,
            param_types: types,
        }),
        Request::Bind(..) => Answer::Bound,
        Request::Execute(..) => Answer::Executed(executed(responses, suspended)),
        Request::Describe(_) => Answer::Described(DescribeResponse {
            param_types: types,
            fields: columns,
        }),
        Request::Close(_) => Answer::Closed,
        Request::Query(..) => Answer::Rows(responses),
        Request::Simple(_) => Answer::Responses(Listed::new(alloc)),
    }
}

fn ask_simple<L: Link>(
    alloc: Global,
    client: &mut PgWireClient<L>,
    sql: &str,
) -> PgWireClientResult<Answer>
    requires { is_broken client.old ≡ false }
    ensures asks { Asks (kind.Simple sql.now)
        (known_by client.old) (line_of L.tape L.faults client.old)
        (known_by client.new) (line_of L.tape L.faults client.new) (is_broken client.new) result }
    ensures came { IfOk result (λ a. AnswerCame (kind.Simple sql.now) a
        (known_by client.old) (line_of L.tape L.faults client.old)
        (known_by client.new) (line_of L.tape L.faults client.new)) }
    ensures ended { EndsRequest (kind.Simple sql.now) (line_of L.tape L.faults client.old)
        (known_by client.new) (line_of L.tape L.faults client.new) (is_broken client.new) result }
    ensures cause { HasCause (line_of L.tape L.faults client.old).faults
        (line_of L.tape L.faults client.new).faults false result }
    ensures foretold { L.foretells →
        Foretold (L.left (link_of client.old)) (L.left (link_of client.new))
        (L.tape (link_of client.old)) (L.tape (link_of client.new)) }
    ensures within { StaysWithin (line_of L.tape L.faults client.old)
        (line_of L.tape L.faults client.new) }
{
    simple_queries_are_segments();
    simple_queries_follow_one_another();
    let handler = DefaultSimpleQueryHandler::new(alloc);
    match client.simple_query(handler, sql) {
        Ok(responses) => Ok(Answer::Responses(responses)),
        Err(error) => answered(error, client.is_broken()),
    }
}

fn ask_extended<L: Link>(
    alloc: Global,
    client: &mut PgWireClient<L>,
    request: &Request,
) -> PgWireClientResult<Answer>
    requires usable { is_broken client.old ≡ false }
    requires extended { (sql : List ℕ) → request.now ≡ kind.Simple sql → ⊥ }
    ensures asks { Asks request.now
        (known_by client.old) (line_of L.tape L.faults client.old)
        (known_by client.new) (line_of L.tape L.faults client.new) (is_broken client.new) result }
    ensures came { IfOk result (λ a. AnswerCame request.now a
        (known_by client.old) (line_of L.tape L.faults client.old)
        (known_by client.new) (line_of L.tape L.faults client.new)) }
    ensures ended { EndsRequest request.now (line_of L.tape L.faults client.old)
        (known_by client.new) (line_of L.tape L.faults client.new) (is_broken client.new) result }
    ensures cause { HasCause (line_of L.tape L.faults client.old).faults
        (line_of L.tape L.faults client.new).faults false result }
    ensures foretold { L.foretells →
        Foretold (L.left (link_of client.old)) (L.left (link_of client.new))
        (L.tape (link_of client.old)) (L.tape (link_of client.new)) }
    ensures within { StaysWithin (line_of L.tape L.faults client.old)
        (line_of L.tape L.faults client.new) }
{
    extended_queries_are_segments();
    extended_queries_follow_one_another();
    let name = match name_in(request) {
        Ok(name) => name,
        Err(_) => return Err(PgWireClientError::OutOfMemory),
    };
    let mut handler = DefaultExtendedQueryHandler::new();
    let mut lent = client.extended_query(&mut handler);
    match lent.request(request) {
        Ok((gathered, suspended)) => Ok(given(alloc, request, name, gathered, suspended)),
        Err(error) => answered(error, client.is_broken()),
    }
}

/// Asks a request of any kind by the default handlers, and gives the answer of its kind. The
/// server's error is an answer, where the client can go on behind it.
pub fn ask<L: Link>(client: &mut PgWireClient<L>, request: &Request) -> PgWireClientResult<Answer>
    // A client that an earlier error left unusable is asked nothing.
    ensures broken { is_broken client.old ≡ true → (result ≡ Err failure.Broken) ×
        (client.new ≡ client.old) }
    // Whatever the client stood for, it stands for this request besides, and the answer is that of
    // the request's own segment. Behind an error it stands for it by that error, which has its
    // reason; or memory was wanting, and nothing was done.
    ensures asks { is_broken client.old ≡ false → Asks request.now
        (known_by client.old) (line_of L.tape L.faults client.old)
        (known_by client.new) (line_of L.tape L.faults client.new) (is_broken client.new) result }
    // Whatever was done over the client before, by whichever calls: an answer comes from the segment
    // that was taken for it, as the client then knew.
    ensures came { is_broken client.old ≡ false → IfOk result (λ a. AnswerCame request.now a
        (known_by client.old) (line_of L.tape L.faults client.old)
        (known_by client.new) (line_of L.tape L.faults client.new)) }
    // The link's end is answered while the answer is awaited, and behind any answer but IoError all
    // that was written is flushed.
    ensures ended { is_broken client.old ≡ false → EndsRequest request.now
        (line_of L.tape L.faults client.old) (known_by client.new)
        (line_of L.tape L.faults client.new) (is_broken client.new) result }
    // IoError comes only where a call of the link failed, and Broken from no other client than the
    // one above.
    ensures cause { HasCause (line_of L.tape L.faults client.old).faults
        (line_of L.tape L.faults client.new).faults (is_broken client.old) result }
    // Of a link that knows what is to come: the bytes taken are its front, and the end is answered
    // behind the last byte.
    ensures foretold { L.foretells →
        Foretold (L.left (link_of client.old)) (L.left (link_of client.new))
        (L.tape (link_of client.old)) (L.tape (link_of client.new)) }
    // No more bytes are read than the client was given as its limit.
    ensures within { StaysWithin (line_of L.tape L.faults client.old)
        (line_of L.tape L.faults client.new) }
{
    if client.is_broken() {
        return Err(PgWireClientError::Broken);
    }
    let alloc = client.alloc();
    match request {
        Request::Simple(sql) => ask_simple(alloc, client, sql.as_str()),
        _ => ask_extended(alloc, client, request),
    }
}
