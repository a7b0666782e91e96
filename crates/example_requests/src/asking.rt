//! Questions, asked one after the other.
ghost use Rattle.std.specs.Prelude.{◌≡◌, [], ◌∷◌, Err, IfErr, IfOk, OnOk, false, true};
ghost use Rattle.pgw_backend.specs.declared.client_error.PgWireClientError.TheVariants as failure;
ghost use Rattle.pgw_client_calls.specs.State.{line_of, known_by, is_broken};
ghost use Rattle.example_requests.specs.declared.asking.Question.TheVariants as question;
ghost use Rattle.pgw_handlers.specs.Handling.{HasCause};
ghost use Rattle.example_requests.specs.Asking.{AddsQuestions, FailsQuestion, StopsQuestions, error_reply};

use pgw_client::{
    DataRows, ErrorResponse, Link, Listed, PgWireClientError, PgWireClientResult, Response, Text,
};
use pgw_client_calls::PgWireClient;
use pgw_client_laws::laws::{
    extended_queries_are_segments, extended_queries_follow_one_another,
    simple_queries_are_segments, simple_queries_follow_one_another,
};
use pgw_handlers_default::{DefaultExtendedQueryHandler, DefaultSimpleQueryHandler};
use std::alloc::Global;

/// What a server is asked.
#[derive(Debug, Drop)]
pub enum Question {
    /// A simple query, which may hold several commands.
    Simple(Text),
    /// An extended query without parameters.
    Rows(Text),
}

/// What it replied.
#[derive(Debug, Drop)]
pub enum Reply {
    Responses(Listed<Response>),
    Rows(DataRows),
    /// The server's error, behind which the client can be used.
    Remote(ErrorResponse),
}

// An error of the server's is a reply, where the client can still be used.
fn replied(error: PgWireClientError, broken: bool) -> PgWireClientResult<Reply>
    ensures { result ≡ error_reply error broken }
{
    if broken {
        return Err(error);
    }
    match error {
        PgWireClientError::RemoteError(error) => Ok(Reply::Remote(error)),
        other => Err(other),
    }
}

fn ask_simple<L: Link>(
    alloc: Global,
    client: &mut PgWireClient<L>,
    sql: &str,
) -> PgWireClientResult<Reply>
    requires { is_broken client.old ≡ false }
    ensures usable { OnOk result (is_broken client.new ≡ false) }
    ensures adds { IfOk result (λ reply. AddsQuestions (question.Simple sql.now ∷ []) (reply ∷ [])
        (known_by client.old) (line_of L.tape L.faults client.old)
        (known_by client.new) (line_of L.tape L.faults client.new)) }
    ensures fails { IfErr result (λ e. FailsQuestion (question.Simple sql.now)
        (known_by client.old) (line_of L.tape L.faults client.old)
        (known_by client.new) (line_of L.tape L.faults client.new) (is_broken client.new) e) }
    ensures cause { HasCause (line_of L.tape L.faults client.old).faults
        (line_of L.tape L.faults client.new).faults false result }
{
    simple_queries_are_segments();
    simple_queries_follow_one_another();
    let handler = DefaultSimpleQueryHandler::new(alloc);
    match client.simple_query(handler, sql) {
        Ok(responses) => Ok(Reply::Responses(responses)),
        Err(error) => replied(error, client.is_broken()),
    }
}

fn ask_rows<L: Link>(
    alloc: Global,
    client: &mut PgWireClient<L>,
    sql: &str,
) -> PgWireClientResult<Reply>
    requires { is_broken client.old ≡ false }
    ensures usable { OnOk result (is_broken client.new ≡ false) }
    ensures adds { IfOk result (λ reply. AddsQuestions (question.Rows sql.now ∷ []) (reply ∷ [])
        (known_by client.old) (line_of L.tape L.faults client.old)
        (known_by client.new) (line_of L.tape L.faults client.new)) }
    ensures fails { IfErr result (λ e. FailsQuestion (question.Rows sql.now)
        (known_by client.old) (line_of L.tape L.faults client.old)
        (known_by client.new) (line_of L.tape L.faults client.new) (is_broken client.new) e) }
    ensures cause { HasCause (line_of L.tape L.faults client.old).faults
        (line_of L.tape L.faults client.new).faults false result }
{
    extended_queries_are_segments();
    extended_queries_follow_one_another();
    let mut handler = DefaultExtendedQueryHandler::new();
    let mut lent = client.extended_query(&mut handler);
    match lent.query(sql, &[], Listed::new(alloc)) {
        Ok(rows) => Ok(Reply::Rows(rows)),
        Err(error) => replied(error, client.is_broken()),
    }
}

// Asks one question.
fn ask<L: Link>(
    alloc: Global,
    client: &mut PgWireClient<L>,
    question: &Question,
) -> PgWireClientResult<Reply>
    requires { is_broken client.old ≡ false }
    ensures usable { OnOk result (is_broken client.new ≡ false) }
    ensures adds { IfOk result (λ reply. AddsQuestions (question.now ∷ []) (reply ∷ [])
        (known_by client.old) (line_of L.tape L.faults client.old)
        (known_by client.new) (line_of L.tape L.faults client.new)) }
    ensures fails { IfErr result (λ e. FailsQuestion question.now
        (known_by client.old) (line_of L.tape L.faults client.old)
        (known_by client.new) (line_of L.tape L.faults client.new) (is_broken client.new) e) }
    ensures cause { HasCause (line_of L.tape L.faults client.old).faults
        (line_of L.tape L.faults client.new).faults false result }
{
    match question {
        Question::Simple(sql) => ask_simple(alloc, client, sql.as_str()),
        Question::Rows(sql) => ask_rows(alloc, client, sql.as_str()),
    }
}

/// Asks each question once the reply before it is whole. The first error that is no reply ends it.
pub fn ask_all<L: Link>(
    alloc: Global,
    client: &mut PgWireClient<L>,
    questions: &[Question],
) -> PgWireClientResult<Listed<Reply>>
    // A client that an earlier error left unusable is asked nothing.
    ensures broken { is_broken client.old ≡ true → (result ≡ Err failure.Broken) ×
        (client.new ≡ client.old) }
    // Whatever the client stood for, it stands for these questions besides: each reply is the answer
    // of its own request's segment, in order.
    ensures adds { IfOk result (λ replies. AddsQuestions questions.now replies
        (known_by client.old) (line_of L.tape L.faults client.old)
        (known_by client.new) (line_of L.tape L.faults client.new)) }
    ensures usable { OnOk result (is_broken client.new ≡ false) }
    // Behind an error the first questions were replied, and the client stands for them and, by that error, which has
    // its reason, for the next one; but for want of memory to keep a reply, behind which it stands for those up to it.
    ensures stops { is_broken client.old ≡ false → IfErr result (λ e. StopsQuestions questions.now
        (known_by client.old) (line_of L.tape L.faults client.old)
        (known_by client.new) (line_of L.tape L.faults client.new) (is_broken client.new) e) }
    // IoError comes only where a call of the link failed, and Broken from no other client than the one above.
    ensures cause { HasCause (line_of L.tape L.faults client.old).faults
        (line_of L.tape L.faults client.new).faults (is_broken client.old) result }
{
    if client.is_broken() {
        return Err(PgWireClientError::Broken);
    }
    let mut replies = Listed::new(alloc);
    for question in questions {
        let reply = match ask(alloc, client, question) {
            Ok(reply) => reply,
            Err(error) => return Err(error),
        };
        match replies.push(reply) {
            Ok(()) => {}
            Err(_) => return Err(PgWireClientError::OutOfMemory),
        }
    }
    Ok(replies)
}
