//! What a message does at a stage of the open segment.
ghost use Rattle.std.specs.Prelude.{◌≡◌, Some, IfOk};
ghost use Rattle.pgw_hash.specs.Saslprep.{saslprep};
ghost use Rattle.pgw_session.specs.Logins.{first_message, password_of, scram_login, user_of};
ghost use Rattle.pgw_session.specs.Requests.{behind_error, role};
ghost use Rattle.pgw_session.specs.Segments.{is_early, is_news, is_ready};
ghost use Rattle.pgw_session.specs.Table.{next_after, by_final, by_first, by_login, by_role, by_welcome};
ghost use Rattle.pgw_dialogue.specs.Input.{input_of};

use crate::input::Input;
use crate::logins::{
    cleartext_message, final_refusal, first_message, md5_message, must_bind, response_message,
    scram_login, takes_method, text_password, user_of,
};
use crate::requests::sync;
use pgw_backend::backend::PgWireBackendMessage;
use pgw_backend::client_error::PgWireClientError;
use pgw_frontend::frontend::PgWireFrontendMessage;
use pgw_hash::saslprep::saslprep;
use pgw_query::response::ErrorResponse;
use pgw_scram::exchange::{ClientLogin, client_final};
use pgw_session::stage::{Kind, Next, Role, Stage};
use pgw_startup::authentication::Authentication;
use pgw_startup::negotiate::negotiated_version;
use pgw_types::listed::{Duplicate, Listed};
use pgw_types::memory::OutOfMemory;
use pgw_types::octets::Octets;
use pgw_types::scram_error::{ScramClientError, ScramFault};
use pgw_types::text::Text;
use std::alloc::Global;

/// Whether the message is ReadyForQuery.
pub fn is_ready(message: &PgWireBackendMessage) -> bool
    ensures { result ≡ is_ready message.now }
{
    match message {
        PgWireBackendMessage::ReadyForQuery(_) => true,
        _ => false,
    }
}

// ---- requests

/// What a message is to a segment of a kind.
pub fn role(kind: Kind, rows: bool, message: &PgWireBackendMessage) -> Role
    ensures { result ≡ role kind rows message.now }
{
    match message {
        PgWireBackendMessage::ErrorResponse(_) => Role::Failing,
        PgWireBackendMessage::RowDescription(_) => match kind {
            Kind::Simple => Role::Taken(true),
            Kind::Prepare | Kind::DescribeStatement => Role::Taken(rows),
            Kind::DescribePortal => Role::Closing,
            _ => Role::Misplaced,
        },
        PgWireBackendMessage::DataRow(_) => match kind {
            Kind::Simple => {
                if rows {
                    Role::Taken(true)
                } else {
                    Role::Misplaced
                }
            }
            Kind::Execute | Kind::Query => Role::Taken(rows),
            _ => Role::Misplaced,
        },
        PgWireBackendMessage::CommandComplete(_) => match kind {
            Kind::Simple => Role::Taken(false),
            Kind::Execute => Role::Completing,
            Kind::Query => Role::Taken(rows),
            _ => Role::Misplaced,
        },
        PgWireBackendMessage::EmptyQueryResponse(_) => match kind {
            Kind::Simple | Kind::Query => Role::Taken(rows),
            Kind::Execute => Role::Completing,
            _ => Role::Misplaced,
        },
        PgWireBackendMessage::ReadyForQuery(_) => match kind {
            Kind::Bind | Kind::Execute => Role::Misplaced,
            _ => Role::Closing,
        },
        PgWireBackendMessage::ParseComplete(_) => match kind {
            Kind::Prepare | Kind::Query => Role::Taken(rows),
            _ => Role::Misplaced,
        },
        PgWireBackendMessage::BindComplete(_) => match kind {
            Kind::Bind => Role::Closing,
            Kind::Query => Role::Taken(rows),
            _ => Role::Misplaced,
        },
        PgWireBackendMessage::CloseComplete(_) => match kind {
            Kind::Close => Role::Taken(rows),
            _ => Role::Misplaced,
        },
        PgWireBackendMessage::PortalSuspended(_) => match kind {
            Kind::Execute => Role::Closing,
            _ => Role::Misplaced,
        },
        PgWireBackendMessage::ParameterDescription(_) => match kind {
            Kind::Prepare | Kind::DescribeStatement | Kind::DescribePortal => Role::Taken(rows),
            _ => Role::Misplaced,
        },
        PgWireBackendMessage::NoData(_) => match kind {
            Kind::Prepare | Kind::DescribeStatement => Role::Taken(rows),
            Kind::DescribePortal => Role::Closing,
            _ => Role::Misplaced,
        },
        _ => {
            if message.is_asynchronous() {
                Role::Taken(rows)
            } else {
                Role::Misplaced
            }
        }
    }
}

/// What is due to the server behind its error.
pub fn behind_error(kind: Kind) -> Option<PgWireFrontendMessage>
    ensures { result ≡ behind_error kind }
{
    match kind {
        Kind::Bind | Kind::Execute | Kind::DescribePortal => Some(sync()),
        _ => None,
    }
}

/// What a message of a role does to a request's segment.
pub fn by_role(kind: Kind, role: Role) -> Next
    ensures { result ≡ by_role kind role }
{
    match role {
        Role::Taken(rows) => Next::Goes(Stage::Answering(kind, rows), None),
        Role::Closing => Next::Closes,
        Role::Completing => Next::Goes(Stage::PassingOver, Some(sync())),
        Role::Failing => Next::Goes(Stage::PassingOver, behind_error(kind)),
        Role::Misplaced => match kind {
            Kind::Simple => Next::PassesOver,
            _ => Next::Wrong,
        },
    }
}

// ---- the startup segment

// Whether a server may say it at any time of the startup segment.
fn is_news(message: &PgWireBackendMessage) -> bool
    ensures { result ≡ is_news message.now }
{
    match message {
        PgWireBackendMessage::Authentication(request) => match request {
            Authentication::Ok => true,
            _ => false,
        },
        PgWireBackendMessage::BackendKeyData(_) => true,
        PgWireBackendMessage::NegotiateProtocolVersion(m) => negotiated_version(m).is_some(),
        _ => message.is_asynchronous(),
    }
}

// Whether it may say it before a login block, where a login must be bound or not.
fn is_early(bound: bool, message: &PgWireBackendMessage) -> bool
    ensures { result ≡ is_early bound message.now }
{
    match message {
        PgWireBackendMessage::Authentication(request) => match request {
            Authentication::Ok => !bound,
            _ => false,
        },
        _ => is_news(message),
    }
}

// The server's error ends the session.
fn refuses(error: &ErrorResponse) -> Result<Next, OutOfMemory>
    ensures { IfOk result (λ n. n ≡ Next.Refuses (PgWireClientError.RemoteError error.now)) }
{
    let error = error.duplicate()?;
    Ok(Next::Refuses(PgWireClientError::RemoteError(error)))
}

// Behind a login block, or before it.
fn by_welcome(message: &PgWireBackendMessage) -> Result<Next, OutOfMemory>
    ensures { IfOk result (λ n. n ≡ by_welcome message.now) }
{
    match message {
        PgWireBackendMessage::ReadyForQuery(_) => Ok(Next::Closes),
        PgWireBackendMessage::ErrorResponse(error) => refuses(error),
        _ => Ok(Next::Wrong),
    }
}

// The server asks for a SASL login by one of these methods.
fn by_methods(alloc: Global, input: &Input<'_>, methods: &Listed<Text>) -> Result<Next, OutOfMemory>
    ensures { IfOk result (λ n. n ≡ by_login (input_of input.now)
        (PgWireBackendMessage.Authentication (Authentication.SASL methods.now))) }
{
    if !takes_method(input, methods) {
        let methods = methods.duplicate()?;
        return Ok(Next::Refuses(PgWireClientError::UnsupportedSASLAuthMethods(methods)));
    }
    let Some(password) = text_password(input) else {
        return Ok(Next::Refuses(PgWireClientError::ScramError(ScramFault::PasswordNotUtf8)));
    };
    match saslprep(alloc, user_of(input))? {
        Some(user) => begin_scram(alloc, input, methods, user, password),
        None => {
            let key = Text::from_str(alloc, "user")?;
            Ok(Next::Refuses(PgWireClientError::InvalidConfig(key)))
        }
    }
}

// Begins a SCRAM login.
fn begin_scram(
    alloc: Global,
    input: &Input<'_>,
    methods: &Listed<Text>,
    user: Text,
    password: &str,
) -> Result<Next, OutOfMemory>
    requires user { saslprep (user_of (input_of input.now)) ≡ Some user }
    requires password { password.now ≡ password_of (input_of input.now) }
    ensures { IfOk result (λ n. n ≡ Next.Goes
        (Stage.Challenged (scram_login (input_of input.now) methods.now))
        (Some (first_message (scram_login (input_of input.now) methods.now)))) }
{
    let login = scram_login(alloc, input, methods, user, password)?;
    match first_message(alloc, &login) {
        Ok(sent) => Ok(Next::Goes(Stage::Challenged(login), Some(sent))),
        Err(e) => {
            drop(login);
            Err(e)
        }
    }
}

// The first request to log in.
fn by_request(
    alloc: Global,
    input: &Input<'_>,
    request: &Authentication,
) -> Result<Next, OutOfMemory>
    ensures { IfOk result (λ n. n ≡ by_login (input_of input.now)
        (PgWireBackendMessage.Authentication request.now)) }
{
    match request {
        Authentication::CleartextPassword => {
            if must_bind(input) {
                return Ok(Next::Wrong);
            }
            let sent = cleartext_message(alloc, input)?;
            Ok(Next::Goes(Stage::Admitted, Some(sent)))
        }
        Authentication::MD5Password(salt) => {
            if must_bind(input) {
                return Ok(Next::Wrong);
            }
            let sent = md5_message(alloc, input, salt)?;
            Ok(Next::Goes(Stage::Admitted, Some(sent)))
        }
        Authentication::SASL(methods) => by_methods(alloc, input, methods),
        _ => Ok(Next::Wrong),
    }
}

// Before a login block.
fn by_login(
    alloc: Global,
    input: &Input<'_>,
    message: &PgWireBackendMessage,
) -> Result<Next, OutOfMemory>
    ensures { IfOk result (λ n. n ≡ by_login (input_of input.now) message.now) }
{
    match message {
        PgWireBackendMessage::Authentication(request) => by_request(alloc, input, request),
        PgWireBackendMessage::ReadyForQuery(_) if must_bind(input) => Ok(Next::Wrong),
        _ => by_welcome(message),
    }
}

// The server's first text.
fn by_server_first(alloc: Global, login: &ClientLogin, first: &Octets) -> Result<Next, OutOfMemory>
    ensures { IfOk result (λ n. n ≡ by_first login.now
        (PgWireBackendMessage.Authentication (Authentication.SASLContinue first.now))) }
{
    match client_final(alloc, login, first.as_slice()) {
        Ok(reply) => {
            let expected = Octets::from_slice(alloc, &reply.signature)?;
            let sent = response_message(alloc, &reply.message)?;
            Ok(Next::Goes(Stage::Proving(expected), Some(sent)))
        }
        Err(ScramClientError::OutOfMemory) => Err(OutOfMemory),
        Err(error) => Ok(Next::Refuses(PgWireClientError::from(error))),
    }
}

// Where server-first is awaited.
fn by_first(
    alloc: Global,
    login: &ClientLogin,
    message: &PgWireBackendMessage,
) -> Result<Next, OutOfMemory>
    ensures { IfOk result (λ n. n ≡ by_first login.now message.now) }
{
    match message {
        PgWireBackendMessage::Authentication(request) => match request {
            Authentication::SASLContinue(first) => by_server_first(alloc, login, first),
            _ => Ok(Next::Wrong),
        },
        PgWireBackendMessage::ErrorResponse(error) => refuses(error),
        _ => Ok(Next::Wrong),
    }
}

// The server's last text.
fn by_server_final(alloc: Global, expected: &Octets, last: &Octets) -> Result<Next, OutOfMemory>
    ensures { IfOk result (λ n. n ≡ by_final expected.now
        (PgWireBackendMessage.Authentication (Authentication.SASLFinal last.now))) }
{
    match final_refusal(alloc, expected, last)? {
        None => Ok(Next::Goes(Stage::Admitted, None)),
        Some(error) => Ok(Next::Refuses(error)),
    }
}

// Where server-final is awaited.
fn by_final(
    alloc: Global,
    expected: &Octets,
    message: &PgWireBackendMessage,
) -> Result<Next, OutOfMemory>
    ensures { IfOk result (λ n. n ≡ by_final expected.now message.now) }
{
    match message {
        PgWireBackendMessage::Authentication(request) => match request {
            Authentication::SASLFinal(last) => by_server_final(alloc, expected, last),
            _ => Ok(Next::Wrong),
        },
        PgWireBackendMessage::ErrorResponse(error) => refuses(error),
        _ => Ok(Next::Wrong),
    }
}

/// What a message does at a stage of the open segment.
pub fn after(
    alloc: Global,
    input: &Input<'_>,
    stage: &Stage,
    message: &PgWireBackendMessage,
) -> Result<Next, OutOfMemory>
    ensures { IfOk result (λ n. n ≡ next_after (input_of input.now) stage.now message.now) }
{
    match stage {
        Stage::Starting => {
            if is_early(must_bind(input), message) {
                Ok(Next::Goes(Stage::Starting, None))
            } else {
                by_login(alloc, input, message)
            }
        }
        Stage::Challenged(login) => by_first(alloc, login, message),
        Stage::Proving(expected) => by_final(alloc, expected, message),
        Stage::Admitted => {
            if is_news(message) {
                Ok(Next::Goes(Stage::Admitted, None))
            } else {
                by_welcome(message)
            }
        }
        Stage::Answering(kind, rows) => Ok(by_role(*kind, role(*kind, *rows, message))),
        Stage::PassingOver => {
            if is_ready(message) {
                Ok(Next::Closes)
            } else {
                Ok(Next::Goes(Stage::PassingOver, None))
            }
        }
    }
}
