//! Under which context messages are read, and what a message makes of it.
ghost use Rattle.std.specs.Prelude.{◌≡◌, pos};
ghost use Rattle.pgw_codec.specs.Phase.{phase_behind};
ghost use Rattle.pgw_startup.specs.Negotiate.{negotiated_version as version_offered};
ghost use Rattle.pgw_proxy.specs.Context.{first, client_context as context_of_client};
ghost use Rattle.pgw_proxy.specs.Context.{is_due as due, past_requests as requests_past};
ghost use Rattle.pgw_proxy.specs.Context.{at_version as version_at, past_startup as startup_past};
ghost use Rattle.pgw_proxy.specs.Context.{no_answer_due as all_answered, with_version_offer as told_offer};
ghost use Rattle.pgw_proxy.specs.Context.{behind_client as client_behind};
ghost use Rattle.pgw_proxy.specs.Context.{behind_server as server_behind};
ghost use Rattle.pgw_proxy.specs.Context.{is_accepted as accepted};

use pgw_backend::backend::PgWireBackendMessage;
use pgw_frontend::frontend::{PgWireFrontendMessage, SslNegotiationMetaMessage};
use pgw_startup::negotiate::{NegotiateProtocolVersion, negotiated_version};
use pgw_startup::response::{GssEncResponse, SslResponse};
use pgw_types::context::{DecodeContext, ProtocolVersion};
use pgw_types::listed::Listed;
use std::alloc::Global;

/// How far a connection is, as it decides how the bytes of both sides are read.
#[derive(Clone, Copy, Debug, Drop)]
pub struct Context {
    pub decode: DecodeContext,
    /// A ReadyForQuery came.
    pub ready: bool,
}

impl Context {
    /// As a connection begins.
    pub fn new() -> Context
        ensures { result ≡ first }
    {
        Context {
            decode: DecodeContext::new(ProtocolVersion::PROTOCOL3_0),
            ready: false,
        }
    }
}

// In which a client's messages are read.
pub fn client_context(context: &Context) -> DecodeContext
    ensures { result ≡ context_of_client context.now }
{
    DecodeContext {
        protocol_version: ProtocolVersion::PROTOCOL3_2,
        ..context.decode
    }
}

// Whether the answer to a request for encryption is due.
pub fn is_due(context: &Context) -> bool
    ensures { result ≡ due context.now }
{
    context.decode.awaiting_backend_ssl_response || context.decode.awaiting_backend_gss_response
}

// A first message is awaited, and no request for encryption may come any more.
pub fn past_requests(context: &DecodeContext) -> DecodeContext
    ensures { result ≡ requests_past context.now }
{
    DecodeContext {
        awaiting_frontend_ssl: false,
        awaiting_frontend_startup: true,
        ..*context
    }
}

// Under the version that is offered, if it is known.
fn at_version(version: Option<ProtocolVersion>, context: &DecodeContext) -> DecodeContext
    ensures { result ≡ version_at version context.now }
{
    match version {
        Some(protocol_version) => DecodeContext {
            protocol_version,
            ..*context
        },
        None => *context,
    }
}

// Each message has a type byte from now on.
fn past_startup(context: &DecodeContext) -> DecodeContext
    ensures { result ≡ startup_past context.now }
{
    DecodeContext {
        awaiting_frontend_ssl: false,
        awaiting_frontend_startup: false,
        ..*context
    }
}

// The version that a minor number stands for.
fn version_of(alloc: Global, minor: u16) -> Option<ProtocolVersion>
    ensures { result ≡ version_offered (pos minor) }
{
    let offer = NegotiateProtocolVersion::new(i32::from(minor), Listed::new(alloc));
    negotiated_version(&offer)
}

// Which phase a request for encryption, or another message with neither, leads to.
fn phase_behind(message: &PgWireFrontendMessage, context: &DecodeContext) -> DecodeContext
    ensures { result ≡ phase_behind message.now context.now }
{
    match message {
        PgWireFrontendMessage::SslNegotiation(SslNegotiationMetaMessage::PostgresSsl(_)) => {
            DecodeContext {
                awaiting_backend_ssl_response: true,
                ..*context
            }
        }
        PgWireFrontendMessage::SslNegotiation(SslNegotiationMetaMessage::PostgresGss(_)) => {
            DecodeContext {
                awaiting_backend_gss_response: true,
                ..*context
            }
        }
        _ => DecodeContext {
            awaiting_backend_ssl_response: false,
            awaiting_backend_gss_response: false,
            ..*context
        },
    }
}

// What a client's message makes of the context.
#[tactic(auto, unfolding(crate::specs::Context::behind_client))]
pub fn behind_client(alloc: Global, message: &PgWireFrontendMessage, context: &Context) -> Context
    ensures { result ≡ client_behind message.now context.now }
{
    let decode = match message {
        PgWireFrontendMessage::Startup(startup) => at_version(
            version_of(alloc, startup.protocol_number_minor),
            &past_startup(&context.decode),
        ),
        PgWireFrontendMessage::CancelRequest(_) => past_requests(&context.decode),
        message => phase_behind(message, &context.decode),
    };
    Context {
        decode,
        ready: context.ready,
    }
}

// No answer is due any more.
fn answered(context: &Context) -> Context
    ensures { result ≡ record context.now { decode = all_answered context.now.decode } }
{
    Context {
        decode: DecodeContext {
            awaiting_backend_ssl_response: false,
            awaiting_backend_gss_response: false,
            ..context.decode
        },
        ready: context.ready,
    }
}

// The server offers another version.
fn offered(message: &NegotiateProtocolVersion, context: &Context) -> Context
    ensures { result ≡ told_offer message.now context.now }
{
    if context.ready || context.decode.awaiting_frontend_startup {
        return *context;
    }
    Context {
        decode: at_version(negotiated_version(message), &context.decode),
        ready: context.ready,
    }
}

// What a server's message makes of the context.
#[tactic(auto, unfolding(crate::specs::Context::behind_server))]
pub fn behind_server(message: &PgWireBackendMessage, context: &Context) -> Context
    ensures { result ≡ server_behind message.now context.now }
{
    match message {
        PgWireBackendMessage::SslResponse(_) => answered(context),
        PgWireBackendMessage::GssEncResponse(_) => answered(context),
        PgWireBackendMessage::NegotiateProtocolVersion(offer) => offered(offer, context),
        PgWireBackendMessage::ReadyForQuery(_) => Context {
            decode: context.decode,
            ready: true,
        },
        _ => *context,
    }
}

// Whether the server goes on encrypted.
pub fn is_accepted(message: &PgWireBackendMessage) -> bool
    ensures { result ≡ accepted message.now }
{
    match message {
        PgWireBackendMessage::SslResponse(SslResponse::Accept) => true,
        PgWireBackendMessage::GssEncResponse(GssEncResponse::Accept) => true,
        _ => false,
    }
}
