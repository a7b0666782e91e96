//! The message at the front of what came from a side.
ghost use Rattle.std.specs.Prelude.{◌≡◌};
ghost use Rattle.pgw_wire.specs.Framing.{Decodes};
ghost use Rattle.pgw_frontend.specs.Frontend.{frontend_front};
ghost use Rattle.pgw_proxy.specs.declared.recorded.Side.TheVariants.{Client, Server};
ghost use Rattle.pgw_proxy.specs.declared.fault.ProxyFault.TheVariants as fault;
ghost use Rattle.pgw_proxy.specs.Fronts.{front_past_encryption, client_side_front, refused, GivesSideFront};

use crate::context::{
    Context, behind_client, behind_server, client_context, is_accepted, is_due, past_requests,
};
use crate::fault::ProxyFault;
use crate::recorded::{Recorded, Side};
use pgw_backend::backend::PgWireBackendMessage;
use pgw_frontend::frontend::{PgWireFrontendMessage, SslNegotiationMetaMessage};
use pgw_types::context::DecodeContext;
use pgw_types::error::{PgWireError, PgWireResult};
use pgw_wire::buffer::Buffer;
use std::alloc::Global;

// Takes the message at the front where a request for encryption may stand. That none is asked for
// is passed over.
fn decode_opening<B: Buffer>(
    alloc: Global,
    context: &DecodeContext,
    bytes: &mut B,
) -> PgWireResult<Option<PgWireFrontendMessage>>
    ensures { Decodes result (B.held bytes.old) (B.held bytes.new)
        (front_past_encryption context.now (frontend_front context.now (B.held bytes.old))) }
{
    match PgWireFrontendMessage::decode_from(alloc, bytes, context)? {
        Some(PgWireFrontendMessage::SslNegotiation(SslNegotiationMetaMessage::None)) => {
            PgWireFrontendMessage::decode_from(alloc, bytes, &past_requests(context))
        }
        found => Ok(found),
    }
}

// Takes the message at the front of a client's bytes, if it is whole.
#[tactic(auto, unfolding(crate::specs::Fronts::client_side_front))]
fn decode_client<B: Buffer>(
    alloc: Global,
    context: &DecodeContext,
    bytes: &mut B,
) -> PgWireResult<Option<PgWireFrontendMessage>>
    ensures { Decodes result (B.held bytes.old) (B.held bytes.new)
        (client_side_front context.now (B.held bytes.old)) }
{
    if context.awaiting_frontend_ssl {
        decode_opening(alloc, context, bytes)
    } else {
        PgWireFrontendMessage::decode_from(alloc, bytes, context)
    }
}

fn client_fault(e: PgWireError) -> ProxyFault
    ensures { result ≡ refused fault.Client e }
{
    match e {
        PgWireError::OutOfMemory => ProxyFault::OutOfMemory,
        e => ProxyFault::Client(e),
    }
}

fn server_fault(e: PgWireError) -> ProxyFault
    ensures { result ≡ refused fault.Server e }
{
    match e {
        PgWireError::OutOfMemory => ProxyFault::OutOfMemory,
        e => ProxyFault::Server(e),
    }
}

// Takes the message at the front of a client's bytes.
#[tactic(auto, unfolding(crate::specs::Fronts::side_front))]
fn take_client<B: Buffer>(
    alloc: Global,
    context: &mut Context,
    bytes: &mut B,
) -> Result<Option<Recorded>, ProxyFault>
    ensures { GivesSideFront Client context.old (B.held bytes.old) context.new (B.held bytes.new)
        result }
{
    match decode_client(alloc, &client_context(context), bytes) {
        Ok(None) => Ok(None),
        Ok(Some(message)) => {
            if is_due(context) {
                drop(message);
                return Err(ProxyFault::Negotiation);
            }
            *context = behind_client(alloc, &message, context);
            Ok(Some(Recorded::Frontend(message)))
        }
        Err(e) => Err(client_fault(e)),
    }
}

// Takes the message at the front of a server's bytes.
#[tactic(auto, unfolding(crate::specs::Fronts::side_front))]
fn take_server<B: Buffer>(
    alloc: Global,
    context: &mut Context,
    bytes: &mut B,
) -> Result<Option<Recorded>, ProxyFault>
    ensures { GivesSideFront Server context.old (B.held bytes.old) context.new (B.held bytes.new)
        result }
{
    match PgWireBackendMessage::decode_from(alloc, bytes, &context.decode) {
        Ok(None) => Ok(None),
        Ok(Some(message)) => {
            if is_accepted(&message) {
                drop(message);
                return Err(ProxyFault::TlsAccepted);
            }
            *context = behind_server(&message, context);
            Ok(Some(Recorded::Backend(message)))
        }
        Err(e) => Err(server_fault(e)),
    }
}

// Takes the message at the front of a side's bytes, if it is whole.
pub fn take_message<B: Buffer>(
    alloc: Global,
    side: Side,
    context: &mut Context,
    bytes: &mut B,
) -> Result<Option<Recorded>, ProxyFault>
    ensures { GivesSideFront side context.old (B.held bytes.old) context.new (B.held bytes.new)
        result }
{
    match side {
        Side::Client => take_client(alloc, context, bytes),
        Side::Server => take_server(alloc, context, bytes),
    }
}
