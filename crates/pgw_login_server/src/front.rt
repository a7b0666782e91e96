//! The message at the front of what came from a client.
ghost use Rattle.std.specs.Prelude.{◌≡◌, ℕ, List, take, false, true, Option, Some, Ok, IsNone, IfSome};
ghost use Rattle.pgw_wire.specs.Reading.{IsReadRefusal};
ghost use Rattle.pgw_wire.specs.Framing.{Decodes};
ghost use Rattle.pgw_frontend.specs.Frontend.{frontend_front};
ghost use Rattle.pgw_frontend.specs.declared.frontend.PgWireFrontendMessage.{PgWireFrontendMessage as TheMessage};
ghost use Rattle.pgw_login_server.specs.Front.{phase, typed_within, client_front};

use bytes::BytesMut;
use pgw_frontend::frontend::{PgWireFrontendMessage, SslNegotiationMetaMessage};
use pgw_types::context::{DecodeContext, ProtocolVersion};
use pgw_types::error::{PgWireError, PgWireResult};
use pgw_wire::framing::{Framing, frame_of};
use std::alloc::Global;

// Which message comes next where its first byte does not tell.
fn phase(encryption: bool, first: bool, protocol_version: ProtocolVersion) -> DecodeContext
    ensures { result ≡ phase encryption first protocol_version }
{
    DecodeContext {
        protocol_version,
        awaiting_frontend_ssl: encryption,
        awaiting_frontend_startup: first,
        awaiting_backend_ssl_response: false,
        awaiting_backend_gss_response: false,
    }
}

// The type byte and the length field, or what there is of them.
fn header_of(bytes: &[u8]) -> &[u8]
    ensures { result.now ≡ take 5 bytes.now }
{
    if bytes.len() < 5 { bytes } else { &bytes[..5] }
}

// What a header alone is refused for, if it is.
fn header_refusal(alloc: Global, header: &[u8], version: ProtocolVersion) -> Option<PgWireError>
    ensures none { IsNone result → (found : Option (TheMessage × List ℕ))
        × (frontend_front (phase false false version) header.now ≡ Ok found) }
    ensures some { IfSome result (λ e. IsReadRefusal e
        (frontend_front (phase false false version) header.now)) }
{
    let mut buffer = BytesMut::new(alloc);
    match buffer.extend_from_slice(header) {
        Ok(()) => refusal_of(alloc, &mut buffer, version),
        Err(_) => Some(PgWireError::OutOfMemory),
    }
}

// What stands at the front is refused for, if it is.
fn refusal_of(alloc: Global, buffer: &mut BytesMut, version: ProtocolVersion) -> Option<PgWireError>
    ensures none { IsNone result → (found : Option (TheMessage × List ℕ))
        × (frontend_front (phase false false version) buffer.old.items ≡ Ok found) }
    ensures some { IfSome result (λ e. IsReadRefusal e
        (frontend_front (phase false false version) buffer.old.items)) }
{
    match PgWireFrontendMessage::decode(alloc, buffer, &phase(false, false, version)) {
        Ok(found) => {
            drop(found);
            None
        }
        Err(refusal) => Some(refusal),
    }
}

// Takes a message with a type byte that its header says to be no longer than the bound. What the header alone is refused
// for comes first.
fn next_within(
    alloc: Global,
    inbox: &mut BytesMut,
    bound: u32,
    version: ProtocolVersion,
) -> PgWireResult<Option<PgWireFrontendMessage>>
    ensures { Decodes result inbox.old.items inbox.new.items
        (typed_within (Some bound) version inbox.old.items) }
{
    match frame_of(Framing::Typed(0), bound as usize, inbox.as_slice()) {
        Ok(_) => PgWireFrontendMessage::decode(alloc, inbox, &phase(false, false, version)),
        Err(refusal) => match header_refusal(alloc, header_of(inbox.as_slice()), version) {
            Some(earlier) => Err(earlier),
            None => Err(refusal),
        },
    }
}

/// Takes the message at the front, if it is whole: one with a type byte where the startup message was taken, under the
/// bound if there is one, and else one that stands before it or in its place, or itself.
pub fn next_message(
    alloc: Global,
    inbox: &mut BytesMut,
    started: bool,
    bound: Option<u32>,
    version: ProtocolVersion,
) -> PgWireResult<Option<PgWireFrontendMessage>>
    ensures { Decodes result inbox.old.items inbox.new.items
        (client_front started bound version inbox.old.items) }
{
    if started {
        return match bound {
            Some(bound) => next_within(alloc, inbox, bound, version),
            None => PgWireFrontendMessage::decode(alloc, inbox, &phase(false, false, version)),
        };
    }
    match PgWireFrontendMessage::decode(alloc, inbox, &phase(true, true, version))? {
        Some(PgWireFrontendMessage::SslNegotiation(SslNegotiationMetaMessage::None)) => {
            PgWireFrontendMessage::decode(alloc, inbox, &phase(false, true, version))
        }
        found => Ok(found),
    }
}
