//! Messages from and to buffers, with the client's errors.
ghost use Rattle.std.specs.Prelude.{◌≡◌, ◌∷◌, [], IfErr};
ghost use Rattle.pgw_backend.specs.Front.{typed_phase};
ghost use Rattle.pgw_frontend.specs.Frontend.{encodings};
ghost use Rattle.pgw_dialogue.specs.Wire.{Decoded, PutOut, IsOwn};

use bytes::BytesMut;
use pgw_backend::backend::PgWireBackendMessage;
use pgw_backend::client_error::PgWireClientError;
use pgw_frontend::frontend::PgWireFrontendMessage;
use pgw_query::simplequery::encode_query;
use pgw_types::context::{DecodeContext, ProtocolVersion};
use pgw_types::text::Text;
use pgw_wire::buffer::Buffer;
use std::alloc::Global;

// Each message has a type byte now.
fn typed_phase(protocol_version: ProtocolVersion) -> DecodeContext
    ensures { result ≡ typed_phase protocol_version }
{
    DecodeContext {
        protocol_version,
        awaiting_frontend_ssl: false,
        awaiting_frontend_startup: false,
        awaiting_backend_ssl_response: false,
        awaiting_backend_gss_response: false,
    }
}

/// Takes the message at the front, if it is whole.
#[inline(always)]
pub fn decode<B: Buffer>(
    alloc: Global,
    version: ProtocolVersion,
    buffer: &mut B,
) -> Result<Option<PgWireBackendMessage>, PgWireClientError>
    ensures own { IfErr result IsOwn }
    ensures decoded { Decoded version (B.held buffer.old) (B.held buffer.new) result }
{
    match PgWireBackendMessage::decode_from(alloc, buffer, &typed_phase(version)) {
        Ok(found) => Ok(found),
        Err(e) => Err(PgWireClientError::from(e)),
    }
}

/// Appends the encodings of some messages, or nothing.
pub fn put_all(
    messages: &[PgWireFrontendMessage],
    out: &mut BytesMut,
) -> Result<(), PgWireClientError>
    ensures own { IfErr result IsOwn }
    ensures put { PutOut (encodings messages.now) out.old.items out.new.items result }
{
    let start = out.len();
    let mut at = 0;
    while at < messages.len() {
        match messages[at].encode(out) {
            Ok(()) => {}
            Err(e) => {
                out.truncate(start);
                return Err(PgWireClientError::from(e));
            }
        }
        at += 1;
    }
    Ok(())
}

/// Appends the encoding of a query that is kept, or nothing.
#[tactic(auto, unfolding(pgw_frontend::specs::Frontend::encoding))]
pub fn put_query(query: &Text, out: &mut BytesMut) -> Result<(), PgWireClientError>
    ensures own { IfErr result IsOwn }
    ensures put { PutOut
        (encodings (PgWireFrontendMessage.Query (record { query = query.now }) ∷ []))
        out.old.items out.new.items result }
{
    match encode_query(query, out) {
        Ok(()) => Ok(()),
        Err(e) => Err(PgWireClientError::from(e)),
    }
}
