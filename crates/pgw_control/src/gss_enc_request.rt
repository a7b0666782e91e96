//! The request for encryption by GSSAPI.
ghost use Rattle.std.specs.Prelude.{◌≡◌, None};
ghost use Rattle.pgw_wire.specs.declared.framing.Framing.TheVariants.{Code};
ghost use Rattle.pgw_wire.specs.Writing.{u32 as u32_bytes};
ghost use Rattle.pgw_control.specs.Openings.{has_code, gss_enc_request_of};
ghost use Rattle.pgw_wire.specs.declared.limits.TheConstants.{SMALL_LIMIT};

use crate::packet::has_code_at_front;
use pgw_types::context::DecodeContext;
use pgw_types::error::{PgWireError, PgWireResult};
use pgw_types::listed::Duplicate;
use pgw_types::memory::OutOfMemory;
use pgw_types::octets::Octets;
use pgw_wire::framing::Framing;
use pgw_wire::limits::SMALL_LIMIT;
use pgw_wire::message::Message;
use pgw_wire::reader::FieldReader;
use pgw_wire::writer::{Writer, put_u32};
use std::alloc::Global;

/// The connection is to be encrypted by GSSAPI (GSSENCRequest).
#[derive(Clone, Copy, Debug, PartialEq, Eq)]
pub struct GssEncRequest;

impl GssEncRequest {
    /// The code that stands in place of a version.
    pub const BODY_MAGIC_NUMBER: i32 = 80877104;

    /// The bytes of the whole message.
    pub const BODY_SIZE: usize = 8;

    pub fn new() -> GssEncRequest
        ensures { result ≡ record {} }
    {
        GssEncRequest
    }

    /// Whether the bytes begin with such a request, whatever its length says.
    pub fn is_gss_enc_request_packet(buf: &[u8]) -> bool
        ensures { result ≡ has_code 80877104 buf.now }
    {
        has_code_at_front(buf, GssEncRequest::BODY_MAGIC_NUMBER as u32)
    }
}

impl Message for GssEncRequest {
    ghost row_framing = { Code };

    ghost limit = { SMALL_LIMIT };

    ghost reading = { gss_enc_request_of };

    ghost written = { λ m. u32_bytes 80877104 };

    ghost fault = { λ m. None };

    fn framing() -> Framing {
        Framing::Code
    }

    fn max_message_length() -> usize {
        SMALL_LIMIT
    }

    #[tactic(auto, unfolding(pgw_wire::specs::Writing::u32))]
    fn message_length(&self) -> usize {
        GssEncRequest::BODY_SIZE
    }

    fn refusal(&self) -> Option<PgWireError> {
        None
    }

    fn put_body(&self, out: &mut Writer) -> Result<(), OutOfMemory> {
        put_u32(out, GssEncRequest::BODY_MAGIC_NUMBER as u32)
    }

    #[tactic(auto, unfolding(crate::specs::Openings::gss_enc_request_of, crate::specs::Openings::only_code))]
    fn decode_body(
        _alloc: Global,
        body: &Octets,
        _ctx: &DecodeContext,
    ) -> PgWireResult<GssEncRequest> {
        let mut reader = FieldReader::new(body);
        if reader.take_u32()? != GssEncRequest::BODY_MAGIC_NUMBER as u32 {
            return Err(PgWireError::InvalidGssEncRequestMessage);
        }
        reader.finish()?;
        Ok(GssEncRequest)
    }
}

impl Duplicate for GssEncRequest {
    fn duplicate(&self) -> Result<GssEncRequest, OutOfMemory> {
        Ok(GssEncRequest)
    }
}
