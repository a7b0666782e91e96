//! Canceling the query of another connection.
ghost use Rattle.std.specs.Prelude.{◌≡◌};
ghost use Rattle.pgw_wire.specs.declared.framing.Framing.TheVariants.{Opening};
ghost use Rattle.pgw_wire.specs.Keys.{key_fault};
ghost use Rattle.pgw_control.specs.Openings.{has_code, cancel_request_of, cancel_request};
ghost use Rattle.pgw_wire.specs.declared.limits.TheConstants.{SMALL_LIMIT};

use crate::packet::has_code_at_front;
use pgw_types::context::DecodeContext;
use pgw_types::error::{PgWireError, PgWireResult};
use pgw_types::listed::Duplicate;
use pgw_types::memory::OutOfMemory;
use pgw_types::octets::Octets;
use pgw_wire::framing::Framing;
use pgw_wire::limits::SMALL_LIMIT;
use pgw_wire::message::Message;
use pgw_wire::reader::FieldReader;
use pgw_wire::secret_key::SecretKey;
use pgw_wire::writer::{Writer, put_i32, put_u32};
use std::alloc::Global;

// The code that stands in place of a version.
const CANCEL_REQUEST_CODE: u32 = 80877102;

/// The query of a connection is to be canceled, which is named by its process number and its key (CancelRequest).
#[derive(Debug, Drop, PartialEq, Eq)]
pub struct CancelRequest {
    pub pid: i32,
    pub secret_key: SecretKey,
}

impl CancelRequest {
    pub fn new(pid: i32, secret_key: SecretKey) -> CancelRequest
        ensures { result ≡ record { pid = pid; secret_key = secret_key } }
    {
        CancelRequest { pid, secret_key }
    }

    /// Whether the bytes begin with such a request, whatever its length says.
    pub fn is_cancel_request_packet(buf: &[u8]) -> bool
        ensures { result ≡ has_code 80877102 buf.now }
    {
        has_code_at_front(buf, CANCEL_REQUEST_CODE)
    }
}

impl Message for CancelRequest {
    ghost row_framing = { Opening 80877102 };

    ghost limit = { SMALL_LIMIT };

    ghost reading = { cancel_request_of };

    ghost written = { cancel_request };

    ghost fault = { λ m. key_fault m.secret_key };

    fn framing() -> Framing {
        Framing::Opening(CANCEL_REQUEST_CODE)
    }

    fn max_message_length() -> usize {
        SMALL_LIMIT
    }

    #[tactic(auto, unfolding(pgw_wire::specs::Writing::i32, pgw_wire::specs::Writing::u32))]
    fn message_length(&self) -> usize {
        match &self.secret_key {
            SecretKey::I32(_) => 16,
            SecretKey::Bytes(bytes) => bytes.len() + 12,
        }
    }

    fn refusal(&self) -> Option<PgWireError> {
        self.secret_key.refusal()
    }

    fn put_body(&self, out: &mut Writer) -> Result<(), OutOfMemory> {
        put_u32(out, CANCEL_REQUEST_CODE)?;
        put_i32(out, self.pid)?;
        self.secret_key.put(out)
    }

    #[tactic(auto, unfolding(crate::specs::Openings::cancel_request_of, crate::specs::Openings::only_code, pgw_wire::specs::Reading::rest_at, pgw_wire::specs::Reading::read_end))]
    fn decode_body(
        _alloc: Global,
        body: &Octets,
        ctx: &DecodeContext,
    ) -> PgWireResult<CancelRequest> {
        if body.len() < 12 {
            return Err(PgWireError::InvalidCancelRequest);
        }
        let mut reader = FieldReader::new(body);
        if reader.take_u32()? != CANCEL_REQUEST_CODE {
            return Err(PgWireError::InvalidCancelRequest);
        }
        let pid = reader.take_i32()?;
        let secret_key = SecretKey::decode(&reader.take_rest()?, ctx)?;
        Ok(CancelRequest { pid, secret_key })
    }
}

impl Duplicate for CancelRequest {
    fn duplicate(&self) -> Result<CancelRequest, OutOfMemory> {
        Ok(CancelRequest {
            pid: self.pid,
            secret_key: self.secret_key.duplicate()?,
        })
    }
}
