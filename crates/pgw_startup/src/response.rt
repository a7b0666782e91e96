//! What a server answers to a request for encryption.
ghost use Rattle.std.specs.Prelude.{◌∷◌, [], None};
ghost use Rattle.pgw_wire.specs.declared.framing.Framing.TheVariants.{OneByte};
ghost use Rattle.pgw_startup.specs.Response.{encryption_response_of, answer_byte};
ghost use Rattle.pgw_wire.specs.declared.limits.TheConstants.{SMALL_LIMIT};

use pgw_types::context::DecodeContext;
use pgw_types::error::{PgWireError, PgWireResult};
use pgw_types::listed::Duplicate;
use pgw_types::memory::OutOfMemory;
use pgw_types::octets::Octets;
use pgw_wire::framing::Framing;
use pgw_wire::limits::SMALL_LIMIT;
use pgw_wire::message::Message;
use pgw_wire::reader::FieldReader;
use pgw_wire::writer::Writer;
use std::alloc::Global;

/// Whether the server goes on under the encryption that was asked for: the one byte that answers an SSLRequest or a
/// GSSENCRequest. ACCEPT is the byte that accepts, and is to be another than `N`, which refuses.
#[derive(Clone, Copy, Debug, PartialEq, Eq)]
pub enum EncryptionResponse<const ACCEPT: u8> {
    Accept,
    Refuse,
}

/// What a server that goes on under TLS says.
pub const BYTE_ACCEPT_SSL: u8 = b'S';

/// What a server that goes on under GSSAPI encryption says.
pub const BYTE_ACCEPT_GSS_ENC: u8 = b'G';

/// What answers an SSLRequest.
pub type SslResponse = EncryptionResponse<BYTE_ACCEPT_SSL>;

/// What answers a GSSENCRequest.
pub type GssEncResponse = EncryptionResponse<BYTE_ACCEPT_GSS_ENC>;

impl SslResponse {
    pub const BYTE_ACCEPT: u8 = BYTE_ACCEPT_SSL;

    pub const BYTE_REFUSE: u8 = b'N';

    /// The whole message is this many bytes.
    pub const MESSAGE_LENGTH: usize = 1;
}

impl GssEncResponse {
    pub const BYTE_ACCEPT: u8 = BYTE_ACCEPT_GSS_ENC;

    pub const BYTE_REFUSE: u8 = b'N';

    /// The whole message is this many bytes.
    pub const MESSAGE_LENGTH: usize = 1;
}

impl<const ACCEPT: u8> Message for EncryptionResponse<ACCEPT> {
    ghost row_framing = { OneByte };

    ghost limit = { SMALL_LIMIT };

    ghost reading = { encryption_response_of ACCEPT };

    ghost written = { λ m. answer_byte ACCEPT m ∷ [] };

    ghost fault = { λ m. None };

    fn framing() -> Framing {
        Framing::OneByte
    }

    fn max_message_length() -> usize {
        SMALL_LIMIT
    }

    fn message_length(&self) -> usize {
        1
    }

    fn refusal(&self) -> Option<PgWireError> {
        None
    }

    fn put_body(&self, out: &mut Writer) -> Result<(), OutOfMemory> {
        let byte = match self {
            EncryptionResponse::Accept => ACCEPT,
            EncryptionResponse::Refuse => b'N',
        };
        out.put_slice(&[byte])
    }

    #[tactic(auto, unfolding(crate::specs::Response::encryption_response_of, crate::specs::Response::answer_of_byte))]
    fn decode_body(
        _alloc: Global,
        body: &Octets,
        _ctx: &DecodeContext,
    ) -> PgWireResult<EncryptionResponse<ACCEPT>> {
        let mut reader = FieldReader::new(body);
        let byte = reader.take_u8()?;
        let response = if byte == ACCEPT {
            EncryptionResponse::Accept
        } else if byte == b'N' {
            EncryptionResponse::Refuse
        } else {
            return Err(PgWireError::InvalidMessageType(byte));
        };
        reader.finish()?;
        Ok(response)
    }
}

impl<const ACCEPT: u8> Duplicate for EncryptionResponse<ACCEPT> {
    fn duplicate(&self) -> Result<EncryptionResponse<ACCEPT>, OutOfMemory> {
        Ok(*self)
    }
}
