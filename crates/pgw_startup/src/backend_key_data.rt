//! The process number and the key of a connection.
ghost use Rattle.std.specs.Prelude.{◌≡◌};
ghost use Rattle.pgw_wire.specs.declared.framing.Framing.TheVariants.{Typed};
ghost use Rattle.pgw_wire.specs.Keys.{key_fault};
ghost use Rattle.pgw_startup.specs.Login.{backend_key_data_of, backend_key_data};
ghost use Rattle.pgw_wire.specs.declared.limits.TheConstants.{SMALL_BACKEND_LIMIT};

use pgw_types::context::DecodeContext;
use pgw_types::error::{PgWireError, PgWireResult};
use pgw_types::listed::Duplicate;
use pgw_types::memory::OutOfMemory;
use pgw_types::octets::Octets;
use pgw_wire::framing::Framing;
use pgw_wire::limits::SMALL_BACKEND_LIMIT;
use pgw_wire::message::Message;
use pgw_wire::reader::FieldReader;
use pgw_wire::secret_key::SecretKey;
use pgw_wire::writer::{Writer, put_i32};
use std::alloc::Global;

pub const MESSAGE_TYPE_BYTE_BACKEND_KEY_DATA: u8 = b'K';

/// What a client sends to cancel a query of this connection (BackendKeyData).
#[derive(Debug, Drop, PartialEq, Eq)]
pub struct BackendKeyData {
    pub pid: i32,
    pub secret_key: SecretKey,
}

impl BackendKeyData {
    pub fn new(pid: i32, secret_key: SecretKey) -> BackendKeyData
        ensures { result ≡ record { pid = pid; secret_key = secret_key } }
    {
        BackendKeyData { pid, secret_key }
    }
}

impl Message for BackendKeyData {
    ghost row_framing = { Typed 75 };

    ghost limit = { SMALL_BACKEND_LIMIT };

    ghost reading = { backend_key_data_of };

    ghost written = { backend_key_data };

    ghost fault = { λ m. key_fault m.secret_key };

    fn framing() -> Framing {
        Framing::Typed(MESSAGE_TYPE_BYTE_BACKEND_KEY_DATA)
    }

    fn max_message_length() -> usize {
        SMALL_BACKEND_LIMIT
    }

    #[tactic(auto, unfolding(pgw_wire::specs::Writing::i32))]
    fn message_length(&self) -> usize {
        match &self.secret_key {
            SecretKey::I32(_) => 12,
            SecretKey::Bytes(bytes) => bytes.len() + 8,
        }
    }

    fn refusal(&self) -> Option<PgWireError> {
        self.secret_key.refusal()
    }

    fn put_body(&self, out: &mut Writer) -> Result<(), OutOfMemory> {
        put_i32(out, self.pid)?;
        self.secret_key.put(out)
    }

    #[tactic(auto, unfolding(crate::specs::Login::backend_key_data_of, pgw_wire::specs::Reading::rest_at, pgw_wire::specs::Reading::read_end))]
    fn decode_body(
        _alloc: Global,
        body: &Octets,
        ctx: &DecodeContext,
    ) -> PgWireResult<BackendKeyData> {
        let mut reader = FieldReader::new(body);
        let pid = reader.take_i32()?;
        let secret_key = SecretKey::decode(&reader.take_rest()?, ctx)?;
        Ok(BackendKeyData { pid, secret_key })
    }
}

impl Duplicate for BackendKeyData {
    fn duplicate(&self) -> Result<BackendKeyData, OutOfMemory> {
        Ok(BackendKeyData {
            pid: self.pid,
            secret_key: self.secret_key.duplicate()?,
        })
    }
}
