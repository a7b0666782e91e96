//! A setting of the server.
ghost use Rattle.std.specs.Prelude.{◌≡◌, ◌||◌};
ghost use Rattle.pgw_wire.specs.declared.framing.Framing.TheVariants.{Typed};
ghost use Rattle.pgw_startup.specs.Login.{parameter_status_of, parameter_status, parameter_status_fault};
ghost use Rattle.pgw_wire.specs.declared.limits.TheConstants.{SMALL_BACKEND_LIMIT};

use pgw_types::context::DecodeContext;
use pgw_types::error::{PgWireError, PgWireResult};
use pgw_types::listed::Duplicate;
use pgw_types::memory::OutOfMemory;
use pgw_types::octets::Octets;
use pgw_types::text::Text;
use pgw_wire::framing::Framing;
use pgw_wire::limits::SMALL_BACKEND_LIMIT;
use pgw_wire::message::Message;
use pgw_wire::reader::FieldReader;
use pgw_wire::writer::{Writer, has_zero, put_text, refused_if};
use std::alloc::Global;

pub const MESSAGE_TYPE_BYTE_PARAMETER_STATUS: u8 = b'S';

/// The value of a parameter, at startup and whenever it changes (ParameterStatus).
#[derive(Debug, Drop, PartialEq, Eq)]
pub struct ParameterStatus {
    pub name: Text,
    pub value: Text,
}

impl ParameterStatus {
    pub fn new(name: Text, value: Text) -> ParameterStatus
        ensures { result ≡ record { name = name; value = value } }
    {
        ParameterStatus { name, value }
    }
}

impl Message for ParameterStatus {
    ghost row_framing = { Typed 83 };

    ghost limit = { SMALL_BACKEND_LIMIT };

    ghost reading = { parameter_status_of };

    ghost written = { parameter_status };

    ghost fault = { parameter_status_fault };

    fn framing() -> Framing {
        Framing::Typed(MESSAGE_TYPE_BYTE_PARAMETER_STATUS)
    }

    fn max_message_length() -> usize {
        SMALL_BACKEND_LIMIT
    }

    #[tactic(auto, unfolding(pgw_wire::specs::Writing::text))]
    fn message_length(&self) -> usize {
        (self.name.len() + 6).saturating_add(self.value.len())
    }

    fn refusal(&self) -> Option<PgWireError> {
        refused_if(has_zero(&self.name) || has_zero(&self.value))
    }

    fn put_body(&self, out: &mut Writer) -> Result<(), OutOfMemory> {
        put_text(out, &self.name)?;
        put_text(out, &self.value)
    }

    #[tactic(auto, unfolding(crate::specs::Login::parameter_status_of))]
    fn decode_body(
        alloc: Global,
        body: &Octets,
        _ctx: &DecodeContext,
    ) -> PgWireResult<ParameterStatus> {
        let mut reader = FieldReader::new(body);
        let name = reader.take_text(alloc)?;
        let value = reader.take_text(alloc)?;
        reader.finish()?;
        Ok(ParameterStatus { name, value })
    }
}

impl Duplicate for ParameterStatus {
    fn duplicate(&self) -> Result<ParameterStatus, OutOfMemory> {
        Ok(ParameterStatus {
            name: self.name.duplicate()?,
            value: self.value.duplicate()?,
        })
    }
}
