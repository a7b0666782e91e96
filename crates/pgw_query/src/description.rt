//! What a statement needs, and that it gives no rows.
ghost use Rattle.std.specs.Prelude.{◌≡◌};
ghost use Rattle.pgw_wire.specs.declared.framing.Framing.TheVariants.{Typed};
ghost use Rattle.pgw_wire.specs.Counted.{is_too_long, counted16};
ghost use Rattle.pgw_wire.specs.Writing.{u32 as u32_bytes, refused_if};
ghost use Rattle.pgw_query.specs.Rows.{parameter_description_of};
ghost use Rattle.pgw_wire.specs.declared.limits.TheConstants.{LONG_LIMIT};

use pgw_types::context::DecodeContext;
use pgw_types::error::{PgWireError, PgWireResult};
use pgw_types::listed::{Duplicate, Listed};
use pgw_types::memory::OutOfMemory;
use pgw_types::octets::Octets;
use pgw_wire::counted::{put_counted16, take_counted16};
use pgw_wire::empty::EmptyResponse;
use pgw_wire::field::list_len;
use pgw_wire::framing::Framing;
use pgw_wire::limits::LONG_LIMIT;
use pgw_wire::message::Message;
use pgw_wire::reader::FieldReader;
use pgw_wire::writer::{Writer, refused_if};
use std::alloc::Global;

pub const MESSAGE_TYPE_BYTE_PARAMETER_DESCRITION: u8 = b't';

pub const MESSAGE_TYPE_BYTE_NO_DATA: u8 = b'n';

/// The types of a statement's parameters, as numbers of pg_type (ParameterDescription).
#[derive(Debug, Drop, PartialEq, Eq)]
pub struct ParameterDescription {
    pub types: Listed<u32>,
}

impl ParameterDescription {
    pub fn new(types: Listed<u32>) -> ParameterDescription
        ensures { result ≡ record { types = types } }
    {
        ParameterDescription { types }
    }
}

impl Message for ParameterDescription {
    ghost row_framing = { Typed 116 };

    ghost limit = { LONG_LIMIT };

    ghost reading = { parameter_description_of };

    ghost written = { λ m. counted16 u32_bytes m.types };

    ghost fault = { λ m. refused_if (is_too_long m.types) };

    fn framing() -> Framing {
        Framing::Typed(MESSAGE_TYPE_BYTE_PARAMETER_DESCRITION)
    }

    fn max_message_length() -> usize {
        LONG_LIMIT
    }

    #[tactic(auto, unfolding(pgw_wire::specs::Writing::u16))]
    fn message_length(&self) -> usize {
        list_len(self.types.as_slice(), 6)
    }

    fn refusal(&self) -> Option<PgWireError> {
        let types = self.types.as_slice();
        refused_if(types.len() > 65535)
    }

    fn put_body(&self, out: &mut Writer) -> Result<(), OutOfMemory> {
        let types = self.types.as_slice();
        put_counted16(out, types)
    }

    #[tactic(auto, unfolding(crate::specs::Rows::parameter_description_of))]
    fn decode_body(
        alloc: Global,
        body: &Octets,
        _ctx: &DecodeContext,
    ) -> PgWireResult<ParameterDescription> {
        let mut reader = FieldReader::new(body);
        let types = take_counted16(alloc, &mut reader, 4)?;
        reader.finish()?;
        Ok(ParameterDescription { types })
    }
}

/// The statement or portal gives no rows (NoData).
pub type NoData = EmptyResponse<MESSAGE_TYPE_BYTE_NO_DATA>;

impl Duplicate for ParameterDescription {
    fn duplicate(&self) -> Result<ParameterDescription, OutOfMemory> {
        Ok(ParameterDescription {
            types: self.types.duplicate()?,
        })
    }
}
