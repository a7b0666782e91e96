//! Running a portal.
ghost use Rattle.std.specs.Prelude.{◌≡◌, ◌++◌};
ghost use Rattle.pgw_wire.specs.declared.framing.Framing.TheVariants.{Typed};
ghost use Rattle.pgw_wire.specs.Writing.{i32 as i32_bytes, refused_if};
ghost use Rattle.pgw_ext.specs.Kinds.{name as name_bytes, is_name_refused as is_name_refused_list};
ghost use Rattle.pgw_ext.specs.Rows.{execute_of};
ghost use Rattle.pgw_wire.specs.declared.limits.TheConstants.{SMALL_LIMIT};

use crate::kinds::{is_name_refused, name_len, put_name};
use pgw_types::context::DecodeContext;
use pgw_types::error::{PgWireError, PgWireResult};
use pgw_types::listed::Duplicate;
use pgw_types::memory::OutOfMemory;
use pgw_types::octets::Octets;
use pgw_types::text::Text;
use pgw_wire::empty::EmptyResponse;
use pgw_wire::framing::Framing;
use pgw_wire::limits::SMALL_LIMIT;
use pgw_wire::message::Message;
use pgw_wire::reader::FieldReader;
use pgw_wire::writer::{Writer, put_i32, refused_if};
use std::alloc::Global;

pub const MESSAGE_TYPE_BYTE_EXECUTE: u8 = b'E';

pub const MESSAGE_TYPE_BYTE_PORTAL_SUSPENDED: u8 = b's';

/// A portal to be run, and after how many rows to stop; zero is no limit (Execute).
#[derive(Debug, Drop, PartialEq, Eq)]
pub struct Execute {
    pub name: Option<Text>,
    pub max_rows: i32,
}

impl Execute {
    pub fn new(name: Option<Text>, max_rows: i32) -> Execute
        ensures { result ≡ record { name = name; max_rows = max_rows } }
    {
        Execute { name, max_rows }
    }
}

impl Message for Execute {
    ghost row_framing = { Typed 69 };

    ghost limit = { SMALL_LIMIT };

    ghost reading = { execute_of };

    ghost written = { λ m. name_bytes m.name ++ i32_bytes m.max_rows };

    ghost fault = { λ m. refused_if (is_name_refused_list m.name) };

    fn framing() -> Framing {
        Framing::Typed(MESSAGE_TYPE_BYTE_EXECUTE)
    }

    fn max_message_length() -> usize {
        SMALL_LIMIT
    }

    #[tactic(auto, unfolding(pgw_wire::specs::Writing::i32))]
    fn message_length(&self) -> usize {
        name_len(&self.name, 8)
    }

    fn refusal(&self) -> Option<PgWireError> {
        refused_if(is_name_refused(&self.name))
    }

    fn put_body(&self, out: &mut Writer) -> Result<(), OutOfMemory> {
        put_name(out, &self.name)?;
        put_i32(out, self.max_rows)
    }

    #[tactic(auto, unfolding(crate::specs::Rows::execute_of))]
    fn decode_body(alloc: Global, body: &Octets, _ctx: &DecodeContext) -> PgWireResult<Execute> {
        let mut reader = FieldReader::new(body);
        let name = reader.take_name(alloc)?;
        let max_rows = reader.take_i32()?;
        reader.finish()?;
        Ok(Execute { name, max_rows })
    }
}

impl Duplicate for Execute {
    fn duplicate(&self) -> Result<Execute, OutOfMemory> {
        Ok(Execute {
            name: self.name.duplicate()?,
            max_rows: self.max_rows,
        })
    }
}

/// The portal has more rows than were asked for (PortalSuspended).
pub type PortalSuspended = EmptyResponse<MESSAGE_TYPE_BYTE_PORTAL_SUSPENDED>;
