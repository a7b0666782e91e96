//! Making a prepared statement.
ghost use Rattle.std.specs.Prelude.{◌≡◌};
ghost use Rattle.pgw_wire.specs.declared.framing.Framing.TheVariants.{Typed};
ghost use Rattle.pgw_wire.specs.Writing.{refused_if};
ghost use Rattle.pgw_ext.specs.Rows.{parse_of, parse, is_parse_refused};
ghost use Rattle.pgw_wire.specs.declared.limits.TheConstants.{LARGE_LIMIT};

use crate::kinds::{is_name_refused, name_len, put_name};
use pgw_types::context::DecodeContext;
use pgw_types::error::{PgWireError, PgWireResult};
use pgw_types::listed::{Duplicate, Listed};
use pgw_types::memory::OutOfMemory;
use pgw_types::octets::Octets;
use pgw_types::text::Text;
use pgw_wire::counted::{put_counted16, take_counted16};
use pgw_wire::empty::EmptyResponse;
use pgw_wire::field::list_len;
use pgw_wire::framing::Framing;
use pgw_wire::limits::LARGE_LIMIT;
use pgw_wire::message::Message;
use pgw_wire::reader::FieldReader;
use pgw_wire::writer::{Writer, has_zero, put_text, refused_if};
use std::alloc::Global;

pub const MESSAGE_TYPE_BYTE_PARSE: u8 = b'P';

pub const MESSAGE_TYPE_BYTE_PARSE_COMPLETE: u8 = b'1';

/// A statement to be prepared, and the types of its first parameters (Parse). No name is the unnamed statement.
#[derive(Debug, Drop, PartialEq, Eq)]
pub struct Parse {
    pub name: Option<Text>,
    pub query: Text,
    pub type_oids: Listed<u32>,
}

impl Parse {
    pub fn new(name: Option<Text>, query: Text, type_oids: Listed<u32>) -> Parse
        ensures { result ≡ record { name = name; query = query; type_oids = type_oids } }
    {
        Parse {
            name,
            query,
            type_oids,
        }
    }
}

// Whether there is no spelling.
fn is_refused(m: &Parse) -> bool
    ensures { result ≡ is_parse_refused m.now }
{
    is_name_refused(&m.name) || (has_zero(&m.query) || m.type_oids.as_slice().len() > 65535)
}

impl Message for Parse {
    ghost row_framing = { Typed 80 };

    ghost limit = { LARGE_LIMIT };

    ghost reading = { parse_of };

    ghost written = { parse };

    ghost fault = { λ m. refused_if (is_parse_refused m) };

    fn framing() -> Framing {
        Framing::Typed(MESSAGE_TYPE_BYTE_PARSE)
    }

    fn max_message_length() -> usize {
        LARGE_LIMIT
    }

    #[tactic(auto, unfolding(pgw_wire::specs::Writing::text, pgw_wire::specs::Writing::u16))]
    fn message_length(&self) -> usize {
        list_len(
            self.type_oids.as_slice(),
            name_len(&self.name, self.query.len() + 7),
        )
    }

    fn refusal(&self) -> Option<PgWireError> {
        refused_if(is_refused(self))
    }

    fn put_body(&self, out: &mut Writer) -> Result<(), OutOfMemory> {
        put_name(out, &self.name)?;
        put_text(out, &self.query)?;
        put_counted16(out, self.type_oids.as_slice())
    }

    #[tactic(auto, unfolding(crate::specs::Rows::parse_of))]
    fn decode_body(alloc: Global, body: &Octets, _ctx: &DecodeContext) -> PgWireResult<Parse> {
        let mut reader = FieldReader::new(body);
        let name = reader.take_name(alloc)?;
        let query = reader.take_text(alloc)?;
        let type_oids = take_counted16(alloc, &mut reader, 4)?;
        reader.finish()?;
        Ok(Parse {
            name,
            query,
            type_oids,
        })
    }
}

/// The statement is prepared (ParseComplete).
pub type ParseComplete = EmptyResponse<MESSAGE_TYPE_BYTE_PARSE_COMPLETE>;

impl Duplicate for Parse {
    fn duplicate(&self) -> Result<Parse, OutOfMemory> {
        Ok(Parse {
            name: self.name.duplicate()?,
            query: self.query.duplicate()?,
            type_oids: self.type_oids.duplicate()?,
        })
    }
}
