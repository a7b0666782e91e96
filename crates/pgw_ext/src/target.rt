//! Closing and describing statements and portals.
ghost use Rattle.std.specs.Prelude.{◌≡◌, ◌++◌, ◌∷◌, OnOk};
ghost use Rattle.pgw_wire.specs.declared.framing.Framing.TheVariants.{Typed};
ghost use Rattle.pgw_wire.specs.Reading.{Reads};
ghost use Rattle.pgw_wire.specs.Writing.{refused_if};
ghost use Rattle.pgw_ext.specs.Kinds.{name as name_bytes, is_name_refused as is_name_refused_list};
ghost use Rattle.pgw_ext.specs.Rows.{target_at, close_of, describe_of};
ghost use Rattle.pgw_wire.specs.declared.limits.TheConstants.{SMALL_LIMIT};

use crate::kinds::{is_name_refused, name_len, put_name};
use pgw_types::context::DecodeContext;
use pgw_types::error::{PgWireError, PgWireResult};
use pgw_types::listed::Duplicate;
use pgw_types::memory::OutOfMemory;
use pgw_types::octets::Octets;
use pgw_types::text::Text;
use pgw_wire::empty::EmptyResponse;
use pgw_wire::framing::Framing;
use pgw_wire::limits::SMALL_LIMIT;
use pgw_wire::message::Message;
use pgw_wire::reader::FieldReader;
use pgw_wire::writer::{Writer, put_u8, refused_if};
use std::alloc::Global;

pub const MESSAGE_TYPE_BYTE_CLOSE: u8 = b'C';

pub const MESSAGE_TYPE_BYTE_CLOSE_COMPLETE: u8 = b'3';

pub const MESSAGE_TYPE_BYTE_DESCRIBE: u8 = b'D';

pub const TARGET_TYPE_BYTE_STATEMENT: u8 = b'S';

pub const TARGET_TYPE_BYTE_PORTAL: u8 = b'P';

// The byte of a kind, and a name.
#[tactic(auto, unfolding(crate::specs::Rows::target_at))]
fn take_target(alloc: Global, reader: &mut FieldReader<'_>) -> PgWireResult<(u8, Option<Text>)>
    ensures { Reads result reader.new (target_at reader.old) }
{
    let target_type = reader.take_u8()?;
    let name = reader.take_name(alloc)?;
    Ok((target_type, name))
}

fn put_target(out: &mut Writer, target_type: u8, name: &Option<Text>) -> Result<(), OutOfMemory>
    ensures ok { OnOk result (out.new.body ≡ out.old.body ++ target_type ∷ name_bytes name.now) }
    ensures kept { out.new.before ≡ out.old.before }
{
    put_u8(out, target_type)?;
    put_name(out, name)
}

/// A statement or a portal to be closed (Close).
#[derive(Debug, Drop, PartialEq, Eq)]
pub struct Close {
    pub target_type: u8,
    pub name: Option<Text>,
}

impl Close {
    pub fn new(target_type: u8, name: Option<Text>) -> Close
        ensures { result ≡ record { target_type = target_type; name = name } }
    {
        Close { target_type, name }
    }
}

impl Message for Close {
    ghost row_framing = { Typed 67 };

    ghost limit = { SMALL_LIMIT };

    ghost reading = { close_of };

    ghost written = { λ m. m.target_type ∷ name_bytes m.name };

    ghost fault = { λ m. refused_if (is_name_refused_list m.name) };

    fn framing() -> Framing {
        Framing::Typed(MESSAGE_TYPE_BYTE_CLOSE)
    }

    fn max_message_length() -> usize {
        SMALL_LIMIT
    }

    fn message_length(&self) -> usize {
        name_len(&self.name, 5)
    }

    fn refusal(&self) -> Option<PgWireError> {
        refused_if(is_name_refused(&self.name))
    }

    fn put_body(&self, out: &mut Writer) -> Result<(), OutOfMemory> {
        put_target(out, self.target_type, &self.name)
    }

    #[tactic(auto, unfolding(crate::specs::Rows::close_of))]
    fn decode_body(alloc: Global, body: &Octets, _ctx: &DecodeContext) -> PgWireResult<Close> {
        let mut reader = FieldReader::new(body);
        let (target_type, name) = take_target(alloc, &mut reader)?;
        reader.finish()?;
        Ok(Close { target_type, name })
    }
}

impl Duplicate for Close {
    fn duplicate(&self) -> Result<Close, OutOfMemory> {
        Ok(Close {
            target_type: self.target_type,
            name: self.name.duplicate()?,
        })
    }
}

/// The statement or the portal is closed (CloseComplete).
pub type CloseComplete = EmptyResponse<MESSAGE_TYPE_BYTE_CLOSE_COMPLETE>;

/// A statement or a portal to be described (Describe).
#[derive(Debug, Drop, PartialEq, Eq)]
pub struct Describe {
    pub target_type: u8,
    pub name: Option<Text>,
}

impl Describe {
    pub fn new(target_type: u8, name: Option<Text>) -> Describe
        ensures { result ≡ record { target_type = target_type; name = name } }
    {
        Describe { target_type, name }
    }
}

impl Message for Describe {
    ghost row_framing = { Typed 68 };

    ghost limit = { SMALL_LIMIT };

    ghost reading = { describe_of };

    ghost written = { λ m. m.target_type ∷ name_bytes m.name };

    ghost fault = { λ m. refused_if (is_name_refused_list m.name) };

    fn framing() -> Framing {
        Framing::Typed(MESSAGE_TYPE_BYTE_DESCRIBE)
    }

    fn max_message_length() -> usize {
        SMALL_LIMIT
    }

    fn message_length(&self) -> usize {
        name_len(&self.name, 5)
    }

    fn refusal(&self) -> Option<PgWireError> {
        refused_if(is_name_refused(&self.name))
    }

    fn put_body(&self, out: &mut Writer) -> Result<(), OutOfMemory> {
        put_target(out, self.target_type, &self.name)
    }

    #[tactic(auto, unfolding(crate::specs::Rows::describe_of))]
    fn decode_body(alloc: Global, body: &Octets, _ctx: &DecodeContext) -> PgWireResult<Describe> {
        let mut reader = FieldReader::new(body);
        let (target_type, name) = take_target(alloc, &mut reader)?;
        reader.finish()?;
        Ok(Describe { target_type, name })
    }
}

impl Duplicate for Describe {
    fn duplicate(&self) -> Result<Describe, OutOfMemory> {
        Ok(Describe {
            target_type: self.target_type,
            name: self.name.duplicate()?,
        })
    }
}
