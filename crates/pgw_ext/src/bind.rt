//! Binding parameters to a prepared statement.
ghost use Rattle.std.specs.Prelude.{◌≡◌, ◌||◌, IfOk};
ghost use Rattle.pgw_wire.specs.declared.framing.Framing.TheVariants.{Typed};
ghost use Rattle.std.specs.Int.{w16};
ghost use Rattle.pgw_wire.specs.Reading.{Reads, int_at};
ghost use Rattle.pgw_wire.specs.Formats.{pair_at};
ghost use Rattle.pgw_wire.specs.Writing.{refused_if};
ghost use Rattle.pgw_wire.specs.Values.{nullable_at};
ghost use Rattle.pgw_ext.specs.Kinds.{is_name_refused as is_name_refused_list};
ghost use Rattle.pgw_ext.specs.Rows.{bind_of, bind, is_bind_refused};
ghost use Rattle.pgw_wire.specs.Counted.{is_too_long, counted16_at};
ghost use Rattle.pgw_wire.specs.declared.limits.TheConstants.{LARGE_LIMIT};

use crate::kinds::{is_name_refused, name_len, put_name};
use pgw_types::context::DecodeContext;
use pgw_types::error::{PgWireError, PgWireResult};
use pgw_types::listed::{Duplicate, Listed};
use pgw_types::memory::OutOfMemory;
use pgw_types::octets::Octets;
use pgw_types::text::Text;
use pgw_wire::counted::{put_counted16, take_counted16};
use pgw_wire::empty::EmptyResponse;
use pgw_wire::field::list_len;
use pgw_wire::framing::Framing;
use pgw_wire::limits::LARGE_LIMIT;
use pgw_wire::message::Message;
use pgw_wire::reader::FieldReader;
use pgw_wire::writer::{Writer, refused_if};
use std::alloc::Global;

pub const MESSAGE_TYPE_BYTE_BIND: u8 = b'B';

pub const MESSAGE_TYPE_BYTE_BIND_COMPLETE: u8 = b'2';

/// The values of a statement's parameters, where none is NULL, and the formats of both sides (Bind).
#[derive(Debug, Drop, PartialEq, Eq)]
pub struct Bind {
    pub portal_name: Option<Text>,
    pub statement_name: Option<Text>,
    pub parameter_format_codes: Listed<i16>,
    pub parameters: Listed<Option<Octets>>,
    pub result_column_format_codes: Listed<i16>,
}

impl Bind {
    pub fn new(
        portal_name: Option<Text>,
        statement_name: Option<Text>,
        parameter_format_codes: Listed<i16>,
        parameters: Listed<Option<Octets>>,
        result_column_format_codes: Listed<i16>,
    ) -> Bind
        ensures { result ≡ record {
          portal_name = portal_name;
          statement_name = statement_name;
          parameter_format_codes = parameter_format_codes;
          parameters = parameters;
          result_column_format_codes = result_column_format_codes;
        } }
    {
        Bind {
            portal_name,
            statement_name,
            parameter_format_codes,
            parameters,
            result_column_format_codes,
        }
    }
}

// Whether a name has no spelling.
fn is_any_name_refused(m: &Bind) -> bool
    ensures { result ≡ (is_name_refused_list m.now.portal_name
        || is_name_refused_list m.now.statement_name) }
{
    is_name_refused(&m.portal_name) || is_name_refused(&m.statement_name)
}

// Whether a list has more elements than its count tells.
fn is_any_list_too_long(m: &Bind) -> bool
    ensures { result ≡ (is_too_long m.now.parameter_format_codes
        || (is_too_long m.now.parameters || is_too_long m.now.result_column_format_codes)) }
{
    m.parameter_format_codes.as_slice().len() > 65535
        || (m.parameters.as_slice().len() > 65535
            || m.result_column_format_codes.as_slice().len() > 65535)
}

fn is_refused(m: &Bind) -> bool
    ensures { result ≡ is_bind_refused m.now }
{
    is_any_name_refused(m) || is_any_list_too_long(m)
}

// The values between the formats of both sides.
fn take_values(
    alloc: Global,
    reader: &mut FieldReader<'_>,
) -> PgWireResult<(Listed<i16>, (Listed<Option<Octets>>, Listed<i16>))>
    ensures { Reads result reader.new (pair_at (counted16_at 2 (int_at w16))
        (pair_at (counted16_at 4 nullable_at) (counted16_at 2 (int_at w16))) reader.old) }
{
    let parameter_formats = take_counted16(alloc, reader, 2)?;
    let parameters = take_counted16(alloc, reader, 4)?;
    let result_formats = take_counted16(alloc, reader, 2)?;
    Ok((parameter_formats, (parameters, result_formats)))
}

impl Message for Bind {
    ghost row_framing = { Typed 66 };

    ghost limit = { LARGE_LIMIT };

    ghost reading = { bind_of };

    ghost written = { bind };

    ghost fault = { λ m. refused_if (is_bind_refused m) };

    fn framing() -> Framing {
        Framing::Typed(MESSAGE_TYPE_BYTE_BIND)
    }

    fn max_message_length() -> usize {
        LARGE_LIMIT
    }

    #[tactic(auto, unfolding(pgw_wire::specs::Writing::u16))]
    fn message_length(&self) -> usize {
        let len = name_len(&self.portal_name, name_len(&self.statement_name, 10));
        let len = list_len(self.parameter_format_codes.as_slice(), len);
        let len = list_len(self.parameters.as_slice(), len);
        list_len(self.result_column_format_codes.as_slice(), len)
    }

    fn refusal(&self) -> Option<PgWireError> {
        refused_if(is_refused(self))
    }

    fn put_body(&self, out: &mut Writer) -> Result<(), OutOfMemory> {
        put_name(out, &self.portal_name)?;
        put_name(out, &self.statement_name)?;
        put_counted16(out, self.parameter_format_codes.as_slice())?;
        put_counted16(out, self.parameters.as_slice())?;
        put_counted16(out, self.result_column_format_codes.as_slice())
    }

    #[tactic(auto, unfolding(crate::specs::Rows::bind_of))]
    fn decode_body(alloc: Global, body: &Octets, _ctx: &DecodeContext) -> PgWireResult<Bind> {
        let mut reader = FieldReader::new(body);
        let portal_name = reader.take_name(alloc)?;
        let statement_name = reader.take_name(alloc)?;
        let (parameter_format_codes, (parameters, result_column_format_codes)) = take_values(
            alloc,
            &mut reader,
        )?;
        let message = Bind {
            portal_name,
            statement_name,
            parameter_format_codes,
            parameters,
            result_column_format_codes,
        };
        reader.finish()?;
        Ok(message)
    }
}

/// The values are bound (BindComplete).
pub type BindComplete = EmptyResponse<MESSAGE_TYPE_BYTE_BIND_COMPLETE>;

// Copies of the values between the formats of both sides.
fn copied_values(
    m: &Bind,
) -> Result<(Listed<i16>, (Listed<Option<Octets>>, Listed<i16>)), OutOfMemory>
    ensures { IfOk result (λ copy. copy ≡ (
      m.now.parameter_format_codes,
      (m.now.parameters, m.now.result_column_format_codes),
    )) }
{
    let parameter_formats = m.parameter_format_codes.duplicate()?;
    let parameters = m.parameters.duplicate()?;
    let result_formats = m.result_column_format_codes.duplicate()?;
    Ok((parameter_formats, (parameters, result_formats)))
}

impl Duplicate for Bind {
    fn duplicate(&self) -> Result<Bind, OutOfMemory> {
        let portal_name = self.portal_name.duplicate()?;
        let statement_name = self.statement_name.duplicate()?;
        let (parameter_format_codes, (parameters, result_column_format_codes)) = copied_values(
            self,
        )?;
        Ok(Bind {
            portal_name,
            statement_name,
            parameter_format_codes,
            parameters,
            result_column_format_codes,
        })
    }
}
