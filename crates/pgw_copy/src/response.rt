//! What a server answers to COPY.
ghost use Rattle.std.specs.Prelude.{◌≡◌, ◌++◌, OnOk};
ghost use Rattle.pgw_wire.specs.declared.framing.Framing.TheVariants.{Typed};
ghost use Rattle.pgw_wire.specs.Reading.{Reads};
ghost use Rattle.pgw_wire.specs.Writing.{refused_if};
ghost use Rattle.pgw_copy.specs.Rows.{columns_at, formats, is_miscounted as is_miscounted_list, copy_response_of};
ghost use Rattle.pgw_wire.specs.declared.limits.TheConstants.{SMALL_BACKEND_LIMIT};

use pgw_types::context::DecodeContext;
use pgw_types::error::{PgWireError, PgWireResult};
use pgw_types::listed::{Duplicate, Listed};
use pgw_types::memory::OutOfMemory;
use pgw_types::octets::Octets;
use pgw_wire::field::{list_len, put_list, take_list, unsigned_count};
use pgw_wire::framing::Framing;
use pgw_wire::limits::SMALL_BACKEND_LIMIT;
use pgw_wire::message::Message;
use pgw_wire::reader::FieldReader;
use pgw_wire::writer::{Writer, put_i16, put_u8, refused_if};
use std::alloc::Global;

pub const MESSAGE_TYPE_BYTE_COPY_IN_RESPONSE: u8 = b'G';

pub const MESSAGE_TYPE_BYTE_COPY_OUT_RESPONSE: u8 = b'H';

pub const MESSAGE_TYPE_BYTE_COPY_BOTH_RESPONSE: u8 = b'W';

// The format of all, the number of columns, and their formats.
#[tactic(auto, unfolding(crate::specs::Rows::columns_at))]
fn take_formats(alloc: Global, reader: &mut FieldReader<'_>) -> PgWireResult<(i8, i16, Listed<i16>)>
    ensures { Reads result reader.new (columns_at reader.old) }
{
    let format = reader.take_i8()?;
    let columns = reader.take_i16()?;
    let count = unsigned_count(columns as i32);
    let column_formats = take_list(alloc, reader, count, 2)?;
    Ok((format, columns, column_formats))
}

// Whether the columns are not as many as their formats.
fn is_miscounted(columns: i16, column_formats: &[i16]) -> bool
    ensures { result ≡ is_miscounted_list columns column_formats.now }
{
    columns < 0 || columns as usize != column_formats.len()
}

fn put_formats(
    out: &mut Writer,
    format: i8,
    columns: i16,
    column_formats: &[i16],
) -> Result<(), OutOfMemory>
    ensures ok { OnOk result (out.new.body ≡ out.old.body
        ++ formats format columns column_formats.now) }
    ensures kept { out.new.before ≡ out.old.before }
{
    put_u8(out, format.cast_unsigned())?;
    put_i16(out, columns)?;
    put_list(out, column_formats)
}

/// What a server answers to COPY: CopyInResponse, CopyOutResponse or CopyBothResponse, by its type byte.
#[derive(Debug, Drop, PartialEq, Eq)]
pub struct CopyResponse<const TYPE: u8> {
    pub format: i8,
    pub columns: i16,
    pub column_formats: Listed<i16>,
}

/// The server waits for data.
pub type CopyInResponse = CopyResponse<MESSAGE_TYPE_BYTE_COPY_IN_RESPONSE>;

/// The server sends data.
pub type CopyOutResponse = CopyResponse<MESSAGE_TYPE_BYTE_COPY_OUT_RESPONSE>;

/// Data goes both ways.
pub type CopyBothResponse = CopyResponse<MESSAGE_TYPE_BYTE_COPY_BOTH_RESPONSE>;

impl<const TYPE: u8> CopyResponse<TYPE> {
    pub fn new(format: i8, columns: i16, column_formats: Listed<i16>) -> CopyResponse<TYPE>
        ensures { result ≡ record {
          format = format;
          columns = columns;
          column_formats =
              column_formats;
        } }
    {
        CopyResponse {
            format,
            columns,
            column_formats,
        }
    }
}

impl<const TYPE: u8> Message for CopyResponse<TYPE> {
    ghost row_framing = { Typed TYPE };

    ghost limit = { SMALL_BACKEND_LIMIT };

    ghost reading = { copy_response_of TYPE };

    ghost written = { λ m. formats m.format m.columns m.column_formats };

    ghost fault = { λ m. refused_if (is_miscounted_list m.columns m.column_formats) };

    fn framing() -> Framing {
        Framing::Typed(TYPE)
    }

    fn max_message_length() -> usize {
        SMALL_BACKEND_LIMIT
    }

    #[tactic(auto, unfolding(pgw_wire::specs::Writing::i16))]
    fn message_length(&self) -> usize {
        list_len(self.column_formats.as_slice(), 7)
    }

    fn refusal(&self) -> Option<PgWireError> {
        refused_if(is_miscounted(self.columns, self.column_formats.as_slice()))
    }

    fn put_body(&self, out: &mut Writer) -> Result<(), OutOfMemory> {
        put_formats(
            out,
            self.format,
            self.columns,
            self.column_formats.as_slice(),
        )
    }

    #[tactic(auto, unfolding(crate::specs::Rows::copy_response_of))]
    fn decode_body(
        alloc: Global,
        body: &Octets,
        _ctx: &DecodeContext,
    ) -> PgWireResult<CopyResponse<TYPE>> {
        let mut reader = FieldReader::new(body);
        let (format, columns, column_formats) = take_formats(alloc, &mut reader)?;
        reader.finish()?;
        Ok(CopyResponse {
            format,
            columns,
            column_formats,
        })
    }
}

impl<const TYPE: u8> Duplicate for CopyResponse<TYPE> {
    fn duplicate(&self) -> Result<CopyResponse<TYPE>, OutOfMemory> {
        Ok(CopyResponse {
            format: self.format,
            columns: self.columns,
            column_formats: self.column_formats.duplicate()?,
        })
    }
}
