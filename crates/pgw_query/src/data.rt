//! Rows.
ghost use Rattle.std.specs.Prelude.{◌≡◌, ◌||◌, None};
ghost use Rattle.std.specs.Int.{w16, w32};
ghost use Rattle.std.specs.List.{list_any};
ghost use Rattle.pgw_wire.specs.declared.framing.Framing.TheVariants.{Typed};
ghost use Rattle.pgw_wire.specs.Reading.{Reads, nat_at, int_at};
ghost use Rattle.pgw_wire.specs.Formats.{pair_at};
ghost use Rattle.pgw_wire.specs.Writing.{has_zero as holds_zero, refused_if};
ghost use Rattle.pgw_query.specs.Rows.{field_at, field, row_description_of, row_description, is_refused as is_refused_list, data_row_of, data_row};
ghost use Rattle.pgw_wire.specs.declared.limits.TheConstants.{LONG_LIMIT};

use pgw_types::context::DecodeContext;
use pgw_types::error::{PgWireError, PgWireResult};
use pgw_types::listed::{Duplicate, Listed};
use pgw_types::memory::OutOfMemory;
use pgw_types::octets::Octets;
use pgw_types::text::Text;
use pgw_wire::field::{Field, list_len, put_list, take_list, unsigned_count};
use pgw_wire::framing::Framing;
use pgw_wire::limits::LONG_LIMIT;
use pgw_wire::message::Message;
use pgw_wire::reader::FieldReader;
use pgw_wire::writer::{
    Writer, has_zero, put_i16, put_i32, put_text, put_u16, put_u32, refused_if,
};
use std::alloc::Global;

pub const MESSAGE_TYPE_BYTE_ROW_DESCRITION: u8 = b'T';

pub const MESSAGE_TYPE_BYTE_DATA_ROW: u8 = b'D';

/// A column's values are texts.
pub const FORMAT_CODE_TEXT: i16 = 0;

/// A column's values are in the binary form of their type.
pub const FORMAT_CODE_BINARY: i16 = 1;

/// A column of a result. An identifier of 0 is none: the column comes from no table.
#[derive(Debug, Drop, PartialEq, Eq)]
pub struct FieldDescription {
    pub name: Text,
    pub table_id: i32,
    pub column_id: i16,
    pub type_id: u32,
    pub type_size: i16,
    pub type_modifier: i32,
    pub format_code: i16,
}

impl FieldDescription {
    pub fn new(
        name: Text,
        table_id: i32,
        column_id: i16,
        type_id: u32,
        type_size: i16,
        type_modifier: i32,
        format_code: i16,
    ) -> FieldDescription
        ensures { result ≡ record {
          name = name;
          table_id = table_id;
          column_id = column_id;
          type_id
              = type_id;
          type_size = type_size;
          type_modifier = type_modifier;
          format_code
              = format_code;
        } }
    {
        FieldDescription {
            name,
            table_id,
            column_id,
            type_id,
            type_size,
            type_modifier,
            format_code,
        }
    }
}

// The size of the type, its modifier and the format.
fn take_form(reader: &mut FieldReader<'_>) -> PgWireResult<(i16, (i32, i16))>
    ensures { Reads result reader.new (pair_at (int_at w16) (pair_at (int_at w32) (int_at w16))
        reader.old) }
{
    let type_size = reader.take_i16()?;
    let type_modifier = reader.take_i32()?;
    let format_code = reader.take_i16()?;
    Ok((type_size, (type_modifier, format_code)))
}

// Where the column comes from, its type and its form.
fn take_origin(reader: &mut FieldReader<'_>) -> PgWireResult<(i32, (i16, (u32, (i16, (i32, i16)))))>
    ensures { Reads result reader.new (pair_at (int_at w32)
        (pair_at (int_at w16) (pair_at (nat_at w32)
        (pair_at (int_at w16) (pair_at (int_at w32) (int_at w16))))) reader.old) }
{
    let table_id = reader.take_i32()?;
    let column_id = reader.take_i16()?;
    let type_id = reader.take_u32()?;
    let form = take_form(reader)?;
    Ok((table_id, (column_id, (type_id, form))))
}

impl Field for FieldDescription {
    ghost at = { field_at };

    ghost spelled = { field };

    #[tactic(auto, unfolding(crate::specs::Rows::field_at))]
    fn take(alloc: Global, reader: &mut FieldReader<'_>) -> PgWireResult<FieldDescription> {
        let name = reader.take_text(alloc)?;
        let (table_id, (column_id, (type_id, form))) = take_origin(reader)?;
        let (type_size, (type_modifier, format_code)) = form;
        Ok(FieldDescription {
            name,
            table_id,
            column_id,
            type_id,
            type_size,
            type_modifier,
            format_code,
        })
    }

    #[tactic(auto, using(std::proofs::Common::append_assoc))]
    fn put(&self, out: &mut Writer) -> Result<(), OutOfMemory> {
        put_text(out, &self.name)?;
        put_i32(out, self.table_id)?;
        put_i16(out, self.column_id)?;
        put_u32(out, self.type_id)?;
        put_i16(out, self.type_size)?;
        put_i32(out, self.type_modifier)?;
        put_i16(out, self.format_code)
    }

    #[tactic(auto, unfolding(pgw_wire::specs::Writing::text, pgw_wire::specs::Writing::i16, pgw_wire::specs::Writing::i32, pgw_wire::specs::Writing::u32))]
    fn written_len(&self) -> usize {
        self.name.len() + 19
    }
}

/// The columns of a result, in order (RowDescription).
#[derive(Debug, Drop, PartialEq, Eq)]
pub struct RowDescription {
    pub fields: Listed<FieldDescription>,
}

impl RowDescription {
    pub fn new(fields: Listed<FieldDescription>) -> RowDescription
        ensures { result ≡ record { fields = fields } }
    {
        RowDescription { fields }
    }
}

fn any_has_zero(fields: &[FieldDescription]) -> bool
    ensures { result ≡ list_any (λ f. holds_zero f.name) fields.now }
{
    fields.iter().any(|f| has_zero(&f.name))
}

fn is_refused(fields: &[FieldDescription]) -> bool
    ensures { result ≡ is_refused_list fields.now }
{
    fields.len() > 32767 || any_has_zero(fields)
}

impl Message for RowDescription {
    ghost row_framing = { Typed 84 };

    ghost limit = { LONG_LIMIT };

    ghost reading = { row_description_of };

    ghost written = { row_description };

    ghost fault = { λ m. refused_if (is_refused_list m.fields) };

    fn framing() -> Framing {
        Framing::Typed(MESSAGE_TYPE_BYTE_ROW_DESCRITION)
    }

    fn max_message_length() -> usize {
        LONG_LIMIT
    }

    #[tactic(auto, unfolding(pgw_wire::specs::Writing::u16))]
    fn message_length(&self) -> usize {
        list_len(self.fields.as_slice(), 6)
    }

    fn refusal(&self) -> Option<PgWireError> {
        let fields = self.fields.as_slice();
        refused_if(is_refused(fields))
    }

    fn put_body(&self, out: &mut Writer) -> Result<(), OutOfMemory> {
        let fields = self.fields.as_slice();
        put_u16(out, fields.len() as u16)?;
        put_list(out, fields)
    }

    #[tactic(auto, unfolding(crate::specs::Rows::row_description_of))]
    fn decode_body(
        alloc: Global,
        body: &Octets,
        _ctx: &DecodeContext,
    ) -> PgWireResult<RowDescription> {
        let mut reader = FieldReader::new(body);
        let count = unsigned_count(reader.take_i16()? as i32);
        let fields = take_list(alloc, &mut reader, count, 19)?;
        reader.finish()?;
        Ok(RowDescription { fields })
    }
}

/// A row: how many values it has, and their bytes with the lengths before them (DataRow).
#[derive(Debug, Drop, PartialEq, Eq)]
pub struct DataRow {
    pub payload: Octets,
    pub field_count: i16,
}

impl DataRow {
    pub fn new(payload: Octets, field_count: i16) -> DataRow
        ensures { result ≡ record { payload = payload; field_count = field_count } }
    {
        DataRow {
            payload,
            field_count,
        }
    }
}

impl Message for DataRow {
    ghost row_framing = { Typed 68 };

    ghost limit = { LONG_LIMIT };

    ghost reading = { data_row_of };

    ghost written = { data_row };

    ghost fault = { λ m. None };

    fn framing() -> Framing {
        Framing::Typed(MESSAGE_TYPE_BYTE_DATA_ROW)
    }

    fn max_message_length() -> usize {
        LONG_LIMIT
    }

    #[tactic(auto, unfolding(pgw_wire::specs::Writing::i16))]
    fn message_length(&self) -> usize {
        self.payload.len() + 6
    }

    fn refusal(&self) -> Option<PgWireError> {
        None
    }

    fn put_body(&self, out: &mut Writer) -> Result<(), OutOfMemory> {
        put_i16(out, self.field_count)?;
        out.put_slice(self.payload.as_slice())
    }

    #[tactic(auto, unfolding(crate::specs::Rows::data_row_of, pgw_wire::specs::Reading::rest_at, pgw_wire::specs::Reading::read_end))]
    fn decode_body(_alloc: Global, body: &Octets, _ctx: &DecodeContext) -> PgWireResult<DataRow> {
        let mut reader = FieldReader::new(body);
        let field_count = reader.take_i16()?;
        let payload = reader.take_rest()?;
        Ok(DataRow {
            payload,
            field_count,
        })
    }
}

impl Duplicate for FieldDescription {
    fn duplicate(&self) -> Result<FieldDescription, OutOfMemory> {
        Ok(FieldDescription {
            name: self.name.duplicate()?,
            table_id: self.table_id,
            column_id: self.column_id,
            type_id: self.type_id,
            type_size: self.type_size,
            type_modifier: self.type_modifier,
            format_code: self.format_code,
        })
    }
}

impl Duplicate for RowDescription {
    fn duplicate(&self) -> Result<RowDescription, OutOfMemory> {
        Ok(RowDescription {
            fields: self.fields.duplicate()?,
        })
    }
}

impl Duplicate for DataRow {
    fn duplicate(&self) -> Result<DataRow, OutOfMemory> {
        Ok(DataRow {
            payload: self.payload.duplicate()?,
            field_count: self.field_count,
        })
    }
}
