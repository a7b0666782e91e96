//! Columns of a result.
ghost use Rattle.std.specs.Prelude.{◌≡◌};
ghost use Rattle.pgw_query.specs.Fields.{field_info_of, format_of};

use crate::data::{FORMAT_CODE_TEXT, FieldDescription};
use crate::pg_type::PgType;
use pgw_types::listed::Duplicate;
use pgw_types::memory::OutOfMemory;
use pgw_types::text::Text;

/// How a value is written.
#[derive(Clone, Copy, Debug, PartialEq, Eq)]
pub enum FieldFormat {
    Text,
    Binary,
}

/// A column of a result.
#[derive(Debug, Drop, PartialEq, Eq)]
pub struct FieldInfo {
    pub name: Text,
    pub table_id: Option<i32>,
    pub column_id: Option<i16>,
    pub datatype: PgType,
    pub type_size: i16,
    pub type_modifier: i32,
    pub format: FieldFormat,
}

// Every code but 0 is binary.
fn format_of_code(code: i16) -> FieldFormat
    ensures { result ≡ format_of code }
{
    if code == FORMAT_CODE_TEXT {
        FieldFormat::Text
    } else {
        FieldFormat::Binary
    }
}

impl FieldInfo {
    /// The column that a description tells of. An identifier of 0 is none.
    #[tactic(auto, unfolding(crate::specs::Fields::field_info_of))]
    pub fn from_description(d: FieldDescription) -> FieldInfo
        ensures { result ≡ field_info_of d }
    {
        FieldInfo {
            name: d.name,
            table_id: if d.table_id == 0 {
                None
            } else {
                Some(d.table_id)
            },
            column_id: if d.column_id == 0 {
                None
            } else {
                Some(d.column_id)
            },
            datatype: PgType::from_oid(d.type_id),
            type_size: d.type_size,
            type_modifier: d.type_modifier,
            format: format_of_code(d.format_code),
        }
    }
}

impl Duplicate for FieldInfo {
    fn duplicate(&self) -> Result<FieldInfo, OutOfMemory> {
        Ok(FieldInfo {
            name: self.name.duplicate()?,
            table_id: self.table_id,
            column_id: self.column_id,
            datatype: self.datatype,
            type_size: self.type_size,
            type_modifier: self.type_modifier,
            format: self.format,
        })
    }
}
