//! The columns of a result.
ghost use Rattle.std.specs.Prelude.{◌≡◌, IfOk};
ghost use Rattle.std.specs.List.{list_all};
ghost use Rattle.pgw_prog_output.specs.Said.{columns_of, is_text_field as comes_as_text};

use crate::columns::{Column, ColumnKind};
use pgw_query::data::FieldDescription;
use pgw_types::listed::{Duplicate, Listed};
use pgw_types::memory::OutOfMemory;
use std::alloc::Global;

// The format of values that come as text.
const TEXT: i16 = 0;

fn is_text(field: &FieldDescription) -> bool
    ensures { result ≡ comes_as_text field.now }
{
    field.format_code == TEXT
}

/// Whether the values of all columns come as text.
pub fn are_text(fields: &[FieldDescription]) -> bool
    ensures { result ≡ list_all comes_as_text fields.now }
{
    fields.iter().all(|field| is_text(field))
}

/// The columns that a result is described by.
pub fn columns(alloc: Global, fields: &[FieldDescription]) -> Result<Listed<Column>, OutOfMemory>
    ensures { IfOk result (λ columns. columns ≡ columns_of fields.now) }
{
    let mut columns = Listed::new(alloc);
    for field in fields {
        let name = field.name.duplicate()?;
        let kind = ColumnKind::of_type(field.type_id);
        columns.push(Column { name, kind })?;
    }
    Ok(columns)
}
