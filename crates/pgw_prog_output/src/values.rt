//! The values of a row.
ghost use Rattle.pgw_wire.specs.Reading.{Gives};
ghost use Rattle.pgw_prog_output.specs.Said.{values_of};

use crate::layout::Row;
use pgw_query::data::DataRow;
use pgw_types::error::PgWireResult;
use pgw_wire::field::{take_list, unsigned_count};
use pgw_wire::reader::FieldReader;
use std::alloc::Global;

/// The values of a row. They share its bytes.
pub fn read_values(alloc: Global, row: &DataRow) -> PgWireResult<Row>
    ensures { Gives result (values_of row.now) }
{
    let mut reader = FieldReader::new(&row.payload);
    let count = unsigned_count(row.field_count as i32);
    let values = take_list(alloc, &mut reader, count, 4)?;
    reader.finish()?;
    Ok(values)
}
