//! The rows of a result.
ghost use Rattle.std.specs.Prelude.{◌≡◌, [], slice_get, IfOk, OnErr};
ghost use Rattle.std.specs.Option.{option_map};
ghost use Rattle.std.specs.Borrow.{sem};
ghost use Rattle.pgw_rows.specs.Places.{row_place};
ghost use Rattle.pgw_rows.specs.Rows.{GivesFirst, row_start};

use crate::decoder::DataRowDecoder;
use crate::unread::{First, Unread};
use pgw_query::data::DataRow;
use pgw_query::data_rows::DataRows;
use pgw_query::field_info::FieldInfo;
use pgw_types::listed::Listed;
use pgw_types::memory::OutOfMemory;
use std::alloc::Global;
use std::marker::Model;

/// The rows of a result, first row first.
#[derive(Drop)]
pub struct DataRowsReader {
    unread: Unread,
}

impl Model for DataRowsReader {
    ghost use Rattle.pgw_rows.specs.Rows.{WaitingRows};
    ghost use Rattle.pgw_rows.specs.Unread.{IsUnread, unread_rows};

    ghost Value = { WaitingRows };

    ghost view = { λ r. record { fields = r.unread.fields; rows = unread_rows r.unread } };

    ghost invariant = { λ r. IsUnread r.unread };
}

impl DataRowsReader {
    ghost use Rattle.pgw_rows.specs.Lending.{LeavesOthers};

    /// Rows with their columns.
    pub fn new(fields: Listed<FieldInfo>, rows: DataRows) -> DataRowsReader
        ensures { result ≡ record { fields = fields; rows = rows } }
    {
        DataRowsReader {
            unread: Unread::over(fields, rows.into_runs()),
        }
    }

    /// No rows, and no columns.
    pub fn empty(alloc: Global) -> DataRowsReader
        ensures { result ≡ record { fields = []; rows = [] } }
    {
        DataRowsReader::new(Listed::new(alloc), DataRows::new(alloc))
    }

    /// The columns of the rows.
    pub fn fields(&self) -> &[FieldInfo]
        ensures { result.now ≡ self.now.fields }
    {
        self.unread.fields.as_slice()
    }

    /// Takes the first of the rows that wait, as a cut of the block that it lies in: it copies no byte.
    pub fn take_row(&mut self) -> Result<Option<DataRow>, OutOfMemory>
        ensures first { IfOk result (λ row. GivesFirst self.old row self.new) }
        ensures err { OnErr result (self.new ≡ self.old) }
    {
        match self.unread.open() {
            First::Nothing => Ok(None),
            First::Alone(row) => Ok(Some(row)),
            First::InRun => {
                let place = self.unread.place();
                let payload = self.unread.bytes.slice(place.from, place.to)?;
                self.unread.pass(place);
                Ok(Some(DataRow::new(payload, place.field_count)))
            }
        }
    }

    /// The first of the rows that wait, to be read, which then no longer waits: as `take_row`, and
    /// `DataRowDecoder::new` over the row with `fields`. It takes no memory.
    pub fn next_row(&mut self) -> Option<DataRowDecoder<'_>>
        ensures* left { sem 𝓛 (LeavesOthers self.entry) }
        ensures first { option_map row_place result
            ≡ option_map (row_start self.old.fields) (slice_get self.old.rows 0) }
    {
        self.unread.next_row()
    }
}
