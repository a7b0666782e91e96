//! A row, read value by value.
ghost use Rattle.std.specs.Prelude.{◌≡◌, ◌⊎◌, ◌≤◌, ◌==◌, length, slice_range};
ghost use Rattle.pgw_rows.specs.Rows.{AnswersRowRead, LendsRowValue, lent_row_value, read_by, row_start, row_standing};

use crate::cut::{cut_out, pass, read_value};
use crate::from_sql::{FromSql, FromSqlText};
use pgw_query::data::DataRow;
use pgw_query::field_info::FieldInfo;
use pgw_query::row_error::{RowError, RowResult};
use pgw_types::octets::Octets;
use std::alloc::Global;

/// A row, read value by value. It borrows the row, so what it lends lives as long as that; a copy
/// stands where it does.
#[derive(Clone, Copy)]
pub struct DataRowDecoder<'a> {
    fields: &'a [FieldInfo],
    row: &'a Octets,
    passed: usize,
    at: usize,
    end: usize,
    ghost within: { (at ≤ end) × (end ≤ length row.now) },
}

impl<'a> DataRowDecoder<'a> {
    ghost use Rattle.pgw_rows.specs.Places.{row_place};

    /// A row whose values have these columns.
    pub fn new(fields: &'a [FieldInfo], row: &'a DataRow) -> DataRowDecoder<'a>
        ensures { row_place result ≡ row_start fields.now row.now }
    {
        DataRowDecoder {
            fields,
            row: &row.payload,
            passed: 0,
            at: 0,
            end: row.payload.len(),
        }
    }

    // A row whose payload lies from one place of these bytes to another.
    pub(crate) fn within(
        fields: &'a [FieldInfo],
        bytes: &'a Octets,
        from: usize,
        to: usize,
    ) -> DataRowDecoder<'a>
        requires ordered { from ≤ to }
        requires within { to ≤ length bytes.now }
        ensures { row_place result ≡ record {
          fields = fields.now;
          passed = 0;
          bytes = slice_range bytes.now from to;
        } }
    {
        DataRowDecoder {
            fields,
            row: bytes,
            passed: 0,
            at: from,
            end: to,
        }
    }

    /// How many columns are described, those that were read among them.
    pub fn len(&self) -> usize
        ensures { result ≡ length (row_place self.now).fields }
    {
        self.fields.len()
    }

    /// Whether no column is described.
    pub fn is_empty(&self) -> bool
        ensures { result ≡ (length (row_place self.now).fields == 0) }
    {
        self.fields.is_empty()
    }

    /// Reads the next value in its column's format; NULL is none.
    ///
    /// `DataRowIndexOutOfBounds` says that no column is left, or that the row ends within the
    /// value, and leaves the row as it was, as want of memory does. A value that cannot be read as
    /// this type is passed over. A `bool`, an `i16`, an `i32` and an `i64` take no memory; bytes in
    /// binary form share those of the row.
    pub fn next_value<T: FromSql + FromSqlText>(&mut self, alloc: Global) -> RowResult<Option<T>>
        ensures { AnswersRowRead (T.FromSql.may_lack ⊎ T.FromSqlText.may_lack)
            (read_by T.of_binary T.of_text) (row_standing (row_place self.old))
            (row_place self.old) (row_place self.new) result }
    {
        let fields = self.fields;
        let index = self.passed;
        let at = self.at;
        let end = self.end;
        let bytes = self.row;
        match pass(
            fields,
            &bytes.as_slice()[..end],
            &mut self.passed,
            &mut self.at,
        ) {
            Err(e) => Err(e),
            Ok(None) => Ok(None),
            Ok(Some(cut)) => match read_value(alloc, &fields[index], bytes, end, cut) {
                Ok(value) => Ok(Some(value)),
                Err(RowError::OutOfMemory) => {
                    self.passed = index;
                    self.at = at;
                    Err(RowError::OutOfMemory)
                }
                Err(e) => Err(e),
            },
        }
    }

    /// Lends the bytes of the next value, whatever its format; NULL is none. It takes no memory,
    /// and passes the value over and answers `DataRowIndexOutOfBounds` as `next_value` does.
    pub fn next_raw(&mut self) -> RowResult<Option<&'a [u8]>>
        ensures { LendsRowValue (row_standing (row_place self.old))
            (row_place self.old) (row_place self.new) (lent_row_value result) }
    {
        let bytes = &self.row.as_slice()[..self.end];
        let cut = pass(self.fields, bytes, &mut self.passed, &mut self.at)?;
        Ok(cut_out(bytes, cut))
    }
}
