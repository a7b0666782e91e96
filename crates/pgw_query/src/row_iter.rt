//! Going over rows.
ghost use Rattle.std.specs.Prelude.{◌≡◌};
ghost use Rattle.std.specs.Iterator.{YieldsFirstBy, item_count};
ghost use Rattle.pgw_query.specs.Runs.{AreRuns, lent_row, rows_of};

use crate::row_ref::DataRowRef;
use crate::run::{Run, first_row};
use std::marker::Model;

/// Rows, first row first, each of them lent. A contract sees those that are left.
#[derive(Drop)]
pub struct DataRowsIter<'a> {
    left: usize,
    rest: &'a [u8],
    runs: &'a [Run],
}

impl<'a> Model for DataRowsIter<'a> {
    ghost use Rattle.std.specs.Prelude.{List};
    ghost use Rattle.pgw_query.specs.declared.data.DataRow.{DataRow};
    ghost use Rattle.pgw_query.specs.Runs.{AreLeft, rows_from};

    ghost Value = { List DataRow };

    ghost view = { λ rows. rows_from rows.left rows.rest.now rows.runs.now };

    ghost invariant = { λ rows. AreLeft rows.left rows.rest.now rows.runs.now };
}

impl<'a> DataRowsIter<'a> {
    // The rows of some runs.
    pub(crate) fn over(runs: &'a [Run]) -> DataRowsIter<'a>
        requires { AreRuns runs.now }
        ensures { result ≡ rows_of runs.now }
    {
        DataRowsIter {
            left: 0,
            rest: &[],
            runs,
        }
    }
}

impl<'a> Iterator for DataRowsIter<'a> {
    type Item = DataRowRef<'a>;

    ghost next_gives = { YieldsFirstBy lent_row (λ rows. rows) };

    ghost remaining = { item_count (λ rows. rows) };

    fn next(&mut self) -> Option<DataRowRef<'a>> {
        if self.left > 0 {
            let (row, rest) = first_row(self.rest);
            self.left -= 1;
            self.rest = rest;
            return Some(row);
        }
        let (first, others) = self.runs.split_first()?;
        self.runs = others;
        match first {
            Run::Row(row) => Some(DataRowRef {
                field_count: row.field_count,
                payload: row.payload.as_slice(),
            }),
            Run::Messages(count, bytes) => {
                let (row, rest) = first_row(bytes.as_slice());
                self.left = *count - 1;
                self.rest = rest;
                Some(row)
            }
        }
    }
}
