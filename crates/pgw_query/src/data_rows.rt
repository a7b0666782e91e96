//! The rows of a result, kept as they came.
ghost use Rattle.std.specs.Prelude.{◌≡◌, [], ◌∷◌, ◌++◌, ◌==◌, length, drop, IfOk, OnOk, OnErr};
ghost use Rattle.pgw_query.specs.Runs.{AreRuns, HasNoRow, IsSpan, MovesRows, rows_of};

use crate::data::DataRow;
use crate::row_iter::DataRowsIter;
use crate::run::{Run, Span, span_of};
use pgw_types::listed::Listed;
use pgw_types::memory::OutOfMemory;
use pgw_types::octets::Octets;
use std::alloc::Global;
use std::fmt;
use std::marker::Model;

/// The rows of a result, which a contract sees as a list of rows.
///
/// Rows that were read together stay as they came, whole messages in one cut of their block. So beside its own bytes
/// such a row takes no memory, and it is read off when it is asked for.
#[derive(Drop)]
pub struct DataRows {
    runs: Vec<Run>,
    count: usize,
}

impl Model for DataRows {
    ghost use Rattle.std.specs.Prelude.{◌≡◌, List, length};
    ghost use Rattle.pgw_query.specs.declared.data.DataRow.{DataRow};
    ghost use Rattle.pgw_query.specs.Runs.{AreRuns, rows_of};

    ghost Value = { List DataRow };

    ghost view = { λ rows. rows_of rows.runs.items };

    ghost invariant = { λ rows. AreRuns rows.runs.items
        × (rows.count ≡ length (rows_of rows.runs.items)) };
}

impl DataRows {
    /// No rows.
    pub fn new(alloc: Global) -> DataRows
        ensures { result ≡ [] }
    {
        DataRows {
            runs: Vec::new(alloc),
            count: 0,
        }
    }

    /// These rows.
    pub fn from_rows(alloc: Global, rows: Listed<DataRow>) -> Result<DataRows, OutOfMemory>
        ensures { IfOk result (λ all. all ≡ rows) }
    {
        let mut all = DataRows::new(alloc);
        for row in rows.into_vec() {
            all.push(row)?;
        }
        Ok(all)
    }

    /// How many there are.
    pub fn len(&self) -> usize
        ensures { result ≡ length self.now }
    {
        self.count
    }

    pub fn is_empty(&self) -> bool
        ensures { result ≡ (length self.now == 0) }
    {
        self.count == 0
    }

    /// Adds a row at the end.
    pub fn push(&mut self, row: DataRow) -> Result<(), OutOfMemory>
        ensures ok { OnOk result (self.new ≡ self.old ++ row ∷ []) }
        ensures err { OnErr result (self.new ≡ self.old) }
    {
        let Some(count) = self.count.checked_add(1) else {
            return Err(OutOfMemory);
        };
        self.runs.push(Run::Row(row))?;
        self.count = count;
        Ok(())
    }

    /// Takes the rows that stand whole at the front of some bytes, and adds them at the end; answers how many there
    /// were. It copies no byte of them.
    pub fn take_front(&mut self, bytes: &mut Octets) -> Result<usize, OutOfMemory>
        ensures taken { IfOk result (MovesRows self.old self.new bytes.old bytes.new) }
        ensures all { OnOk result (HasNoRow bytes.new) }
        ensures err { OnErr result ((self.new ≡ self.old) × (bytes.new ≡ bytes.old)) }
    {
        let span = span_of(bytes.as_slice());
        self.take_span(bytes, span)
    }

    /// Takes the rows that were found at the front of some bytes (`span_of`), and adds them at the end, as `take_front`
    /// does: it looks at none of them again.
    pub fn take_span(&mut self, bytes: &mut Octets, span: Span) -> Result<usize, OutOfMemory>
        requires { IsSpan bytes.old span }
        ensures taken { IfOk result (MovesRows self.old self.new bytes.old bytes.new) }
        ensures left { OnOk result (bytes.new ≡ drop span.end bytes.old) }
        ensures err { OnErr result ((self.new ≡ self.old) × (bytes.new ≡ bytes.old)) }
    {
        if span.rows == 0 {
            return Ok(0);
        }
        let Some(count) = self.count.checked_add(span.rows) else {
            return Err(OutOfMemory);
        };
        let run = bytes.slice(0, span.end)?;
        self.runs.push(Run::Messages(span.rows, run))?;
        self.count = count;
        bytes.advance(span.end);
        Ok(span.rows)
    }

    /// Adds other rows at the end.
    pub fn append(&mut self, mut others: DataRows) -> Result<(), OutOfMemory>
        ensures ok { OnOk result (self.new ≡ self.old ++ others) }
        ensures err { OnErr result (self.new ≡ self.old) }
    {
        let Some(count) = self.count.checked_add(others.count) else {
            return Err(OutOfMemory);
        };
        self.runs.append(&mut others.runs)?;
        self.count = count;
        Ok(())
    }

    /// The rows, first row first, each of them lent.
    pub fn iter(&self) -> DataRowsIter<'_>
        ensures { result ≡ self.now }
    {
        DataRowsIter::over(self.runs.as_slice())
    }

    /// The runs that the rows lie in.
    pub fn into_runs(self) -> Vec<Run>
        ensures rows { rows_of result.items ≡ self }
        ensures runs { AreRuns result.items }
    {
        let DataRows {
            runs,
            count: _count,
        } = self;
        runs
    }
}

/// It shows the rows, however they came.
impl fmt::Debug for DataRows {
    fn fmt<W: fmt::Write>(&self, f: &mut fmt::Formatter<W>) -> fmt::Result {
        f.debug_list().entries(self.iter()).finish()
    }
}

impl<'a> IntoIterator for &'a DataRows {
    type Item = crate::row_ref::DataRowRef<'a>;

    type IntoIter = DataRowsIter<'a>;

    ghost into_iter_gives = { λ rows it. it ≡ rows.now };

    fn into_iter(self) -> DataRowsIter<'a> {
        self.iter()
    }
}
