//! Rows that wait to be read.
ghost use Rattle.std.specs.Prelude.{◌≡◌, ◌<◌, slice_get};
ghost use Rattle.std.specs.Option.{option_map};
ghost use Rattle.pgw_query.specs.Runs.{AreRuns, rows_of};
ghost use Rattle.pgw_rows.specs.Places.{row_place};
ghost use Rattle.pgw_rows.specs.Rows.{row_start};
ghost use Rattle.pgw_rows.specs.Unread.{IsRowPlace, IsUnread, IsWithinBytes, FindsFirstRow, PassesRow, TakesFirstRow, row_at, unread_rows};

use crate::decoder::DataRowDecoder;
use bytes::Bytes;
use pgw_query::data::DataRow;
use pgw_query::field_info::FieldInfo;
use pgw_query::run::{HEAD, Run, head_of};
use pgw_types::listed::Listed;
use pgw_types::octets::Octets;
use std::vec;

/// Rows that wait to be read, with their columns: those of a run behind a place, and those of other runs.
#[derive(Drop)]
pub struct Unread {
    pub fields: Listed<FieldInfo>,
    pub bytes: Octets,
    pub at: usize,
    pub left: usize,
    pub runs: vec::IntoIter<Run>,
}

/// What comes first of them.
#[derive(Drop)]
pub enum First {
    Nothing,
    /// A row alone, which no longer waits.
    Alone(DataRow),
    /// The row at the place in the run, which still waits.
    InRun,
}

/// Where a row's payload lies, and how many values it has.
#[derive(Clone, Copy)]
pub struct RowPlace {
    pub field_count: i16,
    pub from: usize,
    pub to: usize,
}

impl Unread {
    ghost use Rattle.std.specs.Borrow.{sem};
    ghost use Rattle.pgw_rows.specs.Lending.{LeavesUnread};

    /// The rows of some runs.
    pub fn over(fields: Listed<FieldInfo>, runs: Vec<Run>) -> Unread
        requires { AreRuns runs.items }
        ensures columns { result.fields ≡ fields }
        ensures rows { unread_rows result ≡ rows_of runs.items }
        ensures are { IsUnread result }
    {
        Unread {
            fields,
            bytes: Octets::from_bytes(Bytes::new()),
            at: 0,
            left: 0,
            runs: runs.into_iter(),
        }
    }

    /// Looks what comes first, and opens the next run where none is open.
    pub fn open(&mut self) -> First
        requires { IsUnread self.old }
        ensures are { IsUnread self.new }
        ensures columns { self.new.fields ≡ self.old.fields }
        ensures first { FindsFirstRow self.old self.new result }
    {
        if self.left > 0 {
            return First::InRun;
        }
        match self.runs.next() {
            None => First::Nothing,
            Some(Run::Row(row)) => First::Alone(row),
            Some(Run::Messages(count, bytes)) => {
                self.bytes = bytes;
                self.at = 0;
                self.left = count;
                First::InRun
            }
        }
    }

    /// Where the first row of the run lies.
    pub fn place(&self) -> RowPlace
        requires are { IsUnread self.now }
        requires some { 0 < self.now.left }
        ensures { IsRowPlace self.now result }
    {
        let head = head_of(&self.bytes.as_slice()[self.at..]);
        RowPlace {
            field_count: head.field_count,
            from: self.at + HEAD,
            to: self.at + head.end,
        }
    }

    /// Passes the first row of the run over.
    pub fn pass(&mut self, place: RowPlace)
        requires are { IsUnread self.old }
        requires some { 0 < self.old.left }
        requires place { IsRowPlace self.old place }
        ensures columns { self.new.fields ≡ self.old.fields }
        ensures passed { PassesRow self.old place self.new }
    {
        self.at = place.to;
        self.left -= 1;
    }

    // Keeps the bytes of a row alone, so that they can be lent.
    fn hold(&mut self, row: DataRow) -> RowPlace
        requires none { self.old.left ≡ 0 }
        requires are { IsUnread self.old }
        ensures are { IsUnread self.new }
        ensures columns { self.new.fields ≡ self.old.fields }
        ensures rows { unread_rows self.new ≡ unread_rows self.old }
        ensures place { row_at self.new result ≡ row }
        ensures within { IsWithinBytes self.new.bytes result }
    {
        let end = row.payload.len();
        self.bytes = row.payload;
        self.at = end;
        RowPlace {
            field_count: row.field_count,
            from: 0,
            to: end,
        }
    }

    /// Passes what comes first over, and answers where its payload lies.
    pub fn step(&mut self) -> Option<RowPlace>
        requires { IsUnread self.old }
        ensures are { IsUnread self.new }
        ensures columns { self.new.fields ≡ self.old.fields }
        ensures step { TakesFirstRow self.old self.new result }
    {
        match self.open() {
            First::Nothing => None,
            First::Alone(row) => Some(self.hold(row)),
            First::InRun => {
                let place = self.place();
                self.pass(place);
                Some(place)
            }
        }
    }

    /// The place before the first value of a row that was passed over.
    pub fn begin(&self, place: RowPlace) -> DataRowDecoder<'_>
        requires { IsWithinBytes self.now.bytes place }
        ensures { row_place result ≡ row_start self.now.fields (row_at self.now place) }
    {
        DataRowDecoder::within(self.fields.as_slice(), &self.bytes, place.from, place.to)
    }

    /// Passes what comes first over, and lends it, to be read.
    pub fn next_row(&mut self) -> Option<DataRowDecoder<'_>>
        requires { IsUnread self.old }
        ensures* left { sem 𝓛 (LeavesUnread self.entry) }
        ensures first { option_map row_place result
            ≡ option_map (row_start self.old.fields) (slice_get (unread_rows self.old) 0) }
    {
        let place = self.step()?;
        Some(self.begin(place))
    }
}
