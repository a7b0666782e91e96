//! Where the rows of a result lie.
ghost use Rattle.std.specs.Prelude.{◌≡◌, Some, OnOk, slice_get};
ghost use Rattle.std.specs.Option.{option_copied};
ghost use Rattle.pgw_query.specs.Runs.{AreRuns, IsRun, SpellsRows, lent_row, rows_in};
ghost use Rattle.hothummei_c.specs.Places.{AddsMessages, AddsRun, Located, LocatesRow};

use pgw_query::data::DataRow;
use pgw_query::row_ref::DataRowRef;
use pgw_query::run::{Run, first_row, head_of};
use pgw_types::memory::OutOfMemory;

/// A row's run, and where its message begins there.
#[derive(Clone, Copy)]
pub struct RowPlace {
    pub run: usize,
    pub at: usize,
}

// The places of rows that lie together.
fn add_messages(
    places: &mut Vec<RowPlace>,
    run: usize,
    count: usize,
    bytes: &[u8],
) -> Result<(), OutOfMemory>
    requires { SpellsRows (rows_in count bytes.now) bytes.now }
    ensures { OnOk result (AddsMessages run count bytes.now places.old.items places.new.items) }
{
    let mut at = 0;
    let mut left = count;
    'rows: while left > 0 {
        places.push(RowPlace { run, at })?;
        at += head_of(&bytes[at..]).end;
        left -= 1;
    }
    Ok(())
}

// The places of the rows of a run that stands there.
fn add_here(
    places: &mut Vec<RowPlace>,
    runs: &[Run],
    run: usize,
    here: &Run,
) -> Result<(), OutOfMemory>
    requires is { IsRun here.now }
    requires stands { slice_get runs.now run ≡ Some here.now }
    ensures { OnOk result (AddsRun runs.now run places.old.items places.new.items) }
{
    match here {
        Run::Messages(count, bytes) => add_messages(places, run, *count, bytes.as_slice()),
        Run::Row(_) => {
            places.push(RowPlace { run, at: 0 })?;
            Ok(())
        }
    }
}

fn run_in(runs: &[Run], run: usize) -> Option<&Run>
    ensures { option_copied result ≡ slice_get runs.now run }
{
    runs.get(run)
}

/// The places of a run's rows.
pub fn add_run(places: &mut Vec<RowPlace>, runs: &[Run], run: usize) -> Result<(), OutOfMemory>
    requires { AreRuns runs.now }
    ensures { OnOk result (AddsRun runs.now run places.old.items places.new.items) }
{
    match run_in(runs, run) {
        None => Ok(()),
        Some(here) => add_here(places, runs, run, here),
    }
}

/// The place of a row, by the row's number.
pub fn place_in(places: &[RowPlace], index: usize) -> Option<&RowPlace>
    ensures { option_copied result ≡ slice_get places.now index }
{
    places.get(index)
}

fn alone(row: &DataRow) -> DataRowRef<'_>
    ensures { lent_row result ≡ row.now }
{
    DataRowRef {
        field_count: row.field_count,
        payload: row.payload.as_slice(),
    }
}

/// The row at a place.
pub fn row_at<'a>(runs: &'a [Run], place: &RowPlace) -> DataRowRef<'a>
    requires { Located runs.now place.now }
    ensures { LocatesRow runs.now place.now (lent_row result) }
{
    match &runs[place.run] {
        Run::Messages(_, bytes) => first_row(&bytes.as_slice()[place.at..]).0,
        Run::Row(row) => alone(row),
    }
}
