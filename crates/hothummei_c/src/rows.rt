//! The rows of a result, by index.
ghost use Rattle.std.specs.Prelude.{◌≡◌, [], slice_get, length, IfOk};
ghost use Rattle.std.specs.Option.{option_map};
ghost use Rattle.pgw_query.specs.Runs.{AreRuns, lent_row, rows_of};
ghost use Rattle.hothummei_c.specs.Places.{LocatesAll};

use crate::places::{RowPlace, add_run, place_in, row_at};
use pgw_query::data_rows::DataRows;
use pgw_query::row_ref::DataRowRef;
use pgw_query::run::Run;
use pgw_types::memory::OutOfMemory;
use std::alloc::Global;
use std::marker::Model;

/// The rows of a result, as they came, with an index of where each lies, so that any of them is found at once. A
/// contract sees the list of the rows.
#[derive(Drop)]
pub struct Rows {
    runs: Vec<Run>,
    places: Vec<RowPlace>,
}

impl Model for Rows {
    ghost use Rattle.std.specs.Prelude.{List};
    ghost use Rattle.pgw_query.specs.declared.data.DataRow.{DataRow};
    ghost use Rattle.pgw_query.specs.Runs.{AreRuns, rows_of};
    ghost use Rattle.hothummei_c.specs.Places.{LocatesAll};

    ghost Value = { List DataRow };

    ghost view = { λ rows. rows_of rows.runs.items };

    ghost invariant = { λ rows. LocatesAll rows.runs.items rows.places.items
        (rows_of rows.runs.items) };
}

// Where the rows of these runs lie.
fn places_of(alloc: Global, runs: &[Run]) -> Result<Vec<RowPlace>, OutOfMemory>
    requires { AreRuns runs.now }
    ensures { IfOk result (λ places. LocatesAll runs.now places.items (rows_of runs.now)) }
{
    let mut places = Vec::new(alloc);
    let mut run = 0;
    'runs: while run < runs.len() {
        add_run(&mut places, runs, run)?;
        run += 1;
    }
    Ok(places)
}

impl Rows {
    /// Makes the index of these rows, once.
    pub fn of(alloc: Global, rows: DataRows) -> Result<Rows, OutOfMemory>
        ensures { IfOk result (λ all. all ≡ rows) }
    {
        let runs = rows.into_runs();
        let places = places_of(alloc, runs.as_slice())?;
        Ok(Rows { runs, places })
    }

    /// No rows.
    pub fn none(alloc: Global) -> Rows
        ensures { result ≡ [] }
    {
        Rows {
            runs: Vec::new(alloc),
            places: Vec::new(alloc),
        }
    }

    /// How many there are.
    pub fn len(&self) -> usize
        ensures { result ≡ length self.now }
    {
        self.places.as_slice().len()
    }

    /// The row by its number.
    pub fn get(&self, index: usize) -> Option<DataRowRef<'_>>
        ensures { option_map lent_row result ≡ slice_get self.now index }
    {
        match place_in(self.places.as_slice(), index) {
            None => None,
            Some(place) => Some(row_at(self.runs.as_slice(), place)),
        }
    }
}
