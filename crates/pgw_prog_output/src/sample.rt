//! The rows that a table's columns are laid out by.
ghost use Rattle.std.specs.Prelude.{◌<◌, length};

use crate::columns::Column;
use crate::layout::Row;
use pgw_types::listed::Listed;

/// So many rows say how wide a table's columns are.
pub const SAMPLE: usize = 100;

/// The rows of a table that wait until its columns are laid out.
#[derive(Debug, Drop)]
pub struct Sample {
    pub columns: Listed<Column>,
    pub rows: Listed<Row>,
    ghost waits: { length rows < 100 },
}
