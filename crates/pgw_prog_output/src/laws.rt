//! What is printed is read back.
ghost use Rattle.std.specs.Prelude.{List};
ghost use Rattle.pgw_prog_output.specs.declared.columns.Column.{Column};
ghost use Rattle.pgw_prog_output.specs.Columns.{Value};
ghost use Rattle.pgw_prog_output.specs.ReadBack.{CsvReadsBack, JsonReadsBack};

/// The kit's reader of CSV reads lines of rows as those rows, NULL as an empty field, and a row of no field as one.
#[tactic(auto, using(crate::proofs::ReadBackLaws::csv_reads_back))]
pub fn csv_is_read_back()
    ensures { (rows : List (List Value)) → CsvReadsBack rows }
{}

/// The kit's reader of JSON reads a line as the object that its row stands for.
#[tactic(auto, using(crate::proofs::ReadBackLaws::json_reads_back))]
pub fn json_is_read_back()
    ensures { (columns : List Column) (row : List Value) → JsonReadsBack columns row }
{}
