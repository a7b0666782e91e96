//! The rows of a result, printed as they come.
ghost use Rattle.std.specs.Prelude.{◌≡◌, ◌++◌, [], IfOk, OnOk};
ghost use Rattle.std.specs.List.{flat_map};
ghost use Rattle.pgw_prog_output.specs.declared.printer.RowPrinter.TheVariants as printer;
ghost use Rattle.pgw_prog_output.specs.Layout.{laid_out};
ghost use Rattle.pgw_prog_output.specs.Printing.{aligned_text, text_for, PrintsRow, BeginsOutput};
ghost use Rattle.pgw_prog_output.specs.TableLines.{table_line};

use crate::columns::Column;
use crate::csv_lines::put_csv_line;
use crate::json_lines::put_json_line;
use crate::layout::{Row, lay_out, names};
use crate::sample::{SAMPLE, Sample};
use crate::table_lines::{TableColumn, put_rule, put_table_line};
use pgw_types::listed::Listed;
use pgw_types::memory::OutOfMemory;
use std::alloc::Global;

/// How rows are printed.
#[derive(Clone, Copy, Debug, PartialEq, Eq)]
pub enum RowFormat {
    Csv,
    Json,
    Table,
}

/// Where the printing of a result stands.
#[derive(Debug, Drop)]
pub enum RowPrinter {
    Csv,
    Json(Listed<Column>),
    Sampling(Sample),
    Aligned(Vec<TableColumn>),
}

fn put_table_lines(
    alloc: Global,
    out: &mut Vec<u8>,
    columns: &[TableColumn],
    rows: &[Row],
) -> Result<(), OutOfMemory>
    ensures { OnOk result (out.new.items
        ≡ out.old.items ++ flat_map (table_line columns.now) rows.now) }
{
    for row in rows {
        put_table_line(alloc, out, columns, row.as_slice())?;
    }
    Ok(())
}

// Prints a table's head, its rule and the rows that waited.
#[tactic(auto, unfolding(crate::specs::Printing::aligned_text))]
fn put_sample(
    alloc: Global,
    out: &mut Vec<u8>,
    columns: &Listed<Column>,
    rows: &Listed<Row>,
) -> Result<Vec<TableColumn>, OutOfMemory>
    ensures laid { IfOk result (λ laid. laid.items ≡ laid_out columns.now rows.now) }
    ensures text { OnOk result (out.new.items ≡ out.old.items
        ++ aligned_text (laid_out columns.now rows.now) columns.now rows.now) }
{
    let columns = columns.as_slice();
    let rows = rows.as_slice();
    let laid = lay_out(alloc, columns, rows)?;
    let names = names(alloc, columns)?;
    put_table_line(alloc, out, &laid, names.as_slice())?;
    put_rule(out, &laid)?;
    put_table_lines(alloc, out, &laid, rows)?;
    Ok(laid)
}

impl RowPrinter {
    /// Begins a result with these columns, before any row.
    pub fn begin(
        alloc: Global,
        format: RowFormat,
        columns: Listed<Column>,
        out: &mut Vec<u8>,
    ) -> Result<RowPrinter, OutOfMemory>
        ensures { IfOk result (BeginsOutput format columns out.old.items out.new.items) }
    {
        match format {
            RowFormat::Csv => {
                put_csv_line(out, names(alloc, columns.as_slice())?.as_slice())?;
                Ok(RowPrinter::Csv)
            }
            RowFormat::Json => Ok(RowPrinter::Json(columns)),
            RowFormat::Table => Ok(RowPrinter::Sampling(Sample {
                columns,
                rows: Listed::new(alloc),
            })),
        }
    }
}

// Lets a row wait, or prints those that waited where they are enough.
fn wait(
    alloc: Global,
    sample: Sample,
    row: Row,
    out: &mut Vec<u8>,
) -> Result<RowPrinter, OutOfMemory>
    ensures { IfOk result (PrintsRow (printer.Sampling sample) row out.old.items out.new.items) }
{
    let Sample { columns, mut rows } = sample;
    rows.push(row)?;
    if rows.len() < SAMPLE {
        return Ok(RowPrinter::Sampling(Sample { columns, rows }));
    }
    let laid = put_sample(alloc, out, &columns, &rows)?;
    drop(columns);
    drop(rows);
    Ok(RowPrinter::Aligned(laid))
}

impl RowPrinter {
    /// Prints the next row.
    pub fn row(self, alloc: Global, row: Row, out: &mut Vec<u8>) -> Result<RowPrinter, OutOfMemory>
        ensures { IfOk result (PrintsRow self row out.old.items out.new.items) }
    {
        match self {
            RowPrinter::Csv => {
                put_csv_line(out, row.as_slice())?;
                Ok(RowPrinter::Csv)
            }
            RowPrinter::Json(columns) => {
                put_json_line(alloc, out, columns.as_slice(), row.as_slice())?;
                Ok(RowPrinter::Json(columns))
            }
            RowPrinter::Sampling(sample) => wait(alloc, sample, row, out),
            RowPrinter::Aligned(columns) => {
                put_table_line(alloc, out, &columns, row.as_slice())?;
                Ok(RowPrinter::Aligned(columns))
            }
        }
    }

    /// Ends the result behind its last row.
    #[tactic(auto, using(crate::proofs::PrinterLaws::whole_sample))]
    pub fn finish(self, alloc: Global, out: &mut Vec<u8>) -> Result<(), OutOfMemory>
        ensures { OnOk result (out.new.items ≡ out.old.items ++ text_for self []) }
    {
        match self {
            RowPrinter::Sampling(sample) => {
                let laid = put_sample(alloc, out, &sample.columns, &sample.rows)?;
                drop(laid);
                drop(sample);
                Ok(())
            }
            RowPrinter::Csv => Ok(()),
            RowPrinter::Json(columns) => {
                drop(columns);
                Ok(())
            }
            RowPrinter::Aligned(columns) => {
                drop(columns);
                Ok(())
            }
        }
    }
}
