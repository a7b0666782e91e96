//! How a table's columns are laid out.
ghost use Rattle.std.specs.Prelude.{◌≡◌, ◌==◌, ◌+◌, IfOk, OnOk};
ghost use Rattle.pgw_prog_output.specs.Layout.{columns_for, laid_out, names_of, column_side, widened_by};

use crate::columns::{Column, ColumnKind};
use crate::table_lines::{Side, TableColumn, widen};
use pgw_types::listed::Listed;
use pgw_types::memory::OutOfMemory;
use pgw_types::octets::Octets;
use std::alloc::Global;

/// The values of a row; NULL is none.
pub type Row = Listed<Option<Octets>>;

/// The names of columns as a row.
pub fn names(alloc: Global, columns: &[Column]) -> Result<Row, OutOfMemory>
    ensures { IfOk result (λ row. row ≡ names_of columns.now) }
{
    let mut row = Listed::new(alloc);
    for column in columns {
        let name = Octets::from_slice(alloc, column.name.as_str().as_bytes())?;
        row.push(Some(name))?;
    }
    Ok(row)
}

// Numbers stand on the right. Nothing stands behind the last column's words.
fn side(kind: ColumnKind, is_last: bool) -> Side
    ensures { result ≡ column_side kind is_last }
{
    match kind {
        ColumnKind::Number => Side::Right,
        _ if is_last => Side::Open,
        _ => Side::Left,
    }
}

fn without_width(alloc: Global, columns: &[Column]) -> Result<Vec<TableColumn>, OutOfMemory>
    ensures { IfOk result (λ laid. laid.items ≡ columns_for columns.now) }
{
    let mut laid = Vec::new(alloc);
    for at in 0..columns.len() {
        let side = side(columns[at].kind, at + 1 == columns.len());
        laid.push(TableColumn { width: 0, side })?;
    }
    Ok(laid)
}

fn widen_by(alloc: Global, columns: &mut [TableColumn], rows: &[Row]) -> Result<(), OutOfMemory>
    ensures { OnOk result (columns.new ≡ widened_by columns.old rows.now) }
{
    for row in rows {
        widen(alloc, columns, row.as_slice())?;
    }
    Ok(())
}

/// Columns that are as wide as their names and these rows want it.
pub fn lay_out(
    alloc: Global,
    columns: &[Column],
    rows: &[Row],
) -> Result<Vec<TableColumn>, OutOfMemory>
    ensures { IfOk result (λ laid. laid.items ≡ laid_out columns.now rows.now) }
{
    let mut laid = without_width(alloc, columns)?;
    let names = names(alloc, columns)?;
    widen(alloc, &mut laid, names.as_slice())?;
    widen_by(alloc, &mut laid, rows)?;
    Ok(laid)
}
