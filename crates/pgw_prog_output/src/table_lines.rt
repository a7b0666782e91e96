//! Lines of a table whose columns are aligned by the width of their characters.
ghost use Rattle.std.specs.Prelude.{◌≡◌, ◌++◌, OnOk, IfOk};
ghost use Rattle.std.specs.List.{flat_map};
ghost use Rattle.pgw_prog_output.specs.TableLines.{cell_text, padded, rule_line, rule_rest, table_line, table_rest, wider, widened};

use crate::pieces::{put, put_times};
use crate::shown::shown;
use pgw_types::memory::OutOfMemory;
use pgw_types::octets::Octets;
use std::alloc::Global;
use unicode_width::UnicodeWidthStr;

/// Where a column's texts stand: on its left, on its right, or on its left with nothing behind them.
#[derive(Clone, Copy, Debug, PartialEq, Eq)]
pub enum Side {
    Left,
    Right,
    Open,
}

/// A column of a table.
#[derive(Clone, Copy, Debug, PartialEq, Eq)]
pub struct TableColumn {
    pub width: usize,
    pub side: Side,
}

/// The widest that a column is made; a wider text stands out.
pub const MOST_WIDTH: usize = 100;

// A column that is wide enough for this value too.
fn with_value(
    alloc: Global,
    column: TableColumn,
    value: &Option<Octets>,
) -> Result<TableColumn, OutOfMemory>
    ensures { IfOk result (λ new. new ≡ wider column value.now) }
{
    let text = shown(alloc, value)?;
    let width = text.as_str().width().min(MOST_WIDTH);
    Ok(TableColumn {
        width: column.width.max(width),
        side: column.side,
    })
}

/// Makes columns as wide as a row's values want it, up to the widest.
#[tactic(auto, using(crate::proofs::RowLaws::widened_end))]
pub fn widen(
    alloc: Global,
    columns: &mut [TableColumn],
    row: &[Option<Octets>],
) -> Result<(), OutOfMemory>
    ensures { OnOk result (columns.new ≡ widened columns.old row.now) }
{
    for at in 0..columns.len().min(row.len()) {
        columns[at] = with_value(alloc, columns[at], &row[at])?;
    }
    Ok(())
}

fn put_padded(out: &mut Vec<u8>, column: TableColumn, text: &str) -> Result<(), OutOfMemory>
    ensures { OnOk result (out.new.items ≡ out.old.items ++ padded column text.now) }
{
    let blanks = column.width.saturating_sub(text.width());
    match column.side {
        Side::Left => {
            put(out, text.as_bytes())?;
            put_times(out, b' ', blanks)
        }
        Side::Right => {
            put_times(out, b' ', blanks)?;
            put(out, text.as_bytes())
        }
        Side::Open => put(out, text.as_bytes()),
    }
}

#[tactic(auto, unfolding(crate::specs::TableLines::cell_text))]
fn put_cell(
    alloc: Global,
    out: &mut Vec<u8>,
    column: TableColumn,
    value: &Option<Octets>,
) -> Result<(), OutOfMemory>
    ensures { OnOk result (out.new.items ≡ out.old.items ++ cell_text column value.now) }
{
    let text = shown(alloc, value)?;
    put_padded(out, column, text.as_str())
}

// The cells behind the first.
fn put_rest(
    alloc: Global,
    out: &mut Vec<u8>,
    columns: &[TableColumn],
    row: &[Option<Octets>],
) -> Result<(), OutOfMemory>
    ensures { OnOk result (out.new.items ≡ out.old.items ++ table_rest columns.now row.now) }
{
    for at in 0..columns.len().min(row.len()) {
        put(out, b" | ")?;
        put_cell(alloc, out, columns[at], &row[at])?;
    }
    Ok(())
}

/// Appends a row as a line of a table.
#[tactic(auto, unfolding(crate::specs::TableLines::table_line))]
pub fn put_table_line(
    alloc: Global,
    out: &mut Vec<u8>,
    columns: &[TableColumn],
    row: &[Option<Octets>],
) -> Result<(), OutOfMemory>
    ensures { OnOk result (out.new.items ≡ out.old.items ++ table_line columns.now row.now) }
{
    match (columns, row) {
        ([column, columns @ ..], [value, row @ ..]) => {
            put_cell(alloc, out, *column, value)?;
            put_rest(alloc, out, columns, row)?;
        }
        _ => {}
    }
    put(out, b"\n")
}

// The rules of the columns behind the first.
fn put_rules(out: &mut Vec<u8>, columns: &[TableColumn]) -> Result<(), OutOfMemory>
    ensures { OnOk result (out.new.items ≡ out.old.items ++ flat_map rule_rest columns.now) }
{
    for column in columns {
        put(out, b"-+-")?;
        put_times(out, b'-', column.width)?;
    }
    Ok(())
}

/// Appends the rule between a table's head and its rows.
pub fn put_rule(out: &mut Vec<u8>, columns: &[TableColumn]) -> Result<(), OutOfMemory>
    ensures { OnOk result (out.new.items ≡ out.old.items ++ rule_line columns.now) }
{
    match columns {
        [column, columns @ ..] => {
            put_times(out, b'-', column.width)?;
            put_rules(out, columns)?;
        }
        [] => {}
    }
    put(out, b"\n")
}
