//! Where values stand in a row.
ghost use Rattle.std.specs.Prelude.{◌≡◌, ◌⊎◌, ◌≤◌, length, take, IfSome};
ghost use Rattle.std.specs.Option.{option_copied, option_map};
ghost use Rattle.pgw_rows.specs.Cuts.{HasLength, IsIn, Locates, PassesCut, cut_of};
ghost use Rattle.pgw_rows.specs.Rows.{GivesValue, read_by};

use crate::from_sql::{FromSql, FromSqlText};
use pgw_query::field_info::{FieldFormat, FieldInfo};
use pgw_query::row_error::{RowError, RowResult};
use pgw_types::octets::Octets;
use std::alloc::Global;

// The length before a value.
#[tactic(auto, unfolding(pgw_wire::specs::Reading::int_at, pgw_wire::specs::Reading::nat_at))]
fn length_at(bytes: &[u8]) -> Option<i32>
    ensures { HasLength bytes.now result }
{
    if bytes.len() < 4 {
        return None;
    }
    Some(i32::from_be_bytes([bytes[0], bytes[1], bytes[2], bytes[3]]))
}

// Where the value at an index of a row ends, or none for NULL; nothing where the row ends within it.
#[tactic(auto, unfolding(pgw_wire::specs::Values::nullable_at))]
fn locate(row: &[u8], at: usize) -> Option<Option<usize>>
    requires { at ≤ length row.now }
    ensures { Locates row.now at result }
{
    let rest = &row[at..];
    let len = length_at(rest)?;
    if len < 0 {
        return Some(None);
    }
    if rest.len() - 4 < len as usize {
        return None;
    }
    Some(Some(at + 4 + len as usize))
}

/// Where bytes stand in a row, up to an index and not with it.
#[derive(Clone, Copy, Drop)]
pub struct Cut {
    pub from: usize,
    pub to: usize,
}

/// Passes a value over, and answers where its bytes stand, or none for NULL.
pub fn pass(
    fields: &[FieldInfo],
    row: &[u8],
    passed: &mut usize,
    at: &mut usize,
) -> RowResult<Option<Cut>>
    requires { at.old ≤ length row.now }
    ensures { PassesCut fields.now row.now passed.old at.old passed.new at.new result }
{
    if *passed >= fields.len() {
        return Err(RowError::DataRowIndexOutOfBounds);
    }
    match locate(row, *at) {
        None => Err(RowError::DataRowIndexOutOfBounds),
        Some(None) => {
            *passed += 1;
            *at += 4;
            Ok(None)
        }
        Some(Some(end)) => {
            let from = *at + 4;
            *passed += 1;
            *at = end;
            Ok(Some(Cut { from, to: end }))
        }
    }
}

/// The bytes that stand there.
pub fn cut_out(row: &[u8], cut: Option<Cut>) -> Option<&[u8]>
    requires { IfSome cut (IsIn row.now) }
    ensures { option_copied result ≡ option_map (cut_of row.now) cut }
{
    match cut {
        None => None,
        Some(cut) => Some(&row[cut.from..cut.to]),
    }
}

/// Reads the bytes that stand there in a row, which is the front of some bytes, in the format of their column.
pub fn read_value<T: FromSql + FromSqlText>(
    alloc: Global,
    field: &FieldInfo,
    bytes: &Octets,
    end: usize,
    cut: Cut,
) -> RowResult<T>
    requires within { end ≤ length bytes.now }
    requires in_row { IsIn (take end bytes.now) cut }
    ensures { GivesValue (T.FromSql.may_lack ⊎ T.FromSqlText.may_lack)
        (read_by T.of_binary T.of_text field.now (cut_of (take end bytes.now) cut)) result }
{
    match field.format {
        FieldFormat::Binary => T::from_row(alloc, &field.datatype, bytes, cut.from, cut.to),
        FieldFormat::Text => {
            T::from_sql_text(alloc, &field.datatype, &bytes.as_slice()[cut.from..cut.to])
        }
    }
}
