//! Texts.
ghost use Rattle.std.specs.Prelude.{◌≡◌};
ghost use Rattle.pgw_rows.specs.Rows.{GivesValue};
ghost use Rattle.pgw_rows.specs.Values.{has_text, is_text, of_type, or_bad_text, value_text, row_value_text, text_of_text};

use crate::from_sql::{FromSql, FromSqlText};
use pgw_query::pg_type::PgType;
use pgw_query::row_error::{RowError, RowResult, SqlFault};
use pgw_types::text::Text;
use std::alloc::Global;

// The text that bytes are in UTF-8.
fn utf8_in(alloc: Global, raw: &[u8]) -> RowResult<Text>
    ensures { GivesValue (Unit {0}) (or_bad_text (value_text raw.now)) result }
{
    let Ok(text) = str::from_utf8(raw) else {
        return Err(RowError::FromSqlError(SqlFault::BadText));
    };
    match Text::from_str(alloc, text) {
        Ok(text) => Ok(text),
        Err(_) => Err(RowError::OutOfMemory),
    }
}

// The types, by their numbers, whose text form a text holds beside the types of texts: json, float4, float8, date, time,
// timestamp, timestamptz, interval, numeric, uuid, jsonb.
const WRITTEN_OUT: [u32; 11] = [
    114, 700, 701, 1082, 1083, 1114, 1184, 1186, 1700, 2950, 3802,
];

fn is_text(ty: &PgType) -> bool
    ensures { result ≡ is_text ty.now }
{
    matches!(
        ty,
        PgType::Text | PgType::Varchar | PgType::Bpchar | PgType::Name | PgType::Unknown
    )
}

// Whether a text holds the text form of the type.
fn has_text(ty: &PgType) -> bool
    ensures { result ≡ has_text ty.now }
{
    match ty {
        PgType::Other(oid) => WRITTEN_OUT.contains(oid),
        _ => is_text(ty),
    }
}

// The text, of a type that holds it.
fn read(alloc: Global, ty: &PgType, holds: bool, raw: &[u8]) -> RowResult<Text>
    ensures { GivesValue (Unit {0}) (of_type holds ty.now (or_bad_text (value_text raw.now)))
        result }
{
    if holds {
        return utf8_in(alloc, raw);
    }
    Err(RowError::FromSqlError(SqlFault::WrongType(*ty)))
}

impl FromSql for Text {
    ghost of_binary = { row_value_text };

    ghost may_lack = { Unit {0} };

    fn from_sql(alloc: Global, ty: &PgType, raw: &[u8]) -> RowResult<Text> {
        read(alloc, ty, is_text(ty), raw)
    }
}

impl FromSqlText for Text {
    ghost of_text = { text_of_text };

    ghost may_lack = { Unit {0} };

    fn from_sql_text(alloc: Global, ty: &PgType, input: &[u8]) -> RowResult<Text> {
        read(alloc, ty, has_text(ty), input)
    }
}
