//! Whole numbers.
ghost use Rattle.std.specs.Prelude.{◌≡◌};
ghost use Rattle.std.specs.Int.{w16, w32, w64};
ghost use Rattle.pgw_rows.specs.Values.{integer_in, integer_of_binary, integer_of_text, is_int2, is_int4, is_int8};

use crate::from_sql::{FromSql, FromSqlText};
use pgw_query::pg_type::PgType;
use pgw_query::row_error::{RowError, RowResult, SqlFault};
use std::alloc::Global;

fn i16_in(text: &[u8]) -> Option<i16>
    ensures { result ≡ integer_in w16 text.now }
{
    match str::from_utf8(text) {
        Ok(text) => text.parse::<i16>().ok(),
        Err(_) => None,
    }
}

fn i32_in(text: &[u8]) -> Option<i32>
    ensures { result ≡ integer_in w32 text.now }
{
    match str::from_utf8(text) {
        Ok(text) => text.parse::<i32>().ok(),
        Err(_) => None,
    }
}

fn i64_in(text: &[u8]) -> Option<i64>
    ensures { result ≡ integer_in w64 text.now }
{
    match str::from_utf8(text) {
        Ok(text) => text.parse::<i64>().ok(),
        Err(_) => None,
    }
}

impl FromSql for i16 {
    ghost of_binary = { λ ty raw. integer_of_binary w16 (is_int2 ty) ty raw };

    ghost may_lack = { ⊥ };

    fn from_sql(_alloc: Global, ty: &PgType, raw: &[u8]) -> RowResult<i16> {
        match ty {
            PgType::Int2 => {}
            _ => return Err(RowError::FromSqlError(SqlFault::WrongType(*ty))),
        }
        match raw {
            [a, b] => Ok(i16::from_be_bytes([*a, *b])),
            _ => Err(RowError::FromSqlError(SqlFault::WrongLength(raw.len()))),
        }
    }
}

impl FromSqlText for i16 {
    ghost of_text = { λ ty text. integer_of_text w16 (is_int2 ty) ty text };

    ghost may_lack = { ⊥ };

    fn from_sql_text(_alloc: Global, ty: &PgType, input: &[u8]) -> RowResult<i16> {
        match ty {
            PgType::Int2 => {}
            _ => return Err(RowError::FromSqlError(SqlFault::WrongType(*ty))),
        }
        match i16_in(input) {
            Some(value) => Ok(value),
            None => Err(RowError::FromSqlError(SqlFault::BadText)),
        }
    }
}

impl FromSql for i32 {
    ghost of_binary = { λ ty raw. integer_of_binary w32 (is_int4 ty) ty raw };

    ghost may_lack = { ⊥ };

    fn from_sql(_alloc: Global, ty: &PgType, raw: &[u8]) -> RowResult<i32> {
        match ty {
            PgType::Int4 => {}
            _ => return Err(RowError::FromSqlError(SqlFault::WrongType(*ty))),
        }
        match raw {
            [a, b, c, d] => Ok(i32::from_be_bytes([*a, *b, *c, *d])),
            _ => Err(RowError::FromSqlError(SqlFault::WrongLength(raw.len()))),
        }
    }
}

impl FromSqlText for i32 {
    ghost of_text = { λ ty text. integer_of_text w32 (is_int4 ty) ty text };

    ghost may_lack = { ⊥ };

    fn from_sql_text(_alloc: Global, ty: &PgType, input: &[u8]) -> RowResult<i32> {
        match ty {
            PgType::Int4 => {}
            _ => return Err(RowError::FromSqlError(SqlFault::WrongType(*ty))),
        }
        match i32_in(input) {
            Some(value) => Ok(value),
            None => Err(RowError::FromSqlError(SqlFault::BadText)),
        }
    }
}

impl FromSql for i64 {
    ghost of_binary = { λ ty raw. integer_of_binary w64 (is_int8 ty) ty raw };

    ghost may_lack = { ⊥ };

    fn from_sql(_alloc: Global, ty: &PgType, raw: &[u8]) -> RowResult<i64> {
        match ty {
            PgType::Int8 => {}
            _ => return Err(RowError::FromSqlError(SqlFault::WrongType(*ty))),
        }
        match raw {
            [a, b, c, d, e, f, g, h] => { Ok(i64::from_be_bytes([*a, *b, *c, *d, *e, *f, *g, *h])) }
            _ => Err(RowError::FromSqlError(SqlFault::WrongLength(raw.len()))),
        }
    }
}

impl FromSqlText for i64 {
    ghost of_text = { λ ty text. integer_of_text w64 (is_int8 ty) ty text };

    ghost may_lack = { ⊥ };

    fn from_sql_text(_alloc: Global, ty: &PgType, input: &[u8]) -> RowResult<i64> {
        match ty {
            PgType::Int8 => {}
            _ => return Err(RowError::FromSqlError(SqlFault::WrongType(*ty))),
        }
        match i64_in(input) {
            Some(value) => Ok(value),
            None => Err(RowError::FromSqlError(SqlFault::BadText)),
        }
    }
}
