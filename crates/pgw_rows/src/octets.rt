//! Bytes.
ghost use Rattle.pgw_rows.specs.Rows.{GivesValue};
ghost use Rattle.pgw_rows.specs.Values.{octets_in, octets_of_binary, octets_of_text, or_bad_text};

use crate::from_sql::{FromSql, FromSqlText};
use hex::FromHexError;
use pgw_query::pg_type::PgType;
use pgw_query::row_error::{RowError, RowResult, SqlFault};
use pgw_types::octets::Octets;
use std::alloc::Global;

// The bytes that hex digits stand for, behind `\x`.
fn hex_in(alloc: Global, text: &[u8]) -> RowResult<Octets>
    ensures { GivesValue (Unit {0}) (or_bad_text (octets_in text.now)) result }
{
    let [b'\\', b'x', digits @ ..] = text else {
        return Err(RowError::FromSqlError(SqlFault::BadText));
    };
    match hex::decode(alloc, digits) {
        Ok(bytes) => match Octets::from_slice(alloc, bytes.as_slice()) {
            Ok(octets) => Ok(octets),
            Err(_) => Err(RowError::OutOfMemory),
        },
        Err(FromHexError::OutOfMemory) => Err(RowError::OutOfMemory),
        Err(_) => Err(RowError::FromSqlError(SqlFault::BadText)),
    }
}

impl FromSql for Octets {
    ghost of_binary = { octets_of_binary };

    ghost may_lack = { Unit {0} };

    fn from_sql(alloc: Global, ty: &PgType, raw: &[u8]) -> RowResult<Octets> {
        match ty {
            PgType::Bytea => {}
            _ => return Err(RowError::FromSqlError(SqlFault::WrongType(*ty))),
        }
        match Octets::from_slice(alloc, raw) {
            Ok(octets) => Ok(octets),
            Err(_) => Err(RowError::OutOfMemory),
        }
    }

    fn from_row(
        _alloc: Global,
        ty: &PgType,
        row: &Octets,
        from: usize,
        to: usize,
    ) -> RowResult<Octets> {
        match ty {
            PgType::Bytea => {}
            _ => return Err(RowError::FromSqlError(SqlFault::WrongType(*ty))),
        }
        match row.slice(from, to) {
            Ok(octets) => Ok(octets),
            Err(_) => Err(RowError::OutOfMemory),
        }
    }
}

impl FromSqlText for Octets {
    ghost of_text = { octets_of_text };

    ghost may_lack = { Unit {0} };

    fn from_sql_text(alloc: Global, ty: &PgType, input: &[u8]) -> RowResult<Octets> {
        match ty {
            PgType::Bytea => hex_in(alloc, input),
            _ => Err(RowError::FromSqlError(SqlFault::WrongType(*ty))),
        }
    }
}
