//! Booleans.
ghost use Rattle.std.specs.Prelude.{◌≡◌};
ghost use Rattle.pgw_rows.specs.Values.{bool_of_binary, bool_of_text, bool_in};

use crate::from_sql::{FromSql, FromSqlText};
use pgw_query::pg_type::PgType;
use pgw_query::row_error::{RowError, RowResult, SqlFault};
use std::alloc::Global;

// What a text says, if it is one of the two.
fn truth_in(text: &[u8]) -> Option<bool>
    ensures { result ≡ bool_in text.now }
{
    match text {
        [b't'] => Some(true),
        [b'f'] => Some(false),
        _ => None,
    }
}

impl FromSql for bool {
    ghost of_binary = { bool_of_binary };

    ghost may_lack = { ⊥ };

    fn from_sql(_alloc: Global, ty: &PgType, raw: &[u8]) -> RowResult<bool> {
        match ty {
            PgType::Bool => {}
            _ => return Err(RowError::FromSqlError(SqlFault::WrongType(*ty))),
        }
        if raw.len() != 1 {
            return Err(RowError::FromSqlError(SqlFault::WrongLength(raw.len())));
        }
        Ok(raw[0] != 0)
    }
}

impl FromSqlText for bool {
    ghost of_text = { bool_of_text };

    ghost may_lack = { ⊥ };

    fn from_sql_text(_alloc: Global, ty: &PgType, input: &[u8]) -> RowResult<bool> {
        match ty {
            PgType::Bool => {}
            _ => return Err(RowError::FromSqlError(SqlFault::WrongType(*ty))),
        }
        match truth_in(input) {
            Some(value) => Ok(value),
            None => Err(RowError::FromSqlError(SqlFault::BadText)),
        }
    }
}
