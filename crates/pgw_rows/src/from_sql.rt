//! What a value of a row can be read as.
ghost use Rattle.std.specs.Prelude.{◌≤◌, ℕ, List, Result, length, slice_range};
ghost use Rattle.pgw_query.specs.declared.row_error.SqlFault.{SqlFault as TheFault};
ghost use Rattle.pgw_query.specs.declared.pg_type.PgType.{PgType as TheType};
ghost use Rattle.pgw_rows.specs.Rows.{GivesValue};

use pgw_query::pg_type::PgType;
use pgw_query::row_error::RowResult;
use pgw_types::octets::Octets;
use std::alloc::Global;

/// What a value in binary form can be read as.
pub trait FromSql: Sized {
    // what the bytes are read as
    ghost of_binary: { TheType → List ℕ → Result Self TheFault };

    // whether memory may be wanted
    ghost may_lack: { Type 0 };

    /// Reads a value in binary form.
    fn from_sql(alloc: Global, ty: &PgType, raw: &[u8]) -> RowResult<Self>
        ensures { GivesValue may_lack (of_binary ty.now raw.now) result };

    /// Reads the bytes from one place of a row to another. A value that can share them copies none.
    fn from_row(alloc: Global, ty: &PgType, row: &Octets, from: usize, to: usize) -> RowResult<Self>
        requires ordered { from ≤ to }
        requires within { to ≤ length row.now }
        ensures { GivesValue may_lack (of_binary ty.now (slice_range row.now from to)) result }
    {
        Self::from_sql(alloc, ty, &row.as_slice()[from..to])
    }
}

/// What a value in text form can be read as.
pub trait FromSqlText: Sized {
    // what the text is read as
    ghost of_text: { TheType → List ℕ → Result Self TheFault };

    // whether memory may be wanted
    ghost may_lack: { Type 0 };

    /// Reads a value in text form.
    fn from_sql_text(alloc: Global, ty: &PgType, input: &[u8]) -> RowResult<Self>
        ensures { GivesValue may_lack (of_text ty.now input.now) result };
}
