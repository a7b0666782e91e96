//! The columns of printed rows.
ghost use Rattle.std.specs.Prelude.{◌≡◌};
ghost use Rattle.pgw_prog_output.specs.Columns.{column_kind};

use pgw_types::text::Text;

/// What a column's values are, as far as printing minds.
#[derive(Clone, Copy, Debug, PartialEq, Eq)]
pub enum ColumnKind {
    Truth,
    Number,
    Words,
}

impl ColumnKind {
    /// The kind of a type's values, by its object identifier (pg_type).
    pub fn of_type(oid: u32) -> ColumnKind
        ensures { result ≡ column_kind oid }
    {
        match oid {
            16 => ColumnKind::Truth,
            20 | 21 | 23 | 26 | 700 | 701 | 1700 => ColumnKind::Number,
            _ => ColumnKind::Words,
        }
    }
}

/// A column of printed rows.
#[derive(Debug, Drop)]
pub struct Column {
    pub name: Text,
    pub kind: ColumnKind,
}
