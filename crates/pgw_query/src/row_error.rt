//! Why a value of a row is not given.
ghost use Rattle.std.specs.Prelude.{◌≡◌};

use crate::pg_type::PgType;
use pgw_types::memory::OutOfMemory;
use std::alloc::{AllocError, AllocFailed};
use std::error::Error;
use std::fmt;

/// Why a value cannot be read as a type.
#[derive(Clone, Copy, Debug, PartialEq, Eq)]
pub enum SqlFault {
    WrongType(PgType),
    WrongLength(usize),
    BadText,
}

/// Why a value of a row is not given. `?` makes it the client's error of the same name.
#[derive(Debug, Drop)]
pub enum RowError {
    /// The value is there, and is not of the type that is asked for.
    FromSqlError(SqlFault),
    /// The row has no such value.
    DataRowIndexOutOfBounds,
    OutOfMemory,
}

pub type RowResult<T> = Result<T, RowError>;

impl fmt::Display for SqlFault {
    fn fmt<W: fmt::Write>(&self, f: &mut fmt::Formatter<W>) -> fmt::Result {
        match self {
            SqlFault::WrongType(found) => write!(f, "it is of type {}", found.oid()),
            SqlFault::WrongLength(len) => write!(f, "it has {len} bytes"),
            SqlFault::BadText => f.write_str("its text is none of the type's"),
        }
    }
}

impl fmt::Display for RowError {
    fn fmt<W: fmt::Write>(&self, f: &mut fmt::Formatter<W>) -> fmt::Result {
        match self {
            RowError::FromSqlError(fault) => write!(f, "a value cannot be read so: {fault}"),
            RowError::DataRowIndexOutOfBounds => f.write_str("the row has no such value"),
            RowError::OutOfMemory => f.write_str("out of memory"),
        }
    }
}

impl Error for RowError {}

impl From<AllocError> for RowError {
    ghost use Rattle.pgw_query.specs.declared.row_error.RowError.TheVariants as row;

    ghost from_gives = { λ e r. r ≡ row.OutOfMemory };

    fn from(_e: AllocError) -> RowError {
        RowError::OutOfMemory
    }
}

impl<T: Drop> From<AllocFailed<T>> for RowError {
    ghost use Rattle.pgw_query.specs.declared.row_error.RowError.TheVariants as row;

    ghost from_gives = { λ e r. r ≡ row.OutOfMemory };

    fn from(_e: AllocFailed<T>) -> RowError {
        RowError::OutOfMemory
    }
}

impl From<OutOfMemory> for RowError {
    ghost use Rattle.pgw_query.specs.declared.row_error.RowError.TheVariants as row;

    ghost from_gives = { λ e r. r ≡ row.OutOfMemory };

    fn from(_e: OutOfMemory) -> RowError {
        RowError::OutOfMemory
    }
}
