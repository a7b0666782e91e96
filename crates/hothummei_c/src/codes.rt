//! The numbers that the calls answer.
ghost use Rattle.std.specs.Prelude.{◌≡◌};
ghost use Rattle.hothummei_c.specs.Codes.{code_of};

use pgw_backend::client_error::PgWireClientError;

/// It was done.
pub const OK: u32 = 0;

/// The handle is null.
pub const NULL_POINTER: u32 = 1;

/// The call has no place here.
pub const OUT_OF_PLACE: u32 = 2;

/// There is nothing by that number.
pub const NO_SUCH_INDEX: u32 = 3;

/// A text is not UTF-8.
pub const NOT_UTF8: u32 = 4;

/// A number is outside its range.
pub const OUT_OF_RANGE: u32 = 5;

/// Memory was wanting.
pub const OUT_OF_MEMORY: u32 = 6;

/// The number of an error.
pub fn code_of(e: &PgWireClientError) -> u32
    ensures { result ≡ code_of e.now }
{
    match e {
        PgWireClientError::OutOfMemory => OUT_OF_MEMORY,
        PgWireClientError::InvalidConfig(_) => 10,
        PgWireClientError::UnknownConfig(_) => 11,
        PgWireClientError::InvalidUtf8ConfigValue(_) => 12,
        PgWireClientError::UnexpectedEOF => 13,
        PgWireClientError::UnexpectedMessage(_) => 14,
        PgWireClientError::IoError => 15,
        PgWireClientError::PgWireError(_) => 16,
        PgWireClientError::RemoteError(_) => 17,
        PgWireClientError::FromSqlError(_) => 18,
        PgWireClientError::DataRowIndexOutOfBounds => 19,
        PgWireClientError::ScramError(_) => 20,
        PgWireClientError::UnsupportedSASLAuthMethods(_) => 21,
        PgWireClientError::ReadLimit => 22,
        PgWireClientError::Broken => 23,
    }
}
