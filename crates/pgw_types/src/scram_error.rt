//! Why a client gives up a SCRAM login.
ghost use Rattle.std.specs.Prelude.{◌≡◌};
ghost use Rattle.pgw_types.specs.declared.scram_error.ScramClientError.TheVariants as scram;
ghost use Rattle.pgw_types.specs.ScramErrors.{scram_of_wire};

use crate::config_error::RefusedKey;
use crate::error::PgWireError;
use crate::memory::OutOfMemory;
use crate::text::Text;
use std::alloc::{AllocError, AllocFailed};
use std::error::Error;
use std::fmt;

/// Why a SCRAM login failed (RFC 5802, section 5).
#[derive(Debug, Drop, PartialEq, Eq)]
pub enum ScramFault {
    PasswordNotUtf8,
    NonceMismatch,
    SaltNotBase64,
    ServerError(Text),
    SignatureMismatch,
}

/// Why a client gives up a SCRAM login.
#[derive(Debug, Drop)]
pub enum ScramClientError {
    /// The key whose value does not do: `user`, where the user name has no prepared form.
    InvalidConfig(Text),
    /// A message of the server outside its grammar.
    PgWireError(PgWireError),
    ScramError(ScramFault),
    OutOfMemory,
}

pub type ScramClientResult<T> = Result<T, ScramClientError>;

impl fmt::Display for ScramFault {
    fn fmt<W: fmt::Write>(&self, f: &mut fmt::Formatter<W>) -> fmt::Result {
        match self {
            ScramFault::PasswordNotUtf8 => f.write_str("the password is not UTF-8"),
            ScramFault::NonceMismatch => {
                f.write_str("the server's nonce does not begin with the client's")
            }
            ScramFault::SaltNotBase64 => f.write_str("the server's salt is not base64"),
            ScramFault::ServerError(text) => write!(f, "the server refused it: {text}"),
            ScramFault::SignatureMismatch => {
                f.write_str("the server did not prove that it knows the password")
            }
        }
    }
}

impl fmt::Display for ScramClientError {
    fn fmt<W: fmt::Write>(&self, f: &mut fmt::Formatter<W>) -> fmt::Result {
        match self {
            ScramClientError::InvalidConfig(key) => write!(f, "{}", RefusedKey(key.as_str())),
            ScramClientError::PgWireError(why) => write!(f, "{why}"),
            ScramClientError::ScramError(why) => write!(f, "SCRAM login failed: {why}"),
            ScramClientError::OutOfMemory => f.write_str("out of memory"),
        }
    }
}

impl Error for ScramClientError {}

impl From<OutOfMemory> for ScramClientError {
    ghost from_gives = { λ _ e. e ≡ scram.OutOfMemory };

    fn from(_e: OutOfMemory) -> ScramClientError {
        ScramClientError::OutOfMemory
    }
}

impl From<AllocError> for ScramClientError {
    ghost from_gives = { λ _ e. e ≡ scram.OutOfMemory };

    fn from(_e: AllocError) -> ScramClientError {
        ScramClientError::OutOfMemory
    }
}

impl<T: Drop> From<AllocFailed<T>> for ScramClientError {
    ghost from_gives = { λ _ e. e ≡ scram.OutOfMemory };

    fn from(_e: AllocFailed<T>) -> ScramClientError {
        ScramClientError::OutOfMemory
    }
}

/// Want of memory stays want of memory.
#[tactic(auto, unfolding(crate::specs::ScramErrors::scram_of_wire))]
impl From<PgWireError> for ScramClientError {
    ghost from_gives = { λ e r. r ≡ scram_of_wire e };

    fn from(e: PgWireError) -> ScramClientError {
        match e {
            PgWireError::OutOfMemory => ScramClientError::OutOfMemory,
            e => ScramClientError::PgWireError(e),
        }
    }
}
