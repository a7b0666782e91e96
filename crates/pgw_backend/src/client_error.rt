//! Why a client gives up.
ghost use Rattle.std.specs.Prelude.{◌≡◌};
ghost use Rattle.pgw_backend.specs.ClientError.{IsUnexpected};

use crate::backend::PgWireBackendMessage;
use crate::told::{Names, message_name};
use pgw_query::response::ErrorResponse;
use pgw_query::row_error::{RowError, SqlFault};
use pgw_types::boxed::Boxed;
use pgw_types::config_error::{ConfigError, RefusedKey};
use pgw_types::error::PgWireError;
use pgw_types::listed::Listed;
use pgw_types::memory::OutOfMemory;
use pgw_types::octets::Octets;
use pgw_types::scram_error::{ScramClientError, ScramFault};
use pgw_types::text::Text;
use std::alloc::{AllocError, AllocFailed, Global};
use std::io;
use thiserror::Error;

/// Why a client gives up.
#[derive(Debug, Drop, Error)]
pub enum PgWireClientError {
    #[error("{}", RefusedKey(.0.as_str()))]
    InvalidConfig(Text),
    #[error("unknown configuration key `{}`", .0.as_str())]
    UnknownConfig(Text),
    #[error("a value of the configuration is not UTF-8; its length in bytes is {}", .0.len())]
    InvalidUtf8ConfigValue(Octets),
    #[error("the server closed the connection")]
    UnexpectedEOF,
    #[error("the server sent {} where it has no place", message_name(.0.as_ref()))]
    UnexpectedMessage(Boxed<PgWireBackendMessage>),
    #[error("input or output failed")]
    IoError,
    #[error("{0}")]
    PgWireError(PgWireError),
    #[error("{0}")]
    RemoteError(ErrorResponse),
    #[error("a value cannot be read so: {0}")]
    FromSqlError(SqlFault),
    #[error("the row has no such value")]
    DataRowIndexOutOfBounds,
    #[error("SCRAM login failed: {0}")]
    ScramError(ScramFault),
    #[error("the server offers no SASL method that is supported: {}", Names(.0.as_slice()))]
    UnsupportedSASLAuthMethods(Listed<Text>),
    #[error("the limit on bytes to read is reached")]
    ReadLimit,
    #[error("an earlier error left the client unusable")]
    Broken,
    #[error("out of memory")]
    OutOfMemory,
}

pub type PgWireClientResult<T> = Result<T, PgWireClientError>;

/// What is said of a message that may not come.
pub fn unexpected(alloc: Global, message: PgWireBackendMessage) -> PgWireClientError
    ensures { IsUnexpected message result }
{
    match Boxed::new(alloc, message) {
        Ok(message) => PgWireClientError::UnexpectedMessage(message),
        Err(_) => PgWireClientError::OutOfMemory,
    }
}

impl From<AllocError> for PgWireClientError {
    ghost use Rattle.pgw_backend.specs.declared.client_error.PgWireClientError.TheVariants as client;

    ghost from_gives = { λ e r. r ≡ client.OutOfMemory };

    fn from(_e: AllocError) -> PgWireClientError {
        PgWireClientError::OutOfMemory
    }
}

impl<T: Drop> From<AllocFailed<T>> for PgWireClientError {
    ghost use Rattle.pgw_backend.specs.declared.client_error.PgWireClientError.TheVariants as client;

    ghost from_gives = { λ e r. r ≡ client.OutOfMemory };

    fn from(_e: AllocFailed<T>) -> PgWireClientError {
        PgWireClientError::OutOfMemory
    }
}

/// Want of memory, or a call of the system that failed. Which call is not told.
impl From<io::Error> for PgWireClientError {
    ghost use Rattle.std.specs.Prelude.{◌⊎◌};
    ghost use Rattle.pgw_backend.specs.declared.client_error.PgWireClientError.TheVariants as client;

    ghost from_gives = { λ e r. (r ≡ client.IoError) ⊎ (r ≡ client.OutOfMemory) };

    fn from(e: io::Error) -> PgWireClientError {
        match e.kind() {
            io::ErrorKind::OutOfMemory => PgWireClientError::OutOfMemory,
            _ => PgWireClientError::IoError,
        }
    }
}

impl From<OutOfMemory> for PgWireClientError {
    ghost use Rattle.pgw_backend.specs.declared.client_error.PgWireClientError.TheVariants as client;

    ghost from_gives = { λ e r. r ≡ client.OutOfMemory };

    fn from(_e: OutOfMemory) -> PgWireClientError {
        PgWireClientError::OutOfMemory
    }
}

/// A refusal of a configuration, as itself.
impl From<ConfigError> for PgWireClientError {
    ghost use Rattle.pgw_backend.specs.ClientError.{of_config};

    ghost from_gives = { λ e r. r ≡ of_config e };

    fn from(e: ConfigError) -> PgWireClientError {
        match e {
            ConfigError::InvalidConfig(key) => PgWireClientError::InvalidConfig(key),
            ConfigError::UnknownConfig(key) => PgWireClientError::UnknownConfig(key),
            ConfigError::InvalidUtf8ConfigValue(bytes) => {
                PgWireClientError::InvalidUtf8ConfigValue(bytes)
            }
            ConfigError::OutOfMemory => PgWireClientError::OutOfMemory,
        }
    }
}

/// Why a SCRAM login was given up, as itself.
impl From<ScramClientError> for PgWireClientError {
    ghost use Rattle.pgw_backend.specs.ClientError.{of_scram};

    ghost from_gives = { λ e r. r ≡ of_scram e };

    fn from(e: ScramClientError) -> PgWireClientError {
        match e {
            ScramClientError::InvalidConfig(key) => PgWireClientError::InvalidConfig(key),
            ScramClientError::PgWireError(why) => PgWireClientError::PgWireError(why),
            ScramClientError::ScramError(why) => PgWireClientError::ScramError(why),
            ScramClientError::OutOfMemory => PgWireClientError::OutOfMemory,
        }
    }
}

impl From<RowError> for PgWireClientError {
    ghost use Rattle.pgw_backend.specs.ClientError.{of_row};

    ghost from_gives = { λ e r. r ≡ of_row e };

    fn from(e: RowError) -> PgWireClientError {
        match e {
            RowError::FromSqlError(fault) => PgWireClientError::FromSqlError(fault),
            RowError::DataRowIndexOutOfBounds => PgWireClientError::DataRowIndexOutOfBounds,
            RowError::OutOfMemory => PgWireClientError::OutOfMemory,
        }
    }
}

#[tactic(auto, unfolding(crate::specs::ClientError::client_of_wire))]
impl From<PgWireError> for PgWireClientError {
    ghost use Rattle.pgw_backend.specs.ClientError.{client_of_wire};

    ghost from_gives = { λ e r. r ≡ client_of_wire e };

    fn from(e: PgWireError) -> PgWireClientError {
        match e {
            PgWireError::OutOfMemory => PgWireClientError::OutOfMemory,
            e => PgWireClientError::PgWireError(e),
        }
    }
}
