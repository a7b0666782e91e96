//! Why a message is refused.
ghost use Rattle.std.specs.Prelude.{◌≡◌};
ghost use Rattle.pgw_types.specs.declared.error.PgWireError.TheVariants.{OutOfMemory as NoMemory};

use crate::boxed::Boxed;
use crate::error_info::ErrorInfo;
use crate::memory::OutOfMemory;
use crate::text::Text;
use std::alloc::{AllocError, AllocFailed};

/// What is wrong with a SCRAM message (RFC 5802, section 7).
#[derive(Clone, Copy, Debug, PartialEq, Eq)]
pub enum ScramMessageFault {
    NotUtf8,
    Grammar,
    Count,
    ChannelBinding,
    Nonce,
    Empty,
    Mechanism,
}

/// What is wrong with the data of an OAUTHBEARER message (RFC 7628, section 3.1).
#[derive(Clone, Copy, Debug, PartialEq, Eq)]
pub enum OauthFault {
    Flag,
    ChannelBinding,
    AuthzId,
    Separator,
    Pair,
    Key,
    Value,
    TwiceAuth,
    NotOneByte,
}

/// Why an OAUTHBEARER login was refused.
#[derive(Clone, Copy, Debug, PartialEq, Eq)]
pub enum OauthRefusal {
    Malformed,
    Refused,
    Ended,
}

/// A fault of a user's own code, in its own words.
#[derive(Debug, Drop, PartialEq, Eq)]
pub struct ApiFault {
    pub text: Text,
}

/// Why a message is refused, or a login.
#[derive(Debug, Drop, PartialEq, Eq)]
pub enum PgWireError {
    /// Major and minor number.
    UnsupportedProtocolVersion(u16, u16),
    InvalidCancelRequest,
    InvalidSecretKey,
    /// The type byte.
    InvalidMessageType(u8),
    /// The limit, and the length that the message tells, both in bytes.
    MessageTooLarge(usize, usize),
    /// The count, the fewest bytes that so many elements take, and the bytes that are left.
    InvalidElementCount(usize, usize, usize),
    /// The byte, which is neither `S` nor `P`.
    InvalidTargetType(u8),
    InvalidTransactionStatus(u8),
    InvalidSSLRequestMessage,
    InvalidGssEncRequestMessage,
    InvalidStartupMessage,
    InvalidAuthenticationMessageCode(i32),
    UnsupportedSASLAuthMethod(Text),
    InvalidScramMessage(ScramMessageFault),
    NotReadyForQuery,
    InvalidOauthMessage(OauthFault),
    OAuthAuthenticationFailed(OauthRefusal),
    OAuthValidationError(Text),
    InvalidMessageBody,
    FailedToCoercePasswordMessage,
    InvalidSASLState,
    SaltRequired,
    PidsExhausted,
    RegistryExhausted,
    IoError,
    InvalidPassword(Text),
    UserNameRequired,
    OauthAuthzIdError(Text),
    OutOfMemory,
    PortalNotFound(Text),
    StatementNotFound(Text),
    PortalNotStarted,
    ApiError(ApiFault),
    ParameterIndexOutOfBound(usize),
    InvalidRustTypeForParameter(Text),
    InvalidOptionValue(Text),
    FailedToParseParameter(Text),
    QueryCanceled,
    UserError(Boxed<ErrorInfo>),
}

impl From<OutOfMemory> for PgWireError {
    ghost from_gives = { λ _ e. e ≡ NoMemory };

    fn from(_e: OutOfMemory) -> PgWireError {
        PgWireError::OutOfMemory
    }
}

impl From<AllocError> for PgWireError {
    ghost from_gives = { λ _ e. e ≡ NoMemory };

    fn from(_e: AllocError) -> PgWireError {
        PgWireError::OutOfMemory
    }
}

impl<T: Drop> From<AllocFailed<T>> for PgWireError {
    ghost from_gives = { λ _ e. e ≡ NoMemory };

    fn from(_e: AllocFailed<T>) -> PgWireError {
        PgWireError::OutOfMemory
    }
}

pub type PgWireResult<T> = Result<T, PgWireError>;
