//! The names of errors.
ghost use Rattle.std.specs.Prelude.{◌≡◌, ◌++◌, OnOk};
ghost use Rattle.pgw_prog_sessions.specs.ErrorNames.{wire_name, client_name};

use crate::pieces::put;
use pgw_backend::client_error::PgWireClientError;
use pgw_types::error::PgWireError;
use pgw_types::memory::OutOfMemory;

#[tactic(auto, unfolding(crate::specs::ErrorNames::wire_name))]
fn wire_name(error: &PgWireError) -> &'static str
    ensures { result.now ≡ wire_name error.now }
{
    match error {
        PgWireError::UnsupportedProtocolVersion(..) => "UnsupportedProtocolVersion",
        PgWireError::InvalidCancelRequest => "InvalidCancelRequest",
        PgWireError::InvalidSecretKey => "InvalidSecretKey",
        PgWireError::InvalidMessageType(..) => "InvalidMessageType",
        PgWireError::MessageTooLarge(..) => "MessageTooLarge",
        PgWireError::InvalidElementCount(..) => "InvalidElementCount",
        PgWireError::InvalidTargetType(..) => "InvalidTargetType",
        PgWireError::InvalidTransactionStatus(..) => "InvalidTransactionStatus",
        PgWireError::InvalidSSLRequestMessage => "InvalidSSLRequestMessage",
        PgWireError::InvalidGssEncRequestMessage => "InvalidGssEncRequestMessage",
        PgWireError::InvalidStartupMessage => "InvalidStartupMessage",
        PgWireError::InvalidAuthenticationMessageCode(..) => "InvalidAuthenticationMessageCode",
        PgWireError::UnsupportedSASLAuthMethod(..) => "UnsupportedSASLAuthMethod",
        PgWireError::InvalidScramMessage(..) => "InvalidScramMessage",
        PgWireError::NotReadyForQuery => "NotReadyForQuery",
        PgWireError::InvalidOauthMessage(..) => "InvalidOauthMessage",
        PgWireError::OAuthAuthenticationFailed(..) => "OAuthAuthenticationFailed",
        PgWireError::OAuthValidationError(..) => "OAuthValidationError",
        PgWireError::InvalidMessageBody => "InvalidMessageBody",
        PgWireError::FailedToCoercePasswordMessage => "FailedToCoercePasswordMessage",
        PgWireError::InvalidSASLState => "InvalidSASLState",
        PgWireError::SaltRequired => "SaltRequired",
        PgWireError::PidsExhausted => "PidsExhausted",
        PgWireError::RegistryExhausted => "RegistryExhausted",
        PgWireError::IoError => "IoError",
        PgWireError::InvalidPassword(..) => "InvalidPassword",
        PgWireError::UserNameRequired => "UserNameRequired",
        PgWireError::OauthAuthzIdError(..) => "OauthAuthzIdError",
        PgWireError::OutOfMemory => "OutOfMemory",
        PgWireError::PortalNotFound(..) => "PortalNotFound",
        PgWireError::StatementNotFound(..) => "StatementNotFound",
        PgWireError::PortalNotStarted => "PortalNotStarted",
        PgWireError::ApiError(..) => "ApiError",
        PgWireError::ParameterIndexOutOfBound(..) => "ParameterIndexOutOfBound",
        PgWireError::InvalidRustTypeForParameter(..) => "InvalidRustTypeForParameter",
        PgWireError::InvalidOptionValue(..) => "InvalidOptionValue",
        PgWireError::FailedToParseParameter(..) => "FailedToParseParameter",
        PgWireError::QueryCanceled => "QueryCanceled",
        PgWireError::UserError(..) => "UserError",
    }
}

/// Appends the name of an error of the protocol.
pub fn put_wire_name(out: &mut Vec<u8>, error: &PgWireError) -> Result<(), OutOfMemory>
    ensures { OnOk result (out.new.items ≡ out.old.items ++ wire_name error.now) }
{
    put(out, wire_name(error).as_bytes())
}

/// Appends the name of a client's error.
#[tactic(auto, unfolding(crate::specs::ErrorNames::client_name))]
pub fn put_client_name(out: &mut Vec<u8>, error: &PgWireClientError) -> Result<(), OutOfMemory>
    ensures { OnOk result (out.new.items ≡ out.old.items ++ client_name error.now) }
{
    match error {
        PgWireClientError::InvalidConfig(..) => put(out, b"InvalidConfig"),
        PgWireClientError::UnknownConfig(..) => put(out, b"UnknownConfig"),
        PgWireClientError::InvalidUtf8ConfigValue(..) => put(out, b"InvalidUtf8ConfigValue"),
        PgWireClientError::UnexpectedEOF => put(out, b"UnexpectedEOF"),
        PgWireClientError::UnexpectedMessage(..) => put(out, b"UnexpectedMessage"),
        PgWireClientError::IoError => put(out, b"IoError"),
        PgWireClientError::PgWireError(wire) => {
            put(out, b"PgWireError/")?;
            put_wire_name(out, wire)
        }
        PgWireClientError::RemoteError(..) => put(out, b"RemoteError"),
        PgWireClientError::FromSqlError(..) => put(out, b"FromSqlError"),
        PgWireClientError::DataRowIndexOutOfBounds => put(out, b"DataRowIndexOutOfBounds"),
        PgWireClientError::ScramError(..) => put(out, b"ScramError"),
        PgWireClientError::UnsupportedSASLAuthMethods(..) => put(
            out,
            b"UnsupportedSASLAuthMethods",
        ),
        PgWireClientError::ReadLimit => put(out, b"ReadLimit"),
        PgWireClientError::Broken => put(out, b"Broken"),
        PgWireClientError::OutOfMemory => put(out, b"OutOfMemory"),
    }
}
