//! Errors and notices, their fields and their texts.

use crate::tests::shared::{encoded, printed, same, same_bytes};
use bytes::BytesMut;
use pgw_backend::backend::PgWireBackendMessage;
use pgw_backend::client_error::{PgWireClientError, unexpected};
use pgw_query::description::NoData;
use pgw_query::pg_type::PgType;
use pgw_query::response::{ErrorResponse, NoticeResponse};
use pgw_query::row_error::SqlFault;
use pgw_types::boxed::Boxed;
use pgw_types::error::{
    ApiFault, OauthFault, OauthRefusal, PgWireError, PgWireResult, ScramMessageFault,
};
use pgw_types::error_info::ErrorInfo;
use pgw_types::listed::{Duplicate, Listed};
use pgw_types::memory::OutOfMemory;
use pgw_types::octets::Octets;
use pgw_types::scram_error::ScramFault;
use pgw_types::text::Text;
use std::alloc::Global;
use std::test::Fail;

// Fields of these codes and texts.
fn fields_of(alloc: Global, cases: &[(u8, &str)]) -> Result<Listed<(u8, Text)>, OutOfMemory> {
    let mut fields = Listed::new(alloc);
    for (code, text) in cases {
        fields.push((*code, Text::from_str(alloc, text)?))?;
    }
    Ok(fields)
}

const WHOLE: &[(u8, &str)] = &[
    (b'S', "ERROR"),
    (b'V', "error"),
    (b'C', "42703"),
    (b'M', "no such column"),
    (b'D', "detail"),
    (b'H', "hint"),
    (b'P', "8"),
    (b'p', "3"),
    (b'q', "SELECT x"),
    (b'W', "where"),
    (b'F', "parse.c"),
    (b'L', "3713"),
    (b'R', "errorMissingColumn"),
    (b's', "schema"),
    (b't', "table"),
    (b'c', "column"),
    (b'd', "datatype"),
    (b'n', "constraint"),
];

const SHORT: &[(u8, &str)] = &[
    (b'S', "ERROR"),
    (b'V', "error"),
    (b'C', "42703"),
    (b'M', "no such column"),
];

const FAULTY: &[(u8, &str)] = &[
    (b'M', "first"),
    (b'X', "no part"),
    (b'L', "+12"),
    (b'L', "12a"),
    (b'M', "second"),
];

// A copy of what the fields say.
fn info_of(alloc: Global, fields: &[(u8, &str)]) -> Result<ErrorInfo, OutOfMemory> {
    let info = ErrorInfo::from_fields(fields_of(alloc, fields)?);
    let copy = info.duplicate();
    drop(info);
    copy
}

fn line_of(alloc: Global) -> Result<Option<usize>, OutOfMemory> {
    let info = info_of(alloc, WHOLE)?;
    let line = info.line;
    drop(info);
    Ok(line)
}

fn error_written(alloc: Global, fields: &[(u8, &str)]) -> PgWireResult<BytesMut> {
    let message = ErrorResponse::from_info(alloc, info_of(alloc, fields)?)?;
    let bytes = encoded(alloc, &message);
    drop(message);
    bytes
}

fn notice_written(alloc: Global, fields: &[(u8, &str)]) -> PgWireResult<BytesMut> {
    let message = NoticeResponse::from_info(alloc, info_of(alloc, fields)?)?;
    let bytes = encoded(alloc, &message);
    drop(message);
    bytes
}

const ALL_FIELDS: &[u8] =
    b"E\0\0\0\x9fSERROR\0Verror\0C42703\0Mno such column\0Ddetail\0Hhint\0P8\0p3\0qSELECT x\0Wwhere\0Fparse.c\0L3713\0RerrorMissingColumn\0sschema\0ttable\0ccolumn\0ddatatype\0nconstraint\0\0";

#[test]
fn fields_are_written(rt: HostRuntime) -> Result<(), Fail> {
    let alloc = rt.alloc();
    let info = "ErrorInfo: ERROR, 42703, no such column";
    same(printed(alloc, info_of(alloc, WHOLE)?), info)?;
    assert!(rt; line_of(alloc)? == Some(3713));
    same_bytes(error_written(alloc, WHOLE), ALL_FIELDS)?;
    let short = b"E\0\0\0\x2aSERROR\0Verror\0C42703\0Mno such column\0\0";
    same_bytes(error_written(alloc, SHORT), short)?;
    let notice = b"N\0\0\0\x2aSERROR\0Verror\0C42703\0Mno such column\0\0";
    same_bytes(notice_written(alloc, SHORT), notice)?;
    let faulty = b"E\0\0\0\x14S\0C\0Msecond\0L0\0\0";
    same_bytes(error_written(alloc, FAULTY), faulty)
}

// A refusal that has no text of its own.
fn plain_error(number: usize) -> PgWireError {
    match number {
        0 => PgWireError::UnsupportedProtocolVersion(4, 1),
        1 => PgWireError::InvalidCancelRequest,
        2 => PgWireError::InvalidSecretKey,
        3 => PgWireError::InvalidMessageType(255),
        4 => PgWireError::MessageTooLarge(10000, 10015),
        5 => PgWireError::InvalidElementCount(5, 10, 2),
        6 => PgWireError::InvalidTargetType(1),
        7 => PgWireError::InvalidTransactionStatus(88),
        8 => PgWireError::InvalidSSLRequestMessage,
        9 => PgWireError::InvalidGssEncRequestMessage,
        10 => PgWireError::InvalidStartupMessage,
        11 => PgWireError::InvalidAuthenticationMessageCode(-1),
        12 => PgWireError::InvalidScramMessage(ScramMessageFault::Count),
        13 => PgWireError::NotReadyForQuery,
        14 => PgWireError::InvalidOauthMessage(OauthFault::Flag),
        15 => PgWireError::OAuthAuthenticationFailed(OauthRefusal::Ended),
        16 => PgWireError::InvalidMessageBody,
        17 => PgWireError::FailedToCoercePasswordMessage,
        18 => PgWireError::InvalidSASLState,
        19 => PgWireError::SaltRequired,
        20 => PgWireError::PidsExhausted,
        21 => PgWireError::RegistryExhausted,
        22 => PgWireError::IoError,
        23 => PgWireError::UserNameRequired,
        24 => PgWireError::PortalNotStarted,
        25 => PgWireError::ParameterIndexOutOfBound(3),
        26 => PgWireError::QueryCanceled,
        27 => PgWireError::OutOfMemory,
        // What a web server answers: `HTTP/`.
        28 => PgWireError::MessageTooLarge(30000, 0x5454_502f),
        29 => PgWireError::MessageTooLarge(30000, usize::MAX),
        _ => PgWireError::InvalidElementCount(usize::MAX - 1, usize::MAX, 2),
    }
}

const PLAIN_ERRORS: &[&str] = &[
    "FATAL 08P01 protocol version 4.1 is not supported",
    "FATAL 08P01 invalid cancel request",
    "FATAL 08P01 a secret key has 4 to 256 bytes",
    "FATAL 08P01 invalid message type 255",
    "FATAL 08P01 message of 10015 bytes, above the limit 10000",
    "FATAL 08P01 5 elements take 10 bytes, and 2 are left",
    "FATAL 08P01 invalid target type 1",
    "FATAL 08P01 invalid transaction status 88",
    "FATAL 08P01 invalid SSL request",
    "FATAL 08P01 invalid GSS encryption request",
    "FATAL 08P01 invalid startup message",
    "FATAL 08P01 invalid authentication code -1",
    "FATAL 08P01 invalid SCRAM message: its iteration count is out of range",
    "FATAL 08P01 the server is not ready for a query",
    "FATAL 08P01 invalid OAUTHBEARER message: its first part is neither n nor y",
    "FATAL 08P01 OAUTHBEARER login failed: the client ended it behind a refusal",
    "FATAL 08P01 invalid message body",
    "FATAL XX000 the password message is of another kind",
    "FATAL XX000 the login is in another state",
    "FATAL XX000 the password has no salt",
    "FATAL XX000 no process number is left",
    "FATAL XX000 the registry takes no more events",
    "FATAL 58030 input or output failed",
    "FATAL 28000 a user name is required",
    "ERROR XX000 the portal is not started",
    "ERROR 22023 parameter 3 is out of range",
    "ERROR 57014 the query was canceled",
    "FATAL 53200 out of memory",
    "FATAL 08P01 message of 1414811695 bytes, above the limit 30000: its length reads `TTP/`, as if the other side spoke another protocol",
    "FATAL 08P01 message of a negative length, -1",
    "FATAL 08P01 a negative count of elements, -2",
];

// A refusal that has a text.
fn text_error(number: usize, text: Text) -> PgWireError {
    match number {
        0 => PgWireError::UnsupportedSASLAuthMethod(text),
        1 => PgWireError::OAuthValidationError(text),
        2 => PgWireError::InvalidPassword(text),
        3 => PgWireError::OauthAuthzIdError(text),
        4 => PgWireError::PortalNotFound(text),
        5 => PgWireError::StatementNotFound(text),
        6 => PgWireError::ApiError(ApiFault { text }),
        7 => PgWireError::InvalidRustTypeForParameter(text),
        8 => PgWireError::InvalidOptionValue(text),
        _ => PgWireError::FailedToParseParameter(text),
    }
}

const TEXT_ERRORS: &[&str] = &[
    "FATAL 08P01 SASL method `x` is not supported",
    "FATAL 08P01 token validation failed: x",
    "FATAL 28P01 password authentication failed for user `x`",
    "FATAL 0A000 authorization identity `x` is not supported",
    "ERROR 26000 portal `x` does not exist",
    "ERROR 26000 statement `x` does not exist",
    "ERROR XX000 x",
    "ERROR 22023 parameter of type `x` does not fit",
    "ERROR 22023 invalid option value `x`",
    "ERROR 22P02 parameter `x` cannot be read",
];

fn info_told(alloc: Global, info: &ErrorInfo) -> Result<String, OutOfMemory> {
    let severity = info.severity.as_str();
    let code = info.code.as_str();
    let message = info.message.as_str();
    Ok(format!(in alloc; "{severity} {code} {message}")?)
}

// What an error is told as.
fn told(alloc: Global, error: PgWireError) -> Result<String, OutOfMemory> {
    let info = ErrorInfo::from_error(alloc, error)?;
    let told = info_told(alloc, &info);
    drop(info);
    told
}

fn text_told(alloc: Global, number: usize) -> Result<String, OutOfMemory> {
    let text = Text::from_str(alloc, "x")?;
    told(alloc, text_error(number, text))
}

fn user_told(alloc: Global) -> Result<String, OutOfMemory> {
    let info = Boxed::new(alloc, info_of(alloc, WHOLE)?)?;
    told(alloc, PgWireError::UserError(info))
}

#[test]
fn errors_are_told(rt: HostRuntime) -> Result<(), Fail> {
    let alloc = rt.alloc();
    for (number, want) in PLAIN_ERRORS.iter().enumerate() {
        same(told(alloc, plain_error(number)), want)?;
    }
    for (number, want) in TEXT_ERRORS.iter().enumerate() {
        same(text_told(alloc, number), want)?;
    }
    same(user_told(alloc), "ERROR 42703 no such column")
}

// An error of a client that holds no memory.
fn plain_client_error(number: usize) -> PgWireClientError {
    match number {
        0 => PgWireClientError::UnexpectedEOF,
        1 => PgWireClientError::IoError,
        2 => PgWireClientError::PgWireError(PgWireError::InvalidMessageBody),
        3 => PgWireClientError::FromSqlError(SqlFault::WrongType(PgType::Text)),
        4 => PgWireClientError::FromSqlError(SqlFault::WrongLength(3)),
        5 => PgWireClientError::FromSqlError(SqlFault::BadText),
        6 => PgWireClientError::DataRowIndexOutOfBounds,
        7 => PgWireClientError::ScramError(ScramFault::PasswordNotUtf8),
        8 => PgWireClientError::ScramError(ScramFault::NonceMismatch),
        9 => PgWireClientError::ScramError(ScramFault::SaltNotBase64),
        10 => PgWireClientError::ScramError(ScramFault::SignatureMismatch),
        11 => PgWireClientError::ReadLimit,
        12 => PgWireClientError::Broken,
        _ => PgWireClientError::OutOfMemory,
    }
}

const PLAIN_CLIENT_ERRORS: &[&str] = &[
    "the server closed the connection",
    "input or output failed",
    "invalid message body",
    "a value cannot be read so: it is of type 25",
    "a value cannot be read so: it has 3 bytes",
    "a value cannot be read so: its text is none of the type's",
    "the row has no such value",
    "SCRAM login failed: the password is not UTF-8",
    "SCRAM login failed: the server's nonce does not begin with the client's",
    "SCRAM login failed: the server's salt is not base64",
    "SCRAM login failed: the server did not prove that it knows the password",
    "the limit on bytes to read is reached",
    "an earlier error left the client unusable",
    "out of memory",
];

fn remote(alloc: Global, fields: &[(u8, &str)]) -> Result<PgWireClientError, OutOfMemory> {
    let message = ErrorResponse::new(fields_of(alloc, fields)?);
    Ok(PgWireClientError::RemoteError(message))
}

fn bytes_error(alloc: Global) -> Result<PgWireClientError, OutOfMemory> {
    let octets = Octets::from_slice(alloc, b"\xff")?;
    Ok(PgWireClientError::InvalidUtf8ConfigValue(octets))
}

fn methods_error(alloc: Global) -> Result<PgWireClientError, OutOfMemory> {
    let mut methods = Listed::new(alloc);
    methods.push(Text::from_str(alloc, "x")?)?;
    methods.push(Text::from_str(alloc, "y")?)?;
    Ok(PgWireClientError::UnsupportedSASLAuthMethods(methods))
}

// An error that holds memory.
fn held_error(alloc: Global, number: usize) -> Result<PgWireClientError, OutOfMemory> {
    match number {
        0 => bytes_error(alloc),
        1 => Ok(unexpected(alloc, PgWireBackendMessage::NoData(NoData::new()))),
        2 => remote(alloc, WHOLE),
        3 => remote(alloc, SHORT),
        _ => methods_error(alloc),
    }
}

const HELD_ERRORS: &[&str] = &[
    "a value of the configuration is not UTF-8; its length in bytes is 1",
    "the server sent NoData where it has no place",
    "ERROR 42703: no such column\nDETAIL: detail\nHINT: hint",
    "ERROR 42703: no such column",
    "the server offers no SASL method that is supported: x, y",
];

fn held_printed(alloc: Global, number: usize) -> Result<String, OutOfMemory> {
    let error = held_error(alloc, number)?;
    printed(alloc, error)
}

// An error of a client with this text.
fn client_text_error(number: usize, text: Text) -> PgWireClientError {
    match number {
        0 => PgWireClientError::InvalidConfig(text),
        1 => PgWireClientError::UnknownConfig(text),
        _ => PgWireClientError::ScramError(ScramFault::ServerError(text)),
    }
}

const CLIENT_TEXT_ERRORS: &[(usize, &str, &str)] = &[
    (
        0,
        "x",
        "`x`: a value of the configuration is not one that its key takes",
    ),
    (
        0,
        "syntax",
        "`syntax`: the connection text has a part that is no key with a value",
    ),
    (
        0,
        "sslmode",
        "`sslmode`: the value of sslmode is unknown or not supported: no connection is ever encrypted",
    ),
    (
        0,
        "channel_binding",
        "`channel_binding`: the value of channel_binding is unknown, or it demands a bound login and no certificate's hash is given",
    ),
    (
        0,
        "user",
        "`user`: the user name has no form for a SCRAM login",
    ),
    (
        0,
        "host",
        "`host`: no host and no address is given, or one is not well-formed",
    ),
    (1, "x", "unknown configuration key `x`"),
    (2, "x", "SCRAM login failed: the server refused it: x"),
];

fn text_printed(alloc: Global, number: usize, text: &str) -> Result<String, OutOfMemory> {
    let error = client_text_error(number, Text::from_str(alloc, text)?);
    printed(alloc, error)
}

#[test]
fn client_errors_are_told(rt: HostRuntime) -> Result<(), Fail> {
    let alloc = rt.alloc();
    for (number, want) in PLAIN_CLIENT_ERRORS.iter().enumerate() {
        same(printed(alloc, plain_client_error(number)), want)?;
    }
    for (number, want) in HELD_ERRORS.iter().enumerate() {
        same(held_printed(alloc, number), want)?;
    }
    for (number, text, want) in CLIENT_TEXT_ERRORS {
        same(text_printed(alloc, *number, text), want)?;
    }
    Ok(())
}
