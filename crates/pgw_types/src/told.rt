//! What refusals are called for people.

use crate::error::{OauthFault, OauthRefusal, PgWireError, ScramMessageFault};
use std::error::Error;
use std::fmt;

// The text of an error that holds nothing.
fn plain_text(error: &PgWireError) -> Option<&'static str> {
    match error {
        PgWireError::InvalidCancelRequest => Some("invalid cancel request"),
        PgWireError::InvalidSecretKey => Some("a secret key has 4 to 256 bytes"),
        PgWireError::InvalidSSLRequestMessage => Some("invalid SSL request"),
        PgWireError::InvalidGssEncRequestMessage => Some("invalid GSS encryption request"),
        PgWireError::InvalidStartupMessage => Some("invalid startup message"),
        PgWireError::NotReadyForQuery => Some("the server is not ready for a query"),
        PgWireError::InvalidMessageBody => Some("invalid message body"),
        PgWireError::FailedToCoercePasswordMessage => {
            Some("the password message is of another kind")
        }
        PgWireError::InvalidSASLState => Some("the login is in another state"),
        PgWireError::SaltRequired => Some("the password has no salt"),
        PgWireError::PidsExhausted => Some("no process number is left"),
        PgWireError::RegistryExhausted => Some("the registry takes no more events"),
        PgWireError::IoError => Some("input or output failed"),
        PgWireError::UserNameRequired => Some("a user name is required"),
        PgWireError::OutOfMemory => Some("out of memory"),
        PgWireError::PortalNotStarted => Some("the portal is not started"),
        PgWireError::QueryCanceled => Some("the query was canceled"),
        _ => None,
    }
}

// The text that an error holds, between what stands before it and after it.
fn held_text<'a>(error: &'a PgWireError) -> Option<(&'static str, &'a str, &'static str)> {
    match error {
        PgWireError::UnsupportedSASLAuthMethod(name) => {
            Some(("SASL method `", name.as_str(), "` is not supported"))
        }
        PgWireError::OAuthValidationError(why) => {
            Some(("token validation failed: ", why.as_str(), ""))
        }
        PgWireError::InvalidPassword(user) => {
            Some((
                "password authentication failed for user `",
                user.as_str(),
                "`",
            ))
        }
        PgWireError::OauthAuthzIdError(id) => {
            Some((
                "authorization identity `",
                id.as_str(),
                "` is not supported",
            ))
        }
        PgWireError::PortalNotFound(name) => Some(("portal `", name.as_str(), "` does not exist")),
        PgWireError::StatementNotFound(name) => {
            Some(("statement `", name.as_str(), "` does not exist"))
        }
        PgWireError::ApiError(fault) => Some(("", fault.text.as_str(), "")),
        PgWireError::InvalidRustTypeForParameter(kind) => {
            Some(("parameter of type `", kind.as_str(), "` does not fit"))
        }
        PgWireError::InvalidOptionValue(value) => {
            Some(("invalid option value `", value.as_str(), "`"))
        }
        PgWireError::FailedToParseParameter(name) => {
            Some(("parameter `", name.as_str(), "` cannot be read"))
        }
        PgWireError::UserError(info) => Some(("", info.as_ref().message.as_str(), "")),
        _ => None,
    }
}

// The one number that an error holds, between what stands before it and after it.
fn held_number(error: &PgWireError) -> Option<(&'static str, u64, &'static str)> {
    match error {
        PgWireError::InvalidMessageType(byte) => Some(("invalid message type ", *byte as u64, "")),
        PgWireError::InvalidTargetType(byte) => Some(("invalid target type ", *byte as u64, "")),
        PgWireError::InvalidTransactionStatus(byte) => {
            Some(("invalid transaction status ", *byte as u64, ""))
        }
        PgWireError::ParameterIndexOutOfBound(index) => {
            Some(("parameter ", *index as u64, " is out of range"))
        }
        _ => None,
    }
}

// What is wrong with a SCRAM message.
fn scram_text(fault: ScramMessageFault) -> &'static str {
    match fault {
        ScramMessageFault::NotUtf8 => "it is not UTF-8",
        ScramMessageFault::Grammar => "it is outside the grammar",
        ScramMessageFault::Count => "its iteration count is out of range",
        ScramMessageFault::ChannelBinding => "its channel binding is not that of the login",
        ScramMessageFault::Nonce => "its nonce is not that of the login",
        ScramMessageFault::Empty => "it is empty",
        ScramMessageFault::Mechanism => "its mechanism is not that of the login",
    }
}

// What is wrong with the data of an OAUTHBEARER message.
fn oauth_text(fault: OauthFault) -> &'static str {
    match fault {
        OauthFault::Flag => "its first part is neither n nor y",
        OauthFault::ChannelBinding => "it demands channel binding",
        OauthFault::AuthzId => "its authorization identity has no end",
        OauthFault::Separator => "no byte 1 stands behind its header",
        OauthFault::Pair => "a pair of a key and a value has no =",
        OauthFault::Key => "a key is no word of letters",
        OauthFault::Value => "a value has a byte that is not allowed",
        OauthFault::TwiceAuth => "it has the key auth twice",
        OauthFault::NotOneByte => "the answer to a refusal is not the byte 1",
    }
}

// Why an OAUTHBEARER login failed.
fn oauth_refusal(why: OauthRefusal) -> &'static str {
    match why {
        OauthRefusal::Malformed => "the message has no bearer token",
        OauthRefusal::Refused => "the token was refused",
        OauthRefusal::Ended => "the client ended it behind a refusal",
    }
}

// The lowest number that stands for a negative one: lengths and counts of a message are signed.
const NEGATIVE: usize = 0x8000_0000_0000_0000;

// Whether the byte is one that people can read.
fn is_readable(byte: u8) -> bool {
    (0x20..0x7f).contains(&byte)
}

// The four bytes of a length, where people can read each of them: whoever sends such a length
// most likely speaks another protocol.
fn read_as_text(len: usize) -> Option<(u8, u8, u8, u8)> {
    let bytes = (
        (len / 0x100_0000 % 0x100) as u8,
        (len / 0x1_0000 % 0x100) as u8,
        (len / 0x100 % 0x100) as u8,
        (len % 0x100) as u8,
    );
    let readable = is_readable(bytes.0)
        && is_readable(bytes.1)
        && is_readable(bytes.2)
        && is_readable(bytes.3);
    if len <= 0xffff_ffff && readable {
        Some(bytes)
    } else {
        None
    }
}

// Writes that a message is too long, or that its length is negative.
fn write_length<W: fmt::Write>(limit: usize, len: usize, f: &mut fmt::Formatter<W>) -> fmt::Result {
    if len >= NEGATIVE {
        return write!(f, "message of a negative length, {}", len.cast_signed());
    }
    write!(f, "message of {len} bytes, above the limit {limit}")?;
    match read_as_text(len) {
        None => Ok(()),
        Some((a, b, c, d)) => {
            let text = (a as char, b as char, c as char, d as char);
            write!(
                f,
                ": its length reads `{}{}{}{}`, as if the other side spoke another protocol",
                text.0, text.1, text.2, text.3
            )
        }
    }
}

// Writes that a message has not as many elements as it tells.
fn write_count<W: fmt::Write>(
    count: usize,
    least: usize,
    left: usize,
    f: &mut fmt::Formatter<W>,
) -> fmt::Result {
    if count >= NEGATIVE {
        return write!(f, "a negative count of elements, {}", count.cast_signed());
    }
    write!(
        f,
        "{count} elements take {least} bytes, and {left} are left"
    )
}

// Writes an error that holds several numbers, one that may be negative, or a fault.
fn write_numbers<W: fmt::Write>(error: &PgWireError, f: &mut fmt::Formatter<W>) -> fmt::Result {
    match error {
        PgWireError::UnsupportedProtocolVersion(major, minor) => {
            write!(f, "protocol version {major}.{minor} is not supported")
        }
        PgWireError::MessageTooLarge(limit, len) => write_length(*limit, *len, f),
        PgWireError::InvalidElementCount(count, least, left) => {
            write_count(*count, *least, *left, f)
        }
        PgWireError::InvalidAuthenticationMessageCode(code) => {
            write!(f, "invalid authentication code {code}")
        }
        PgWireError::InvalidScramMessage(fault) => {
            write!(f, "invalid SCRAM message: {}", scram_text(*fault))
        }
        PgWireError::InvalidOauthMessage(fault) => {
            write!(f, "invalid OAUTHBEARER message: {}", oauth_text(*fault))
        }
        PgWireError::OAuthAuthenticationFailed(why) => {
            write!(f, "OAUTHBEARER login failed: {}", oauth_refusal(*why))
        }
        _ => Ok(()),
    }
}

impl fmt::Display for PgWireError {
    fn fmt<W: fmt::Write>(&self, f: &mut fmt::Formatter<W>) -> fmt::Result {
        if let Some(text) = plain_text(self) {
            return f.write_str(text);
        }
        if let Some((before, text, after)) = held_text(self) {
            return write!(f, "{before}{text}{after}");
        }
        match held_number(self) {
            Some((before, number, after)) => write!(f, "{before}{number}{after}"),
            None => write_numbers(self, f),
        }
    }
}

impl Error for PgWireError {}
