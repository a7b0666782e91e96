//! The data of a client's message (RFC 7628, section 3.1).
ghost use Rattle.std.specs.Prelude.{◌≡◌, ◌⊎◌, map, Ok, Err, IfOk, IfErr, None};
ghost use Rattle.std.specs.List.{list_all};
ghost use Rattle.std.specs.Option.{option_copied};
ghost use Rattle.pgw_login_sasl.specs.Data.{is_letter, is_value_byte, behind_byte, behind_header, with_auth_pair, with_pairs, auth_in};
ghost use Rattle.pgw_types.specs.declared.error.OauthFault.{OauthFault as Fault};
ghost use Rattle.pgw_types.specs.declared.error.PgWireError.TheVariants.{OutOfMemory as NoMemory};

use pgw_types::error::{OauthFault, PgWireError, PgWireResult};
use pgw_types::marks::{cut_at, pieces_at};
use std::alloc::Global;

// What separates the pairs.
const SEPARATOR: u8 = 1;

fn is_letter(byte: u8) -> bool
    ensures { result ≡ is_letter byte }
{
    (b'a' <= byte && byte <= b'z') || (b'A' <= byte && byte <= b'Z')
}

fn is_value_byte(byte: u8) -> bool
    ensures { result ≡ is_value_byte byte }
{
    (0x20 <= byte && byte <= 0x7e) || byte == b'\t' || byte == b'\r' || byte == b'\n'
}

fn are_letters(bytes: &[u8]) -> bool
    ensures { result ≡ list_all is_letter bytes.now }
{
    bytes.iter().all(|byte| is_letter(*byte))
}

fn is_value(bytes: &[u8]) -> bool
    ensures { result ≡ list_all is_value_byte bytes.now }
{
    bytes.iter().all(|byte| is_value_byte(*byte))
}

// What stands behind this byte.
fn behind_byte(bytes: &[u8], byte: u8, fault: OauthFault) -> Result<&[u8], OauthFault>
    ensures ok { IfOk result (λ rest. behind_byte byte fault bytes.now ≡ Ok rest.now) }
    ensures err { IfErr result (λ e. behind_byte byte fault bytes.now ≡ Err e) }
{
    match bytes {
        [first, rest @ ..] if *first == byte => Ok(rest),
        _ => Err(fault),
    }
}

// What stands behind the header.
fn behind_header(bytes: &[u8]) -> Result<&[u8], OauthFault>
    ensures ok { IfOk result (λ rest. behind_header bytes.now ≡ Ok rest.now) }
    ensures err { IfErr result (λ e. behind_header bytes.now ≡ Err e) }
{
    let rest = match bytes {
        [b'p', ..] => return Err(OauthFault::ChannelBinding),
        [b'n' | b'y', rest @ ..] => rest,
        _ => return Err(OauthFault::Flag),
    };
    let authzid = behind_byte(rest, b',', OauthFault::Flag)?;
    let end = behind_byte(authzid, b',', OauthFault::AuthzId)?;
    behind_byte(end, SEPARATOR, OauthFault::Separator)
}

// The value of `auth` once a pair is read, of the one before it.
#[tactic(auto, unfolding(crate::specs::Data::with_auth_pair))]
fn with_pair<'a>(auth: Option<&'a [u8]>, pair: &'a [u8]) -> Result<Option<&'a [u8]>, OauthFault>
    ensures ok { IfOk result (λ next. with_auth_pair (option_copied auth.entry) pair.now
        ≡ Ok (option_copied next)) }
    ensures err { IfErr result (λ e. with_auth_pair (option_copied auth.entry) pair.now ≡ Err e) }
{
    let (key, value) = cut_at(pair, b'=');
    let Some(value) = value else {
        return Err(OauthFault::Pair);
    };
    if !are_letters(key) {
        return Err(OauthFault::Key);
    }
    let is_auth = key == b"auth".as_slice();
    if is_auth && auth.is_some() {
        return Err(OauthFault::TwiceAuth);
    }
    if !is_value(value) {
        return Err(OauthFault::Value);
    }
    if is_auth && !value.is_empty() {
        Ok(Some(value))
    } else {
        Ok(auth)
    }
}

// The value of `auth` among pairs, which are read up to an empty one.
fn auth_of<'a>(pairs: &[&'a [u8]]) -> Result<Option<&'a [u8]>, OauthFault>
    ensures ok { IfOk result (λ auth. with_pairs None (map (λ pair. pair.now) pairs.now)
        ≡ Ok (option_copied auth)) }
    ensures err { IfErr result (λ e. with_pairs None (map (λ pair. pair.now) pairs.now) ≡ Err e) }
{
    let mut auth = None;
    for pair in pairs {
        if pair.is_empty() {
            return Ok(auth);
        }
        auth = with_pair(auth, pair)?;
    }
    Ok(auth)
}

/// The value of `auth` in the data, if there is one.
pub fn auth_in(alloc: Global, data: &str) -> PgWireResult<Option<&[u8]>>
    ensures ok { IfOk result (λ auth. auth_in data.now ≡ Ok (option_copied auth)) }
    ensures err { IfErr result (λ e. (e ≡ NoMemory)
        ⊎ ((why : Fault) × (e ≡ PgWireError.InvalidOauthMessage why)
        × (auth_in data.now ≡ Err why))) }
{
    let bytes = data.as_bytes();
    if bytes.is_empty() {
        return Ok(None);
    }
    let rest = match behind_header(bytes) {
        Ok(rest) => rest,
        Err(why) => return Err(PgWireError::InvalidOauthMessage(why)),
    };
    let pairs = pieces_at(alloc, rest, SEPARATOR)?;
    match auth_of(&pairs) {
        Ok(auth) => Ok(auth),
        Err(why) => Err(PgWireError::InvalidOauthMessage(why)),
    }
}
