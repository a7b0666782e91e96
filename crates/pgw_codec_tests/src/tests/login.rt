//! A client's answers to an authentication request.

use crate::tests::refused::append;
use crate::tests::shared::{comes_back, refused, same, same_bytes, told};
use bytes::BytesMut;
use pgw_frontend::frontend::PgWireFrontendMessage;
use pgw_startup::password::{Password, PasswordMessageFamily};
use pgw_startup::sasl::{SASLInitialResponse, SASLResponse};
use pgw_types::error::PgWireResult;
use pgw_types::listed::Duplicate;
use pgw_types::memory::OutOfMemory;
use pgw_types::octets::Octets;
use pgw_types::text::Text;
use std::alloc::Global;
use std::test::Fail;

const PASSWORD: &[u8] = b"p\0\0\0\x0bsecret\0";

const INITIAL: &[u8] = b"p\0\0\0\x19SCRAM-SHA-256\0\0\0\0\x03n,,";

const RESPONSE: &[u8] = b"p\0\0\0\x0ac=biws";
// An initial response without data.
const NO_DATA: &[u8] = b"p\0\0\0\x0aX\0\xff\xff\xff\xff";

#[test]
fn typed_round_trips(rt: HostRuntime) -> Result<(), Fail> {
    let alloc = rt.alloc();
    assert!(rt; comes_back::<Password>(alloc, PASSWORD)?);
    assert!(rt; comes_back::<SASLResponse>(alloc, RESPONSE)?);
    for bytes in [INITIAL, NO_DATA] {
        assert!(rt; comes_back::<SASLInitialResponse>(alloc, bytes)?);
    }
    Ok(())
}

fn raw(alloc: Global, bytes: &[u8]) -> Result<PasswordMessageFamily, OutOfMemory> {
    Ok(PasswordMessageFamily::Raw(Octets::from_slice(alloc, bytes)?))
}

fn password(alloc: Global) -> Result<PasswordMessageFamily, OutOfMemory> {
    let text = Text::from_str(alloc, "secret")?;
    Ok(PasswordMessageFamily::Password(Password::new(text)))
}

fn initial(alloc: Global) -> Result<PasswordMessageFamily, OutOfMemory> {
    let payload = Octets::from_slice(alloc, b"n,,")?;
    let method = Text::from_str(alloc, "SCRAM-SHA-256")?;
    let message = SASLInitialResponse::new(method, Some(payload));
    Ok(PasswordMessageFamily::SASLInitialResponse(message))
}

fn response(alloc: Global) -> Result<PasswordMessageFamily, OutOfMemory> {
    let payload = Octets::from_slice(alloc, b"c=biws")?;
    Ok(PasswordMessageFamily::SASLResponse(SASLResponse::new(payload)))
}

/// Which message of the family.
#[derive(Clone, Copy)]
pub enum Kind {
    Raw,
    Password,
    Initial,
    Response,
}

/// A message of the kind.
pub fn family(alloc: Global, kind: Kind) -> Result<PasswordMessageFamily, OutOfMemory> {
    match kind {
        Kind::Raw => raw(alloc, b"secret"),
        Kind::Password => password(alloc),
        Kind::Initial => initial(alloc),
        Kind::Response => response(alloc),
    }
}

// Each message that has been read, its bytes, and its body.
const READ: &[(Kind, &[u8], &[u8])] = &[
    (Kind::Password, PASSWORD, b"secret\0"),
    (Kind::Initial, INITIAL, b"SCRAM-SHA-256\0\0\0\0\x03n,,"),
    (Kind::Response, RESPONSE, b"c=biws"),
];

fn copy_of(alloc: Global, kind: Kind) -> Result<PasswordMessageFamily, OutOfMemory> {
    let message = family(alloc, kind)?;
    let copy = message.duplicate();
    drop(message);
    copy
}

// How a copy is written among all messages of a client.
fn written(alloc: Global, kind: Kind) -> PgWireResult<BytesMut> {
    let copy = copy_of(alloc, kind)?;
    let mut buf = BytesMut::new(alloc);
    append(PgWireFrontendMessage::PasswordMessageFamily(copy), &mut buf)?;
    Ok(buf)
}

#[test]
fn messages_are_written(rt: HostRuntime) -> Result<(), Fail> {
    for (kind, bytes, _body) in READ {
        same_bytes(written(rt.alloc(), *kind), bytes)?;
    }
    Ok(())
}

// The message as one of the kind.
fn taken_as(
    alloc: Global,
    message: PasswordMessageFamily,
    kind: Kind,
) -> PgWireResult<PasswordMessageFamily> {
    Ok(match kind {
        Kind::Raw => message,
        Kind::Password => PasswordMessageFamily::Password(message.into_password(alloc)?),
        Kind::Initial => {
            PasswordMessageFamily::SASLInitialResponse(message.into_sasl_initial_response(alloc)?)
        }
        Kind::Response => PasswordMessageFamily::SASLResponse(message.into_sasl_response()?),
    })
}

fn body_taken(alloc: Global, kind: Kind, body: &[u8]) -> PgWireResult<PasswordMessageFamily> {
    taken_as(alloc, raw(alloc, body)?, kind)
}

fn is_family(
    alloc: Global,
    found: &PasswordMessageFamily,
    kind: Kind,
) -> Result<bool, OutOfMemory> {
    let want = family(alloc, kind)?;
    let is_family = want == *found;
    drop(want);
    Ok(is_family)
}

fn is_taken(alloc: Global, kind: Kind, body: &[u8]) -> PgWireResult<bool> {
    let found = body_taken(alloc, kind, body)?;
    let is_family = is_family(alloc, &found, kind);
    drop(found);
    Ok(is_family?)
}

#[test]
fn bodies_are_taken(rt: HostRuntime) -> Result<(), Fail> {
    for (kind, _bytes, body) in READ {
        assert!(rt; is_taken(rt.alloc(), *kind, body)?);
    }
    Ok(())
}

// Whether another message is taken as this kind.
fn other_taken(alloc: Global, other: Kind, kind: Kind) -> PgWireResult<PasswordMessageFamily> {
    taken_as(alloc, family(alloc, other)?, kind)
}

// An initial response without a method.
fn empty_method_refused(alloc: Global) -> Result<String, OutOfMemory> {
    refused(alloc, &SASLInitialResponse::new(Text::new(alloc), None))
}

const COERCED: &str = "Err(FailedToCoercePasswordMessage)";

#[test]
fn other_messages_are_refused(rt: HostRuntime) -> Result<(), Fail> {
    let alloc = rt.alloc();
    let short = body_taken(alloc, Kind::Password, b"secret");
    same(told(alloc, short), "Err(InvalidMessageBody)")?;
    let negative = body_taken(alloc, Kind::Initial, b"X\0\xff\xff\xff\xfe");
    same(told(alloc, negative), "Err(InvalidMessageBody)")?;
    let response = other_taken(alloc, Kind::Response, Kind::Password);
    same(told(alloc, response), COERCED)?;
    let password = other_taken(alloc, Kind::Password, Kind::Response);
    same(told(alloc, password), COERCED)?;
    same(empty_method_refused(alloc), "Err(InvalidMessageBody)")
}
