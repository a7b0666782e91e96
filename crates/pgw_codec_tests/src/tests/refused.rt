//! Messages that no bytes are read as: what is written of them, and what is not.

use crate::tests::shared::{buffer, refusal, refused, same, same_bytes};
use bytes::BytesMut;
use pgw_backend::backend::PgWireBackendMessage;
use pgw_control::cancel::CancelRequest;
use pgw_ext::extendedquery::PortalSuspended;
use pgw_frontend::frontend::{PgWireFrontendMessage, SslNegotiationMetaMessage};
use pgw_query::response::CommandComplete;
use pgw_startup::startup::Startup;
use pgw_types::error::PgWireResult;
use pgw_types::memory::OutOfMemory;
use pgw_types::octets::Octets;
use pgw_types::text::Text;
use pgw_wire::secret_key::SecretKey;
use std::alloc::Global;
use std::test::Fail;

// As many letters.
fn long_text(alloc: Global, count: u32) -> Result<Text, OutOfMemory> {
    let mut long = String::new(alloc);
    for _ in 0..count {
        long.push('a')?;
    }
    Ok(Text::from_string(long))
}

// A tag of 80000 bytes.
fn long_tag(alloc: Global) -> Result<PgWireBackendMessage, OutOfMemory> {
    let tag = long_text(alloc, 80000)?;
    Ok(PgWireBackendMessage::CommandComplete(CommandComplete::new(tag)))
}

fn append_of_server(message: PgWireBackendMessage, buf: &mut BytesMut) -> PgWireResult<()> {
    let written = message.encode(buf);
    drop(message);
    written
}

fn long_tag_refused(alloc: Global) -> Result<String, OutOfMemory> {
    let mut buf = buffer(alloc, b"x")?;
    let found = append_of_server(long_tag(alloc)?, &mut buf);
    refusal(alloc, found, &buf)
}

/// Writes one message of a client.
pub fn append(message: PgWireFrontendMessage, buf: &mut BytesMut) -> PgWireResult<()> {
    let written = message.encode(buf);
    drop(message);
    written
}

// A user name of 10000 bytes.
fn long_startup(alloc: Global) -> Result<PgWireFrontendMessage, OutOfMemory> {
    let mut startup = Startup::new(alloc);
    let name = Text::from_str(alloc, "user")?;
    startup.parameters.insert(name, long_text(alloc, 10000)?)?;
    Ok(PgWireFrontendMessage::Startup(startup))
}

fn long_startup_refused(alloc: Global) -> Result<String, OutOfMemory> {
    let mut buf = buffer(alloc, b"x")?;
    let found = append(long_startup(alloc)?, &mut buf);
    refusal(alloc, found, &buf)
}

fn short_key(alloc: Global) -> Result<CancelRequest, OutOfMemory> {
    let key = Octets::from_slice(alloc, b"abc")?;
    Ok(CancelRequest::new(7, SecretKey::Bytes(key)))
}

#[test]
fn what_has_no_spelling_is_refused(rt: HostRuntime) -> Result<(), Fail> {
    let alloc = rt.alloc();
    same(
        long_tag_refused(alloc),
        "Err(MessageTooLarge(30000, 80005))",
    )?;
    same(
        long_startup_refused(alloc),
        "Err(MessageTooLarge(10000, 10015))",
    )?;
    same(refused(alloc, &short_key(alloc)?), "Err(InvalidSecretKey)")
}

fn only_written(alloc: Global) -> PgWireResult<BytesMut> {
    let mut buf = buffer(alloc, b"ab")?;
    let none = SslNegotiationMetaMessage::None;
    append(PgWireFrontendMessage::SslNegotiation(none), &mut buf)?;
    append(
        PgWireFrontendMessage::PortalSuspended(PortalSuspended::new()),
        &mut buf,
    )?;
    Ok(buf)
}

#[test]
fn messages_that_are_only_written(rt: HostRuntime) -> Result<(), Fail> {
    same_bytes(only_written(rt.alloc()), b"abs\0\0\0\x04")
}
