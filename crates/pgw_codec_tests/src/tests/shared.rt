//! What the tests share. A test proves what it calls, so each comparison and each refusal's text is made here, once.

use bytes::BytesMut;
use pgw_types::context::{DecodeContext, ProtocolVersion};
use pgw_types::error::PgWireResult;
use pgw_types::listed::Duplicate;
use pgw_types::memory::OutOfMemory;
use pgw_wire::message::Message;
use std::alloc::{AllocError, Global};
use std::fmt::{Debug, Display};
use std::test::Fail;

/// That a text is the one that is wanted.
pub fn same(found: Result<String, OutOfMemory>, want: &str) -> Result<(), Fail> {
    let found = found?;
    if found.as_str() == want {
        return Ok(());
    }
    Err(Fail::new(format_args!("{} and not {want}", found.as_str())))
}

/// That bytes are those that are wanted.
pub fn same_bytes(found: PgWireResult<BytesMut>, want: &[u8]) -> Result<(), Fail> {
    let found = found?;
    if found.as_slice() == want {
        return Ok(());
    }
    Err(Fail::new(format_args!("{:?} and not {want:?}", found.as_slice())))
}

/// The phase in which each message has a type byte.
pub fn typed(version: ProtocolVersion) -> DecodeContext {
    DecodeContext {
        protocol_version: version,
        awaiting_frontend_ssl: false,
        awaiting_frontend_startup: false,
        awaiting_backend_ssl_response: false,
        awaiting_backend_gss_response: false,
    }
}

pub fn buffer(alloc: Global, bytes: &[u8]) -> Result<BytesMut, AllocError> {
    let mut buf = BytesMut::new(alloc);
    buf.extend_from_slice(bytes)?;
    Ok(buf)
}

/// How a value is shown. Of any type, since a type with many variants makes the proof of a `format!` long.
pub fn told<M: Debug + Drop>(alloc: Global, value: M) -> Result<String, OutOfMemory> {
    Ok(format!(in alloc; "{value:?}")?)
}

/// How a value is printed.
pub fn printed<M: Display + Drop>(alloc: Global, value: M) -> Result<String, OutOfMemory> {
    Ok(format!(in alloc; "{value}")?)
}

/// Why a message is not written behind a byte `x`.
pub fn refusal(
    alloc: Global,
    found: PgWireResult<()>,
    buf: &BytesMut,
) -> Result<String, OutOfMemory> {
    if buf.as_slice() == b"x".as_slice() {
        told(alloc, found)
    } else {
        drop(found);
        Ok(String::from_str(alloc, "something is written")?)
    }
}

/// Why a message of one type is not written.
pub fn refused<M: Message>(alloc: Global, message: &M) -> Result<String, OutOfMemory> {
    let mut buf = buffer(alloc, b"x")?;
    let found = message.encode(&mut buf);
    refusal(alloc, found, &buf)
}

/// What is written of a message.
pub fn encoded<M: Message>(alloc: Global, message: &M) -> PgWireResult<BytesMut> {
    let mut buf = BytesMut::new(alloc);
    message.encode(&mut buf)?;
    Ok(buf)
}

fn with_rest(alloc: Global, bytes: &[u8]) -> Result<BytesMut, AllocError> {
    let mut buf = buffer(alloc, bytes)?;
    buf.extend_from_slice(b"rest")?;
    Ok(buf)
}

fn read<M: Message + Drop>(alloc: Global, buf: &mut BytesMut) -> Result<M, Fail> {
    let ctx = typed(ProtocolVersion::PROTOCOL3_2);
    let found = M::decode(alloc, buf, &ctx)?;
    Ok(found.ok_or("nothing yet")?)
}

// Whether a copy of the message is the message, and is written so.
fn is_copied<M: Message + Duplicate + PartialEq + Drop>(
    alloc: Global,
    message: &M,
    bytes: &[u8],
) -> PgWireResult<bool> {
    let copy = message.duplicate()?;
    let out = encoded(alloc, &copy)?;
    Ok(copy == *message && out.as_slice() == bytes)
}

/// Whether the one message of the bytes is read, leaves what follows it, is copied, and is written as it was.
pub fn comes_back<M: Message + Duplicate + PartialEq + Drop>(
    alloc: Global,
    bytes: &[u8],
) -> Result<bool, Fail> {
    let mut buf = with_rest(alloc, bytes)?;
    let message = read::<M>(alloc, &mut buf)?;
    Ok(buf.as_slice() == b"rest".as_slice() && is_copied(alloc, &message, bytes)?)
}
