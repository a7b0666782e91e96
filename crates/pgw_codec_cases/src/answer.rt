//! What a decoder makes of some bytes.

use anyhow::{Context, Result, ensure};
use bytes::BytesMut;
use pgw_backend::backend::PgWireBackendMessage;
use pgw_control::cancel::CancelRequest;
use pgw_frontend::frontend::PgWireFrontendMessage;
use pgw_types::context::DecodeContext;
use pgw_types::error::PgWireResult;
use pgw_types::listed::Duplicate;
use pgw_wire::message::Message;
use std::alloc::Global;

/// What is read and written.
pub trait Coded: Sized + Drop + Duplicate + PartialEq {
    fn read(alloc: Global, buf: &mut BytesMut, ctx: &DecodeContext) -> PgWireResult<Option<Self>>;

    fn write(&self, buf: &mut BytesMut) -> PgWireResult<()>;
}

impl Coded for PgWireBackendMessage {
    fn read(alloc: Global, buf: &mut BytesMut, ctx: &DecodeContext) -> PgWireResult<Option<Self>> {
        PgWireBackendMessage::decode(alloc, buf, ctx)
    }

    fn write(&self, buf: &mut BytesMut) -> PgWireResult<()> {
        self.encode(buf)
    }
}

impl Coded for PgWireFrontendMessage {
    fn read(alloc: Global, buf: &mut BytesMut, ctx: &DecodeContext) -> PgWireResult<Option<Self>> {
        PgWireFrontendMessage::decode(alloc, buf, ctx)
    }

    fn write(&self, buf: &mut BytesMut) -> PgWireResult<()> {
        self.encode(buf)
    }
}

impl Coded for CancelRequest {
    fn read(alloc: Global, buf: &mut BytesMut, ctx: &DecodeContext) -> PgWireResult<Option<Self>> {
        CancelRequest::decode(alloc, buf, ctx)
    }

    fn write(&self, buf: &mut BytesMut) -> PgWireResult<()> {
        self.encode(buf)
    }
}

// How a copy of a message is written that was read from these bytes.
fn written<M: Coded>(alloc: Global, message: &M, read: &[u8]) -> Result<String> {
    let copy = message.duplicate()?;
    ensure!(copy == *message, "a copy differs");
    let mut out = BytesMut::new(alloc);
    copy.write(&mut out)?;
    if out.as_slice() == read {
        return Ok(String::from_str(alloc, "as they were")?);
    }
    let digits = hex::encode(alloc, out.as_slice())?;
    Ok(format!(in alloc; "as [{digits}]")?)
}

// What is told of a message at the front of some bytes, of which these are left.
fn message_told<M: Coded>(alloc: Global, message: &M, bytes: &[u8], left: &[u8]) -> Result<String> {
    let read = bytes
        .strip_suffix(left)
        .context("what stands behind the message is not left")?;
    let written = written(alloc, message, read)?;
    let count = read.len();
    let behind = left.len();
    Ok(format!(in alloc; "{count} bytes read, written {written}, {behind} left")?)
}

/// What the decoder makes of the bytes.
pub fn answer<M: Coded>(alloc: Global, bytes: &[u8], ctx: &DecodeContext) -> Result<String> {
    let mut buf = BytesMut::new(alloc);
    buf.extend_from_slice(bytes)?;
    match M::read(alloc, &mut buf, ctx) {
        Ok(Some(message)) => message_told(alloc, &message, bytes, buf.as_slice()),
        Ok(None) => Ok(String::from_str(alloc, "nothing yet")?),
        Err(refusal) => Ok(format!(in alloc; "{refusal:?}")?),
    }
}
