//! Which phase a client's codec reads a server's next byte in.

use crate::tests::shared::{buffer, same, told};
use bytes::BytesMut;
use pgw_codec::PgWireMessageClientCodec;
use pgw_control::gss_enc_request::GssEncRequest;
use pgw_control::ssl_request::SslRequest;
use pgw_ext::extendedquery::Sync;
use pgw_frontend::frontend::{PgWireFrontendMessage, SslNegotiationMetaMessage};
use pgw_query::simplequery::Query;
use pgw_types::context::ProtocolVersion;
use pgw_types::memory::OutOfMemory;
use pgw_types::text::Text;
use std::alloc::Global;
use std::test::Fail;

#[derive(Clone, Copy)]
enum Wrote {
    Ssl,
    Gss,
    NoRequest,
    Sync,
    /// A query with a zero byte, which has no spelling.
    Refused,
}

const FLAGS: &[(&[Wrote], &[u8], &str)] = &[
    (
        &[],
        b"Z\0\0\0\x05I",
        "Ok(Some(ReadyForQuery(ReadyForQuery { status: Idle })))",
    ),
    (&[Wrote::Ssl], b"S", "Ok(Some(SslResponse(Accept)))"),
    (&[Wrote::Ssl], b"N", "Ok(Some(SslResponse(Refuse)))"),
    (&[Wrote::Ssl], b"G", "Err(InvalidMessageType(71))"),
    (&[Wrote::Gss], b"G", "Ok(Some(GssEncResponse(Accept)))"),
    (&[Wrote::Gss], b"S", "Err(InvalidMessageType(83))"),
    (
        &[Wrote::Ssl, Wrote::Gss],
        b"G",
        "Err(InvalidMessageType(71))",
    ),
    (
        &[Wrote::Gss, Wrote::Ssl],
        b"S",
        "Ok(Some(SslResponse(Accept)))",
    ),
    (&[Wrote::Ssl, Wrote::NoRequest], b"S", "Ok(None)"),
    (&[Wrote::Gss, Wrote::Sync], b"G", "Ok(None)"),
    (
        &[Wrote::Ssl, Wrote::Refused],
        b"S",
        "Ok(Some(SslResponse(Accept)))",
    ),
];

fn unspelled(alloc: Global) -> Result<PgWireFrontendMessage, OutOfMemory> {
    let text = Text::from_str(alloc, "a\0b")?;
    Ok(PgWireFrontendMessage::Query(Query::new(text)))
}

fn request(kind: Wrote) -> SslNegotiationMetaMessage {
    match kind {
        Wrote::Ssl => SslNegotiationMetaMessage::PostgresSsl(SslRequest::new()),
        Wrote::Gss => SslNegotiationMetaMessage::PostgresGss(GssEncRequest::new()),
        _ => SslNegotiationMetaMessage::None,
    }
}

fn message(alloc: Global, kind: Wrote) -> Result<PgWireFrontendMessage, OutOfMemory> {
    match kind {
        Wrote::Refused => unspelled(alloc),
        Wrote::Sync => Ok(PgWireFrontendMessage::Sync(Sync::new())),
        _ => Ok(PgWireFrontendMessage::SslNegotiation(request(kind))),
    }
}

// Whether it is written, or nothing is.
fn write(
    alloc: Global,
    codec: &mut PgWireMessageClientCodec,
    kind: Wrote,
) -> Result<bool, OutOfMemory> {
    let message = message(alloc, kind)?;
    let mut out = BytesMut::new(alloc);
    let written = codec.encode(message, &mut out);
    let is_right = written.is_ok() || out.is_empty();
    drop(written);
    Ok(is_right)
}

fn write_all(
    alloc: Global,
    codec: &mut PgWireMessageClientCodec,
    kinds: &[Wrote],
) -> Result<bool, OutOfMemory> {
    for kind in kinds {
        if !write(alloc, codec, *kind)? {
            return Ok(false);
        }
    }
    Ok(true)
}

// What stands at the front.
fn next(
    alloc: Global,
    codec: &mut PgWireMessageClientCodec,
    buf: &mut BytesMut,
) -> Result<String, OutOfMemory> {
    let found = codec.decode(alloc, buf);
    told(alloc, found)
}

// What is read behind these messages, written one after the other.
fn read(alloc: Global, kinds: &[Wrote], bytes: &[u8]) -> Result<String, OutOfMemory> {
    let mut codec = PgWireMessageClientCodec::new(ProtocolVersion::PROTOCOL3_0);
    if !write_all(alloc, &mut codec, kinds)? {
        return Ok(String::from_str(alloc, "a refused message was written")?);
    }
    let mut buf = buffer(alloc, bytes)?;
    next(alloc, &mut codec, &mut buf)
}

#[test]
fn codec_flags(rt: HostRuntime) -> Result<(), Fail> {
    for (kinds, bytes, want) in FLAGS {
        same(read(rt.alloc(), kinds, bytes), want)?;
    }
    Ok(())
}

// A key of five bytes has a form under version 3.2 alone.
const KEY: &[u8] = b"K\0\0\0\x0d\0\0\0\x07\x01\x02\x03\x04\x05";

// Whether a message stands at the front.
fn is_next(alloc: Global, codec: &mut PgWireMessageClientCodec, buf: &mut BytesMut) -> bool {
    let found = codec.decode_from(alloc, buf);
    let is_next = matches!(&found, Ok(Some(_)));
    drop(found);
    is_next
}

#[test]
fn the_codec_reads_under_its_version(rt: HostRuntime) -> Result<(), Fail> {
    let alloc = rt.alloc();
    let mut codec = PgWireMessageClientCodec::new(ProtocolVersion::PROTOCOL3_0);
    let mut buf = buffer(alloc, KEY)?;
    same(next(alloc, &mut codec, &mut buf), "Err(InvalidMessageBody)")?;
    codec.set_protocol_version(ProtocolVersion::PROTOCOL3_2);
    assert!(rt; codec.protocol_version() == ProtocolVersion::PROTOCOL3_2);
    assert!(rt; is_next(alloc, &mut codec, &mut buf) && buf.is_empty());
    Ok(())
}
