//! One case: a decoder's name, and hex digits.

use crate::answer::answer;
use anyhow::{Result, bail};
use pgw_backend::backend::PgWireBackendMessage;
use pgw_control::cancel::CancelRequest;
use pgw_frontend::frontend::PgWireFrontendMessage;
use pgw_types::context::{DecodeContext, ProtocolVersion};
use std::alloc::Global;

// The phase in which each message has a type byte.
fn typed(version: ProtocolVersion) -> DecodeContext {
    DecodeContext {
        protocol_version: version,
        awaiting_frontend_ssl: false,
        awaiting_frontend_startup: false,
        awaiting_backend_ssl_response: false,
        awaiting_backend_gss_response: false,
    }
}

// The phase in which a server's answer of one byte is awaited.
fn awaiting_byte(is_ssl: bool) -> DecodeContext {
    let mut ctx = typed(ProtocolVersion::PROTOCOL3_2);
    ctx.awaiting_backend_ssl_response = is_ssl;
    ctx.awaiting_backend_gss_response = true;
    ctx
}

// The phase in which a client's first message is awaited, or a request in its place.
fn awaiting_first(request: bool) -> DecodeContext {
    let mut ctx = typed(ProtocolVersion::PROTOCOL3_0);
    ctx.awaiting_frontend_ssl = request;
    ctx.awaiting_frontend_startup = true;
    ctx
}

// The phase that a decoder's name tells.
fn context_of(decoder: &str) -> Result<DecodeContext> {
    match decoder {
        "server-3.2" => Ok(typed(ProtocolVersion::PROTOCOL3_2)),
        "server-3.0" | "client" => Ok(typed(ProtocolVersion::PROTOCOL3_0)),
        "server-ssl" => Ok(awaiting_byte(true)),
        "server-gss" => Ok(awaiting_byte(false)),
        "client-first" | "cancel" => Ok(awaiting_first(false)),
        "client-request" => Ok(awaiting_first(true)),
        _ => bail!("no decoder {decoder}"),
    }
}

// The bytes of hex digits, among which blanks may stand.
fn hex_bytes(alloc: Global, digits: &str) -> Result<Vec<u8>> {
    let digits: String = digits.chars().filter(|c| *c != ' ').collect(alloc)?;
    Ok(hex::decode(alloc, digits.as_str())?)
}

/// What the decoder that a case names makes of its bytes.
pub fn answer_of(alloc: Global, case: &str) -> Result<String> {
    let (decoder, digits) = case.split_once(' ').unwrap_or((case, ""));
    let bytes = hex_bytes(alloc, digits)?;
    let ctx = context_of(decoder)?;
    if decoder == "cancel" {
        answer::<CancelRequest>(alloc, &bytes, &ctx)
    } else if decoder.starts_with("server") {
        answer::<PgWireBackendMessage>(alloc, &bytes, &ctx)
    } else {
        answer::<PgWireFrontendMessage>(alloc, &bytes, &ctx)
    }
}
