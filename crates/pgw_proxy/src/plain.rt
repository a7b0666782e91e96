//! Messages that are passed on without values being made of them: those of queries, of rows and of
//! COPY, where a look at them shows that they are well formed, and leave the context as it is.
ghost use Rattle.std.specs.Prelude.{◌≡◌, ◌≤◌, ◌+◌, Bool, true, length};
ghost use Rattle.std.specs.Bool.{OnTrue};
ghost use Rattle.pgw_query.specs.declared.response.TransactionStatus.{TransactionStatus};
ghost use Rattle.pgw_query.specs.Rows.{status_byte};
ghost use Rattle.pgw_proxy.specs.declared.recorded.Side.TheVariants.{Client, Server};
ghost use Rattle.pgw_proxy.specs.Plain.{ArePlainColumns, ColumnTo, IsPlainKind, IsSettled, IsZeroEnded};
ghost use Rattle.pgw_proxy.specs.Plain.{PlainTo};

use crate::context::Context;
use crate::recorded::Side;
use memchr::memchr;
use pgw_wire::header::whole_end;

// Whether each message has a type byte, and no answer to a request for encryption is due.
pub fn is_settled(context: &Context) -> bool
    ensures { OnTrue result (IsSettled context.now) }
{
    let decode = &context.decode;
    !decode.awaiting_frontend_ssl
        && !decode.awaiting_frontend_startup
        && !decode.awaiting_backend_ssl_response
        && !decode.awaiting_backend_gss_response
}

// Whether the first zero byte is the last byte.
fn is_text(bytes: &[u8]) -> bool
    ensures { OnTrue result (IsZeroEnded bytes.now) }
{
    match memchr(0, bytes) {
        Some(zero) => zero + 1 == bytes.len(),
        None => false,
    }
}

// Where the column at the front ends: a name, and six numbers.
fn column_end(bytes: &[u8]) -> Option<usize>
    ensures { ColumnTo bytes.now result }
{
    let Some(zero) = memchr(0, bytes) else {
        return None;
    };
    if bytes.len() - zero < 19 {
        return None;
    }
    Some(zero + 19)
}

// Whether the bytes are as many columns as they say.
fn are_columns(body: &[u8]) -> bool
    ensures { OnTrue result (ArePlainColumns body.now) }
{
    if body.len() < 2 {
        return false;
    }
    let count = u16::from_be_bytes([body[0], body[1]]);
    if count > 0x7fff {
        return false;
    }
    let mut rest = &body[2..];
    for _ in 0..count {
        match column_end(rest) {
            Some(end) => rest = &rest[end..],
            None => return false,
        }
    }
    rest.is_empty()
}

// Whether the byte is a transaction's status.
fn is_status(byte: u8) -> bool
    ensures { OnTrue result ((status : TransactionStatus) × (byte ≡ status_byte status)) }
{
    match byte {
        b'I' => true,
        b'T' => true,
        b'E' => true,
        _ => false,
    }
}

// Whether the bytes are the body of a ReadyForQuery.
fn is_ready(body: &[u8]) -> bool
    ensures { OnTrue result (IsPlainKind Server true 90 body.now) }
{
    if body.len() != 1 {
        return false;
    }
    is_status(body[0])
}

// Whether a client's message is plain, by its type byte and its body.
fn is_plain_request(kind: u8, body: &[u8]) -> bool
    ensures { OnTrue result ((ready : Bool) → IsPlainKind Client ready kind body.now) }
{
    match kind {
        b'Q' => body.len() <= 1_073_741_818 && is_text(body),
        b'd' => body.len() <= 1_073_741_818,
        b'S' => body.is_empty(),
        _ => false,
    }
}

// Whether a server's message is plain, by its type byte and its body.
fn is_plain_answer(ready: bool, kind: u8, body: &[u8]) -> bool
    requires { length body.now + 4 ≤ 2147483647 }
    ensures { OnTrue result (IsPlainKind Server ready kind body.now) }
{
    match kind {
        b'D' => body.len() >= 2,
        b'd' => body.len() <= 1_073_741_818,
        b'C' => body.len() <= 29_996 && is_text(body),
        b'Z' => ready && is_ready(body),
        b'T' => are_columns(body),
        _ => false,
    }
}

fn is_plain(side: Side, ready: bool, kind: u8, body: &[u8]) -> bool
    requires { length body.now + 4 ≤ 2147483647 }
    ensures { OnTrue result (IsPlainKind side ready kind body.now) }
{
    match side {
        Side::Client => is_plain_request(kind, body),
        Side::Server => is_plain_answer(ready, kind, body),
    }
}

/// Where the message at the front ends, if it is whole and plain. That it is not says nothing.
pub fn plain_end(side: Side, ready: bool, bytes: &[u8]) -> Option<usize>
    ensures { PlainTo side ready bytes.now result }
{
    let Some(end) = whole_end(bytes) else {
        return None;
    };
    if end < 5 || end > 0x8000_0000 {
        return None;
    }
    if is_plain(side, ready, bytes[0], &bytes[5..end]) {
        Some(end)
    } else {
        None
    }
}
