//! Requests that are asked one at a time, and their answers.
ghost use Rattle.std.specs.Prelude.{◌<◌};

use bytes::BytesMut;
use pgw_client_push::PushClient;
use pgw_config::config::Config;
use pgw_session::types::{Answer, Request, Response};
use pgw_types::text::Text;
use std::alloc::Global;
use std::process::Abort;
use std::test::Fail;

// AuthenticationOk, ReadyForQuery.
pub const LOGIN: &[u8] = b"R\0\0\0\x08\0\0\0\0Z\0\0\0\x05I";

// A row of one field, its command tag, ReadyForQuery.
pub const ROW: &[u8] =
    b"T\0\0\0\x1a\0\x01a\0\0\0\0\0\0\0\0\0\0\x17\0\x04\xff\xff\xff\xff\0\0D\0\0\0\x0b\0\x01\0\0\0\x011C\0\0\0\rSELECT 1\0Z\0\0\0\x05I";

// A division by zero, and ReadyForQuery.
const ERROR: &[u8] = b"E\0\0\0\x13SERROR\0C22012\0\0Z\0\0\0\x05I";

// A notice, a command without rows, and ReadyForQuery.
const NOTICE: &[u8] = b"N\0\0\0\x0dSNOTICE\0\0C\0\0\0\x08SET\0Z\0\0\0\x05T";

/// What three requests are answered.
pub type Three = (&'static str, &'static str, &'static str);

// The startup message, and three queries.
const SENT: &[u8] =
    b"\0\0\0\x12\0\x03\0\0user\0bob\0\0Q\0\0\0\rSELECT 1\0Q\0\0\0\x0fSELECT 1/0\0Q\0\0\0\x13SET a.b TO 'c'\0";

pub fn log_in(alloc: Global, limit: u64, out: &mut BytesMut) -> Result<PushClient, Fail> {
    let config = Config::parse(alloc, "user=bob")?;
    out.clear();
    Ok(PushClient::start(alloc, config, &[0; 18], limit, out)?)
}

pub fn simple(alloc: Global, query: &str) -> Result<Request, Fail> {
    Ok(Request::Simple(Text::from_str(alloc, query)?))
}

/// Gives a client bytes in pieces of this size, and says whether it can be asked then.
pub fn given(
    client: &mut PushClient,
    bytes: &[u8],
    size: usize,
    out: &mut BytesMut,
) -> Result<bool, Fail>
    requires { 0 < size }
{
    for piece in bytes.chunks(size) {
        if !client.is_open() || client.room() < piece.len() as u64 {
            return Ok(false);
        }
        client.take(piece, out)?;
    }
    Ok(client.is_idle())
}

fn rows_of(responses: &[Response]) -> &'static str {
    match responses {
        [Response::Query(_, _, rows)] if rows.len() == 1 => "one row",
        [Response::Execution(_)] => "a command",
        _ => "other responses",
    }
}

fn told(answer: &Option<Answer>) -> &'static str {
    match answer {
        Some(Answer::Responses(responses)) => rows_of(responses.as_slice()),
        Some(Answer::Remote(_)) => "an error",
        Some(_) => "another answer",
        None => "no answer",
    }
}

/// Takes the answer of the segment that has closed, and tells what it is.
pub fn taken(client: &mut PushClient) -> &'static str {
    if !client.is_idle() {
        return "not idle";
    }
    let answer = client.take_answer();
    told(&answer)
}

/// Asks a query, gives what the server answers, and tells what the answer is.
pub fn asked(
    alloc: Global,
    client: &mut PushClient,
    query: &str,
    bytes: &[u8],
    size: usize,
    out: &mut BytesMut,
) -> Result<&'static str, Fail>
    requires { 0 < size }
{
    if !client.is_idle() {
        return Ok("not idle");
    }
    client.ask(simple(alloc, query)?, out)?;
    if !given(client, bytes, size, out)? {
        return Ok("not whole");
    }
    Ok(taken(client))
}

fn asked_three(
    alloc: Global,
    client: &mut PushClient,
    size: usize,
    out: &mut BytesMut,
) -> Result<Three, Fail>
    requires { 0 < size }
{
    given(client, LOGIN, size, out)?;
    let first = asked(alloc, client, "SELECT 1", ROW, size, out)?;
    let second = asked(alloc, client, "SELECT 1/0", ERROR, size, out)?;
    let third = asked(alloc, client, "SET a.b TO 'c'", NOTICE, size, out)?;
    Ok((first, second, third))
}

fn three(alloc: Global, size: usize, out: &mut BytesMut) -> Result<Three, Fail>
    requires { 0 < size }
{
    let mut client = log_in(alloc, 1000, out)?;
    asked_three(alloc, &mut client, size, out)
}

fn check<R: Abort>(rt: &R, size: usize, answers: Three, sent: &[u8]) {
    assert_eq!(rt;
        (size, answers),
        (size, ("one row", "an error", "a command"))
    );
    assert_eq!(rt; (size, sent), (size, SENT));
}

#[test]
fn each_request_has_its_own_answer(rt: HostRuntime) -> Result<(), Fail> {
    for size in [1, 3, 8, 200] {
        let mut out = BytesMut::new(rt.alloc());
        let answers = three(rt.alloc(), size, &mut out)?;
        check(&rt, size, answers, out.as_slice());
    }
    Ok(())
}
