//! What is refused, what stays after it, and what comes too early or too late.

use crate::push::asking::{LOGIN, ROW, Three, asked, given, log_in, simple, taken};
use bytes::BytesMut;
use pgw_backend::client_error::{PgWireClientError, PgWireClientResult};
use pgw_client_push::PushClient;
use std::alloc::Global;
use std::test::Fail;

fn name_of(error: &PgWireClientError) -> &'static str {
    match error {
        PgWireClientError::UnexpectedEOF => "UnexpectedEOF",
        PgWireClientError::UnexpectedMessage(_) => "UnexpectedMessage",
        PgWireClientError::PgWireError(_) => "PgWireError",
        PgWireClientError::ReadLimit => "ReadLimit",
        _ => "another error",
    }
}

// What came of a call, which is named so where it went well.
fn came_name<T>(came: &PgWireClientResult<T>, fine: &'static str) -> &'static str {
    match came {
        Ok(_) => fine,
        Err(error) => name_of(error),
    }
}

// What a query is answered at once.
fn ask_alone(
    alloc: Global,
    client: &mut PushClient,
    query: &str,
    out: &mut BytesMut,
) -> Result<&'static str, Fail> {
    if !client.is_idle() {
        return Ok("not idle");
    }
    let came = client.ask(simple(alloc, query)?, out);
    Ok(came_name(&came, "asked"))
}

// A query with a byte 0 has no spelling; the next one is asked and answered.
fn refused_then_asked(
    alloc: Global,
    client: &mut PushClient,
    out: &mut BytesMut,
) -> Result<(&'static str, &'static str, usize), Fail> {
    given(client, LOGIN, 100, out)?;
    out.clear();
    let refused = ask_alone(alloc, client, "SELECT \0", out)?;
    let sent = out.len();
    let answered = asked(alloc, client, "SELECT 1", ROW, 100, out)?;
    Ok((refused, answered, sent))
}

#[test]
fn a_refused_request_changes_nothing(rt: HostRuntime) -> Result<(), Fail> {
    let alloc = rt.alloc();
    let mut out = BytesMut::new(alloc);
    let mut client = log_in(alloc, 1000, &mut out)?;
    let answers = refused_then_asked(alloc, &mut client, &mut out);
    drop(client);
    drop(out);
    assert_eq!(rt; answers?, ("PgWireError", "one row", 0));
    Ok(())
}

fn login_and_row(alloc: Global) -> Result<Vec<u8>, Fail> {
    let mut bytes = LOGIN.to_vec(alloc)?;
    bytes.extend_from_slice(ROW)?;
    Ok(bytes)
}

// What comes behind the end of a segment belongs to the next request: here all of its answer.
fn early(alloc: Global, client: &mut PushClient, out: &mut BytesMut) -> Result<&'static str, Fail> {
    let bytes = login_and_row(alloc)?;
    given(client, bytes.as_slice(), 200, out)?;
    ask_alone(alloc, client, "SELECT 1", out)?;
    Ok(taken(client))
}

#[test]
fn bytes_behind_a_segment_are_kept(rt: HostRuntime) -> Result<(), Fail> {
    let alloc = rt.alloc();
    let mut out = BytesMut::new(alloc);
    let mut client = log_in(alloc, 1000, &mut out)?;
    let told = early(alloc, &mut client, &mut out);
    drop(client);
    drop(out);
    assert_eq!(rt; told?, "one row");
    Ok(())
}

// What is answered twice, and where no byte more may be taken.
fn twice(alloc: Global, client: &mut PushClient, out: &mut BytesMut) -> Result<Three, Fail> {
    given(client, LOGIN, 100, out)?;
    let first = asked(alloc, client, "SELECT 1", ROW, 100, out)?;
    let second = taken(client);
    Ok((first, second, ask_alone(alloc, client, "SELECT 1", out)?))
}

#[test]
fn an_answer_is_handed_out_once(rt: HostRuntime) -> Result<(), Fail> {
    let alloc = rt.alloc();
    let mut out = BytesMut::new(alloc);
    let mut client = log_in(alloc, 74, &mut out)?;
    let told = twice(alloc, &mut client, &mut out);
    drop(client);
    drop(out);
    assert_eq!(rt; told?, ("one row", "no answer", "ReadLimit"));
    Ok(())
}

// The end of the bytes, and what a client with this limit answers to all of them.
fn end_behind(client: &mut PushClient, bytes: &[u8], out: &mut BytesMut) -> &'static str {
    if !client.is_open() || client.room() < bytes.len() as u64 {
        return "closed";
    }
    let taken = came_name(&client.take(bytes, out), "idle");
    if client.is_open() {
        name_of(&client.at_end())
    } else {
        taken
    }
}

fn end_of(alloc: Global, limit: u64, bytes: &[u8]) -> Result<&'static str, Fail> {
    let mut out = BytesMut::new(alloc);
    let mut client = log_in(alloc, limit, &mut out)?;
    Ok(end_behind(&mut client, bytes, &mut out))
}

const ENDS: &[(u64, &[u8], &str)] = &[
    (100, b"R\0\0", "UnexpectedEOF"),
    (15, LOGIN, "idle"),
    (14, b"R\0\0\0\x08\0\0\0\0Z\0\0\0\x05", "ReadLimit"),
    (100, b"?\0\0\0\x04", "PgWireError"),
    (
        100,
        b"R\0\0\0\x08\0\0\0\0D\0\0\0\x06\0\0",
        "UnexpectedMessage",
    ),
];

#[test]
fn ends_have_their_causes(rt: HostRuntime) -> Result<(), Fail> {
    for (limit, bytes, name) in ENDS {
        assert_eq!(rt; end_of(rt.alloc(), *limit, bytes)?, *name);
    }
    Ok(())
}
