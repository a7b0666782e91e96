//! The callers to begin from, over one row.

use crate::pieces::{CLIENT, SERVER};
use bytes::BytesMut;
use example_dialogue::ask::ask;
use example_dialogue::push::over_pieces;
use pgw_client::{
    Answer, Config, Listed, MemoryLink, Octets, OutOfMemory, PgWireClientError, PgWireClientResult,
    Request, Response, SessionReport,
};
use std::alloc::Global;
use std::test::Fail;

// How many rows the one answer has.
fn rows_of(report: &SessionReport) -> usize {
    match report.answers.as_slice() {
        [Answer::Responses(responses)] => match responses.as_slice() {
            [Response::Query(_, _, rows)] => rows.len(),
            _ => 0,
        },
        _ => 0,
    }
}

fn ending(answer: &PgWireClientResult<SessionReport>) -> &'static str {
    match answer {
        Ok(report) if rows_of(report) == 1 => "one row",
        Err(PgWireClientError::UnexpectedEOF) => "an early end",
        _ => "another",
    }
}

fn asked(alloc: Global, link: &mut MemoryLink) -> &'static str {
    let answer = ask(alloc, link, "user=bob", "SELECT 1", &[0; 18], 1000);
    let ended = ending(&answer);
    drop(answer);
    ended
}

#[test]
fn one_row(rt: HostRuntime) -> Result<(), Fail> {
    let alloc = rt.alloc();
    let server = Octets::from_slice(alloc, SERVER)?;
    let mut link = MemoryLink::new(alloc, server, 8192, Listed::new(alloc), Listed::new(alloc));
    let ended = asked(alloc, &mut link);
    drop(link);
    assert_eq!(rt; ended, "one row");
    Ok(())
}

fn ending_of(
    alloc: Global,
    asked: (&Config, &[Request]),
    pieces: &[Octets],
    out: &mut BytesMut,
) -> &'static str {
    let (config, requests) = asked;
    let answer = over_pieces(alloc, config, requests, &[0; 18], 1000, pieces, out);
    let ended = ending(&answer);
    drop(answer);
    ended
}

fn pushed_by(
    alloc: Global,
    config: &Config,
    pieces: &[Octets],
    out: &mut BytesMut,
) -> Result<&'static str, OutOfMemory> {
    let requests = [Request::simple(alloc, "SELECT 1")?];
    let ended = ending_of(alloc, (config, &requests), pieces, out);
    drop(requests);
    Ok(ended)
}

// How a session over these pieces ends.
fn pushed(alloc: Global, pieces: &[Octets], out: &mut BytesMut) -> Result<&'static str, Fail> {
    let config = Config::parse(alloc, "user=bob")?;
    let ended = pushed_by(alloc, &config, pieces, out);
    drop(config);
    Ok(ended?)
}

// Two pieces that cut a message, and the first alone.
#[test]
fn one_row_in_pieces(rt: HostRuntime) -> Result<(), Fail> {
    let alloc = rt.alloc();
    let server = Octets::from_slice(alloc, SERVER)?;
    let pieces = [server.slice(0, 20)?, server.slice(20, 74)?];
    let mut out = BytesMut::new(alloc);
    assert_eq!(rt; pushed(alloc, &pieces, &mut out)?, "one row");
    assert_eq!(rt; out.as_slice(), CLIENT);
    assert_eq!(rt; pushed(alloc, &pieces[..1], &mut out)?, "an early end");
    Ok(())
}
