//! A session in pieces, and a session over a link.
ghost use Rattle.std.specs.Prelude.{◌<◌};

use bytes::BytesMut;
use pgw_client::{
    Config, Listed, MemoryLink, Octets, PgWireClientResult, Request, SessionReport, Text,
    run_session,
};
use pgw_dialogue::{Dialogue, DialoguePhase};
use std::alloc::{AllocError, Global};
use std::fmt;
use std::test::Fail;

// AuthenticationOk, ReadyForQuery; then a row of one field, its result and ReadyForQuery.
pub const SERVER: &[u8; 74] =
    b"R\0\0\0\x08\0\0\0\0Z\0\0\0\x05IT\0\0\0\x1a\0\x01a\0\0\0\0\0\0\0\0\0\0\x17\0\x04\xff\xff\xff\xff\0\0D\0\0\0\x0b\0\x01\0\0\0\x011C\0\0\0\rSELECT 1\0Z\0\0\0\x05I";

// The startup message, and the query.
pub const CLIENT: &[u8] = b"\0\0\0\x12\0\x03\0\0user\0bob\0\0Q\0\0\0\rSELECT 1\0";

fn select_one(alloc: Global) -> Result<Vec<Request>, Fail> {
    let mut requests = Vec::new(alloc);
    requests.push(Request::Simple(Text::from_str(alloc, "SELECT 1")?))?;
    Ok(requests)
}

// A value as text.
fn shown<T: fmt::Debug + Drop>(alloc: Global, value: T) -> Result<String, AllocError> {
    format!(in alloc; "{value:?}")
}

// A session over the link. It has no clause, since those of a session make what calls it dear.
fn session(
    alloc: Global,
    link: &mut MemoryLink,
    config: &Config,
    requests: &[Request],
) -> PgWireClientResult<SessionReport> {
    run_session(alloc, link, config, requests, &[0; 18], 1000)
}

fn report_by(alloc: Global, link: &mut MemoryLink, config: &Config) -> Result<String, Fail> {
    let requests = select_one(alloc)?;
    let report = session(alloc, link, config, &requests);
    drop(requests);
    Ok(shown(alloc, report?)?)
}

fn report_over(alloc: Global, link: &mut MemoryLink) -> Result<String, Fail> {
    let config = Config::parse(alloc, "user=bob")?;
    let report = report_by(alloc, link, &config);
    drop(config);
    report
}

fn written_over(alloc: Global, link: &mut MemoryLink) -> Result<(Vec<u8>, String), Fail> {
    let report = report_over(alloc, link)?;
    Ok((link.written().to_vec(alloc)?, report))
}

// What a session over a link writes, and its report as text.
fn over_link(alloc: Global) -> Result<(Vec<u8>, String), Fail> {
    let server = Octets::from_slice(alloc, SERVER)?;
    let mut link = MemoryLink::new(alloc, server, 50, Listed::new(alloc), Listed::new(alloc));
    let written = written_over(alloc, &mut link);
    drop(link);
    written
}

// The report of a dialogue that is given pieces of this size, as text.
fn report_in_pieces(
    alloc: Global,
    config: &Config,
    requests: &[Request],
    size: usize,
    out: &mut BytesMut,
) -> Result<String, Fail>
    requires { 0 < size }
{
    let mut dialogue = Dialogue::start(alloc, config, requests, &[0; 18], 1000, out)?;
    for piece in SERVER.chunks(size) {
        match dialogue.take(piece, out) {
            Ok(DialoguePhase::Waiting | DialoguePhase::Ready) => {}
            Ok(DialoguePhase::Done) => return Ok(shown(alloc, dialogue.report())?),
            Err(error) => {
                drop(dialogue);
                return Err(Fail::from(error));
            }
        }
    }
    drop(dialogue);
    Ok(String::new(alloc))
}

fn in_pieces_by(alloc: Global, config: &Config, size: usize) -> Result<(Vec<u8>, String), Fail>
    requires { 0 < size }
{
    let requests = select_one(alloc)?;
    let mut out = BytesMut::new(alloc);
    let report = report_in_pieces(alloc, config, requests.as_slice(), size, &mut out);
    drop(requests);
    let written = out.as_slice().to_vec(alloc);
    drop(out);
    let report = report?;
    Ok((written?, report))
}

// What such a dialogue puts out, and its report.
fn in_pieces(alloc: Global, size: usize) -> Result<(Vec<u8>, String), Fail>
    requires { 0 < size }
{
    let config = Config::parse(alloc, "user=bob")?;
    let written = in_pieces_by(alloc, &config, size);
    drop(config);
    written
}

#[test]
fn dialogue_pieces(rt: HostRuntime) -> Result<(), Fail> {
    let alloc = rt.alloc();
    let (written, reported) = over_link(alloc)?;
    assert_eq!(rt; written.as_slice(), CLIENT);
    for size in [1, 7, 74] {
        let (sent, report) = in_pieces(alloc, size)?;
        assert_eq!(rt; sent.as_slice(), CLIENT, "{size}");
        assert_eq!(rt; report.as_str(), reported.as_str(), "{size}");
    }
    Ok(())
}
