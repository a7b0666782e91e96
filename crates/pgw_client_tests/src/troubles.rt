//! One session over each limit, each early end and each failing call.
ghost use Rattle.std.specs.Prelude.{◌<◌};

use crate::session::{config_by, session};
use pgw_client::{
    Config, Listed, MemoryLink, Octets, OutOfMemory, PgWireClientError, PgWireClientResult,
    Request, SessionReport,
};
use std::alloc::Global;
use std::process::Abort;
use std::test::Fail;

// AuthenticationOk, ReadyForQuery; then a row of one field, its result and ReadyForQuery.
const SERVER: &[u8; 74] =
    b"R\0\0\0\x08\0\0\0\0Z\0\0\0\x05IT\0\0\0\x1a\0\x01a\0\0\0\0\0\0\0\0\0\0\x17\0\x04\xff\xff\xff\xff\0\0D\0\0\0\x0b\0\x01\0\0\0\x011C\0\0\0\rSELECT 1\0Z\0\0\0\x05I";

// So many of them end the startup.
const READY: usize = 15;

// The startup message, and the query.
const CLIENT: &[u8; 32] = b"\0\0\0\x12\0\x03\0\0user\0bob\0\0Q\0\0\0\rSELECT 1\0";

const STARTUP: usize = 18;

// The server's bytes, and the calls that fail by their numbers; no call has the number 0.
#[derive(Clone, Copy)]
struct Setting<'a> {
    server: &'a [u8],
    limit: u64,
    failing_read: u64,
    failing_write: u64,
}

const SOUND: Setting<'static> = Setting {
    server: SERVER,
    limit: 1000,
    failing_read: 0,
    failing_write: 0,
};

fn one(alloc: Global, number: u64) -> Result<Listed<u64>, OutOfMemory> {
    let mut numbers = Listed::new(alloc);
    numbers.push(number)?;
    Ok(numbers)
}

// How a session ends: the error's name, or Ok where its one request has its answer.
fn ending(answer: &PgWireClientResult<SessionReport>) -> &'static str {
    match answer {
        Ok(report) if report.answers.len() == 1 => "Ok",
        Err(PgWireClientError::UnexpectedEOF) => "UnexpectedEOF",
        Err(PgWireClientError::IoError) => "IoError",
        Err(PgWireClientError::ReadLimit) => "ReadLimit",
        _ => "another",
    }
}

fn link_of(alloc: Global, setting: &Setting<'_>, cut: usize) -> Result<Box<MemoryLink>, OutOfMemory>
    requires { 0 < cut }
{
    let server = Octets::from_slice(alloc, setting.server)?;
    let failing_reads = one(alloc, setting.failing_read)?;
    let failing_writes = one(alloc, setting.failing_write)?;
    let link = MemoryLink::new(alloc, server, cut, failing_reads, failing_writes);
    Ok(Box::new(alloc, link)?)
}

fn ending_of(
    alloc: Global,
    link: &mut MemoryLink,
    config: &Config,
    requests: &[Request],
    limit: u64,
) -> &'static str {
    let answer = session(alloc, link, config, requests, limit);
    let ended = ending(&answer);
    drop(answer);
    ended
}

fn end_by(
    alloc: Global,
    link: &mut MemoryLink,
    config: &Config,
    limit: u64,
) -> Result<&'static str, OutOfMemory> {
    let requests = [Request::simple(alloc, "SELECT 1")?];
    let ended = ending_of(alloc, link, config, &requests, limit);
    drop(requests);
    Ok(ended)
}

fn end_over(alloc: Global, link: &mut MemoryLink, limit: u64) -> Result<&'static str, Fail> {
    let config = config_by(alloc, "user=bob")?;
    let ended = end_by(alloc, link, &config, limit);
    drop(config);
    Ok(ended?)
}

// Compares what a session writes over the link, and how it ends, with what is wanted. The number tells a failure's case.
fn compare<R: Abort>(
    rt: &R,
    alloc: Global,
    link: &mut MemoryLink,
    limit: u64,
    want: (usize, &[u8], &str),
) -> Result<(), Fail> {
    let ended = end_over(alloc, link, limit)?;
    assert_eq!(rt; (want.0, link.written(), ended), want);
    Ok(())
}

// As `compare`, where at most so many bytes go at a time.
fn check<R: Abort>(
    rt: &R,
    alloc: Global,
    setting: &Setting<'_>,
    cut: usize,
    want: (usize, &[u8], &str),
) -> Result<(), Fail> {
    let mut link = link_of(alloc, setting, cut.max(1))?;
    let compared = compare(rt, alloc, &mut link, setting.limit, want);
    drop(link);
    compared
}

// What is written by a client that got so many bytes.
fn written_behind(count: usize) -> &'static [u8] {
    if count < READY {
        &CLIENT[..STARTUP]
    } else {
        CLIENT
    }
}

// How a session ends that stands so many bytes before its end.
fn ended_before(left: usize, trouble: &'static str) -> &'static str {
    if left > 0 { trouble } else { "Ok" }
}

#[test]
fn limits(rt: HostRuntime) -> Result<(), Fail> {
    for count in 0..=SERVER.len() {
        let setting = Setting {
            limit: count as u64,
            ..SOUND
        };
        let want = ended_before(SERVER.len() - count, "ReadLimit");
        check(
            &rt,
            rt.alloc(),
            &setting,
            1000,
            (count, written_behind(count), want),
        )?;
    }
    Ok(())
}

#[test]
fn early_ends(rt: HostRuntime) -> Result<(), Fail> {
    for count in 0..=SERVER.len() {
        let setting = Setting {
            server: &SERVER[..count],
            ..SOUND
        };
        let want = ended_before(SERVER.len() - count, "UnexpectedEOF");
        check(
            &rt,
            rt.alloc(),
            &setting,
            1000,
            (count, written_behind(count), want),
        )?;
    }
    Ok(())
}

// Byte by byte: the read behind so many bytes fails. Behind the last there is none.
#[test]
fn failing_reads(rt: HostRuntime) -> Result<(), Fail> {
    for count in 0..=SERVER.len() {
        let setting = Setting {
            failing_read: count as u64 + 1,
            ..SOUND
        };
        let want = ended_before(SERVER.len() - count, "IoError");
        check(
            &rt,
            rt.alloc(),
            &setting,
            1,
            (count, written_behind(count), want),
        )?;
    }
    Ok(())
}

// Byte by byte: the write behind so many bytes fails. Behind the last there is none.
#[test]
fn failing_writes(rt: HostRuntime) -> Result<(), Fail> {
    for count in 0..=CLIENT.len() {
        let setting = Setting {
            failing_write: count as u64 + 1,
            ..SOUND
        };
        let want = ended_before(CLIENT.len() - count, "IoError");
        check(
            &rt,
            rt.alloc(),
            &setting,
            1,
            (count, &CLIENT[..count], want),
        )?;
    }
    Ok(())
}

// The read and the write that fail, what is written, and how the session ends.
const AT_ONCE: &[(u64, u64, &[u8], &str)] = &[
    (1, 0, b"\0\0\0\x12\0\x03\0\0user\0bob\0\0", "IoError"),
    (2, 0, CLIENT, "Ok"),
    (3, 0, CLIENT, "Ok"),
    (0, 1, b"", "IoError"),
    (0, 2, b"\0\0\0\x12\0\x03\0\0user\0bob\0\0", "IoError"),
    (0, 3, CLIENT, "Ok"),
];

// All at once: a read brings all that the server says, and each message is one write.
#[test]
fn failing_calls_at_once(rt: HostRuntime) -> Result<(), Fail> {
    for (number, (failing_read, failing_write, written, ended)) in AT_ONCE.iter().enumerate() {
        let setting = Setting {
            failing_read: *failing_read,
            failing_write: *failing_write,
            ..SOUND
        };
        check(&rt, rt.alloc(), &setting, 1000, (number, written, ended))?;
    }
    Ok(())
}
