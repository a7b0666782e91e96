//! Sessions whose bytes go in pieces of each size.
ghost use Rattle.std.specs.Prelude.{◌<◌};

use crate::session::{Mark, check_answers, link_of, session};
use pgw_client::{
    Config, MemoryLink, OutOfMemory, PgWireClientResult, ProtocolVersion, Request, SessionReport,
};
use std::alloc::Global;
use std::fmt::Debug;
use std::process::Abort;
use std::test::Fail;

// Simple queries and then Executes of the unnamed portal; the server's bytes, those that it is to get, and the answers.
struct Case<'a> {
    version: ProtocolVersion,
    queries: &'a [&'a str],
    executes: &'a [i32],
    server: &'a [u8],
    client: &'a [u8],
    answers: &'a [Mark],
}

const SELECT_ONE: Case<'static> = Case {
    version: ProtocolVersion::PROTOCOL3_0,
    queries: &["SELECT 1"],
    executes: &[],
    server: b"R\0\0\0\x08\0\0\0\0Z\0\0\0\x05I\
T\0\0\0\x1a\0\x01a\0\0\0\0\0\0\0\0\0\0\x17\0\x04\xff\xff\xff\xff\0\0D\0\0\0\x0b\0\x01\0\0\0\x011\
C\0\0\0\rSELECT 1\0Z\0\0\0\x05I",
    client: b"\0\0\0\x12\0\x03\0\0user\0bob\0\0Q\0\0\0\rSELECT 1\0",
    answers: &[("responses", 1)],
};

// The server names an older version, and a key of 32 bytes.
const NEGOTIATED: Case<'static> = Case {
    version: ProtocolVersion::PROTOCOL3_9999,
    queries: &[],
    executes: &[],
    server: b"R\0\0\0\x08\0\0\0\0v\0\0\0\x0c\0\x03\0\x02\0\0\0\0\
K\0\0\0\x28\0\0\0\x07\0\x01\x02\x03\x04\x05\x06\x07\x08\x09\x0a\x0b\x0c\x0d\x0e\x0f\
\x10\x11\x12\x13\x14\x15\x16\x17\x18\x19\x1a\x1b\x1c\x1d\x1e\x1fZ\0\0\0\x05I",
    client: b"\0\0\0\x12\0\x03\x27\x0fuser\0bob\0\0",
    answers: &[],
};

// One query of a transaction fails.
const TRANSACTION: Case<'static> = Case {
    version: ProtocolVersion::PROTOCOL3_0,
    queries: &["BEGIN", "SELECT 1", "FAIL", "ROLLBACK"],
    executes: &[],
    server: b"R\0\0\0\x08\0\0\0\0Z\0\0\0\x05I\
C\0\0\0\x0aBEGIN\0Z\0\0\0\x05TC\0\0\0\x07OK\0Z\0\0\0\x05T\
E\0\0\0\x19SERROR\0CXX000\0Mboom\0\0Z\0\0\0\x05E\
C\0\0\0\x0dROLLBACK\0Z\0\0\0\x05I",
    client: b"\0\0\0\x12\0\x03\0\0user\0bob\0\0\
Q\0\0\0\x0aBEGIN\0Q\0\0\0\x0dSELECT 1\0Q\0\0\0\x09FAIL\0Q\0\0\0\x0dROLLBACK\0",
    answers: &[
        ("responses", 1),
        ("responses", 1),
        ("remote", 0),
        ("responses", 1),
    ],
};

// The first Execute fails behind its result, the second has no query, and the third stops at its one row.
const EXECUTES: Case<'static> = Case {
    version: ProtocolVersion::PROTOCOL3_0,
    queries: &[],
    executes: &[0, 0, 1],
    server: b"R\0\0\0\x08\0\0\0\0Z\0\0\0\x05I\
C\0\0\0\x0dSELECT 0\0E\0\0\0\x19SERROR\0CXX000\0Mboom\0\0Z\0\0\0\x05I\
I\0\0\0\x04Z\0\0\0\x05I\
D\0\0\0\x0b\0\x01\0\0\0\x011s\0\0\0\x04",
    client: b"\0\0\0\x12\0\x03\0\0user\0bob\0\0\
E\0\0\0\x09\0\0\0\0\0H\0\0\0\x04S\0\0\0\x04\
E\0\0\0\x09\0\0\0\0\0H\0\0\0\x04S\0\0\0\x04\
E\0\0\0\x09\0\0\0\0\x01H\0\0\0\x04",
    answers: &[("remote", 0), ("complete", 0), ("suspended", 1)],
};

const CASES: &[Case<'static>] = &[SELECT_ONE, NEGOTIATED, TRANSACTION, EXECUTES];

fn simple_queries(alloc: Global, queries: &[&str]) -> Result<Vec<Request>, OutOfMemory> {
    let mut requests = Vec::new(alloc);
    for query in queries {
        requests.push(Request::simple(alloc, query)?)?;
    }
    Ok(requests)
}

fn requests_of(alloc: Global, case: &Case<'_>) -> Result<Vec<Request>, OutOfMemory> {
    let mut requests = simple_queries(alloc, case.queries)?;
    for rows in case.executes {
        requests.push(Request::execute(alloc, "", *rows)?)?;
    }
    Ok(requests)
}

fn config_of(alloc: Global, case: &Case<'_>) -> PgWireClientResult<Box<Config>> {
    let config = Config::parse(alloc, "user=bob")?;
    let mut config = boxed(alloc, config)?;
    config.protocol_version(case.version);
    Ok(config)
}

fn boxed(alloc: Global, config: Config) -> Result<Box<Config>, OutOfMemory> {
    Ok(Box::new(alloc, config)?)
}

fn report_by(
    alloc: Global,
    case: &Case<'_>,
    link: &mut MemoryLink,
    config: &Config,
) -> PgWireClientResult<SessionReport> {
    let requests = requests_of(alloc, case)?;
    let report = session(alloc, link, config, &requests, 1000);
    drop(requests);
    report
}

fn report_of(
    alloc: Global,
    case: &Case<'_>,
    link: &mut MemoryLink,
) -> PgWireClientResult<SessionReport> {
    let config = config_of(alloc, case)?;
    let report = report_by(alloc, case, link, &config);
    drop(config);
    report
}

fn check_answered<R: Abort>(
    rt: &R,
    alloc: Global,
    case: &Case<'_>,
    link: &mut MemoryLink,
) -> Result<(), Fail> {
    let report = report_of(alloc, case, link)?;
    check_answers(rt, report.answers.as_slice(), case.answers);
    drop(report);
    Ok(())
}

// Compares what a session writes over the link, and what it is answered, with what the case wants.
fn compare<R: Abort>(
    rt: &R,
    alloc: Global,
    case: &Case<'_>,
    link: &mut MemoryLink,
) -> Result<(), Fail> {
    check_answered(rt, alloc, case, link)?;
    assert_eq!(rt; link.written(), case.client);
    Ok(())
}

fn check_uncut<R: Abort>(rt: &R, alloc: Global, case: &Case<'_>) -> Result<(), Fail> {
    let mut link = link_of(alloc, case.server, 8192)?;
    let compared = compare(rt, alloc, case, &mut link);
    drop(link);
    compared
}

// A value as text.
fn shown<T: Debug + Drop>(alloc: Global, value: T) -> Result<String, OutOfMemory> {
    Ok(format!(in alloc; "{value:?}")?)
}

// The whole report of a session over the link, as text.
fn shown_over(alloc: Global, case: &Case<'_>, link: &mut MemoryLink) -> PgWireClientResult<String> {
    let report = report_of(alloc, case, link)?;
    Ok(shown(alloc, report)?)
}

fn shown_uncut(alloc: Global, case: &Case<'_>) -> PgWireClientResult<String> {
    let mut link = link_of(alloc, case.server, 8192)?;
    let text = shown_over(alloc, case, &mut link);
    drop(link);
    text
}

// Whether a session over the link reports this, and writes what the case wants.
fn is_same_over(
    alloc: Global,
    case: &Case<'_>,
    link: &mut MemoryLink,
    report: &str,
) -> PgWireClientResult<bool> {
    let text = shown_over(alloc, case, link)?;
    Ok(text.as_str() == report && link.written() == case.client)
}

// As `is_same_over`, where at most so many bytes go at a time.
fn is_same(alloc: Global, case: &Case<'_>, cut: usize, report: &str) -> PgWireClientResult<bool>
    requires { 0 < cut }
{
    let mut link = link_of(alloc, case.server, cut)?;
    let is_same = is_same_over(alloc, case, &mut link, report);
    drop(link);
    is_same
}

// The first of the cuts from 1 to 40 at which a session writes other than the case wants, or reports other than this.
fn first_other(alloc: Global, case: &Case<'_>, report: &str) -> PgWireClientResult<Option<usize>> {
    for cut in 1..41 {
        if !is_same(alloc, case, cut, report)? {
            return Ok(Some(cut));
        }
    }
    Ok(None)
}

fn other_than_uncut(alloc: Global, case: &Case<'_>) -> PgWireClientResult<Option<usize>> {
    let uncut = shown_uncut(alloc, case)?;
    let other = first_other(alloc, case, uncut.as_str());
    drop(uncut);
    other
}

#[test]
fn cuts_change_nothing(rt: HostRuntime) -> Result<(), Fail> {
    for case in CASES {
        check_uncut(&rt, rt.alloc(), case)?;
        assert_eq!(rt; other_than_uncut(rt.alloc(), case)?, None);
    }
    Ok(())
}
