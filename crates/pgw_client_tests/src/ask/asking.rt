//! What a request of each kind is answered over a link in memory, and what is left of the client.

use pgw_client::{
    Answer, Config, DataRows, ExecuteResult, Listed, MemoryDialer, MemoryLink, Octets, OutOfMemory,
    PgWireClientError, PgWireClientResult, Request, Target,
};
use pgw_client_ask::ask;
use pgw_client_calls::PgWireClient;
use pgw_handlers_default::DefaultStartupHandler;
use std::alloc::Global;
use std::test::Fail;

type Client = PgWireClient<MemoryLink>;

// What a server says, by the message formats of the protocol.
const WELCOME: &[u8] = b"R\0\0\0\x08\0\0\0\0Z\0\0\0\x05I";

const PARSED: &[u8] = b"1\0\0\0\x04";

const BOUND: &[u8] = b"2\0\0\0\x04";

const CLOSED: &[u8] = b"3\0\0\0\x04";

const TYPES: &[u8] = b"t\0\0\0\x0a\0\x01\0\0\0\x17";

const COLUMNS: &[u8] = b"T\0\0\0\x1a\0\x01a\0\0\0\0\0\0\0\0\0\0\x17\0\x04\xff\xff\xff\xff\0\0";

const ROW: &[u8] = b"D\0\0\0\x0b\0\x01\0\0\0\x011";

const COMPLETE: &[u8] = b"C\0\0\0\x0dSELECT 1\0";

const SUSPENDED: &[u8] = b"s\0\0\0\x04";

const ERROR: &[u8] = b"E\0\0\0\x19SERROR\0CXX000\0Mboom\0\0";

const READY: &[u8] = b"Z\0\0\0\x05I";

// What is asked.
enum Kind {
    Simple,
    Prepare,
    Bind,
    Execute,
    DescribeStatement,
    DescribePortal,
    Close,
    Query,
}

// What comes of a request, how many of them, and whether the client is usable behind it.
type Outcome = (&'static str, usize, bool);

// What is asked, what the server says of it, and what comes of it.
type Case = (Kind, &'static [&'static [u8]], Outcome);

const CASES: &[Case] = &[
    (
        Kind::Simple,
        &[COLUMNS, ROW, COMPLETE, COMPLETE, READY],
        ("responses", 2, true),
    ),
    (
        Kind::Prepare,
        &[PARSED, TYPES, COLUMNS, READY],
        ("prepared named", 1, true),
    ),
    (Kind::Bind, &[BOUND], ("bound", 0, true)),
    (
        Kind::Execute,
        &[ROW, ROW, SUSPENDED],
        ("suspended", 2, true),
    ),
    (
        Kind::Execute,
        &[ROW, COMPLETE, READY],
        ("complete", 1, true),
    ),
    (
        Kind::DescribeStatement,
        &[TYPES, COLUMNS, READY],
        ("described with types", 1, true),
    ),
    (Kind::DescribePortal, &[COLUMNS], ("described", 1, true)),
    (Kind::Close, &[CLOSED, READY], ("closed", 0, true)),
    (
        Kind::Query,
        &[PARSED, BOUND, ROW, ROW, COMPLETE, READY],
        ("rows", 2, true),
    ),
    (Kind::Simple, &[ERROR, READY], ("remote", 0, true)),
    (Kind::Bind, &[ERROR, READY], ("remote", 0, true)),
    (Kind::Query, &[ERROR], ("remote error", 0, false)),
    (Kind::Prepare, &[PARSED], ("end", 0, false)),
    (Kind::Close, &[BOUND, READY], ("unexpected", 0, false)),
];

fn request_of(alloc: Global, kind: &Kind) -> Result<Request, OutOfMemory> {
    match kind {
        Kind::Simple => Request::simple(alloc, "SELECT 1; SELECT 1"),
        Kind::Prepare => Request::prepare(alloc, "s", "SELECT $1"),
        Kind::Bind => Request::bind(alloc, "", "s", &[Some("1")]),
        Kind::Execute => Request::execute(alloc, "", 2),
        Kind::DescribeStatement => Ok(Request::Describe(Target::Statement(None))),
        Kind::DescribePortal => Ok(Request::Describe(Target::Portal(None))),
        Kind::Close => Ok(Request::Close(Target::Statement(None))),
        Kind::Query => Request::query(alloc, "SELECT 1", &[]),
    }
}

fn error_name(error: &PgWireClientError) -> &'static str {
    match error {
        PgWireClientError::UnexpectedEOF => "end",
        PgWireClientError::RemoteError(_) => "remote error",
        PgWireClientError::UnexpectedMessage(_) => "unexpected",
        PgWireClientError::Broken => "Broken",
        _ => "another error",
    }
}

// How an answer that gives rows is called, and how many it gives.
fn executed_name(executed: &ExecuteResult<DataRows>) -> (&'static str, usize) {
    match executed {
        ExecuteResult::Suspended(rows) => ("suspended", rows.len()),
        ExecuteResult::Complete(rows) => ("complete", rows.len()),
    }
}

fn prepared_name(has_name: bool) -> &'static str {
    if has_name {
        "prepared named"
    } else {
        "prepared"
    }
}

fn described_name(has_types: bool) -> &'static str {
    if has_types {
        "described with types"
    } else {
        "described"
    }
}

// How an answer is called, and what it counts.
fn answer_name(answer: &Answer) -> (&'static str, usize) {
    match answer {
        Answer::Responses(responses) => ("responses", responses.as_slice().len()),
        Answer::Prepared(prepared) => (
            prepared_name(prepared.name.is_some()),
            prepared.param_types.as_slice().len(),
        ),
        Answer::Bound => ("bound", 0),
        Answer::Executed(executed) => executed_name(executed),
        Answer::Described(described) => (
            described_name(!described.param_types.is_empty()),
            described.fields.as_slice().len(),
        ),
        Answer::Closed => ("closed", 0),
        Answer::Rows(rows) => ("rows", rows.len()),
        Answer::Remote(_) => ("remote", 0),
    }
}

fn came_name(came: &PgWireClientResult<Answer>) -> (&'static str, usize) {
    match came {
        Ok(answer) => answer_name(answer),
        Err(error) => (error_name(error), 0),
    }
}

// Asks a request, and tells what came of it and whether the client can still be used.
fn asked(client: &mut Client, request: &Request) -> Outcome {
    let came = ask(client, request);
    let (name, count) = came_name(&came);
    drop(came);
    (name, count, !client.is_broken())
}

// A dialer of one link, to a server that says these pieces.
fn dialer_to(alloc: Global, pieces: &[&[u8]]) -> Result<Box<MemoryDialer>, OutOfMemory> {
    let mut said = Vec::new(alloc);
    said.extend_from_slice(WELCOME)?;
    for piece in pieces {
        said.extend_from_slice(piece)?;
    }
    let server = Octets::from_vec(said)?;
    let mut links = Listed::new(alloc);
    links.push(MemoryLink::new(alloc, server, 30, Listed::new(alloc), Listed::new(alloc)))?;
    Ok(Box::new(alloc, MemoryDialer::new(links, Listed::new(alloc)))?)
}

fn connected_by(alloc: Global, dialer: &mut MemoryDialer) -> Result<Box<Client>, Fail> {
    let config = Config::parse(alloc, "user=bob host=a")?;
    let handler = DefaultStartupHandler::new([0; 18]);
    let client = PgWireClient::connect(alloc, config, handler, dialer, 10_000);
    let client = client.ok().ok_or("no client")?;
    Ok(Box::new(alloc, client)?)
}

fn connected(alloc: Global, pieces: &[&[u8]]) -> Result<Box<Client>, Fail> {
    let mut dialer = dialer_to(alloc, pieces)?;
    connected_by(alloc, &mut dialer)
}

fn outcome(alloc: Global, kind: &Kind, pieces: &[&[u8]]) -> Result<Outcome, Fail> {
    let request = request_of(alloc, kind)?;
    let mut client = connected(alloc, pieces)?;
    Ok(asked(&mut client, &request))
}

#[test]
fn requests_are_answered(rt: HostRuntime) -> Result<(), Fail> {
    for (kind, pieces, wanted) in CASES {
        assert_eq!(rt; outcome(rt.alloc(), kind, pieces)?, *wanted);
    }
    Ok(())
}
