//! What each call of a client sends, what it is answered, and whether the client can still be used.
ghost use Rattle.pgw_tokio.specs.Asking.{CanAsk};

use crate::clients::logged_in;
use crate::servers::{LOGIN, play_one};
use futures::executor::block_on;
use pgw_backend::client_error::{PgWireClientError, PgWireClientResult};
use pgw_session::types::{Answer, DescribeResponse, ExecuteResult, Request, Target};
use pgw_tokio::{Answered, Asking, AsyncClient};
use pgw_types::memory::OutOfMemory;
use pgw_types::text::Text;
use std::alloc::{AllocGlobal, Global};
use std::process::Abort;
use std::random::RandomSource;
use std::sync::Wait;
use std::test::Fail;
use std::thread::Threads;
use std::{io, thread};
use tokio::io::{DuplexStream, duplex, read_exact};

// What a server says, by the message formats of the protocol.
const PARSED: &[u8] = b"1\0\0\0\x04";

const BOUND: &[u8] = b"2\0\0\0\x04";

const CLOSED: &[u8] = b"3\0\0\0\x04";

const TYPES: &[u8] = b"t\0\0\0\x0a\0\x01\0\0\0\x17";

const COLUMNS: &[u8] = b"T\0\0\0\x1a\0\x01a\0\0\0\0\0\0\0\0\0\0\x17\0\x04\xff\xff\xff\xff\0\0";

const ROW: &[u8] = b"D\0\0\0\x0b\0\x01\0\0\0\x011";

const COMPLETE: &[u8] = b"C\0\0\0\x0dSELECT 1\0";

const SUSPENDED: &[u8] = b"s\0\0\0\x04";

const ERROR: &[u8] = b"E\0\0\0\x19SERROR\0CXX000\0Mboom\0\0";

const READY: &[u8] = b"Z\0\0\0\x05I";

// What belongs to no Close, and the end of its cycle, in one piece: once the client has met the first message, its stream is
// gone, and nothing more can be said.
const BOUND_IN_PLACE: &[u8] = b"2\0\0\0\x04Z\0\0\0\x05I";

// Sync, which a client sends.
const SYNC: &[u8] = b"S\0\0\0\x04";

// Parse, Bind, Execute and Sync of SELECT $1 with the parameter 1.
const QUERY: &[u8] =
    b"P\0\0\0\x11\0SELECT $1\0\0\0B\0\0\0\x11\0\0\0\0\0\x01\0\0\0\x011\0\0E\0\0\0\x09\0\0\0\0\0S\0\0\0\x04";

// What is called.
#[derive(Clone, Copy)]
enum Kind {
    Simple,
    Prepare,
    Bind,
    Execute,
    DescribeStatement,
    DescribePortal,
    CloseStatement,
    ClosePortal,
    Query,
    // `ask`, which is given a request.
    Ask,
}

// What an answer is, what it counts, and whether the client can still be used.
type Outcome = (&'static str, usize, &'static str);

// What is called, what the client sends at once, what the server says of it, what the client sends behind that, and what
// comes of it.
#[derive(Clone, Copy)]
struct Case {
    kind: Kind,
    opening: &'static [u8],
    said: &'static [&'static [u8]],
    behind: &'static [u8],
    outcome: Outcome,
}

const CASES: &[Case] = &[
    Case {
        kind: Kind::Simple,
        opening: b"Q\0\0\0\x17SELECT 1; SELECT 1\0",
        said: &[COLUMNS, ROW, COMPLETE, COMPLETE, READY],
        behind: b"",
        outcome: ("responses", 2, "usable"),
    },
    Case {
        kind: Kind::Prepare,
        opening: b"P\0\0\0\x12s\0SELECT $1\0\0\0D\0\0\0\x07Ss\0S\0\0\0\x04",
        said: &[PARSED, TYPES, COLUMNS, READY],
        behind: b"",
        outcome: ("prepared", 1, "usable"),
    },
    Case {
        kind: Kind::Bind,
        opening: b"B\0\0\0\x13p\0s\0\0\0\0\x01\0\0\0\x011\0\0H\0\0\0\x04",
        said: &[BOUND],
        behind: b"",
        outcome: ("bound", 0, "usable"),
    },
    Case {
        kind: Kind::Execute,
        opening: b"E\0\0\0\x0ap\0\0\0\0\x02H\0\0\0\x04",
        said: &[ROW, ROW, SUSPENDED],
        behind: b"",
        outcome: ("suspended", 2, "usable"),
    },
    Case {
        kind: Kind::Execute,
        opening: b"E\0\0\0\x0ap\0\0\0\0\x02H\0\0\0\x04",
        said: &[ROW, COMPLETE, READY],
        behind: SYNC,
        outcome: ("complete", 1, "usable"),
    },
    Case {
        kind: Kind::DescribeStatement,
        opening: b"D\0\0\0\x07Ss\0S\0\0\0\x04",
        said: &[TYPES, COLUMNS, READY],
        behind: b"",
        outcome: ("described with types", 1, "usable"),
    },
    Case {
        kind: Kind::DescribePortal,
        opening: b"D\0\0\0\x07Pp\0H\0\0\0\x04",
        said: &[COLUMNS],
        behind: b"",
        outcome: ("described", 1, "usable"),
    },
    Case {
        kind: Kind::CloseStatement,
        opening: b"C\0\0\0\x07Ss\0S\0\0\0\x04",
        said: &[CLOSED, READY],
        behind: b"",
        outcome: ("closed", 0, "usable"),
    },
    Case {
        kind: Kind::ClosePortal,
        opening: b"C\0\0\0\x07Pp\0S\0\0\0\x04",
        said: &[CLOSED, READY],
        behind: b"",
        outcome: ("closed", 0, "usable"),
    },
    Case {
        kind: Kind::Query,
        opening: QUERY,
        said: &[PARSED, BOUND, ROW, ROW, COMPLETE, READY],
        behind: b"",
        outcome: ("rows", 2, "usable"),
    },
    Case {
        kind: Kind::Ask,
        opening: QUERY,
        said: &[PARSED, BOUND, ROW, COMPLETE, READY],
        behind: b"",
        outcome: ("rows", 1, "usable"),
    },
    Case {
        kind: Kind::Bind,
        opening: b"B\0\0\0\x13p\0s\0\0\0\0\x01\0\0\0\x011\0\0H\0\0\0\x04",
        said: &[ERROR, READY],
        behind: SYNC,
        outcome: ("remote", 0, "usable"),
    },
    Case {
        kind: Kind::ClosePortal,
        opening: b"C\0\0\0\x07Pp\0S\0\0\0\x04",
        said: &[BOUND_IN_PLACE],
        behind: b"",
        outcome: ("unexpected", 0, "broken"),
    },
];

fn statement(alloc: Global) -> Result<Target, OutOfMemory> {
    Ok(Target::Statement(Some(Text::from_str(alloc, "s")?)))
}

fn portal(alloc: Global) -> Result<Target, OutOfMemory> {
    Ok(Target::Portal(Some(Text::from_str(alloc, "p")?)))
}

fn request_of(alloc: Global, kind: Kind) -> Result<Request, OutOfMemory> {
    match kind {
        Kind::Simple => Request::simple(alloc, "SELECT 1; SELECT 1"),
        Kind::Prepare => Request::prepare(alloc, "s", "SELECT $1"),
        Kind::Bind => Request::bind(alloc, "p", "s", &[Some("1")]),
        Kind::Execute => Request::execute(alloc, "p", 2),
        Kind::DescribeStatement => Ok(Request::Describe(statement(alloc)?)),
        Kind::DescribePortal => Ok(Request::Describe(portal(alloc)?)),
        Kind::CloseStatement => Ok(Request::Close(statement(alloc)?)),
        Kind::ClosePortal => Ok(Request::Close(portal(alloc)?)),
        Kind::Query | Kind::Ask => Request::query(alloc, "SELECT $1", &[Some("1")]),
    }
}

// Begins the call of a request's own kind.
fn called(client: AsyncClient<DuplexStream>, request: Request) -> Asking<DuplexStream>
    ensures { CanAsk result }
{
    match request {
        Request::Simple(sql) => client.simple_query(sql),
        Request::Prepare(name, sql, types) => client.prepare(name, sql, types),
        Request::Bind(portal, statement, parameters, formats) => {
            client.bind(portal, statement, parameters, formats)
        }
        Request::Execute(portal, rows) => client.execute(portal, rows),
        Request::Describe(target) => match target {
            Target::Statement(name) => client.describe_statement(name),
            Target::Portal(name) => client.describe_portal(name),
        },
        Request::Close(target) => match target {
            Target::Statement(name) => client.close_statement(name),
            Target::Portal(name) => client.close_portal(name),
        },
        Request::Query(sql, types, parameters) => client.query(sql, types, parameters),
    }
}

fn begun(client: AsyncClient<DuplexStream>, kind: Kind, request: Request) -> Asking<DuplexStream>
    ensures { CanAsk result }
{
    match kind {
        Kind::Ask => client.ask(request),
        _ => called(client, request),
    }
}

fn described_name(described: &DescribeResponse) -> (&'static str, usize) {
    let count = described.fields.len();
    if described.param_types.is_empty() {
        ("described", count)
    } else {
        ("described with types", count)
    }
}

// How an answer is called, and what it counts.
fn answer_name(answer: &Answer) -> (&'static str, usize) {
    match answer {
        Answer::Responses(responses) => ("responses", responses.len()),
        Answer::Prepared(prepared) => ("prepared", prepared.param_types.len()),
        Answer::Bound => ("bound", 0),
        Answer::Executed(executed) => match executed {
            ExecuteResult::Suspended(rows) => ("suspended", rows.len()),
            ExecuteResult::Complete(rows) => ("complete", rows.len()),
        },
        Answer::Described(described) => described_name(described),
        Answer::Closed => ("closed", 0),
        Answer::Rows(rows) => ("rows", rows.len()),
        Answer::Remote(_) => ("remote", 0),
    }
}

fn came_name(came: &PgWireClientResult<Answer>) -> (&'static str, usize) {
    match came {
        Ok(answer) => answer_name(answer),
        Err(PgWireClientError::UnexpectedMessage(_)) => ("unexpected", 0),
        Err(_) => ("another error", 0),
    }
}

fn outcome_of(answered: &Answered<DuplexStream>) -> Outcome {
    let (name, count) = came_name(&answered.answer);
    let how = if answered.client.is_usable() {
        "usable"
    } else {
        "broken"
    };
    (name, count, how)
}

// Logs in, asks a request by the call of this kind, and tells what came of it.
fn asked<R: Wait + RandomSource + AllocGlobal>(
    rt: &R,
    stream: DuplexStream,
    kind: Kind,
) -> Result<Outcome, Fail> {
    let client = logged_in(rt, stream)?;
    let request = request_of(rt.alloc(), kind)?;
    let answered = block_on(rt, begun(client, kind, request))?;
    Ok(outcome_of(&answered))
}

// Reads so many bytes.
fn heard<R: Wait + RandomSource + AllocGlobal>(
    rt: &R,
    stream: DuplexStream,
    count: usize,
) -> io::Result<(DuplexStream, Vec<u8>)> {
    let buf = vec![in rt.alloc(); 0; count]?;
    Ok(block_on(rt, read_exact(stream, buf))??)
}

// Says these pieces.
fn say<R: Wait + RandomSource + AllocGlobal>(
    rt: &R,
    mut stream: DuplexStream,
    pieces: &[&'static [u8]],
) -> io::Result<DuplexStream> {
    for piece in pieces {
        stream = play_one(rt, stream, (0, *piece))?;
    }
    Ok(stream)
}

// Whether the client says nothing more.
fn ends<R: Wait + RandomSource + AllocGlobal>(rt: &R, stream: DuplexStream) -> io::Result<bool> {
    let buf = vec![in rt.alloc(); 0; 1]?;
    let more = block_on(rt, read_exact(stream, buf))?;
    Ok(more.is_err())
}

// Reads so many bytes, and whether that was all.
fn heard_last<R: Wait + RandomSource + AllocGlobal>(
    rt: &R,
    stream: DuplexStream,
    count: usize,
) -> io::Result<(Vec<u8>, bool)> {
    let (stream, bytes) = heard(rt, stream, count)?;
    let is_all = ends(rt, stream)?;
    Ok((bytes, is_all))
}

// What a server heard: what opened a request, and what came behind its answer, with whether that was all.
type Heard = (Vec<u8>, (Vec<u8>, bool));

fn served<R: Wait + RandomSource + AllocGlobal>(
    rt: &R,
    stream: DuplexStream,
    case: Case,
) -> io::Result<Heard> {
    let stream = play_one(rt, stream, LOGIN)?;
    let (stream, opening) = heard(rt, stream, case.opening.len())?;
    let stream = say(rt, stream, case.said)?;
    let last = heard_last(rt, stream, case.behind.len())?;
    Ok((opening, last))
}

// What a server heard, and what its client tells.
fn played<R: Threads + Wait + RandomSource + AllocGlobal + Sync>(
    rt: &R,
    case: Case,
) -> Result<(Heard, Outcome), Fail> {
    let (near, far) = duplex(rt.alloc(), 64)?;
    let (heard, outcome) = thread::join(
        rt,
        move || served(rt, far, case),
        move || asked(rt, near, case.kind),
    );
    let outcome = outcome?;
    Ok((heard?, outcome))
}

fn check<R: Abort>(rt: &R, heard: &Heard, outcome: Outcome, case: &Case) {
    let (opening, (behind, is_all)) = heard;
    assert_eq!(rt; outcome, case.outcome);
    assert_eq!(rt; opening.as_slice(), case.opening);
    assert_eq!(rt; (behind.as_slice(), *is_all), (case.behind, true));
}

#[test]
fn each_call_is_answered(rt: HostRuntime) -> Result<(), Fail> {
    for case in CASES {
        let (heard, outcome) = played(&rt, *case)?;
        check(&rt, &heard, outcome, case);
    }
    Ok(())
}
