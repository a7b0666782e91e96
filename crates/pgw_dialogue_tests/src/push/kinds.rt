//! What a request of each kind puts out, and what it is answered.

use crate::push::asking::{LOGIN, given, log_in};
use bytes::BytesMut;
use pgw_client_push::PushClient;
use pgw_session::types::{Answer, DescribeResponse, ExecuteResult, Request, Target};
use pgw_types::memory::OutOfMemory;
use pgw_types::text::Text;
use std::alloc::Global;
use std::process::Abort;
use std::test::Fail;

// What a server says, by the message formats of the protocol.
const PARSED: &[u8] = b"1\0\0\0\x04";

const BOUND: &[u8] = b"2\0\0\0\x04";

const CLOSED: &[u8] = b"3\0\0\0\x04";

const TYPES: &[u8] = b"t\0\0\0\x0a\0\x01\0\0\0\x17";

const COLUMNS: &[u8] = b"T\0\0\0\x1a\0\x01a\0\0\0\0\0\0\0\0\0\0\x17\0\x04\xff\xff\xff\xff\0\0";

const ROW: &[u8] = b"D\0\0\0\x0b\0\x01\0\0\0\x011";

const COMPLETE: &[u8] = b"C\0\0\0\x0dSELECT 1\0";

const SUSPENDED: &[u8] = b"s\0\0\0\x04";

const ERROR: &[u8] = b"E\0\0\0\x19SERROR\0CXX000\0Mboom\0\0";

const READY: &[u8] = b"Z\0\0\0\x05I";

// What is asked.
#[derive(Clone, Copy)]
enum Kind {
    Simple,
    Prepare,
    Bind,
    Execute,
    DescribeStatement,
    DescribePortal,
    CloseStatement,
    ClosePortal,
    Query,
}

// What an answer is, and what it counts.
type Told = (&'static str, usize);

// What is asked, what the server says of it, all that is put out, and what the answer is.
struct Case {
    kind: Kind,
    said: &'static [&'static [u8]],
    sent: &'static [u8],
    told: Told,
}

const CASES: &[Case] = &[
    Case {
        kind: Kind::Simple,
        said: &[COLUMNS, ROW, COMPLETE, COMPLETE, READY],
        sent: b"Q\0\0\0\x17SELECT 1; SELECT 1\0",
        told: ("responses", 2),
    },
    Case {
        kind: Kind::Prepare,
        said: &[PARSED, TYPES, COLUMNS, READY],
        sent: b"P\0\0\0\x12s\0SELECT $1\0\0\0D\0\0\0\x07Ss\0S\0\0\0\x04",
        told: ("prepared", 1),
    },
    Case {
        kind: Kind::Bind,
        said: &[BOUND],
        sent: b"B\0\0\0\x13p\0s\0\0\0\0\x01\0\0\0\x011\0\0H\0\0\0\x04",
        told: ("bound", 0),
    },
    Case {
        kind: Kind::Execute,
        said: &[ROW, ROW, SUSPENDED],
        sent: b"E\0\0\0\x0ap\0\0\0\0\x02H\0\0\0\x04",
        told: ("suspended", 2),
    },
    // Flush, and behind the end of the portal Sync.
    Case {
        kind: Kind::Execute,
        said: &[ROW, COMPLETE, READY],
        sent: b"E\0\0\0\x0ap\0\0\0\0\x02H\0\0\0\x04S\0\0\0\x04",
        told: ("complete", 1),
    },
    Case {
        kind: Kind::DescribeStatement,
        said: &[TYPES, COLUMNS, READY],
        sent: b"D\0\0\0\x07Ss\0S\0\0\0\x04",
        told: ("described with types", 1),
    },
    Case {
        kind: Kind::DescribePortal,
        said: &[COLUMNS],
        sent: b"D\0\0\0\x07Pp\0H\0\0\0\x04",
        told: ("described", 1),
    },
    Case {
        kind: Kind::CloseStatement,
        said: &[CLOSED, READY],
        sent: b"C\0\0\0\x07Ss\0S\0\0\0\x04",
        told: ("closed", 0),
    },
    Case {
        kind: Kind::ClosePortal,
        said: &[CLOSED, READY],
        sent: b"C\0\0\0\x07Pp\0S\0\0\0\x04",
        told: ("closed", 0),
    },
    Case {
        kind: Kind::Query,
        said: &[PARSED, BOUND, ROW, ROW, COMPLETE, READY],
        sent: b"P\0\0\0\x11\0SELECT $1\0\0\0B\0\0\0\x11\0\0\0\0\0\x01\0\0\0\x011\0\0E\0\0\0\x09\0\0\0\0\0S\0\0\0\x04",
        told: ("rows", 2),
    },
    // Flush, and behind the error Sync.
    Case {
        kind: Kind::Bind,
        said: &[ERROR, READY],
        sent: b"B\0\0\0\x13p\0s\0\0\0\0\x01\0\0\0\x011\0\0H\0\0\0\x04S\0\0\0\x04",
        told: ("remote", 0),
    },
];

fn statement(alloc: Global) -> Result<Target, OutOfMemory> {
    Ok(Target::Statement(Some(Text::from_str(alloc, "s")?)))
}

fn portal(alloc: Global) -> Result<Target, OutOfMemory> {
    Ok(Target::Portal(Some(Text::from_str(alloc, "p")?)))
}

fn request_of(alloc: Global, kind: Kind) -> Result<Request, OutOfMemory> {
    match kind {
        Kind::Simple => Request::simple(alloc, "SELECT 1; SELECT 1"),
        Kind::Prepare => Request::prepare(alloc, "s", "SELECT $1"),
        Kind::Bind => Request::bind(alloc, "p", "s", &[Some("1")]),
        Kind::Execute => Request::execute(alloc, "p", 2),
        Kind::DescribeStatement => Ok(Request::Describe(statement(alloc)?)),
        Kind::DescribePortal => Ok(Request::Describe(portal(alloc)?)),
        Kind::CloseStatement => Ok(Request::Close(statement(alloc)?)),
        Kind::ClosePortal => Ok(Request::Close(portal(alloc)?)),
        Kind::Query => Request::query(alloc, "SELECT $1", &[Some("1")]),
    }
}

fn described_name(described: &DescribeResponse) -> Told {
    let count = described.fields.len();
    if described.param_types.is_empty() {
        ("described", count)
    } else {
        ("described with types", count)
    }
}

fn answer_name(answer: &Answer) -> Told {
    match answer {
        Answer::Responses(responses) => ("responses", responses.len()),
        Answer::Prepared(prepared) => ("prepared", prepared.param_types.len()),
        Answer::Bound => ("bound", 0),
        Answer::Executed(executed) => match executed {
            ExecuteResult::Suspended(rows) => ("suspended", rows.len()),
            ExecuteResult::Complete(rows) => ("complete", rows.len()),
        },
        Answer::Described(described) => described_name(described),
        Answer::Closed => ("closed", 0),
        Answer::Rows(rows) => ("rows", rows.len()),
        Answer::Remote(_) => ("remote", 0),
    }
}

// Takes the answer of the segment that has closed, and tells what it is.
fn told(client: &mut PushClient) -> Told {
    if !client.is_idle() {
        return ("not idle", 0);
    }
    let answer = client.take_answer();
    match &answer {
        Some(answer) => answer_name(answer),
        None => ("no answer", 0),
    }
}

// Asks a request of this kind behind a login, and gives what the server says, a message a piece.
fn asked(
    alloc: Global,
    client: &mut PushClient,
    case: &Case,
    out: &mut BytesMut,
) -> Result<Told, Fail> {
    given(client, LOGIN, 100, out)?;
    out.clear();
    if !client.is_idle() {
        return Ok(("not logged in", 0));
    }
    client.ask(request_of(alloc, case.kind)?, out)?;
    for piece in case.said {
        given(client, piece, 100, out)?;
    }
    Ok(told(client))
}

fn answered(alloc: Global, case: &Case, out: &mut BytesMut) -> Result<Told, Fail> {
    let mut client = log_in(alloc, 1000, out)?;
    asked(alloc, &mut client, case, out)
}

fn check<R: Abort>(rt: &R, case: &Case, told: Told, sent: &[u8]) {
    assert_eq!(rt; (told, sent), (case.told, case.sent));
}

#[test]
fn each_kind_of_request_is_answered(rt: HostRuntime) -> Result<(), Fail> {
    for case in CASES {
        let mut out = BytesMut::new(rt.alloc());
        let told = answered(rt.alloc(), case, &mut out)?;
        check(&rt, case, told, out.as_slice());
    }
    Ok(())
}
