//! What questions are replied over a link in memory, and what is left of the client.

use example_requests::{Question, Reply, ask_all};
use pgw_client::{
    Config, Listed, MemoryDialer, MemoryLink, Octets, OutOfMemory, PgWireClientError,
    PgWireClientResult, Text,
};
use pgw_client_calls::PgWireClient;
use pgw_handlers_default::DefaultStartupHandler;
use std::alloc::Global;
use std::process::Abort;
use std::test::Fail;

type Client = PgWireClient<MemoryLink>;

// What a server says, by the message formats of the protocol.
const WELCOME: &[u8] = b"R\0\0\0\x08\0\0\0\0Z\0\0\0\x05I";

const RESULT: &[u8] =
    b"T\0\0\0\x1a\0\x01a\0\0\0\0\0\0\0\0\0\0\x17\0\x04\xff\xff\xff\xff\0\0D\0\0\0\x0b\0\x01\0\0\0\x011C\0\0\0\x0dSELECT 1\0";

const ROWS: &[u8] =
    b"1\0\0\0\x042\0\0\0\x04D\0\0\0\x0b\0\x01\0\0\0\x011D\0\0\0\x0b\0\x01\0\0\0\x011C\0\0\0\x0dSELECT 2\0";

const ERROR: &[u8] = b"E\0\0\0\x19SERROR\0CXX000\0Mboom\0\0";

const STRAY: &[u8] = b"A\0\0\0\x0a\0\0\0\x07\0\0";

const READY: &[u8] = b"Z\0\0\0\x05I";

// What a server says, the reads that fail, and what comes of two questions and then of one.
type Case = (&'static [&'static [u8]], &'static [u64], &'static str);

const CASES: &[Case] = &[
    (
        &[WELCOME, RESULT, READY, ROWS, READY, RESULT, RESULT, READY],
        &[],
        "responses 1, rows 2, usable; responses 2, usable",
    ),
    (
        &[WELCOME, ERROR, READY, ROWS, READY, RESULT, READY],
        &[],
        "remote, rows 2, usable; responses 1, usable",
    ),
    (
        &[WELCOME, RESULT, READY, ERROR, READY, RESULT, READY],
        &[],
        "responses 1, remote, usable; responses 1, usable",
    ),
    (
        &[WELCOME, RESULT, READY, ROWS],
        &[],
        "end, broken; Broken, broken",
    ),
    (
        &[WELCOME, RESULT, READY, ERROR],
        &[],
        "remote error, broken; Broken, broken",
    ),
    (
        &[WELCOME, RESULT, READY, ROWS, READY, RESULT, READY],
        &[2],
        "fault, broken; Broken, broken",
    ),
    (
        &[WELCOME, STRAY, READY, RESULT, READY],
        &[],
        "unexpected, usable; responses 1, usable",
    ),
];

fn error_name(error: &PgWireClientError) -> &'static str {
    match error {
        PgWireClientError::UnexpectedEOF => "end",
        PgWireClientError::RemoteError(_) => "remote error",
        PgWireClientError::UnexpectedMessage(_) => "unexpected",
        PgWireClientError::IoError => "fault",
        PgWireClientError::Broken => "Broken",
        _ => "another error",
    }
}

// A number from 1 to 2.
fn count_name(count: usize) -> &'static str {
    match count {
        1 => " 1",
        2 => " 2",
        _ => " more",
    }
}

// How a reply is called, and how many responses or rows it has.
fn add_reply(text: &mut String, reply: &Reply) -> Result<(), Fail> {
    let (name, count) = match reply {
        Reply::Responses(responses) => ("responses", count_name(responses.as_slice().len())),
        Reply::Rows(rows) => ("rows", count_name(rows.len())),
        Reply::Remote(_) => ("remote", ""),
    };
    text.push_str(name)?;
    text.push_str(count)?;
    text.push_str(", ")?;
    Ok(())
}

fn add_replies(text: &mut String, replies: &[Reply]) -> Result<(), Fail> {
    for reply in replies {
        add_reply(text, reply)?;
    }
    Ok(())
}

fn add_came(text: &mut String, came: &PgWireClientResult<Listed<Reply>>) -> Result<(), Fail> {
    match came {
        Ok(replies) => add_replies(text, replies.as_slice()),
        Err(error) => {
            text.push_str(error_name(error))?;
            text.push_str(", ")?;
            Ok(())
        }
    }
}

// Asks some questions, and adds what came of them and whether the client can still be used.
fn ask(
    alloc: Global,
    client: &mut Client,
    questions: &[Question],
    text: &mut String,
) -> Result<(), Fail> {
    let came = ask_all(alloc, client, questions);
    let added = add_came(text, &came);
    drop(came);
    added?;
    text.push_str(if client.is_broken() {
        "broken"
    } else {
        "usable"
    })?;
    Ok(())
}

fn simple(alloc: Global, sql: &str) -> Result<Question, OutOfMemory> {
    Ok(Question::Simple(Text::from_str(alloc, sql)?))
}

fn rows(alloc: Global, sql: &str) -> Result<Question, OutOfMemory> {
    Ok(Question::Rows(Text::from_str(alloc, sql)?))
}

// Two questions.
fn first_two(alloc: Global) -> Result<Listed<Question>, OutOfMemory> {
    let first = simple(alloc, "SELECT 1")?;
    let second = rows(alloc, "SELECT 2")?;
    let mut questions = Listed::new(alloc);
    questions.push(first)?;
    questions.push(second)?;
    Ok(questions)
}

// Asks these two and then one.
fn ask_twice(alloc: Global, client: &mut Client) -> Result<String, Fail> {
    let mut text = String::new(alloc);
    let questions = first_two(alloc)?;
    ask(alloc, client, questions.as_slice(), &mut text)?;
    text.push_str("; ")?;
    let last = [simple(alloc, "SELECT 3")?];
    ask(alloc, client, &last, &mut text)?;
    Ok(text)
}

// A dialer of one link, to a server that says these pieces.
fn dialer_to(
    alloc: Global,
    pieces: &[&[u8]],
    fail_reads: &[u64],
) -> Result<Box<MemoryDialer>, OutOfMemory> {
    let mut said = Vec::new(alloc);
    for piece in pieces {
        said.extend_from_slice(piece)?;
    }
    let mut failing = Listed::new(alloc);
    for number in fail_reads {
        failing.push(*number)?;
    }
    let server = Octets::from_slice(alloc, &said)?;
    let mut links = Listed::new(alloc);
    links.push(MemoryLink::new(alloc, server, 30, failing, Listed::new(alloc)))?;
    Ok(Box::new(alloc, MemoryDialer::new(links, Listed::new(alloc)))?)
}

fn connected(alloc: Global, dialer: &mut MemoryDialer) -> Result<Box<Client>, Fail> {
    let config = Config::parse(alloc, "user=bob host=a")?;
    let handler = DefaultStartupHandler::new([0; 18]);
    let client = PgWireClient::connect(alloc, config, handler, dialer, 10_000);
    let client = client.ok().ok_or("no client")?;
    Ok(Box::new(alloc, client)?)
}

fn check<R: Abort>(
    rt: &R,
    alloc: Global,
    server: &[&[u8]],
    fail_reads: &[u64],
    wanted: &str,
) -> Result<(), Fail> {
    let mut dialer = dialer_to(alloc, server, fail_reads)?;
    let mut client = connected(alloc, &mut dialer)?;
    let text = ask_twice(alloc, &mut client)?;
    assert_eq!(rt; text.as_str(), wanted);
    Ok(())
}

#[test]
fn questions_are_replied(rt: HostRuntime) -> Result<(), Fail> {
    for (server, fail_reads, wanted) in CASES {
        check(&rt, rt.alloc(), server, fail_reads, wanted)?;
    }
    Ok(())
}

// The messages of both questions: Query; and Parse, Bind, Execute and Sync.
const SENT: &[u8] =
    b"\0\0\0\x12\0\x03\0\0user\0bob\0\0Q\0\0\0\x0dSELECT 1\0P\0\0\0\x10\0SELECT 2\0\0\0B\0\0\0\x0c\0\0\0\0\0\0\0\0E\0\0\0\x09\0\0\0\0\0S\0\0\0\x04Q\0\0\0\x0dSELECT 3\0";

fn check_sent<R: Abort>(rt: &R, alloc: Global, client: &mut Client) -> Result<(), Fail> {
    let text = ask_twice(alloc, client)?;
    assert!(rt; !text.is_empty());
    assert_eq!(rt; client.link().written(), SENT);
    Ok(())
}

#[test]
fn questions_are_sent(rt: HostRuntime) -> Result<(), Fail> {
    let alloc = rt.alloc();
    let mut dialer = dialer_to(alloc, CASES[0].0, &[])?;
    let mut client = connected(alloc, &mut dialer)?;
    check_sent(&rt, alloc, &mut client)
}
