//! What the calls of a dialogue answer.

use bytes::BytesMut;
use pgw_client::{
    ChannelBinding, Config, PgWireClientError, PgWireClientResult, Request, SslMode, Text,
};
use pgw_dialogue::{Dialogue, DialoguePhase};
use std::alloc::Global;
use std::process::Abort;
use std::test::Fail;

// AuthenticationOk, ReadyForQuery; then a row of one field, its result and ReadyForQuery.
const SERVER: &[u8] =
    b"R\0\0\0\x08\0\0\0\0Z\0\0\0\x05IT\0\0\0\x1a\0\x01a\0\0\0\0\0\0\0\0\0\0\x17\0\x04\xff\xff\xff\xff\0\0D\0\0\0\x0b\0\x01\0\0\0\x011C\0\0\0\rSELECT 1\0Z\0\0\0\x05I";

// The bytes of the startup message, and with them those of the query.
const STARTUP: usize = 18;

const WITH_QUERY: usize = 32;

fn name_of(error: &PgWireClientError) -> &'static str {
    match error {
        PgWireClientError::UnexpectedEOF => "UnexpectedEOF",
        PgWireClientError::UnexpectedMessage(_) => "UnexpectedMessage",
        PgWireClientError::RemoteError(_) => "RemoteError",
        PgWireClientError::PgWireError(_) => "PgWireError",
        PgWireClientError::InvalidConfig(_) => "InvalidConfig",
        PgWireClientError::ReadLimit => "ReadLimit",
        PgWireClientError::Broken => "Broken",
        _ => "another",
    }
}

fn answer_of(answer: &PgWireClientResult<DialoguePhase>) -> &'static str {
    match answer {
        Ok(DialoguePhase::Waiting) => "Waiting",
        Ok(DialoguePhase::Ready) => "Ready",
        Ok(DialoguePhase::Done) => "Done",
        Err(error) => name_of(error),
    }
}

fn select_one(alloc: Global) -> Result<Vec<Request>, Fail> {
    let mut requests = Vec::new(alloc);
    requests.push(Request::Simple(Text::from_str(alloc, "SELECT 1")?))?;
    Ok(requests)
}

fn taken(dialogue: &mut Dialogue<'_>, piece: &[u8], out: &mut BytesMut) -> &'static str {
    let answer = dialogue.take(piece, out);
    let name = answer_of(&answer);
    drop(answer);
    name
}

fn two_taken(
    dialogue: &mut Dialogue<'_>,
    pieces: [&[u8]; 2],
    out: &mut BytesMut,
) -> ([&'static str; 2], [usize; 2]) {
    let first = taken(dialogue, pieces[0], out);
    let count = out.len();
    let second = taken(dialogue, pieces[1], out);
    ([first, second], [count, out.len()])
}

fn answers_to(
    alloc: Global,
    asked: (&Config, &[Request]),
    limit: u64,
    pieces: [&[u8]; 2],
    out: &mut BytesMut,
) -> PgWireClientResult<([&'static str; 2], [usize; 2])> {
    let (config, requests) = asked;
    match Dialogue::start(alloc, config, requests, &[0; 18], limit, out) {
        Ok(mut dialogue) => {
            let taken = two_taken(&mut dialogue, pieces, out);
            drop(dialogue);
            Ok(taken)
        }
        Err(error) => Err(error),
    }
}

fn answers_by(
    alloc: Global,
    config: &Config,
    limit: u64,
    pieces: [&[u8]; 2],
) -> Result<([&'static str; 2], [usize; 2]), Fail> {
    let requests = select_one(alloc)?;
    let mut out = BytesMut::new(alloc);
    let answers = answers_to(
        alloc,
        (config, requests.as_slice()),
        limit,
        pieces,
        &mut out,
    );
    drop(requests);
    drop(out);
    Ok(answers?)
}

// What two pieces are answered, and how many bytes were put out behind each.
fn answers(
    alloc: Global,
    limit: u64,
    pieces: [&[u8]; 2],
) -> Result<([&'static str; 2], [usize; 2]), Fail> {
    let config = Config::parse(alloc, "user=bob")?;
    let answers = answers_by(alloc, &config, limit, pieces);
    drop(config);
    answers
}

// What is compared of two pieces: what each is answered, and how many bytes were put out behind it.
fn check<R: Abort>(
    rt: &R,
    alloc: Global,
    limit: u64,
    pieces: [&[u8]; 2],
    names: [&str; 2],
    counts: [usize; 2],
) -> Result<(), Fail> {
    let (answers, lengths) = answers(alloc, limit, pieces)?;
    assert_eq!(rt; answers, names, "{limit}");
    assert_eq!(rt; lengths, counts, "{limit}");
    Ok(())
}

// All but the last byte.
const BUT_ONE: &[u8] =
    b"R\0\0\0\x08\0\0\0\0Z\0\0\0\x05IT\0\0\0\x1a\0\x01a\0\0\0\0\0\0\0\0\0\0\x17\0\x04\xff\xff\xff\xff\0\0D\0\0\0\x0b\0\x01\0\0\0\x011C\0\0\0\rSELECT 1\0Z\0\0\0\x05";

// Phases within and behind the startup segment; the transcript whole, with bytes behind it in the same piece, and behind
// that in another; a type byte that no message has, and the pieces behind it; a message cut within its length field.
const ANSWERED: &[([&[u8]; 2], [&str; 2], [usize; 2])] = &[
    (
        [b"R\0\0\0\x08\0\0\0\0Z\0\0\0\x05", b"I"],
        ["Waiting", "Ready"],
        [STARTUP, WITH_QUERY],
    ),
    ([b"", b""], ["Waiting", "Waiting"], [STARTUP, STARTUP]),
    ([BUT_ONE, b"I"], ["Ready", "Done"], [WITH_QUERY, WITH_QUERY]),
    (
        [SERVER, b"?\0\0\0\x04"],
        ["Done", "Done"],
        [WITH_QUERY, WITH_QUERY],
    ),
    (
        [b"?\0\0\0\x04", SERVER],
        ["PgWireError", "Broken"],
        [STARTUP, STARTUP],
    ),
    (
        [b"R\0\0\0\x08\0\0\0\0Z\0\0\0\x05I?\0\0\0\x04", b""],
        ["PgWireError", "Broken"],
        [WITH_QUERY, WITH_QUERY],
    ),
    (
        [b"R\0\0", b"\0\x08\0\0\0\0Z\0\0\0\x05I"],
        ["Waiting", "Ready"],
        [STARTUP, WITH_QUERY],
    ),
];

#[test]
fn pieces_are_answered(rt: HostRuntime) -> Result<(), Fail> {
    for (pieces, names, counts) in ANSWERED {
        check(&rt, rt.alloc(), 1000, *pieces, *names, *counts)?;
    }
    Ok(())
}

// What a dialogue with this limit answers to all the bytes of the server, and then to none.
#[test]
fn limits_are_kept(rt: HostRuntime) -> Result<(), Fail> {
    for limit in 0..76 {
        let names = if limit < 74 {
            ["ReadLimit", "Broken"]
        } else {
            ["Done", "Done"]
        };
        let count = if limit < 15 { STARTUP } else { WITH_QUERY };
        check(&rt, rt.alloc(), limit, [SERVER, b""], names, [count, count])?;
    }
    Ok(())
}

fn end_of(
    dialogue: &mut Dialogue<'_>,
    bytes: &[u8],
    out: &mut BytesMut,
) -> Result<&'static str, Fail> {
    match dialogue.take(bytes, out)? {
        DialoguePhase::Waiting | DialoguePhase::Ready => {
            let error = dialogue.at_end();
            let name = name_of(&error);
            drop(error);
            Ok(name)
        }
        DialoguePhase::Done => Ok("Done"),
    }
}

fn end_behind_these(
    alloc: Global,
    config: &Config,
    requests: &[Request],
    bytes: &[u8],
    out: &mut BytesMut,
) -> Result<&'static str, Fail> {
    let mut dialogue = Dialogue::start(alloc, config, requests, &[0; 18], 1000, out)?;
    let end = end_of(&mut dialogue, bytes, out);
    drop(dialogue);
    end
}

fn end_by(alloc: Global, config: &Config, bytes: &[u8]) -> Result<&'static str, Fail> {
    let requests = select_one(alloc)?;
    let mut out = BytesMut::new(alloc);
    let end = end_behind_these(alloc, config, requests.as_slice(), bytes, &mut out);
    drop(requests);
    drop(out);
    end
}

// What the link's end means behind these bytes.
fn end_behind(alloc: Global, bytes: &[u8]) -> Result<&'static str, Fail> {
    let config = Config::parse(alloc, "user=bob")?;
    let end = end_by(alloc, &config, bytes);
    drop(config);
    end
}

// No byte; a message begun; an error of the server; a message that has no place in a simple query, before its
// ReadyForQuery.
const ENDS: &[(&[u8], &str)] = &[
    (b"", "UnexpectedEOF"),
    (
        b"R\0\0\0\x08\0\0\0\0Z\0\0\0\x05IT\0\0\0\x1a",
        "UnexpectedEOF",
    ),
    (
        b"R\0\0\0\x08\0\0\0\0Z\0\0\0\x05IE\0\0\0\x0cC42601\0\0",
        "RemoteError",
    ),
    (
        b"R\0\0\0\x08\0\0\0\0Z\0\0\0\x05I2\0\0\0\x04",
        "UnexpectedMessage",
    ),
];

#[test]
fn ends_have_meanings(rt: HostRuntime) -> Result<(), Fail> {
    for (bytes, want) in ENDS {
        assert_eq!(rt; end_behind(rt.alloc(), bytes)?, *want);
    }
    Ok(())
}

fn name_of_start(alloc: Global, config: &Config, out: &mut BytesMut) -> &'static str {
    match Dialogue::start(alloc, config, &[], &[0; 18], 1000, out).err() {
        None => "begun",
        Some(error) => {
            let name = name_of(&error);
            drop(error);
            name
        }
    }
}

// How a beginning is refused, and how many bytes are put out.
fn refused(alloc: Global, config: &Config) -> (&'static str, usize) {
    let mut out = BytesMut::new(alloc);
    let name = name_of_start(alloc, config, &mut out);
    let count = out.len();
    drop(out);
    (name, count)
}

// Encryption is demanded, or a login bound to it; a user name that has a zero byte; and nothing of these.
fn check_beginnings<R: Abort>(rt: &R, alloc: Global, config: &mut Config) -> Result<(), Fail> {
    assert_eq!(rt; refused(alloc, config), ("begun", 9));
    config.set_user(alloc, "a\0b")?;
    assert_eq!(rt; refused(alloc, config), ("PgWireError", 0));
    config.channel_binding = ChannelBinding::Require;
    assert_eq!(rt; refused(alloc, config), ("InvalidConfig", 0));
    config.channel_binding = ChannelBinding::Prefer;
    config.ssl_mode = SslMode::Require;
    assert_eq!(rt; refused(alloc, config), ("InvalidConfig", 0));
    Ok(())
}

#[test]
fn beginnings_are_refused(rt: HostRuntime) -> Result<(), Fail> {
    let mut config = Config::new(rt.alloc());
    let checked = check_beginnings(&rt, rt.alloc(), &mut config);
    drop(config);
    checked
}

// Where a login must be bound to the hash 000102: what the server says, what that and a further piece are answered, and
// what is put out. Computed with Python's hashlib. In order: a login by the method that binds; and AuthenticationOk in
// place of one.
const BOUND: &[(&[u8], [&str; 2], &[u8])] = &[
    (
        b"R\0\0\0\x1c\0\0\0\x0aSCRAM-SHA-256-PLUS\0\0R\0\0\0J\0\0\0\x0br=AAAAAAAAAAAAAAAAAAAAAAAAserver,s=W22ZaJ0SNY7soEsUEjb6gQ==,i=4096R\0\0\06\0\0\0\x0cv=AgnmmpwEqh4yJJu61zXE3CzWo9YrCXYpGY5tt0H8Wmk=R\0\0\0\x08\0\0\0\0Z\0\0\0\x05I",
        ["Done", "Done"],
        b"\0\0\0\x12\0\x03\0\0user\0bob\0\0p\0\0\0SSCRAM-SHA-256-PLUS\0\0\0\08p=tls-server-end-point,,n=bob,r=AAAAAAAAAAAAAAAAAAAAAAAAp\0\0\0zc=cD10bHMtc2VydmVyLWVuZC1wb2ludCwsAAEC,r=AAAAAAAAAAAAAAAAAAAAAAAAserver,p=wJWbwlmx4xT1JKIrbb5dE2+iDVQM7u/0fSttRFhWKkU=",
    ),
    (
        b"R\0\0\0\x08\0\0\0\0Z\0\0\0\x05I",
        ["UnexpectedMessage", "Broken"],
        b"\0\0\0\x12\0\x03\0\0user\0bob\0\0",
    ),
];

fn bound_config(alloc: Global) -> Result<Config, Fail> {
    let mut config = Config::parse(alloc, "user=bob password=pencil channel_binding=require")?;
    config.set_certificate_hash(alloc, &[0, 1, 2])?;
    Ok(config)
}

// What a piece and an empty one are answered, and whether this is put out.
fn bound_answers(
    alloc: Global,
    config: &Config,
    server: &[u8],
    want: &[u8],
) -> Result<([&'static str; 2], bool), Fail> {
    let mut out = BytesMut::new(alloc);
    let answers = answers_to(alloc, (config, &[]), 1000, [server, b""], &mut out);
    let is_wanted = out.as_slice() == want;
    drop(out);
    Ok((answers?.0, is_wanted))
}

fn check_bound<R: Abort>(rt: &R, alloc: Global, config: &Config) -> Result<(), Fail> {
    for (server, names, want) in BOUND {
        assert_eq!(rt; bound_answers(alloc, config, server, want)?, (*names, true));
    }
    Ok(())
}

#[test]
fn logins_are_bound(rt: HostRuntime) -> Result<(), Fail> {
    let config = bound_config(rt.alloc())?;
    let checked = check_bound(&rt, rt.alloc(), &config);
    drop(config);
    checked
}
