//! What sessions write, and what they are answered.
ghost use Rattle.std.specs.Prelude.{◌<◌};

use crate::scram::HONEST;
use pgw_client::{
    Answer, Config, DataRows, ExecuteResult, Listed, MemoryLink, Octets, OutOfMemory,
    PgWireClientError, PgWireClientResult, PgWireError, Request, Response, SessionReport, Target,
    Text, run_session,
};
use std::alloc::Global;
use std::process::Abort;
use std::test::Fail;

/// A link to a server that says this, which moves at most so many bytes at a time. It is in a box, as is each large value
/// here: what a function owns by itself is what makes its proof dear.
pub fn link_of(alloc: Global, server: &[u8], cut: usize) -> Result<Box<MemoryLink>, OutOfMemory>
    requires { 0 < cut }
{
    let server = Octets::from_slice(alloc, server)?;
    let link = MemoryLink::new(alloc, server, cut, Listed::new(alloc), Listed::new(alloc));
    Ok(Box::new(alloc, link)?)
}

/// A configuration by its connection text.
pub fn config_by(alloc: Global, text: &str) -> Result<Box<Config>, Fail> {
    let config = Config::parse(alloc, text)?;
    Ok(Box::new(alloc, config)?)
}

/// A session over the link, with a nonce of zeros. It has no clause, since those of a session make what calls it dear.
pub fn session(
    alloc: Global,
    link: &mut MemoryLink,
    config: &Config,
    requests: &[Request],
    limit: u64,
) -> PgWireClientResult<SessionReport> {
    run_session(alloc, link, config, requests, &[0; 18], limit)
}

/// How an answer is called, and how many rows or parameters it has.
pub type Mark = (&'static str, usize);

fn answered(answer: &Answer) -> Mark {
    match answer {
        Answer::Responses(responses) => ("responses", responses.as_slice().len()),
        Answer::Prepared(statement) => ("prepared", statement.param_types.as_slice().len()),
        Answer::Bound => ("bound", 0),
        Answer::Executed(ExecuteResult::Complete(rows)) => ("complete", rows.len()),
        Answer::Executed(ExecuteResult::Suspended(rows)) => ("suspended", rows.len()),
        Answer::Described(target) => ("described", target.fields.as_slice().len()),
        Answer::Closed => ("closed", 0),
        Answer::Rows(rows) => ("rows", rows.len()),
        Answer::Remote(_) => ("remote", 0),
    }
}

/// Compares answers with what they are to be called and to have.
pub fn check_answers<R: Abort>(rt: &R, answers: &[Answer], marks: &[Mark]) {
    assert_eq!(rt; answers.len(), marks.len());
    for (answer, mark) in answers.iter().zip(marks.iter()) {
        assert_eq!(rt; answered(answer), *mark);
    }
}

fn check_answered<R: Abort>(
    rt: &R,
    alloc: Global,
    link: &mut MemoryLink,
    (config, requests): (&Config, &[Request]),
    answers: &[Mark],
) -> Result<(), Fail> {
    let report = session(alloc, link, config, requests, 10_000)?;
    check_answers(rt, report.answers.as_slice(), answers);
    drop(report);
    Ok(())
}

// Compares a session over the link with what is to be written and answered.
fn compare<R: Abort>(
    rt: &R,
    alloc: Global,
    link: &mut MemoryLink,
    asked: (&Config, &[Request]),
    written: &[u8],
    answers: &[Mark],
) -> Result<(), Fail> {
    check_answered(rt, alloc, link, asked, answers)?;
    assert_eq!(rt; link.written(), written);
    Ok(())
}

fn check_by<R: Abort>(
    rt: &R,
    alloc: Global,
    link: &mut MemoryLink,
    (config, requests): (&str, &[Request]),
    written: &[u8],
    answers: &[Mark],
) -> Result<(), Fail> {
    let config = config_by(alloc, config)?;
    let compared = compare(rt, alloc, link, (&config, requests), written, answers);
    drop(config);
    compared
}

// Compares a session by a connection text, with a server that says this, with what is to be written and answered.
fn check<R: Abort>(
    rt: &R,
    alloc: Global,
    (config, server): (&str, &[u8]),
    requests: &[Request],
    written: &[u8],
    answers: &[Mark],
) -> Result<(), Fail> {
    let mut link = link_of(alloc, server, 50)?;
    let checked = check_by(rt, alloc, &mut link, (config, requests), written, answers);
    drop(link);
    checked
}

// A connection text, what the server says, and what it is told. MD5 password and salt: the worked exchange of the
// documentation's formula. SCRAM: computed with Python's hashlib.
const LOGINS: &[(&str, &[u8], &[u8])] = &[
    (
        "user=bob password=secret",
        b"R\0\0\0\x08\0\0\0\x03R\0\0\0\x08\0\0\0\0Z\0\0\0\x05I",
        b"\0\0\0\x12\0\x03\0\0user\0bob\0\0p\0\0\0\x0bsecret\0",
    ),
    (
        "user=zmjiang password=themanwhochangedchina",
        b"R\0\0\0\x0c\0\0\0\x05\x14\xf7\x6b\xf9R\0\0\0\x08\0\0\0\0Z\0\0\0\x05I",
        b"\0\0\0\x16\0\x03\0\0user\0zmjiang\0\0p\0\0\0\x28md521fe459d77d3e3ea9c9fcd5c11030d30\0",
    ),
    (
        "user=bob password=pencil",
        HONEST,
        b"\0\0\0\x12\0\x03\0\0user\0bob\0\0p\0\0\0\x39SCRAM-SHA-256\0\0\0\0\x23n,,n=bob,r=AAAAAAAAAAAAAAAAAAAAAAAAp\0\0\0\x5ac=biws,r=AAAAAAAAAAAAAAAAAAAAAAAAserver,p=J0NXZihltZeaxM/aR3msf91g2I9t/18qmtWUTFIvbaQ=",
    ),
];

#[test]
fn logins_are_sent(rt: HostRuntime) -> Result<(), Fail> {
    for (config, server, want) in LOGINS {
        check(&rt, rt.alloc(), (config, server), &[], want, &[])?;
    }
    Ok(())
}

// Each request that is made of texts.
fn of_texts(alloc: Global, number: usize) -> Result<Request, OutOfMemory> {
    match number {
        0 => Request::prepare(alloc, "s1", "SELECT $1"),
        1 => Request::bind(alloc, "", "s1", &[Some("1"), None]),
        2 => Request::execute(alloc, "", 2),
        3 => Request::query(alloc, "SELECT $1", &[Some("x")]),
        _ => Request::simple(alloc, "SELECT 1"),
    }
}

const ANSWERED: &[u8] =
    b"R\0\0\0\x08\0\0\0\0Z\0\0\0\x05I1\0\0\0\x04t\0\0\0\x0a\0\x01\0\0\0\x17n\0\0\0\x04Z\0\0\0\x05I2\0\0\0\x04C\0\0\0\x0dSELECT 0\0Z\0\0\0\x05I1\0\0\0\x042\0\0\0\x04C\0\0\0\x0dSELECT 0\0Z\0\0\0\x05II\0\0\0\x04Z\0\0\0\x05I";

// By the documentation's Message Formats.
const OF_TEXTS: &[u8] =
    b"\0\0\0\x12\0\x03\0\0user\0bob\0\0P\0\0\0\x13s1\0SELECT $1\0\0\0D\0\0\0\x08Ss1\0S\0\0\0\x04B\0\0\0\x17\0s1\0\0\0\0\x02\0\0\0\x011\xff\xff\xff\xff\0\0H\0\0\0\x04E\0\0\0\x09\0\0\0\0\x02H\0\0\0\x04S\0\0\0\x04P\0\0\0\x11\0SELECT $1\0\0\0B\0\0\0\x11\0\0\0\0\0\x01\0\0\0\x01x\0\0E\0\0\0\x09\0\0\0\0\0S\0\0\0\x04Q\0\0\0\x0dSELECT 1\0";

const MARKS_OF_TEXTS: &[Mark] = &[
    ("prepared", 1),
    ("bound", 0),
    ("complete", 0),
    ("rows", 0),
    ("responses", 1),
];

#[test]
fn requests_of_texts(rt: HostRuntime) -> Result<(), Fail> {
    let alloc = rt.alloc();
    let requests = requests(alloc, 0, 5)?;
    let checked = check(
        &rt,
        alloc,
        ("user=bob", ANSWERED),
        &requests,
        OF_TEXTS,
        MARKS_OF_TEXTS,
    );
    drop(requests);
    checked
}

// What a client has sent before its answer to a server's first SCRAM message.
const ASKED: &[u8] =
    b"\0\0\0\x12\0\x03\0\0user\0bob\0\0p\0\0\0\x39SCRAM-SHA-256\0\0\0\0\x23n,,n=bob,r=AAAAAAAAAAAAAAAAAAAAAAAA";

// These bytes with so many letters between them.
fn filled(alloc: Global, head: &[u8], count: usize, tail: &[u8]) -> Result<Vec<u8>, OutOfMemory> {
    let mut bytes = Vec::from_slice(alloc, head)?;
    bytes.resize(head.len().saturating_add(count), b'x')?;
    bytes.extend_from_slice(tail)?;
    Ok(bytes)
}

// A server's nonce, to be filled, so long that the answer to it is larger than its message may be.
const NONCE: &[u8] =
    b"R\0\0\0\x17\0\0\0\x0aSCRAM-SHA-256\0\0R\0\0\x27\x29\0\0\0\x0br=AAAAAAAAAAAAAAAAAAAAAAAA";

// Whether a session over the link is refused for its large answer.
fn is_too_large(alloc: Global, link: &mut MemoryLink, config: &Config) -> bool {
    let answer = session(alloc, link, config, &[], 20_000);
    let is_too_large = matches!(
        &answer,
        Err(PgWireClientError::PgWireError(PgWireError::MessageTooLarge(10000, 10064)))
    );
    drop(answer);
    is_too_large
}

fn check_large<R: Abort>(rt: &R, alloc: Global, link: &mut MemoryLink) -> Result<(), Fail> {
    let config = config_by(alloc, "user=bob password=pencil")?;
    let is_too_large = is_too_large(alloc, link, &config);
    drop(config);
    assert!(rt; is_too_large);
    assert_eq!(rt; link.written(), ASKED);
    Ok(())
}

// Nothing of the answer is written.
#[test]
fn an_answer_too_large(rt: HostRuntime) -> Result<(), Fail> {
    let server = filled(rt.alloc(), NONCE, 9980, b",s=YmFy,i=1")?;
    let mut link = link_of(rt.alloc(), server.as_slice(), 500)?;
    let checked = check_large(&rt, rt.alloc(), &mut link);
    drop(link);
    checked
}

fn named(alloc: Global, name: &str) -> Result<Option<Text>, OutOfMemory> {
    Ok(Some(Text::from_str(alloc, name)?))
}

fn one_parameter(alloc: Global) -> Result<Listed<Option<Octets>>, OutOfMemory> {
    let mut parameters = Listed::new(alloc);
    parameters.push(Some(Octets::from_slice(alloc, b"1")?))?;
    Ok(parameters)
}

fn one_type(alloc: Global) -> Result<Listed<u32>, OutOfMemory> {
    let mut types = Listed::new(alloc);
    types.push(23)?;
    Ok(types)
}

fn prepare(alloc: Global) -> Result<Request, OutOfMemory> {
    let sql = Text::from_str(alloc, "SELECT $1")?;
    Ok(Request::Prepare(named(alloc, "s")?, sql, one_type(alloc)?))
}

fn bind(alloc: Global) -> Result<Request, OutOfMemory> {
    let parameters = one_parameter(alloc)?;
    let portal = named(alloc, "p")?;
    Ok(Request::Bind(portal, named(alloc, "s")?, parameters, Listed::new(alloc)))
}

fn portal(alloc: Global) -> Result<Target, OutOfMemory> {
    Ok(Target::Portal(named(alloc, "p")?))
}

fn query(alloc: Global) -> Result<Request, OutOfMemory> {
    let sql = Text::from_str(alloc, "SELECT $1")?;
    Ok(Request::Query(sql, one_type(alloc)?, one_parameter(alloc)?))
}

// The requests that are made of texts, and then each kind of its parts, with an Execute that is suspended and one that
// completes.
fn request_at(alloc: Global, number: usize) -> Result<Request, OutOfMemory> {
    match number {
        0..5 => of_texts(alloc, number),
        5 => prepare(alloc),
        6 => bind(alloc),
        7 => Ok(Request::Execute(named(alloc, "p")?, 1)),
        8 => Ok(Request::Execute(named(alloc, "p")?, 0)),
        9 => Ok(Request::Describe(Target::Statement(named(alloc, "s")?))),
        10 => Ok(Request::Describe(portal(alloc)?)),
        11 => Ok(Request::Close(portal(alloc)?)),
        12 => query(alloc),
        _ => Ok(Request::Simple(Text::from_str(alloc, "SELECT 1")?)),
    }
}

fn requests(alloc: Global, first: usize, end: usize) -> Result<Vec<Request>, OutOfMemory> {
    let mut requests = Vec::new(alloc);
    for number in first..end {
        requests.push(request_at(alloc, number)?)?;
    }
    Ok(requests)
}

const SERVER: &[u8] = b"R\0\0\0\x08\0\0\0\0Z\0\0\0\x05I\
1\0\0\0\x04t\0\0\0\x0a\0\x01\0\0\0\x17T\0\0\0\x1a\0\x01a\0\0\0\0\0\0\0\0\0\0\x17\0\x04\xff\xff\xff\xff\0\0Z\0\0\0\x05I\
2\0\0\0\x04\
D\0\0\0\x0b\0\x01\0\0\0\x011s\0\0\0\x04\
C\0\0\0\x0dSELECT 0\0Z\0\0\0\x05I\
t\0\0\0\x0a\0\x01\0\0\0\x17T\0\0\0\x1a\0\x01a\0\0\0\0\0\0\0\0\0\0\x17\0\x04\xff\xff\xff\xff\0\0Z\0\0\0\x05I\
n\0\0\0\x04\
3\0\0\0\x04Z\0\0\0\x05I\
1\0\0\0\x042\0\0\0\x04D\0\0\0\x0b\0\x01\0\0\0\x011C\0\0\0\x0dSELECT 1\0Z\0\0\0\x05I\
T\0\0\0\x1a\0\x01a\0\0\0\0\0\0\0\0\0\0\x17\0\x04\xff\xff\xff\xff\0\0D\0\0\0\x0b\0\x01\0\0\0\x011C\0\0\0\x0dSELECT 1\0Z\0\0\0\x05I";

const SENT: &[u8] = b"\0\0\0\x12\0\x03\0\0user\0bob\0\0\
P\0\0\0\x16s\0SELECT $1\0\0\x01\0\0\0\x17D\0\0\0\x07Ss\0S\0\0\0\x04\
B\0\0\0\x13p\0s\0\0\0\0\x01\0\0\0\x011\0\0H\0\0\0\x04\
E\0\0\0\x0ap\0\0\0\0\x01H\0\0\0\x04\
E\0\0\0\x0ap\0\0\0\0\0H\0\0\0\x04S\0\0\0\x04\
D\0\0\0\x07Ss\0S\0\0\0\x04\
D\0\0\0\x07Pp\0H\0\0\0\x04\
C\0\0\0\x07Pp\0S\0\0\0\x04\
P\0\0\0\x15\0SELECT $1\0\0\x01\0\0\0\x17B\0\0\0\x11\0\0\0\0\0\x01\0\0\0\x011\0\0E\0\0\0\x09\0\0\0\0\0S\0\0\0\x04\
Q\0\0\0\x0dSELECT 1\0";

const MARKS: &[Mark] = &[
    ("prepared", 1),
    ("bound", 0),
    ("suspended", 1),
    ("complete", 0),
    ("described", 1),
    ("described", 0),
    ("closed", 0),
    ("rows", 1),
    ("responses", 1),
];

#[test]
fn requests_are_answered(rt: HostRuntime) -> Result<(), Fail> {
    let alloc = rt.alloc();
    let requests = requests(alloc, 5, 14)?;
    let checked = check(&rt, alloc, ("user=bob", SERVER), &requests, SENT, MARKS);
    drop(requests);
    checked
}

// The rows of one simple query.
fn rows_of(report: &SessionReport) -> Option<&DataRows> {
    if let [Answer::Responses(responses)] = report.answers.as_slice() {
        if let [Response::Query(_, _, rows)] = responses.as_slice() {
            return Some(rows);
        }
    }
    None
}

const SIZES: &[(usize, Option<u8>)] = &[(5, Some(b'1')), (40_004, Some(b'x')), (5, Some(b'2'))];

// Compares how long each row is, and its last byte.
fn check_rows<R: Abort>(rt: &R, rows: &DataRows) {
    assert_eq!(rt; rows.len(), SIZES.len());
    for (row, size) in rows.iter().zip(SIZES.iter()) {
        assert_eq!(rt; (row.payload.len(), row.payload.last().copied()), *size);
    }
}

fn check_report<R: Abort>(rt: &R, report: &SessionReport) -> Result<(), Fail> {
    check_rows(rt, rows_of(report).ok_or("no rows")?);
    Ok(())
}

fn check_rows_by<R: Abort>(
    rt: &R,
    alloc: Global,
    link: &mut MemoryLink,
    config: &Config,
    requests: &[Request],
) -> Result<(), Fail> {
    let report = session(alloc, link, config, requests, 100_000)?;
    let checked = check_report(rt, &report);
    drop(report);
    checked
}

fn check_rows_asked<R: Abort>(
    rt: &R,
    alloc: Global,
    link: &mut MemoryLink,
    config: &Config,
) -> Result<(), Fail> {
    let requests = [Request::simple(alloc, "SELECT a")?];
    let checked = check_rows_by(rt, alloc, link, config, &requests);
    drop(requests);
    checked
}

fn check_rows_over<R: Abort>(rt: &R, alloc: Global, link: &mut MemoryLink) -> Result<(), Fail> {
    let config = config_by(alloc, "user=bob")?;
    let checked = check_rows_asked(rt, alloc, link, &config);
    drop(config);
    checked
}

// Compares the rows, where the link moves so many bytes at a time.
fn check_pieces<R: Abort>(rt: &R, alloc: Global, server: &[u8], cut: usize) -> Result<(), Fail>
    requires { 0 < cut }
{
    let mut link = link_of(alloc, server, cut)?;
    let checked = check_rows_over(rt, alloc, &mut link);
    drop(link);
    checked
}

// A row of 40,000 bytes, to be filled, between two of one.
const LARGE_ROW: &[u8] = b"R\0\0\0\x08\0\0\0\0Z\0\0\0\x05I\
T\0\0\0\x1a\0\x01a\0\0\0\0\0\0\0\0\0\0\x17\0\x04\xff\xff\xff\xff\0\0D\0\0\0\x0b\0\x01\0\0\0\x011\
D\0\0\x9c\x4a\0\x01\0\0\x9c\x40";

const BEHIND_IT: &[u8] = b"D\0\0\0\x0b\0\x01\0\0\0\x012C\0\0\0\x0dSELECT 3\0Z\0\0\0\x05I";

// It comes in pieces and whole.
#[test]
fn a_large_row_comes_in_pieces(rt: HostRuntime) -> Result<(), Fail> {
    let server = filled(rt.alloc(), LARGE_ROW, 40_000, BEHIND_IT)?;
    for cut in [999, 8192, 65536] {
        check_pieces(&rt, rt.alloc(), server.as_slice(), cut)?;
    }
    Ok(())
}
