//! Servers in memory, pools of sessions with them, and what is seen of their leases.

ghost use Rattle.std.specs.Prelude.{All, IfOk};
ghost use Rattle.pgw_link.specs.MemoryLinks.{IsUnused};

use pgw_client::{
    Answer, Config, Listed, MemoryDialer, MemoryLink, Octets, OutOfMemory, PgWireClientError,
    PgWireClientResult, Request, TransactionStatus,
};
use pgw_pool::{CheckError, DropCause, Lease, LendError, Pool, Returned, Unfit};
use std::alloc::Global;
use std::test::Fail;

// What a server says, by the message formats of the protocol.
pub(crate) const WELCOME: &[u8] = b"R\0\0\0\x08\0\0\0\0Z\0\0\0\x05I";

pub(crate) const DONE: &[u8] = b"C\0\0\0\x07OK\0";

pub(crate) const DISCARDED: &[u8] = b"C\0\0\0\x10DISCARD ALL\0";

pub(crate) const EMPTY: &[u8] = b"I\0\0\0\x04";

pub(crate) const ERROR: &[u8] = b"E\0\0\0\x19SERROR\0CXX000\0Mboom\0\0";

pub(crate) const BOUND: &[u8] = b"2\0\0\0\x04";

pub(crate) const IDLE: &[u8] = b"Z\0\0\0\x05I";

pub(crate) const OPEN: &[u8] = b"Z\0\0\0\x05T";

pub(crate) const FAILED: &[u8] = b"Z\0\0\0\x05E";

// How a client asks for the reset, and how it asks an empty query.
const RESET: &[u8] = b"Q\0\0\0\x10DISCARD ALL\0";

const CHECK: &[u8] = b"Q\0\0\0\x05\0";

// What a server says; and which read and which write of its link fail, counted from 1, or 0 for none.
pub(crate) type Server = (&'static [&'static [u8]], u64, u64);

// One that ends behind the login.
pub(crate) const SILENT: Server = (&[WELCOME], 0, 0);

// How many bytes a link moves at most in one call, where it is not one.
pub(crate) const CUT: usize = 30;

// More nonces than any test has servers.
const NONCES: &[[u8; 18]] = &[[0; 18]; 8];

fn bytes_of(alloc: Global, pieces: &[&[u8]]) -> Result<Octets, OutOfMemory> {
    let mut said = Vec::new(alloc);
    for piece in pieces {
        said.extend_from_slice(piece)?;
    }
    Octets::from_vec(said)
}

pub(crate) fn one(alloc: Global, number: u64) -> Result<Listed<u64>, OutOfMemory> {
    let mut numbers = Listed::new(alloc);
    numbers.push(number)?;
    Ok(numbers)
}

fn link_to(alloc: Global, cut: usize, server: Server) -> Result<MemoryLink, OutOfMemory>
    ensures { IfOk result IsUnused }
{
    let (said, failing_read, failing_write) = server;
    let reads = one(alloc, failing_read)?;
    let writes = one(alloc, failing_write)?;
    let bytes = bytes_of(alloc, said)?;
    Ok(MemoryLink::new(alloc, bytes, cut.max(1), reads, writes))
}

fn links_to(
    alloc: Global,
    cut: usize,
    servers: &[Server],
) -> Result<Listed<MemoryLink>, OutOfMemory>
    ensures { IfOk result (All IsUnused) }
{
    let mut links = Listed::new(alloc);
    for server in servers {
        links.push(link_to(alloc, cut, *server)?)?;
    }
    Ok(links)
}

// A dialer of a link to each server, of whose dials this one fails.
pub(crate) fn dialer_to(
    alloc: Global,
    cut: usize,
    servers: &[Server],
    failing_dial: u64,
) -> Result<Box<MemoryDialer>, OutOfMemory> {
    let dials = one(alloc, failing_dial)?;
    let links = links_to(alloc, cut, servers)?;
    Ok(Box::new(alloc, MemoryDialer::new(links, dials))?)
}

pub(crate) fn boxed_pool(
    alloc: Global,
    started: PgWireClientResult<Pool<MemoryLink>>,
) -> Result<Box<Pool<MemoryLink>>, Fail> {
    let pool = started.ok().ok_or("no pool")?;
    Ok(Box::new(alloc, pool)?)
}

// A pool of a session with each server.
fn pool_over(
    alloc: Global,
    config: &Config,
    cut: usize,
    servers: &[Server],
) -> Result<Box<Pool<MemoryLink>>, Fail> {
    let nonces = NONCES.get(..servers.len()).unwrap_or(NONCES);
    let mut dialer = dialer_to(alloc, cut, servers, 0)?;
    let started = Pool::start(alloc, config, nonces, 10_000, &mut *dialer);
    boxed_pool(alloc, started)
}

pub(crate) fn new_config(alloc: Global) -> Result<Box<Config>, Fail> {
    let config = Config::parse(alloc, "user=bob host=a")?;
    Ok(Box::new(alloc, config)?)
}

pub(crate) fn new_request(alloc: Global) -> Result<Box<Request>, Fail> {
    let request = Request::simple(alloc, "SELECT 1")?;
    Ok(Box::new(alloc, request)?)
}

// A pool, the dialer of what comes into it later, and what a test asks by which configuration. Each
// large value is in a box: what a function owns by itself is what makes its proof dear.
#[derive(Drop)]
pub(crate) struct Setting {
    pub(crate) config: Box<Config>,
    pub(crate) request: Box<Request>,
    pub(crate) dialer: Box<MemoryDialer>,
    pub(crate) pool: Box<Pool<MemoryLink>>,
}

// A pool of a session with each server; and a dialer to the later ones, of whose dials this one
// fails.
pub(crate) fn new_setting(
    alloc: Global,
    cut: usize,
    servers: &[Server],
    later: &[Server],
    failing_dial: u64,
) -> Result<Setting, Fail> {
    let config = new_config(alloc)?;
    let request = new_request(alloc)?;
    let dialer = dialer_to(alloc, cut, later, failing_dial)?;
    let pool = pool_over(alloc, &config, cut, servers)?;
    Ok(Setting {
        config,
        request,
        dialer,
        pool,
    })
}

// How many sessions are idle, how many leases are out, how many sessions were dropped, and how many
// connected.
pub(crate) type Numbers = (usize, usize, u64, u64);

pub(crate) fn numbers(pool: &Pool<MemoryLink>) -> Numbers {
    (pool.idle(), pool.out(), pool.dropped(), pool.connected())
}

pub(crate) fn error_name(error: &PgWireClientError) -> &'static str {
    match error {
        PgWireClientError::UnexpectedEOF => "end",
        PgWireClientError::IoError => "fault",
        PgWireClientError::RemoteError(_) => "remote error",
        PgWireClientError::UnexpectedMessage(_) => "unexpected",
        PgWireClientError::Broken => "broken",
        _ => "another error",
    }
}

fn failure_word(error: &PgWireClientError) -> &'static str {
    match error {
        PgWireClientError::UnexpectedEOF => "Failed: end",
        PgWireClientError::IoError => "Failed: fault",
        PgWireClientError::RemoteError(_) => "Failed: remote error",
        PgWireClientError::UnexpectedMessage(_) => "Failed: unexpected",
        PgWireClientError::Broken => "Failed: broken",
        _ => "Failed: another error",
    }
}

fn status_word(status: &TransactionStatus) -> &'static str {
    match status {
        TransactionStatus::Idle => "Status: idle",
        TransactionStatus::Transaction => "Status: open",
        TransactionStatus::Error => "Status: failed",
    }
}

// What became of a session, by name; and the same with what was wrong.
pub(crate) type Words = (&'static str, &'static str);

pub(crate) fn cause_words(cause: &DropCause) -> Words {
    match cause {
        DropCause::Failed(error) => ("Failed", failure_word(error)),
        DropCause::Refused(_) => ("Refused", "Refused"),
        DropCause::Status(status) => ("Status", status_word(status)),
        DropCause::OutOfMemory => ("OutOfMemory", "OutOfMemory"),
    }
}

pub(crate) fn returned_words(returned: &Returned) -> Words {
    match returned {
        Returned::Kept => ("kept", "kept"),
        Returned::Dropped(cause) => cause_words(cause),
    }
}

pub(crate) fn words_of(returned: Returned) -> Words {
    returned_words(&returned)
}

// Why no session is lent that answers.
fn refusal_words(error: &CheckError) -> Words {
    match error {
        CheckError::Empty => ("empty", "empty"),
        CheckError::Exhausted => ("exhausted", "exhausted"),
        CheckError::Unfit(Unfit::Answered(_)) => ("answered", "answered"),
        CheckError::Unfit(Unfit::Dropped(cause)) => cause_words(cause),
    }
}

fn came_name(came: &PgWireClientResult<Answer>) -> &'static str {
    match came {
        Ok(Answer::Responses(_)) => "responses",
        Ok(Answer::Remote(_)) => "remote",
        Ok(_) => "another answer",
        Err(error) => error_name(error),
    }
}

// Asks in a lease, if there is something to ask, and tells what came of it.
fn answered(lease: &mut Lease<MemoryLink>, request: Option<&Request>) -> &'static str {
    match request {
        Some(request) => {
            let came = lease.run(request);
            came_name(&came)
        }
        None => "",
    }
}

// What is seen of one lease.
#[derive(Drop)]
pub(crate) struct Seen {
    pub(crate) number: u64,
    // How many its session has had.
    pub(crate) leases: u64,
    // Whether the reset was the last that its link was told before.
    pub(crate) is_behind_reset: bool,
    // What came of the request, or why there is no lease.
    pub(crate) came: &'static str,
    pub(crate) end: Words,
}

fn not_lent(why: LendError) -> Seen {
    Seen {
        number: 0,
        leases: 0,
        is_behind_reset: false,
        came: match why {
            LendError::Empty => "empty",
            LendError::Exhausted => "exhausted",
        },
        end: ("none", "none"),
    }
}

// Takes a lease, asks in it and gives it back.
pub(crate) fn lease_once(pool: &mut Pool<MemoryLink>, request: Option<&Request>) -> Seen {
    match pool.lend() {
        Ok(mut lease) => {
            let number = lease.number();
            let leases = lease.leases();
            let is_behind_reset = lease.link().written().ends_with(RESET);
            let came = answered(&mut lease, request);
            Seen {
                number,
                leases,
                is_behind_reset,
                came,
                end: words_of(pool.give_back(lease)),
            }
        }
        Err(why) => not_lent(why),
    }
}

// Takes a lease of a session that answers, and gives it back: its number, whether the empty query was
// the last that its link was told, and what became of its session; or why none is lent.
pub(crate) fn check_once(pool: &mut Pool<MemoryLink>) -> (u64, bool, Words) {
    match pool.lend_checked() {
        Ok(lease) => {
            let number = lease.number();
            let is_checked = lease.link().written().ends_with(CHECK);
            (number, is_checked, words_of(pool.give_back(lease)))
        }
        Err(error) => (0, false, refusal_words(&error)),
    }
}

fn refill_word(came: &PgWireClientResult<()>) -> &'static str {
    match came {
        Ok(()) => "refilled",
        Err(error) => error_name(error),
    }
}

// Connects a session in place of one that was lost, if one was.
pub(crate) fn refilled(
    pool: &mut Pool<MemoryLink>,
    config: &Config,
    dialer: &mut MemoryDialer,
) -> (&'static str, Numbers) {
    if pool.idle() + pool.out() < pool.capacity() {
        let came = pool.refill(config, [1; 18], 10_000, dialer);
        let word = refill_word(&came);
        drop(came);
        (word, numbers(pool))
    } else {
        ("full", numbers(pool))
    }
}
