//! Servers in memory.
ghost use Rattle.std.specs.Prelude.{All, IfOk};
ghost use Rattle.pgw_link.specs.MemoryLinks.{IsUnused};

use pgw_client::{
    Config, Listed, MemoryDialer, MemoryLink, Octets, OutOfMemory, PgWireClientResult,
};
use pgw_pool_shared::{DropCause, GivenBack, Refilled, SharedPool};
use std::alloc::Global;
use std::sync::Wait;
use std::test::Fail;

// What a server says, by the message formats of the protocol.
const WELCOME: &[u8] = b"R\0\0\0\x08\0\0\0\0Z\0\0\0\x05I";

/// A query is answered, and the reset behind it.
pub(crate) const LEASE: &[u8] = b"C\0\0\0\x07OK\0Z\0\0\0\x05IC\0\0\0\x10DISCARD ALL\0Z\0\0\0\x05I";

/// A reset is answered.
pub(crate) const DISCARDED: &[u8] = b"C\0\0\0\x10DISCARD ALL\0Z\0\0\0\x05I";

/// A reset is refused.
pub(crate) const REFUSED: &[u8] = b"E\0\0\0\x19SERROR\0CXX000\0Mboom\0\0Z\0\0\0\x05I";

// More nonces than any test has servers.
const NONCES: &[[u8; 18]] = &[[0; 18]; 8];

// What a server says: behind its welcome so many times the same.
type Said = (&'static [u8], usize);

fn link_to(alloc: Global, server: Said) -> Result<MemoryLink, OutOfMemory>
    ensures { IfOk result IsUnused }
{
    let (piece, times) = server;
    let mut said = Vec::new(alloc);
    said.extend_from_slice(WELCOME)?;
    for _ in 0..times {
        said.extend_from_slice(piece)?;
    }
    let server = Octets::from_vec(said)?;
    Ok(MemoryLink::new(alloc, server, 30, Listed::new(alloc), Listed::new(alloc)))
}

// A link to each server.
fn links_to(alloc: Global, servers: &[Said]) -> Result<Listed<MemoryLink>, OutOfMemory>
    ensures { IfOk result (All IsUnused) }
{
    let mut links = Listed::new(alloc);
    for said in servers {
        links.push(link_to(alloc, *said)?)?;
    }
    Ok(links)
}

/// A dialer to these servers, one behind the other. The dial with this number fails, from 1 on.
pub(crate) fn dialer_to(
    alloc: Global,
    servers: &[Said],
    failing_dial: u64,
) -> Result<MemoryDialer, OutOfMemory> {
    let mut fail_dials = Listed::new(alloc);
    fail_dials.push(failing_dial)?;
    Ok(MemoryDialer::new(links_to(alloc, servers)?, fail_dials))
}

pub(crate) fn config(alloc: Global) -> Result<Config, Fail> {
    Ok(Config::parse(alloc, "user=bob host=a")?)
}

/// A pool with one session for each server, in which so many may wait.
pub(crate) fn start(
    alloc: Global,
    servers: &[Said],
    room_to_wait: usize,
) -> Result<SharedPool<MemoryLink>, Fail> {
    let nonces = NONCES.get(..servers.len()).unwrap_or(NONCES);
    let config = config(alloc)?;
    let mut dialer = dialer_to(alloc, servers, 0)?;
    let started = SharedPool::start(alloc, &config, nonces, 10_000, &mut dialer, room_to_wait);
    Ok(started.ok().ok_or("not started")?)
}

fn refill_name(came: &PgWireClientResult<Refilled>) -> &'static str {
    match came {
        Ok(Refilled::Added) => "added",
        Ok(Refilled::Full) => "full",
        Ok(Refilled::Displaced) => "displaced",
        Err(_) => "failed",
    }
}

/// Connects a session for a place that is free, and says what came of it.
pub(crate) fn refill<R: Wait>(
    rt: &R,
    pool: &SharedPool<MemoryLink>,
    config: &Config,
    dialer: &mut MemoryDialer,
) -> &'static str {
    let came = pool.refill(rt, config, [1; 18], 10_000, dialer);
    refill_name(&came)
}

/// What became of a session, by name.
pub(crate) fn name(given_back: &GivenBack) -> &'static str {
    match given_back {
        GivenBack::Kept => "kept",
        GivenBack::Dropped(DropCause::Refused(_)) => "refused",
        GivenBack::Dropped(_) => "dropped",
        GivenBack::Foreign => "foreign",
    }
}
