//! The pool of a script.
ghost use Rattle.std.specs.Prelude.{◌≡◌, ◌<◌, [], length, map, replicate, All, IfOk, IfErr};
ghost use Rattle.pgw_link.specs.MemoryLinks.{IsUnused};
ghost use Rattle.pgw_link.specs.Memory.{memory_tape, memory_left, faults_of};
ghost use Rattle.pgw_pool.specs.Views.{idle_in, lefts_in, lent_by};
ghost use Rattle.pgw_prog_pool.specs.Outcome.{StartsPool, Unstarted};
ghost use Rattle.pgw_prog_pool.specs.Views.{HasRoom, to_come};

use pgw_client::{
    Config, Listed, MemoryDialer, MemoryLink, Octets, OutOfMemory, PgWireClientError,
    PgWireClientResult,
};
use pgw_pool::Pool;
use pgw_types::listed::Duplicate;
use std::alloc::Global;

fn link_to(alloc: Global, server: &Octets, cut: usize) -> Result<MemoryLink, OutOfMemory>
    requires { 0 < cut }
    ensures unused { IfOk result IsUnused }
    ensures left { IfOk result (λ link. memory_left link ≡ server.now) }
{
    let server = server.duplicate()?;
    Ok(MemoryLink::new(alloc, server, cut, Listed::new(alloc), Listed::new(alloc)))
}

// A link to each server.
fn links_to(
    alloc: Global,
    servers: &[Octets],
    cut: usize,
) -> Result<Listed<MemoryLink>, OutOfMemory>
    requires { 0 < cut }
    ensures unused { IfOk result (All IsUnused) }
    ensures left { IfOk result (λ links. map memory_left links ≡ servers.now) }
{
    let mut links = Listed::new(alloc);
    for server in servers {
        links.push(link_to(alloc, server, cut)?)?;
    }
    Ok(links)
}

// One nonce, for each session.
fn nonces_for(alloc: Global, nonce: [u8; 18], count: usize) -> Result<Vec<[u8; 18]>, OutOfMemory>
    ensures { IfOk result (λ nonces. nonces.items ≡ replicate count nonce) }
{
    Ok(vec![in alloc; nonce; count]?)
}

fn start_with(
    alloc: Global,
    config: &Config,
    nonces: &[[u8; 18]],
    limit: u64,
    links: Listed<MemoryLink>,
) -> PgWireClientResult<Pool<MemoryLink>>
    requires { All IsUnused links }
    ensures started { IfOk result (λ pool. StartsPool config.now limit nonces.now
        (map memory_left links) (idle_in memory_tape faults_of pool) (lefts_in to_come pool)) }
    ensures none { IfOk result (λ pool. lent_by pool ≡ 0) }
    ensures room { IfOk result (λ pool. HasRoom pool []) }
    ensures refused { IfErr result (Unstarted config.now limit nonces.now (map memory_left links)) }
{
    let mut dialer = MemoryDialer::new(links, Listed::new(alloc));
    let started = Pool::start(alloc, config, nonces, limit, &mut dialer);
    drop(dialer);
    started
}

/// Starts a pool with one session for each server, over links in memory that move so many bytes at once.
pub fn start(
    alloc: Global,
    config: &Config,
    nonce: [u8; 18],
    limit: u64,
    servers: &[Octets],
    cut: usize,
) -> PgWireClientResult<Pool<MemoryLink>>
    requires { 0 < cut }
    ensures started { IfOk result (λ pool. StartsPool config.now limit
        (replicate (length servers.now) nonce) servers.now (idle_in memory_tape faults_of pool)
        (lefts_in to_come pool)) }
    ensures none { IfOk result (λ pool. lent_by pool ≡ 0) }
    ensures room { IfOk result (λ pool. HasRoom pool []) }
    ensures refused { IfErr result (Unstarted config.now limit
        (replicate (length servers.now) nonce) servers.now) }
{
    let nonces = match nonces_for(alloc, nonce, servers.len()) {
        Ok(nonces) => nonces,
        Err(_) => return Err(PgWireClientError::OutOfMemory),
    };
    let links = match links_to(alloc, servers, cut) {
        Ok(links) => links,
        Err(_) => return Err(PgWireClientError::OutOfMemory),
    };
    start_with(alloc, config, nonces.as_slice(), limit, links)
}
