//! What a pool script comes to.
ghost use Rattle.std.specs.Prelude.{◌≡◌, ◌<◌, ◌+◌, ◌^◌, [], length, IfOk, OnOk, IfSome, MatchOption, false, Some, None, Ok, Err};
ghost use Rattle.pgw_prog_pool.specs.Outcome.{PoolComesTo, ComesBy, RunsPool};
ghost use Rattle.pgw_prog_pool.specs.Lines.{wants_memory as wants};
ghost use Rattle.pgw_prog_pool.specs.Views.{pool_standing, HasRoom, MadeUpTo};

use crate::desk::{Seat, give_all_back, make_call, wants_memory};
use crate::start::start;
use pgw_client::{Config, MemoryLink, OutOfMemory, PgWireClientError};
use pgw_pool::Pool;
use pgw_prog_script::pool_script::{PoolCall, PoolScript};
use std::alloc::Global;

/// What a pool script comes to.
#[derive(Drop)]
pub enum PoolOutcome {
    /// The text of its calls.
    Told(Vec<u8>),
    /// No pool was started.
    Refused(PgWireClientError),
    /// The line with this number names a lease that is not out.
    NotOut(u64),
}

// Makes calls, up to one that names a lease which is not out. It answers that one's place.
fn make_calls(
    pool: &mut Pool<MemoryLink>,
    out: &mut Vec<Seat>,
    calls: &[PoolCall],
    text: &mut Vec<u8>,
) -> Result<Option<usize>, OutOfMemory>
    requires { HasRoom pool.old out.old.items }
    ensures room { HasRoom pool.new out.new.items }
    ensures made { IfOk result (MadeUpTo (pool_standing pool.old out.old.items) calls.now
        (pool_standing pool.new out.new.items) text.old.items text.new.items) }
{
    for at in 0..calls.len() {
        if !make_call(pool, out, &calls[at], text)? {
            return Ok(Some(at));
        }
    }
    Ok(None)
}

// What calls came to, of which the first stands behind so many lines.
fn outcome_of(text: Vec<u8>, lines: u64, stop: Option<usize>) -> PoolOutcome
    requires { IfSome stop (λ at. lines + at + 1 < 2 ^ 64) }
    ensures { MatchOption stop (result ≡ PoolOutcome.Told text)
        (λ at. result ≡ PoolOutcome.NotOut (lines + at + 1)) }
{
    match stop {
        None => PoolOutcome::Told(text),
        Some(at) => {
            drop(text);
            PoolOutcome::NotOut(lines + at as u64 + 1)
        }
    }
}

// Makes the calls of a pool, of which the first stands behind so many lines, and gives back the leases that are out then.
fn run_calls(
    alloc: Global,
    mut pool: Pool<MemoryLink>,
    calls: &[PoolCall],
    lines: u64,
) -> Result<PoolOutcome, OutOfMemory>
    requires room { HasRoom pool [] }
    requires lines { lines + length calls.now < 2 ^ 64 }
    ensures { IfOk result (PoolComesTo (pool_standing pool []) calls.now lines) }
{
    let mut out = Vec::new(alloc);
    let mut text = Vec::new(alloc);
    let made = make_calls(&mut pool, &mut out, calls, &mut text);
    let wanting = give_all_back(&mut pool, out);
    drop(pool);
    match made {
        Ok(stop) if !wanting => Ok(outcome_of(text, lines, stop)),
        _ => {
            drop(text);
            Err(OutOfMemory)
        }
    }
}

// Runs a script with the configuration of its connection text.
fn run_with(alloc: Global, script: &PoolScript, config: Config) -> Result<PoolOutcome, OutOfMemory>
    requires { 0 < (script.now).cut }
    ensures { IfOk result (ComesBy script.now (Ok config)) }
{
    let servers = script.servers.as_slice();
    let started = start(
        alloc,
        &config,
        script.nonce,
        script.limit,
        servers,
        script.cut,
    );
    drop(config);
    match started {
        Ok(pool) => run_calls(
            alloc,
            pool,
            script.calls.as_slice(),
            servers.len() as u64 + 4,
        ),
        Err(error) => refused(error),
    }
}

// That no pool was started. Want of memory is no reason to be told.
fn refused(error: PgWireClientError) -> Result<PoolOutcome, OutOfMemory>
    ensures value { IfOk result (λ o. o ≡ PoolOutcome.Refused error) }
    ensures memory { OnOk result (wants error ≡ false) }
{
    if wants_memory(&error) {
        drop(error);
        return Err(OutOfMemory);
    }
    Ok(PoolOutcome::Refused(error))
}

/// Starts the pool of a script over links in memory, makes its calls, and prints what comes of them. Leases that are out
/// behind the last call are given back.
pub fn run_pool(alloc: Global, script: &PoolScript) -> Result<PoolOutcome, OutOfMemory>
    requires { 0 < (script.now).cut }
    ensures { IfOk result (RunsPool script.now) }
{
    match Config::parse(alloc, script.config.as_str()) {
        Ok(config) => run_with(alloc, script, config),
        Err(error) => {
            let error = PgWireClientError::from(error);
            refused(error)
        }
    }
}
