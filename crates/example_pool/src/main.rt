//! A pool of sessions that threads share, as an example to copy.
//!
//! `example_pool TEXT` connects four sessions to the server of a connection text. Eight threads take
//! 250 leases each. In a lease a thread looks whether anything of a former lease is there, and then
//! makes a temporary table, changes a setting and prepares a statement. Where a session is lost, the
//! thread that had it connects another in its place. At the end a lease is given back with its
//! transaction open.
#![tactic(auto)]

mod threads;
mod visit;

use crate::threads::{ALL, Tally, take_leases};
use crate::visit::leave_open;
use anyhow::{Result, bail};
use pgw_client::{ClientSocket, Config, SocketDialer, Timeouts};
use pgw_pool::Pool;
use pgw_pool_shared::SharedPool;
use rand::RngExt;
use rand::rngs::StdRng;
use std::alloc::{AllocGlobal, Global};
use std::io::{Eprint, Print};
use std::net::{Net, TcpListener, TcpStream};
use std::process::ExitCode;
use std::random::RandomSource;
use std::sync::Wait;
use std::thread::Threads;
use std::time::Clock;
use std::{env, io};

/// The most bytes that are read of one session.
pub(crate) const LIMIT: u64 = 1_000_000_000;

const SESSIONS: usize = 4;

// As many threads may wait at a time.
const WAITING: usize = 8;

fn nonces<R: RandomSource>(rt: &R, alloc: Global) -> Result<Vec<[u8; 18]>> {
    let rng: io::Result<StdRng> = rand::make_rng(rt);
    let mut rng = rng?;
    let mut nonces = Vec::new(alloc);
    for _ in 0..SESSIONS {
        nonces.push(rng.random())?;
    }
    Ok(nonces)
}

fn print_tally<R: Print>(rt: &R, tally: &Tally, pool: &Pool<ClientSocket>) -> Result<()> {
    println!(rt;
        "leases: {}, of which {} were lost",
        tally.leases(),
        tally.lost()
    )?;
    println!(rt; "leaks: {}", tally.leaks())?;
    println!(rt;
        "sessions: {} dropped, {} refilled, {} idle at the end",
        pool.dropped(),
        pool.connected().saturating_sub(SESSIONS as u64),
        pool.idle()
    )?;
    Ok(())
}

// Whether nothing leaked and each thread took all its leases.
fn use_pool<R>(rt: &R, config: &Config) -> Result<bool>
where
    R: Threads
        + Wait
        + Sync
        + Clock
        + AllocGlobal
        + RandomSource
        + Print
        + Eprint
        + Net<Listener = TcpListener, Stream = TcpStream>,
{
    let alloc = rt.alloc();
    let mut dialer = SocketDialer::new(rt, Timeouts::NONE);
    let nonces = nonces(rt, alloc)?;
    let pool = SharedPool::start(alloc, config, &nonces, LIMIT, &mut dialer, WAITING)?;
    let tally = Tally::new();
    take_leases(rt, &pool, config, &tally);
    println!(rt; "an open transaction: {}", leave_open(rt, alloc, &pool)?)?;
    let pool = pool.into_pool();
    print_tally(rt, &tally, &pool)?;
    pool.close(&mut dialer)?;
    Ok(tally.leases() == ALL && tally.leaks() == 0)
}

fn main(rt: HostRuntime) -> Result<ExitCode> {
    let alloc = rt.alloc();
    let Some(text) = env::args(&rt)?.nth(1) else {
        println!(rt; "example_pool TEXT")?;
        return Ok(ExitCode::SUCCESS);
    };
    let config = Config::parse(alloc, text.as_str())?;
    if !use_pool(&rt, &config)? {
        bail!("a lease has seen what another has done, or was not taken");
    }
    Ok(ExitCode::SUCCESS)
}
