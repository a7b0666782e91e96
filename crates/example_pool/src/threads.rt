//! Threads that take leases.

use crate::LIMIT;
use crate::visit::{patience, visit};
use pgw_client::{ClientSocket, Config, SocketDialer, Timeouts};
use pgw_pool_shared::{GivenBack, Refilled, SharedPool};
use rand::RngExt;
use rand::rngs::StdRng;
use std::alloc::{AllocGlobal, Global};
use std::io::Eprint;
use std::net::{Net, TcpListener, TcpStream};
use std::random::RandomSource;
use std::sync::Wait;
use std::sync::atomic::{AtomicU64, Ordering};
use std::thread::Threads;
use std::time::{Clock, Duration};
use std::{io, thread};

const THREADS: u32 = 8;

// So many leases each of them takes.
const LEASES: u32 = 250;

/// So many are taken in all.
pub(crate) const ALL: u64 = 2000;

// A server that is started anew refuses sessions for some time, so they are asked for so often.
const TRIES: u32 = 600;

// In milliseconds.
const PAUSE: u64 = 100;

/// What the threads count together.
#[derive(Drop)]
pub(crate) struct Tally {
    leases: AtomicU64,
    lost: AtomicU64,
    leaks: AtomicU64,
}

impl Tally {
    pub(crate) fn new() -> Tally {
        Tally {
            leases: AtomicU64::new(0),
            lost: AtomicU64::new(0),
            leaks: AtomicU64::new(0),
        }
    }

    // A lease in which all was done, and so many things of a former one were there.
    fn count(&self, found: i64) {
        self.leases.fetch_add(1, Ordering::SeqCst);
        if found != 0 {
            self.leaks.fetch_add(1, Ordering::SeqCst);
        }
    }

    fn count_lost(&self) {
        self.leases.fetch_add(1, Ordering::SeqCst);
        self.lost.fetch_add(1, Ordering::SeqCst);
    }

    /// How many leases were taken.
    pub(crate) fn leases(&self) -> u64 {
        self.leases.load(Ordering::SeqCst)
    }

    /// In how many of them not all was done.
    pub(crate) fn lost(&self) -> u64 {
        self.lost.load(Ordering::SeqCst)
    }

    /// In how many of them something of a former one was there.
    pub(crate) fn leaks(&self) -> u64 {
        self.leaks.load(Ordering::SeqCst)
    }
}

// What the threads use together.
#[derive(Clone, Copy)]
struct Shared<'a> {
    pool: &'a SharedPool<ClientSocket>,
    config: &'a Config,
    tally: &'a Tally,
}

fn nonce<R: RandomSource>(rt: &R) -> io::Result<[u8; 18]> {
    let rng: io::Result<StdRng> = rand::make_rng(rt);
    Ok(rng?.random())
}

// Whether no place is free any more: a session was connected for it, or another thread did so.
fn refill_once<R>(rt: &R, shared: Shared<'_>) -> bool
where
    R: Wait + RandomSource + Eprint + Net<Listener = TcpListener, Stream = TcpStream>,
{
    let Ok(nonce) = nonce(rt) else { return false };
    let mut dialer = SocketDialer::new(rt, Timeouts::NONE);
    let refilled = shared
        .pool
        .refill(rt, shared.config, nonce, LIMIT, &mut dialer);
    match refilled {
        Ok(Refilled::Added | Refilled::Full | Refilled::Displaced) => true,
        Err(_) => false,
    }
}

// Connects a session in place of one that was lost, as soon as the server takes it.
fn refill<R>(rt: &R, shared: Shared<'_>)
where
    R: Wait + Clock + RandomSource + Eprint + Net<Listener = TcpListener, Stream = TcpStream>,
{
    for _ in 0..TRIES {
        if refill_once(rt, shared) {
            return;
        }
        thread::sleep(rt, Duration::from_millis(PAUSE));
    }
}

// Takes one lease, and says whether it got one.
fn take_lease<R>(rt: &R, shared: Shared<'_>) -> bool
where
    R: Wait
        + Clock
        + AllocGlobal
        + RandomSource
        + Eprint
        + Net<Listener = TcpListener, Stream = TcpStream>,
{
    let alloc = rt.alloc();
    let Ok(mut lease) = shared.pool.lend(rt, patience()) else {
        return false
    };
    match visit(alloc, &mut lease) {
        Ok(found) => shared.tally.count(found),
        Err(error) => {
            let _told = eprintln!(rt; "lease {}: {error}", lease.number());
            shared.tally.count_lost();
        }
    }
    if let GivenBack::Dropped(cause) = shared.pool.give_back(rt, lease) {
        drop(cause);
        refill(rt, shared);
    }
    true
}

// Takes a thread's leases, up to the first that it does not get.
fn take_some<R>(rt: &R, shared: Shared<'_>)
where
    R: Wait
        + Clock
        + AllocGlobal
        + RandomSource
        + Eprint
        + Net<Listener = TcpListener, Stream = TcpStream>,
{
    for _ in 0..LEASES {
        if !take_lease(rt, shared) {
            return;
        }
    }
}

/// Has eight threads take their leases.
pub(crate) fn take_leases<R>(
    rt: &R,
    pool: &SharedPool<ClientSocket>,
    config: &Config,
    tally: &Tally,
)
where
    R: Threads
        + Wait
        + Sync
        + Clock
        + AllocGlobal
        + RandomSource
        + Eprint
        + Net<Listener = TcpListener, Stream = TcpStream>,
{
    let shared = Shared {
        pool,
        config,
        tally,
    };
    thread::scope(thread::scope_env(), rt, |scope| {
        for _ in 0..THREADS {
            if scope.spawn(move || take_some(rt, shared)).is_err() {
                return;
            }
        }
    });
}
