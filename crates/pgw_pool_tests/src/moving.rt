//! Sessions that leave a pool, and that come into one, over links in memory.

use crate::failing::{Ended, check_leases};
use crate::servers::{
    DISCARDED, DONE, ERROR, IDLE, Numbers, OPEN, SILENT, Server, Setting, WELCOME, cause_words,
    error_name, new_setting, numbers,
};
use pgw_client::{Config, MemoryDialer, MemoryLink};
use pgw_pool::{DropCause, Pool, Spare};
use std::alloc::Global;
use std::process::Abort;
use std::test::Fail;

// The number of a session's last lease, or 0; what became of the session; and what the pool then
// holds.
type Moved = (u64, &'static str, Numbers);

// Puts a session back into the pool that lent it.
fn put_back(pool: &mut Pool<MemoryLink>, spare: Spare<MemoryLink>) -> Moved {
    let number = spare.number();
    if number > 0 && pool.idle() < pool.capacity() {
        pool.put(spare);
        (number, "put", numbers(pool))
    } else {
        drop(spare);
        (number, "let go", numbers(pool))
    }
}

// Tells the pool that the session of a lease was let go.
fn lost(pool: &mut Pool<MemoryLink>, cause: DropCause) -> Moved {
    let (_, word) = cause_words(&cause);
    drop(cause);
    pool.lose();
    (0, word, numbers(pool))
}

// How many leases a pool has lent, what it holds while one is reset, and what becomes of its session.
type Reset = (u64, Numbers, Moved);

// Puts the session of a lease that was reset back, or loses it.
fn moved(pool: &mut Pool<MemoryLink>, ended: Result<Spare<MemoryLink>, DropCause>) -> Moved {
    match ended {
        Ok(spare) => put_back(pool, spare),
        Err(cause) => lost(pool, cause),
    }
}

// Takes a lease, and resets it.
fn reset_once(pool: &mut Pool<MemoryLink>) -> Reset {
    match pool.lend() {
        Ok(lease) => {
            let ended = lease.reset();
            let between = numbers(pool);
            (pool.lent(), between, moved(pool, ended))
        }
        Err(_) => (pool.lent(), numbers(pool), (0, "none", numbers(pool))),
    }
}

// Of three servers the first answers two resets, the second of which leaves a transaction open; one
// refuses it; and of one the first read behind the login fails.
const RESETTING: &[Server] = &[
    (&[WELCOME, DISCARDED, IDLE, DISCARDED, OPEN], 0, 0),
    (&[WELCOME, ERROR, IDLE], 0, 0),
    (&[WELCOME, DISCARDED, IDLE], 16, 0),
];

const RESETS: &[Reset] = &[
    (1, (2, 1, 0, 3), (1, "put", (3, 0, 0, 3))),
    (2, (2, 1, 0, 3), (0, "Refused", (2, 0, 1, 3))),
    (3, (1, 1, 1, 3), (0, "Failed: fault", (1, 0, 2, 3))),
    (4, (0, 1, 2, 3), (0, "Status: open", (0, 0, 3, 3))),
    (4, (0, 0, 3, 3), (0, "none", (0, 0, 3, 3))),
];

fn check_resets<R: Abort>(rt: &R, pool: &mut Pool<MemoryLink>) {
    for wanted in RESETS {
        assert_eq!(rt; reset_once(pool), *wanted);
    }
}

#[test]
fn a_session_leaves_its_pool_for_a_reset(rt: HostRuntime) -> Result<(), Fail> {
    let mut setting = new_setting(rt.alloc(), 1, RESETTING, &[], 0)?;
    check_resets(&rt, &mut setting.pool);
    Ok(())
}

// Puts a session into a pool that has a place for it.
fn put_new(pool: &mut Pool<MemoryLink>, spare: Spare<MemoryLink>) -> Moved {
    let number = spare.number();
    if pool.idle() + pool.out() < pool.capacity() {
        pool.put(spare);
        (number, "put", numbers(pool))
    } else {
        drop(spare);
        (number, "let go", numbers(pool))
    }
}

// Connects a session beside a pool, and puts it there.
fn connected(
    alloc: Global,
    pool: &mut Pool<MemoryLink>,
    config: &Config,
    dialer: &mut MemoryDialer,
) -> Moved {
    match Spare::connect(alloc, config, [1; 18], 10_000, dialer) {
        Ok(spare) => put_new(pool, spare),
        Err(error) => {
            let name = error_name(&error);
            drop(error);
            (0, name, numbers(pool))
        }
    }
}

const LOST: &[Ended] = &[("end", "Failed: broken", (0, 0, 1, 1))];

// The first dial fails; then one server refuses, and two serve.
const LATE: &[Server] = &[
    (&[ERROR], 0, 0),
    (&[WELCOME, DONE, IDLE, DISCARDED, IDLE], 0, 0),
    SILENT,
];

const CONNECTED: &[Moved] = &[
    (0, "fault", (0, 0, 1, 1)),
    (0, "remote error", (0, 0, 1, 1)),
    (0, "put", (1, 0, 1, 2)),
    (0, "let go", (1, 0, 1, 2)),
];

const LENT: &[Ended] = &[("responses", "kept", (1, 0, 1, 2))];

fn check_connected<R: Abort>(
    rt: &R,
    alloc: Global,
    config: &Config,
    pool: &mut Pool<MemoryLink>,
    dialer: &mut MemoryDialer,
) {
    for wanted in CONNECTED {
        assert_eq!(rt; connected(alloc, pool, config, dialer), *wanted);
    }
}

fn check_lost_and_connected<R: Abort>(rt: &R, alloc: Global, setting: &mut Setting) {
    check_leases(rt, &mut setting.pool, &setting.request, LOST);
    check_connected(
        rt,
        alloc,
        &setting.config,
        &mut setting.pool,
        &mut setting.dialer,
    );
    check_leases(rt, &mut setting.pool, &setting.request, LENT);
}

#[test]
fn a_session_comes_into_a_pool(rt: HostRuntime) -> Result<(), Fail> {
    let mut setting = new_setting(rt.alloc(), 1, &[SILENT], LATE, 1)?;
    check_lost_and_connected(&rt, rt.alloc(), &mut setting);
    Ok(())
}
