//! Sessions whose leases are counted, and that are retired by their count, over links in memory.

use crate::servers::{
    CUT, DISCARDED, IDLE, SILENT, Server, Setting, WELCOME, lease_once, new_setting, returned_words,
};
use pgw_client::{Config, MemoryDialer, MemoryLink, PgWireClientResult};
use pgw_pool::{LeaseEnd, Pool};
use std::process::Abort;
use std::test::Fail;

// Of two sessions one answers three resets, and the other one.
const RESETTING: &[Server] = &[
    (
        &[WELCOME, DISCARDED, IDLE, DISCARDED, IDLE, DISCARDED, IDLE],
        0,
        0,
    ),
    (&[WELCOME, DISCARDED, IDLE], 0, 0),
];

// The number of a lease, how many its session has had, and what became of the session.
const COUNTED: &[(u64, u64, &str)] = &[
    (1, 1, "kept"),
    (2, 1, "kept"),
    (3, 2, "kept"),
    (4, 2, "Failed"),
    (5, 3, "kept"),
    (6, 4, "Failed"),
    (0, 0, "none"),
];

fn check_counts<R: Abort>(rt: &R, pool: &mut Pool<MemoryLink>) {
    for wanted in COUNTED {
        let seen = lease_once(pool, None);
        assert_eq!(rt; (seen.number, seen.leases, seen.end.0), *wanted);
    }
}

#[test]
fn leases_are_counted(rt: HostRuntime) -> Result<(), Fail> {
    let mut setting = new_setting(rt.alloc(), CUT, RESETTING, &[], 0)?;
    check_counts(&rt, &mut setting.pool);
    Ok(())
}

fn end_name(end: &LeaseEnd) -> &'static str {
    match end {
        LeaseEnd::GivenBack(returned) => returned_words(returned).0,
        LeaseEnd::Retired(Ok(())) => "retired",
        LeaseEnd::Retired(Err(_)) => "retired at once",
    }
}

// Lends a session, and ends the lease within so many: how many its session has had, and how it ended.
fn ended_once(
    pool: &mut Pool<MemoryLink>,
    most: u64,
    dialer: &mut MemoryDialer,
) -> (u64, &'static str) {
    match pool.lend() {
        Ok(lease) => {
            let leases = lease.leases();
            let end = pool.give_back_within(lease, most, dialer);
            let name = end_name(&end);
            drop(end);
            (leases, name)
        }
        Err(_) => (0, "none"),
    }
}

// Of two sessions that may have three leases, of which one does not answer its second reset.
const ENDED: &[(u64, &str)] = &[
    (1, "kept"),
    (1, "kept"),
    (2, "kept"),
    (2, "Failed"),
    (3, "retired"),
    (0, "none"),
];

fn check_ends<R: Abort>(rt: &R, pool: &mut Pool<MemoryLink>, dialer: &mut MemoryDialer) {
    for wanted in ENDED {
        assert_eq!(rt; ended_once(pool, 3, dialer), *wanted);
    }
    assert_eq!(rt; pool.dropped(), 2);
}

#[test]
fn leases_end_within_a_count(rt: HostRuntime) -> Result<(), Fail> {
    let mut setting = new_setting(rt.alloc(), CUT, RESETTING, &[], 0)?;
    check_ends(&rt, &mut setting.pool, &mut setting.dialer);
    Ok(())
}

// What docs/POOL.md has in place of each `give_back`: how many leases the session has had.
fn renewed(
    pool: &mut Pool<MemoryLink>,
    most: u64,
    config: &Config,
    dialer: &mut MemoryDialer,
) -> PgWireClientResult<u64> {
    match pool.lend() {
        Ok(lease) => {
            let leases = lease.leases();
            let nonce = [1; 18];
            let limit = 10_000;
            drop(pool.give_back_within(lease, most, dialer));
            if pool.idle() + pool.out() < pool.capacity() {
                pool.refill(config, nonce, limit, dialer)?;
            }
            Ok(leases)
        }
        Err(_) => Ok(0),
    }
}

// How many leases the session has had, and how many were connected by then.
const RENEWED: &[(u64, u64)] = &[(1, 1), (2, 2), (1, 2), (2, 3)];

fn check_renewed<R: Abort>(rt: &R, setting: &mut Setting) {
    for wanted in RENEWED {
        let was = renewed(&mut setting.pool, 2, &setting.config, &mut setting.dialer);
        let leases = was.unwrap_or(0);
        assert_eq!(rt; (leases, setting.pool.connected()), *wanted);
    }
    assert_eq!(rt; setting.pool.dropped(), 2);
}

#[test]
fn a_session_that_grew_old_is_replaced(rt: HostRuntime) -> Result<(), Fail> {
    let answering: Server = (&[WELCOME, DISCARDED, IDLE], 0, 0);
    let later: &[Server] = &[answering, SILENT];
    let mut setting = new_setting(rt.alloc(), CUT, &[answering], later, 0)?;
    check_renewed(&rt, &mut setting);
    Ok(())
}
