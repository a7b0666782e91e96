//! Places that are free, and filled.

use crate::shared::servers::{DISCARDED, REFUSED, config, dialer_to, name, refill, start};
use pgw_client::{Config, MemoryDialer, MemoryLink};
use pgw_pool_shared::SharedPool;
use std::process::Abort;
use std::sync::Wait;
use std::sync::atomic::{AtomicU64, Ordering};
use std::test::Fail;
use std::thread;
use std::thread::Threads;
use std::time::{Clock, Duration};

// Takes one lease, and gives its number and what became of its session.
fn lease_once<R: Wait + Clock>(
    rt: &R,
    pool: &SharedPool<MemoryLink>,
    time: Option<Duration>,
) -> (u64, &'static str) {
    match pool.lend(rt, time) {
        Ok(lease) => {
            let number = lease.number();
            let given_back = pool.give_back(rt, lease);
            let became = name(&given_back);
            drop(given_back);
            (number, became)
        }
        Err(_) => (0, "none"),
    }
}

fn check_places<R: Abort + Wait + Clock>(
    rt: &R,
    pool: &SharedPool<MemoryLink>,
    config: &Config,
    dialer: &mut MemoryDialer,
) {
    let none = Some(Duration::ZERO);
    let came = (
        refill(rt, pool, config, dialer),
        lease_once(rt, pool, none),
        lease_once(rt, pool, none),
        refill(rt, pool, config, dialer),
        pool.numbers(rt).out,
    );
    assert_eq!(rt; came, ("full", (1, "refused"), (0, "none"), "failed", 0));
    let came = (
        refill(rt, pool, config, dialer),
        refill(rt, pool, config, dialer),
        lease_once(rt, pool, none),
    );
    assert_eq!(rt; came, ("added", "full", (2, "kept")));
}

// How many sessions were connected, and how many dropped.
fn counts(pool: SharedPool<MemoryLink>) -> (u64, u64) {
    let pool = pool.into_pool();
    (pool.connected(), pool.dropped())
}

#[test]
fn a_place_that_is_free_is_filled(rt: HostRuntime) -> Result<(), Fail> {
    let alloc = rt.alloc();
    let config = config(alloc)?;
    let mut dialer = dialer_to(alloc, &[(DISCARDED, 2)], 1)?;
    let pool = start(alloc, &[(REFUSED, 1)], 1)?;
    check_places(&rt, &pool, &config, &mut dialer);
    assert_eq!(rt; counts(pool), (2, 1));
    Ok(())
}

// Has a thread wait for a session while another is connected, and gives the number of its lease.
fn wait_for_one<R: Threads + Wait + Clock + Sync>(
    rt: &R,
    pool: &SharedPool<MemoryLink>,
    config: &Config,
    dialer: &mut MemoryDialer,
) -> u64 {
    let number = AtomicU64::new(0);
    let served = &number;
    thread::scope(thread::scope_env(), rt, |scope| {
        let _started = scope
            .spawn(move || {
                let (lease, _) = lease_once(rt, pool, Some(Duration::from_secs(30)));
                served.store(lease, Ordering::SeqCst);
            })
            .is_ok();
        for _ in 0..20_000 {
            if pool.numbers(rt).waiting == 1 {
                break;
            }
            thread::sleep(rt, Duration::from_millis(1));
        }
        let _refilled = refill(rt, pool, config, dialer);
    });
    number.load(Ordering::SeqCst)
}

fn check_waiting<R: Abort + Threads + Wait + Clock + Sync>(
    rt: &R,
    pool: &SharedPool<MemoryLink>,
    config: &Config,
    dialer: &mut MemoryDialer,
) {
    assert_eq!(rt; lease_once(rt, pool, None), (1, "refused"));
    let number = wait_for_one(rt, pool, config, dialer);
    assert_eq!(rt; (number, pool.numbers(rt).ready), (2, 1));
}

#[test]
fn who_waits_gets_the_session_that_is_connected(rt: HostRuntime) -> Result<(), Fail> {
    let alloc = rt.alloc();
    let config = config(alloc)?;
    let mut dialer = dialer_to(alloc, &[(DISCARDED, 1)], 0)?;
    let pool = start(alloc, &[(REFUSED, 1)], 1)?;
    check_waiting(&rt, &pool, &config, &mut dialer);
    Ok(())
}

// Gives a pool's lease back to another pool, in which none is out.
fn given_elsewhere<R: Wait + Clock>(
    rt: &R,
    pool: &SharedPool<MemoryLink>,
    other: &SharedPool<MemoryLink>,
) -> &'static str {
    match pool.lend(rt, None) {
        Ok(lease) => {
            let given_back = other.give_back(rt, lease);
            let became = name(&given_back);
            drop(given_back);
            became
        }
        Err(_) => "none",
    }
}

fn check_foreign<R: Abort + Wait + Clock>(
    rt: &R,
    pool: &SharedPool<MemoryLink>,
    other: &SharedPool<MemoryLink>,
) {
    let became = given_elsewhere(rt, pool, other);
    let numbers = other.numbers(rt);
    assert_eq!(rt; (became, numbers.ready, numbers.out), ("foreign", 1, 0));
}

#[test]
fn a_lease_of_another_pool_is_let_go(rt: HostRuntime) -> Result<(), Fail> {
    let pool = start(rt.alloc(), &[(DISCARDED, 1)], 1)?;
    let other = start(rt.alloc(), &[(DISCARDED, 1)], 1)?;
    check_foreign(&rt, &pool, &other);
    Ok(())
}
