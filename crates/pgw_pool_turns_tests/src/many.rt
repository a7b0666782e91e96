//! Many threads over few things.

use crate::counters::{Things, turns_over};
use pgw_pool_turns::{Numbers, Turns};
use std::alloc::{AllocError, Global};
use std::process::Abort;
use std::sync::Wait;
use std::sync::atomic::{AtomicU64, Ordering};
use std::test::Fail;
use std::thread;
use std::thread::Threads;
use std::time::{Clock, Duration};

const LEASES: u64 = 250;

// How often a thing was lent while it was out.
#[derive(Drop)]
struct Seen {
    held: Vec<AtomicU64>,
    twice: AtomicU64,
    leases: AtomicU64,
}

// Of three things.
fn new_seen(alloc: Global) -> Result<Seen, AllocError> {
    let mut held = Vec::new(alloc);
    for _ in 0..3 {
        held.push(AtomicU64::new(0))?;
    }
    Ok(Seen {
        held,
        twice: AtomicU64::new(0),
        leases: AtomicU64::new(0),
    })
}

impl Seen {
    fn hold(&self, number: usize) {
        if let Some(held) = self.held.get(number) {
            if held.swap(1, Ordering::SeqCst) != 0 {
                self.twice.fetch_add(1, Ordering::SeqCst);
            }
        }
        self.leases.fetch_add(1, Ordering::SeqCst);
    }

    fn free(&self, number: usize) {
        if let Some(held) = self.held.get(number) {
            held.store(0, Ordering::SeqCst);
        }
    }
}

// One lease. Each seventh thing does not come back, and is replaced.
fn lease_once<R: Wait + Clock>(rt: &R, turns: &Turns<Things>, seen: &Seen, round: u64) {
    let Ok(number) = turns.lend(rt, Some(Duration::from_secs(30))) else {
        return;
    };
    seen.hold(number);
    thread::yield_now();
    seen.free(number);
    if round % 7 == 0 {
        turns.lose(rt);
        if !turns.claim(rt) {
            return;
        }
    }
    turns.give_back(rt, number);
}

fn leases<R: Wait + Clock>(rt: &R, turns: &Turns<Things>, seen: &Seen) {
    for round in 0..LEASES {
        lease_once(rt, turns, seen, round);
    }
}

fn start<R: Threads + Wait + Clock + Sync>(rt: &R, turns: &Turns<Things>, seen: &Seen) -> bool {
    let mut started = true;
    thread::scope(thread::scope_env(), rt, |scope| {
        for _ in 0..8 {
            if scope.spawn(move || leases(rt, turns, seen)).is_err() {
                started = false;
            }
        }
    });
    started
}

fn check<R: Abort>(rt: &R, numbers: Numbers, seen: &Seen) {
    let twice = seen.twice.load(Ordering::SeqCst);
    let leases = seen.leases.load(Ordering::SeqCst);
    assert_eq!(rt; (twice, leases), (0, 8 * LEASES));
    let wanted = Numbers {
        capacity: 3,
        ready: 3,
        out: 0,
        waiting: 0,
    };
    assert_eq!(rt; numbers, wanted);
}

fn check_holders<R: Abort + Threads + Wait + Clock + Sync>(
    rt: &R,
    turns: &Turns<Things>,
    seen: &Seen,
) {
    assert!(rt; start(rt, turns, seen));
    check(rt, turns.numbers(rt), seen);
}

#[test]
fn a_thing_has_one_holder(rt: HostRuntime) -> Result<(), Fail> {
    let turns = turns_over(rt.alloc(), 3, usize::MAX, 8)?;
    let seen = new_seen(rt.alloc())?;
    check_holders(&rt, &turns, &seen);
    Ok(())
}
