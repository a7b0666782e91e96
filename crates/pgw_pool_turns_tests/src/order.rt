//! Who came first is served first; and why nothing is lent.

use crate::counters::{Things, turns_over};
use pgw_pool_turns::{LendRefusal, Turns};
use std::process::Abort;
use std::sync::{Mutex, Wait};
use std::test::Fail;
use std::thread;
use std::thread::Threads;
use std::time::{Clock, Duration};

const LONG: u64 = 30_000;

const SHORT: u64 = 20;

fn limit(millis: u64) -> Option<Duration> {
    Some(Duration::from_millis(millis))
}

// Waits until so many wait.
fn until_waiting<R: Wait + Clock>(rt: &R, turns: &Turns<Things>, count: usize) {
    for _ in 0..20_000 {
        if turns.numbers(rt).waiting == count {
            return;
        }
        thread::sleep(rt, Duration::from_millis(1));
    }
}

fn note<R: Wait>(rt: &R, served: &Mutex<Vec<u8>>, name: u8) {
    let _noted = served.lock(rt).push(name);
}

// Notes when it is served, and gives back; the name 3 gives up before.
fn visit<R: Wait + Clock>(rt: &R, turns: &Turns<Things>, served: &Mutex<Vec<u8>>, name: u8) {
    match turns.lend(rt, limit(if name == 3 { SHORT } else { LONG })) {
        Ok(number) => {
            note(rt, served, name);
            turns.give_back(rt, number);
        }
        Err(_) => note(rt, served, name.saturating_add(10)),
    }
}

// Waits until so many were served, or gave up.
fn until_noted<R: Wait + Clock>(rt: &R, served: &Mutex<Vec<u8>>, count: usize) {
    for _ in 0..20_000 {
        if served.lock(rt).len() == count {
            return;
        }
        thread::sleep(rt, Duration::from_millis(1));
    }
}

// A name, and how many wait once it does.
const NAMES: &[(u8, usize)] = &[(1, 1), (2, 2), (3, 2), (4, 3), (5, 4)];

// Threads come one after the other while the one thing is out; then it comes back.
fn come<R: Threads + Wait + Clock + Sync>(rt: &R, turns: &Turns<Things>, served: &Mutex<Vec<u8>>) {
    let Ok(thing) = turns.lend(rt, None) else {
        return;
    };
    thread::scope(thread::scope_env(), rt, |scope| {
        for (name, waiting) in NAMES {
            let (name, waiting) = (*name, *waiting);
            if scope.spawn(move || visit(rt, turns, served, name)).is_err() {
                return;
            }
            if name == 3 {
                until_noted(rt, served, 1);
            }
            until_waiting(rt, turns, waiting);
        }
        turns.give_back(rt, thing);
    });
}

fn check_order<R: Abort>(rt: &R, served: &[u8]) {
    assert_eq!(rt; served, [13, 1, 2, 4, 5].as_slice());
}

#[test]
fn who_came_first_is_served_first(rt: HostRuntime) -> Result<(), Fail> {
    let turns = turns_over(rt.alloc(), 1, usize::MAX, 5)?;
    let served = Mutex::new(Vec::new(rt.alloc()));
    come(&rt, &turns, &served);
    check_order(&rt, served.into_inner().as_slice());
    Ok(())
}

// Of one thing that is lent once, for which one may wait.
fn check_spent<R: Abort + Wait + Clock>(rt: &R, turns: &Turns<Things>) {
    let came = (
        turns.lend(rt, None),
        turns.lend(rt, limit(SHORT)),
        turns.give_back(rt, 0),
        turns.lend(rt, limit(LONG)),
        turns.give_back(rt, 0),
    );
    let wanted = (
        Ok(0),
        Err(LendRefusal::TimedOut),
        true,
        Err(LendRefusal::Exhausted),
        false,
    );
    assert_eq!(rt; came, wanted);
}

// Of one thing for which nobody may wait.
fn check_crowded<R: Abort + Wait + Clock>(rt: &R, turns: &Turns<Things>) {
    let lent = [turns.lend(rt, None), turns.lend(rt, None)];
    assert_eq!(rt; lent, [Ok(0), Err(LendRefusal::Crowded)]);
    let is_taken = turns.give_back(rt, 1);
    assert_eq!(rt; (is_taken, turns.numbers(rt).out), (false, 1));
}

#[test]
fn refusals_are_named(rt: HostRuntime) -> Result<(), Fail> {
    let spent = turns_over(rt.alloc(), 1, 1, 1)?;
    let crowded = turns_over(rt.alloc(), 1, 2, 0)?;
    check_spent(&rt, &spent);
    check_crowded(&rt, &crowded);
    Ok(())
}
