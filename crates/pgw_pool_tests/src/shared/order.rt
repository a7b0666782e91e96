//! Threads that wait for one session.

use crate::shared::servers::{DISCARDED, start};
use pgw_client::MemoryLink;
use pgw_pool_shared::{LendRefusal, SharedPool};
use std::process::Abort;
use std::sync::{Mutex, Wait};
use std::test::Fail;
use std::thread;
use std::thread::Threads;
use std::time::{Clock, Duration};

const LONG: u64 = 30_000;

const SHORT: u64 = 20;

// Waits until so many wait, or a long time.
fn until_waiting<R: Wait + Clock>(rt: &R, pool: &SharedPool<MemoryLink>, count: usize) {
    for _ in 0..20_000 {
        if pool.numbers(rt).waiting == count {
            return;
        }
        thread::sleep(rt, Duration::from_millis(1));
    }
}

// Waits until so many were served or refused, or a long time.
fn until_noted<R: Wait + Clock>(rt: &R, noted: &Mutex<Vec<u8>>, count: usize) {
    for _ in 0..20_000 {
        if noted.lock(rt).len() == count {
            return;
        }
        thread::sleep(rt, Duration::from_millis(1));
    }
}

fn note<R: Wait>(rt: &R, noted: &Mutex<Vec<u8>>, name: u8) {
    let _noted = noted.lock(rt).push(name);
}

// Notes its name when it is served, or a number above 10 when it is refused for the time. The name 2
// gives up early.
fn visit<R: Wait + Clock>(rt: &R, pool: &SharedPool<MemoryLink>, noted: &Mutex<Vec<u8>>, name: u8) {
    let time = Duration::from_millis(if name == 2 { SHORT } else { LONG });
    match pool.lend(rt, Some(time)) {
        Ok(lease) => {
            note(rt, noted, name);
            drop(pool.give_back(rt, lease));
        }
        Err(LendRefusal::TimedOut) => note(rt, noted, name.saturating_add(10)),
        Err(_) => {}
    }
}

// A name, and how many wait once it does, or has given up.
const NAMES: &[(u8, usize)] = &[(1, 1), (2, 1), (3, 2), (4, 3)];

// Threads come one after the other while the session is lent; then it comes back.
fn come<R: Threads + Wait + Clock + Sync>(
    rt: &R,
    pool: &SharedPool<MemoryLink>,
    noted: &Mutex<Vec<u8>>,
) {
    thread::scope(thread::scope_env(), rt, |scope| {
        let Ok(lease) = pool.lend(rt, None) else {
            return;
        };
        for (name, waiting) in NAMES {
            let (name, waiting) = (*name, *waiting);
            let _started = scope.spawn(move || visit(rt, pool, noted, name)).is_ok();
            if name == 2 {
                until_noted(rt, noted, 1);
            }
            until_waiting(rt, pool, waiting);
        }
        drop(pool.give_back(rt, lease));
    });
}

fn check_order<R: Abort>(rt: &R, noted: &[u8], ready: usize) {
    assert_eq!(rt; noted, [12, 1, 3, 4].as_slice());
    assert_eq!(rt; ready, 1);
}

#[test]
fn who_came_first_is_served_first(rt: HostRuntime) -> Result<(), Fail> {
    let pool = start(rt.alloc(), &[(DISCARDED, 4)], 4)?;
    let noted = Mutex::new(Vec::new(rt.alloc()));
    come(&rt, &pool, &noted);
    check_order(&rt, noted.into_inner().as_slice(), pool.numbers(&rt).ready);
    Ok(())
}

// Why no session is lent.
fn refusal<R: Wait + Clock>(
    rt: &R,
    pool: &SharedPool<MemoryLink>,
    time: Option<Duration>,
) -> Option<LendRefusal> {
    match pool.lend(rt, time) {
        Ok(lease) => {
            drop(pool.give_back(rt, lease));
            None
        }
        Err(why) => Some(why),
    }
}

// Why no other is lent while the one session is out.
fn refused<R: Wait + Clock>(
    rt: &R,
    pool: &SharedPool<MemoryLink>,
    time: Option<Duration>,
) -> Option<LendRefusal> {
    match pool.lend(rt, None) {
        Ok(lease) => {
            let why = refusal(rt, pool, time);
            drop(pool.give_back(rt, lease));
            why
        }
        Err(_) => None,
    }
}

// Of two pools, each of one session, for which in the second nobody may wait.
fn check_refusals<R: Abort + Wait + Clock>(
    rt: &R,
    pool: &SharedPool<MemoryLink>,
    crowded: &SharedPool<MemoryLink>,
) {
    let short = Some(Duration::from_millis(SHORT));
    let came = [
        refusal(rt, pool, None),
        refused(rt, pool, short),
        refusal(rt, pool, short),
        refused(rt, crowded, None),
    ];
    assert_eq!(rt;
        came,
        [
            None,
            Some(LendRefusal::TimedOut),
            None,
            Some(LendRefusal::Crowded)
        ]
    );
}

#[test]
fn who_waits_too_long_is_refused(rt: HostRuntime) -> Result<(), Fail> {
    let pool = start(rt.alloc(), &[(DISCARDED, 4)], 1)?;
    let crowded = start(rt.alloc(), &[(DISCARDED, 4)], 0)?;
    check_refusals(&rt, &pool, &crowded);
    Ok(())
}
