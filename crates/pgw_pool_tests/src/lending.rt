//! What is lent, answered and given back over links in memory.

use crate::servers::{
    BOUND, CUT, DISCARDED, DONE, ERROR, IDLE, OPEN, SILENT, Server, WELCOME, dialer_to, error_name,
    lease_once, new_config, new_setting, words_of,
};
use pgw_client::{MemoryLink, PgWireClientResult, Request};
use pgw_pool::Pool;
use std::alloc::Global;
use std::process::Abort;
use std::test::Fail;

// The number of a lease, whether its session was reset right before, what came of the request, and
// how the lease ended; or why there is none.
type Lent = (u64, bool, &'static str, &'static str);

// The servers, one for each session, and what comes of leases that are taken one after the other.
type Case = (&'static [Server], &'static [Lent]);

const CASES: &[Case] = &[
    (
        &[(&[WELCOME, DONE, IDLE, DISCARDED, IDLE], 0, 0)],
        &[(1, false, "responses", "kept"), (2, true, "end", "Failed")],
    ),
    (
        &[(&[WELCOME, DONE, IDLE, DISCARDED, OPEN], 0, 0)],
        &[
            (1, false, "responses", "Status"),
            (0, false, "empty", "none"),
        ],
    ),
    (
        &[(&[WELCOME, DONE, OPEN, ERROR, IDLE], 0, 0)],
        &[
            (1, false, "responses", "Refused"),
            (0, false, "empty", "none"),
        ],
    ),
    (
        &[(&[WELCOME, DONE, IDLE, ERROR], 0, 0)],
        &[
            (1, false, "responses", "Failed"),
            (0, false, "empty", "none"),
        ],
    ),
    (
        &[(&[WELCOME, DONE, IDLE, BOUND, IDLE], 0, 0)],
        &[
            (1, false, "responses", "Failed"),
            (0, false, "empty", "none"),
        ],
    ),
    (
        &[(&[WELCOME, ERROR, OPEN, DISCARDED, IDLE], 0, 0)],
        &[(1, false, "remote", "kept")],
    ),
    (
        &[(&[WELCOME, ERROR], 0, 0)],
        &[
            (1, false, "remote error", "Failed"),
            (0, false, "empty", "none"),
        ],
    ),
    (
        &[(&[WELCOME, BOUND, IDLE], 0, 0)],
        &[
            (1, false, "unexpected", "Failed"),
            (0, false, "empty", "none"),
        ],
    ),
    (
        &[SILENT],
        &[(1, false, "end", "Failed"), (0, false, "empty", "none")],
    ),
    (&[], &[(0, false, "empty", "none")]),
    (
        &[
            (&[WELCOME, DONE, IDLE, DISCARDED, IDLE], 0, 0),
            (&[WELCOME, ERROR, IDLE, DISCARDED, IDLE], 0, 0),
        ],
        &[
            (1, false, "responses", "kept"),
            (2, false, "remote", "kept"),
            (3, true, "end", "Failed"),
            (4, true, "end", "Failed"),
        ],
    ),
    (
        &[
            (&[WELCOME, DONE, IDLE, DISCARDED, OPEN], 0, 0),
            (&[WELCOME, ERROR, IDLE, DISCARDED, IDLE], 0, 0),
        ],
        &[
            (1, false, "responses", "Status"),
            (2, false, "remote", "kept"),
            (3, true, "end", "Failed"),
            (0, false, "empty", "none"),
        ],
    ),
];

fn check_lent<R: Abort>(rt: &R, pool: &mut Pool<MemoryLink>, request: &Request, leases: &[Lent]) {
    for wanted in leases {
        let seen = lease_once(pool, Some(request));
        assert_eq!(rt;
            (seen.number, seen.is_behind_reset, seen.came, seen.end.0),
            *wanted
        );
    }
}

fn check_idle<R: Abort>(rt: &R, pool: &Pool<MemoryLink>, sessions: usize) {
    assert_eq!(rt; (pool.capacity(), pool.idle()), (sessions, sessions));
}

#[test]
fn sessions_are_lent_in_turn(rt: HostRuntime) -> Result<(), Fail> {
    for (servers, leases) in CASES {
        let mut setting = new_setting(rt.alloc(), CUT, servers, &[], 0)?;
        check_idle(&rt, &setting.pool, servers.len());
        check_lent(&rt, &mut setting.pool, &setting.request, leases);
    }
    Ok(())
}

fn start_name(started: &PgWireClientResult<Pool<MemoryLink>>) -> &'static str {
    match started {
        Ok(_) => "started",
        Err(error) => error_name(error),
    }
}

// What comes of the start of a pool of two sessions, where this dial fails.
fn start_of_two(alloc: Global, failing_dial: u64) -> Result<&'static str, Fail> {
    let config = new_config(alloc)?;
    let mut dialer = dialer_to(alloc, CUT, &[SILENT, SILENT], failing_dial)?;
    let started = Pool::start(alloc, &config, &[[0; 18]; 2], 10_000, &mut *dialer);
    let name = start_name(&started);
    drop(started);
    Ok(name)
}

const STARTS: &[(u64, &str)] = &[(1, "fault"), (2, "fault"), (3, "started")];

#[test]
fn the_first_failing_login_is_told(rt: HostRuntime) -> Result<(), Fail> {
    for (failing_dial, wanted) in STARTS {
        assert_eq!(rt; start_of_two(rt.alloc(), *failing_dial)?, *wanted);
    }
    Ok(())
}

// Lends two sessions at once, and gives them back in the other order.
fn lent_together(pool: &mut Pool<MemoryLink>) -> [&'static str; 2] {
    match pool.lend() {
        Ok(first) => match pool.lend() {
            Ok(second) => {
                let (second_ends, _) = words_of(pool.give_back(second));
                let (first_ends, _) = words_of(pool.give_back(first));
                [second_ends, first_ends]
            }
            Err(_) => {
                drop(pool.give_back(first));
                ["none", ""]
            }
        },
        Err(_) => ["none", ""],
    }
}

fn check_turns<R: Abort>(rt: &R, pool: &mut Pool<MemoryLink>, request: &Request) {
    assert_eq!(rt; lent_together(pool), ["kept", "kept"]);
    check_lent(rt, pool, request, TURNS);
}

const TWO: &[Server] = &[
    (
        &[WELCOME, DISCARDED, IDLE, DONE, IDLE, DISCARDED, IDLE],
        0,
        0,
    ),
    (
        &[WELCOME, DISCARDED, IDLE, ERROR, IDLE, DISCARDED, IDLE],
        0,
        0,
    ),
];

const TURNS: &[Lent] = &[(3, true, "remote", "kept"), (4, true, "responses", "kept")];

#[test]
fn the_longest_idle_is_lent(rt: HostRuntime) -> Result<(), Fail> {
    let mut setting = new_setting(rt.alloc(), CUT, TWO, &[], 0)?;
    check_turns(&rt, &mut setting.pool, &setting.request);
    Ok(())
}
