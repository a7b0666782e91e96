//! Reads, writes, dials and logins that fail under a pool, over links in memory.

use crate::servers::{
    BOUND, DISCARDED, DONE, EMPTY, ERROR, FAILED, IDLE, Numbers, OPEN, SILENT, Server, Setting,
    WELCOME, boxed_pool, check_once, lease_once, new_config, new_request, new_setting, numbers,
    one, refilled,
};
use pgw_client::{Config, Listed, MemoryDialer, MemoryLink, Octets, PgWireClientResult, Request};
use pgw_pool::Pool;
use std::alloc::Global;
use std::process::Abort;
use std::test::Fail;

// What came of a request, how its lease ended, and what the pool then holds.
pub(crate) type Ended = (&'static str, &'static str, Numbers);

// A login reads the 15 bytes of the welcome and writes the 18 of a startup message. Then the query
// `SELECT 1` writes 14, and its answer has 14; `DISCARD ALL` writes 17, and its answer has 23.
const WHOLE: &[&[u8]] = &[WELCOME, DONE, IDLE, DISCARDED, IDLE];

// Some servers, each of which says one byte a read, and what comes of leases of their sessions, one
// after the other.
type Case = (&'static [Server], &'static [Ended]);

const FAULT_IN_REQUEST: Ended = ("fault", "Failed: broken", (0, 0, 1, 1));

const FAULT_IN_RESET: Ended = ("responses", "Failed: fault", (0, 0, 1, 1));

const KEPT: Ended = ("responses", "kept", (1, 0, 0, 1));

const FAILING_LEASES: &[Case] = &[
    // Under the request: at the first byte, between two messages and at the last byte.
    (&[(WHOLE, 16, 0)], &[FAULT_IN_REQUEST]),
    (&[(WHOLE, 24, 0)], &[FAULT_IN_REQUEST]),
    (&[(WHOLE, 29, 0)], &[FAULT_IN_REQUEST]),
    (&[(WHOLE, 0, 19)], &[FAULT_IN_REQUEST]),
    (&[(WHOLE, 0, 32)], &[FAULT_IN_REQUEST]),
    // Behind the server's error a fault is answered in its place.
    (&[(&[WELCOME, ERROR], 42, 0)], &[FAULT_IN_REQUEST]),
    // Under the reset.
    (&[(WHOLE, 30, 0)], &[FAULT_IN_RESET]),
    (&[(WHOLE, 47, 0)], &[FAULT_IN_RESET]),
    (&[(WHOLE, 52, 0)], &[FAULT_IN_RESET]),
    (&[(WHOLE, 0, 33)], &[FAULT_IN_RESET]),
    (&[(WHOLE, 0, 49)], &[FAULT_IN_RESET]),
    (&[(&[WELCOME, DONE, IDLE, ERROR], 56, 0)], &[FAULT_IN_RESET]),
    // Behind it: only the next lease meets the fault.
    (&[(WHOLE, 53, 0)], &[KEPT, FAULT_IN_REQUEST]),
    (&[(WHOLE, 0, 50)], &[KEPT, FAULT_IN_REQUEST]),
    // Of one session: the other is lent as before.
    (
        &[(WHOLE, 16, 0), (WHOLE, 0, 0)],
        &[
            ("fault", "Failed: broken", (1, 0, 1, 2)),
            ("responses", "kept", (1, 0, 1, 2)),
            ("end", "Failed: broken", (0, 0, 2, 2)),
            ("empty", "none", (0, 0, 2, 2)),
        ],
    ),
];

// Of links that do not fail.
const DROPPED_LEASES: &[Case] = &[
    (
        &[(&[WELCOME, DONE, IDLE], 0, 0)],
        &[("responses", "Failed: end", (0, 0, 1, 1))],
    ),
    (
        &[(&[WELCOME, DONE, IDLE, ERROR], 0, 0)],
        &[("responses", "Failed: remote error", (0, 0, 1, 1))],
    ),
    (
        &[(&[WELCOME, DONE, IDLE, BOUND, IDLE], 0, 0)],
        &[("responses", "Failed: unexpected", (0, 0, 1, 1))],
    ),
    (
        &[(&[WELCOME, DONE, IDLE, ERROR, IDLE], 0, 0)],
        &[("responses", "Refused", (0, 0, 1, 1))],
    ),
    (
        &[(&[WELCOME, DONE, IDLE, DISCARDED, OPEN], 0, 0)],
        &[("responses", "Status: open", (0, 0, 1, 1))],
    ),
    (
        &[(&[WELCOME, DONE, IDLE, DISCARDED, FAILED], 0, 0)],
        &[("responses", "Status: failed", (0, 0, 1, 1))],
    ),
    (&[SILENT], &[("end", "Failed: broken", (0, 0, 1, 1))]),
];

// What comes of leases of a pool, one after the other.
pub(crate) fn check_leases<R: Abort>(
    rt: &R,
    pool: &mut Pool<MemoryLink>,
    request: &Request,
    leases: &[Ended],
) {
    for wanted in leases {
        let seen = lease_once(pool, Some(request));
        assert_eq!(rt; (seen.came, seen.end.1, numbers(pool)), *wanted);
    }
}

fn check_cases<R: Abort>(rt: &R, alloc: Global, cases: &[Case]) -> Result<(), Fail> {
    for (servers, leases) in cases {
        let mut setting = new_setting(alloc, 1, servers, &[], 0)?;
        check_leases(rt, &mut setting.pool, &setting.request, leases);
    }
    Ok(())
}

#[test]
fn a_failing_link_ends_a_lease(rt: HostRuntime) -> Result<(), Fail> {
    check_cases(&rt, rt.alloc(), FAILING_LEASES)
}

#[test]
fn a_cause_tells_the_answer_of_the_reset(rt: HostRuntime) -> Result<(), Fail> {
    check_cases(&rt, rt.alloc(), DROPPED_LEASES)
}

// The empty query writes 6 bytes, and its answer has 11.
const SOUND: &[&[u8]] = &[WELCOME, EMPTY, IDLE, DISCARDED, IDLE];

// Whether a session that answers was lent, what became of it or why none was, and what the pool then
// holds.
type Checked = (bool, &'static str, Numbers);

const FAULT_IN_CHECK: Checked = (false, "Failed: fault", (0, 0, 1, 1));

const FAULT_BEHIND_CHECK: Checked = (true, "Failed: fault", (0, 0, 1, 1));

const CHECKS: &[(&[Server], &[Checked])] = &[
    (
        &[(SOUND, 0, 0)],
        &[
            (true, "kept", (1, 0, 0, 1)),
            (false, "Failed: end", (0, 0, 1, 1)),
        ],
    ),
    // Under the check.
    (&[(SOUND, 16, 0)], &[FAULT_IN_CHECK]),
    (&[(SOUND, 21, 0)], &[FAULT_IN_CHECK]),
    (&[(SOUND, 26, 0)], &[FAULT_IN_CHECK]),
    (&[(SOUND, 0, 19)], &[FAULT_IN_CHECK]),
    (&[(SOUND, 0, 24)], &[FAULT_IN_CHECK]),
    // Behind it, under the reset.
    (&[(SOUND, 27, 0)], &[FAULT_BEHIND_CHECK]),
    (&[(SOUND, 0, 25)], &[FAULT_BEHIND_CHECK]),
    // Of links that do not fail.
    (&[SILENT], &[(false, "Failed: end", (0, 0, 1, 1))]),
    (
        &[(&[WELCOME, ERROR], 0, 0)],
        &[(false, "Failed: remote error", (0, 0, 1, 1))],
    ),
    (
        &[(&[WELCOME, BOUND, IDLE], 0, 0)],
        &[(false, "Failed: unexpected", (0, 0, 1, 1))],
    ),
    (
        &[(&[WELCOME, ERROR, IDLE], 0, 0)],
        &[(false, "Refused", (0, 0, 1, 1))],
    ),
    (
        &[(&[WELCOME, EMPTY, OPEN], 0, 0)],
        &[(false, "Status: open", (0, 0, 1, 1))],
    ),
    (
        &[(&[WELCOME, EMPTY, FAILED], 0, 0)],
        &[(false, "Status: failed", (0, 0, 1, 1))],
    ),
    (
        &[(&[WELCOME, DONE, IDLE], 0, 0)],
        &[(false, "answered", (0, 0, 1, 1))],
    ),
    // The next one may be tried.
    (
        &[(SOUND, 16, 0), (SOUND, 0, 0)],
        &[
            (false, "Failed: fault", (1, 0, 1, 2)),
            (true, "kept", (1, 0, 1, 2)),
            (false, "Failed: end", (0, 0, 2, 2)),
            (false, "empty", (0, 0, 2, 2)),
        ],
    ),
];

fn check_checks<R: Abort>(rt: &R, pool: &mut Pool<MemoryLink>, leases: &[Checked]) {
    for wanted in leases {
        let (number, _, (_, word)) = check_once(pool);
        assert_eq!(rt; (number > 0, word, numbers(pool)), *wanted);
    }
}

#[test]
fn a_check_tells_why_a_session_is_not_fit(rt: HostRuntime) -> Result<(), Fail> {
    for (servers, leases) in CHECKS {
        let mut setting = new_setting(rt.alloc(), 1, servers, &[], 0)?;
        check_checks(&rt, &mut setting.pool, leases);
    }
    Ok(())
}

// Of three servers, two end behind the login.
const EARLY: &[Server] = &[SILENT, SILENT, (WHOLE, 0, 0)];

const LOST: &[Ended] = &[
    ("end", "Failed: broken", (2, 0, 1, 3)),
    ("end", "Failed: broken", (1, 0, 2, 3)),
];

// The first dial fails. Then the server refuses, ends in silence, ends within a message, or the link
// fails at the last byte of the login; one serves, and then no link is left.
const LATE: &[Server] = &[
    (&[ERROR], 0, 0),
    (&[], 0, 0),
    (&[b"R\0\0\0\x08\0\0"], 0, 0),
    (&[WELCOME], 15, 0),
    (&[WELCOME], 0, 18),
    (WHOLE, 0, 0),
];

const REFILLED: &[(&str, Numbers)] = &[
    ("fault", (1, 0, 2, 3)),
    ("remote error", (1, 0, 2, 3)),
    ("end", (1, 0, 2, 3)),
    ("end", (1, 0, 2, 3)),
    ("fault", (1, 0, 2, 3)),
    ("fault", (1, 0, 2, 3)),
    ("refilled", (2, 0, 2, 4)),
    ("fault", (2, 0, 2, 4)),
];

// The session that stayed, and the one that came, are lent as any other.
const STAYED: &[Ended] = &[
    ("responses", "kept", (2, 0, 2, 4)),
    ("responses", "kept", (2, 0, 2, 4)),
    ("end", "Failed: broken", (1, 0, 3, 4)),
];

fn check_refills<R: Abort>(
    rt: &R,
    pool: &mut Pool<MemoryLink>,
    config: &Config,
    dialer: &mut MemoryDialer,
) {
    for wanted in REFILLED {
        assert_eq!(rt; refilled(pool, config, dialer), *wanted);
    }
}

fn check_lost_and_refilled<R: Abort>(rt: &R, setting: &mut Setting) {
    check_leases(rt, &mut setting.pool, &setting.request, LOST);
    check_refills(rt, &mut setting.pool, &setting.config, &mut setting.dialer);
    check_leases(rt, &mut setting.pool, &setting.request, STAYED);
}

#[test]
fn a_refill_that_fails_leaves_the_pool(rt: HostRuntime) -> Result<(), Fail> {
    let mut setting = new_setting(rt.alloc(), 1, EARLY, LATE, 1)?;
    check_lost_and_refilled(&rt, &mut setting);
    Ok(())
}

// What docs/POOL.md shows: a pool of one session without a network.
fn pool_of_one(
    alloc: Global,
    config: &Config,
    server: Octets,
    failing_reads: Listed<u64>,
) -> PgWireClientResult<Pool<MemoryLink>> {
    let link = MemoryLink::new(alloc, server, 1, failing_reads, Listed::new(alloc));
    let mut links = Listed::new(alloc);
    links.push(link)?;
    let mut dialer = MemoryDialer::new(links, Listed::new(alloc));
    Pool::start(alloc, config, &[[0; 18]], 10_000, &mut dialer)
}

// One whose server ends behind the login, and whose link fails at the first read of a request.
fn failing_pool(alloc: Global) -> Result<Box<Pool<MemoryLink>>, Fail> {
    let config = new_config(alloc)?;
    let failing_reads = one(alloc, 16)?;
    let server = Octets::from_slice(alloc, b"R\0\0\0\x08\0\0\0\0Z\0\0\0\x05I")?;
    boxed_pool(alloc, pool_of_one(alloc, &config, server, failing_reads))
}

#[test]
fn a_pool_runs_without_a_network(rt: HostRuntime) -> Result<(), Fail> {
    let request = new_request(rt.alloc())?;
    let mut pool = failing_pool(rt.alloc())?;
    check_leases(&rt, &mut pool, &request, &[FAULT_IN_REQUEST]);
    Ok(())
}
