//! Sessions that are checked, replaced and closed, over links in memory.

use crate::servers::{
    CUT, DISCARDED, DONE, EMPTY, ERROR, IDLE, Numbers, OPEN, SILENT, Server, Setting, WELCOME,
    check_once, lease_once, new_setting, numbers, refilled,
};
use pgw_client::{MemoryDialer, MemoryLink, Request};
use pgw_pool::{Lease, Pool};
use std::process::Abort;
use std::test::Fail;

// How a client takes its leave.
const TERMINATE: &[u8] = b"X\0\0\0\x04";

const ANSWERING: &[Server] = &[
    SILENT,
    (&[WELCOME, EMPTY, OPEN], 0, 0),
    (&[WELCOME, DONE, IDLE], 0, 0),
    (&[WELCOME, ERROR, IDLE], 0, 0),
    (&[WELCOME, EMPTY, IDLE, DISCARDED, IDLE, EMPTY, IDLE], 0, 0),
];

// What comes of their sessions, one call after the other: the number of the lease, whether the empty
// query was the last that its link was told, and what became of the session; or why none is lent.
const CHECKED: &[(u64, bool, &str)] = &[
    (0, false, "Failed"),
    (0, false, "Status"),
    (0, false, "answered"),
    (0, false, "Refused"),
    (1, true, "kept"),
    (2, true, "Failed"),
    (0, false, "empty"),
];

fn check_answering<R: Abort>(rt: &R, pool: &mut Pool<MemoryLink>) {
    for wanted in CHECKED {
        let (number, is_checked, (name, _)) = check_once(pool);
        assert_eq!(rt; (number, is_checked, name), *wanted);
    }
    assert_eq!(rt; numbers(pool), (0, 0, 5, 5));
}

#[test]
fn a_session_that_answers_is_lent(rt: HostRuntime) -> Result<(), Fail> {
    let mut setting = new_setting(rt.alloc(), CUT, ANSWERING, &[], 0)?;
    check_answering(&rt, &mut setting.pool);
    Ok(())
}

// What comes of a refill and what the pool then holds, how a lease behind it ends, and how many are
// idle then.
const REPLACED: &[(&str, Numbers, &str, usize)] = &[
    ("full", (1, 0, 0, 1), "Failed", 0),
    ("refilled", (1, 0, 1, 2), "kept", 1),
    ("full", (1, 0, 1, 2), "Failed", 0),
];

fn check_replaced<R: Abort>(rt: &R, setting: &mut Setting) {
    for (word, held, end, idle) in REPLACED {
        let came = refilled(&mut setting.pool, &setting.config, &mut setting.dialer);
        let seen = lease_once(&mut setting.pool, None);
        assert_eq!(rt; came, (*word, *held));
        assert_eq!(rt; (seen.end.0, setting.pool.idle()), (*end, *idle));
    }
}

#[test]
fn a_lost_session_is_replaced(rt: HostRuntime) -> Result<(), Fail> {
    let later: &[Server] = &[(&[WELCOME, DISCARDED, IDLE], 0, 0)];
    let mut setting = new_setting(rt.alloc(), CUT, &[SILENT], later, 0)?;
    check_replaced(&rt, &mut setting);
    Ok(())
}

// Whether the link that was closed last was told of it.
fn was_told(dialer: &MemoryDialer) -> bool {
    match dialer.closed() {
        Some(link) => link.written().ends_with(TERMINATE),
        None => false,
    }
}

// Whether a pool is closed without an error, and its server was told.
fn is_closed(setting: Setting) -> (bool, bool) {
    let Setting {
        pool,
        mut dialer,
        ..
    } = setting;
    let is_closed = Box::into_inner(pool).close(&mut *dialer).is_ok();
    (is_closed, was_told(&dialer))
}

#[test]
fn a_pool_takes_leave_of_its_sessions(rt: HostRuntime) -> Result<(), Fail> {
    let setting = new_setting(rt.alloc(), CUT, &[SILENT, SILENT], &[], 0)?;
    assert_eq!(rt; is_closed(setting), (true, true));
    Ok(())
}

// The process number by which a lease's query would be canceled.
fn number_to_cancel(lease: &Lease<MemoryLink>) -> i32 {
    let token = lease.cancel_token();
    match &token {
        Ok(token) => token.process_id,
        Err(_) => 0,
    }
}

// Lends a session, asks in it, and retires it.
fn retired(
    pool: &mut Pool<MemoryLink>,
    request: &Request,
    dialer: &mut MemoryDialer,
) -> (i32, bool) {
    match pool.lend() {
        Ok(mut lease) => {
            drop(lease.run(request));
            let number = number_to_cancel(&lease);
            (number, pool.retire(lease, dialer).is_ok())
        }
        Err(_) => (0, false),
    }
}

fn check_retired<R: Abort>(rt: &R, setting: &mut Setting) {
    let ends = retired(&mut setting.pool, &setting.request, &mut setting.dialer);
    assert_eq!(rt; ends, (-1, true));
    assert_eq!(rt; numbers(&setting.pool), (0, 0, 1, 1));
    assert!(rt; was_told(&setting.dialer));
}

#[test]
fn a_retired_session_is_closed(rt: HostRuntime) -> Result<(), Fail> {
    let servers: &[Server] = &[(&[WELCOME, DONE, IDLE], 0, 0)];
    let mut setting = new_setting(rt.alloc(), CUT, servers, &[], 0)?;
    check_retired(&rt, &mut setting);
    Ok(())
}
