//! A proxy between two links, as a table.

use crate::links::{Failing, TestLink};
use crate::pieces::{name, same};
use crate::records::read;
use pgw_proxy::recorded::Side;
use pgw_proxy::run::{ProxyRun, run_proxy};
use std::alloc::Global;
use std::process::Abort;
use std::test::Fail;

// The Startup of a client.
const STARTUP: &[u8] = b"\0\0\0\x12\0\x03\0\0user\0bob\0\0";

// AuthenticationOk and ReadyForQuery.
const READY: &[u8] = b"R\0\0\0\x08\0\0\0\0Z\0\0\0\x05I";

// A Startup, and a message of a type that there is not.
const REFUSED: &[u8] = b"\0\0\0\x12\0\x03\0\0user\0bob\0\0z\0\0\0\x04";

const C: Side = Side::Client;

const S: Side = Side::Server;

// What comes from the client, the calls that fail of the link to it and of the link to a server that answers READY,
// and the turns; then what was written to the server and to the client, the sides of the recorded messages, and the
// fault.
type Case = (
    (&'static [u8], Failing, Failing, &'static [Side]),
    (&'static [u8], &'static [u8], &'static str, &'static str),
);

const CASES: &[Case] = &[
    // All calls go well.
    (
        (STARTUP, [0, 0, 0], [0, 0, 0], &[C, S]),
        (STARTUP, READY, "css", "-"),
    ),
    // Turns of a side that has ended pass nothing on.
    (
        (STARTUP, [0, 0, 0], [0, 0, 0], &[C, C, S, S]),
        (STARTUP, READY, "css", "-"),
    ),
    // A read of the client fails: at once, and behind what has passed.
    (
        (STARTUP, [1, 0, 0], [0, 0, 0], &[C, S]),
        (b"", b"", "", "ClientIo"),
    ),
    (
        (STARTUP, [2, 0, 0], [0, 0, 0], &[C, S, C]),
        (STARTUP, READY, "css", "ClientIo"),
    ),
    // A read of the server fails.
    (
        (STARTUP, [0, 0, 0], [1, 0, 0], &[C, S]),
        (STARTUP, b"", "c", "ServerIo"),
    ),
    // A write to the server fails: its message is recorded.
    (
        (STARTUP, [0, 0, 0], [0, 1, 0], &[C, S]),
        (b"", b"", "c", "ServerIo"),
    ),
    // A flush to the server fails.
    (
        (STARTUP, [0, 0, 0], [0, 0, 1], &[C, S]),
        (STARTUP, b"", "c", "ServerIo"),
    ),
    // A write to the client fails: its messages are recorded.
    (
        (STARTUP, [0, 1, 0], [0, 0, 0], &[C, S]),
        (STARTUP, b"", "css", "ClientIo"),
    ),
    // A flush to the client fails.
    (
        (STARTUP, [0, 0, 1], [0, 0, 0], &[C, S]),
        (STARTUP, READY, "css", "ClientIo"),
    ),
    // The client's bytes are refused, and the write of the message before them goes well or fails.
    (
        (REFUSED, [0, 0, 0], [0, 0, 0], &[C, S]),
        (STARTUP, b"", "c", "Client"),
    ),
    (
        (REFUSED, [0, 0, 0], [0, 1, 0], &[C, S]),
        (b"", b"", "c", "ServerIo"),
    ),
];

// Compares a record and a fault with what is wanted.
fn told(alloc: Global, run: &ProxyRun, sides: &str, fault: &str) -> Result<(), Fail> {
    let found = match &run.fault {
        None => "-",
        Some(fault) => name(fault),
    };
    same(found, fault)?;
    same(read(alloc, run.tape.as_slice())?.as_str(), sides)
}

fn check<R: Abort>(rt: &R, alloc: Global, number: usize, case: &Case) -> Result<(), Fail> {
    let ((bytes, client_fails, server_fails, turns), (to_server, to_client, sides, fault)) = case;
    let mut client = TestLink::new(alloc, bytes, client_fails)?;
    let mut server = TestLink::new(alloc, READY, server_fails)?;
    let run = run_proxy(alloc, &mut client, &mut server, turns)?;
    assert_eq!(rt; server.written(), *to_server, "case {number}");
    assert_eq!(rt; client.written(), *to_client, "case {number}");
    told(alloc, &run, sides, fault)
}

#[test]
fn proxies_run_between_links(rt: HostRuntime) -> Result<(), Fail> {
    for (number, case) in CASES.iter().enumerate() {
        check(&rt, rt.alloc(), number, case)?;
    }
    Ok(())
}
