//! Streams that end, and servers that say nothing.

use crate::clients::{asked, begun, logged_in};
use crate::servers::{BROKEN, LOGIN, Part, play, play_one};
use futures::executor::block_on;
use pgw_tokio::cancel;
use pgw_wire::secret_key::SecretKey;
use std::alloc::AllocGlobal;
use std::net::Net;
use std::random::RandomSource;
use std::sync::Wait;
use std::test::Fail;
use std::time::{Clock, Duration};
use std::{io, thread};
use tokio::io::{DuplexStream, duplex, read_exact};
use tokio::runtime::LocalRuntime;

// The stream ends within the answer: the request is refused, and so is each one behind it.
fn asked_twice<R: Wait + RandomSource + AllocGlobal>(
    rt: &R,
    stream: DuplexStream,
) -> Result<(&'static str, &'static str, bool), Fail> {
    let client = logged_in(rt, stream)?;
    let (client, first) = asked(rt, client, "SELECT 1")?;
    let (client, second) = asked(rt, client, "SELECT 1")?;
    let is_usable = client.is_usable();
    drop(client);
    Ok((first, second, is_usable))
}

const PARTS: [Part; 2] = [LOGIN, BROKEN];

#[test]
fn a_stream_that_ends_leaves_no_client_to_use(rt: HostRuntime) -> Result<(), Fail> {
    let (near, far) = duplex(rt.alloc(), 64)?;
    let rt = &rt;
    let (played, answers) = thread::join(
        rt,
        move || play(rt, far, &PARTS),
        move || asked_twice(rt, near),
    );
    let answers = answers?;
    played?;
    assert_eq!(rt; answers, ("refused", "refused", false));
    Ok(())
}

// Whether the time of a login is up before it ends.
fn is_let_go<R: Wait + Clock + RandomSource + AllocGlobal>(
    rt: &R,
    runtime: &mut LocalRuntime,
    stream: DuplexStream,
) -> Result<bool, Fail> {
    let logging_in = begun(rt.alloc(), stream)?;
    let limit = Duration::from_millis(20);
    let timed = runtime.handle().time().timeout(rt, limit, logging_in)?;
    Ok(runtime.block_on(rt, timed)?.is_err())
}

fn is_left<R: Net + Wait + Clock + RandomSource + AllocGlobal>(
    rt: &R,
    stream: DuplexStream,
) -> Result<bool, Fail> {
    let mut runtime = LocalRuntime::new(rt)?;
    is_let_go(rt, &mut runtime, stream)
}

// A server that says nothing: the login is let go when its time is up.
#[test]
fn a_silent_server_is_left(rt: HostRuntime) -> Result<(), Fail> {
    let (near, far) = duplex(rt.alloc(), 64)?;
    let is_left = is_left(&rt, near);
    drop(far);
    assert!(rt; is_left?);
    Ok(())
}

// Whether a server reads these bytes behind a login, or of one that asks it to cancel.
fn hears<R: Wait + RandomSource + AllocGlobal>(
    rt: &R,
    stream: DuplexStream,
    part: Part,
    want: &[u8],
) -> io::Result<bool> {
    let stream = play_one(rt, stream, part)?;
    let buf = vec![in rt.alloc(); 0; want.len()]?;
    let (stream, heard) = block_on(rt, read_exact(stream, buf))??;
    drop(stream);
    Ok(heard.as_slice() == want)
}

fn closed<R: Wait + RandomSource + AllocGlobal>(
    rt: &R,
    stream: DuplexStream,
) -> Result<bool, Fail> {
    let client = logged_in(rt, stream)?;
    let sent = block_on(rt, client.close())?;
    Ok(sent.result.is_ok())
}

#[test]
fn a_client_says_that_it_ends(rt: HostRuntime) -> Result<(), Fail> {
    let (near, far) = duplex(rt.alloc(), 2)?;
    let rt = &rt;
    let (hears, closed) = thread::join(
        rt,
        move || hears(rt, far, LOGIN, b"X\0\0\0\x04"),
        move || closed(rt, near),
    );
    let closed = closed?;
    assert_eq!(rt; (hears?, closed), (true, true));
    Ok(())
}

fn canceled<R: Wait + RandomSource + AllocGlobal>(
    rt: &R,
    stream: DuplexStream,
) -> Result<bool, Fail> {
    let sending = cancel(rt.alloc(), stream, 7, &SecretKey::I32(9))?;
    let sent = block_on(rt, sending)?;
    Ok(sent.result.is_ok())
}

// A CancelRequest of process 7 by the key 9.
const CANCEL: &[u8] = b"\0\0\0\x10\x04\xd2\x16\x2e\0\0\0\x07\0\0\0\x09";

#[test]
fn a_request_is_canceled(rt: HostRuntime) -> Result<(), Fail> {
    let (near, far) = duplex(rt.alloc(), 16)?;
    let rt = &rt;
    let (hears, canceled) = thread::join(
        rt,
        move || hears(rt, far, (0, b""), CANCEL),
        move || canceled(rt, near),
    );
    let canceled = canceled?;
    assert_eq!(rt; (hears?, canceled), (true, true));
    Ok(())
}
