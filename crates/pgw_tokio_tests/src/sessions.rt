//! Sessions whose requests are known beforehand.

use crate::servers::{LOGIN, Part, ROW, play};
use futures::executor::block_on;
use futures::future::join;
use pgw_config::config::Config;
use pgw_session::types::Request;
use pgw_tokio::{Ended, session};
use pgw_types::text::Text;
use std::alloc::{AllocGlobal, Global};
use std::random::RandomSource;
use std::sync::Wait;
use std::test::Fail;
use std::thread::Threads;
use std::time::Clock;
use std::{io, thread};
use tokio::io::{DuplexStream, duplex};
use tokio::runtime::LocalRuntime;

const PARTS: [Part; 2] = [LOGIN, ROW];

fn select_one(alloc: Global) -> Result<Vec<Request>, Fail> {
    let mut requests = Vec::new(alloc);
    requests.push(Request::Simple(Text::from_str(alloc, "SELECT 1")?))?;
    Ok(requests)
}

// Who logs in, and asks what.
fn asking(alloc: Global) -> Result<(Config, Vec<Request>), Fail> {
    let config = Config::parse(alloc, "user=bob")?;
    Ok((config, select_one(alloc)?))
}

// How many requests were answered.
fn count(ended: Ended<DuplexStream>) -> usize {
    match &ended.answer {
        Ok(report) => report.answers.len(),
        Err(_) => 0,
    }
}

fn held<R: Wait + RandomSource + AllocGlobal>(rt: &R, stream: DuplexStream) -> Result<usize, Fail> {
    let (config, requests) = asking(rt.alloc())?;
    let future = session(rt.alloc(), stream, &config, &requests, &[0; 18], 1000)?;
    Ok(count(block_on(rt, future)?))
}

#[test]
fn a_session_is_held(rt: HostRuntime) -> Result<(), Fail> {
    for size in [1, 3, 64] {
        let (near, far) = duplex(rt.alloc(), size)?;
        let rt = &rt;
        let (played, held) = thread::join(
            rt,
            move || play(rt, far, &PARTS),
            move || held(rt, near),
        );
        let held = held?;
        played?;
        assert_eq!(rt; (size, held), (size, 1));
    }
    Ok(())
}

fn two_held_by<R: Wait + Clock + RandomSource + AllocGlobal>(
    rt: &R,
    runtime: &mut LocalRuntime,
    streams: (DuplexStream, DuplexStream),
    config: &Config,
    requests: &[Request],
) -> Result<(usize, usize), Fail> {
    let alloc = rt.alloc();
    let one = session(alloc, streams.0, config, requests, &[0; 18], 1000)?;
    let other = session(alloc, streams.1, config, requests, &[0; 18], 1000)?;
    let (one, other) = runtime.block_on(rt, join(one, other))?;
    Ok((count(one), count(other)))
}

// Two sessions at once, on one thread.
fn two_held<R: Wait + Clock + RandomSource + AllocGlobal>(
    rt: &R,
    runtime: &mut LocalRuntime,
    streams: (DuplexStream, DuplexStream),
) -> Result<(usize, usize), Fail> {
    let (config, requests) = asking(rt.alloc())?;
    two_held_by(rt, runtime, streams, &config, &requests)
}

fn two_played<R: Wait + RandomSource + AllocGlobal>(
    rt: &R,
    streams: (DuplexStream, DuplexStream),
) -> io::Result<()> {
    play(rt, streams.1, &PARTS)?;
    play(rt, streams.0, &PARTS)
}

fn both_held<R: Threads + Wait + Clock + RandomSource + AllocGlobal + Sync>(
    rt: &R,
    runtime: &mut LocalRuntime,
) -> Result<(usize, usize), Fail> {
    let (near, far) = duplex(rt.alloc(), 3)?;
    let (other_near, other_far) = duplex(rt.alloc(), 3)?;
    let (played, held) = thread::join(
        rt,
        move || two_played(rt, (far, other_far)),
        move || two_held(rt, runtime, (near, other_near)),
    );
    let held = held?;
    played?;
    Ok(held)
}

#[test]
fn two_sessions_share_a_thread(rt: HostRuntime) -> Result<(), Fail> {
    let mut runtime = LocalRuntime::new(&rt)?;
    let held = both_held(&rt, &mut runtime);
    drop(runtime);
    assert_eq!(rt; held?, (1, 1));
    Ok(())
}
