//! Schedules that are drawn.

use crate::support::{HONEST, Knows, ends_of, outcome, turns};
use pgw_client::{Listed, Octets, OutOfMemory};
use pgw_login_pair::Event;
use pgw_login_pair::parties::PairOutcome;
use std::alloc::Global;
use std::process::Abort;
use std::test::Fail;

// The next number of a linear congruential generator.
fn draw(state: &mut u64) -> u32 {
    *state = state
        .wrapping_mul(6364136223846793005)
        .wrapping_add(1442695040888963407);
    (*state >> 33) as u32
}

// One to three bytes for one of the two.
fn event_of(drawn: u32) -> Event {
    let count = 1 + drawn / 2 % 3;
    if drawn % 2 == 0 {
        Event::ToServer(count)
    } else {
        Event::ToClient(count)
    }
}

fn schedule(alloc: Global, state: &mut u64) -> Result<Listed<Event>, OutOfMemory> {
    let mut events = Listed::new(alloc);
    for _ in 0..draw(state) % 800 {
        events.push(event_of(draw(state)))?;
    }
    Ok(events)
}

fn all_taken(outcome: &PairOutcome) -> bool {
    outcome.taken_by_server == outcome.to_server.len() as u64
        && outcome.taken_by_client == outcome.to_client.len() as u64
}

// Which ends came: none is done, the server is, both are.
#[derive(Drop)]
struct Seen {
    none: bool,
    server: bool,
    both: bool,
}

// Whether honest parties may end so. It is noted.
fn may_end(outcome: &PairOutcome, seen: &mut Seen) -> bool {
    match ends_of(outcome) {
        ("ready", "finished") => {
            seen.both = true;
            true
        }
        ("waiting", "waiting") => {
            seen.none = true;
            !all_taken(outcome)
        }
        ("waiting", "finished") => {
            seen.server = true;
            !all_taken(outcome)
        }
        _ => false,
    }
}

// What honest parties write where all is taken.
fn all_written(alloc: Global, knows: &Knows<'_>) -> Result<(Octets, Octets), OutOfMemory> {
    let PairOutcome {
        client,
        server,
        to_server,
        to_client,
        taken_by_server: _,
        taken_by_client: _,
    } = outcome(alloc, knows, turns(alloc, 3)?)?;
    drop(client);
    drop(server);
    Ok((to_server, to_client))
}

// Whether each wrote a front of that.
fn is_front(outcome: &PairOutcome, all: &(Octets, Octets)) -> bool {
    all.0.as_slice().starts_with(outcome.to_server.as_slice())
        && all.1.as_slice().starts_with(outcome.to_client.as_slice())
}

// Whether the next schedule leads honest parties where they may end.
fn next_holds(
    alloc: Global,
    knows: &Knows<'_>,
    state: &mut u64,
    all: &(Octets, Octets),
    seen: &mut Seen,
) -> Result<bool, OutOfMemory> {
    let one = outcome(alloc, knows, schedule(alloc, state)?)?;
    let holds = may_end(&one, seen) && is_front(&one, all);
    drop(one);
    Ok(holds)
}

const SEED: u64 = 20260726;

// Draws a thousand schedules, and notes which ends came.
fn check_drawn<R: Abort>(
    rt: &R,
    alloc: Global,
    knows: &Knows<'_>,
    all: &(Octets, Octets),
    seen: &mut Seen,
) -> Result<(), OutOfMemory> {
    let mut state = SEED;
    for i in 0..1000 {
        let holds = next_holds(alloc, knows, &mut state, all, seen)?;
        assert!(rt; holds, "schedule {i}");
    }
    Ok(())
}

#[test]
fn drawn_schedules(rt: HostRuntime) -> Result<(), Fail> {
    let knows = Knows { count: 1, ..HONEST };
    let all = all_written(rt.alloc(), &knows)?;
    let mut seen = Seen {
        none: false,
        server: false,
        both: false,
    };
    check_drawn(&rt, rt.alloc(), &knows, &all, &mut seen)?;
    drop(all);
    assert_eq!(rt; (seen.none, seen.server, seen.both), (true, true, true));
    Ok(())
}
