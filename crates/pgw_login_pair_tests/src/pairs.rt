//! How two parties end, by what they know and the schedule.

use crate::support::{HONEST, Knows, Stored, ends_of, outcome, turns};
use pgw_client::{Listed, OutOfMemory};
use pgw_login_pair::Event;
use std::alloc::Global;
use std::test::Fail;

// A byte to the server and then one to the client, so many times.
fn bytes_in_turn(alloc: Global, count: usize) -> Result<Listed<Event>, OutOfMemory> {
    let mut events = Listed::new(alloc);
    for _ in 0..count {
        events.push(Event::ToServer(1))?;
        events.push(Event::ToClient(1))?;
    }
    Ok(events)
}

// How the client and the server end.
fn ends_by(
    alloc: Global,
    knows: &Knows<'_>,
    schedule: Listed<Event>,
) -> Result<(&'static str, &'static str), OutOfMemory> {
    let outcome = outcome(alloc, knows, schedule)?;
    let ends = ends_of(&outcome);
    drop(outcome);
    Ok(ends)
}

#[test]
fn honest_parties(rt: HostRuntime) -> Result<(), Fail> {
    let ends = ends_by(rt.alloc(), &HONEST, turns(rt.alloc(), 3)?)?;
    assert_eq!(rt; ends, ("ready", "finished"));
    Ok(())
}

#[test]
fn byte_by_byte(rt: HostRuntime) -> Result<(), Fail> {
    let ends = ends_by(rt.alloc(), &HONEST, bytes_in_turn(rt.alloc(), 3000)?)?;
    assert_eq!(rt; ends, ("ready", "finished"));
    Ok(())
}

#[test]
fn no_event(rt: HostRuntime) -> Result<(), Fail> {
    let ends = ends_by(rt.alloc(), &HONEST, Listed::new(rt.alloc()))?;
    assert_eq!(rt; ends, ("waiting", "waiting"));
    Ok(())
}

#[test]
fn last_event_left_out(rt: HostRuntime) -> Result<(), Fail> {
    let mut events = turns(rt.alloc(), 2)?;
    events.push(Event::ToServer(10000))?;
    let ends = ends_by(rt.alloc(), &HONEST, events)?;
    assert_eq!(rt; ends, ("waiting", "finished"));
    Ok(())
}

// What is known in place of what honest parties know, and how both end.
const OTHERS: &[(Knows<'static>, &str, &str)] = &[
    (
        Knows {
            stored: Stored::Of("baz"),
            ..HONEST
        },
        "waiting",
        "InvalidPassword",
    ),
    (
        Knows {
            password: b"baz",
            ..HONEST
        },
        "waiting",
        "InvalidPassword",
    ),
    (
        Knows {
            password: b"\xff",
            ..HONEST
        },
        "ScramError",
        "waiting",
    ),
    // RFC 4013 has no form of a name with a control character.
    (
        Knows {
            user: "\x07",
            ..HONEST
        },
        "InvalidConfig user",
        "waiting",
    ),
    // It is sent as it stands, and no `r=` is behind its comma.
    (
        Knows {
            user: "a,b",
            ..HONEST
        },
        "waiting",
        "Grammar",
    ),
    (
        Knows {
            salt: None,
            ..HONEST
        },
        "waiting",
        "SaltRequired",
    ),
    (
        Knows {
            stored: Stored::Bytes(b"short"),
            ..HONEST
        },
        "waiting",
        "InvalidPassword",
    ),
    (Knows { count: 1, ..HONEST }, "ready", "finished"),
    (
        Knows {
            client_hash: Some(b"\x0a"),
            server_hash: Some(b"\x0a"),
            ..HONEST
        },
        "ready",
        "finished",
    ),
    (
        Knows {
            client_hash: Some(b"\x0a"),
            server_hash: Some(b"\x0b"),
            ..HONEST
        },
        "waiting",
        "ChannelBinding",
    ),
    (
        Knows {
            client_hash: Some(b"\x0a"),
            ..HONEST
        },
        "ready",
        "finished",
    ),
    (
        Knows {
            server_hash: Some(b"\x0b"),
            ..HONEST
        },
        "ready",
        "finished",
    ),
];

#[test]
fn other_parties(rt: HostRuntime) -> Result<(), Fail> {
    for (knows, client, server) in OTHERS {
        let ends = ends_by(rt.alloc(), knows, turns(rt.alloc(), 3)?)?;
        assert_eq!(rt; ends, (*client, *server));
    }
    Ok(())
}
