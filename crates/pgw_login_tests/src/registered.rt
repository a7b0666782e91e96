//! Logins that register their connections.
ghost use Rattle.std.specs.Prelude.{◌≡◌};
ghost use Rattle.std.specs.Arc.{arc_value};
ghost use Rattle.pgw_login.specs.Registered.{CanRelease, IsOf};

use crate::cancels::{close, is_canceled, release};
use crate::support::{
    DRAWN, OnePassword, Outcome, Silent, Step, compare, log_in, outcome_by, outcome_of,
};
use pgw_control::cancel::CancelRequest;
use pgw_login::cleartext::CleartextPasswordAuthStartupHandler;
use pgw_login::md5::Md5PasswordAuthStartupHandler;
use pgw_login::outbox::ByteOutbox;
use pgw_login::state::LoginState;
use pgw_registry::generator::RandomPidSecretKeyGenerator;
use pgw_registry::manager::{ConnectionGuard, ConnectionHandle, ConnectionManager, Pass};
use pgw_types::memory::OutOfMemory;
use pgw_types::octets::Octets;
use pgw_wire::secret_key::SecretKey;
use std::alloc::Global;
use std::process::Abort;
use std::sync::{Arc, Wait};
use std::test::Fail;

const SECRET: OnePassword = OnePassword {
    password: b"secret",
};

// How many events there were behind a login, whether its query was canceled by the pair that it was told, and how many
// events there were in the end.
type Events = (u64, Option<bool>, u64);

// Cancels a query of a connection that has logged in, and lets the connection go.
fn let_go<R: Abort + Wait>(
    rt: &R,
    manager: &Arc<ConnectionManager>,
    pass: Option<Pass>,
    handle: Option<ConnectionHandle>,
    guard: Option<ConnectionGuard>,
    request: CancelRequest,
) -> Events
    requires { IsOf (arc_value manager.now) pass × CanRelease guard pass }
{
    let mut pass = pass.expect(rt, "no pass");
    let handle = handle.expect(rt, "no handle");
    let guard = guard.expect(rt, "no guard");
    let registered = manager.events(&mut pass);
    let canceled = is_canceled(rt, manager, &mut pass, &handle, request);
    close(rt, manager, &mut pass, handle);
    release(rt, &mut pass, guard);
    (registered, canceled, manager.events(&mut pass))
}

// A login in clear text at a minor version of 3, over a manager: what comes of it, and of its end.
fn registered<R: Abort + Wait>(
    rt: &R,
    alloc: Global,
    manager: &Arc<ConnectionManager>,
    pass: Pass,
    minor: u16,
    request: CancelRequest,
) -> Result<(Outcome, Events), OutOfMemory>
    requires { pass.of ≡ arc_value manager.now }
{
    let (generator, seat) = RandomPidSecretKeyGenerator::new(alloc)?;
    let owner = manager.clone()?;
    let handler = CleartextPasswordAuthStartupHandler::new(
        SECRET, Silent, generator,
    ).with_connection_manager(owner, rt);
    let (nonce, key) = DRAWN;
    let mut out = ByteOutbox::new(alloc);
    let mut state = LoginState::new(nonce, key, seat, Some(pass));
    let steps = [Step::Version(3, minor), Step::Password("secret")];
    let told = log_in(alloc, &handler, &mut out, &mut state, &steps);
    let (_seat, pass, handle, guard) = state.finish();
    let events = let_go(rt, manager, pass, handle, guard, request);
    Ok((outcome_by(told, out)?, events))
}

// The request by the pair that a client is told at a version.
fn request_at(alloc: Global, minor: u16) -> Result<CancelRequest, OutOfMemory> {
    let key = if minor == 0 {
        SecretKey::I32(0x01010101)
    } else {
        SecretKey::Bytes(Octets::from_slice(alloc, &[1; 32])?)
    };
    Ok(CancelRequest::new(100000, key))
}

// What comes of a login, how many events there were before it, and those from then on.
fn logged_in<R: Abort + Wait>(
    rt: &R,
    alloc: Global,
    minor: u16,
) -> Result<(Outcome, u64, Events), OutOfMemory> {
    let request = request_at(alloc, minor)?;
    let (manager, mut pass) = ConnectionManager::new(alloc)?;
    let manager = Arc::new(alloc, manager)?;
    let before = manager.events(&mut pass);
    let (outcome, events) = registered(rt, alloc, &manager, pass, minor, request)?;
    Ok((outcome, before, events))
}

// Minor versions, and what a client is sent: behind 3.0 its key has four bytes, behind 3.2 it has 32.
const LOGINS: &[(u16, &[u8])] = &[
    (
        0,
        b"R\0\0\0\x08\0\0\0\x03R\0\0\0\x08\0\0\0\0K\0\0\0\x0c\0\x01\x86\xa0\x01\x01\x01\x01Z\0\0\0\x05I",
    ),
    (
        2,
        b"R\0\0\0\x08\0\0\0\x03R\0\0\0\x08\0\0\0\0K\0\0\0\x28\0\x01\x86\xa0\x01\x01\x01\x01\x01\x01\x01\x01\x01\x01\x01\x01\x01\x01\x01\x01\x01\x01\x01\x01\x01\x01\x01\x01\x01\x01\x01\x01\x01\x01\x01\x01Z\0\0\0\x05I",
    ),
];

// The login is the first event. The query, the request to cancel it, the look, the query's end, the connection's and that
// of its pair are the others.
#[test]
fn registered_logins(rt: HostRuntime) -> Result<(), Fail> {
    for (minor, sent) in LOGINS {
        let (outcome, before, events) = logged_in(&rt, rt.alloc(), *minor)?;
        compare(&rt, &outcome, "ok", sent);
        drop(outcome);
        assert_eq!(rt; (before, events), (0, (1, Some(true), 7)));
    }
    Ok(())
}

// A server that asks for a password under MD5, over a manager of which the login has no pass.
fn unregistered<R: Abort + Wait>(
    rt: &R,
    alloc: Global,
    steps: &[Step<'_>],
) -> Result<Outcome, OutOfMemory> {
    let (manager, _pass) = ConnectionManager::new(alloc)?;
    let manager = Arc::new(alloc, manager)?;
    let (generator, seat) = RandomPidSecretKeyGenerator::new(alloc)?;
    let handler = Md5PasswordAuthStartupHandler::new(
        SECRET, Silent, generator,
    ).with_connection_manager(manager, rt);
    outcome_of(rt, alloc, &handler, seat, DRAWN, steps)
}

#[test]
fn a_login_without_a_pass(rt: HostRuntime) -> Result<(), Fail> {
    let steps = [Step::Startup("bob"), Step::Password("secret")];
    let outcome = unregistered(&rt, rt.alloc(), &steps)?;
    let sent =
        b"R\0\0\0\x0c\0\0\0\x05\x14\xf7\x6b\xf9R\0\0\0\x08\0\0\0\0K\0\0\0\x0c\0\x01\x86\xa0\x01\x01\x01\x01Z\0\0\0\x05I";
    compare(&rt, &outcome, "ok", sent);
    Ok(())
}
