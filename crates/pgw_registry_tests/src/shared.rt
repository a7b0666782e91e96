//! Threads on one registry.
ghost use Rattle.std.specs.Prelude.{◌≡◌, IfOk, IfSome};
ghost use Rattle.std.specs.Arc.{arc_value};
ghost use Rattle.pgw_registry.specs.Passes.{first_pass};

use pgw_registry::error::{LookError, RegistryError};
use pgw_registry::manager::{
    CancelToken, ConnectionGuard, ConnectionHandle, ConnectionManager, Pass,
};
use pgw_types::memory::OutOfMemory;
use pgw_wire::secret_key::SecretKey;
use std::alloc::Global;
use std::sync::atomic::{AtomicBool, Ordering};
use std::sync::{Arc, Wait};
use std::test::Fail;
use std::thread;
use std::thread::Threads;

type Look = Result<Option<()>, LookError>;

type Canceled = Result<bool, RegistryError>;

// How many calls were answered.
fn finish<R: Wait>(rt: &R, manager: &ConnectionManager, pass: &mut Pass, token: CancelToken) -> u64
    requires { pass.old.of ≡ manager.now }
    ensures { pass.new.of ≡ pass.old.of }
{
    match token.finish(rt, manager, pass) {
        Ok(()) => 1,
        Err(token) => {
            token.abandon(pass);
            0
        }
    }
}

fn close<R: Wait>(
    rt: &R,
    manager: &ConnectionManager,
    pass: &mut Pass,
    handle: ConnectionHandle,
) -> u64
    requires { pass.old.of ≡ manager.now }
    ensures { pass.new.of ≡ pass.old.of }
{
    match handle.close(rt, manager, pass) {
        Ok(()) => 1,
        Err(handle) => {
            handle.abandon(pass);
            0
        }
    }
}

fn release<R: Wait>(rt: &R, pass: &mut Pass, guard: ConnectionGuard) -> u64
    requires { pass.old.of ≡ arc_value guard.manager }
    ensures { pass.new.of ≡ pass.old.of }
{
    match guard.release(rt, pass) {
        Ok(()) => 1,
        Err(guard) => {
            guard.abandon(pass);
            0
        }
    }
}

fn registered<R: Wait>(
    rt: &R,
    alloc: Global,
    manager: &Arc<ConnectionManager>,
    pass: &mut Pass,
    pid: i32,
    key: i32,
) -> Result<(ConnectionHandle, ConnectionGuard), RegistryError>
    requires { pass.old.of ≡ arc_value manager.now }
    ensures kept { pass.new.of ≡ pass.old.of }
    ensures guarded { IfOk result (λ r. arc_value r.1.manager ≡ arc_value manager.now) }
{
    ConnectionManager::register(rt, alloc, manager, pass, pid, SecretKey::I32(key))
}

fn cancel<R: Wait>(
    rt: &R,
    manager: &ConnectionManager,
    pass: &mut Pass,
    pid: i32,
    key: i32,
) -> Canceled
    requires { pass.old.of ≡ manager.now }
    ensures { pass.new.of ≡ pass.old.of }
{
    manager.cancel(rt, pass, pid, &SecretKey::I32(key))
}

// A query that is started, canceled and finished.
fn query<R: Wait>(
    rt: &R,
    manager: &ConnectionManager,
    pass: &mut Pass,
    handle: &ConnectionHandle,
) -> u64
    requires { pass.old.of ≡ manager.now }
    ensures { pass.new.of ≡ pass.old.of }
{
    let Ok(token) = handle.start_query(rt, manager, pass) else {
        return 0;
    };
    let canceled = match handle.cancel(rt, manager, pass) {
        Ok(_) => 1u64,
        Err(_) => 0,
    };
    canceled
        .saturating_add(finish(rt, manager, pass, token))
        .saturating_add(1)
}

// A connection with a query.
fn connection<R: Wait>(
    rt: &R,
    alloc: Global,
    manager: &Arc<ConnectionManager>,
    pass: &mut Pass,
    pid: i32,
) -> u64
    requires { pass.old.of ≡ arc_value manager.now }
    ensures { pass.new.of ≡ pass.old.of }
{
    let Ok((handle, guard)) = registered(rt, alloc, manager, pass, pid, 1) else {
        return 0;
    };
    let answered = query(rt, manager, pass, &handle);
    answered
        .saturating_add(close(rt, manager, pass, handle))
        .saturating_add(release(rt, pass, guard))
        .saturating_add(1)
}

fn hundred<R: Wait>(
    rt: &R,
    alloc: Global,
    manager: &Arc<ConnectionManager>,
    mut pass: Pass,
    pid: i32,
) -> (Pass, u64)
    requires { pass.of ≡ arc_value manager.now }
    ensures { result.0.of ≡ pass.of }
{
    let mut answered = 0u64;
    for _ in 0..100 {
        answered = answered.saturating_add(connection(rt, alloc, manager, &mut pass, pid));
    }
    (pass, answered)
}

// What two threads did.
fn both(manager: &ConnectionManager, first: (Pass, u64), second: (Pass, u64)) -> Option<(Pass, u64)>
    requires first { first.0.of ≡ manager.now }
    requires second { second.0.of ≡ manager.now }
    ensures { IfSome result (λ r. r.0.of ≡ manager.now) }
{
    let (mut pass, answered) = first;
    let (other, others) = second;
    pass.meet(manager, other).ok()?;
    Some((pass, answered.saturating_add(others)))
}

fn two<R: Threads + Wait + Sync>(
    rt: &R,
    alloc: Global,
    manager: &Arc<ConnectionManager>,
    first: Pass,
    second: Pass,
) -> Option<(Pass, u64)>
    requires first { first.of ≡ arc_value manager.now }
    requires second { second.of ≡ arc_value manager.now }
    ensures { IfSome result (λ r. r.0.of ≡ arc_value manager.now) }
{
    let (first, second) = thread::join(
        rt,
        || -> (Pass, u64)
            requires { first.of ≡ arc_value manager.now }
            ensures { result.0.of ≡ first.of }
        { hundred(rt, alloc, manager, first, 1) },
        || -> (Pass, u64)
            requires { second.of ≡ arc_value manager.now }
            ensures { result.0.of ≡ second.of }
        { hundred(rt, alloc, manager, second, 1) },
    );
    both(manager, first, second)
}

// What two pairs of threads did.
fn pairs<R: Threads + Wait + Sync>(
    rt: &R,
    alloc: Global,
    manager: &Arc<ConnectionManager>,
    left: (Pass, Pass),
    right: (Pass, Pass),
) -> Option<(Pass, u64)>
    requires left { (left.0.of ≡ arc_value manager.now) × (left.1.of ≡ arc_value manager.now) }
    requires right { (right.0.of ≡ arc_value manager.now) × (right.1.of ≡ arc_value manager.now) }
    ensures { IfSome result (λ r. r.0.of ≡ arc_value manager.now) }
{
    let (first, second) = left;
    let (third, fourth) = right;
    let (left, right) = thread::join(
        rt,
        || -> Option<(Pass, u64)>
            requires { (first.of ≡ arc_value manager.now) × (second.of ≡ arc_value manager.now) }
            ensures { IfSome result (λ r. r.0.of ≡ arc_value manager.entry.now) }
        { two(rt, alloc, manager, first, second) },
        || -> Option<(Pass, u64)>
            requires { (third.of ≡ arc_value manager.now) × (fourth.of ≡ arc_value manager.now) }
            ensures { IfSome result (λ r. r.0.of ≡ arc_value manager.entry.now) }
        { two(rt, alloc, manager, third, fourth) },
    );
    both(manager, left?, right?)
}

// A pass, and one that is cut from it.
fn cut(manager: &ConnectionManager, mut first: Pass) -> Option<(Pass, Pass)>
    requires { first.of ≡ manager.now }
    ensures { IfSome result (λ r. (r.0.of ≡ manager.now) × (r.1.of ≡ manager.now)) }
{
    let second = manager.pass(&mut first).ok()?;
    Some((first, second))
}

fn four<R: Threads + Wait + Sync>(
    rt: &R,
    alloc: Global,
    manager: &Arc<ConnectionManager>,
    first: Pass,
) -> Option<(u64, u64)>
    requires { first.of ≡ arc_value manager.now }
{
    let (left, right) = cut(manager, first)?;
    let left = cut(manager, left)?;
    let right = cut(manager, right)?;
    let (mut pass, answered) = pairs(rt, alloc, manager, left, right)?;
    Some((manager.events(&mut pass), answered))
}

// A registry that threads share, and its first pass.
fn shared(alloc: Global) -> Option<(Arc<ConnectionManager>, Pass)>
    ensures { IfSome result (λ r. r.1.of ≡ arc_value r.0) }
{
    let (manager, pass) = ConnectionManager::new(alloc).ok()?;
    Some((Arc::new(alloc, manager).ok()?, pass))
}

fn counted<R: Threads + Wait + Sync>(rt: &R, alloc: Global) -> Option<(u64, u64)> {
    let (manager, pass) = shared(alloc)?;
    four(rt, alloc, &manager, pass)
}

// The events, and the calls that were answered.
#[test]
fn four_threads_count_each_call(rt: HostRuntime) {
    assert_eq!(rt; counted(&rt, rt.alloc()), Some((2400, 2400)));
}

// How many calls of a query on a new handle were answered.
fn queried<R: Wait>(rt: &R, manager: &ConnectionManager, pass: &mut Pass) -> u64
    requires { pass.old.of ≡ manager.now }
    ensures { pass.new.of ≡ pass.old.of }
{
    match manager.handle(rt, pass) {
        Ok(handle) => {
            let answered = query(rt, manager, pass, &handle);
            answered.saturating_add(close(rt, manager, pass, handle))
        }
        Err(_) => 0,
    }
}

// The events that a pass has seen once it has met another.
fn met(manager: &ConnectionManager, first: &mut Pass, second: Pass) -> u64
    requires { (first.old.of ≡ manager.now) × (second.of ≡ manager.now) }
    ensures { first.new.of ≡ first.old.of }
{
    match first.meet(manager, second) {
        Ok(()) => manager.events(first),
        Err(_) => u64::MAX,
    }
}

// The events that two passes have seen: the first before the second makes its calls, the second after them, the first
// once they have met, and again once a pass that was cut from it has canceled nothing.
fn seen<R: Wait>(
    rt: &R,
    manager: &ConnectionManager,
    mut first: Pass,
) -> Result<(u64, u64, u64, u64), OutOfMemory>
    requires { first.of ≡ manager.now }
{
    let mut second = manager.pass(&mut first)?;
    let before = manager.events(&mut first);
    queried(rt, manager, &mut second);
    let after = manager.events(&mut second);
    let met = met(manager, &mut first, second);
    let mut third = manager.pass(&mut first)?;
    let canceled = cancel(rt, manager, &mut third, 999, 0);
    let last = if canceled == Ok(false) {
        manager.events(&mut first)
    } else {
        0
    };
    Ok((before, after, met, last))
}

#[test]
fn passes_meet(rt: HostRuntime) -> Result<(), Fail> {
    let (manager, first) = ConnectionManager::new(rt.alloc())?;
    assert_eq!(rt; seen(&rt, &manager, first)?, (0, 5, 5, 6));
    Ok(())
}

#[test]
fn answers_are_counted(rt: HostRuntime) -> Result<(), Fail> {
    let (manager, mut pass) = ConnectionManager::new(rt.alloc())?;
    assert_eq!(rt; queried(&rt, &manager, &mut pass), 4);
    Ok(())
}

// The events of a new registry behind a call of each of two passes: no more than these two.
fn two_calls<R: Wait>(rt: &R, manager: &ConnectionManager, mut first: Pass) -> Option<u64>
    requires { first ≡ first_pass manager.now }
    ensures { IfSome result (λ events. events ≡ 2) }
{
    let mut second = manager.pass(&mut first).ok()?;
    manager.cancel(rt, &mut first, 1, &SecretKey::I32(0)).ok()?;
    manager.cancel(rt, &mut second, 2, &SecretKey::I32(0)).ok()?;
    first.meet(manager, second).ok()?;
    Some(manager.events(&mut first))
}

#[test]
fn nobody_else_makes_events(rt: HostRuntime) -> Result<(), Fail> {
    let (manager, pass) = ConnectionManager::new(rt.alloc())?;
    assert_eq!(rt; two_calls(&rt, &manager, pass), Some(2));
    Ok(())
}

// What the later of two queries is told, and a cancel behind which it fires.
fn fired<R: Wait>(
    rt: &R,
    manager: &ConnectionManager,
    pass: &mut Pass,
    handle: &ConnectionHandle,
    second: &CancelToken,
) -> (Canceled, Look, Look)
    requires { pass.old.of ≡ manager.now }
    ensures { pass.new.of ≡ pass.old.of }
{
    let canceled = handle.cancel(rt, manager, pass);
    let fired = second.try_recv(rt, manager, pass);
    (canceled, fired, second.try_recv(rt, manager, pass))
}

// What is told once a second query is started: of the first, and of the second.
fn behind<R: Wait>(
    rt: &R,
    manager: &ConnectionManager,
    pass: &mut Pass,
    handle: &ConnectionHandle,
    first: &CancelToken,
) -> Option<(Look, (Canceled, Look, Look))>
    requires { pass.old.of ≡ manager.now }
    ensures { pass.new.of ≡ pass.old.of }
{
    let second = handle.start_query(rt, manager, pass).ok()?;
    let looked = first.try_recv(rt, manager, pass);
    let fired = fired(rt, manager, pass, handle, &second);
    finish(rt, manager, pass, second);
    Some((looked, fired))
}

// What is told of two queries of one connection.
fn replaced<R: Wait>(
    rt: &R,
    manager: &ConnectionManager,
    pass: &mut Pass,
    handle: &ConnectionHandle,
) -> Option<(Look, (Canceled, Look, Look))>
    requires { pass.old.of ≡ manager.now }
    ensures { pass.new.of ≡ pass.old.of }
{
    let first = handle.start_query(rt, manager, pass).ok()?;
    let told = behind(rt, manager, pass, handle, &first);
    finish(rt, manager, pass, first);
    told
}

fn replaced_on_one<R: Wait>(
    rt: &R,
    manager: &ConnectionManager,
    pass: &mut Pass,
) -> Option<(Look, (Canceled, Look, Look))>
    requires { pass.old.of ≡ manager.now }
    ensures { pass.new.of ≡ pass.old.of }
{
    let Ok(handle) = manager.handle(rt, pass) else {
        return None;
    };
    let told = replaced(rt, manager, pass, &handle);
    close(rt, manager, pass, handle);
    told
}

#[test]
fn a_query_replaces_another(rt: HostRuntime) -> Result<(), Fail> {
    let (manager, mut pass) = ConnectionManager::new(rt.alloc())?;
    assert_eq!(rt;
        replaced_on_one(&rt, &manager, &mut pass),
        Some((
            Err(LookError::Canceled),
            (Ok(true), Ok(Some(())), Err(LookError::Canceled))
        ))
    );
    Ok(())
}

// What a cancel by the pair answers, before and after one of two guards is released.
fn twice<R: Wait>(
    rt: &R,
    alloc: Global,
    manager: &Arc<ConnectionManager>,
    pass: &mut Pass,
) -> Option<(Canceled, Canceled)>
    requires { pass.old.of ≡ arc_value manager.now }
    ensures { pass.new.of ≡ pass.old.of }
{
    let Ok((handle, guard)) = registered(rt, alloc, manager, pass, 7, 5) else {
        return None;
    };
    let before = cancel(rt, manager, pass, 7, 5);
    let Ok((other, spare)) = registered(rt, alloc, manager, pass, 7, 5) else {
        close(rt, manager, pass, handle);
        release(rt, pass, guard);
        return None;
    };
    release(rt, pass, guard);
    let after = cancel(rt, manager, pass, 7, 5);
    close(rt, manager, pass, handle);
    close(rt, manager, pass, other);
    release(rt, pass, spare);
    Some((before, after))
}

#[test]
fn a_pair_goes_with_a_guard(rt: HostRuntime) -> Result<(), Fail> {
    let (manager, mut pass) = shared(rt.alloc()).ok_or("no registry")?;
    let told = twice(&rt, rt.alloc(), &manager, &mut pass);
    assert_eq!(rt; told, Some((Ok(true), Ok(false))));
    Ok(())
}

// Starts a query and looks at it until it has fired, which it then tells the other thread.
fn watch<R: Wait>(
    rt: &R,
    manager: &ConnectionManager,
    mut pass: Pass,
    handle: &ConnectionHandle,
    done: &AtomicBool,
) -> (Pass, bool)
    requires { pass.of ≡ manager.now }
    ensures { result.0.of ≡ pass.of }
{
    let Ok(token) = handle.start_query(rt, manager, &mut pass) else {
        return (pass, false);
    };
    let mut fired = false;
    for _ in 0..1000000 {
        if let Ok(Some(())) = token.try_recv(rt, manager, &mut pass) {
            fired = true;
            break;
        }
    }
    done.store(true, Ordering::SeqCst);
    finish(rt, manager, &mut pass, token);
    (pass, fired)
}

// Cancels by the pair until it is told to stop.
fn strike<R: Wait>(rt: &R, manager: &ConnectionManager, mut pass: Pass, done: &AtomicBool) -> bool
    requires { pass.of ≡ manager.now }
{
    for _ in 0..1000000 {
        if done.load(Ordering::SeqCst) {
            return true;
        }
        let _ = cancel(rt, manager, &mut pass, 7, 5);
    }
    false
}

// Whether a query of one thread is fired by another.
fn fires<R: Threads + Wait + Sync>(
    rt: &R,
    alloc: Global,
    manager: &Arc<ConnectionManager>,
    mut pass: Pass,
    other: Pass,
) -> bool
    requires { (pass.of ≡ arc_value manager.now) × (other.of ≡ arc_value manager.now) }
{
    let Ok((handle, guard)) = registered(rt, alloc, manager, &mut pass, 7, 5) else {
        return false;
    };
    let done = AtomicBool::new(false);
    let ((mut pass, fired), _) = thread::join(
        rt,
        || -> (Pass, bool)
            requires { pass.of ≡ arc_value manager.now }
            ensures { result.0.of ≡ pass.of }
        { watch(rt, manager, pass, &handle, &done) },
        || -> bool
            requires { other.of ≡ arc_value manager.now }
        { strike(rt, manager, other, &done) },
    );
    close(rt, manager, &mut pass, handle);
    release(rt, &mut pass, guard);
    fired
}

#[test]
fn threads_cancel(rt: HostRuntime) -> Result<(), Fail> {
    let (manager, pass) = shared(rt.alloc()).ok_or("no registry")?;
    let (pass, other) = cut(&manager, pass).ok_or("no pass")?;
    assert!(rt; fires(&rt, rt.alloc(), &manager, pass, other));
    Ok(())
}
