//! Requests to cancel.
ghost use Rattle.std.specs.Prelude.{◌≡◌};
ghost use Rattle.std.specs.Arc.{arc_value};

use pgw_control::cancel::CancelRequest;
use pgw_login::cancel::{CancelHandler, DefaultCancelHandler};
use pgw_login::noop::NoopHandler;
use pgw_login::registers::{Managed, Registers};
use pgw_registry::error::RegistryError;
use pgw_registry::manager::{
    CancelToken, ConnectionGuard, ConnectionHandle, ConnectionManager, Pass,
};
use pgw_types::memory::OutOfMemory;
use pgw_wire::secret_key::SecretKey;
use std::alloc::Global;
use std::sync::{Arc, Wait};
use std::test::Fail;

fn finish<R: Wait>(rt: &R, manager: &ConnectionManager, pass: &mut Pass, token: CancelToken)
    requires { pass.old.of ≡ manager.now }
    ensures { pass.new.of ≡ pass.old.of }
{
    match token.finish(rt, manager, pass) {
        Ok(()) => {}
        Err(token) => token.abandon(pass),
    }
}

pub fn close<R: Wait>(
    rt: &R,
    manager: &ConnectionManager,
    pass: &mut Pass,
    handle: ConnectionHandle,
)
    requires { pass.old.of ≡ manager.now }
    ensures { pass.new.of ≡ pass.old.of }
{
    match handle.close(rt, manager, pass) {
        Ok(()) => {}
        Err(handle) => handle.abandon(pass),
    }
}

pub fn release<R: Wait>(rt: &R, pass: &mut Pass, guard: ConnectionGuard)
    requires { pass.old.of ≡ arc_value guard.manager }
    ensures { pass.new.of ≡ pass.old.of }
{
    match guard.release(rt, pass) {
        Ok(()) => {}
        Err(guard) => guard.abandon(pass),
    }
}

// Whether the handler takes a request.
fn is_taken<R: Wait>(
    rt: &R,
    manager: &Arc<ConnectionManager>,
    pass: &mut Pass,
    request: CancelRequest,
) -> bool
    requires { pass.old.of ≡ arc_value manager.now }
    ensures { pass.new.of ≡ pass.old.of }
{
    let Ok(manager) = manager.clone() else {
        return false;
    };
    let handler = DefaultCancelHandler::new(manager, rt);
    handler.on_cancel_request(pass, request).is_ok()
}

/// Whether a query of the connection is canceled by a request.
pub fn is_canceled<R: Wait>(
    rt: &R,
    manager: &Arc<ConnectionManager>,
    pass: &mut Pass,
    handle: &ConnectionHandle,
    request: CancelRequest,
) -> Option<bool>
    requires { pass.old.of ≡ arc_value manager.now }
    ensures { pass.new.of ≡ pass.old.of }
{
    let token = handle.start_query(rt, manager, pass).ok()?;
    let is_taken = is_taken(rt, manager, pass, request);
    let looked = token.try_recv(rt, manager, pass);
    finish(rt, manager, pass, token);
    if is_taken {
        Some(looked.ok()?.is_some())
    } else {
        None
    }
}

fn request(number: i32, key: i32) -> CancelRequest {
    CancelRequest::new(number, SecretKey::I32(key))
}

// Whether a query of the connection is canceled: by the key of another, by the number of another, and by its own.
fn each_canceled<R: Wait>(
    rt: &R,
    manager: &Arc<ConnectionManager>,
    pass: &mut Pass,
    handle: &ConnectionHandle,
) -> [Option<bool>; 3]
    requires { pass.old.of ≡ arc_value manager.now }
    ensures { pass.new.of ≡ pass.old.of }
{
    let by_another_key = is_canceled(rt, manager, pass, handle, request(7, 6));
    let by_another_number = is_canceled(rt, manager, pass, handle, request(8, 5));
    let by_its_own = is_canceled(rt, manager, pass, handle, request(7, 5));
    [by_another_key, by_another_number, by_its_own]
}

// What cancels a query of a connection with the number 7 and the key 5.
fn outcomes<R: Wait>(
    rt: &R,
    alloc: Global,
    manager: &Arc<ConnectionManager>,
    pass: &mut Pass,
) -> Option<[Option<bool>; 3]>
    requires { pass.old.of ≡ arc_value manager.now }
    ensures { pass.new.of ≡ pass.old.of }
{
    let key = SecretKey::I32(5);
    let (handle, guard) = ConnectionManager::register(rt, alloc, manager, pass, 7, key).ok()?;
    let canceled = each_canceled(rt, manager, pass, &handle);
    close(rt, manager, pass, handle);
    release(rt, pass, guard);
    Some(canceled)
}

fn canceled<R: Wait>(rt: &R, alloc: Global) -> Result<Option<[Option<bool>; 3]>, OutOfMemory> {
    let (manager, mut pass) = ConnectionManager::new(alloc)?;
    let manager = Arc::new(alloc, manager)?;
    Ok(outcomes(rt, alloc, &manager, &mut pass))
}

#[test]
fn cancel_handler(rt: HostRuntime) -> Result<(), Fail> {
    let told = canceled(&rt, rt.alloc())?;
    assert_eq!(rt; told, Some([Some(false), Some(false), Some(true)]));
    Ok(())
}

// Registers a connection as a login does; answers how many events there were then, and behind its end.
fn events_of<R: Wait>(
    rt: &R,
    alloc: Global,
    manager: &Arc<ConnectionManager>,
    pass: Pass,
) -> Option<(u64, u64)>
    requires { pass.of ≡ arc_value manager.now }
{
    let managed = Managed::new(manager.clone().ok()?, rt);
    let mut pass = Some(pass);
    match managed.register(alloc, &mut pass, 7, &SecretKey::I32(5)) {
        Ok(Some((handle, guard))) => {
            let Some(pass) = &mut pass else {
                unreachable!()
            };
            let registered = manager.events(pass);
            close(rt, manager, pass, handle);
            release(rt, pass, guard);
            Some((registered, manager.events(pass)))
        }
        Ok(None) => None,
        Err(_) => None,
    }
}

fn events<R: Wait>(rt: &R, alloc: Global) -> Result<Option<(u64, u64)>, OutOfMemory> {
    let (manager, pass) = ConnectionManager::new(alloc)?;
    let manager = Arc::new(alloc, manager)?;
    Ok(events_of(rt, alloc, &manager, pass))
}

#[test]
fn managed_registers(rt: HostRuntime) -> Result<(), Fail> {
    assert_eq!(rt; events(&rt, rt.alloc())?, Some((1, 3)));
    Ok(())
}

/// What a server that asks for nothing answers to a request to cancel, and how many events there were then.
pub fn canceled_by_noop(
    alloc: Global,
    handler: &NoopHandler<()>,
) -> Result<(Result<(), RegistryError>, u64), OutOfMemory> {
    let (manager, mut pass) = ConnectionManager::new(alloc)?;
    let answer = handler.on_cancel_request(&mut pass, request(7, 5));
    Ok((answer, manager.events(&mut pass)))
}

// A server that asks for nothing takes a request to cancel, and cancels nothing.
#[test]
fn noop_cancels_nothing(rt: HostRuntime) -> Result<(), Fail> {
    let answer = canceled_by_noop(rt.alloc(), &NoopHandler::new(()))?;
    assert_eq!(rt; answer, (Ok(()), 0));
    Ok(())
}
