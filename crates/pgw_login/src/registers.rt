//! Where a connection is registered, so that its queries can be canceled.
ghost use Rattle.std.specs.Prelude.{◌≡◌, ℤ, Option, Result, IfOk};
ghost use Rattle.pgw_registry.specs.Passes.{Known};
ghost use Rattle.pgw_registry.specs.declared.error.RegistryError.{RegistryError as Refusal};
ghost use Rattle.pgw_wire.specs.declared.secret_key.SecretKey.{SecretKey as Key};
ghost use Rattle.pgw_login.specs.Registered.{HandlePair, CanBe, CanRelease, guard_of};

use pgw_registry::error::RegistryError;
use pgw_registry::manager::{ConnectionGuard, ConnectionHandle, ConnectionManager, Pass};
use pgw_types::listed::Duplicate;
use pgw_wire::secret_key::SecretKey;
use std::alloc::Global;
use std::sync::{Arc, Wait};

/// Where a connection is registered.
pub trait Registers {
    /// The pass is one that this takes.
    ghost fits: { Self → Option Known → Type 0 };

    /// What may become of a pass, and be answered, for a process number and key.
    ghost registers: { Self → Option Known → ℤ → Key → Option Known →
        Result (Option HandlePair) Refusal →
        Type 0 };

    /// Registers a connection by its process number and key, or does not where there is no pass.
    fn register(
        &self,
        alloc: Global,
        pass: &mut Option<Pass>,
        pid: i32,
        secret_key: &SecretKey,
    ) -> Result<Option<(ConnectionHandle, ConnectionGuard)>, RegistryError>
        requires { fits self.now pass.old }
        ensures fits { fits self.now pass.new }
        ensures registers { registers self.now pass.old pid secret_key.now pass.new result }
        ensures can_be { CanBe pass.new result }
        ensures can_release { IfOk result (λ pair. CanRelease (guard_of pair) pass.new) };
}

/// Registers nothing.
#[derive(Clone, Copy, Debug, Drop)]
pub struct NoRegistry;

impl Registers for NoRegistry {
    ghost use Rattle.pgw_login.specs.Registered.{NotRegistered};

    ghost fits = { λ r pass. Unit {0} };

    ghost registers = { λ r before pid key after answer. NotRegistered before after answer };

    fn register(
        &self,
        _alloc: Global,
        _pass: &mut Option<Pass>,
        _pid: i32,
        _secret_key: &SecretKey,
    ) -> Result<Option<(ConnectionHandle, ConnectionGuard)>, RegistryError> {
        Ok(None)
    }
}

/// Registers at a manager that threads share.
#[derive(Drop)]
pub struct Managed<R: Wait> {
    manager: Arc<ConnectionManager>,
    rt: R,
}

impl<R: Wait> Managed<R> {
    ghost use Rattle.std.specs.Arc.{arc_value};

    pub fn new(manager: Arc<ConnectionManager>, rt: R) -> Managed<R>
        ensures { arc_value result.manager ≡ arc_value manager }
    {
        Managed { manager, rt }
    }
}

impl<R: Wait> Registers for Managed<R> {
    ghost use Rattle.std.specs.Arc.{arc_value};
    ghost use Rattle.pgw_login.specs.Registered.{IsOf, RegisteredAt};

    ghost fits = { λ m pass. IsOf (arc_value m.manager) pass };

    ghost registers = { λ m before pid key after answer.
        RegisteredAt (arc_value m.manager) before pid key after answer };

    fn register(
        &self,
        alloc: Global,
        pass: &mut Option<Pass>,
        pid: i32,
        secret_key: &SecretKey,
    ) -> Result<Option<(ConnectionHandle, ConnectionGuard)>, RegistryError> {
        match pass {
            None => Ok(None),
            Some(pass) => {
                let key = secret_key.duplicate()?;
                let manager = &self.manager;
                let pair = ConnectionManager::register(&self.rt, alloc, manager, pass, pid, key)?;
                Ok(Some(pair))
            }
        }
    }
}
