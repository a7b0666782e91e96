//! The registry that threads share.
ghost use Rattle.std.specs.Prelude.{◌≡◌, [], ◌∷◌, length, ◌⊎◌, IsOk, IfOk, IfErr, MatchBool};
ghost use Rattle.std.specs.Arc.{arc_value};
ghost use Rattle.pgw_wire.specs.Keys.{key_bytes};
ghost use Rattle.pgw_registry.specs.Shares.{half};
ghost use Rattle.pgw_registry.specs.declared.error.RegistryError.TheVariants.{OutOfMemory as NoMemory};
ghost use Rattle.pgw_registry.specs.Passes.{CountsAll, Known, Sees, Makes, mine, Refused, PassCannotGrow, OnlyFull, Struck, NotLooked, Full, first_pass, halved, TakesInView};
ghost use Rattle.pgw_registry.specs.declared.call.Call.TheVariants.{Cancel, CancelHandle, StartQuery, NewHandle, CloseHandle, Look, Finish, Register, Release};
ghost use Rattle.pgw_registry.specs.declared.call.Reply.TheVariants.{Canceled, Started, Handled, Done, Looked};

use crate::error::{LookError, RegistryError};
use crate::held::Held;
use crate::pairs::copied;
use crate::sight::{Asked, Desk, Place};
use crate::turn::{commit, count, cut, enter, leave, look, take_in, take_out};
use atomic_table::{Refused as NoTable, Table};
use pgw_types::listed::Duplicate;
use pgw_types::memory::OutOfMemory;
use pgw_types::octets::Octets;
use pgw_wire::secret_key::SecretKey;
use std::alloc::Global;
use std::marker::{Brand, Model};
use std::sync::{Arc, Wait};

/// Which query of which connection is to be canceled, for threads that share it. A contract sees
/// which one it is.
#[derive(Drop)]
pub struct ConnectionManager {
    desk: Desk,
}

impl Model for ConnectionManager {
    ghost use Rattle.atomic_table.specs.Seated.{TableId};
    ghost use Rattle.pgw_registry.specs.Passes.{IsDesk};

    ghost Value = { TableId };

    ghost view = { λ m. m.desk.shared.table_id };

    ghost invariant = { λ m. IsDesk m.desk.shared.table_id };
}

/// A thread's right to call a manager. A contract sees the history that it has seen, and which of
/// the calls in it count as its own.
#[derive(Drop)]
pub struct Pass {
    place: Place,
}

impl Model for Pass {
    ghost use Rattle.std.specs.Prelude.{◌≡◌, []};
    ghost use Rattle.pgw_registry.specs.Passes.{Known, IsPass};

    ghost Value = { Known };

    ghost view = { λ p. record {
      of = p.place.table_id;
      own = p.place.me.0.own;
      numbers
          = p.place.me.0.numbers;
      share = p.place.me.0.share;
      seen = p.place.me.0.seen;
    } };

    ghost invariant = { λ p. (p.place.me.1 ≡ []) × IsPass p.place.me.0 };
}

/// A connection, which `close` spends.
pub struct ConnectionHandle {
    number: u64,
}

/// A query, which `finish` spends.
pub struct CancelToken {
    number: u64,
}

/// A connection's process number and key, which `release` spends.
pub struct ConnectionGuard {
    manager: Arc<ConnectionManager>,
    pid: i32,
    key: Octets,
}

// A copy of the key's bytes, which keeps no larger block alive.
fn own_bytes(alloc: Global, secret_key: &SecretKey) -> Result<Octets, OutOfMemory>
    ensures { IfOk result (λ key. key ≡ key_bytes secret_key.now) }
{
    match secret_key {
        SecretKey::I32(_) => secret_key.to_bytes(alloc),
        SecretKey::Bytes(bytes) => Octets::from_slice(alloc, bytes.as_slice()),
    }
}

impl ConnectionManager {
    /// A manager and its first pass.
    pub fn new(alloc: Global) -> Result<(ConnectionManager, Pass), OutOfMemory>
        ensures { IfOk result (λ r. r.1 ≡ first_pass r.0) }
    {
        let mut slots = Vec::new(alloc);
        slots.push(Some(Held::new(alloc)?))?;
        match Table::new(alloc, &[0, 0], slots, &()) {
            Ok((desk, place)) => Ok((ConnectionManager { desk }, Pass { place })),
            Err(NoTable { slots: _ }) => Err(OutOfMemory),
        }
    }

    /// A new pass, which has seen as much as `from` and has made no calls. Each has half of the
    /// share that `from` had. It takes no memory.
    pub fn pass(&self, from: &mut Pass) -> Result<Pass, OutOfMemory>
        requires { from.old.of ≡ self.now }
        ensures done { IsOk result }
        ensures from { from.new ≡ halved from.old }
        ensures made { IfOk result (λ p. (p.of ≡ self.now) × (p.seen ≡ from.old.seen)
            × (p.numbers ≡ p.own ∷ []) × (mine p ≡ []) × (p.share ≡ half from.old.share)) }
    {
        Ok(Pass {
            place: cut(&self.desk, &mut from.place),
        })
    }

    /// The number of events in the history that the pass has seen afterwards.
    pub fn events(&self, pass: &mut Pass) -> u64
        requires { pass.old.of ≡ self.now }
        ensures seen { Sees pass.old pass.new }
        ensures events { result ≡ length pass.new.seen }
    {
        look(&self.desk, &mut pass.place)
    }

    /// Adds a holder to the handle of a pair, which is made if need be.
    pub fn register<R: Wait>(
        rt: &R,
        alloc: Global,
        manager: &Arc<ConnectionManager>,
        pass: &mut Pass,
        pid: i32,
        secret_key: SecretKey,
    ) -> Result<(ConnectionHandle, ConnectionGuard), RegistryError>
        requires { pass.old.of ≡ arc_value manager.now }
        ensures ok { IfOk result (λ r. Makes (Register pid (key_bytes secret_key))
            (Handled r.0.number) pass.old pass.new × (r.1.pid ≡ pid)
            × (r.1.key ≡ key_bytes secret_key) × (arc_value r.1.manager ≡ arc_value manager.now)) }
        ensures err { IfErr result (λ e. PassCannotGrow e pass.old pass.new
            ⊎ ((e ≡ NoMemory) × (pass.new ≡ pass.old))) }
    {
        let key = own_bytes(alloc, &secret_key)?;
        let Ok(owner) = Arc::try_clone(manager) else {
            return Err(RegistryError::OutOfMemory);
        };
        let number = manager.add_copied(rt, alloc, pass, pid, &key)?;
        let guard = ConnectionGuard {
            manager: owner,
            pid,
            key,
        };
        Ok((ConnectionHandle { number }, guard))
    }

    /// A handle without a pair.
    pub fn handle<R: Wait>(
        &self,
        rt: &R,
        pass: &mut Pass,
    ) -> Result<ConnectionHandle, RegistryError>
        requires { pass.old.of ≡ self.now }
        ensures ok { IfOk result (λ h. Makes NewHandle (Handled h.number) pass.old pass.new) }
        ensures err { IfErr result (λ e. PassCannotGrow e pass.old pass.new) }
    {
        enter(rt, &self.desk, &mut pass.place);
        let mut registry = take_out(&self.desk, &mut pass.place);
        if count(&self.desk, &mut pass.place) == u64::MAX {
            leave(&self.desk, &mut pass.place, registry);
            return Err(RegistryError::Exhausted);
        }
        match registry.new_handle() {
            Ok(number) => {
                commit::<Brand>(&self.desk, &mut pass.place);
                leave(&self.desk, &mut pass.place, registry);
                Ok(ConnectionHandle { number })
            }
            Err(_) => {
                leave(&self.desk, &mut pass.place, registry);
                Err(RegistryError::OutOfMemory)
            }
        }
    }

    /// Cancels by process number and key, and tells whether the pair is there.
    #[tactic(auto, unfolding(pgw_wire::specs::Writing::i32))]
    pub fn cancel<R: Wait>(
        &self,
        rt: &R,
        pass: &mut Pass,
        pid: i32,
        secret_key: &SecretKey,
    ) -> Result<bool, RegistryError>
        requires { pass.old.of ≡ self.now }
        ensures ok { IfOk result (λ x. Makes (Cancel pid (key_bytes secret_key.now)) (Canceled x)
            pass.old pass.new) }
        ensures err { IfErr result (λ e. OnlyFull e pass.old pass.new) }
    {
        match secret_key {
            SecretKey::I32(n) => {
                let key = n.cast_unsigned().to_be_bytes();
                self.cancel_pair::<R, Brand>(rt, pass, pid, &key)
            }
            SecretKey::Bytes(bytes) => {
                self.cancel_pair::<R, Brand>(rt, pass, pid, bytes.as_slice())
            }
        }
    }

    fn cancel_pair<R: Wait, C: Asked>(
        &self,
        rt: &R,
        pass: &mut Pass,
        pid: i32,
        key: &[u8],
    ) -> Result<bool, RegistryError>
        requires pass { pass.old.of ≡ self.now }
        requires call { C.call ≡ Cancel pid key.now }
        ensures ok { IfOk result (λ x. Makes (Cancel pid key.now) (Canceled x) pass.old pass.new) }
        ensures err { IfErr result (λ e. OnlyFull e pass.old pass.new) }
    {
        enter(rt, &self.desk, &mut pass.place);
        let mut registry = take_out(&self.desk, &mut pass.place);
        if count(&self.desk, &mut pass.place) == u64::MAX {
            leave(&self.desk, &mut pass.place, registry);
            return Err(RegistryError::Exhausted);
        }
        let Ok(reply) = registry.cancel(pid, key) else {
            unreachable!()
        };
        commit::<C>(&self.desk, &mut pass.place);
        leave(&self.desk, &mut pass.place, registry);
        Ok(reply)
    }

    // The number of the pair's handle. The copies of the key are made before the turn is taken.
    fn add_copied<R: Wait>(
        &self,
        rt: &R,
        alloc: Global,
        pass: &mut Pass,
        pid: i32,
        key: &Octets,
    ) -> Result<u64, RegistryError>
        requires { pass.old.of ≡ self.now }
        ensures ok { IfOk result (λ h. Makes (Register pid key.now) (Handled h) pass.old pass.new) }
        ensures err { IfErr result (λ e. PassCannotGrow e pass.old pass.new
            ⊎ ((e ≡ NoMemory) × (pass.new ≡ pass.old))) }
    {
        let given = key.duplicate()?;
        let copy = copied(alloc, key.as_slice())?;
        self.add::<R, Brand>(rt, pass, pid, given, copy)
    }

    // The number of the pair's handle. No memory that grows with the key is taken while the turn is held.
    fn add<R: Wait, C: Asked>(
        &self,
        rt: &R,
        pass: &mut Pass,
        pid: i32,
        key: Octets,
        copy: Vec<u8>,
    ) -> Result<u64, RegistryError>
        requires pass { pass.old.of ≡ self.now }
        requires call { C.call ≡ Register pid key }
        requires copy { copy.items ≡ key }
        ensures ok { IfOk result (λ h. Makes (Register pid key) (Handled h) pass.old pass.new) }
        ensures err { IfErr result (λ e. PassCannotGrow e pass.old pass.new) }
    {
        enter(rt, &self.desk, &mut pass.place);
        let mut registry = take_out(&self.desk, &mut pass.place);
        if count(&self.desk, &mut pass.place) == u64::MAX {
            leave(&self.desk, &mut pass.place, registry);
            return Err(RegistryError::Exhausted);
        }
        match registry.register_copied(pid, key, copy) {
            Ok(number) => {
                commit::<C>(&self.desk, &mut pass.place);
                leave(&self.desk, &mut pass.place, registry);
                Ok(number)
            }
            Err(_) => {
                leave(&self.desk, &mut pass.place, registry);
                Err(RegistryError::OutOfMemory)
            }
        }
    }

    // Removes a pair, if there is room for an event.
    fn take_away<R: Wait, C: Asked>(&self, rt: &R, pass: &mut Pass, pid: i32, key: &[u8]) -> bool
        requires pass { pass.old.of ≡ self.now }
        requires call { C.call ≡ Release pid key.now }
        ensures { MatchBool result (Makes (Release pid key.now) Done pass.old pass.new)
            (Full pass.old pass.new) }
    {
        enter(rt, &self.desk, &mut pass.place);
        let mut registry = take_out(&self.desk, &mut pass.place);
        if count(&self.desk, &mut pass.place) == u64::MAX {
            leave(&self.desk, &mut pass.place, registry);
            return false;
        }
        let Ok(()) = registry.release(pid, key) else {
            unreachable!()
        };
        commit::<C>(&self.desk, &mut pass.place);
        leave(&self.desk, &mut pass.place, registry);
        true
    }

    // The number of a query on a handle.
    fn start<R: Wait, C: Asked>(
        &self,
        rt: &R,
        pass: &mut Pass,
        handle: u64,
    ) -> Result<u64, RegistryError>
        requires pass { pass.old.of ≡ self.now }
        requires call { C.call ≡ StartQuery handle }
        ensures ok { IfOk result (λ t. Makes (StartQuery handle) (Started t) pass.old pass.new) }
        ensures err { IfErr result (λ e. Refused e (StartQuery handle) pass.old pass.new) }
    {
        enter(rt, &self.desk, &mut pass.place);
        let mut registry = take_out(&self.desk, &mut pass.place);
        if count(&self.desk, &mut pass.place) == u64::MAX {
            leave(&self.desk, &mut pass.place, registry);
            return Err(RegistryError::Exhausted);
        }
        match registry.start_query(handle) {
            Ok(number) => {
                commit::<C>(&self.desk, &mut pass.place);
                leave(&self.desk, &mut pass.place, registry);
                Ok(number)
            }
            Err(RegistryError::Gone) => {
                commit::<C>(&self.desk, &mut pass.place);
                leave(&self.desk, &mut pass.place, registry);
                Err(RegistryError::Gone)
            }
            Err(_) => {
                leave(&self.desk, &mut pass.place, registry);
                Err(RegistryError::OutOfMemory)
            }
        }
    }

    // Fires the query that is active on a handle, and tells whether there was one.
    fn fire<R: Wait, C: Asked>(
        &self,
        rt: &R,
        pass: &mut Pass,
        handle: u64,
    ) -> Result<bool, RegistryError>
        requires pass { pass.old.of ≡ self.now }
        requires call { C.call ≡ CancelHandle handle }
        ensures ok { IfOk result (λ x. Makes (CancelHandle handle) (Canceled x) pass.old pass.new) }
        ensures err { IfErr result (λ e. Struck e (CancelHandle handle) pass.old pass.new) }
    {
        enter(rt, &self.desk, &mut pass.place);
        let mut registry = take_out(&self.desk, &mut pass.place);
        if count(&self.desk, &mut pass.place) == u64::MAX {
            leave(&self.desk, &mut pass.place, registry);
            return Err(RegistryError::Exhausted);
        }
        match registry.cancel_handle(handle) {
            Ok(reply) => {
                commit::<C>(&self.desk, &mut pass.place);
                leave(&self.desk, &mut pass.place, registry);
                Ok(reply)
            }
            Err(_) => {
                commit::<C>(&self.desk, &mut pass.place);
                leave(&self.desk, &mut pass.place, registry);
                Err(RegistryError::Gone)
            }
        }
    }

    // Gives a handle up, if there is room for an event.
    fn give_up<R: Wait, C: Asked>(&self, rt: &R, pass: &mut Pass, handle: u64) -> bool
        requires pass { pass.old.of ≡ self.now }
        requires call { C.call ≡ CloseHandle handle }
        ensures { MatchBool result (Makes (CloseHandle handle) Done pass.old pass.new)
            (Full pass.old pass.new) }
    {
        enter(rt, &self.desk, &mut pass.place);
        let mut registry = take_out(&self.desk, &mut pass.place);
        if count(&self.desk, &mut pass.place) == u64::MAX {
            leave(&self.desk, &mut pass.place, registry);
            return false;
        }
        let Ok(()) = registry.close_handle(handle) else {
            unreachable!()
        };
        commit::<C>(&self.desk, &mut pass.place);
        leave(&self.desk, &mut pass.place, registry);
        true
    }

    // Whether a query has fired.
    fn look_at<R: Wait, C: Asked>(
        &self,
        rt: &R,
        pass: &mut Pass,
        query: u64,
    ) -> Result<Option<()>, LookError>
        requires pass { pass.old.of ≡ self.now }
        requires call { C.call ≡ Look query }
        ensures ok { IfOk result (λ x. Makes (Look query) (Looked x) pass.old pass.new) }
        ensures err { IfErr result (λ e. NotLooked e (Look query) pass.old pass.new) }
    {
        enter(rt, &self.desk, &mut pass.place);
        let mut registry = take_out(&self.desk, &mut pass.place);
        if count(&self.desk, &mut pass.place) == u64::MAX {
            leave(&self.desk, &mut pass.place, registry);
            return Err(LookError::Exhausted);
        }
        match registry.look(query) {
            Ok(reply) => {
                commit::<C>(&self.desk, &mut pass.place);
                leave(&self.desk, &mut pass.place, registry);
                Ok(reply)
            }
            Err(_) => {
                commit::<C>(&self.desk, &mut pass.place);
                leave(&self.desk, &mut pass.place, registry);
                Err(LookError::Canceled)
            }
        }
    }

    // Forgets a query, if there is room for an event.
    fn forget<R: Wait, C: Asked>(&self, rt: &R, pass: &mut Pass, query: u64) -> bool
        requires pass { pass.old.of ≡ self.now }
        requires call { C.call ≡ Finish query }
        ensures { MatchBool result (Makes (Finish query) Done pass.old pass.new)
            (Full pass.old pass.new) }
    {
        enter(rt, &self.desk, &mut pass.place);
        let mut registry = take_out(&self.desk, &mut pass.place);
        if count(&self.desk, &mut pass.place) == u64::MAX {
            leave(&self.desk, &mut pass.place, registry);
            return false;
        }
        let Ok(()) = registry.finish(query) else {
            unreachable!()
        };
        commit::<C>(&self.desk, &mut pass.place);
        leave(&self.desk, &mut pass.place, registry);
        true
    }
}

impl Pass {
    /// Takes in another pass. Its calls and its share count as this one's. It takes no memory.
    pub fn meet(&mut self, manager: &ConnectionManager, other: Pass) -> Result<(), Pass>
        requires { (self.old.of ≡ manager.now) × (other.of ≡ manager.now) }
        ensures done { IsOk result }
        ensures ok { IfOk result (λ _. TakesInView self.old other self.new) }
    {
        let Pass { place } = other;
        take_in(&manager.desk, &mut self.place, place);
        Ok(())
    }

    /// A law of passes, for callers that were handed one: with the whole share, it counts each
    /// call of the history that it has seen as its own. It does nothing.
    pub fn counts_all(&self)
        ensures { CountsAll self.now }
    {
        let _place = &self.place;
    }
}

impl ConnectionHandle {
    /// A query of the connection, which replaces the one that waits.
    pub fn start_query<R: Wait>(
        &self,
        rt: &R,
        manager: &ConnectionManager,
        pass: &mut Pass,
    ) -> Result<CancelToken, RegistryError>
        requires { pass.old.of ≡ manager.now }
        ensures ok { IfOk result (λ t. Makes (StartQuery self.now.number) (Started t.number)
            pass.old pass.new) }
        ensures err { IfErr result (λ e. Refused e (StartQuery self.now.number) pass.old pass.new) }
    {
        let number = manager.start::<R, Brand>(rt, pass, self.number)?;
        Ok(CancelToken { number })
    }

    /// Fires the query that is active, and tells whether there was one.
    pub fn cancel<R: Wait>(
        &self,
        rt: &R,
        manager: &ConnectionManager,
        pass: &mut Pass,
    ) -> Result<bool, RegistryError>
        requires { pass.old.of ≡ manager.now }
        ensures ok { IfOk result (λ x. Makes (CancelHandle self.now.number) (Canceled x) pass.old
            pass.new) }
        ensures err { IfErr result (λ e. Struck e (CancelHandle self.now.number) pass.old
            pass.new) }
    {
        manager.fire::<R, Brand>(rt, pass, self.number)
    }

    /// Gives the connection up.
    pub fn close<R: Wait>(
        self,
        rt: &R,
        manager: &ConnectionManager,
        pass: &mut Pass,
    ) -> Result<(), ConnectionHandle>
        requires { pass.old.of ≡ manager.now }
        ensures ok { IfOk result (λ _. Makes (CloseHandle self.number) Done pass.old pass.new) }
        ensures err { IfErr result (λ h. (h ≡ self) × Full pass.old pass.new) }
    {
        if !manager.give_up::<R, Brand>(rt, pass, self.number) {
            return Err(self);
        }
        let ConnectionHandle { number: _ } = self;
        Ok(())
    }

    /// Lets a connection go that came back because no event may be added.
    pub fn abandon(self, pass: &Pass)
        requires { length pass.now.seen ≡ 18446744073709551615 }
    {
        let ConnectionHandle { number: _ } = self;
    }
}

impl CancelToken {
    /// Whether the query has fired. It tells so once.
    pub fn try_recv<R: Wait>(
        &self,
        rt: &R,
        manager: &ConnectionManager,
        pass: &mut Pass,
    ) -> Result<Option<()>, LookError>
        requires { pass.old.of ≡ manager.now }
        ensures ok { IfOk result (λ x. Makes (Look self.now.number) (Looked x) pass.old pass.new) }
        ensures err { IfErr result (λ e. NotLooked e (Look self.now.number) pass.old pass.new) }
    {
        manager.look_at::<R, Brand>(rt, pass, self.number)
    }

    /// Forgets the query.
    pub fn finish<R: Wait>(
        self,
        rt: &R,
        manager: &ConnectionManager,
        pass: &mut Pass,
    ) -> Result<(), CancelToken>
        requires { pass.old.of ≡ manager.now }
        ensures ok { IfOk result (λ _. Makes (Finish self.number) Done pass.old pass.new) }
        ensures err { IfErr result (λ t. (t ≡ self) × Full pass.old pass.new) }
    {
        if !manager.forget::<R, Brand>(rt, pass, self.number) {
            return Err(self);
        }
        let CancelToken { number: _ } = self;
        Ok(())
    }

    /// Lets a query go that came back because no event may be added.
    pub fn abandon(self, pass: &Pass)
        requires { length pass.now.seen ≡ 18446744073709551615 }
    {
        let CancelToken { number: _ } = self;
    }
}

impl ConnectionGuard {
    /// Removes the pair.
    pub fn release<R: Wait>(self, rt: &R, pass: &mut Pass) -> Result<(), ConnectionGuard>
        requires { pass.old.of ≡ arc_value self.manager }
        ensures ok { IfOk result (λ _. Makes (Release self.pid self.key) Done pass.old pass.new) }
        ensures err { IfErr result (λ g. (g ≡ self) × Full pass.old pass.new) }
    {
        if !self
            .manager
            .take_away::<R, Brand>(rt, pass, self.pid, self.key.as_slice())
        {
            return Err(self);
        }
        let ConnectionGuard {
            manager,
            pid: _,
            key,
        } = self;
        drop(manager);
        drop(key);
        Ok(())
    }

    /// Lets a pair go that came back because no event may be added.
    pub fn abandon(self, pass: &Pass)
        requires own { pass.now.of ≡ arc_value self.manager }
        requires full { length pass.now.seen ≡ 18446744073709551615 }
    {
        let ConnectionGuard {
            manager,
            pid: _,
            key,
        } = self;
        drop(manager);
        drop(key);
    }
}
