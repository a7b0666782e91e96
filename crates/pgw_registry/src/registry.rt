//! The registry of one thread.
ghost use Rattle.std.specs.Prelude.{◌≡◌, ℕ, ◌+◌, ◌<◌, IfOk, IfErr, Some, None};
ghost use Rattle.std.specs.FinMap as map;
ghost use Rattle.pgw_registry.specs.Sequential.{nothing, next_book, reply_of, replaced, fired, handle_at, handle_of, let_go, held};
ghost use Rattle.pgw_registry.specs.Registry.{Makes, StartFails, GrowFails, StrikeFails, LookFails, ReleaseFails, NamesPairs};
ghost use Rattle.pgw_registry.specs.Pairs.{without_handle};
ghost use Rattle.pgw_registry.specs.declared.error.RegistryError.TheVariants.{OutOfMemory};
ghost use Rattle.pgw_registry.specs.declared.call.Call.TheVariants.{NewHandle, StartQuery, CancelHandle, Look, Finish, CloseHandle, Register, Cancel, Release};
ghost use Rattle.pgw_registry.specs.declared.call.Reply.TheVariants.{Handled, Started, Canceled, Looked, Done};

use crate::call::{Handle, Phase};
use crate::error::{LookError, RegistryError};
use crate::numbered::Numbered;
use crate::pairs::{Pair, Pairs};
use pgw_types::listed::Duplicate;
use pgw_types::octets::Octets;
use std::alloc::Global;
use std::marker::Model;

/// Which query of which connection is to be canceled.
#[derive(Drop)]
pub struct Registry {
    pairs: Pairs,
    // The pair with which a handle was made.
    names: Numbered<Pair>,
    handles: Numbered<Handle>,
    queries: Numbered<Phase>,
    handles_made: u64,
    queries_made: u64,
    events: u64,
}

impl Model for Registry {
    ghost use Rattle.std.specs.Prelude.{◌≤◌};
    ghost use Rattle.pgw_registry.specs.Sequential.{Book};
    ghost use Rattle.pgw_registry.specs.BookCode.{book_code};
    ghost use Rattle.pgw_registry.specs.Registry.{FewHolders, NamesPairs};

    ghost Value = { Book };

    ghost coded = { book_code };

    ghost view = { λ r. record {
      pairs = r.pairs;
      handles = r.handles;
      queries = r.queries;
      handles_made = r.handles_made;
      queries_made = r.queries_made;
      events = r.events;
    } };

    ghost invariant = { λ r. (r.handles_made ≤ r.events) × (r.queries_made ≤ r.events)
        × FewHolders r.handles r.events × NamesPairs r.pairs r.names r.handles_made };
}

// A query that waits is replaced.
fn replace_waiting(queries: &mut Numbered<Phase>, active: Option<u64>)
    ensures { queries.new ≡ replaced queries.old active }
{
    let Some(query) = active else {
        return;
    };
    if let Some(Phase::Waiting) = queries.get(query).copied() {
        queries.replace(query, Phase::Replaced);
    }
}

// A query that is kept is fired.
fn fire(queries: &mut Numbered<Phase>, query: u64)
    ensures { queries.new ≡ fired queries.old query }
{
    if queries.get(query).is_some() {
        queries.replace(query, Phase::Fired);
    }
}

// Removes the pair that has the handle, if any.
fn forget_pair(pairs: &mut Pairs, names: &mut Numbered<Pair>, number: u64)
    requires { (made : ℕ) × NamesPairs pairs.old names.old made }
    ensures pairs { pairs.new ≡ without_handle pairs.old number }
    ensures names { names.new ≡ map.remove names.old number }
{
    let Some(pair) = names.remove(number) else {
        return;
    };
    let key = pair.key.as_slice();
    let Some(found) = pairs.get(pair.pid, key) else {
        return;
    };
    if found == number {
        pairs.remove(pair.pid, key);
    }
}

#[tactic(auto, unfolding(crate::specs::Sequential::next_book, crate::specs::Sequential::reply_of))]
impl Registry {
    pub fn new(alloc: Global) -> Registry
        ensures { result ≡ nothing }
    {
        Registry {
            pairs: Pairs::new(alloc),
            names: Numbered::new(alloc),
            handles: Numbered::new(alloc),
            queries: Numbered::new(alloc),
            handles_made: 0,
            queries_made: 0,
            events: 0,
        }
    }

    /// The handle of a pair, which is made if need be.
    pub fn register(&mut self, pid: i32, key: Octets) -> Result<u64, RegistryError>
        ensures ok { IfOk result (λ h. Makes (Register pid key) (Handled h) self.old self.new) }
        ensures err { IfErr result (λ e. GrowFails e self.old self.new) }
    {
        if self.events == u64::MAX {
            return Err(RegistryError::Exhausted);
        }
        let Ok(copy) = self.pairs.copied(key.as_slice()) else {
            return Err(RegistryError::OutOfMemory);
        };
        self.register_copied(pid, key, copy)
    }

    /// As `register`, with a copy of the key that was made before, so that what it allocates does not
    /// grow with the key.
    pub fn register_copied(
        &mut self,
        pid: i32,
        key: Octets,
        copy: Vec<u8>,
    ) -> Result<u64, RegistryError>
        requires { copy.items ≡ key }
        ensures ok { IfOk result (λ h. Makes (Register pid key) (Handled h) self.old self.new) }
        ensures err { IfErr result (λ e. GrowFails e self.old self.new) }
    {
        if self.events == u64::MAX {
            return Err(RegistryError::Exhausted);
        }
        if let Some(number) = self.pairs.get(pid, key.as_slice()) {
            self.hold(number);
            return Ok(number);
        }
        self.register_new(pid, key, copy)
    }

    // The handle of a pair that is not there yet. A name that no pair has is written over.
    fn register_new(&mut self, pid: i32, key: Octets, copy: Vec<u8>) -> Result<u64, RegistryError>
        requires copied { copy.items ≡ key }
        requires room { self.old.events < 18446744073709551615 }
        requires absent { handle_of self.old pid key ≡ None }
        ensures ok { IfOk result (λ h. Makes (Register pid key) (Handled h) self.old self.new) }
        ensures err { IfErr result (λ e. (e ≡ OutOfMemory) × (self.new ≡ self.old)) }
    {
        let number = self.handles_made + 1;
        let handle = Handle {
            active: None,
            holders: 2,
        };
        let name = key.duplicate()?;
        self.names.insert(number, Pair { pid, key: name })?;
        self.pairs.insert(pid, copy, number)?;
        match self.handles.insert(number, handle) {
            Ok(()) => {
                self.handles_made = number;
                self.events += 1;
                Ok(number)
            }
            Err(_) => {
                self.pairs.remove(pid, key.as_slice());
                Err(RegistryError::OutOfMemory)
            }
        }
    }

    /// A handle without a pair.
    pub fn new_handle(&mut self) -> Result<u64, RegistryError>
        ensures ok { IfOk result (λ h. Makes NewHandle (Handled h) self.old self.new) }
        ensures err { IfErr result (λ e. GrowFails e self.old self.new) }
    {
        if self.events == u64::MAX {
            return Err(RegistryError::Exhausted);
        }
        let number = self.handles_made + 1;
        let handle = Handle {
            active: None,
            holders: 1,
        };
        self.handles.insert(number, handle)?;
        self.handles_made = number;
        self.events += 1;
        Ok(number)
    }

    /// A query of the handle, which replaces the one that waits.
    pub fn start_query(&mut self, number: u64) -> Result<u64, RegistryError>
        ensures ok { IfOk result (λ q. Makes (StartQuery number) (Started q) self.old self.new) }
        ensures err { IfErr result (λ e. StartFails (StartQuery number) e self.old self.new) }
    {
        if self.events == u64::MAX {
            return Err(RegistryError::Exhausted);
        }
        let Some(handle) = self.handles.get(number).copied() else {
            self.events += 1;
            return Err(RegistryError::Gone);
        };
        let query = self.queries_made + 1;
        self.queries.insert(query, Phase::Waiting)?;
        replace_waiting(&mut self.queries, handle.active);
        let holders = handle.holders;
        let active = Some(query);
        self.handles.replace(number, Handle { active, holders });
        self.queries_made = query;
        self.events += 1;
        Ok(query)
    }

    /// Fires the query that is active, and tells whether there was one.
    pub fn cancel_handle(&mut self, number: u64) -> Result<bool, RegistryError>
        ensures ok { IfOk result (λ x. Makes (CancelHandle number) (Canceled x) self.old self.new) }
        ensures err { IfErr result (λ e. StrikeFails (CancelHandle number) e self.old self.new) }
    {
        if self.events == u64::MAX {
            return Err(RegistryError::Exhausted);
        }
        let Some(handle) = self.handles.get(number).copied() else {
            self.events += 1;
            return Err(RegistryError::Gone);
        };
        let Some(query) = handle.active else {
            self.events += 1;
            return Ok(false);
        };
        let holders = handle.holders;
        let active = None;
        self.handles.replace(number, Handle { active, holders });
        fire(&mut self.queries, query);
        self.events += 1;
        Ok(true)
    }

    /// Cancels by process number and key, and tells whether the pair is there.
    pub fn cancel(&mut self, pid: i32, key: &[u8]) -> Result<bool, RegistryError>
        ensures ok { IfOk result (λ x. Makes (Cancel pid key.now) (Canceled x) self.old self.new) }
        ensures err { IfErr result (λ e. ReleaseFails e self.old self.new) }
    {
        if self.events == u64::MAX {
            return Err(RegistryError::Exhausted);
        }
        let Some(number) = self.pairs.get(pid, key) else {
            self.events += 1;
            return Ok(false);
        };
        match self.cancel_handle(number) {
            Ok(_) | Err(RegistryError::Gone) => Ok(true),
            Err(error) => Err(error),
        }
    }

    /// Whether the query has fired. It tells so once.
    pub fn look(&mut self, query: u64) -> Result<Option<()>, LookError>
        ensures ok { IfOk result (λ x. Makes (Look query) (Looked x) self.old self.new) }
        ensures err { IfErr result (λ e. LookFails (Look query) e self.old self.new) }
    {
        if self.events == u64::MAX {
            return Err(LookError::Exhausted);
        }
        self.events += 1;
        match self.queries.get(query).copied() {
            Some(Phase::Waiting) => Ok(None),
            Some(Phase::Fired) => {
                self.queries.replace(query, Phase::Taken);
                Ok(Some(()))
            }
            Some(Phase::Taken) | Some(Phase::Replaced) | None => Err(LookError::Canceled),
        }
    }

    /// Forgets the query.
    pub fn finish(&mut self, query: u64) -> Result<(), RegistryError>
        ensures ok { IfOk result (λ _. Makes (Finish query) Done self.old self.new) }
        ensures err { IfErr result (λ e. ReleaseFails e self.old self.new) }
    {
        if self.events == u64::MAX {
            return Err(RegistryError::Exhausted);
        }
        self.queries.remove(query);
        self.events += 1;
        Ok(())
    }

    /// Gives a handle up.
    pub fn close_handle(&mut self, number: u64) -> Result<(), RegistryError>
        ensures ok { IfOk result (λ _. Makes (CloseHandle number) Done self.old self.new) }
        ensures err { IfErr result (λ e. ReleaseFails e self.old self.new) }
    {
        if self.events == u64::MAX {
            return Err(RegistryError::Exhausted);
        }
        self.let_go(number);
        Ok(())
    }

    /// Removes a pair.
    pub fn release(&mut self, pid: i32, key: &[u8]) -> Result<(), RegistryError>
        ensures ok { IfOk result (λ _. Makes (Release pid key.now) Done self.old self.new) }
        ensures err { IfErr result (λ e. ReleaseFails e self.old self.new) }
    {
        if self.events == u64::MAX {
            return Err(RegistryError::Exhausted);
        }
        let Some(number) = self.pairs.get(pid, key) else {
            self.events += 1;
            return Ok(());
        };
        self.pairs.remove(pid, key);
        self.names.remove(number);
        self.let_go(number);
        Ok(())
    }

    // One holder more, in one event.
    fn hold(&mut self, number: u64)
        requires { self.old.events < 18446744073709551615 }
        ensures { self.new ≡ held (handle_at self.old number) self.old number }
    {
        self.events += 1;
        let Some(handle) = self.handles.get(number).copied() else {
            return;
        };
        let active = handle.active;
        let holders = handle.holders + 1;
        self.handles.replace(number, Handle { active, holders });
    }

    // One holder fewer, in one event.
    fn let_go(&mut self, number: u64)
        requires { self.old.events < 18446744073709551615 }
        ensures { self.new ≡ let_go (handle_at self.old number) self.old number }
    {
        self.events += 1;
        let Some(handle) = self.handles.get(number).copied() else {
            return;
        };
        let active = handle.active;
        if handle.holders == 1 {
            forget_pair(&mut self.pairs, &mut self.names, number);
            self.handles.remove(number);
            replace_waiting(&mut self.queries, active);
            return;
        }
        let holders = handle.holders - 1;
        self.handles.replace(number, Handle { active, holders });
    }
}
