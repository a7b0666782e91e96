//! What stands at numbers.
ghost use Rattle.std.specs.Prelude.{◌≡◌, OnOk, OnErr, IsSome, None};
ghost use Rattle.std.specs.Option.{option_copied};
ghost use Rattle.std.specs.Ordering.{nat_cmp};
ghost use Rattle.std.specs.FinMap as map;

use pgw_types::memory::OutOfMemory;
use std::alloc::Global;
use std::collections::BTreeMap;
use std::marker::Model;

/// Values by number, which a contract sees as a finite map.
#[derive(Drop)]
pub struct Numbered<V> {
    held: BTreeMap<u64, V>,
}

impl<V> Model for Numbered<V> {
    ghost use Rattle.std.specs.Ordering.{nat_cmp};
    ghost use Rattle.std.specs.Coded.{coded_ℕ};
    ghost use Rattle.std.specs.FinMap as map;

    ghost Value = { map.FinMap nat_cmp V };

    ghost coded = { map.code coded_ℕ V.code };

    ghost view = { λ n. map.from_entries n.held.entries };
}

impl<V: Drop> Numbered<V> {
    pub fn new(alloc: Global) -> Numbered<V>
        ensures { result ≡ map.empty }
    {
        Numbered {
            held: BTreeMap::new(alloc),
        }
    }

    pub fn get(&self, number: u64) -> Option<&V>
        ensures { option_copied result ≡ map.get self.now number }
    {
        self.held.get(&number)
    }

    /// Puts a value in the place of the one that stands there, if any.
    pub fn insert(&mut self, number: u64, value: V) -> Result<(), OutOfMemory>
        ensures ok { OnOk result (self.new ≡ map.insert self.old number value) }
        ensures err { OnErr result (self.new ≡ self.old) }
        ensures absent { OnErr result (map.get self.old number ≡ None) }
    {
        match self.held.insert(number, value) {
            Ok(_) => Ok(()),
            Err(_) => Err(OutOfMemory),
        }
    }

    /// Puts a value in the place of the one that stands there. It takes no memory.
    pub fn replace(&mut self, number: u64, value: V)
        requires { IsSome (map.get self.old number) }
        ensures { self.new ≡ map.insert self.old number value }
    {
        let Ok(()) = self.insert(number, value) else {
            unreachable!()
        };
    }

    pub fn remove(&mut self, number: u64) -> Option<V>
        ensures value { result ≡ map.get self.old number }
        ensures after { self.new ≡ map.remove self.old number }
    {
        self.held.remove(&number)
    }
}
