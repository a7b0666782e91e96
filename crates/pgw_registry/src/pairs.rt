//! Process numbers with keys.
ghost use Rattle.std.specs.Prelude.{◌≡◌, ◌≢◌, ◌↔◌, ℕ, ℤ, true, List, [], IfOk, OnOk, OnErr, Some, None, cond};
ghost use Rattle.std.specs.Ordering.{int_cmp, eq_by_cmp};
ghost use Rattle.std.specs.FinMap as map;
ghost use Rattle.std.specs.BTreeMap.{IsOrdered, is_at};
ghost use Rattle.std.specs.Map.{lookup};
ghost use Rattle.pgw_registry.specs.Pairs.{bytes_cmp, pair_cmp};
ghost use Rattle.pgw_registry.specs.Nested.{at_key, at_pair, NoneEmpty, in_one, at_first, at_either, is_other_key};

use pgw_types::memory::OutOfMemory;
use pgw_types::octets::Octets;
use std::alloc::Global;
use std::collections::BTreeMap;
use std::marker::Model;

/// A process number and a key.
#[derive(Drop)]
pub struct Pair {
    pub pid: i32,
    pub key: Octets,
}

/// A key and its handle.
#[derive(Drop)]
pub struct One {
    pub key: Vec<u8>,
    pub handle: u64,
}

type Firsts = BTreeMap<i32, One>;

type Keys = BTreeMap<Vec<u8>, u64>;

/// Pairs of a process number and a key, each with a handle. A contract sees a finite map.
#[derive(Drop)]
pub struct Pairs {
    // One pair of a number, which mostly has no other.
    firsts: Firsts,
    // Its other pairs.
    numbers: BTreeMap<i32, Keys>,
    alloc: Global,
}

impl Model for Pairs {
    ghost use Rattle.std.specs.Prelude.{ℕ};
    ghost use Rattle.std.specs.Ordering.{int_cmp};
    ghost use Rattle.std.specs.Coded.{coded×, coded_ℕ, coded_ℤ, coded_list};
    ghost use Rattle.std.specs.FinMap as map;
    ghost use Rattle.std.specs.BTreeMap.{IsOrdered};
    ghost use Rattle.pgw_registry.specs.Pairs.{pair_cmp};
    ghost use Rattle.pgw_registry.specs.Nested.{both_flat, NoneEmpty};

    ghost Value = { map.FinMap pair_cmp ℕ };

    ghost coded = { map.code (coded× coded_ℤ (coded_list coded_ℕ)) coded_ℕ };

    ghost view = { λ p. map.from_entries (both_flat p.firsts.entries p.numbers.entries) };

    ghost invariant = { λ p. IsOrdered int_cmp p.firsts × IsOrdered int_cmp p.numbers
        × NoneEmpty p.numbers.entries };
}

impl Pairs {
    pub fn new(alloc: Global) -> Pairs
        ensures { result ≡ map.empty }
    {
        Pairs {
            firsts: BTreeMap::new(alloc),
            numbers: BTreeMap::new(alloc),
            alloc,
        }
    }

    pub fn get(&self, pid: i32, key: &[u8]) -> Option<u64>
        ensures { result ≡ map.get self.now (pid, key.now) }
    {
        find(&self.firsts, &self.numbers, &pid, key)
    }

    /// Puts a handle in the place of the one that stands there, if any. It keeps the key that it is given, so the
    /// memory that it takes does not grow with the key.
    pub fn insert(&mut self, pid: i32, key: Vec<u8>, handle: u64) -> Result<(), OutOfMemory>
        ensures ok { OnOk result (self.new ≡ map.insert self.old (pid, key.items) handle) }
        ensures err { OnErr result (self.new ≡ self.old) }
    {
        if has_other(&self.firsts, &pid, key.as_slice()) {
            add_to(&mut self.numbers, self.alloc, &pid, key, handle)
        } else {
            put_first(&mut self.firsts, &pid, One { key, handle })
        }
    }

    /// A copy of a key, to be inserted.
    pub fn copied(&self, key: &[u8]) -> Result<Vec<u8>, OutOfMemory>
        ensures { IfOk result (λ copy. copy.items ≡ key.now) }
    {
        copied(self.alloc, key)
    }

    pub fn remove(&mut self, pid: i32, key: &[u8])
        ensures { self.new ≡ map.remove self.old (pid, key.now) }
    {
        take_first(&mut self.firsts, &pid, key);
        take_from(&mut self.numbers, &pid, key);
    }
}

/// A copy of a key.
pub fn copied(alloc: Global, key: &[u8]) -> Result<Vec<u8>, OutOfMemory>
    ensures { IfOk result (λ copy. copy.items ≡ key.now) }
{
    Ok(Vec::from_slice(alloc, key)?)
}

// What stands at a number and a key.
fn find(firsts: &Firsts, numbers: &BTreeMap<i32, Keys>, pid: &i32, key: &[u8]) -> Option<u64>
    ensures { result ≡ at_either firsts.now.entries numbers.now.entries pid.now key.now }
{
    match find_first(firsts, pid, key) {
        Some(handle) => Some(handle),
        None => find_in(numbers, pid, key),
    }
}

// Whether it is this key.
fn is_key(one: &One, key: &[u8]) -> bool
    ensures { result ≡ eq_by_cmp bytes_cmp key.now one.now.key.items }
{
    one.key.as_slice() == key
}

// The handle, if this is the key.
fn of_one(one: &One, key: &[u8]) -> Option<u64>
    ensures { result ≡ in_one (Some one.now) key.now }
{
    if is_key(one, key) {
        Some(one.handle)
    } else {
        None
    }
}

fn find_first(firsts: &Firsts, pid: &i32, key: &[u8]) -> Option<u64>
    ensures { result ≡ at_first firsts.now.entries pid.now key.now }
{
    match firsts.get(pid) {
        Some(one) => of_one(one, key),
        None => None,
    }
}

// Whether another key of the number stands first.
fn has_other(firsts: &Firsts, pid: &i32, key: &[u8]) -> bool
    ensures { result ≡ is_other_key (lookup (is_at (int_cmp pid.now)) firsts.now.entries) key.now }
{
    match firsts.get(pid) {
        Some(one) => !is_key(one, key),
        None => false,
    }
}

// Puts a pair first.
fn put_first(firsts: &mut Firsts, pid: &i32, one: One) -> Result<(), OutOfMemory>
    ensures ok { OnOk result ((p : ℤ) → lookup (is_at (int_cmp p)) firsts.new.entries
        ≡ cond (is_at (int_cmp pid.now) p) (Some one)
        (lookup (is_at (int_cmp p)) firsts.old.entries)) }
    ensures err { OnErr result (firsts.new.entries ≡ firsts.old.entries) }
    ensures ordered { IsOrdered int_cmp firsts.new }
{
    let number = *pid;
    firsts.insert(number, one)?;
    Ok(())
}

// Takes a pair, if it stands first.
fn take_first(firsts: &mut Firsts, pid: &i32, key: &[u8])
    ensures taken { (p : ℤ) (k : List ℕ) → at_first firsts.new.entries p k
        ≡ cond (eq_by_cmp pair_cmp (pid.now, key.now) (p, k)) None
        (at_first firsts.old.entries p k) }
    ensures ordered { IsOrdered int_cmp firsts.old → IsOrdered int_cmp firsts.new }
{
    let Some(_) = find_first(firsts, pid, key) else {
        return;
    };
    firsts.remove(pid);
}

fn find_in(numbers: &BTreeMap<i32, Keys>, pid: &i32, key: &[u8]) -> Option<u64>
    ensures { result ≡ at_pair numbers.now.entries pid.now key.now }
{
    match numbers.get(pid) {
        Some(keys) => keys.get(key).copied(),
        None => None,
    }
}

// Adds a key to those of a number.
fn add_to(
    numbers: &mut BTreeMap<i32, Keys>,
    alloc: Global,
    pid: &i32,
    key: Vec<u8>,
    handle: u64,
) -> Result<(), OutOfMemory>
    ensures ok { OnOk result ((p : ℤ) (k : List ℕ) → at_pair numbers.new.entries p k
        ≡ cond (eq_by_cmp pair_cmp (pid.now, key.items) (p, k)) (Some handle)
        (at_pair numbers.old.entries p k)) }
    ensures err { OnErr result ((p : ℤ) (k : List ℕ) → at_pair numbers.new.entries p k
        ≡ at_pair numbers.old.entries p k) }
    ensures ordered { IsOrdered int_cmp numbers.new }
    ensures kept { NoneEmpty numbers.old.entries → NoneEmpty numbers.new.entries }
{
    match numbers.get_mut(pid) {
        Some(keys) => add_key(keys, key, handle),
        None => add_number(numbers, alloc, pid, key, handle),
    }
}

// Adds a number with its first key.
fn add_number(
    numbers: &mut BTreeMap<i32, Keys>,
    alloc: Global,
    pid: &i32,
    key: Vec<u8>,
    handle: u64,
) -> Result<(), OutOfMemory>
    requires { lookup (is_at (int_cmp pid.now)) numbers.old.entries ≡ None }
    ensures ok { OnOk result ((p : ℤ) (k : List ℕ) → at_pair numbers.new.entries p k
        ≡ cond (eq_by_cmp pair_cmp (pid.now, key.items) (p, k)) (Some handle)
        (at_pair numbers.old.entries p k)) }
    ensures err { OnErr result (numbers.new.entries ≡ numbers.old.entries) }
    ensures ordered { IsOrdered int_cmp numbers.old → IsOrdered int_cmp numbers.new }
    ensures kept { NoneEmpty numbers.old.entries → NoneEmpty numbers.new.entries }
{
    let number = *pid;
    let mut keys = BTreeMap::new(alloc);
    add_key(&mut keys, key, handle)?;
    numbers.insert(number, keys)?;
    Ok(())
}

fn add_key(keys: &mut Keys, key: Vec<u8>, handle: u64) -> Result<(), OutOfMemory>
    ensures ok { OnOk result ((k : List ℕ) → at_key keys.new.entries k
        ≡ cond (eq_by_cmp bytes_cmp key.items k) (Some handle) (at_key keys.old.entries k)) }
    ensures err { OnErr result (keys.new.entries ≡ keys.old.entries) }
    ensures some { OnOk result (keys.new.entries ≢ []) }
{
    keys.insert(key, handle)?;
    Ok(())
}

// Takes a key from those of a number. A number keeps no empty map.
fn take_from(numbers: &mut BTreeMap<i32, Keys>, pid: &i32, key: &[u8])
    ensures taken { (p : ℤ) (k : List ℕ) → at_pair numbers.new.entries p k
        ≡ cond (eq_by_cmp pair_cmp (pid.now, key.now) (p, k)) None
        (at_pair numbers.old.entries p k) }
    ensures ordered { IsOrdered int_cmp numbers.new }
    ensures kept { NoneEmpty numbers.old.entries → NoneEmpty numbers.new.entries }
{
    let Some(keys) = numbers.get_mut(pid) else {
        return;
    };
    if is_last(keys, key) {
        numbers.remove(pid);
    }
}

// Takes a key, and tells whether none is left.
fn is_last(keys: &mut Keys, key: &[u8]) -> bool
    ensures taken { (k : List ℕ) → at_key keys.new.entries k
        ≡ cond (eq_by_cmp bytes_cmp key.now k) None (at_key keys.old.entries k) }
    ensures last { (result ≡ true) ↔ (keys.new.entries ≡ []) }
{
    keys.remove(key);
    keys.is_empty()
}
