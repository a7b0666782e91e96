//! A list.
ghost use Rattle.std.specs.Prelude.{◌≡◌, [], ◌∷◌, ◌++◌, ◌<◌, ◌^◌, ◌==◌, length, OnOk, OnErr, IfOk};
ghost use Rattle.std.specs.Cmp.Lexicographic.{pointwise};
ghost use Rattle.std.specs.Cmp.Rules.{comparing};
ghost use Rattle.std.specs.Iterator.Runs.{EveryRun, ItemsMapTo};
ghost use Rattle.std.specs.Slice.Iter.{iter_rest, iter_steps};
ghost use Rattle.std.proofs.Common.{rules};

use crate::memory::OutOfMemory;
use std::alloc::Global;
use std::marker::Model;
use std::ops::DerefSlice;
use std::slice;

/// A list, which a contract sees as such. Like a `Vec` it has a slice's methods, as `iter` and `first`, an index, and `for`
/// goes over `&list`.
#[derive(Debug, Drop)]
pub struct Listed<T> {
    items: Vec<T>,
}

impl<T> Model for Listed<T> {
    ghost use Rattle.std.specs.Prelude.{List};

    ghost Value = { List T };

    ghost view = { λ l. l.items.items };
}

impl<T> Listed<T> {
    pub fn new(alloc: Global) -> Listed<T>
        ensures { result ≡ [] }
    {
        Listed {
            items: Vec::new(alloc),
        }
    }

    pub fn as_slice(&self) -> &[T]
        ensures { result.now ≡ self.now }
    {
        self.items.as_slice()
    }

    pub fn len(&self) -> usize
        ensures { result ≡ length self.now }
    {
        self.items.len()
    }

    pub fn is_empty(&self) -> bool
        ensures { result ≡ (length self.now == 0) }
    {
        self.items.is_empty()
    }

    /// The list that a vector holds.
    pub fn from_vec(items: Vec<T>) -> Listed<T>
        ensures { result ≡ items.items }
    {
        Listed { items }
    }

    pub fn into_vec(self) -> Vec<T>
        ensures { result.items ≡ self }
    {
        let Listed { items } = self;
        items
    }
}

impl<T> DerefSlice for Listed<T> {
    type Elem = T;

    ghost deref_gives = { λ l items. items ≡ l };

    fn deref(&self) -> &[T] {
        self.as_slice()
    }
}

impl<'a, T> IntoIterator for &'a Listed<T> {
    type Item = &'a T;

    type IntoIter = slice::Iter<'a, T>;

    ghost into_iter_gives = { λ l it. (iter_rest it ≡ l.now) × (length (iter_rest it) < 2 ^ 64)
        × EveryRun (iter_steps {A = T}) (λ run. ItemsMapTo run (λ x. x.now) (iter_rest run.from)) };

    fn into_iter(self) -> slice::Iter<'a, T> {
        self.as_slice().iter()
    }
}

impl<T: Drop> Listed<T> {
    pub fn push(&mut self, item: T) -> Result<(), OutOfMemory>
        ensures ok { OnOk result (self.new ≡ self.old ++ item ∷ []) }
        ensures err { OnErr result (self.new ≡ self.old) }
    {
        self.items.push(item)?;
        Ok(())
    }
}

impl<T: PartialEq> PartialEq for Listed<T> {
    ghost eq = { pointwise T.eq };

    ghost laws = { Prim.search (comparing, rules) };

    fn eq(&self, other: &Self) -> bool {
        self.items.as_slice() == other.items.as_slice()
    }
}

impl<T: Eq> Eq for Listed<T> {
    ghost laws = { Prim.search (comparing, rules) };
}

/// In place of `Clone`.
pub trait Duplicate: Sized {
    fn duplicate(&self) -> Result<Self, OutOfMemory>
        ensures { IfOk result (λ copy. copy ≡ self.now) };
}

impl<T: Duplicate + Drop> Duplicate for Listed<T> {
    fn duplicate(&self) -> Result<Listed<T>, OutOfMemory> {
        let mut copy = Listed {
            items: Vec::new(*self.items.allocator()),
        };
        for item in self.items.as_slice() {
            copy.push(item.duplicate()?)?;
        }
        Ok(copy)
    }
}

impl<T: Duplicate + Drop> Duplicate for Option<T> {
    fn duplicate(&self) -> Result<Option<T>, OutOfMemory> {
        match self {
            Some(item) => Ok(Some(item.duplicate()?)),
            None => Ok(None),
        }
    }
}

impl Duplicate for i16 {
    fn duplicate(&self) -> Result<i16, OutOfMemory> {
        Ok(*self)
    }
}

impl Duplicate for u16 {
    fn duplicate(&self) -> Result<u16, OutOfMemory> {
        Ok(*self)
    }
}

impl Duplicate for u32 {
    fn duplicate(&self) -> Result<u32, OutOfMemory> {
        Ok(*self)
    }
}
