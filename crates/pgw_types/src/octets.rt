//! Bytes.
ghost use Rattle.std.specs.Prelude.{◌≡◌, ◌↔◌, IsTrue, ◌<◌, ◌^◌, ◌≤◌, ◌==◌, length, drop, slice_range, IfOk, nat_eq};
ghost use Rattle.std.specs.Cmp.Lexicographic.{pointwise, nat_list_eq_equiv};
ghost use Rattle.std.specs.Cmp.{partial_equiv_from_equiv};

use crate::listed::Duplicate;
use crate::memory::OutOfMemory;
use bytes::Bytes;
use std::alloc::Global;
use std::marker::Model;
use std::ops::DerefSlice;

/// Bytes, which a contract sees as a list. They may be a cut of a block that others share, which stays alive as long as they do.
#[derive(Debug, Drop)]
pub struct Octets {
    bytes: Bytes,
}

impl Model for Octets {
    ghost use Rattle.std.specs.Prelude.{ℕ, List};

    ghost Value = { List ℕ };

    ghost view = { λ o. o.bytes };
}

impl Octets {
    /// A copy of the bytes.
    pub fn from_slice(alloc: Global, bytes: &[u8]) -> Result<Octets, OutOfMemory>
        ensures { IfOk result (λ o. o ≡ bytes.now) }
    {
        let bytes = Bytes::copy_from_slice(alloc, bytes)?;
        Ok(Octets { bytes })
    }

    /// These very bytes. It copies none.
    pub fn from_bytes(bytes: Bytes) -> Octets
        ensures { result ≡ bytes }
    {
        Octets { bytes }
    }

    /// The bytes that a vector holds. It copies none.
    pub fn from_vec(bytes: Vec<u8>) -> Result<Octets, OutOfMemory>
        ensures { IfOk result (λ o. o ≡ bytes.items) }
    {
        let bytes = Bytes::from_vec(bytes)?;
        Ok(Octets { bytes })
    }

    pub fn as_slice(&self) -> &[u8]
        ensures { result.now ≡ self.now }
    {
        self.bytes.as_slice()
    }

    pub fn len(&self) -> usize
        ensures value { result ≡ length self.now }
        ensures bound { result < 2 ^ 63 }
    {
        self.bytes.len()
    }

    pub fn is_empty(&self) -> bool
        ensures { result ≡ (length self.now == 0) }
    {
        self.bytes.is_empty()
    }

    /// The bytes from one place to another. It copies none.
    pub fn slice(&self, from: usize, to: usize) -> Result<Octets, OutOfMemory>
        requires ordered { from ≤ to }
        requires within { to ≤ length self.now }
        ensures { IfOk result (λ o. o ≡ slice_range self.now from to) }
    {
        let bytes = self.bytes.slice(from..to)?;
        Ok(Octets { bytes })
    }

    /// Gives up the bytes at the front.
    pub fn advance(&mut self, count: usize)
        requires { count ≤ length self.old }
        ensures { self.new ≡ drop count self.old }
    {
        self.bytes.advance(count);
    }
}

impl DerefSlice for Octets {
    type Elem = u8;

    ghost deref_gives = { λ o bytes. bytes ≡ o };

    fn deref(&self) -> &[u8] {
        self.as_slice()
    }
}

/// The copy shares the bytes.
impl Duplicate for Octets {
    fn duplicate(&self) -> Result<Octets, OutOfMemory> {
        let bytes = self.bytes.clone()?;
        Ok(Octets { bytes })
    }
}

impl PartialEq for Octets {
    ghost eq = { pointwise nat_eq };

    ghost laws = { partial_equiv_from_equiv nat_list_eq_equiv };

    fn eq(&self, other: &Self) -> bool
        ensures value { result ≡ pointwise nat_eq self.now other.now }
        ensures same { IsTrue result ↔ (self.now ≡ other.now) }
    {
        self.as_slice() == other.as_slice()
    }
}

impl Eq for Octets {
    ghost laws = { nat_list_eq_equiv };
}
