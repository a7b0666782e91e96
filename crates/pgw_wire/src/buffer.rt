//! Bytes at whose front messages are read.
ghost use Rattle.std.specs.Prelude.{◌≡◌, ◌≤◌, ℕ, List, length, drop, slice_range, IfOk};

use bytes::BytesMut;
use pgw_types::memory::OutOfMemory;
use pgw_types::octets::Octets;
use std::alloc::Global;

/// Bytes at whose front messages are read, one after the other.
pub trait Buffer {
    // the bytes that are not taken yet
    ghost held: { Self → List ℕ };

    fn bytes(&self) -> &[u8]
        ensures { result.now ≡ held self.now };

    /// The bytes from one place to another.
    fn part(&self, alloc: Global, from: usize, to: usize) -> Result<Octets, OutOfMemory>
        requires ordered { from ≤ to }
        requires within { to ≤ length (held self.now) }
        ensures { IfOk result (λ part. part ≡ slice_range (held self.now) from to) };

    /// Takes the bytes at the front away.
    fn pass(&mut self, count: usize)
        requires { count ≤ length (held self.old) }
        ensures { held self.new ≡ drop count (held self.old) };
}

/// A part is a copy, and the buffer may grow behind it.
impl Buffer for BytesMut {
    ghost held = { λ buffer. buffer.items };

    fn bytes(&self) -> &[u8] {
        self.as_slice()
    }

    fn part(&self, alloc: Global, from: usize, to: usize) -> Result<Octets, OutOfMemory> {
        Octets::from_slice(alloc, &self.as_slice()[from..to])
    }

    fn pass(&mut self, count: usize) {
        self.advance(count);
    }
}

/// A part is a cut of them: it copies nothing, and shares their block.
impl Buffer for Octets {
    ghost held = { λ octets. octets };

    fn bytes(&self) -> &[u8] {
        self.as_slice()
    }

    fn part(&self, _alloc: Global, from: usize, to: usize) -> Result<Octets, OutOfMemory> {
        self.slice(from, to)
    }

    fn pass(&mut self, count: usize) {
        self.advance(count);
    }
}
