//! Links in memory of which a call fails.
ghost use Rattle.std.specs.Prelude.{◌≤◌, ◌≡◌};
ghost use Rattle.pgw_types.specs.Counts.{Rose};

use pgw_link::link::{Link, LinkFault};
use pgw_link::memory::MemoryLink;
use pgw_types::listed::Listed;
use pgw_types::memory::OutOfMemory;
use pgw_types::octets::Octets;
use std::alloc::Global;

/// The read, the write and the flush that fail, counted from 1; no call has the number 0.
pub type Failing = [u64; 3];

/// A link in memory of which a flush may fail too.
#[derive(Drop)]
pub struct TestLink {
    link: MemoryLink,
    fail_flush: u64,
    flushes: u64,
    faults: u64,
}

fn one(alloc: Global, number: u64) -> Result<Listed<u64>, OutOfMemory> {
    let mut numbers = Listed::new(alloc);
    numbers.push(number)?;
    Ok(numbers)
}

impl TestLink {
    /// A link with these bytes to come.
    pub fn new(alloc: Global, bytes: &[u8], failing: &Failing) -> Result<TestLink, OutOfMemory> {
        let [read, write, fail_flush] = *failing;
        let bytes = Octets::from_slice(alloc, bytes)?;
        let fail_reads = one(alloc, read)?;
        let fail_writes = one(alloc, write)?;
        Ok(TestLink {
            link: MemoryLink::new(alloc, bytes, 1000, fail_reads, fail_writes),
            fail_flush,
            flushes: 0,
            faults: 0,
        })
    }

    pub fn written(&self) -> &[u8] {
        self.link.written()
    }

    fn fail(&mut self) -> LinkFault
        ensures later { self.old.faults ≤ self.new.faults }
        ensures rose { Rose self.old.faults self.new.faults }
        ensures link { self.new.link ≡ self.old.link }
    {
        self.faults = self.faults.saturating_add(1);
        LinkFault
    }
}

impl Link for TestLink {
    ghost use Rattle.std.specs.Prelude.{Some, refl};
    ghost use Rattle.pgw_link.specs.Memory.{memory_tape, memory_left};

    ghost tape = { λ s. memory_tape s.link };

    ghost left = { λ s. Some (memory_left s.link) };

    ghost foretells = { Unit {0} };

    ghost faults = { λ s. s.faults };

    ghost Plan = { Unit {0} };

    ghost plan = { λ s. tt };

    ghost knows = { λ t s. refl };

    ghost flushed_in = { λ s. s.link.flushed_in };

    fn read(&mut self, buf: &mut [u8]) -> Result<usize, LinkFault> {
        match self.link.read(buf) {
            Ok(count) => Ok(count),
            Err(_) => Err(self.fail()),
        }
    }

    fn write(&mut self, piece: &[u8]) -> Result<usize, LinkFault> {
        match self.link.write(piece) {
            Ok(count) => Ok(count),
            Err(_) => Err(self.fail()),
        }
    }

    fn flush(&mut self) -> Result<(), LinkFault> {
        self.flushes = self.flushes.saturating_add(1);
        if self.flushes == self.fail_flush {
            return Err(self.fail());
        }
        match self.link.flush() {
            Ok(()) => Ok(()),
            Err(_) => Err(self.fail()),
        }
    }
}
