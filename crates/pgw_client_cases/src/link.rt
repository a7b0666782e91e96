//! A link in memory whose flush may fail, and its dialer.
ghost use Rattle.std.specs.Prelude.{◌≤◌, ◌≡◌};
ghost use Rattle.pgw_types.specs.Counts.{Rose};

use pgw_client::{Address, DialError, Dialer, Link, LinkFault, MemoryDialer, MemoryLink};

/// A link in memory, whose flush with a number, counted from 1, fails; none does where it is 0.
#[derive(Drop)]
pub struct CaseLink {
    link: MemoryLink,
    fail_flush: u64,
    flushes: u64,
    faults: u64,
}

impl CaseLink {
    fn new(link: MemoryLink, fail_flush: u64) -> CaseLink
        ensures faults { result.faults ≡ 0 }
        ensures link { result.link ≡ link }
    {
        CaseLink {
            link,
            fail_flush,
            flushes: 0,
            faults: 0,
        }
    }

    pub fn written(&self) -> &[u8] {
        self.link.written()
    }

    fn fail(&mut self) -> LinkFault
        ensures later { self.old.faults ≤ self.new.faults }
        ensures rose { Rose self.old.faults self.new.faults }
        ensures link { self.new.link ≡ self.old.link }
    {
        self.faults = self.faults.saturating_add(1);
        LinkFault
    }
}

impl Link for CaseLink {
    ghost use Rattle.std.specs.Prelude.{Some, refl};
    ghost use Rattle.pgw_link.specs.Memory.{memory_tape, memory_left};

    ghost tape = { λ s. memory_tape s.link };

    ghost left = { λ s. Some (memory_left s.link) };

    ghost foretells = { Unit {0} };

    ghost faults = { λ s. s.faults };

    ghost Plan = { Unit {0} };

    ghost plan = { λ s. tt };

    ghost knows = { λ t s. refl };

    ghost flushed_in = { λ s. s.link.flushed_in };

    fn read(&mut self, buf: &mut [u8]) -> Result<usize, LinkFault> {
        match self.link.read(buf) {
            Ok(count) => Ok(count),
            Err(_) => Err(self.fail()),
        }
    }

    fn write(&mut self, piece: &[u8]) -> Result<usize, LinkFault> {
        match self.link.write(piece) {
            Ok(count) => Ok(count),
            Err(_) => Err(self.fail()),
        }
    }

    fn flush(&mut self) -> Result<(), LinkFault> {
        self.flushes = self.flushes.saturating_add(1);
        if self.flushes == self.fail_flush {
            return Err(self.fail());
        }
        match self.link.flush() {
            Ok(()) => Ok(()),
            Err(_) => Err(self.fail()),
        }
    }
}

/// A dialer in memory, on whose first link a flush may fail.
#[derive(Drop)]
pub struct CaseDialer {
    dialer: MemoryDialer,
    fail_flush: u64,
    faults: u64,
}

impl CaseDialer {
    pub fn new(dialer: MemoryDialer, fail_flush: u64) -> CaseDialer {
        CaseDialer {
            dialer,
            fail_flush,
            faults: 0,
        }
    }

    /// The link that was closed last.
    pub fn closed(&self) -> Option<&MemoryLink> {
        self.dialer.closed()
    }
}

impl Dialer for CaseDialer {
    ghost use Rattle.std.specs.Prelude.{Some};
    ghost use Rattle.pgw_link.specs.MemoryDials.{dial_tape, links_of, offers_of};

    type Link = CaseLink;

    ghost tape = { λ s. dial_tape s.dialer };

    ghost offers = { λ s. Some (offers_of (links_of s.dialer)) };

    ghost foretells = { Unit {0} };

    ghost faults = { λ s. s.faults };

    ghost links_foretell = { λ t. t };

    fn dial(&mut self, address: &Address) -> Result<CaseLink, DialError> {
        match self.dialer.dial(address) {
            Ok(link) => {
                let fail_flush = self.fail_flush;
                self.fail_flush = 0;
                Ok(CaseLink::new(link, fail_flush))
            }
            Err(DialError::Fault) => {
                self.faults = self.faults.saturating_add(1);
                Err(DialError::Fault)
            }
            Err(DialError::OutOfMemory) => Err(DialError::OutOfMemory),
        }
    }

    fn close(&mut self, used: CaseLink) {
        if used.faults > 0 {
            self.faults = self.faults.saturating_add(1);
        }
        let CaseLink { link, .. } = used;
        self.dialer.close(link);
    }
}
