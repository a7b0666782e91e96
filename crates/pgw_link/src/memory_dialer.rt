//! A dialer in memory.
ghost use Rattle.std.specs.Prelude.{◌≡◌};
ghost use Rattle.std.specs.List.{All};
ghost use Rattle.pgw_link.specs.Tape.{new_tape};
ghost use Rattle.pgw_link.specs.Memory.{memory_tape, faults_of};
ghost use Rattle.pgw_link.specs.MemoryLinks.{last_shut, shut_of};

use crate::calls::Calls;
use crate::dial_log::{DialLog, DialNote};
use crate::dialer::{DialError, Dialer};
use crate::link::Link;
use crate::memory::MemoryLink;
use pgw_types::address::Address;
use pgw_types::listed::Listed;

/// A dialer in memory, which hands out its links in order. Dials with the listed numbers, counted from 1, fail, and so
/// does a dial that finds no link left.
#[derive(Drop)]
pub struct MemoryDialer {
    links: Vec<MemoryLink>,
    dials: Calls,
    missing: u64,
    faulty: u64,
    shut: Option<MemoryLink>,
    log: DialLog,
    ghost unused: { All (λ l. (faults_of l ≡ 0) × (memory_tape l ≡ new_tape)) links.items },
    ghost last: { last_shut log.shut ≡ shut_of shut },
}

impl MemoryDialer {
    ghost use Rattle.std.specs.Prelude.{◌<◌, ◌≤◌, ◌∷◌, length, Some, None, IfSome, true, false};
    ghost use Rattle.pgw_types.specs.Counts.{Rose};
    ghost use Rattle.pgw_link.specs.Dials.{new_dials};
    ghost use Rattle.pgw_link.specs.MemoryLinks.{IsUnused};
    ghost use Rattle.pgw_link.specs.MemoryDials.{dial_tape, dial_faults, links_of, is_dial_refused};

    pub fn new(links: Listed<MemoryLink>, fail_dials: Listed<u64>) -> MemoryDialer
        requires { All IsUnused links }
        ensures tape { dial_tape result ≡ new_dials }
        ensures faults { dial_faults result ≡ 0 }
        ensures links { links_of result ≡ links }
        ensures listing { result.dials.numbers ≡ fail_dials }
    {
        MemoryDialer {
            links: links.into_vec(),
            dials: Calls::new(fail_dials),
            missing: 0,
            faulty: 0,
            shut: None,
            log: DialLog::new(),
        }
    }

    /// The link that was closed last.
    pub fn closed(&self) -> Option<&MemoryLink>
        ensures some { IfSome result (λ l. last_shut (dial_tape self.now).shut
            ≡ Some (memory_tape l.now)) }
        ensures none { result ≡ None → last_shut (dial_tape self.now).shut ≡ None }
    {
        self.shut.as_ref()
    }

    // Counts a dial, and says whether it is refused.
    fn is_refusing(&mut self) -> bool
        ensures refused { result ≡ is_dial_refused self.old }
        ensures left { result ≡ false → 0 < length (links_of self.new) }
        ensures links { links_of self.new ≡ links_of self.old }
        ensures listing { self.new.dials.numbers ≡ self.old.dials.numbers }
        ensures tape { dial_tape self.new ≡ dial_tape self.old }
        ensures kept { result ≡ false → dial_faults self.new ≡ dial_faults self.old }
        ensures rose { result ≡ true → (dial_faults self.old ≤ dial_faults self.new)
            × Rose (dial_faults self.old) (dial_faults self.new) }
    {
        if self.dials.is_failing() {
            return true;
        }
        if self.links.is_empty() {
            self.missing = self.missing.saturating_add(1);
            return true;
        }
        false
    }

    // Hands out the first link.
    fn hand_out(&mut self) -> MemoryLink
        requires { 0 < length (links_of self.old) }
        ensures links { links_of self.old ≡ result ∷ links_of self.new }
        ensures listing { self.new.dials ≡ self.old.dials }
        ensures tape { dial_tape self.new ≡ dial_tape self.old }
        ensures faults { dial_faults self.new ≡ dial_faults self.old }
        ensures unused { IsUnused result }
    {
        self.links.remove(0)
    }
}

impl Dialer for MemoryDialer {
    ghost use Rattle.std.specs.Prelude.{◌∷◌, true, false, Some, IfOk, IsOk, IsErrOf, OnErr};
    ghost use Rattle.pgw_link.specs.Dials.{Dialled, NotDialled, CountsDial, CountsClose, Shut, MakesNext};
    ghost use Rattle.pgw_link.specs.Memory.{memory_left};
    ghost use Rattle.pgw_link.specs.MemoryDials.{offers_of, dial_tape, dial_faults, links_of, is_dial_refused};

    type Link = MemoryLink;

    ghost tape = { dial_tape };

    ghost offers = { λ d. Some (offers_of (links_of d)) };

    ghost foretells = { Unit {0} };

    ghost faults = { dial_faults };

    ghost links_foretell = { λ t. t };

    fn dial(&mut self, address: &Address) -> Result<MemoryLink, DialError>
        ensures fails { is_dial_refused self.old ≡ true → IsErrOf result DialError.Fault }
        ensures serves { is_dial_refused self.old ≡ false → IsOk result }
        ensures hands_out { IfOk result (λ made. links_of self.old ≡ made ∷ links_of self.new) }
        ensures keeps { OnErr result (links_of self.new ≡ links_of self.old) }
        ensures listing { self.new.dials.numbers ≡ self.old.dials.numbers }
        ensures counts { CountsDial (dial_faults self.old) (dial_faults self.new) result }
        ensures faultless { IfOk result (λ made. faults_of made ≡ 0) }
        ensures dialled { IfOk result (λ made.
            Dialled address.now (dial_tape self.old) (dial_tape self.new) (memory_tape made)) }
        ensures offered { IfOk result (λ made. MakesNext (Some (offers_of (links_of self.old)))
            (Some (offers_of (links_of self.new))) (Some (memory_left made))) }
        ensures failed { OnErr result (NotDialled address.now (dial_tape self.old)
            (dial_tape self.new)) }
        ensures kept { OnErr result (Some (offers_of (links_of self.new))
            ≡ Some (offers_of (links_of self.old))) }
    {
        if self.is_refusing() {
            self.log = self.log.then(&DialNote::Dialled(address, false));
            return Err(DialError::Fault);
        }
        self.log = self.log.then(&DialNote::Dialled(address, true));
        Ok(self.hand_out())
    }

    fn close(&mut self, used: MemoryLink)
        ensures counts { CountsClose (dial_faults self.old) (dial_faults self.new)
            (faults_of used) }
        ensures shut { Shut (dial_tape self.old) (dial_tape self.new) (memory_tape used) }
        ensures links { links_of self.new ≡ links_of self.old }
        ensures listing { self.new.dials.numbers ≡ self.old.dials.numbers }
        ensures kept { Some (offers_of (links_of self.new)) ≡ Some (offers_of (links_of self.old)) }
    {
        if used.has_failed() {
            self.faulty = self.faulty.saturating_add(1);
        }
        self.log = self.log.then(&DialNote::Shut(used.log()));
        self.shut = Some(used);
    }
}
