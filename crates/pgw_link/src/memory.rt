//! A link in memory.
ghost use Rattle.std.specs.Prelude.{◌≡◌, ◌<◌, ◌≤◌, ◌+◌, ◌*◌, ◌||◌, ◌⊎◌, nat_lt, length, take, Some, IfOk, IsOk, OnOk, OnErr, is_err, true, false};
ghost use Rattle.std.specs.Io.KnownBytes.{ReadConsumes, WriteAppends};
ghost use Rattle.pgw_types.specs.Counts.{Rose};
ghost use Rattle.pgw_link.specs.Tape.{new_tape, HasTapeCause, Took, Put, Flushed, LinkFails, Idle};
ghost use Rattle.pgw_link.specs.Calls.{is_listed, is_reached, call_number};

use crate::calls::Calls;
use crate::link::{Link, LinkFault};
use crate::log::{Log, Note};
use crate::piece::copy_from;
use pgw_types::listed::Listed;
use pgw_types::octets::Octets;
use std::alloc::Global;

/// A link in memory. Each call moves at most `cut` bytes. Reads and writes with the listed numbers, counted from 1,
/// fail, and so does a write that finds no memory.
#[derive(Drop)]
pub struct MemoryLink {
    server: Octets,
    at: usize,
    cut: usize,
    written: Vec<u8>,
    reads: Calls,
    writes: Calls,
    wanting: u64,
    log: Log,
    ghost within: { at ≤ length server },
    ghost moves: { 0 < cut },
    ghost is_written: { log.wrote ≡ written.items },
    ghost flushed_in: { log.flushed ≤ length log.wrote },
    ghost reads_counted: { reads.made ≡ call_number log.reads },
    ghost writes_counted: { writes.made ≡ call_number log.writes },
    ghost read_in_cuts: { at ≤ cut * log.reads },
    ghost wrote_in_cuts: { length written.items ≤ cut * log.writes },
}

impl MemoryLink {
    ghost use Rattle.pgw_link.specs.Memory.{memory_tape, memory_left, faults_of, making_of};

    /// A link with the server's bytes to come.
    pub fn new(
        alloc: Global,
        server: Octets,
        cut: usize,
        fail_reads: Listed<u64>,
        fail_writes: Listed<u64>,
    ) -> MemoryLink
        requires { 0 < cut }
        ensures tape { memory_tape result ≡ new_tape }
        ensures left { memory_left result ≡ server }
        ensures faults { faults_of result ≡ 0 }
        ensures making { making_of result ≡ record
            { server = server; cut = cut; reads = fail_reads; writes = fail_writes } }
    {
        MemoryLink {
            server,
            at: 0,
            cut,
            written: Vec::new(alloc),
            reads: Calls::new(fail_reads),
            writes: Calls::new(fail_writes),
            wanting: 0,
            log: Log::new(),
        }
    }

    /// What was written. The calls made bound how many bytes have moved.
    pub fn written(&self) -> &[u8]
        ensures value { result.now ≡ (memory_tape self.now).wrote }
        ensures taken { length (making_of self.now).server
            ≤ length (memory_left self.now) + (making_of self.now).cut *
            (memory_tape self.now).reads }
        ensures sent { length (memory_tape self.now).wrote
            ≤ (making_of self.now).cut * (memory_tape self.now).writes }
    {
        self.written.as_slice()
    }

    /// Whether a write found no memory. With that a link has a fault exactly where a listed call was made.
    pub fn was_short_of_memory(&self) -> bool
        ensures value { result ≡ nat_lt 0 self.now.wanting }
        ensures causes { nat_lt 0 (faults_of self.now)
            ≡ (is_reached (making_of self.now).reads (call_number (memory_tape self.now).reads)
            || is_reached (making_of self.now).writes (call_number (memory_tape self.now).writes)
            || result) }
    {
        self.wanting > 0
    }

    /// Whether a call has failed.
    pub fn has_failed(&self) -> bool
        ensures { result ≡ nat_lt 0 (faults_of self.now) }
    {
        self.reads.have_failed() || self.writes.have_failed() || self.wanting > 0
    }

    /// What its calls did.
    pub fn log(&self) -> &Log
        ensures { result.now ≡ self.now.log }
    {
        &self.log
    }
}

impl Link for MemoryLink {
    ghost use Rattle.std.specs.Prelude.{refl};
    ghost use Rattle.pgw_link.specs.Memory.{memory_tape, memory_left, faults_of, making_of, Making};

    ghost tape = { memory_tape };

    ghost left = { λ m. Some (memory_left m) };

    ghost foretells = { Unit {0} };

    ghost held = { λ m. Some m.written.items };

    ghost faults = { faults_of };

    ghost Plan = { Making };

    ghost plan = { making_of };

    ghost knows = { λ t m. refl };

    ghost flushed_in = { λ m. m.flushed_in };

    fn read(&mut self, buf: &mut [u8]) -> Result<usize, LinkFault>
        ensures bound { IfOk result (λ n. n ≤ length buf.new) }
        ensures cut { IfOk result (λ n. n ≤ self.old.cut) }
        ensures fails { is_err result ≡ is_listed (making_of self.old).reads
            (memory_tape self.new).reads }
        ensures moved { 0 < length buf.old → IfOk result
            (λ n. Took (memory_tape self.old) (memory_tape self.new) (take n buf.new)) }
        ensures no_room { length buf.old ≡ 0 →
            OnOk result (Idle (memory_tape self.old) (memory_tape self.new)) }
        ensures failed { OnErr result (LinkFails (memory_tape self.old) (memory_tape self.new)
            ((memory_tape self.old).reads + 1) (memory_tape self.old).writes) }
        ensures drawn { ReadConsumes (Some (memory_left self.old)) (Some (memory_left self.new))
            result buf.new }
        ensures cause { HasTapeCause (faults_of self.old) (faults_of self.new) result }
        ensures no_fault { OnOk result (faults_of self.new ≡ faults_of self.old) }
        ensures kept { making_of self.new ≡ making_of self.old }
    {
        if self.reads.is_failing() {
            self.log = self.log.then(&Note::Unread);
            return Err(LinkFault);
        }
        let count = copy_from(self.server.as_slice(), self.at, self.cut, buf);
        self.at += count;
        self.log = self.log.then(&Note::Read(buf, count));
        Ok(count)
    }

    fn write(&mut self, piece: &[u8]) -> Result<usize, LinkFault>
        requires { 0 < length piece.now }
        ensures some { IfOk result (λ n. 0 < n) }
        ensures bound { IfOk result (λ n. n ≤ length piece.now) }
        ensures cut { IfOk result (λ n. n ≤ self.old.cut) }
        ensures goes { OnOk result (is_listed (making_of self.old).writes
            (memory_tape self.new).writes ≡ false) }
        ensures fails { OnErr result (is_listed (making_of self.old).writes
            (memory_tape self.new).writes ≡ true
            ⊎ Rose self.old.wanting self.new.wanting) }
        ensures moved { IfOk result (λ n. Put (memory_tape self.old) (memory_tape self.new)
            (take n piece.now)) }
        ensures failed { OnErr result (LinkFails (memory_tape self.old) (memory_tape self.new)
            (memory_tape self.old).reads ((memory_tape self.old).writes + 1)) }
        ensures poured { WriteAppends (Some self.old.written.items) (Some self.new.written.items)
            result piece.now }
        ensures left { memory_left self.new ≡ memory_left self.old }
        ensures cause { HasTapeCause (faults_of self.old) (faults_of self.new) result }
        ensures no_fault { OnOk result (faults_of self.new ≡ faults_of self.old) }
        ensures kept { making_of self.new ≡ making_of self.old }
    {
        if self.writes.is_failing() {
            self.log = self.log.then(&Note::Unwritten);
            return Err(LinkFault);
        }
        let count = piece.len().min(self.cut);
        match self.written.extend_from_slice(&piece[..count]) {
            Ok(()) => {
                self.log = self.log.then(&Note::Wrote(piece, count));
                Ok(count)
            }
            Err(_) => {
                self.log = self.log.then(&Note::Unwritten);
                self.wanting = self.wanting.saturating_add(1);
                Err(LinkFault)
            }
        }
    }

    fn flush(&mut self) -> Result<(), LinkFault>
        // A flush finds all in memory, so it never fails.
        ensures never { IsOk result }
        ensures done { OnOk result (Flushed (memory_tape self.old) (memory_tape self.new)) }
        ensures failed { OnErr result (LinkFails (memory_tape self.old) (memory_tape self.new)
            (memory_tape self.old).reads (memory_tape self.old).writes) }
        ensures held { self.new.written.items ≡ self.old.written.items }
        ensures left { memory_left self.new ≡ memory_left self.old }
        ensures cause { HasTapeCause (faults_of self.old) (faults_of self.new) result }
        ensures no_fault { OnOk result (faults_of self.new ≡ faults_of self.old) }
        ensures kept { making_of self.new ≡ making_of self.old }
    {
        self.log = self.log.then(&Note::Flushed);
        Ok(())
    }
}
