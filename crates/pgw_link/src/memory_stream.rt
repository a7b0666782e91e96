//! A source and a sink in memory.
ghost use Rattle.std.specs.Prelude.{◌≡◌, ◌<◌, ◌≤◌, ◌⊎◌, Some, [], length, take, IfOk, OnOk, OnErr, is_err, true, false};
ghost use Rattle.std.specs.Io.KnownBytes.{ReadConsumes, WriteAppends};
ghost use Rattle.pgw_types.specs.Counts.{Rose};
ghost use Rattle.pgw_link.specs.Tape.{HasTapeCause};
ghost use Rattle.pgw_link.specs.Calls.{is_listed, call_number};
ghost use Rattle.pgw_link.specs.Stream.{DrewSource, NotDrawn, Poured, NotPoured};

use crate::calls::Calls;
use crate::log::{Log, Note};
use crate::piece::copy_from;
use crate::stream::{Sink, SinkFault, Source, SourceFault};
use pgw_types::listed::Listed;
use pgw_types::octets::Octets;
use std::alloc::Global;

/// A source in memory. Each read moves at most `cut` bytes. Those with the listed numbers, counted from 1, fail.
#[derive(Drop)]
pub struct MemorySource {
    bytes: Octets,
    at: usize,
    cut: usize,
    reads: Calls,
    log: Log,
    ghost within: { at ≤ length bytes },
    ghost moves: { 0 < cut },
    ghost reads_counted: { reads.made ≡ call_number log.reads },
}

impl MemorySource {
    ghost use Rattle.pgw_link.specs.MemoryStream.{source_tape, source_left};

    /// A source with these bytes to come.
    pub fn new(bytes: Octets, cut: usize, fail_reads: Listed<u64>) -> MemorySource
        requires { 0 < cut }
        ensures tape { source_tape result ≡ record { took = []; ended = 0; reads = 0 } }
        ensures left { source_left result ≡ bytes }
        ensures cut { result.cut ≡ cut }
        ensures faults { result.reads.failed ≡ 0 }
        ensures listing { result.reads.numbers ≡ fail_reads }
    {
        MemorySource {
            bytes,
            at: 0,
            cut,
            reads: Calls::new(fail_reads),
            log: Log::new(),
        }
    }
}

impl Source for MemorySource {
    ghost use Rattle.std.specs.Prelude.{refl};
    ghost use Rattle.pgw_link.specs.MemoryStream.{source_tape, source_left};

    ghost tape = { source_tape };

    ghost left = { λ m. Some (source_left m) };

    ghost foretells = { Unit {0} };

    ghost faults = { λ m. m.reads.failed };

    ghost knows = { λ t m. refl };

    fn read(&mut self, buf: &mut [u8]) -> Result<usize, SourceFault>
        ensures bound { IfOk result (λ n. n ≤ length buf.new) }
        ensures cut { IfOk result (λ n. n ≤ self.old.cut) }
        ensures fails { is_err result ≡ is_listed self.old.reads.numbers
            (source_tape self.new).reads }
        ensures moved { 0 < length buf.old → IfOk result
            (λ n. DrewSource (source_tape self.old) (source_tape self.new) (take n buf.new)) }
        ensures no_room { length buf.old ≡ 0 →
            OnOk result (NotDrawn (source_tape self.old) (source_tape self.new)) }
        ensures failed { OnErr result (NotDrawn (source_tape self.old) (source_tape self.new)) }
        ensures drawn { ReadConsumes (Some (source_left self.old)) (Some (source_left self.new))
            result buf.new }
        ensures cause { HasTapeCause self.old.reads.failed self.new.reads.failed result }
        ensures no_fault { OnOk result (self.new.reads.failed ≡ self.old.reads.failed) }
        ensures kept { self.new.reads.numbers ≡ self.old.reads.numbers }
        ensures cut_kept { self.new.cut ≡ self.old.cut }
    {
        if self.reads.is_failing() {
            self.log = self.log.then(&Note::Unread);
            return Err(SourceFault);
        }
        let count = copy_from(self.bytes.as_slice(), self.at, self.cut, buf);
        self.at += count;
        self.log = self.log.then(&Note::Read(buf, count));
        Ok(count)
    }
}

/// A sink in memory. Each write appends at most `cut` bytes. Those with the listed numbers, counted from 1, fail, and
/// so does one that finds no memory.
#[derive(Drop)]
pub struct MemorySink {
    cut: usize,
    written: Vec<u8>,
    writes: Calls,
    wanting: u64,
    log: Log,
    ghost moves: { 0 < cut },
    ghost is_written: { log.wrote ≡ written.items },
    ghost writes_counted: { writes.made ≡ call_number log.writes },
}

impl MemorySink {
    ghost use Rattle.pgw_link.specs.MemoryStream.{sink_tape, sink_faults};

    /// A sink with nothing written.
    pub fn new(alloc: Global, cut: usize, fail_writes: Listed<u64>) -> MemorySink
        requires { 0 < cut }
        ensures tape { sink_tape result ≡ record { wrote = []; writes = 0 } }
        ensures cut { result.cut ≡ cut }
        ensures faults { sink_faults result ≡ 0 }
        ensures listing { result.writes.numbers ≡ fail_writes }
    {
        MemorySink {
            cut,
            written: Vec::new(alloc),
            writes: Calls::new(fail_writes),
            wanting: 0,
            log: Log::new(),
        }
    }

    pub fn written(&self) -> &[u8]
        ensures { result.now ≡ (sink_tape self.now).wrote }
    {
        self.written.as_slice()
    }
}

impl Sink for MemorySink {
    ghost use Rattle.pgw_link.specs.MemoryStream.{sink_tape, sink_faults};

    ghost tape = { sink_tape };

    ghost held = { λ m. Some m.written.items };

    ghost faults = { sink_faults };

    fn write(&mut self, piece: &[u8]) -> Result<usize, SinkFault>
        requires { 0 < length piece.now }
        ensures some { IfOk result (λ n. 0 < n) }
        ensures bound { IfOk result (λ n. n ≤ length piece.now) }
        ensures cut { IfOk result (λ n. n ≤ self.old.cut) }
        ensures goes { OnOk result (is_listed self.old.writes.numbers (sink_tape self.new).writes
            ≡ false) }
        ensures fails { OnErr result (is_listed self.old.writes.numbers (sink_tape self.new).writes
            ≡ true
            ⊎ Rose self.old.wanting self.new.wanting) }
        ensures moved { IfOk result (λ n. Poured (sink_tape self.old) (sink_tape self.new)
            (take n piece.now)) }
        ensures failed { OnErr result (NotPoured (sink_tape self.old) (sink_tape self.new)) }
        ensures poured { WriteAppends (Some self.old.written.items) (Some self.new.written.items)
            result piece.now }
        ensures cause { HasTapeCause (sink_faults self.old) (sink_faults self.new) result }
        ensures no_fault { OnOk result (sink_faults self.new ≡ sink_faults self.old) }
        ensures kept { self.new.writes.numbers ≡ self.old.writes.numbers }
        ensures cut_kept { self.new.cut ≡ self.old.cut }
    {
        if self.writes.is_failing() {
            self.log = self.log.then(&Note::Unwritten);
            return Err(SinkFault);
        }
        let count = piece.len().min(self.cut);
        match self.written.extend_from_slice(&piece[..count]) {
            Ok(()) => {
                self.log = self.log.then(&Note::Wrote(piece, count));
                Ok(count)
            }
            Err(_) => {
                self.log = self.log.then(&Note::Unwritten);
                self.wanting = self.wanting.saturating_add(1);
                Err(SinkFault)
            }
        }
    }
}
