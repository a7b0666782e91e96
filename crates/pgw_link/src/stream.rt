//! One-way streams of bytes.
ghost use Rattle.std.specs.Prelude.{◌≡◌, ◌<◌, ◌≤◌, ℕ, List, Option, None, length, take, IfOk, IsSome, OnOk, OnErr};
ghost use Rattle.std.specs.Io.KnownBytes.{ReadConsumes, WriteAppends};
ghost use Rattle.pgw_link.specs.Tape.{HasTapeCause};
ghost use Rattle.pgw_link.specs.Stream.{SourceTape, SinkTape, DrewSource, NotDrawn, Poured, NotPoured};

/// A read failed.
#[derive(Clone, Copy, Debug, PartialEq, Eq, Drop)]
pub struct SourceFault;

/// A write failed.
#[derive(Clone, Copy, Debug, PartialEq, Eq, Drop)]
pub struct SinkFault;

/// What bytes are read from. Each source tells what its reads gave; only some, as those in memory, also tell what is
/// still to come.
pub trait Source: Drop {
    /// What the source tells of what its reads did.
    ghost tape: { Self → SourceTape };

    /// The bytes that are still to come, where they are known.
    ghost left: { Self → Option (List ℕ) } = { λ _. None };

    /// A fact that holds where what is to come is known.
    ghost foretells: { Type 0 };

    /// How often a read has failed. It never falls.
    ghost faults: { Self → ℕ };

    /// Moves bytes from the source into the buffer: one or more, or none at the source's end.
    fn read(&mut self, buf: &mut [u8]) -> Result<usize, SourceFault>
        ensures bound { IfOk result (λ n. n ≤ length buf.new) }
        ensures moved { 0 < length buf.old → IfOk result
            (λ n. DrewSource (tape self.old) (tape self.new) (take n buf.new)) }
        ensures no_room { length buf.old ≡ 0 →
            OnOk result (NotDrawn (tape self.old) (tape self.new)) }
        ensures failed { OnErr result (NotDrawn (tape self.old) (tape self.new)) }
        ensures drawn { ReadConsumes (left self.old) (left self.new) result buf.new }
        ensures cause { HasTapeCause (faults self.old) (faults self.new) result }
        ensures no_fault { OnOk result (faults self.new ≡ faults self.old) };

    ghost knows: { foretells → (source : Self) → IsSome (left source) };
}

/// What bytes are written to. Each sink tells what its writes took.
pub trait Sink: Drop {
    /// What the sink tells of what its writes did.
    ghost tape: { Self → SinkTape };

    /// The bytes that the far side holds, where they are known.
    ghost held: { Self → Option (List ℕ) } = { λ _. None };

    /// How often a write has failed. It never falls.
    ghost faults: { Self → ℕ };

    /// Writes a front of the piece, one byte or more.
    fn write(&mut self, piece: &[u8]) -> Result<usize, SinkFault>
        requires { 0 < length piece.now }
        ensures some { IfOk result (λ n. 0 < n) }
        ensures bound { IfOk result (λ n. n ≤ length piece.now) }
        ensures moved { IfOk result (λ n. Poured (tape self.old) (tape self.new)
            (take n piece.now)) }
        ensures failed { OnErr result (NotPoured (tape self.old) (tape self.new)) }
        ensures poured { WriteAppends (held self.old) (held self.new) result piece.now }
        ensures cause { HasTapeCause (faults self.old) (faults self.new) result }
        ensures no_fault { OnOk result (faults self.new ≡ faults self.old) };
}
