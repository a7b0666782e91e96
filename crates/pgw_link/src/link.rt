//! A link to a server.
ghost use Rattle.std.specs.Prelude.{◌≡◌, ◌<◌, ◌≤◌, ◌+◌, ℕ, List, Option, None, length, take, IfOk, IsSome, OnOk, OnErr};
ghost use Rattle.std.specs.Io.KnownBytes.{Keeps, ReadConsumes, WriteAppends};
ghost use Rattle.pgw_link.specs.Tape.{Tape, HasTapeCause, Took, Put, Flushed, LinkFails, Idle};

/// A call failed.
#[derive(Clone, Copy, Debug, PartialEq, Eq, Drop)]
pub struct LinkFault;

/// A two-way stream of bytes.
///
/// Each link tells what its calls did: which bytes were read and written, and how often it was called. Only some links,
/// as those in memory, also tell what is still to come.
pub trait Link: Drop {
    /// What the link tells of what its calls did.
    ghost tape: { Self → Tape };

    /// The bytes that are still to come, where they are known.
    ghost left: { Self → Option (List ℕ) } = { λ _. None };

    /// A fact that holds where what is to come is known, and stays known.
    ghost foretells: { Type 0 };

    /// The bytes that the far side holds, where they are known.
    ghost held: { Self → Option (List ℕ) } = { λ _. None };

    /// How often a call has failed. It never falls.
    ghost faults: { Self → ℕ };

    /// What a link is made with, and no call changes.
    ghost Plan: { Type 0 };

    ghost plan: { Self → Plan };

    /// Moves bytes from the link into the buffer: one or more, or none at the link's end. With no room in the buffer
    /// nothing moves, and the end is not asked for.
    fn read(&mut self, buf: &mut [u8]) -> Result<usize, LinkFault>
        ensures bound { IfOk result (λ n. n ≤ length buf.new) }
        ensures moved { 0 < length buf.old → IfOk result
            (λ n. Took (tape self.old) (tape self.new) (take n buf.new)) }
        ensures no_room { length buf.old ≡ 0 → OnOk result (Idle (tape self.old) (tape self.new)) }
        ensures failed { OnErr result (LinkFails (tape self.old) (tape self.new)
            ((tape self.old).reads + 1) (tape self.old).writes) }
        ensures drawn { ReadConsumes (left self.old) (left self.new) result buf.new }
        ensures cause { HasTapeCause (faults self.old) (faults self.new) result }
        ensures no_fault { OnOk result (faults self.new ≡ faults self.old) }
        ensures kept { plan self.new ≡ plan self.old };

    /// Writes a front of the piece, one byte or more.
    fn write(&mut self, piece: &[u8]) -> Result<usize, LinkFault>
        requires { 0 < length piece.now }
        ensures some { IfOk result (λ n. 0 < n) }
        ensures bound { IfOk result (λ n. n ≤ length piece.now) }
        ensures moved { IfOk result (λ n. Put (tape self.old) (tape self.new) (take n piece.now)) }
        ensures failed { OnErr result (LinkFails (tape self.old) (tape self.new)
            (tape self.old).reads
            ((tape self.old).writes + 1)) }
        ensures poured { WriteAppends (held self.old) (held self.new) result piece.now }
        ensures left { foretells → Keeps (left self.old) (left self.new) }
        ensures cause { HasTapeCause (faults self.old) (faults self.new) result }
        ensures no_fault { OnOk result (faults self.new ≡ faults self.old) }
        ensures kept { plan self.new ≡ plan self.old };

    /// Makes sure that what was written is on its way.
    fn flush(&mut self) -> Result<(), LinkFault>
        ensures done { OnOk result (Flushed (tape self.old) (tape self.new)) }
        ensures failed { OnErr result (LinkFails (tape self.old) (tape self.new)
            (tape self.old).reads
            (tape self.old).writes) }
        ensures held { Keeps (held self.old) (held self.new) }
        ensures left { foretells → Keeps (left self.old) (left self.new) }
        ensures cause { HasTapeCause (faults self.old) (faults self.new) result }
        ensures no_fault { OnOk result (faults self.new ≡ faults self.old) }
        ensures kept { plan self.new ≡ plan self.old };

    ghost knows: { foretells → (link : Self) → IsSome (left link) };

    /// No more was flushed than was written.
    ghost flushed_in: { (link : Self) → (tape link).flushed ≤ length (tape link).wrote };
}
