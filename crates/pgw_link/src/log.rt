//! What the calls of a link, a source or a sink did, kept for proofs alone.
ghost use Rattle.std.specs.Prelude.{◌≡◌, ℕ, List};
ghost use Rattle.std.specs.Borrow.{ftrue};
ghost use Rattle.pgw_link.specs.Tape.{new_tape};

use std::marker::Model;

/// A history of calls. It takes no memory, and its methods do nothing at run time.
#[derive(Drop)]
pub struct Log {
    pub ghost took: { List ℕ },
    pub ghost wrote: { List ℕ },
    pub ghost flushed: { ℕ },
    pub ghost ended: { List ℕ },
    pub ghost reads: { ℕ },
    pub ghost writes: { ℕ },
}

impl Model for Log {
    ghost also_owns = { λ _. ftrue };
}

// It owns nothing.
unsafe impl Send for Log {}

/// One call: so many bytes were read into the buffer, or written of the piece.
#[derive(Clone, Copy, Drop)]
pub enum Note<'a> {
    Read(&'a [u8], usize),
    Unread,
    Wrote(&'a [u8], usize),
    Unwritten,
    Flushed,
}

impl Log {
    ghost use Rattle.pgw_link.specs.Log.{tape_of, with_note};

    /// The history of no call.
    pub fn new() -> Log
        ensures { tape_of result ≡ new_tape }
    {
        Log {}
    }

    /// This history with one call more.
    #[inline(always)]
    pub fn then(&self, _note: &Note<'_>) -> Log
        ensures { tape_of result ≡ with_note (tape_of self.now) _note.now }
    {
        Log {}
    }
}
