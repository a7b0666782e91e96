//! What takes bytes and puts out bytes.
ghost use Rattle.std.specs.Prelude.{◌≡◌, ◌<◌, ◌≤◌, ◌++◌, ℕ, List, length};

use bytes::BytesMut;

/// Whether an engine waits for more bytes.
#[derive(Clone, Copy, Debug, PartialEq, Eq)]
pub enum Turn {
    /// It waits for more.
    More,
    /// It is over, and takes no more.
    Over,
}

/// Takes bytes as they come, in pieces of any length, and puts out bytes that are to go.
pub trait Engine: Drop {
    ghost use Rattle.pgw_tokio_moving.specs.declared.engine.Turn.{Turn};

    /// Given these bytes it puts out those, answers so, and is the other then.
    ghost takes: { Self → List ℕ → List ℕ → Turn → Self → Type 0 };

    /// What holds of an engine that answered so.
    ghost stands: { Self → Turn → Type 0 };

    /// How many bytes it may be given at most.
    ghost room: { Self → ℕ };

    /// How many bytes it may be given at most: one or more, while it waits.
    fn room(&self) -> u64
        ensures { result ≡ room self.now };

    /// Takes bytes that came, and puts out what is to go then.
    fn take(&mut self, piece: &[u8], out: &mut BytesMut) -> Turn
        requires waits { stands self.old Turn.More }
        requires some { 0 < length piece.now }
        requires fits { length piece.now ≤ room self.old }
        ensures takes { (put : List ℕ) × (out.new.items ≡ out.old.items ++ put)
            × takes self.old piece.now put result self.new }
        ensures again { stands self.new result };

    ghost has_room: { (engine : Self) → stands engine Turn.More → 0 < room engine };
}
