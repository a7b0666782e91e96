//! What a client holds.
ghost use Rattle.std.specs.Prelude.{◌≡◌, ◌≤◌, length, false};

use crate::desk::Desk;
use crate::reading::Piece;
use pgw_dialogue::inbox::Inbox;
use pgw_link::link::Link;

/// What a client holds: a link, what was read over it and not taken yet, and what it lays before its
/// handlers. It reads at most `limit` bytes.
#[derive(Drop)]
pub(crate) struct Connection<L: Link> {
    pub(crate) desk: Desk,
    pub(crate) link: L,
    pub(crate) inbox: Inbox,
    // What its bytes are read by way of.
    pub(crate) piece: Piece,
    pub(crate) read: u64,
    pub(crate) limit: u64,
    ghost within: { read ≤ limit },
    // While it can be used, all that was written is flushed.
    ghost flushed: { desk.broken ≡ false → (L.tape link).flushed ≡ length (L.tape link).wrote },
}
