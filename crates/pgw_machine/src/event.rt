//! What a schedule says of two parties to a conversation.

/// Hands over this many of the bytes not yet taken, or all that there are.
#[derive(Clone, Copy, Debug, PartialEq, Eq)]
pub enum Event {
    ToServer(u32),
    ToClient(u32),
}
