//! A client's codec: all messages of both directions, and which phase a server's next byte is of.
//!
//! To a client it promises what stands at the front of what a server sent, in the phase that the client's own messages
//! have led to; the bytes that each of these is written as; and that a refusal changes nothing.
#![tactic(auto)]

pub mod codec;

pub use crate::codec::PgWireMessageClientCodec;
