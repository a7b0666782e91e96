//! Bytes moved between a stream of tokio and an engine: what comes is given to the engine and what that puts out is
//! written, in order and with nothing lost, before more is read; a pending poll has registered where it waits.
//!
//! An engine takes bytes and puts out bytes. To a caller `Moving` and `BoxedMoving` promise which calls of the stream
//! were made, by the stream's own members, and what each did to the engine; and why they ended, with the stream's own
//! error where a call failed.
#![tactic(auto)]

pub mod engine;
mod exchange;
pub mod moving;

pub use crate::engine::{Engine, Turn};
pub use crate::exchange::{CHUNK, Exchange, Piece, Stop, new_piece};
pub use crate::moving::{BoxedMoved, BoxedMoving, Moved, Moving};
