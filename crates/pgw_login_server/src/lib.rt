//! A server's side of a login over bytes: they go in as they come, and those to be sent come out.
//!
//! To a server it promises that a core stands for the bytes given to it and put out by it: the handler's acts on the
//! messages of those bytes, however they are cut, and what each call answers.
#![tactic(auto)]

pub mod connection;
pub mod front;
pub mod laws;

pub use crate::connection::{ServerCore, ServerPhase};
pub use crate::front::next_message;
