//! All messages of a server, and why a client gives up.
//!
//! To whoever reads what a server sends it promises what stands at the front of a buffer, a message with its length, a
//! refusal, or nothing whole yet, whatever follows it; and the bytes that each message is written as.
#![tactic(auto)]

pub mod asynchronous;
pub mod backend;
pub mod client_error;
pub mod equality;
pub mod laws;
mod sound;
mod told;

pub use crate::backend::PgWireBackendMessage;
pub use crate::client_error::{PgWireClientError, PgWireClientResult, unexpected};
