//! All messages of a client.
//!
//! To whoever reads what a client sends it promises the same of a client's messages, phase by phase of a connection:
//! what stands at the front of a buffer; and the bytes that each message is written as.
#![tactic(auto)]

pub mod equality;
pub mod frontend;
pub mod laws;
mod sound;

pub use crate::frontend::{PgWireFrontendMessage, SslNegotiationMetaMessage};
