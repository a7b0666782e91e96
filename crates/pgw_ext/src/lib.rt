//! The messages of the extended query.
//!
//! To the enums of all messages it promises that each message here is its row of the message table: what is read of it,
//! what is written, and each refusal in order.
#![tactic(auto)]

mod bind;
pub mod equality;
mod execute;
pub mod extendedquery;
mod flush;
mod kinds;
pub mod laws;
mod parse;
mod target;
