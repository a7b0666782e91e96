//! The messages of COPY.
//!
//! To the enums of all messages it promises that each message here is its row of the message table: what is read of it,
//! what is written, and each refusal in order.
#![tactic(auto)]

pub mod copy;
mod data;
pub mod equality;
pub mod laws;
mod response;
