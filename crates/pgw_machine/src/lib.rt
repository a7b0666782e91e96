//! Machines over bytes: what a party to a conversation does with what comes, one byte after the other.
//!
//! To the sessions above it promises that the result is the same however bytes are cut, that what is put out only
//! grows, and that what is whole at the front stays whole. Which bytes are handed over is told by an `Event`.
#![tactic(auto)]

pub mod event;
pub mod laws;

pub use crate::event::Event;
