//! A caller of a client as a value, as an example: over any link it asks a list of questions, one after the other.
//!
//! To its own caller it promises that behind Ok the client stands for these questions too, whatever it stood for before:
//! each reply is the answer of its own request's segment, in order, and the client can be used. Behind an error it stands
//! for the questions that were replied, and for the next by that error.
#![tactic(auto)]

pub mod asking;

pub use crate::asking::{Question, Reply, ask_all};
