//! A client whose bytes the caller moves, and that is asked one request at a time.
//!
//! To a caller that has its own input and output it promises, of all bytes given and put out that a client stands for,
//! what is put out and what each call answers, with its cause, as a dialogue with the requests that were asked so far
//! does; and that each answer is that of its request's own segment. Whether bytes came before their request was put out
//! is not looked at.
#![tactic(auto)]

pub mod client;
pub mod laws;
mod serving;
mod state;
pub mod told;

pub use crate::client::PushClient;
pub use pgw_dialogue::DialoguePhase;
