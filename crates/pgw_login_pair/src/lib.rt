//! Two parties to a login by SCRAM-SHA-256, over every schedule: a client and a server, and the
//! bytes between them, of which each event hands some over.
//!
//! To whoever runs both ends of a login it promises, whatever the schedule, that each end is where
//! the bytes lead that it took, that they agree on the messages, that a ready client has a server
//! that let it in, that a server lets in by the proof of its stored password alone and, where both
//! have the hash of a certificate, for one hash alone, and that honest ends are never refused.
#![tactic(auto)]

mod both;
mod client_side;
pub mod equality;
pub mod laws;
pub mod parties;
mod piece;
mod server_side;
mod sound;

pub use crate::both::two_party;
pub use crate::parties::{ClientEnd, PairInput, PairOutcome, ServerEnd};
pub use pgw_machine::event::Event;
