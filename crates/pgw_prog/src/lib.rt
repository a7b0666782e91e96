//! What the program does: sessions with a server, sessions from scripts, logins of two parties, recorded
//! connections, and sessions of any size.
//!
//! To whoever runs it, `program::run_program` promises the whole text that each command prints and the status it ends
//! with, as `specs/Program` says them in the words of the script's grammar and of `run_session`'s contract; that a fault
//! of the source or the sink, and nothing else, is status 3; and how the dialer is left. `program::run_program_with`
//! promises the same whatever becomes of what people are told.
#![tactic(auto)]

mod command;
mod connected;
pub mod equality;
pub mod gen_session;
mod generated;
mod held;
mod pair;
mod passfile;
mod pool;
mod printed;
pub mod program;
mod relay;
mod secret;
mod silence;
pub mod start;
mod told;
mod transfer;

pub use crate::program::{Stop, run_command_with, run_program, run_program_with};
pub use crate::start::{run, start_with, words_of};
