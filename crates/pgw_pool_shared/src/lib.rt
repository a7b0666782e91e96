//! A pool of sessions with a server, which threads share.
//!
//! A thread that finds no session idle waits behind those that came before it, as long as it will. A
//! session is reset by the thread that gives it back, and no other waits for that; one that is
//! dropped is replaced by `refill`.
#![tactic(auto)]

pub mod lease;
pub mod pool;
mod ready;
mod sessions;

pub use crate::lease::SharedLease;
pub use crate::pool::{GivenBack, Refilled, SharedPool};
pub use pgw_pool::DropCause;
pub use pgw_pool_turns::{LendRefusal, Numbers};
