//! Things that many threads borrow, to each in its turn.
//!
//! A `Desk` is the plain object: what is there to be lent, how many are out, and who waits, in the
//! order in which they came. A `Turns` keeps a desk under a lock.
#![tactic(auto)]

mod bells;
pub mod desk;
pub mod laws;
pub mod stock;
pub mod turns;
pub mod waiting;

pub use crate::desk::{Desk, Numbers};
pub use crate::stock::Stock;
pub use crate::turns::{LendRefusal, Turns};
pub use crate::waiting::{JoinError, Waiting};
