//! Scripts of pools: the calls that one makes, and what is printed of them.
//!
//! To the program it promises that the text is that of the answers of the pool's calls over the script's whole list of
//! calls, each call by what the pool and its leases promise of it (`specs/Standing`, `specs/Outcome`); or why no pool was
//! started; or the number of the first line that names a lease which is not out.
#![tactic(auto)]

mod desk;
pub mod run;
mod start;

pub use crate::run::{PoolOutcome, run_pool};
