//! One request of any kind, asked of a client.
//!
//! To a caller it promises that behind Ok the client stands for one request more, whatever it stood
//! for before, and that the answer is that of the request's own segment; behind any error
//! but want of memory it says for what the client stands, and why. Of columns it promises that a
//! name gives the first column that has it.
#![tactic(auto)]

pub mod asking;
pub mod columns;

pub use crate::asking::ask;
pub use crate::columns::column;
