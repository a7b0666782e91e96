//! A handler of a caller's own, as an example: it counts the rows of a simple query and keeps none.
//!
//! To a caller it promises that its one response is how many rows came, and that it sends the query as it is.
#![tactic(auto)]

pub mod row_counter;

pub use crate::row_counter::RowCounter;
