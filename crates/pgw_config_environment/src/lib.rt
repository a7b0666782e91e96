//! What surrounds a program that connects: the places of a configuration, and variables.
//!
//! To a caller it promises which configuration each place has, and which text the variables make.
#![tactic(auto)]

pub mod places;
pub mod variables;

pub use crate::places::places_of;
pub use crate::variables::Variables;
