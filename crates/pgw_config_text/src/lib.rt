//! Connection texts, cut into their parts.
//!
//! To the configuration above it promises the parts of a text by the grammar of its form, up to the first fault, and
//! that a text is cut in one way.
#![tactic(auto)]

mod key_value;
pub mod part;
pub mod text;
mod url;

pub use crate::part::{Cut, Fault, Part};
pub use crate::text::cut;
