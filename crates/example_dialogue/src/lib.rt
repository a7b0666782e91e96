//! Callers of the client, as programs of one's own may begin: a connection text and one query, over any link; and a
//! session over bytes that another runtime moves.
//!
//! To its reader it promises that each is proved as it stands: the report is that of a completed session with its one
//! query, under the configuration that the text gives; what is put out and answered is that of a dialogue which was given
//! all the bytes.
#![tactic(auto)]

pub mod ask;
pub mod push;

pub use crate::push::over_pieces;
