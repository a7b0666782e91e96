//! The commands `query` and `check`: the words that they take, the places that they try, and what they do.
//!
//! To a caller `command_words` promise which options and which other words they find, or that the words are outside the
//! grammar.
//!
//! `places::connect_first` promises that the places are tried in their order, each dialled once at most, up to the first
//! whose login ends well and whose server is as its configuration wants, or to the first failure behind which no other is
//! tried; that the client stands as its connect and its question left it; and that each other link is closed.
//!
//! To whoever runs them, `query::run_query` promises that its queries are asked in turn of the client that was let in, up to
//! the first whose answer does not end well; that what is printed is the text of the answers that came over its link, or a
//! front of it where the output fails or memory runs out, and that this client is closed then. `check::run_check` closes the
//! link of its client behind Terminate, and prints the report of what that client knows; no value in a report makes a line
//! of its own. Both promise the status that they end with.
#![tactic(auto)]

pub mod check;
pub mod command_words;
pub mod help;
pub mod laws;
pub mod noted;
pub mod notes;
pub mod options;
pub mod places;
pub mod query;
pub mod report;
pub mod talking;
pub mod targets;
pub mod words;

pub use crate::check::run_check;
pub use crate::command_words::{CheckWords, QueryWords, check_words, query_words};
pub use crate::help::help_of;
pub use crate::noted::NotedStartupHandler;
pub use crate::notes::{Clock, LoginKind, LoginNotes, NoClock, is_final};
pub use crate::options::{Flag, Options, Parted, flag_of, part};
pub use crate::places::{NoSession, Place, connect_first};
pub use crate::query::run_query;
pub use crate::report::{CheckReport, put_report};
pub use crate::talking::Talking;
pub use crate::targets::{Fit, look_at, wanted_of};
pub use crate::words::{login_name, server_text, truth_word, version_word};
