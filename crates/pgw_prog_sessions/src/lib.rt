//! Sessions as text and as numbers: how sessions, answers and errors are printed, and a large session that follows from a
//! number.
//!
//! To the crates that print it promises the text that each function appends, which `specs/` defines: pieces as hex and
//! quoted texts (`Pieces`), the lines of answers (`AnswerLines`), the names of errors (`ErrorNames`), a session's report and
//! its error (`SessionText`). Where a call answers Ok, that text stands behind what stood there, and nothing else.
//!
//! To a program that wants a session of any size, `stream` promises the bytes that the messages of `specs/Stream` are
//! encoded as, and `laws` that they complete the one transcript of that session, whose report has these rows.
#![tactic(auto)]

pub mod answer_lines;
pub mod equality;
pub mod error_names;
pub mod laws;
pub mod pieces;
pub mod session_text;
pub mod stream;
pub mod summary;

pub use crate::answer_lines::{put_answer, put_answers};
pub use crate::error_names::{put_client_name, put_wire_name};
pub use crate::pieces::{put, put_decimal, put_hex, put_quoted, put_signed};
pub use crate::session_text::{put_error, put_result, put_session};
pub use crate::summary::{GenSummary, TooManyRows, summary_of};
