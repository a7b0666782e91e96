//! What is printed of rows and of answers: lines of CSV, of JSON and of a table.
//!
//! To a caller it promises the text that each function appends; what is printed as CSV and as JSON reads back as the rows, by
//! the kit's own readers. Of an answer that is printed as it comes it promises that the text is that of its results, by the
//! messages that stood in the bytes of the server, and how the answer ended.
#![tactic(auto)]

pub mod answer;
mod answer_columns;
pub mod asking;
pub mod columns;
pub mod csv_lines;
pub mod faults;
pub mod json_lines;
pub mod laws;
pub mod layout;
pub mod messages;
pub mod page;
pub mod pieces;
pub mod printer;
pub mod said;
pub mod sample;
pub mod shown;
pub mod table_lines;
mod told;
mod values;
pub mod written;

pub use crate::answer::Answer;
pub use crate::asking::{AnswerEnd, Halt, ask, ask_all};
pub use crate::columns::{Column, ColumnKind};
pub use crate::csv_lines::put_csv_line;
pub use crate::faults::told_of_error;
pub use crate::json_lines::put_json_line;
pub use crate::layout::{Row, lay_out, names};
pub use crate::messages::Messages;
pub use crate::page::{Page, Stop};
pub use crate::pieces::{put, put_times};
pub use crate::printer::{RowFormat, RowPrinter};
pub use crate::said::{Said, Turn, said_of};
pub use crate::sample::{SAMPLE, Sample};
pub use crate::shown::plain;
pub use crate::table_lines::{MOST_WIDTH, Side, TableColumn, put_rule, put_table_line, widen};
pub use crate::written::write_whole;
