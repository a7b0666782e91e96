//! The rows of a result, and what their values are read as.
//!
//! To a caller with a row it promises that the next value is the one that stands next in the row, read by its column's
//! format and type, or the stated refusal.
#![tactic(auto)]

mod cut;
pub mod decoder;
pub mod from_sql;
mod integers;
pub mod laws;
mod octets;
pub mod parameters;
pub mod result;
mod text;
pub mod to_sql;
mod truth;
mod unread;

pub use crate::decoder::DataRowDecoder;
pub use crate::from_sql::{FromSql, FromSqlText};
pub use crate::parameters::{Parameter, Parameters};
pub use crate::result::DataRowsReader;
pub use crate::to_sql::ToSql;
pub use pgw_query::data_rows::DataRows;
pub use pgw_query::row_iter::DataRowsIter;
pub use pgw_query::row_ref::DataRowRef;
