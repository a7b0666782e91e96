//! What a segment gave so far.

use crate::types::{ExecuteResult, Response};
use pgw_query::data_rows::DataRows;
use pgw_query::field_info::FieldInfo;
use pgw_query::pg_type::PgType;
use pgw_query::response::ErrorResponse;
use pgw_types::listed::Listed;

/// A result whose rows are still coming.
#[derive(Debug, Drop)]
pub struct Opened {
    pub fields: Listed<FieldInfo>,
    pub rows: DataRows,
}

/// What a request gave so far.
#[derive(Debug, Drop)]
pub struct Tally {
    /// The commands of a simple query.
    pub responses: Listed<Response>,
    /// The result that was described last, while no command has closed it.
    pub opened: Option<Opened>,
    /// The parameters described last.
    pub param_types: Listed<PgType>,
    /// How the portal first ended, with its rows up to then.
    pub executed: Option<ExecuteResult<DataRows>>,
    /// The rows since then, of no described result.
    pub rows: DataRows,
    /// The segment's first error.
    pub remote: Option<ErrorResponse>,
}
