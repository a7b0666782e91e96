//! The messages of queries: what a client asks, what a server says to it, and what that tells: tags, types, columns, rows.
//!
//! To the enums of all messages it promises that each message here is its row of the message table: what is read of it,
//! what is written, and each refusal in order.
#![tactic(auto)]

pub mod data;
pub mod data_rows;
pub mod description;
pub mod equality;
pub mod field_info;
pub mod laws;
pub mod notification;
pub mod pg_type;
pub mod response;
pub mod row_error;
pub mod row_iter;
pub mod row_ref;
pub mod run;
pub mod simplequery;
pub mod tag;
mod told;

pub use crate::data::{
    DataRow, FORMAT_CODE_BINARY, FORMAT_CODE_TEXT, FieldDescription, MESSAGE_TYPE_BYTE_DATA_ROW,
    MESSAGE_TYPE_BYTE_ROW_DESCRITION, RowDescription,
};
pub use crate::data_rows::DataRows;
pub use crate::description::{
    MESSAGE_TYPE_BYTE_NO_DATA, MESSAGE_TYPE_BYTE_PARAMETER_DESCRITION, NoData, ParameterDescription,
};
pub use crate::field_info::{FieldFormat, FieldInfo};
pub use crate::notification::{MESSAGE_TYPE_BYTE_NOTIFICATION_RESPONSE, NotificationResponse};
pub use crate::pg_type::PgType;
pub use crate::response::{
    CommandComplete, EmptyQueryResponse, ErrorResponse, InfoResponse,
    MESSAGE_TYPE_BYTE_COMMAND_COMPLETE, MESSAGE_TYPE_BYTE_EMPTY_QUERY_RESPONSE,
    MESSAGE_TYPE_BYTE_ERROR_RESPONSE, MESSAGE_TYPE_BYTE_NOTICE_RESPONSE,
    MESSAGE_TYPE_BYTE_READY_FOR_QUERY, NoticeResponse, READY_STATUS_FAILED_TRANSACTION_BLOCK,
    READY_STATUS_IDLE, READY_STATUS_TRANSACTION_BLOCK, ReadyForQuery, TransactionStatus,
};
pub use crate::row_error::{RowError, RowResult, SqlFault};
pub use crate::row_iter::DataRowsIter;
pub use crate::row_ref::DataRowRef;
pub use crate::run::{HEAD, Head, Run, Span, first_row, head_of, span_of};
pub use crate::simplequery::{MESSAGE_TYPE_BYTE_QUERY, Query, encode_query};
pub use crate::tag::Tag;
