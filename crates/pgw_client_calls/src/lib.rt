//! A client of a PostgreSQL server, as a value that asks by handlers of the caller's own.
//!
//! To a caller it promises that each call is the handler's meaning over the bytes that were read and written for it, why
//! each error came, which errors leave the client usable, and that where a call other than `fill` meets the link's end, it
//! awaited a message, and all that was sent had been flushed.
#![tactic(auto)]

pub mod canceling;
pub mod client;
mod closing;
mod connect;
mod connection;
mod desk;
mod exchange;
pub mod extended;
pub mod gathered;
mod hearing;
mod reading;
mod requests;
mod sending;
mod simple;

pub use crate::canceling::CancelToken;
pub use crate::client::PgWireClient;
pub use crate::extended::{ExtendedQueryClient, ExtendedQueryState};
pub use crate::gathered::Gathered;
pub use crate::requests::DescribeTarget;
pub use pgw_control::terminate::Terminate;
pub use pgw_frontend::frontend::PgWireFrontendMessage;
pub use pgw_handlers::{
    ClientInfo, ExtendedQueryHandler, Outgoing, ReadyState, ServerInformation, SimpleQueryHandler,
    StartupHandler,
};
pub use pgw_session::types::{DescribeResponse, ExecuteResult, PrepareResponse};
