//! A whole session in one call (`run_session`), over a link.
//!
//! It logs in, asks each request of a list, and reports what was answered. To a caller it promises that the report is that
//! of a completed transcript, each answer taken from its own request's segment; what each error means and what it leaves;
//! that bytes which complete a session give its report; that nothing is sent before it is due; and that it does what a
//! dialogue does that is given the same bytes.
//!
//! The types that a caller names are handed on from here.
#![tactic(auto)]

pub mod laws;
pub mod session;

pub use crate::session::{CHUNK, chunk_size, fill, run_session};
pub use pgw_backend::backend::PgWireBackendMessage;
pub use pgw_backend::client_error::{PgWireClientError, PgWireClientResult};
pub use pgw_config::address::Address;
pub use pgw_config::config::{
    ChannelBinding, Config, Host, HostAddr, LoadBalanceHosts, SslMode, SslNegotiation,
    TargetSessionAttrs,
};
pub use pgw_config::error::ConfigError;
pub use pgw_link::dial_log::{DialLog, DialNote};
pub use pgw_link::dialer::{DialError, Dialer};
pub use pgw_link::link::{Link, LinkFault};
pub use pgw_link::log::{Log, Note};
pub use pgw_link::memory::MemoryLink;
pub use pgw_link::memory_dialer::MemoryDialer;
pub use pgw_link::socket::ClientSocket;
pub use pgw_link::socket_dialer::{SocketDialer, Timeouts};
pub use pgw_query::data::DataRow;
pub use pgw_query::data_rows::DataRows;
pub use pgw_query::field_info::{FieldFormat, FieldInfo};
pub use pgw_query::pg_type::PgType;
pub use pgw_query::response::{ErrorResponse, TransactionStatus};
pub use pgw_query::row_error::{RowError, SqlFault};
pub use pgw_query::row_iter::DataRowsIter;
pub use pgw_query::row_ref::DataRowRef;
pub use pgw_query::tag::Tag;
pub use pgw_rows::decoder::DataRowDecoder;
pub use pgw_rows::from_sql::{FromSql, FromSqlText};
pub use pgw_rows::parameters::{Parameter, Parameters};
pub use pgw_rows::result::DataRowsReader;
pub use pgw_rows::to_sql::ToSql;
pub use pgw_session::types::{
    Answer, DescribeResponse, ExecuteResult, PrepareResponse, Request, Response, SessionReport,
    Target,
};
pub use pgw_types::boxed::Boxed;
pub use pgw_types::context::ProtocolVersion;
pub use pgw_types::error::{OauthFault, OauthRefusal, PgWireError, ScramMessageFault};
pub use pgw_types::error_info::ErrorInfo;
pub use pgw_types::listed::Listed;
pub use pgw_types::memory::OutOfMemory;
pub use pgw_types::octets::Octets;
pub use pgw_types::scram_error::ScramFault;
pub use pgw_types::text::Text;
pub use pgw_wire::params::Params;
pub use pgw_wire::secret_key::SecretKey;
