//! The server's side of a login: what handlers see, and the handlers without SASL.
//!
//! To a server it promises that each call of a handler is the act that its table names, on client, login and outbox,
//! and that after a refusal the login has failed.
#![tactic(auto)]

pub mod acts;
pub mod cancel;
pub mod cleartext;
pub mod client_info;
pub mod equality;
pub mod finish;
pub mod handler;
pub mod md5;
pub mod negotiation;
pub mod noop;
pub mod outbox;
pub mod password;
pub mod provider;
pub mod registers;
pub mod source;
pub mod state;

pub use crate::acts::{feed_all, send};
pub use crate::cancel::{CancelHandler, DefaultCancelHandler, ErrorHandler, PgWireServerHandlers};
pub use crate::cleartext::{
    CleartextPassword, CleartextPasswordAuthStartupHandler, cleartext_handlers_act,
    cleartext_is_asked_for,
};
pub use crate::client_info::{
    ClientInfo, DEFAULT_NAME, DefaultClient, METADATA_APPLICATION_NAME, METADATA_CLIENT_ENCODING,
    METADATA_DATABASE, METADATA_USER, PgWireConnectionState,
};
pub use crate::finish::{accept, draw, enroll, finish_authentication, introduce, ready};
pub use crate::handler::{Heard, StartupHandler};
pub use crate::md5::{Md5Password, Md5PasswordAuthStartupHandler, md5_handlers_act};
pub use crate::negotiation::{
    ask, begin, open_login, protocol_negotiation, save_startup_parameters_to_metadata,
};
pub use crate::noop::{NoopHandler, NoopStartupHandler, noop_startup};
pub use crate::outbox::{ByteOutbox, Outbox};
pub use crate::password::{
    Challenge, PasswordMethod, PasswordStartupHandler, compare, wrong_password,
};
pub use crate::provider::{DefaultServerParameterProvider, ServerParameterProvider};
pub use crate::registers::{Managed, NoRegistry, Registers};
pub use crate::source::{AuthSource, LoginInfo, SecretSource};
pub use crate::state::{LoginState, SASLState};
