//! A client of a PostgreSQL server under tokio, over any stream that may keep one waiting.
//!
//! `session` holds a session whose requests are known before, and is a future. To a caller it promises what `run_session`
//! promises, over the calls that were made of the stream, as its own members tell them.
//!
//! `log_in` leads to an `AsyncClient`, which is asked one request at a time. Of each request it promises that its answer
//! is the last of a session with all requests asked so far, of the bytes that the stream gave and those written to it; or
//! why there is none. `cancel` asks the server to cancel one, over a stream of its own.
//!
//! A call of the stream that failed is IoError, with the stream's own error kept beside it. A pending poll has registered
//! where it waits.
#![tactic(auto)]

pub mod asking;
pub mod calling;
pub mod client;
pub mod closing;
pub mod engine;
pub mod holding;
pub mod login;
pub mod sending;
pub mod sockets;

pub use crate::asking::{Answered, Asking};
pub use crate::calling::ClientEngine;
pub use crate::client::AsyncClient;
pub use crate::closing::cancel;
pub use crate::engine::SessionEngine;
pub use crate::holding::{Ended, SessionFuture, session};
pub use crate::login::{LoggingIn, NotLoggedIn, log_in};
pub use crate::sending::{Sending, Sent, Silent};
pub use crate::sockets::{Connecting, connect};
