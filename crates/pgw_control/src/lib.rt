//! What a client may send in place of a Startup, and its last message.
//!
//! To the enum of a client's messages, and to a server's login, it promises that each message here is its row of the
//! message table, and which code stands at the front of a packet without a type byte.
#![tactic(auto)]

pub mod cancel;
pub mod equality;
pub mod gss_enc_request;
pub mod laws;
mod packet;
pub mod ssl_request;
pub mod terminate;

pub use crate::cancel::CancelRequest;
pub use crate::gss_enc_request::GssEncRequest;
pub use crate::ssl_request::SslRequest;
pub use crate::terminate::{MESSAGE_TYPE_BYTE_TERMINATE, Terminate};
