//! The server's side of a login by SASL: the handler, and its methods SCRAM-SHA-256 and OAUTHBEARER.
//!
//! To a server it promises what each method replies in each state, with its refusals in order, and that each call of the
//! handler is the act that its table names; after a refusal the login has failed. Of OAUTHBEARER (RFC 7628) it promises the
//! value of `auth`, the token in it, and the first fault of a client's data, by that document's form.
#![tactic(auto)]

pub mod data;
pub mod equality;
pub mod error_text;
pub mod handler;
pub mod methods;
pub mod oauth;
pub mod scram;
pub mod stored;
pub mod token;
pub mod turn;
pub mod validator;

pub use crate::data::auth_in;
pub use crate::handler::SASLAuthStartupHandler;
pub use crate::methods::{
    Method, OAUTHBEARER_METHOD, SCRAM_SHA_256_METHOD, SCRAM_SHA_256_PLUS_METHOD, unsupported,
};
pub use crate::oauth::Oauth;
pub use crate::scram::{ScramAuth, ScramSource};
pub use crate::stored::Secrets;
pub use crate::token::token_in;
pub use crate::turn::{Stage, begun, is_finished, is_initial, stage_of, turned};
pub use crate::validator::{OauthValidator, ValidatorModuleResult};
