//! SCRAM-SHA-256 (RFC 5802, RFC 7677): its messages, what it computes, and both ends of an exchange.
//!
//! To both ends of a login it promises the parts of each message by RFC 5802's forms, proof and signature over the
//! texts as they were exchanged, each step's refusals in order, and that honest ends accept one another.
#![tactic(auto)]

mod attributes;
pub mod binding;
pub mod client;
mod code;
mod encoding;
pub mod equality;
pub mod exchange;
pub mod laws;
pub mod messages;
pub mod nonce;
pub mod offer;
pub mod password;
pub mod proof;
pub mod server;

pub use crate::binding::ClientBinding;
pub use crate::client::{
    ScramClientAuth, ScramClientAuthWaitingForServerFinal, ScramClientAuthWaitingForServerFirst,
};
pub use crate::exchange::{
    ClientLogin, ClientReply, client_final, client_first, client_first_bare,
};
pub use crate::messages::{ClientFinal, ClientFirst, ServerFinal, ServerFirst};
pub use crate::nonce::random_nonce;
pub use crate::offer::{Offer, is_bound, is_misbound, server_final, server_first, whole_nonce};
pub use crate::password::Password;
pub use crate::proof::{
    client_key, client_proof, client_signature, proof_by, server_key, server_signature,
    signature_by,
};
pub use crate::server::{SCRAM_ITERATIONS, ScramServerAuth, ScramServerAuthWaitingForClientFinal};
