//! The messages of the startup phase.
//!
//! To the enums of all messages it promises that each message here is its row of the message table: what is read of it,
//! what is written, and each refusal in order; and which version a server offers.
#![tactic(auto)]

pub mod authentication;
pub mod backend_key_data;
pub mod client_laws;
pub mod equality;
pub mod laws;
pub mod negotiate;
pub mod parameter_status;
pub mod password;
pub mod response;
pub mod sasl;
pub mod startup;

pub use crate::authentication::{Authentication, MESSAGE_TYPE_BYTE_AUTHENTICATION};
pub use crate::backend_key_data::{BackendKeyData, MESSAGE_TYPE_BYTE_BACKEND_KEY_DATA};
pub use crate::negotiate::{
    MESSAGE_TYPE_BYTE_NEGOTIATE_PROTOCOL_VERSION, NegotiateProtocolVersion, negotiated_version,
};
pub use crate::parameter_status::{MESSAGE_TYPE_BYTE_PARAMETER_STATUS, ParameterStatus};
pub use crate::password::{
    MESSAGE_TYPE_BYTE_PASSWORD_MESSAGE_FAMILY, Password, PasswordMessageFamily,
};
pub use crate::response::{
    BYTE_ACCEPT_GSS_ENC, BYTE_ACCEPT_SSL, EncryptionResponse, GssEncResponse, SslResponse,
};
pub use crate::sasl::{SASLInitialResponse, SASLResponse, read_initial_response, read_response};
pub use crate::startup::Startup;
