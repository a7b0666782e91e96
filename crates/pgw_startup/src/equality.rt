//! Equality of the startup phase's messages.
ghost use Rattle.pgw_wire.specs.Equal.{IsExact};

use crate::authentication::Authentication;
use crate::backend_key_data::BackendKeyData;
use crate::negotiate::NegotiateProtocolVersion;
use crate::parameter_status::ParameterStatus;
use crate::password::{Password, PasswordMessageFamily};
use crate::response::EncryptionResponse;
use crate::sasl::{SASLInitialResponse, SASLResponse};
use crate::startup::Startup;
use pgw_wire::equality;

/// Two messages are equal exactly where they are the same.
pub fn equality_is_exact()
    ensures authentication { IsExact ⟦<Authentication as PartialEq>⟧.eq }
    ensures parameter_status { IsExact ⟦<ParameterStatus as PartialEq>⟧.eq }
    ensures negotiate_protocol_version { IsExact ⟦<NegotiateProtocolVersion as PartialEq>⟧.eq }
    ensures password { IsExact ⟦<Password as PartialEq>⟧.eq }
    ensures sasl_initial_response { IsExact ⟦<SASLInitialResponse as PartialEq>⟧.eq }
    ensures sasl_response { IsExact ⟦<SASLResponse as PartialEq>⟧.eq }
    ensures password_message_family { IsExact ⟦<PasswordMessageFamily as PartialEq>⟧.eq }
    ensures backend_key_data { IsExact ⟦<BackendKeyData as PartialEq>⟧.eq }
    ensures startup { IsExact ⟦<Startup as PartialEq>⟧.eq }
{
    equality::equality_is_exact();
}

/// Two answers to a request for encryption are equal exactly where they are the same.
pub fn encryption_equality_is_exact<const ACCEPT: u8>()
    ensures { IsExact ⟦<EncryptionResponse<ACCEPT> as PartialEq>⟧.eq }
{}
