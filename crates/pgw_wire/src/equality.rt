//! What holds of the values that every layer compares.
ghost use Rattle.pgw_wire.specs.Equal.{IsExact};

use crate::framing::Framing;
use crate::params::Params;
use crate::secret_key::SecretKey;
use pgw_types::boxed::Boxed;
use pgw_types::context::{DecodeContext, ProtocolVersion};
use pgw_types::error::{ApiFault, OauthFault, OauthRefusal, PgWireError, ScramMessageFault};
use pgw_types::error_info::ErrorInfo;
use pgw_types::listed::Listed;
use pgw_types::memory::OutOfMemory;
use pgw_types::octets::Octets;
use pgw_types::scram_error::ScramFault;
use pgw_types::text::Text;

/// Two values are equal exactly where they are the same.
pub fn equality_is_exact()
    ensures text { IsExact ⟦<Text as PartialEq>⟧.eq }
    ensures octets { IsExact ⟦<Octets as PartialEq>⟧.eq }
    ensures params { IsExact ⟦<Params as PartialEq>⟧.eq }
    ensures secret_key { IsExact ⟦<SecretKey as PartialEq>⟧.eq }
    ensures error_info { IsExact ⟦<ErrorInfo as PartialEq>⟧.eq }
    ensures protocol_version { IsExact ⟦<ProtocolVersion as PartialEq>⟧.eq }
    ensures decode_context { IsExact ⟦<DecodeContext as PartialEq>⟧.eq }
    ensures framing { IsExact ⟦<Framing as PartialEq>⟧.eq }
    ensures scram_message_fault { IsExact ⟦<ScramMessageFault as PartialEq>⟧.eq }
    ensures scram_fault { IsExact ⟦<ScramFault as PartialEq>⟧.eq }
    ensures oauth_fault { IsExact ⟦<OauthFault as PartialEq>⟧.eq }
    ensures oauth_refusal { IsExact ⟦<OauthRefusal as PartialEq>⟧.eq }
    ensures api_fault { IsExact ⟦<ApiFault as PartialEq>⟧.eq }
    ensures pgwire_error { IsExact ⟦<PgWireError as PartialEq>⟧.eq }
    ensures out_of_memory { IsExact ⟦<OutOfMemory as PartialEq>⟧.eq }
{}

/// Lists and boxes of such values are equal exactly where they are the same.
pub fn equality_of_parts_is_exact<T: PartialEq>()
    requires { IsExact ⟦<T as PartialEq>⟧.eq }
    ensures listed { IsExact ⟦<Listed<T> as PartialEq>⟧.eq }
    ensures boxed { IsExact ⟦<Boxed<T> as PartialEq>⟧.eq }
{}
