//! Equality of what a client may send before its Startup, or in place of it.
ghost use Rattle.pgw_wire.specs.Equal.{IsExact};

use crate::cancel::CancelRequest;
use crate::gss_enc_request::GssEncRequest;
use crate::ssl_request::SslRequest;
use pgw_wire::equality;

/// Two messages are equal exactly where they are the same.
pub fn equality_is_exact()
    ensures ssl_request { IsExact ⟦<SslRequest as PartialEq>⟧.eq }
    ensures gss_enc_request { IsExact ⟦<GssEncRequest as PartialEq>⟧.eq }
    ensures cancel_request { IsExact ⟦<CancelRequest as PartialEq>⟧.eq }
{
    equality::equality_is_exact();
}
