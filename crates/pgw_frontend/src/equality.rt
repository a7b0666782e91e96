//! Equality of a client's messages.
ghost use Rattle.pgw_wire.specs.Equal.{IsExact};

use crate::frontend::{PgWireFrontendMessage, SslNegotiationMetaMessage};
use pgw_control::terminate::MESSAGE_TYPE_BYTE_TERMINATE;
use pgw_copy::copy::MESSAGE_TYPE_BYTE_COPY_DONE;
use pgw_ext::extendedquery::{
    MESSAGE_TYPE_BYTE_FLUSH, MESSAGE_TYPE_BYTE_PORTAL_SUSPENDED, MESSAGE_TYPE_BYTE_SYNC,
};
use pgw_wire::empty::empty_equality_is_exact;

/// Two messages are equal exactly where they are the same.
pub fn equality_is_exact()
    ensures negotiation { IsExact ⟦<SslNegotiationMetaMessage as PartialEq>⟧.eq }
    ensures message { IsExact ⟦<PgWireFrontendMessage as PartialEq>⟧.eq }
{
    pgw_control::equality::equality_is_exact();
    pgw_startup::equality::equality_is_exact();
    pgw_query::equality::equality_is_exact();
    pgw_ext::equality::equality_is_exact();
    pgw_copy::equality::equality_is_exact();
    empty_equality_is_exact::<MESSAGE_TYPE_BYTE_PORTAL_SUSPENDED>();
    empty_equality_is_exact::<MESSAGE_TYPE_BYTE_FLUSH>();
    empty_equality_is_exact::<MESSAGE_TYPE_BYTE_SYNC>();
    empty_equality_is_exact::<MESSAGE_TYPE_BYTE_TERMINATE>();
    empty_equality_is_exact::<MESSAGE_TYPE_BYTE_COPY_DONE>();
}
