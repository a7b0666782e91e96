//! Equality of a server's messages.
ghost use Rattle.pgw_wire.specs.Equal.{IsExact};

use crate::backend::PgWireBackendMessage;
use pgw_copy::copy::{
    MESSAGE_TYPE_BYTE_COPY_BOTH_RESPONSE, MESSAGE_TYPE_BYTE_COPY_DONE,
    MESSAGE_TYPE_BYTE_COPY_IN_RESPONSE, MESSAGE_TYPE_BYTE_COPY_OUT_RESPONSE,
};
use pgw_ext::extendedquery::{
    MESSAGE_TYPE_BYTE_BIND_COMPLETE, MESSAGE_TYPE_BYTE_CLOSE_COMPLETE,
    MESSAGE_TYPE_BYTE_PARSE_COMPLETE, MESSAGE_TYPE_BYTE_PORTAL_SUSPENDED,
};
use pgw_query::{
    MESSAGE_TYPE_BYTE_EMPTY_QUERY_RESPONSE, MESSAGE_TYPE_BYTE_ERROR_RESPONSE,
    MESSAGE_TYPE_BYTE_NO_DATA, MESSAGE_TYPE_BYTE_NOTICE_RESPONSE,
};
use pgw_startup::response::{BYTE_ACCEPT_GSS_ENC, BYTE_ACCEPT_SSL};
use pgw_wire::empty::empty_equality_is_exact;

/// Two values are equal exactly where they are the same.
pub fn equality_is_exact()
    ensures { IsExact ⟦<PgWireBackendMessage as PartialEq>⟧.eq }
{
    pgw_startup::equality::equality_is_exact();
    pgw_startup::equality::encryption_equality_is_exact::<BYTE_ACCEPT_SSL>();
    pgw_startup::equality::encryption_equality_is_exact::<BYTE_ACCEPT_GSS_ENC>();
    pgw_query::equality::equality_is_exact();
    pgw_query::equality::info_equality_is_exact::<MESSAGE_TYPE_BYTE_ERROR_RESPONSE>();
    pgw_query::equality::info_equality_is_exact::<MESSAGE_TYPE_BYTE_NOTICE_RESPONSE>();
    pgw_copy::equality::equality_is_exact();
    pgw_copy::equality::response_equality_is_exact::<MESSAGE_TYPE_BYTE_COPY_IN_RESPONSE>();
    pgw_copy::equality::response_equality_is_exact::<MESSAGE_TYPE_BYTE_COPY_OUT_RESPONSE>();
    pgw_copy::equality::response_equality_is_exact::<MESSAGE_TYPE_BYTE_COPY_BOTH_RESPONSE>();
    empty_equality_is_exact::<MESSAGE_TYPE_BYTE_PARSE_COMPLETE>();
    empty_equality_is_exact::<MESSAGE_TYPE_BYTE_BIND_COMPLETE>();
    empty_equality_is_exact::<MESSAGE_TYPE_BYTE_CLOSE_COMPLETE>();
    empty_equality_is_exact::<MESSAGE_TYPE_BYTE_PORTAL_SUSPENDED>();
    empty_equality_is_exact::<MESSAGE_TYPE_BYTE_EMPTY_QUERY_RESPONSE>();
    empty_equality_is_exact::<MESSAGE_TYPE_BYTE_NO_DATA>();
    empty_equality_is_exact::<MESSAGE_TYPE_BYTE_COPY_DONE>();
}
