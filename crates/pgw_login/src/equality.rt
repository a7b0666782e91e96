//! Equality of what is told of a client.
ghost use Rattle.pgw_wire.specs.Equal.{IsExact};

use crate::client_info::PgWireConnectionState;

/// Two values are equal exactly where they are the same.
pub fn equality_is_exact()
    ensures { IsExact ⟦<PgWireConnectionState as PartialEq>⟧.eq }
{}
