//! Equality of the messages of SCRAM.
ghost use Rattle.pgw_wire.specs.Equal.{IsExact};

use crate::messages::{ClientFinal, ClientFirst, ServerFinal, ServerFirst};

/// Two values are equal exactly where they are the same.
pub fn equality_is_exact()
    ensures client_first { IsExact ⟦<ClientFirst as PartialEq>⟧.eq }
    ensures server_first { IsExact ⟦<ServerFirst as PartialEq>⟧.eq }
    ensures client_final { IsExact ⟦<ClientFinal as PartialEq>⟧.eq }
    ensures server_final { IsExact ⟦<ServerFinal as PartialEq>⟧.eq }
{}
