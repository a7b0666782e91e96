//! Equality of the messages of the extended query.
ghost use Rattle.pgw_wire.specs.Equal.{IsExact};

use crate::extendedquery::{Bind, Close, Describe, Execute, Parse};

/// Two messages are equal exactly where they are the same.
pub fn equality_is_exact()
    ensures parse { IsExact ⟦<Parse as PartialEq>⟧.eq }
    ensures bind { IsExact ⟦<Bind as PartialEq>⟧.eq }
    ensures close { IsExact ⟦<Close as PartialEq>⟧.eq }
    ensures describe { IsExact ⟦<Describe as PartialEq>⟧.eq }
    ensures execute { IsExact ⟦<Execute as PartialEq>⟧.eq }
{}
