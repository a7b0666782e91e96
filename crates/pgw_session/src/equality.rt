//! Equality of what a segment and a message are to the table of requests.
ghost use Rattle.pgw_wire.specs.Equal.{IsExact};

use crate::stage::{Kind, Role};

/// Two values are equal exactly where they are the same.
pub fn equality_is_exact()
    ensures kind { IsExact ⟦<Kind as PartialEq>⟧.eq }
    ensures role { IsExact ⟦<Role as PartialEq>⟧.eq }
{}
