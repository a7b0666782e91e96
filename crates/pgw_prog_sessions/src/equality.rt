//! Equality of what is told of a session's rows.
ghost use Rattle.pgw_wire.specs.Equal.{IsExact};

use crate::summary::GenSummary;

/// Two values are equal exactly where they are the same.
pub fn equality_is_exact()
    ensures { IsExact ⟦<GenSummary as PartialEq>⟧.eq }
{}
