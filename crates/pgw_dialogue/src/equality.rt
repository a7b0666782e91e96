//! Equality of how far a dialogue has come.
ghost use Rattle.pgw_wire.specs.Equal.{IsExact};

use crate::phase::DialoguePhase;

/// Two values are equal exactly where they are the same.
pub fn equality_is_exact()
    ensures { IsExact ⟦<DialoguePhase as PartialEq>⟧.eq }
{}
