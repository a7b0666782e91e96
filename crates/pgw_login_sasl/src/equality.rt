//! Equality of methods, and of what a message is to a login.
ghost use Rattle.pgw_wire.specs.Equal.{IsExact};

use crate::methods::Method;
use crate::turn::Stage;

/// Two values are equal exactly where they are the same.
pub fn equality_is_exact()
    ensures method { IsExact ⟦<Method as PartialEq>⟧.eq }
    ensures stage { IsExact ⟦<Stage as PartialEq>⟧.eq }
{}
