//! Equality of why a source was not read, and of why nothing is printed.
ghost use Rattle.pgw_wire.specs.Equal.{IsExact};

use crate::program::Stop;
use crate::transfer::ReadFault;

/// Two values are equal exactly where they are the same.
pub fn equality_is_exact()
    ensures read_fault { IsExact ⟦<ReadFault as PartialEq>⟧.eq }
    ensures stop { IsExact ⟦<Stop as PartialEq>⟧.eq }
{}
