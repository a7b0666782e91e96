//! Equality of what a schedule says.
ghost use Rattle.pgw_wire.specs.Equal.{IsExact};

use pgw_machine::event::Event;

/// Two values are equal exactly where they are the same.
pub fn equality_is_exact()
    ensures { IsExact ⟦<Event as PartialEq>⟧.eq }
{}
