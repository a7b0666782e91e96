//! Equality of faults, of why a dial failed, and of timeouts.
ghost use Rattle.pgw_wire.specs.Equal.{IsExact};

use crate::dialer::DialError;
use crate::link::LinkFault;
use crate::socket_dialer::Timeouts;
use crate::stream::{SinkFault, SourceFault};

/// Two values are equal exactly where they are the same.
pub fn equality_is_exact()
    ensures link_fault { IsExact ⟦<LinkFault as PartialEq>⟧.eq }
    ensures source_fault { IsExact ⟦<SourceFault as PartialEq>⟧.eq }
    ensures sink_fault { IsExact ⟦<SinkFault as PartialEq>⟧.eq }
    ensures dial_error { IsExact ⟦<DialError as PartialEq>⟧.eq }
    ensures timeouts { IsExact ⟦<Timeouts as PartialEq>⟧.eq }
{}
