//! Equality of why a text is no script, and of the kinds of lines.
ghost use Rattle.pgw_wire.specs.Equal.{IsExact};

use crate::lines::ScriptFault;
use crate::pair_script::PairPlace;
use crate::pool_script::PoolPlace;
use crate::relay_script::RelayPlace;
use crate::script::Place;

/// Two values are equal exactly where they are the same.
pub fn equality_is_exact()
    ensures script_fault { IsExact ⟦<ScriptFault as PartialEq>⟧.eq }
    ensures place { IsExact ⟦<Place as PartialEq>⟧.eq }
    ensures pair_place { IsExact ⟦<PairPlace as PartialEq>⟧.eq }
    ensures relay_place { IsExact ⟦<RelayPlace as PartialEq>⟧.eq }
    ensures pool_place { IsExact ⟦<PoolPlace as PartialEq>⟧.eq }
{}
