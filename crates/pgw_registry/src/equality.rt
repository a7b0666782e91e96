//! Equality of answers, and of the parts of the registry's state.
ghost use Rattle.pgw_wire.specs.Equal.{IsExact};

use crate::call::{Handle, Phase};
use crate::error::{LookError, PidError, RegistryError};

/// Two values are equal exactly where they are the same.
pub fn equality_is_exact()
    ensures phase { IsExact ⟦<Phase as PartialEq>⟧.eq }
    ensures handle { IsExact ⟦<Handle as PartialEq>⟧.eq }
    ensures registry_error { IsExact ⟦<RegistryError as PartialEq>⟧.eq }
    ensures look_error { IsExact ⟦<LookError as PartialEq>⟧.eq }
    ensures pid_error { IsExact ⟦<PidError as PartialEq>⟧.eq }
{}
