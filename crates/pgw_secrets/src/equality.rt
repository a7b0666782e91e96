//! Equality of why a text is no secret.
ghost use Rattle.pgw_wire.specs.Equal.{IsExact};

use crate::secret::SecretFault;

/// Two values are equal exactly where they are the same.
pub fn equality_is_exact()
    ensures { IsExact ⟦<SecretFault as PartialEq>⟧.eq }
{}
