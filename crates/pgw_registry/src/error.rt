//! Why a call is refused.
ghost use Rattle.std.specs.Prelude.{◌≡◌};

use pgw_types::memory::OutOfMemory;

/// Why the registry refuses a call.
#[derive(Clone, Copy, Debug, PartialEq, Eq)]
pub enum RegistryError {
    /// There is no such handle.
    Gone,
    /// The greatest number of events stands.
    Exhausted,
    OutOfMemory,
}

impl From<OutOfMemory> for RegistryError {
    ghost use Rattle.pgw_registry.specs.declared.error.RegistryError.TheVariants as registry;

    ghost from_gives = { λ _ e. e ≡ registry.OutOfMemory };

    fn from(_: OutOfMemory) -> RegistryError {
        RegistryError::OutOfMemory
    }
}

/// Why a look tells nothing of a query.
#[derive(Clone, Copy, Debug, PartialEq, Eq)]
pub enum LookError {
    /// The query was replaced, has fired already, or is not kept.
    Canceled,
    /// The greatest number of events stands.
    Exhausted,
}

/// Why no process number was drawn.
#[derive(Clone, Copy, Debug, PartialEq, Eq)]
pub enum PidError {
    PidsExhausted,
    OutOfMemory,
}

impl From<OutOfMemory> for PidError {
    ghost use Rattle.pgw_registry.specs.declared.error.PidError.TheVariants as pid;

    ghost from_gives = { λ _ e. e ≡ pid.OutOfMemory };

    fn from(_: OutOfMemory) -> PidError {
        PidError::OutOfMemory
    }
}
