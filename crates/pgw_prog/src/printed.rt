//! What the program prints.
ghost use Rattle.std.specs.Prelude.{◌≤◌};

/// A text to be written, and the status to end with.
#[derive(Drop)]
pub struct Printed {
    pub text: Vec<u8>,
    pub status: u8,
    /// What people are told of it on standard error.
    pub told: String,
    ghost bound: { status ≤ 2 },
}
