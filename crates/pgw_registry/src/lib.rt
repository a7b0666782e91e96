//! Which query of which connection is to be canceled, and the process numbers of connections.
//!
//! To a server it promises that each answer and each change is the sequential registry's, of the registry that threads
//! share at its place in one legal history. Once all passes have met, it has no events but their
//! calls. Of the process numbers it promises that no seat draws one twice, nor two seats that meet one and the same.
#![tactic(auto)]

pub mod call;
pub mod equality;
pub mod error;
pub mod generator;
mod held;
pub mod key;
pub mod laws;
pub mod manager;
mod numbered;
mod numbers;
mod pairs;
pub mod registry;
mod share;
mod sight;
mod turn;

pub use crate::call::{Call, Entry, Handle, Phase, Reply};
pub use crate::error::{LookError, PidError, RegistryError};
pub use crate::generator::{MOST, PidSeat, PidSecretKeyGenerator, RandomPidSecretKeyGenerator};
pub use crate::key::key_for;
pub use crate::manager::{CancelToken, ConnectionGuard, ConnectionHandle, ConnectionManager, Pass};
pub use crate::registry::Registry;
