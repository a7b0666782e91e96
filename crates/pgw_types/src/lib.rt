//! The types that every layer speaks of: texts, bytes, lists, versions and errors.
//!
//! To every crate it promises that a contract sees a value as what it stands for: a `Text` as its UTF-8, `Octets` as
//! bytes, `Listed` as a list, `Boxed` as the value itself. A copy is equal, and two values are equal exactly where they
//! are the same.
#![tactic(auto)]

pub mod address;
pub mod boxed;
pub mod config_error;
pub mod context;
pub mod error;
pub mod error_info;
pub mod listed;
pub mod marks;
pub mod memory;
pub mod octets;
pub mod scram_error;
pub mod text;
mod told;

pub use crate::address::{Address, Host, HostAddr};
pub use crate::boxed::Boxed;
pub use crate::config_error::{ConfigError, ConfigResult, RefusedKey};
pub use crate::context::{DecodeContext, ProtocolVersion};
pub use crate::error::{
    ApiFault, OauthFault, OauthRefusal, PgWireError, PgWireResult, ScramMessageFault,
};
pub use crate::error_info::ErrorInfo;
pub use crate::listed::{Duplicate, Listed};
pub use crate::marks::{behind_word, cut_at, pieces_at};
pub use crate::memory::OutOfMemory;
pub use crate::octets::Octets;
pub use crate::scram_error::{ScramClientError, ScramClientResult, ScramFault};
pub use crate::text::Text;
