//! Why a configuration is refused.

pub use pgw_types::config_error::{ConfigError, ConfigResult};
