//! Why a configuration is refused.
ghost use Rattle.std.specs.Prelude.{◌≡◌};
ghost use Rattle.pgw_types.specs.declared.config_error.ConfigError.TheVariants as config;

use crate::memory::OutOfMemory;
use crate::octets::Octets;
use crate::text::Text;
use std::alloc::{AllocError, AllocFailed};
use std::error::Error;
use std::fmt;

/// Why a configuration is refused.
#[derive(Debug, Drop)]
pub enum ConfigError {
    /// The key whose value does not do.
    InvalidConfig(Text),
    /// The key, which is none.
    UnknownConfig(Text),
    /// What a value's escapes stand for. It may be a password, so Display tells its length alone.
    InvalidUtf8ConfigValue(Octets),
    OutOfMemory,
}

pub type ConfigResult<T> = Result<T, ConfigError>;

/// A key by which a configuration is refused, told with what is wrong.
#[derive(Clone, Copy, Drop)]
pub struct RefusedKey<'a>(pub &'a str);

// What is wrong where a configuration is refused by this key.
fn key_fault(key: &str) -> &'static str {
    match key {
        "syntax" => "the connection text has a part that is no key with a value",
        "sslmode" => {
            "the value of sslmode is unknown or not supported: no connection is ever encrypted"
        }
        "channel_binding" => {
            "the value of channel_binding is unknown, or it demands a bound login and no certificate's hash is given"
        }
        "user" => "the user name has no form for a SCRAM login",
        "host" => "no host and no address is given, or one is not well-formed",
        _ => "a value of the configuration is not one that its key takes",
    }
}

impl<'a> fmt::Display for RefusedKey<'a> {
    fn fmt<W: fmt::Write>(&self, f: &mut fmt::Formatter<W>) -> fmt::Result {
        let key = self.0;
        let fault = key_fault(key);
        write!(f, "`{key}`: {fault}")
    }
}

impl fmt::Display for ConfigError {
    fn fmt<W: fmt::Write>(&self, f: &mut fmt::Formatter<W>) -> fmt::Result {
        match self {
            ConfigError::InvalidConfig(key) => write!(f, "{}", RefusedKey(key.as_str())),
            ConfigError::UnknownConfig(key) => write!(f, "unknown configuration key `{key}`"),
            ConfigError::InvalidUtf8ConfigValue(bytes) => {
                let len = bytes.len();
                write!(
                    f,
                    "a value of the configuration is not UTF-8; its length in bytes is {len}"
                )
            }
            ConfigError::OutOfMemory => f.write_str("out of memory"),
        }
    }
}

impl Error for ConfigError {}

impl From<OutOfMemory> for ConfigError {
    ghost from_gives = { λ _ e. e ≡ config.OutOfMemory };

    fn from(_e: OutOfMemory) -> ConfigError {
        ConfigError::OutOfMemory
    }
}

impl From<AllocError> for ConfigError {
    ghost from_gives = { λ _ e. e ≡ config.OutOfMemory };

    fn from(_e: AllocError) -> ConfigError {
        ConfigError::OutOfMemory
    }
}

impl<T: Drop> From<AllocFailed<T>> for ConfigError {
    ghost from_gives = { λ _ e. e ≡ config.OutOfMemory };

    fn from(_e: AllocFailed<T>) -> ConfigError {
        ConfigError::OutOfMemory
    }
}
