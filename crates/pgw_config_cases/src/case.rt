//! One case: what is asked for, and a text.

use crate::fields::fields_shown;
use crate::parts::parts_shown;
use anyhow::{Context, Result, bail};
use pgw_config::address::Address;
use pgw_config::config::Config;
use pgw_config::error::ConfigError;
use std::alloc::Global;

fn refusal_shown(alloc: Global, refusal: &ConfigError) -> Result<String> {
    match refusal {
        ConfigError::InvalidConfig(key) => {
            Ok(format!(in alloc; "InvalidConfig {}", key.as_str())?)
        }
        ConfigError::UnknownConfig(key) => {
            Ok(format!(in alloc; "UnknownConfig {}", key.as_str())?)
        }
        ConfigError::InvalidUtf8ConfigValue(bytes) => {
            Ok(format!(in alloc; "InvalidUtf8ConfigValue {:?}", bytes.as_slice())?)
        }
        ConfigError::OutOfMemory => bail!("out of memory"),
    }
}

fn address_shown(alloc: Global, address: &Address) -> Result<String> {
    match address {
        Address::Ip(address, port) => Ok(format!(in alloc; "{address:?}, port {port}")?),
        Address::Host(name, port) => {
            Ok(format!(in alloc; "host {}, port {port}", name.as_str())?)
        }
        Address::Unix(path) => Ok(format!(in alloc; "file {}", path.as_str())?),
    }
}

// The fields that a text gives, or why it is refused.
fn config_of(alloc: Global, text: &str) -> Result<String> {
    match Config::parse(alloc, text) {
        Ok(config) => fields_shown(alloc, &config),
        Err(refusal) => refusal_shown(alloc, &refusal),
    }
}

// Where a client of this configuration connects to.
fn address_of(alloc: Global, config: &Config) -> Result<String> {
    match config.address(alloc) {
        Ok(address) => address_shown(alloc, &address),
        Err(refusal) => refusal_shown(alloc, &refusal),
    }
}

// Where it connects to, with this directory of a Unix socket.
fn socket_in(alloc: Global, directory: &str) -> Result<String> {
    let mut config = Config::new(alloc);
    config.host_path(alloc, directory)?;
    address_of(alloc, &config)
}

// How the password stands in a configuration that is printed.
fn password_shown(alloc: Global, config: &Config) -> Result<String> {
    let shown = format!(in alloc; "{config:?}")?;
    let (_, rest) = shown
        .as_str()
        .split_once("password: ")
        .context("no password")?;
    let (password, _) = rest.split_once(", dbname").context("no dbname")?;
    Ok(String::from_str(alloc, password)?)
}

/// The answer to a line.
pub fn answer_of(alloc: Global, line: &str) -> Result<String> {
    let (question, text) = line.split_once(' ').unwrap_or((line, ""));
    match question {
        "parts" => parts_shown(alloc, text),
        "parts-hex" => {
            let text = String::from_utf8(hex::decode(alloc, text)?)?;
            parts_shown(alloc, text.as_str())
        }
        "config" => config_of(alloc, text),
        "address" => address_of(alloc, &Config::parse(alloc, text)?),
        "socket" => socket_in(alloc, text),
        "password" => password_shown(alloc, &Config::parse(alloc, text)?),
        _ => bail!("no question {question}"),
    }
}
