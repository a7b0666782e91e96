//! Where a configuration connects to.
ghost use Rattle.std.specs.Prelude.{◌≡◌, IfOk};
ghost use Rattle.pgw_config.specs.Address.{first_port, socket, address_of};
ghost use Rattle.pgw_config.specs.Answers.{IsConfigAnswer, IsInvalid};

use crate::config::{Config, Host};
pub use pgw_types::address::Address;
use pgw_types::config_error::{ConfigError, ConfigResult};
use pgw_types::listed::Duplicate;
use pgw_types::memory::OutOfMemory;
use pgw_types::text::Text;
use std::alloc::Global;

/// The error of a key whose value does not do.
pub(crate) fn invalid(alloc: Global, key: &str) -> ConfigError
    ensures { IsInvalid key.now result }
{
    match Text::from_str(alloc, key) {
        Ok(key) => ConfigError::InvalidConfig(key),
        Err(_) => ConfigError::OutOfMemory,
    }
}

fn socket_in(alloc: Global, directory: &str, port: u16) -> Result<Text, OutOfMemory>
    ensures { IfOk result (λ file. file ≡ socket directory.now port) }
{
    let closed = directory.is_empty() || directory.as_bytes().last() == Some(&b'/');
    let slash = if closed { "" } else { "/" };
    let file = format!(in alloc; "{directory}{slash}.s.PGSQL.{port}")?;
    Ok(Text::from_string(file))
}

impl Config {
    fn first_port(&self) -> u16
        ensures { result ≡ first_port self.now.port }
    {
        match self.port.as_slice() {
            [port, ..] => *port,
            [] => 5432,
        }
    }

    /// The first address and the first port, else the first host and the first port, else
    /// `InvalidConfig("host")`.
    pub fn address(&self, alloc: Global) -> ConfigResult<Address>
        ensures { IsConfigAnswer result (address_of self.now) }
    {
        let port = self.first_port();
        if let [addr, ..] = self.hostaddr.as_slice() {
            return Ok(Address::Ip(*addr, port));
        }
        match self.host.as_slice() {
            [Host::Tcp(name), ..] => Ok(Address::Host(name.duplicate()?, port)),
            [Host::Unix(path), ..] => Ok(Address::Unix(socket_in(alloc, path.as_str(), port)?)),
            [] => Err(invalid(alloc, "host")),
        }
    }
}
