//! What a configuration demands that this client can't do.
ghost use Rattle.pgw_session.specs.Demands.{refused_config};
ghost use Rattle.pgw_dialogue.specs.Demands.{IsInvalidConfig, ChecksDemand};

use pgw_backend::client_error::{PgWireClientError, PgWireClientResult};
use pgw_config::config::{ChannelBinding, Config, SslMode};
use pgw_types::text::Text;
use std::alloc::Global;

// The error that names a key.
fn invalid_config(alloc: Global, key: &str) -> PgWireClientError
    ensures { IsInvalidConfig key.now result }
{
    match Text::from_str(alloc, key) {
        Ok(key) => PgWireClientError::InvalidConfig(key),
        Err(_) => PgWireClientError::OutOfMemory,
    }
}

/// Refuses a configuration that demands an encrypted connection, or a login that is bound where no hash of a
/// certificate is given.
pub fn check_config(alloc: Global, config: &Config) -> PgWireClientResult<()>
    ensures { ChecksDemand (refused_config config.now) result }
{
    match config.ssl_mode {
        SslMode::Require => return Err(invalid_config(alloc, "sslmode")),
        SslMode::Disable | SslMode::Prefer => {}
    }
    match config.channel_binding {
        ChannelBinding::Require => match &config.certificate_hash {
            None => Err(invalid_config(alloc, "channel_binding")),
            Some(_) => Ok(()),
        },
        ChannelBinding::Disable | ChannelBinding::Prefer => Ok(()),
    }
}
