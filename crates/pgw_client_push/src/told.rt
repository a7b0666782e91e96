//! What a client tells of itself.
ghost use Rattle.std.specs.Prelude.{◌≡◌};
ghost use Rattle.pgw_client_push.specs.Told.{config_of, push_standing};

use crate::client::PushClient;
use pgw_config::config::Config;
use pgw_session::standing::Standing;

impl PushClient {
    /// What it was told of its connection.
    pub fn told(&self) -> &Standing
        ensures { result.now ≡ push_standing self.now }
    {
        &self.notes.standing
    }

    /// The configuration that it logs in by.
    pub fn config(&self) -> &Config
        ensures { result.now ≡ config_of self.now }
    {
        &self.config
    }
}
