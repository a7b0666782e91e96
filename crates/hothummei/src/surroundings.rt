//! The places that a connection text and the variables name.

use crate::credentials::look_up;
use pgw_backend::client_error::PgWireClientError;
use pgw_config::config::Config;
use pgw_config_environment::places::places_of;
use pgw_config_environment::variables::Variables;
use pgw_types::listed::Listed;
use pgw_types::memory::OutOfMemory;
use pgw_types::text::Text;
use std::env;
use std::env::VarError;

/// Why no places are named.
#[derive(Drop)]
pub enum NoPlaces {
    Memory,
    Refused(PgWireClientError),
    /// A variable that is set, and is not UTF-8.
    NotText(&'static str),
    /// The hosts, addresses and ports are not as many.
    Uneven,
}

impl From<OutOfMemory> for NoPlaces {
    ghost use Rattle.std.specs.Prelude.{◌≡◌};
    ghost use Rattle.hothummei.specs.declared.surroundings.NoPlaces.TheVariants.{Memory as NoMemory};

    ghost from_gives = { λ _ e. e ≡ NoMemory };

    fn from(_e: OutOfMemory) -> NoPlaces {
        NoPlaces::Memory
    }
}

/// A variable, where it is set.
pub fn variable(rt: &HostRuntime, name: &'static str) -> Result<Option<Text>, NoPlaces> {
    match env::var(rt, name) {
        Ok(value) => Ok(Some(Text::from_string(value))),
        Err(VarError::NotPresent) => Ok(None),
        Err(VarError::OutOfMemory) => Err(NoPlaces::Memory),
        Err(_) => Err(NoPlaces::NotText(name)),
    }
}

fn variables(rt: &HostRuntime) -> Result<Variables, NoPlaces> {
    Ok(Variables {
        host: variable(rt, "PGHOST")?,
        hostaddr: variable(rt, "PGHOSTADDR")?,
        port: variable(rt, "PGPORT")?,
        user: variable(rt, "PGUSER")?,
        database: variable(rt, "PGDATABASE")?,
        password: variable(rt, "PGPASSWORD")?,
        application_name: variable(rt, "PGAPPNAME")?,
        sslmode: variable(rt, "PGSSLMODE")?,
        channel_binding: variable(rt, "PGCHANNELBINDING")?,
        connect_timeout: variable(rt, "PGCONNECT_TIMEOUT")?,
        target_session_attrs: variable(rt, "PGTARGETSESSIONATTRS")?,
    })
}

fn parsed(rt: &HostRuntime, text: &str) -> Result<Config, NoPlaces> {
    match Config::parse(rt.alloc(), text) {
        Ok(config) => Ok(config),
        Err(error) => Err(NoPlaces::Refused(PgWireClientError::from(error))),
    }
}

// The configuration of a text: that of the variables where it is -.
fn configuration(rt: &HostRuntime, text: &str) -> Result<Config, NoPlaces> {
    if text == "-" {
        let variables = variables(rt)?;
        let text = variables.text(rt.alloc())?;
        parsed(rt, text.as_str())
    } else {
        parsed(rt, text)
    }
}

/// The configuration of each place that a text and the variables name, with the password of a file where they give none.
pub fn places(
    rt: &HostRuntime,
    text: &str,
    passfile: Option<&Text>,
) -> Result<Listed<Config>, NoPlaces> {
    let config = configuration(rt, text)?;
    match places_of(rt.alloc(), &config)? {
        Some(configs) if config.get_password().is_some() => Ok(configs),
        Some(configs) => look_up(rt, passfile, configs),
        None => Err(NoPlaces::Uneven),
    }
}
