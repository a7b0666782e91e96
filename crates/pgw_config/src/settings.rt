//! What the parts of a connection text do to a configuration.
ghost use Rattle.std.specs.Prelude.{◌≡◌, Ok, Err, Some, None, IfOk, OnOk, IfErr, if◌then◌else◌};
ghost use Rattle.pgw_config.specs.Answers.{IsConfigAnswer, IsUnknown};
ghost use Rattle.pgw_config.specs.Settings.{with_text, value_set, pair_set, applied, all_applied};

use crate::address::invalid;
use crate::choices::choose;
use crate::config::Config;
use crate::keys::{Key, TextKey, key_named};
use crate::lists::{extend, named_host};
use crate::numbers::count;
use pgw_config_text::part::Part;
use pgw_types::config_error::{ConfigError, ConfigResult};
use pgw_types::listed::Duplicate;
use pgw_types::memory::OutOfMemory;
use pgw_types::text::Text;
use std::alloc::Global;

fn unknown(alloc: Global, key: &str) -> ConfigError
    ensures { IsUnknown key.now result }
{
    match Text::from_str(alloc, key) {
        Ok(key) => ConfigError::UnknownConfig(key),
        Err(_) => ConfigError::OutOfMemory,
    }
}

fn write_text(
    alloc: Global,
    config: &mut Config,
    key: TextKey,
    value: &str,
) -> Result<(), OutOfMemory>
    ensures { OnOk result (config.new ≡ with_text config.old key value.now) }
{
    match key {
        TextKey::User => config.set_user(alloc, value),
        TextKey::Password => config.set_password(alloc, value.as_bytes()),
        TextKey::Dbname => config.set_dbname(alloc, value),
        TextKey::Options => config.set_options(alloc, value),
        TextKey::ApplicationName => config.set_application_name(alloc, value),
    }
}

// Sets a value, where the key takes it. Whether it does.
fn set_value(alloc: Global, config: &mut Config, key: Key, value: &str) -> Result<bool, OutOfMemory>
    ensures { IfOk result (λ taken. value_set config.old key value.now
        ≡ (if taken then Some config.new else None)) }
{
    match key {
        Key::Text(key) => {
            write_text(alloc, config, key, value)?;
            Ok(true)
        }
        Key::Choice(key) => Ok(choose(config, key, value)),
        Key::List(key) => extend(alloc, config, key, value),
        Key::Number(key) => Ok(count(config, key, value)),
    }
}

fn set_pair(alloc: Global, config: &mut Config, name: &str, value: &str) -> ConfigResult<()>
    ensures set { OnOk result (pair_set config.old name.now value.now ≡ Ok config.new) }
    ensures refused { IfErr result (λ e. IsConfigAnswer (Err e)
        (pair_set config.old name.now value.now)) }
{
    let Some(key) = key_named(name) else {
        return Err(unknown(alloc, name));
    };
    if set_value(alloc, config, key, value)? {
        Ok(())
    } else {
        Err(invalid(alloc, name))
    }
}

fn apply(alloc: Global, config: &mut Config, part: &Part) -> ConfigResult<()>
    ensures set { OnOk result (applied config.old part.now ≡ Ok config.new) }
    ensures refused { IfErr result (λ e. IsConfigAnswer (Err e) (applied config.old part.now)) }
{
    match part {
        Part::Pair(key, value) => set_pair(alloc, config, key.as_str(), value.as_str()),
        Part::Host(name) => {
            config.host.push(named_host(name.duplicate()?))?;
            Ok(())
        }
        Part::Password(password) => {
            config.password = Some(password.duplicate()?);
            Ok(())
        }
    }
}

/// The configuration after these parts, from the first on, or the refusal of the first faulty one.
pub(crate) fn apply_all(alloc: Global, config: Config, parts: &[Part]) -> ConfigResult<Config>
    ensures { IsConfigAnswer result (all_applied config parts.now) }
{
    let mut config = config;
    for part in parts {
        apply(alloc, &mut config, part)?;
    }
    Ok(config)
}
