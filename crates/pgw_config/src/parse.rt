//! Connection texts.
ghost use Rattle.std.specs.Prelude.{Result, Err, Some, IfOk};
ghost use Rattle.pgw_types.specs.declared.config_error.ConfigError.{ConfigError as TheError};
ghost use Rattle.pgw_config.specs.Answers.{IsConfigAnswer};
ghost use Rattle.pgw_config.specs.Parse.{parse_result, outcome_of, HasOutcome, IsParsed};
ghost use Rattle.pgw_config_text.specs.Text.{HasCut};
ghost use Rattle.pgw_config_text.specs.declared.part.Cut.{Cut as TheCut};
ghost use Rattle.pgw_config.specs.Given.{GivesConfig};
ghost use Rattle.pgw_config.specs.declared.config.Config.{Config as TheConfig};

use crate::address::invalid;
use crate::config::Config;
use crate::settings::apply_all;
use pgw_config_text::part::{Cut, Fault};
use pgw_config_text::text;
use pgw_types::config_error::{ConfigError, ConfigResult};
use std::alloc::Global;

fn refusal(alloc: Global, fault: Fault) -> ConfigError
    ensures { (config : TheConfig) → IsConfigAnswer (Err result)
        (parse_result (Some fault) config) }
{
    match fault {
        Fault::Syntax => invalid(alloc, "syntax"),
        Fault::Host => invalid(alloc, "host"),
        Fault::NotUtf8(bytes) => ConfigError::InvalidUtf8ConfigValue(bytes),
    }
}

fn end_at(alloc: Global, fault: Option<Fault>, config: Config) -> ConfigResult<Config>
    ensures { IsConfigAnswer result (parse_result fault config) }
{
    match fault {
        None => Ok(config),
        Some(fault) => Err(refusal(alloc, fault)),
    }
}

fn apply(alloc: Global, cut: Cut) -> ConfigResult<Config>
    ensures { IsConfigAnswer result (outcome_of cut) }
{
    let config = apply_all(alloc, Config::new(alloc), cut.parts.as_slice())?;
    end_at(alloc, cut.fault, config)
}

impl Config {
    /// The configuration that a connection text writes: keys and values, as `user=bob dbname='a b'`, or a URL, as
    /// `postgres://bob@db.example:5433/sales?connect_timeout=10`.
    ///
    /// `InvalidConfig` names the key whose value does not do, `syntax` where the form is wrong; `UnknownConfig` names a
    /// key that is none; `InvalidUtf8ConfigValue` has the bytes that escapes of a URL stand for.
    pub fn parse(alloc: Global, text: &str) -> ConfigResult<Config>
        ensures parsed { IsParsed text.now result }
        // A text has one outcome.
        ensures only { (outcome : Result TheConfig TheError) → HasOutcome text.now outcome →
            IsConfigAnswer result outcome }
        // Of each key the last value counts, of a time the last one above zero, and lists are joined in order.
        ensures gives { IfOk result (λ config. (parts : TheCut) → HasCut text.now parts →
            GivesConfig parts.parts config) }
    {
        let cut = text::cut(alloc, text)?;
        apply(alloc, cut)
    }
}
