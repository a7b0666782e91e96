//! The words that a choice of a configuration is written by.
ghost use Rattle.std.specs.Prelude.{◌≡◌, Some, None, if◌then◌else◌};
ghost use Rattle.pgw_config.specs.declared.config.Config.{Config as TheConfig};
ghost use Rattle.pgw_config.specs.Choices.{ssl_mode_of, ssl_negotiation_of, target_of_word, channel_binding_of, load_balance_of, with_value, with_choice};

use crate::config::{
    ChannelBinding, Config, LoadBalanceHosts, SslMode, SslNegotiation, TargetSessionAttrs,
};
use crate::keys::ChoiceKey;

#[tactic(auto, unfolding(crate::specs::Choices::ssl_mode_of))]
fn ssl_mode_in(word: &str) -> Option<SslMode>
    ensures { result ≡ ssl_mode_of word.now }
{
    if word == "disable" {
        Some(SslMode::Disable)
    } else if word == "prefer" {
        Some(SslMode::Prefer)
    } else if word == "require" {
        Some(SslMode::Require)
    } else {
        None
    }
}

#[tactic(auto, unfolding(crate::specs::Choices::ssl_negotiation_of))]
fn ssl_negotiation_in(word: &str) -> Option<SslNegotiation>
    ensures { result ≡ ssl_negotiation_of word.now }
{
    if word == "postgres" {
        Some(SslNegotiation::Postgres)
    } else if word == "direct" {
        Some(SslNegotiation::Direct)
    } else {
        None
    }
}

#[tactic(auto, unfolding(crate::specs::Choices::target_of_word))]
fn target_in(word: &str) -> Option<TargetSessionAttrs>
    ensures { result ≡ target_of_word word.now }
{
    if word == "any" {
        Some(TargetSessionAttrs::Any)
    } else if word == "read-write" {
        Some(TargetSessionAttrs::ReadWrite)
    } else if word == "read-only" {
        Some(TargetSessionAttrs::ReadOnly)
    } else {
        None
    }
}

#[tactic(auto, unfolding(crate::specs::Choices::channel_binding_of))]
fn channel_binding_in(word: &str) -> Option<ChannelBinding>
    ensures { result ≡ channel_binding_of word.now }
{
    if word == "disable" {
        Some(ChannelBinding::Disable)
    } else if word == "prefer" {
        Some(ChannelBinding::Prefer)
    } else if word == "require" {
        Some(ChannelBinding::Require)
    } else {
        None
    }
}

#[tactic(auto, unfolding(crate::specs::Choices::load_balance_of))]
fn load_balance_in(word: &str) -> Option<LoadBalanceHosts>
    ensures { result ≡ load_balance_of word.now }
{
    if word == "disable" {
        Some(LoadBalanceHosts::Disable)
    } else if word == "random" {
        Some(LoadBalanceHosts::Random)
    } else {
        None
    }
}

/// Puts a value into a field, if there is one. Whether there is.
pub(crate) fn put<T: Drop>(field: &mut T, value: Option<T>) -> bool
    ensures { (with_it : T → TheConfig) → with_value value with_it
        ≡ (if result then Some (with_it field.new) else None) }
{
    let Some(value) = value else {
        return false;
    };
    *field = value;
    true
}

/// Sets the choice of this key, where the word is one of the key's. Whether it is.
pub(crate) fn choose(config: &mut Config, key: ChoiceKey, word: &str) -> bool
    ensures { with_choice config.old key word.now ≡ (if result then Some config.new else None) }
{
    match key {
        ChoiceKey::SslMode => put(&mut config.ssl_mode, ssl_mode_in(word)),
        ChoiceKey::SslNegotiation => put(&mut config.ssl_negotiation, ssl_negotiation_in(word)),
        ChoiceKey::TargetSessionAttrs => put(&mut config.target_session_attrs, target_in(word)),
        ChoiceKey::ChannelBinding => put(&mut config.channel_binding, channel_binding_in(word)),
        ChoiceKey::LoadBalanceHosts => put(&mut config.load_balance_hosts, load_balance_in(word)),
    }
}
