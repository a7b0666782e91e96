//! The keys whose value is a whole number.
ghost use Rattle.std.specs.Prelude.{◌≡◌, ℕ, Bool, Option, Some, None, not, ◌==◌, if◌then◌else◌};
ghost use Rattle.pgw_types.specs.Numbers.{number_in};
ghost use Rattle.pgw_config.specs.declared.config.Config.{Config as TheConfig};
ghost use Rattle.pgw_config.specs.Choices.{with_value};
ghost use Rattle.pgw_config.specs.Numbers.{signed_in, later_time, later_idle, with_number};

use crate::config::Config;
use crate::keys::NumberKey;

/// Seconds, which may be below zero.
pub(crate) fn read_seconds(text: &str) -> Option<i64>
    ensures { result ≡ signed_in text.now }
{
    text.parse::<i64>().ok()
}

pub(crate) fn read_u64(text: &str) -> Option<u64>
    ensures { result ≡ number_in 64 text.now }
{
    text.parse::<u64>().ok()
}

pub(crate) fn read_u32(text: &str) -> Option<u32>
    ensures { result ≡ number_in 32 text.now }
{
    text.parse::<u32>().ok()
}

pub(crate) fn read_u16(text: &str) -> Option<u16>
    ensures { result ≡ number_in 16 text.now }
{
    text.parse::<u16>().ok()
}

pub(crate) fn read_u8(text: &str) -> Option<u8>
    ensures { result ≡ number_in 8 text.now }
{
    text.parse::<u8>().ok()
}

// A time of zero or less leaves the earlier one.
fn later(earlier: u64, seconds: i64) -> u64
    ensures { result ≡ later_idle earlier seconds }
{
    if seconds > 0 { seconds as u64 } else { earlier }
}

fn later_if_set(earlier: Option<u64>, seconds: i64) -> Option<u64>
    ensures { result ≡ later_time earlier seconds }
{
    if seconds > 0 {
        Some(seconds as u64)
    } else {
        earlier
    }
}

// Sets a time, where the text is one. Whether it is.
fn set_time(field: &mut Option<u64>, text: &str) -> bool
    ensures { (with_it : Option ℕ → TheConfig) →
        with_value (signed_in text.now) (λ t. with_it (later_time field.old t))
        ≡ (if result then Some (with_it field.new) else None) }
{
    let Some(seconds) = read_seconds(text) else {
        return false;
    };
    *field = later_if_set(*field, seconds);
    true
}

// Sets a time that there always is, where the text is one.
fn set_idle(field: &mut u64, text: &str) -> bool
    ensures { (with_it : ℕ → TheConfig) → with_value (signed_in text.now)
        (λ t. with_it (later_idle field.old t))
        ≡ (if result then Some (with_it field.new) else None) }
{
    let Some(seconds) = read_seconds(text) else {
        return false;
    };
    *field = later(*field, seconds);
    true
}

// Sets a flag, where the text is a number, which is not zero where it is set. Whether it is.
fn set_flag(field: &mut bool, text: &str) -> bool
    ensures { (with_it : Bool → TheConfig) → with_value (number_in 64 text.now)
        (λ n. with_it (not (n == 0))) ≡ (if result then Some (with_it field.new) else None) }
{
    let Some(number) = read_u64(text) else {
        return false;
    };
    *field = number != 0;
    true
}

// Sets a number, where the text is one. Whether it is.
fn set_retries(field: &mut Option<u32>, text: &str) -> bool
    ensures { (with_it : Option ℕ → TheConfig) →
        with_value (number_in 32 text.now) (λ n. with_it (Some n))
        ≡ (if result then Some (with_it field.new) else None) }
{
    let Some(retries) = read_u32(text) else {
        return false;
    };
    *field = Some(retries);
    true
}

/// Sets the number of this key, where the text is one that the key takes. Whether it is.
pub(crate) fn count(config: &mut Config, key: NumberKey, text: &str) -> bool
    ensures { with_number config.old key text.now ≡ (if result then Some config.new else None) }
{
    match key {
        NumberKey::ConnectTimeout => set_time(&mut config.connect_timeout, text),
        NumberKey::TcpUserTimeout => set_time(&mut config.tcp_user_timeout, text),
        NumberKey::Keepalives => set_flag(&mut config.keepalives, text),
        NumberKey::KeepalivesIdle => set_idle(&mut config.keepalives_idle, text),
        NumberKey::KeepalivesInterval => set_time(&mut config.keepalives_interval, text),
        NumberKey::KeepalivesRetries => set_retries(&mut config.keepalives_retries, text),
    }
}
