//! The text of a stored secret, part by part.
ghost use Rattle.std.specs.Prelude.{◌≡◌, ◌<◌, IfOk, option_map};
ghost use Rattle.pgw_secrets.specs.Found.{NameIn, CutAt, CountOf, CountIn, SaltIn, StoredKeyIn};
ghost use Rattle.std.specs.Option.{option_copied};
ghost use Rattle.pgw_types.specs.Numbers.{number_in};
ghost use Rattle.pgw_secrets.specs.Text.{ReadsSecret};

use crate::keys::{decode, decode_32};
use crate::secret::{SecretFault, StoredSecret};
use pgw_types::memory::OutOfMemory;
use pgw_types::octets::Octets;
use std::alloc::Global;

// What stands behind the method's name.
fn behind_name(text: &str) -> Option<&str>
    ensures { NameIn text.now (option_copied result) }
{
    text.strip_prefix("SCRAM-SHA-256$")
}

// What stands before the first mark, and behind it.
fn cut_at(text: &str, mark: char) -> Option<(&str, &str)>
    requires { mark < 128 }
    ensures { CutAt mark text.now (option_map (λ p. (p.0.now, p.1.now)) result) }
{
    text.split_once(mark)
}

fn number_in(text: &str) -> Option<u32>
    ensures { result ≡ number_in 32 text.now }
{
    text.parse::<u32>().ok()
}

// A whole number from 1 to 4294967295.
fn count_of(text: &str) -> Option<u32>
    ensures { CountOf text.now result }
{
    let count = number_in(text)?;
    if count == 0 {
        return None;
    }
    Some(count)
}

// The count, and what stands behind its colon.
fn count_at(text: &str) -> Option<(u32, &str)>
    ensures { CountIn text.now (option_map (λ p. (p.0, p.1.now)) result) }
{
    let Some((written, behind)) = cut_at(text, ':') else {
        return None;
    };
    match count_of(written) {
        Some(count) => Some((count, behind)),
        None => None,
    }
}

// The salt, and what stands behind its dollar sign.
fn salt_at(alloc: Global, text: &str) -> Result<Option<(Vec<u8>, &str)>, OutOfMemory>
    ensures { IfOk result (λ r. SaltIn text.now (option_map (λ p. (p.0.items, p.1.now)) r)) }
{
    let Some((written, behind)) = cut_at(text, '$') else {
        return Ok(None);
    };
    match decode(alloc, written)? {
        Some(salt) => Ok(Some((salt, behind))),
        None => Ok(None),
    }
}

// A key, and what stands behind its colon.
fn key_at(alloc: Global, text: &str) -> Result<Option<([u8; 32], &str)>, OutOfMemory>
    ensures { IfOk result (λ r. StoredKeyIn text.now (option_map (λ p. (p.0, p.1.now)) r)) }
{
    let Some((written, behind)) = cut_at(text, ':') else {
        return Ok(None);
    };
    match decode_32(alloc, written)? {
        Some(key) => Ok(Some((key, behind))),
        None => Ok(None),
    }
}

/// The secret that a text tells, or the first faulty part of it from the left.
pub(crate) fn read_text(alloc: Global, text: &str) -> Result<StoredSecret, SecretFault>
    ensures { ReadsSecret text.now result }
{
    let Some(behind) = behind_name(text) else {
        return Err(SecretFault::Prefix);
    };
    let Some((count, behind)) = count_at(behind) else {
        return Err(SecretFault::Count);
    };
    let Some((salt, behind)) = salt_at(alloc, behind)? else {
        return Err(SecretFault::Salt);
    };
    let Some(stored) = key_at(alloc, behind)? else {
        return Err(SecretFault::StoredKey);
    };
    let stored_key = stored.0;
    let behind = stored.1;
    let Some(server_key) = decode_32(alloc, behind)? else {
        return Err(SecretFault::ServerKey);
    };
    Ok(StoredSecret {
        count,
        salt: Octets::from_vec(salt)?,
        stored_key,
        server_key,
    })
}
