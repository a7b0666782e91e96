//! The MD5 password.
ghost use Rattle.std.specs.Prelude.{◌≡◌, ◌++◌, IfOk};
ghost use Rattle.md5.specs.Md5.{md5};
ghost use Rattle.pgw_hash.specs.Md5Password.{md5_hex, md5_password};

use md5::{Digest, Md5};
use pgw_types::memory::OutOfMemory;
use pgw_types::text::Text;
use std::alloc::Global;

/// What a client sends for a password, given the salt that the server sent.
#[tactic(auto, unfolding(crate::specs::Md5Password::md5_password))]
pub fn hash_md5_password(
    alloc: Global,
    username: &str,
    password: &str,
    salt: &[u8],
) -> Result<Text, OutOfMemory>
    ensures { IfOk result (λ text. text ≡ md5_password username.now password.now salt.now) }
{
    let stored = hex_digits(password.as_bytes(), username.as_bytes());
    let mut text = String::from_str(alloc, "md5")?;
    let digest = digest_of_parts(&stored, salt);
    let digits = hex::encode(alloc, digest)?;
    text.push_str(digits.as_str())?;
    Ok(Text::from_string(text))
}

fn digest_of_parts(first: &[u8], second: &[u8]) -> [u8; 16]
    ensures { result ≡ md5 (first.now ++ second.now) }
{
    let mut hasher = Md5::new();
    hasher.update(first);
    hasher.update(second);
    hasher.finalize()
}

fn hex_digits(first: &[u8], second: &[u8]) -> [u8; 32]
    ensures { result ≡ md5_hex (first.now ++ second.now) }
{
    let mut digits = [0; 32];
    hex::encode_to_slice(digest_of_parts(first, second), &mut digits).unwrap();
    digits
}
