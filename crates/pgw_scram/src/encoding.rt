//! Base64 (RFC 4648, section 4).
ghost use Rattle.std.specs.Prelude.{◌≡◌, ◌++◌, IfOk, option_map};
ghost use Rattle.pgw_scram.specs.Base64.{base64, salt_of};

use base64::DecodeAllocError;
use base64::engine::general_purpose::STANDARD;
use pgw_types::memory::OutOfMemory;
use pgw_types::text::Text;
use std::alloc::Global;

/// The text of bytes.
#[tactic(auto, unfolding(crate::specs::Base64::base64))]
pub(crate) fn encode(alloc: Global, bytes: &[u8]) -> Result<Text, OutOfMemory>
    ensures { IfOk result (λ text. text ≡ base64 bytes.now) }
{
    let text = STANDARD.encode(alloc, bytes)?;
    Ok(Text::from_string(text))
}

/// The text of bytes and more bytes behind them.
pub(crate) fn encode_joined(alloc: Global, front: &[u8], back: &[u8]) -> Result<Text, OutOfMemory>
    ensures { IfOk result (λ text. text ≡ base64 (front.now ++ back.now)) }
{
    let mut bytes = Vec::new(alloc);
    bytes.extend_from_slice(front)?;
    bytes.extend_from_slice(back)?;
    encode(alloc, &bytes)
}

/// The text of 32 bytes, which has 44 characters. It takes no memory.
#[tactic(auto, unfolding(crate::specs::Base64::base64))]
pub(crate) fn encode_32(bytes: &[u8; 32]) -> [u8; 44]
    ensures { result ≡ base64 bytes.now }
{
    let mut text = [0; 44];
    STANDARD.encode_slice(bytes, &mut text).unwrap();
    text
}

/// The bytes that a salt's text stands for, if it is base64.
pub(crate) fn decode_salt(alloc: Global, salt: &[u8]) -> Result<Option<Vec<u8>>, OutOfMemory>
    ensures { IfOk result (λ r. option_map (λ v. v.items) r ≡ salt_of salt.now) }
{
    match STANDARD.decode(alloc, salt) {
        Ok(bytes) => Ok(Some(bytes)),
        Err(DecodeAllocError::DecodeError(_)) => Ok(None),
        Err(DecodeAllocError::OutOfMemory) => Err(OutOfMemory),
    }
}
