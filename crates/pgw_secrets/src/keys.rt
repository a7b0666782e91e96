//! Bytes and keys in base64, and what proves a key.
ghost use Rattle.std.specs.Prelude.{◌≡◌, ◌≢◌, ◌↔◌, IfOk, IfSome, IfNone, IsTrue, length, option_map};
ghost use Rattle.sha2.specs.Sha256.{sha256};
ghost use Rattle.pgw_hash.specs.Xor.{xor};
ghost use Rattle.pgw_scram.specs.Base64.{base64};
ghost use Rattle.pgw_scram.specs.Formulas.{auth_message};
ghost use Rattle.pgw_secrets.specs.Proof.{IsProof};
ghost use Rattle.pgw_secrets.specs.Found.{BytesIn, KeyIn};

use base64::DecodeAllocError;
use base64::engine::general_purpose::STANDARD;
use pgw_hash::xor::xor_into;
use pgw_scram::proof::client_signature;
use pgw_types::memory::OutOfMemory;
use pgw_types::text::Text;
use sha2::{Digest, Sha256};
use std::alloc::Global;

/// The text of bytes.
#[tactic(auto, unfolding(pgw_scram::specs::Base64::base64))]
pub(crate) fn encode(alloc: Global, bytes: &[u8]) -> Result<Text, OutOfMemory>
    ensures { IfOk result (λ text. text ≡ base64 bytes.now) }
{
    let text = STANDARD.encode(alloc, bytes)?;
    Ok(Text::from_string(text))
}

/// The bytes that a text is the base64 of.
pub(crate) fn decode(alloc: Global, text: &str) -> Result<Option<Vec<u8>>, OutOfMemory>
    ensures { IfOk result (λ r. BytesIn text.now (option_map (λ v. v.items) r)) }
{
    match STANDARD.decode(alloc, text.as_bytes()) {
        Ok(bytes) => Ok(Some(bytes)),
        Err(DecodeAllocError::DecodeError(_)) => Ok(None),
        Err(DecodeAllocError::OutOfMemory) => Err(OutOfMemory),
    }
}

// The bytes as a key, where they are 32.
fn key_of(bytes: &[u8]) -> Option<[u8; 32]>
    ensures some { IfSome result (λ key. (length bytes.now ≡ 32) × (key ≡ bytes.now)) }
    ensures none { IfNone result (length bytes.now ≢ 32) }
{
    if bytes.len() != 32 {
        return None;
    }
    let mut key = [0; 32];
    key.copy_from_slice(bytes);
    Some(key)
}

/// The 32 bytes that a text is the base64 of.
pub(crate) fn decode_32(alloc: Global, text: &str) -> Result<Option<[u8; 32]>, OutOfMemory>
    ensures { IfOk result (KeyIn text.now) }
{
    match decode(alloc, text)? {
        Some(bytes) => Ok(key_of(&bytes)),
        None => Ok(None),
    }
}

// Whether a proof, with a client's signature taken off, hashes to a stored key.
fn hashes_to(mut proof: [u8; 32], signature: &[u8; 32], stored_key: &[u8; 32]) -> bool
    ensures { IsTrue result ↔ (sha256 (xor proof signature.now) ≡ stored_key.now) }
{
    xor_into(&mut proof, signature);
    Sha256::digest(&proof) == *stored_key
}

/// Whether a text is a proof of a stored key, for the texts as they were exchanged.
pub(crate) fn is_proof(
    alloc: Global,
    stored_key: &[u8; 32],
    client_first_bare: &[u8],
    server_first: &[u8],
    without_proof: &[u8],
    proof: &str,
) -> Result<bool, OutOfMemory>
    ensures { IfOk result (λ yes. IsTrue yes ↔ IsProof stored_key.now
        (auth_message client_first_bare.now server_first.now without_proof.now) proof.now) }
{
    let signature = client_signature(stored_key, client_first_bare, server_first, without_proof);
    match decode_32(alloc, proof)? {
        Some(bytes) => Ok(hashes_to(bytes, &signature, stored_key)),
        None => Ok(false),
    }
}
