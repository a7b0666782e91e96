//! Nonces.
ghost use Rattle.std.specs.Prelude.{◌≡◌, IfOk};
ghost use Rattle.pgw_scram.specs.Base64.{nonce_text};

use crate::encoding::encode;
use pgw_types::memory::OutOfMemory;
use pgw_types::text::Text;
use std::alloc::Global;

/// The text of a nonce, in base64: 24 characters. Drawing the bytes is the caller's part.
pub fn random_nonce(alloc: Global, bytes: &[u8; 18]) -> Result<Text, OutOfMemory>
    ensures { IfOk result (λ text. text ≡ nonce_text bytes.now) }
{
    encode(alloc, bytes)
}
