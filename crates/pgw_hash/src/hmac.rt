//! HMAC with SHA-256.
ghost use Rattle.std.specs.Prelude.{◌≡◌, ℕ, ◌≤◌, List, [], ◌++◌, length};
ghost use Rattle.sha2.specs.Hashers.{Holds256};
ghost use Rattle.pgw_hash.specs.Xor.{xor};
ghost use Rattle.pgw_hash.specs.Hmac.{hmac_sha256, block_key, zero_filled};
ghost use Rattle.pgw_hash.specs.Codes.{HasTaken};

use crate::xor::xor_into;
use sha2::{Digest, Sha256};

const BLOCK_LEN: usize = 64;

const IPAD: [u8; 64] = [0x36; 64];

const OPAD: [u8; 64] = [0x5c; 64];

/// The authentication code of a text under a key.
pub fn hmac_sha256(key: &[u8], text: &[u8]) -> [u8; 32]
    ensures { result ≡ hmac_sha256 key.now text.now }
{
    Hmac::new(key).code(text)
}

/// A code in the making: its text is taken in part by part, and no memory is taken.
#[derive(Drop)]
pub struct Hmac {
    inner: Sha256,
    outer: Sha256,
}

impl Hmac {
    /// The code under a key, with nothing taken in. Both blocks that begin with the key are hashed.
    pub fn new(key: &[u8]) -> Hmac
        ensures { HasTaken key.now [] result }
    {
        let block = block_key(key);
        Hmac {
            inner: padded(block, &IPAD),
            outer: padded(block, &OPAD),
        }
    }

    /// Takes in the next part of the text.
    pub fn update(&mut self, part: &[u8])
        ensures { (key text : List ℕ) → HasTaken key text self.old →
            HasTaken key (text ++ part.now) self.new }
    {
        self.inner.update(part);
    }

    /// The code of all that was taken in.
    pub fn finalize(self) -> [u8; 32]
        ensures { (key text : List ℕ) → HasTaken key text self → result ≡ hmac_sha256 key text }
    {
        let Hmac { inner, mut outer } = self;
        outer.update(inner.finalize());
        outer.finalize()
    }

    /// The code of a text, where nothing was taken in: the key is hashed once for many codes.
    pub(crate) fn code(&self, text: &[u8]) -> [u8; 32]
        ensures { (key : List ℕ) → HasTaken key [] self.now → result ≡ hmac_sha256 key text.now }
    {
        let mut code = self.copy();
        code.update(text);
        code.finalize()
    }

    /// The code of a text in two parts.
    pub(crate) fn code_of_parts(&self, first: &[u8], second: &[u8]) -> [u8; 32]
        ensures { (key : List ℕ) → HasTaken key [] self.now → result
            ≡ hmac_sha256 key (first.now ++ second.now) }
    {
        let mut code = self.copy();
        code.update(first);
        code.update(second);
        code.finalize()
    }

    // A copy takes no memory.
    fn copy(&self) -> Hmac
        ensures { result ≡ self.now }
    {
        Hmac {
            inner: copy_of(&self.inner),
            outer: copy_of(&self.outer),
        }
    }
}

// A copy takes no memory.
fn copy_of(hasher: &Sha256) -> Sha256
    ensures { result ≡ hasher.now }
{
    hasher.clone().unwrap()
}

// A key as a block. A long one is hashed.
fn block_key(key: &[u8]) -> [u8; 64]
    ensures { result ≡ block_key key.now }
{
    if key.len() > BLOCK_LEN {
        zero_filled(&Sha256::digest(key))
    } else {
        zero_filled(key)
    }
}

fn zero_filled(key: &[u8]) -> [u8; 64]
    requires { length key.now ≤ 64 }
    ensures { result ≡ zero_filled key.now }
{
    let mut block = [0; 64];
    block[..key.len()].copy_from_slice(key);
    block
}

// A hasher that has taken in a block with a pad.
fn padded(mut block: [u8; 64], pad: &[u8; 64]) -> Sha256
    ensures { Holds256 result (xor block pad.now) }
{
    xor_into(&mut block, pad);
    Sha256::new_with_prefix(&block)
}
