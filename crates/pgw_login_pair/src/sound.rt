//! What the program knows of an input, for proofs.
ghost use Rattle.std.specs.Prelude.{◌≡◌, ◌≤◌, ℕ, List, Some, IsTrue};
ghost use Rattle.std.specs.Option.{option_copied};
ghost use Rattle.base64.specs.GeneralPurpose.{IsBytes};
ghost use Rattle.pgw_types.specs.declared.context.ProtocolVersion.TheVariants.{PROTOCOL3_0};
ghost use Rattle.pgw_wire.specs.Keys.{IsKey};
ghost use Rattle.pgw_registry.specs.Key.{process_key};
ghost use Rattle.pgw_login_pair.specs.Sound.{IsSoundInput};

use crate::parties::PairInput;
use pgw_types::octets::Octets;
use pgw_wire::sound::is_utf8;

// Bytes are below 256.
fn are_bytes(bytes: &[u8])
    ensures { IsBytes bytes.now }
{
    let _bytes = bytes;
}

// Those of a salt are.
fn is_salt(salt: Option<&[u8]>)
    ensures { (bytes : List ℕ) → option_copied salt.entry ≡ Some bytes → IsBytes bytes }
{
    match salt {
        Some(bytes) => are_bytes(bytes),
        None => {}
    }
}

// Those of a hash are.
fn is_hash(hash: &Option<Octets>)
    ensures { (bytes : List ℕ) → hash.now ≡ Some bytes → IsBytes bytes }
{
    match hash {
        Some(bytes) => are_bytes(bytes.as_slice()),
        None => {}
    }
}

// Four of the words make a number of 32 bits.
fn is_key(words: &[u8; 32])
    ensures { IsKey (process_key PROTOCOL3_0 words.now) }
{
    let first = [words[0], words[1], words[2], words[3]];
    let _key = i32::from_be_bytes(first);
}

/// Every input is sound.
pub fn is_sound(input: &PairInput) -> bool
    requires { 1 ≤ input.now.count }
    ensures yes { IsTrue result }
    ensures sound { IsSoundInput input.now }
{
    is_utf8(&input.user);
    is_salt(input.stored.salt());
    is_hash(&input.client_hash);
    is_hash(&input.server_hash);
    is_key(&input.words);
    let _count = input.count;
    true
}
