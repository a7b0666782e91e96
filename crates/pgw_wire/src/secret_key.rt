//! The key of a connection, by which a query is canceled.
ghost use Rattle.std.specs.Prelude.{◌≡◌, ◌↔◌, ◌++◌, pos, IsTrue, IfOk, OnOk};
ghost use Rattle.pgw_wire.specs.Reading.{Gives};
ghost use Rattle.pgw_wire.specs.Framing.{Appends, body_or};
ghost use Rattle.pgw_wire.specs.declared.secret_key.SecretKey.TheVariants.{I32, Bytes as KeyBytes};
ghost use Rattle.pgw_wire.specs.Keys.{is_no_key as has_no_key, key_of, key_bytes, key_fault, key_number};

use crate::writer::{Writer, append, put_i32};
use bytes::BytesMut;
use pgw_types::context::{DecodeContext, ProtocolVersion};
use pgw_types::error::{PgWireError, PgWireResult};
use pgw_types::listed::Duplicate;
use pgw_types::memory::OutOfMemory;
use pgw_types::octets::Octets;
use std::alloc::Global;
use std::fmt;

/// A key: four bytes under protocol 3.0, 4 to 256 bytes later. Debug shows none of it.
#[derive(Drop, PartialEq, Eq)]
pub enum SecretKey {
    I32(i32),
    Bytes(Octets),
}

impl fmt::Debug for SecretKey {
    fn fmt<W: fmt::Write>(&self, f: &mut fmt::Formatter<W>) -> fmt::Result {
        f.write_str("SecretKey(_)")
    }
}

impl Default for SecretKey {
    ghost is_default = { λ key. key ≡ I32 (pos 0) };

    fn default() -> SecretKey {
        SecretKey::I32(0)
    }
}

// Whether there are too few bytes, or too many.
fn is_no_key(bytes: &Octets) -> bool
    ensures { result ≡ has_no_key bytes.now }
{
    bytes.len() < 4 || 256 < bytes.len()
}

// The number that the four bytes are.
fn four_bytes(bytes: &[u8]) -> Option<i32>
    ensures { result ≡ key_number (KeyBytes bytes.now) }
{
    match bytes {
        [a, b, c, d] => Some(u32::from_be_bytes([*a, *b, *c, *d]).cast_signed()),
        _ => None,
    }
}

impl SecretKey {
    /// Whether both are the same bytes.
    #[tactic(auto, unfolding(crate::specs::Writing::i32))]
    pub fn eq_value(&self, other: &SecretKey) -> bool
        ensures { IsTrue result ↔ (key_bytes self.now ≡ key_bytes other.now) }
    {
        match (self, other) {
            (SecretKey::I32(a), SecretKey::I32(b)) => {
                a.cast_unsigned().to_be_bytes().as_slice()
                    == b.cast_unsigned().to_be_bytes().as_slice()
            }
            (SecretKey::I32(a), SecretKey::Bytes(b)) => {
                a.cast_unsigned().to_be_bytes().as_slice() == b.as_slice()
            }
            (SecretKey::Bytes(a), SecretKey::I32(b)) => {
                a.as_slice() == b.cast_unsigned().to_be_bytes().as_slice()
            }
            (SecretKey::Bytes(a), SecretKey::Bytes(b)) => a.as_slice() == b.as_slice(),
        }
    }

    #[tactic(auto, unfolding(crate::specs::Writing::i32))]
    pub fn to_bytes(&self, alloc: Global) -> Result<Octets, OutOfMemory>
        ensures { IfOk result (λ bytes. bytes ≡ key_bytes self.now) }
    {
        match self {
            SecretKey::I32(n) => Octets::from_slice(alloc, &n.cast_unsigned().to_be_bytes()),
            SecretKey::Bytes(bytes) => bytes.duplicate(),
        }
    }

    /// The number, if the key has four bytes.
    pub fn as_i32(&self) -> Option<i32>
        ensures { result ≡ key_number self.now }
    {
        match self {
            SecretKey::I32(n) => Some(*n),
            SecretKey::Bytes(bytes) => four_bytes(bytes.as_slice()),
        }
    }

    /// Why the key has no spelling: it has too few bytes, or too many.
    pub fn refusal(&self) -> Option<PgWireError>
        ensures { result ≡ key_fault self.now }
    {
        match self {
            SecretKey::I32(_) => None,
            SecretKey::Bytes(bytes) => {
                if is_no_key(bytes) {
                    Some(PgWireError::InvalidSecretKey)
                } else {
                    None
                }
            }
        }
    }

    /// Writes the key's bytes.
    pub fn put(&self, out: &mut Writer) -> Result<(), OutOfMemory>
        ensures ok { OnOk result (out.new.body ≡ out.old.body ++ key_bytes self.now) }
        ensures kept { out.new.before ≡ out.old.before }
    {
        match self {
            SecretKey::I32(n) => put_i32(out, *n),
            SecretKey::Bytes(bytes) => out.put_slice(bytes.as_slice()),
        }
    }

    /// Appends the key's bytes.
    #[tactic(auto, unfolding(crate::specs::Writing::i32))]
    pub fn encode(&self, buf: &mut BytesMut) -> PgWireResult<()>
        ensures { Appends result buf.old.items buf.new.items
            (body_or (key_fault self.now) (key_bytes self.now)) }
    {
        match self {
            SecretKey::I32(n) => append(buf, &n.cast_unsigned().to_be_bytes()),
            SecretKey::Bytes(bytes) => {
                if is_no_key(bytes) {
                    return Err(PgWireError::InvalidSecretKey);
                }
                append(buf, bytes.as_slice())
            }
        }
    }

    /// The key that the bytes are, under the version in force.
    #[tactic(auto, unfolding(crate::specs::Keys::key_of))]
    pub fn decode(body: &Octets, ctx: &DecodeContext) -> PgWireResult<SecretKey>
        ensures { Gives result (key_of ctx.now.protocol_version body.now) }
    {
        if is_no_key(body) {
            return Err(PgWireError::InvalidSecretKey);
        }
        match ctx.protocol_version {
            ProtocolVersion::PROTOCOL3_0 => match four_bytes(body.as_slice()) {
                Some(n) => Ok(SecretKey::I32(n)),
                None => Err(PgWireError::InvalidMessageBody),
            },
            _ => Ok(SecretKey::Bytes(body.duplicate()?)),
        }
    }
}

impl Duplicate for SecretKey {
    fn duplicate(&self) -> Result<SecretKey, OutOfMemory> {
        match self {
            SecretKey::I32(n) => Ok(SecretKey::I32(*n)),
            SecretKey::Bytes(bytes) => Ok(SecretKey::Bytes(bytes.duplicate()?)),
        }
    }
}
