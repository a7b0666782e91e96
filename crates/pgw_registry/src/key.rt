//! Keys of connections.
ghost use Rattle.std.specs.Prelude.{◌≡◌, IfOk, IsOk};
ghost use Rattle.pgw_registry.specs.Key.{process_key};
ghost use Rattle.pgw_types.specs.declared.context.ProtocolVersion.TheVariants.{PROTOCOL3_0};

use pgw_types::context::ProtocolVersion;
use pgw_types::memory::OutOfMemory;
use pgw_types::octets::Octets;
use pgw_wire::secret_key::SecretKey;
use std::alloc::Global;

/// The key that a version and random words give.
pub fn key_for(
    alloc: Global,
    version: ProtocolVersion,
    words: &[u8; 32],
) -> Result<SecretKey, OutOfMemory>
    ensures value { IfOk result (λ key. key ≡ process_key version words.now) }
    ensures free { version ≡ PROTOCOL3_0 → IsOk result }
{
    match version {
        ProtocolVersion::PROTOCOL3_0 => {
            let first = [words[0], words[1], words[2], words[3]];
            Ok(SecretKey::I32(i32::from_be_bytes(first)))
        }
        ProtocolVersion::PROTOCOL3_2 | ProtocolVersion::PROTOCOL3_9999 => {
            Ok(SecretKey::Bytes(Octets::from_slice(alloc, words)?))
        }
    }
}
