//! The bytes that an event hands over.
ghost use Rattle.std.specs.Prelude.{◌≡◌};
ghost use Rattle.pgw_login_pair.specs.World.{party_bytes};

/// The next bytes that were not taken, or all that there are.
pub fn next(bytes: &[u8], taken: usize, count: u32) -> &[u8]
    ensures { result.now ≡ party_bytes count taken bytes.now }
{
    let taken = taken.min(bytes.len());
    let rest = &bytes[taken..];
    let count = (count as usize).min(rest.len());
    &rest[..count]
}
