//! The piece of some bytes that one call moves.
ghost use Rattle.std.specs.Prelude.{◌≡◌, ◌≤◌, ◌-◌, length, take, drop, min};

/// Copies bytes from this place on into the buffer, at most `cut`, and says how many.
pub fn copy_from(bytes: &[u8], at: usize, cut: usize, buf: &mut [u8]) -> usize
    requires { at ≤ length bytes.now }
    ensures count { result ≡ min (min (length buf.old) cut) (length bytes.now - at) }
    ensures piece { take result buf.new ≡ take result (drop at bytes.now) }
{
    let count = buf.len().min(cut).min(bytes.len() - at);
    buf[..count].copy_from_slice(&bytes[at..at + count]);
    count
}
