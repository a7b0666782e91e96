//! Telling the requests apart that have no type byte.
ghost use Rattle.std.specs.Prelude.{◌≡◌};
ghost use Rattle.pgw_control.specs.Openings.{has_code};

/// Whether a length and this code stand at the front.
pub fn has_code_at_front(bytes: &[u8], code: u32) -> bool
    ensures { result ≡ has_code code bytes.now }
{
    bytes.len() >= 8 && u32::from_be_bytes([bytes[4], bytes[5], bytes[6], bytes[7]]) == code
}
