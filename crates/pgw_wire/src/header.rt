//! What stands before the body of a message with a type byte: that byte, and a length of four bytes.
ghost use Rattle.std.specs.Prelude.{◌≡◌, ◌≤◌, ◌+◌, length};
ghost use Rattle.pgw_wire.specs.Header.{MessageEndsAt, length_at};

// The number of bytes before a message's body.
const HEADER: usize = 5;

/// The length field at the place, as it stands.
pub fn length_at(bytes: &[u8], at: usize) -> u32
    requires { at + 4 ≤ length bytes.now }
    ensures { result ≡ length_at at bytes.now }
{
    u32::from_be_bytes([bytes[at], bytes[at + 1], bytes[at + 2], bytes[at + 3]])
}

/// Where the message at the front ends, if it is whole by its length.
pub fn whole_end(bytes: &[u8]) -> Option<usize>
    ensures { MessageEndsAt bytes.now result }
{
    if bytes.len() < HEADER {
        return None;
    }
    let end = length_at(bytes, 1) as usize + 1;
    if bytes.len() < end { None } else { Some(end) }
}
