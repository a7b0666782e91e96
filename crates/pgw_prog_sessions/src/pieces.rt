//! The pieces of printed text.
ghost use Rattle.std.specs.Prelude.{◌≡◌, ◌<◌, ◌+◌, ◌*◌, ◌++◌, ◌∷◌, [], length, slice_index, OnOk, codes, decimal};
ghost use Rattle.std.specs.Bool.{OnTrue};
ghost use Rattle.std.specs.Fmt.{signed_decimal};
ghost use Rattle.std.specs.List.{flat_map};
ghost use Rattle.hex.specs.Hex.{encode_lower, lower_digits};
ghost use Rattle.pgw_prog_sessions.specs.Pieces.{in_hex, quoted, quoted_byte};

use itoa::Buffer;
use pgw_types::memory::OutOfMemory;

/// Appends a text.
pub fn put(out: &mut Vec<u8>, text: &[u8]) -> Result<(), OutOfMemory>
    ensures { OnOk result (out.new.items ≡ out.old.items ++ text.now) }
{
    out.extend_from_slice(text)?;
    Ok(())
}

/// Appends bytes in hex, or `-` for none.
#[tactic(auto, unfolding(crate::specs::Pieces::in_hex))]
pub fn put_hex(out: &mut Vec<u8>, bytes: &[u8]) -> Result<(), OutOfMemory>
    ensures { OnOk result (out.new.items ≡ out.old.items ++ in_hex bytes.now) }
{
    if bytes.is_empty() {
        put(out, b"-")
    } else {
        put_digits(out, bytes)
    }
}

// Two digits for each byte, written where they are to stand.
fn put_digits(out: &mut Vec<u8>, bytes: &[u8]) -> Result<(), OutOfMemory>
    ensures { OnOk result (out.new.items ≡ out.old.items ++ encode_lower bytes.now) }
{
    let start = out.len();
    let end = end_of(start, bytes.len());
    out.resize(end, 0)?;
    // A vector holds fewer bytes than 64 bits can count, so the end is no cut-off one.
    let whole = out.len() < usize::MAX;
    prove!(whole);
    write_digits(&mut out[start..], bytes);
    Ok(())
}

// The digit of a value. It is worked out, and not looked up, so that many are made at once.
#[inline]
fn digit(value: u8) -> u8
    requires { value < 16 }
    ensures { result ≡ slice_index lower_digits value }
{
    if value < 10 { value + 48 } else { value + 87 }
}

// Writes two digits for each byte.
fn write_digits(out: &mut [u8], bytes: &[u8])
    requires { length out.old ≡ 2 * length bytes.now }
    ensures { out.new ≡ encode_lower bytes.now }
{
    for at in 0..bytes.len() {
        let byte = bytes[at];
        out[2 * at] = digit(byte / 16);
        out[2 * at + 1] = digit(byte % 16);
    }
}

// Where two digits for each byte end, or the greatest place of all, at which no list ends.
fn end_of(start: usize, len: usize) -> usize
    ensures { result < 18446744073709551615 → result ≡ start + 2 * len }
{
    start.saturating_add(len.saturating_mul(2))
}

/// Appends a number.
pub fn put_decimal(out: &mut Vec<u8>, number: u64) -> Result<(), OutOfMemory>
    ensures { OnOk result (out.new.items ≡ out.old.items ++ decimal number) }
{
    let mut buffer = Buffer::new();
    put(out, buffer.format(number).as_bytes())
}

/// Appends a number with its sign.
pub fn put_signed(out: &mut Vec<u8>, number: i32) -> Result<(), OutOfMemory>
    ensures { OnOk result (out.new.items ≡ out.old.items ++ signed_decimal number) }
{
    let mut buffer = Buffer::new();
    put(out, buffer.format(number).as_bytes())
}

#[tactic(auto, unfolding(crate::specs::Pieces::quoted_byte))]
fn put_quoted_byte(out: &mut Vec<u8>, byte: u8) -> Result<(), OutOfMemory>
    ensures { OnOk result (out.new.items ≡ out.old.items ++ quoted_byte byte) }
{
    match byte {
        b'"' => put(out, b"\\\""),
        b'\\' => put(out, b"\\\\"),
        0..=31 => put_escape(out, byte),
        127 => put_escape(out, byte),
        _ => put(out, &[byte]),
    }
}

fn put_escape(out: &mut Vec<u8>, byte: u8) -> Result<(), OutOfMemory>
    ensures { OnOk result (out.new.items ≡ out.old.items ++ (codes "\\x" ++ in_hex (byte ∷ []))) }
{
    put(out, b"\\x")?;
    put_hex(out, &[byte])
}

// Whether a byte stands for itself in a quoted text.
#[tactic(auto, unfolding(crate::specs::Pieces::quoted_byte))]
fn is_plain(byte: u8) -> bool
    ensures { OnTrue result (quoted_byte byte ≡ byte ∷ []) }
{
    match byte {
        b'"' | b'\\' | 0..=31 | 127 => false,
        _ => true,
    }
}

fn are_plain(bytes: &[u8]) -> bool
    ensures { OnTrue result (flat_map quoted_byte bytes.now ≡ bytes.now) }
{
    for byte in bytes {
        if !is_plain(*byte) {
            return false;
        }
    }
    true
}

// A part of a text in quotes. Most are put as they are, in one piece.
pub(crate) fn put_quoted_bytes(out: &mut Vec<u8>, bytes: &[u8]) -> Result<(), OutOfMemory>
    ensures { OnOk result (out.new.items ≡ out.old.items ++ flat_map quoted_byte bytes.now) }
{
    if are_plain(bytes) {
        return put(out, bytes);
    }
    put_escaped_bytes(out, bytes)
}

fn put_escaped_bytes(out: &mut Vec<u8>, bytes: &[u8]) -> Result<(), OutOfMemory>
    ensures { OnOk result (out.new.items ≡ out.old.items ++ flat_map quoted_byte bytes.now) }
{
    for byte in bytes {
        put_quoted_byte(out, *byte)?;
    }
    Ok(())
}

/// Appends a text in quotes, with a backslash before a quote and before a backslash, and control characters in hex.
#[tactic(auto, unfolding(crate::specs::Pieces::quoted))]
pub fn put_quoted(out: &mut Vec<u8>, text: &[u8]) -> Result<(), OutOfMemory>
    ensures { OnOk result (out.new.items ≡ out.old.items ++ quoted text.now) }
{
    put(out, b"\"")?;
    put_quoted_bytes(out, text)?;
    put(out, b"\"")
}
