//! What a script's server sends.
ghost use Rattle.std.specs.Prelude.{◌≡◌, ◌<◌, ◌++◌, ◌∷◌, [], length, MatchOption, IfOk, IfSome, OnOk};
ghost use Rattle.hex.specs.Hex.{hex_digit_value};
ghost use Rattle.pgw_prog_script.specs.ServerBytes.{AddsScriptBytes, AddsFront, digits};

use crate::hex_digits::pair_worth;
use bytes::Bytes;
use pgw_types::memory::OutOfMemory;
use pgw_types::octets::Octets;
use std::alloc::Global;
use std::marker::Model;

/// The bytes that a script's server sends, in one piece to which each line adds.
#[derive(Debug, Drop)]
pub struct ServerBytes {
    bytes: Vec<u8>,
}

impl Model for ServerBytes {
    ghost use Rattle.std.specs.Prelude.{ℕ, List};

    ghost Value = { List ℕ };

    ghost view = { λ server. server.bytes.items };
}

// The value of a hex digit, in either case.
#[inline]
fn digit_of(byte: u8) -> Option<u8>
    ensures value { result ≡ hex_digit_value byte }
    ensures bound { IfSome result (λ digit. digit < 16) }
{
    match byte {
        b'0'..=b'9' => Some(byte - b'0'),
        b'a'..=b'f' => Some(byte - b'a' + 10),
        b'A'..=b'F' => Some(byte - b'A' + 10),
        _ => None,
    }
}

// The first byte that is no space, and what stands behind it.
#[inline]
fn next_digit(text: &[u8]) -> Option<(u8, &[u8])>
    ensures { MatchOption result (digits text.now ≡ [])
        (λ next. (digits text.now ≡ next.0 ∷ digits next.1.now)
        × (length next.1.now < length text.now)) }
{
    match text {
        [first, behind @ ..] if *first != b' ' => Some((*first, behind)),
        _ => behind_spaces(text),
    }
}

fn behind_spaces(text: &[u8]) -> Option<(u8, &[u8])>
    ensures { MatchOption result (digits text.now ≡ [])
        (λ next. (digits text.now ≡ next.0 ∷ digits next.1.now)
        × (length next.1.now < length text.now)) }
{
    for at in 0..text.len() {
        let byte = text[at];
        if byte != b' ' {
            return Some((byte, &text[at + 1..]));
        }
    }
    None
}

impl ServerBytes {
    /// None.
    pub fn new(alloc: Global) -> ServerBytes
        ensures { result ≡ [] }
    {
        ServerBytes {
            bytes: Vec::new(alloc),
        }
    }

    /// Adds bytes.
    pub fn add(&mut self, bytes: &[u8]) -> Result<(), OutOfMemory>
        ensures { OnOk result (self.new ≡ self.old ++ bytes.now) }
    {
        self.bytes.extend_from_slice(bytes)?;
        Ok(())
    }

    /// Adds the bytes of a text of hex digits, among which spaces may stand; answers whether it is one. Of another text
    /// some bytes may have been added.
    pub fn add_hex(&mut self, text: &[u8]) -> Result<bool, OutOfMemory>
        ensures { IfOk result (λ known. AddsScriptBytes known text.now self.old self.new) }
    {
        let rest = self.add_whole_pairs(text)?;
        self.add_spread_pairs(rest)
    }

    // Adds bytes as long as both digits of the next one stand side by side, and answers what is left of the text.
    fn add_whole_pairs<'a>(&mut self, text: &'a [u8]) -> Result<&'a [u8], OutOfMemory>
        ensures { IfOk result (λ rest. AddsFront rest.now text.now self.old self.new) }
    {
        let mut rest = text;
        while let [first, second, behind @ ..] = rest {
            let byte = pair_worth(*first, *second);
            if byte < 256 {
                self.bytes.push(byte as u8)?;
                rest = behind;
            } else if *first == b' ' {
                rest = &rest[1..];
            } else {
                return Ok(rest);
            }
        }
        Ok(rest)
    }

    // Adds the bytes of any text of digits, digit by digit.
    fn add_spread_pairs(&mut self, text: &[u8]) -> Result<bool, OutOfMemory>
        ensures { IfOk result (λ known. AddsScriptBytes known text.now self.old self.new) }
    {
        let mut rest = text;
        while let Some((first, behind)) = next_digit(rest) {
            let Some((second, more)) = next_digit(behind) else {
                return Ok(false);
            };
            let Some(high) = digit_of(first) else {
                return Ok(false);
            };
            let Some(low) = digit_of(second) else {
                return Ok(false);
            };
            self.bytes.push(high * 16 + low)?;
            rest = more;
        }
        Ok(true)
    }

    /// The bytes. It copies none.
    pub fn into_octets(self) -> Result<Octets, OutOfMemory>
        ensures { IfOk result (λ octets. octets ≡ self) }
    {
        match Bytes::from_vec(self.bytes) {
            Ok(bytes) => Ok(Octets::from_bytes(bytes)),
            Err(_) => Err(OutOfMemory),
        }
    }
}
