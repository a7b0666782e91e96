//! Numbers, as scripts and the words of a command write them.
ghost use Rattle.std.specs.Prelude.{◌≡◌};
ghost use Rattle.pgw_prog_script.specs.Line.{script_number};

use std::str;

/// A number of 64 bits.
pub fn read_number(value: &[u8]) -> Option<u64>
    ensures { result ≡ script_number value.now }
{
    match str::from_utf8(value) {
        Ok(text) => text.parse::<u64>().ok(),
        Err(_) => None,
    }
}
