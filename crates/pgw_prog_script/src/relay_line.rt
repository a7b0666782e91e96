//! The lines of a relay script.
ghost use Rattle.std.specs.Prelude.{◌≡◌, ◌∷◌, [], IfOk, IfSome};
ghost use Rattle.pgw_prog_script.specs.RelayLine.{side_in, turns_in, setting_of, relay_line_of, MovesBytes};

use crate::line::{read_bytes, read_cut};
use crate::request_line::with_next;
use pgw_proxy::recorded::Side;
use pgw_types::listed::Listed;
use pgw_types::marks::behind_word;
use pgw_types::memory::OutOfMemory;
use pgw_types::octets::Octets;
use std::alloc::Global;

/// What one line of a relay script says.
#[derive(Debug, Drop)]
pub enum RelayLine {
    /// The most bytes that one call moves.
    Cut(usize),
    /// What the client sends.
    Client(Octets),
    /// What the server sends.
    Server(Octets),
    /// Whose bytes are read, one turn after the other.
    Turns(Listed<Side>),
}

// The side that a letter stands for.
fn read_side(letter: u8) -> Option<Side>
    ensures { result ≡ side_in (letter ∷ []) }
{
    match letter {
        b'c' => Some(Side::Client),
        b's' => Some(Side::Server),
        _ => None,
    }
}

// The sides that letters stand for, if each is one.
fn read_turns(alloc: Global, letters: &[u8]) -> Result<Option<Listed<Side>>, OutOfMemory>
    ensures { IfOk result (λ o. o ≡ turns_in letters.now) }
{
    let mut turns = Some(Listed::new(alloc));
    for letter in letters {
        turns = with_next(turns, read_side(*letter))?;
    }
    Ok(turns)
}

// What a line says, where it gives no bytes.
#[tactic(auto, unfolding(crate::specs::RelayLine::setting_of))]
fn read_setting(alloc: Global, line: &[u8]) -> Result<Option<RelayLine>, OutOfMemory>
    ensures value { IfOk result (λ o. o ≡ setting_of line.now) }
    ensures moves { IfOk result (λ o. IfSome o MovesBytes) }
{
    if let Some(value) = behind_word(b"cut ", line) {
        return Ok(read_cut(value).map(RelayLine::Cut));
    }
    if let Some(value) = behind_word(b"turns ", line) {
        return Ok(read_turns(alloc, value)?.map(RelayLine::Turns));
    }
    Ok(None)
}

/// What a line says, where it is in the grammar.
#[tactic(auto, unfolding(crate::specs::RelayLine::relay_line_of))]
pub fn read_relay_line(alloc: Global, line: &[u8]) -> Result<Option<RelayLine>, OutOfMemory>
    ensures value { IfOk result (λ o. o ≡ relay_line_of line.now) }
    ensures moves { IfOk result (λ o. IfSome o MovesBytes) }
{
    if let Some(value) = behind_word(b"client ", line) {
        return Ok(read_bytes(alloc, value)?.map(RelayLine::Client));
    }
    if let Some(value) = behind_word(b"server ", line) {
        return Ok(read_bytes(alloc, value)?.map(RelayLine::Server));
    }
    read_setting(alloc, line)
}
