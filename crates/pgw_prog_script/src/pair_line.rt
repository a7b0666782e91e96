//! The lines of a pair script.
ghost use Rattle.std.specs.Prelude.{◌≡◌, ◌<◌, ◌≤◌, ◌&&◌, nat_le, IfOk, IfSome};
ghost use Rattle.pgw_prog_script.specs.PairLine.{words_in, u32_in, event_in, behind_words, behind_texts, pair_line_of, HasLineCount};

use crate::line::read_nonce;
use crate::number::read_number;
use crate::request_line::{read_hex, read_text};
use hex::FromHex;
use pgw_machine::event::Event;
use pgw_types::marks::behind_word;
use pgw_types::memory::OutOfMemory;
use pgw_types::octets::Octets;
use pgw_types::text::Text;
use std::alloc::Global;

/// What one line of a pair script says.
#[derive(Debug, Drop)]
pub enum PairLine {
    User(Text),
    Password(Text),
    /// The password that the server keeps a salted one of.
    Stored(Text),
    Salt(Octets),
    Count(u32),
    /// The client's nonce.
    Client([u8; 18]),
    /// The server's nonce.
    Server([u8; 18]),
    Words([u8; 32]),
    /// The hash of a certificate that the client knows.
    ClientHash(Octets),
    /// The hash of the server's own certificate.
    ServerHash(Octets),
    Event(Event),
}

#[tactic(auto, unfolding(crate::specs::PairLine::words_in))]
fn read_words(value: &[u8]) -> Option<[u8; 32]>
    ensures { result ≡ words_in value.now }
{
    <[u8; 32] as FromHex>::from_hex(value).ok()
}

// A number of 32 bits, where it is one from this on.
#[tactic(auto, unfolding(crate::specs::PairLine::u32_in))]
fn read_u32(least: u64, value: &[u8]) -> Option<u32>
    ensures value { result ≡ u32_in least value.now }
    ensures least { IfSome result (λ n. least ≤ n) }
{
    match read_number(value) {
        Some(number) if is_from(least, number) => Some(number as u32),
        _ => None,
    }
}

fn is_from(least: u64, number: u64) -> bool
    ensures { result ≡ (nat_le least number && nat_le number 4294967295) }
{
    least <= number && number <= 4294967295
}

// The event that a line says, if it does.
#[tactic(auto, unfolding(crate::specs::PairLine::event_in))]
fn read_event(line: &[u8]) -> Option<Event>
    ensures { result ≡ event_in line.now }
{
    if let Some(value) = behind_word(b"to-server ", line) {
        return read_u32(0, value).map(Event::ToServer);
    }
    if let Some(value) = behind_word(b"to-client ", line) {
        return read_u32(0, value).map(Event::ToClient);
    }
    None
}

// What a line says, where it is one of those that may be left out.
#[tactic(auto, unfolding(crate::specs::PairLine::behind_words))]
fn read_behind_words(alloc: Global, line: &[u8]) -> Result<Option<PairLine>, OutOfMemory>
    ensures value { IfOk result (λ o. o ≡ behind_words line.now) }
    ensures counts { IfOk result (λ o. IfSome o HasLineCount) }
{
    if let Some(value) = behind_word(b"client-hash ", line) {
        return Ok(read_hex(alloc, value)?.map(PairLine::ClientHash));
    }
    if let Some(value) = behind_word(b"server-hash ", line) {
        return Ok(read_hex(alloc, value)?.map(PairLine::ServerHash));
    }
    Ok(read_event(line).map(PairLine::Event))
}

// What a line says, where it is one of those behind the texts.
#[tactic(auto, unfolding(crate::specs::PairLine::behind_texts))]
fn read_behind_texts(alloc: Global, line: &[u8]) -> Result<Option<PairLine>, OutOfMemory>
    ensures value { IfOk result (λ o. o ≡ behind_texts line.now) }
    ensures counts { IfOk result (λ o. IfSome o HasLineCount) }
{
    if let Some(value) = behind_word(b"salt ", line) {
        return Ok(read_hex(alloc, value)?.map(PairLine::Salt));
    }
    if let Some(value) = behind_word(b"count ", line) {
        return Ok(read_u32(1, value).map(PairLine::Count));
    }
    if let Some(value) = behind_word(b"client ", line) {
        return Ok(read_nonce(value).map(PairLine::Client));
    }
    if let Some(value) = behind_word(b"server ", line) {
        return Ok(read_nonce(value).map(PairLine::Server));
    }
    if let Some(value) = behind_word(b"words ", line) {
        return Ok(read_words(value).map(PairLine::Words));
    }
    read_behind_words(alloc, line)
}

/// What a line says, where it is in the grammar.
#[tactic(auto, unfolding(crate::specs::PairLine::pair_line_of))]
pub fn read_pair_line(alloc: Global, line: &[u8]) -> Result<Option<PairLine>, OutOfMemory>
    ensures value { IfOk result (λ o. o ≡ pair_line_of line.now) }
    ensures counts { IfOk result (λ o. IfSome o HasLineCount) }
{
    if let Some(value) = behind_word(b"user ", line) {
        return Ok(read_text(alloc, value)?.map(PairLine::User));
    }
    if let Some(value) = behind_word(b"password ", line) {
        return Ok(read_text(alloc, value)?.map(PairLine::Password));
    }
    if let Some(value) = behind_word(b"stored ", line) {
        return Ok(read_text(alloc, value)?.map(PairLine::Stored));
    }
    read_behind_texts(alloc, line)
}
