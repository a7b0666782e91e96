//! The lines of a session script.
ghost use Rattle.std.specs.Prelude.{◌≡◌, ◌<◌, ◌&&◌, IfOk, IfSome, nat_le};
ghost use Rattle.pgw_prog_script.specs.Line.{version_in, nonce_in, cut_in, bytes_in, later_line_of, bound_of, setting_of, line_of_cut, CutMovesByte};

use crate::number::read_number;
use crate::request_line::{read_hex, read_request, read_text};
use crate::server_bytes::ServerBytes;
use hex::FromHex;
use pgw_session::types::Request;
use pgw_types::context::ProtocolVersion;
use pgw_types::marks::behind_word;
use pgw_types::memory::OutOfMemory;
use pgw_types::octets::Octets;
use pgw_types::text::Text;
use std::alloc::Global;

/// What one line of a script says.
#[derive(Debug, Drop)]
pub enum Line {
    /// A connection text.
    Config(Text),
    Protocol(ProtocolVersion),
    /// The hash of the server's certificate.
    Certificate(Octets),
    Nonce([u8; 18]),
    Limit(u64),
    Cut(usize),
    FailRead(u64),
    FailWrite(u64),
    Request(Request),
    Server(Octets),
}

#[tactic(auto, unfolding(crate::specs::Line::version_in))]
fn read_version(value: &[u8]) -> Option<ProtocolVersion>
    ensures { result ≡ version_in value.now }
{
    if value == b"3.0".as_slice() {
        Some(ProtocolVersion::PROTOCOL3_0)
    } else if value == b"3.2".as_slice() {
        Some(ProtocolVersion::PROTOCOL3_2)
    } else if value == b"3.9999".as_slice() {
        Some(ProtocolVersion::PROTOCOL3_9999)
    } else {
        None
    }
}

/// The bytes of 36 hex digits.
#[tactic(auto, unfolding(crate::specs::Line::nonce_in))]
pub fn read_nonce(value: &[u8]) -> Option<[u8; 18]>
    ensures { result ≡ nonce_in value.now }
{
    <[u8; 18] as FromHex>::from_hex(value).ok()
}

/// A number from 1 to 65536.
#[tactic(auto, unfolding(crate::specs::Line::cut_in))]
pub fn read_cut(value: &[u8]) -> Option<usize>
    ensures value { result ≡ cut_in value.now }
    ensures moves { IfSome result (λ n. 0 < n) }
{
    match read_number(value) {
        Some(number) if is_cut(number) => Some(number as usize),
        _ => None,
    }
}

fn is_cut(number: u64) -> bool
    ensures { result ≡ (nat_le 1 number && nat_le number 65536) }
{
    1 <= number && number <= 65536
}

/// The bytes of hex digits, among which spaces may stand.
pub fn read_bytes(alloc: Global, value: &[u8]) -> Result<Option<Octets>, OutOfMemory>
    ensures { IfOk result (λ o. o ≡ bytes_in value.now) }
{
    let mut bytes = ServerBytes::new(alloc);
    if bytes.add_hex(value)? {
        Ok(Some(bytes.into_octets()?))
    } else {
        Ok(None)
    }
}

// What a line says, where it is one of the later kinds.
#[tactic(auto, unfolding(crate::specs::Line::later_line_of))]
fn read_later_line(alloc: Global, line: &[u8]) -> Result<Option<Line>, OutOfMemory>
    ensures value { IfOk result (λ o. o ≡ later_line_of line.now) }
    ensures moves { IfOk result (λ o. IfSome o CutMovesByte) }
{
    if let Some(value) = behind_word(b"fail read ", line) {
        return Ok(read_number(value).map(Line::FailRead));
    }
    if let Some(value) = behind_word(b"fail write ", line) {
        return Ok(read_number(value).map(Line::FailWrite));
    }
    if let Some(value) = behind_word(b"server ", line) {
        return Ok(read_bytes(alloc, value)?.map(Line::Server));
    }
    Ok(read_request(alloc, line)?.map(Line::Request))
}

// What a line says, where it is a bound or one of the later kinds.
#[tactic(auto, unfolding(crate::specs::Line::bound_of))]
fn read_bound(alloc: Global, line: &[u8]) -> Result<Option<Line>, OutOfMemory>
    ensures value { IfOk result (λ o. o ≡ bound_of line.now) }
    ensures moves { IfOk result (λ o. IfSome o CutMovesByte) }
{
    if let Some(value) = behind_word(b"limit ", line) {
        return Ok(read_number(value).map(Line::Limit));
    }
    if let Some(value) = behind_word(b"cut ", line) {
        return Ok(read_cut(value).map(Line::Cut));
    }
    read_later_line(alloc, line)
}

// What a line says, where it is a setting or one of the later kinds.
#[tactic(auto, unfolding(crate::specs::Line::setting_of))]
fn read_setting(alloc: Global, line: &[u8]) -> Result<Option<Line>, OutOfMemory>
    ensures value { IfOk result (λ o. o ≡ setting_of line.now) }
    ensures moves { IfOk result (λ o. IfSome o CutMovesByte) }
{
    if let Some(value) = behind_word(b"protocol ", line) {
        return Ok(read_version(value).map(Line::Protocol));
    }
    if let Some(value) = behind_word(b"certificate ", line) {
        return Ok(read_hex(alloc, value)?.map(Line::Certificate));
    }
    if let Some(value) = behind_word(b"nonce ", line) {
        return Ok(read_nonce(value).map(Line::Nonce));
    }
    read_bound(alloc, line)
}

/// What a line says, where it is in the grammar.
#[tactic(auto, unfolding(crate::specs::Line::line_of_cut))]
pub fn read_line(alloc: Global, line: &[u8]) -> Result<Option<Line>, OutOfMemory>
    ensures value { IfOk result (λ o. o ≡ line_of_cut line.now) }
    ensures moves { IfOk result (λ o. IfSome o CutMovesByte) }
{
    if let Some(value) = behind_word(b"config ", line) {
        return Ok(read_text(alloc, value)?.map(Line::Config));
    }
    read_setting(alloc, line)
}
