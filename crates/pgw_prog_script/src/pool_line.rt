//! The lines of a pool script.
ghost use Rattle.std.specs.Prelude.{◌≡◌, ◌<◌, IfOk, IfSome};
ghost use Rattle.pgw_prog_script.specs.PoolLine.{run_in, call_in, behind_settings, pool_line_of, MovesPool};

use crate::line::{read_bytes, read_cut, read_nonce};
use crate::number::read_number;
use crate::request_line::read_text;
use pgw_session::types::Request;
use pgw_types::marks::{behind_word, cut_at};
use pgw_types::memory::OutOfMemory;
use pgw_types::octets::Octets;
use pgw_types::text::Text;
use std::alloc::Global;

/// A call of a pool, or of a lease by its number.
#[derive(Debug, Drop)]
pub enum PoolCall {
    Lend,
    Run(u64, Request),
    Back(u64),
}

/// What one line of a pool script says.
#[derive(Debug, Drop)]
pub enum PoolLine {
    /// A connection text.
    Config(Text),
    Nonce([u8; 18]),
    Limit(u64),
    Cut(usize),
    /// What the server of one session sends.
    Server(Octets),
    Call(PoolCall),
}

// A simple query in a lease.
#[tactic(auto, unfolding(crate::specs::PoolLine::run_in))]
fn read_run(alloc: Global, text: &[u8]) -> Result<Option<PoolCall>, OutOfMemory>
    ensures { IfOk result (λ o. o ≡ run_in text.now) }
{
    let (lease, Some(sql)) = cut_at(text, b' ') else {
        return Ok(None);
    };
    match (read_number(lease), read_text(alloc, sql)?) {
        (Some(lease), Some(sql)) => Ok(Some(PoolCall::Run(lease, Request::Simple(sql)))),
        _ => Ok(None),
    }
}

// The call that a line makes, if it does.
#[tactic(auto, unfolding(crate::specs::PoolLine::call_in))]
fn read_call(alloc: Global, line: &[u8]) -> Result<Option<PoolCall>, OutOfMemory>
    ensures { IfOk result (λ o. o ≡ call_in line.now) }
{
    if line == b"lend".as_slice() {
        return Ok(Some(PoolCall::Lend));
    }
    if let Some(text) = behind_word(b"run ", line) {
        return read_run(alloc, text);
    }
    if let Some(lease) = behind_word(b"back ", line) {
        return Ok(read_number(lease).map(PoolCall::Back));
    }
    Ok(None)
}

// What a line says, where it is a server's or a call.
#[tactic(auto, unfolding(crate::specs::PoolLine::behind_settings))]
fn read_behind_settings(alloc: Global, line: &[u8]) -> Result<Option<PoolLine>, OutOfMemory>
    ensures value { IfOk result (λ o. o ≡ behind_settings line.now) }
    ensures moves { IfOk result (λ o. IfSome o MovesPool) }
{
    if let Some(value) = behind_word(b"server ", line) {
        return Ok(read_bytes(alloc, value)?.map(PoolLine::Server));
    }
    Ok(read_call(alloc, line)?.map(PoolLine::Call))
}

/// What a line says, where it is in the grammar.
#[tactic(auto, unfolding(crate::specs::PoolLine::pool_line_of))]
pub fn read_pool_line(alloc: Global, line: &[u8]) -> Result<Option<PoolLine>, OutOfMemory>
    ensures value { IfOk result (λ o. o ≡ pool_line_of line.now) }
    ensures moves { IfOk result (λ o. IfSome o MovesPool) }
{
    if let Some(value) = behind_word(b"config ", line) {
        return Ok(read_text(alloc, value)?.map(PoolLine::Config));
    }
    if let Some(value) = behind_word(b"nonce ", line) {
        return Ok(read_nonce(value).map(PoolLine::Nonce));
    }
    if let Some(value) = behind_word(b"limit ", line) {
        return Ok(read_number(value).map(PoolLine::Limit));
    }
    if let Some(value) = behind_word(b"cut ", line) {
        return Ok(read_cut(value).map(PoolLine::Cut));
    }
    read_behind_settings(alloc, line)
}
