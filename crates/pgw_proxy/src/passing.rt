//! Plain messages, passed on as they lie: one record for each, and one copy of all of them.
ghost use Rattle.std.specs.Prelude.{◌≡◌, ◌≤◌, ◌++◌, drop, length, IfOk, OnOk, OnErr};
ghost use Rattle.pgw_proxy.specs.Plain.{BreaksRelay, PlainRuns, Tapes};
ghost use Rattle.pgw_proxy.specs.Taking.{RelaysUpTo};

use crate::context::Context;
use crate::plain::{is_settled, plain_end};
use crate::recorded::Side;
use crate::tape::put_record;
use bytes::BytesMut;
use pgw_types::memory::OutOfMemory;
use pgw_wire::header::length_at;
use std::alloc::Global;

// A block of more bytes is let go of once nothing waits in it.
const KEPT: usize = 65536;

// Records the plain messages at the front, and answers how many bytes they have.
fn record_plain(
    side: Side,
    ready: bool,
    bytes: &[u8],
    tape: &mut BytesMut,
) -> Result<usize, OutOfMemory>
    ensures within { IfOk result (λ n. n ≤ length bytes.now) }
    ensures ok { IfOk result (λ n. Tapes side ready bytes.now n tape.old.items tape.new.items) }
    ensures err { OnErr result (tape.new.items ≡ tape.old.items) }
{
    let start = tape.len();
    let mut taken = 0;
    while let Some(end) = plain_end(side, ready, &bytes[taken..]) {
        match put_record(side, &bytes[taken..taken + end], tape) {
            Ok(()) => taken += end,
            Err(_) => {
                tape.truncate(start);
                return Err(OutOfMemory);
            }
        }
    }
    Ok(taken)
}

// Passes on and records the plain messages at the front, and answers how many bytes they have.
fn pass_plain(
    side: Side,
    context: &Context,
    bytes: &[u8],
    out: &mut BytesMut,
    tape: &mut BytesMut,
) -> Result<usize, OutOfMemory>
    ensures within { IfOk result (λ n. n ≤ length bytes.now) }
    ensures ok { IfOk result (λ n. PlainRuns side context.now bytes.now (drop n bytes.now)
        out.old.items out.new.items tape.old.items tape.new.items) }
    ensures err { OnErr result
        ((out.new.items ≡ out.old.items) × (tape.new.items ≡ tape.old.items)) }
{
    if !is_settled(context) {
        return Ok(0);
    }
    let start = tape.len();
    let taken = record_plain(side, context.ready, bytes, tape)?;
    match out.extend_from_slice(&bytes[..taken]) {
        Ok(()) => Ok(taken),
        Err(_) => {
            tape.truncate(start);
            Err(OutOfMemory)
        }
    }
}

// Takes bytes away at the front of those that wait.
fn take_away(alloc: Global, waiting: &mut BytesMut, count: usize)
    requires { count ≤ length waiting.old.items }
    ensures { waiting.new.items ≡ drop count waiting.old.items }
{
    if count < waiting.len() {
        waiting.advance(count);
    } else if waiting.capacity() > KEPT {
        *waiting = BytesMut::new(alloc);
    } else {
        waiting.clear();
    }
}

// Passes on the plain messages at the front of what waits.
fn pass_waiting(
    alloc: Global,
    side: Side,
    context: &Context,
    waiting: &mut BytesMut,
    out: &mut BytesMut,
    tape: &mut BytesMut,
) -> Result<(), OutOfMemory>
    ensures ok { OnOk result (PlainRuns side context.now waiting.old.items waiting.new.items
        out.old.items out.new.items tape.old.items tape.new.items) }
    ensures err { OnErr result
        ((out.new.items ≡ out.old.items) × (tape.new.items ≡ tape.old.items)) }
{
    let taken = pass_plain(side, context, waiting.as_slice(), out, tape)?;
    take_away(alloc, waiting, taken);
    Ok(())
}

// Passes on those of a piece that came, where nothing waits before it.
fn pass_piece(
    side: Side,
    context: &Context,
    waiting: &BytesMut,
    piece: &[u8],
    out: &mut BytesMut,
    tape: &mut BytesMut,
) -> Result<usize, OutOfMemory>
    ensures within { IfOk result (λ n. n ≤ length piece.now) }
    ensures ok { IfOk result (λ n. RelaysUpTo side context.now (waiting.now.items ++ piece.now)
        context.now (waiting.now.items ++ drop n piece.now)
        out.old.items out.new.items tape.old.items tape.new.items) }
    ensures err { OnErr result
        ((out.new.items ≡ out.old.items) × (tape.new.items ≡ tape.old.items)) }
{
    if waiting.is_empty() {
        pass_plain(side, context, piece, out, tape)
    } else {
        Ok(0)
    }
}

// How many bytes of a piece make the message that waits whole, as far as that is known.
fn wanted(waiting: &[u8], piece: &[u8]) -> usize
    ensures { result ≤ length piece.now }
{
    if waiting.is_empty() {
        return 0;
    }
    if waiting.len() < 5 {
        return piece.len();
    }
    let end = length_at(waiting, 1) as usize + 1;
    piece.len().min(end.saturating_sub(waiting.len()))
}

// Some bytes and others behind them, in a block of their size, of which nothing has to be cleared.
fn joined(alloc: Global, first: &[u8], second: &[u8]) -> Result<BytesMut, OutOfMemory>
    ensures { IfOk result (λ all. all.items ≡ first.now ++ second.now) }
{
    let mut all = Vec::with_capacity(alloc, first.len().saturating_add(second.len()))?;
    all.extend_from_slice(first)?;
    all.extend_from_slice(second)?;
    Ok(BytesMut::from_vec(all))
}

/// Adds a piece that came. The bytes that wait grow by themselves, and not by a length that was
/// told.
pub fn append(alloc: Global, waiting: &mut BytesMut, piece: &[u8]) -> Result<(), OutOfMemory>
    ensures ok { OnOk result (waiting.new.items ≡ waiting.old.items ++ piece.now) }
    ensures err { OnErr result (waiting.new.items ≡ waiting.old.items) }
{
    if piece.len() < waiting.len() || piece.len() <= waiting.capacity() - waiting.len() {
        waiting.extend_from_slice(piece)?;
    } else {
        let all = joined(alloc, waiting.as_slice(), piece)?;
        *waiting = all;
    }
    Ok(())
}

/// Passes on the plain messages at the front of what waits and of a piece that came behind it, and
/// answers how many bytes of the piece were taken from it.
pub fn pass_front(
    alloc: Global,
    side: Side,
    context: &Context,
    waiting: &mut BytesMut,
    piece: &[u8],
    out: &mut BytesMut,
    tape: &mut BytesMut,
) -> Result<usize, OutOfMemory>
    ensures within { IfOk result (λ n. n ≤ length piece.now) }
    ensures ok { IfOk result (λ n. RelaysUpTo side context.now (waiting.old.items ++ piece.now)
        context.now (waiting.new.items ++ drop n piece.now)
        out.old.items out.new.items tape.old.items tape.new.items) }
    ensures err { OnErr result (BreaksRelay side context.now (waiting.old.items ++ piece.now)
        out.old.items out.new.items tape.old.items tape.new.items) }
{
    let wanted = wanted(waiting.as_slice(), piece);
    append(alloc, waiting, &piece[..wanted])?;
    pass_waiting(alloc, side, context, waiting, out, tape)?;
    let taken = pass_piece(side, context, waiting, &piece[wanted..], out, tape)?;
    Ok(wanted + taken)
}
