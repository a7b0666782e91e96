//! The bytes that wait of a side: what came, and was not passed on yet.
ghost use Rattle.std.specs.Prelude.{◌≡◌, ◌≤◌, ◌-◌, ◌++◌, length, slice_range};
ghost use Rattle.pgw_proxy.specs.Taking.{IsCutOf, SideRelayed, StepsRelay};

use crate::context::Context;
use crate::fault::ProxyFault;
use crate::front::take_message;
use crate::passing::{append, pass_front};
use crate::recorded::Side;
use crate::tape::pass_on;
use bytes::BytesMut;
use pgw_types::listed::Duplicate;
use pgw_types::memory::OutOfMemory;
use pgw_types::octets::Octets;
use pgw_wire::buffer::Buffer;
use pgw_wire::header::whole_end;
use std::alloc::Global;

// Bytes that lie where they are while messages are read at their front. What a message keeps of
// them is a copy.
#[derive(Clone, Copy, Drop)]
struct Peek<'a> {
    bytes: &'a [u8],
}

impl<'a> Buffer for Peek<'a> {
    ghost held = { λ peek. peek.bytes.now };

    fn bytes(&self) -> &[u8] {
        self.bytes
    }

    fn part(&self, alloc: Global, from: usize, to: usize) -> Result<Octets, OutOfMemory> {
        Octets::from_slice(alloc, &self.bytes[from..to])
    }

    fn pass(&mut self, count: usize) {
        self.bytes = &self.bytes[count..];
    }
}

// The bytes of a message that was taken, by how many were left of all before it was, and behind it.
fn message_bytes(bytes: &[u8], before: usize, behind: usize) -> &[u8]
    requires within { before ≤ length bytes.now }
    requires ordered { behind ≤ before }
    ensures { result.now
        ≡ slice_range bytes.now (length bytes.now - before) (length bytes.now - behind) }
{
    &bytes[bytes.len() - before..bytes.len() - behind]
}

// Takes the message at the front of what is left of the bytes, and passes it on as it was spelled.
// Answers whether there was one.
fn take_next<B: Buffer>(
    alloc: Global,
    side: Side,
    context: &mut Context,
    bytes: &[u8],
    left: &mut B,
    out: &mut BytesMut,
    tape: &mut BytesMut,
) -> Result<bool, ProxyFault>
    requires { IsCutOf bytes.now (B.held left.old) }
    ensures { StepsRelay side context.old (B.held left.old) context.new (B.held left.new)
        out.old.items out.new.items tape.old.items tape.new.items result }
{
    let before = left.bytes().len();
    match take_message(alloc, side, context, left) {
        Ok(Some(message)) => drop(message),
        Ok(None) => return Ok(false),
        Err(fault) => return Err(fault),
    }
    let message = message_bytes(bytes, before, left.bytes().len());
    match pass_on(side, message, out, tape) {
        Ok(()) => Ok(true),
        Err(_) => Err(ProxyFault::OutOfMemory),
    }
}

// Takes the messages that stand whole at the front of the bytes, and passes each on as it was
// spelled.
fn take_all<B: Buffer>(
    alloc: Global,
    side: Side,
    context: &mut Context,
    bytes: &[u8],
    left: &mut B,
    out: &mut BytesMut,
    tape: &mut BytesMut,
) -> Result<(), ProxyFault>
    requires { B.held left.old ≡ bytes.now }
    ensures { SideRelayed side context.old bytes.now context.new (B.held left.new)
        out.old.items out.new.items tape.old.items tape.new.items result }
{
    'messages: loop {
        match take_next(alloc, side, context, bytes, left, out, tape) {
            Ok(true) => {}
            Ok(false) => return Ok(()),
            Err(fault) => return Err(fault),
        }
    }
}

// As `take_all`, where messages keep cuts of the bytes, which copy none.
fn take_frozen(
    alloc: Global,
    side: Side,
    context: &mut Context,
    waiting: &mut BytesMut,
    out: &mut BytesMut,
    tape: &mut BytesMut,
) -> Result<(), ProxyFault>
    ensures { SideRelayed side context.old waiting.old.items context.new waiting.new.items
        out.old.items out.new.items tape.old.items tape.new.items result }
{
    let all = match waiting.freeze_to(waiting.len()) {
        Ok(bytes) => Octets::from_bytes(bytes),
        Err(_) => return Err(ProxyFault::OutOfMemory),
    };
    let mut left = match all.duplicate() {
        Ok(left) => left,
        Err(_) => return Err(ProxyFault::OutOfMemory),
    };
    match take_all(alloc, side, context, all.as_slice(), &mut left, out, tape) {
        Ok(()) => {}
        Err(fault) => return Err(fault),
    }
    match BytesMut::copy_from_slice(alloc, left.as_slice()) {
        Ok(rest) => {
            *waiting = rest;
            Ok(())
        }
        Err(_) => Err(ProxyFault::OutOfMemory),
    }
}

// As `take_all`, where the bytes lie.
fn take_here(
    alloc: Global,
    side: Side,
    context: &mut Context,
    waiting: &mut BytesMut,
    out: &mut BytesMut,
    tape: &mut BytesMut,
) -> Result<(), ProxyFault>
    ensures { SideRelayed side context.old waiting.old.items context.new waiting.new.items
        out.old.items out.new.items tape.old.items tape.new.items result }
{
    let mut peek = Peek {
        bytes: waiting.as_slice(),
    };
    match take_all(
        alloc,
        side,
        context,
        waiting.as_slice(),
        &mut peek,
        out,
        tape,
    ) {
        Ok(()) => {}
        Err(fault) => return Err(fault),
    }
    let taken = waiting.len() - peek.bytes.len();
    waiting.advance(taken);
    Ok(())
}

// Takes the messages that are whole.
fn take_whole(
    alloc: Global,
    side: Side,
    context: &mut Context,
    waiting: &mut BytesMut,
    out: &mut BytesMut,
    tape: &mut BytesMut,
) -> Result<(), ProxyFault>
    ensures { SideRelayed side context.old waiting.old.items context.new waiting.new.items
        out.old.items out.new.items tape.old.items tape.new.items result }
{
    if waiting.is_empty() {
        Ok(())
    } else if whole_end(waiting.as_slice()).is_some() {
        take_frozen(alloc, side, context, waiting, out, tape)
    } else {
        take_here(alloc, side, context, waiting, out, tape)
    }
}

// Adds bytes that came behind those that wait, and takes the messages that are whole then.
fn take_behind(
    alloc: Global,
    side: Side,
    context: &mut Context,
    waiting: &mut BytesMut,
    piece: &[u8],
    out: &mut BytesMut,
    tape: &mut BytesMut,
) -> Result<(), ProxyFault>
    ensures { SideRelayed side context.old (waiting.old.items ++ piece.now) context.new
        waiting.new.items
        out.old.items out.new.items tape.old.items tape.new.items result }
{
    match append(alloc, waiting, piece) {
        Ok(()) => take_whole(alloc, side, context, waiting, out, tape),
        Err(_) => Err(ProxyFault::OutOfMemory),
    }
}

// Adds a piece that came, and takes the messages that are whole then.
pub fn take_piece(
    alloc: Global,
    side: Side,
    context: &mut Context,
    waiting: &mut BytesMut,
    piece: &[u8],
    out: &mut BytesMut,
    tape: &mut BytesMut,
) -> Result<(), ProxyFault>
    ensures { SideRelayed side context.old (waiting.old.items ++ piece.now) context.new
        waiting.new.items
        out.old.items out.new.items tape.old.items tape.new.items result }
{
    match pass_front(alloc, side, context, waiting, piece, out, tape) {
        Ok(taken) => { take_behind(alloc, side, context, waiting, &piece[taken..], out, tape) }
        Err(_) => Err(ProxyFault::OutOfMemory),
    }
}
