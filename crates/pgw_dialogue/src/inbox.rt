//! The bytes that were read and not taken yet.
ghost use Rattle.std.specs.Prelude.{◌≡◌, ◌≤◌, [], ◌++◌, length, take, IfErr, IfOk, OnOk, OnErr};
ghost use Rattle.std.specs.Bool.{OnTrue};
ghost use Rattle.pgw_query.specs.Runs.{HasNoRow, MovesRows};
ghost use Rattle.pgw_dialogue.specs.Inbox.{EndsRow, HasSpan, InboxPasses};
ghost use Rattle.pgw_dialogue.specs.Wire.{IsOwn, Decoded};

use crate::wire::decode;
use bytes::{Bytes, BytesMut};
use pgw_backend::backend::PgWireBackendMessage;
use pgw_backend::client_error::PgWireClientError;
use pgw_query::data_rows::DataRows;
use pgw_query::run::{Span, span_of};
use pgw_types::context::ProtocolVersion;
use pgw_types::memory::OutOfMemory;
use pgw_types::octets::Octets;
use pgw_wire::header::whole_end;
use std::alloc::Global;
use std::marker::Model;

// A message of more bytes shares its block with no other.
const LARGE: usize = 16384;

/// The bytes that were read and not taken yet: a front that stays as it is, so that messages keep
/// cuts of it, and a tail that grows. Its contracts see one list.
///
/// Messages that came whole pass from the tail to the front together, where they lie, and no part
/// of one that is not whole does: it waits in the tail, which grows with the bytes that came and
/// not by a length that was told. The beginning of a message that is not whole goes, with the
/// bytes that come next, to the block that these are kept in, and grows there where it takes more
/// reads; what follows a large message is copied away from it. No other byte is copied for a
/// message. No block is cleared.
#[derive(Drop)]
pub struct Inbox {
    front: Octets,
    tail: BytesMut,
}

impl Model for Inbox {
    ghost use Rattle.std.specs.Prelude.{ℕ, List, ◌++◌};

    ghost Value = { List ℕ };

    ghost view = { λ inbox. inbox.front ++ inbox.tail.items };
}

impl Inbox {
    /// With no bytes.
    pub fn new(alloc: Global) -> Inbox
        ensures { result ≡ [] }
    {
        Inbox {
            front: Octets::from_bytes(Bytes::new()),
            tail: BytesMut::new(alloc),
        }
    }

    /// How many bytes.
    pub fn len(&self) -> usize
        ensures { result ≡ length self.now }
    {
        self.front.len() + self.tail.len()
    }

    /// Adds bytes that were read.
    pub fn append(&mut self, bytes: &[u8]) -> Result<(), OutOfMemory>
        ensures ok { OnOk result (self.new ≡ self.old ++ bytes.now) }
        ensures err { OnErr result (self.new ≡ self.old) }
    {
        if bytes.len() < self.tail.len() {
            self.tail.extend_from_slice(bytes)?;
        } else {
            let all = joined(*self.tail.allocator(), self.tail.as_slice(), bytes)?;
            self.tail = all;
        }
        Ok(())
    }

    /// Takes the message at the front, if it is whole.
    #[inline(always)]
    pub fn next_message(
        &mut self,
        alloc: Global,
        version: ProtocolVersion,
    ) -> Result<Option<PgWireBackendMessage>, PgWireClientError>
        ensures own { IfErr result IsOwn }
        ensures decoded { Decoded version self.old self.new result }
    {
        match decode(alloc, version, &mut self.front) {
            Ok(Some(message)) => Ok(Some(message)),
            Ok(None) => {
                if self.tail.len() == 0 {
                    return Ok(None);
                }
                take_behind(alloc, version, &mut self.front, &mut self.tail)
            }
            Err(e) => Err(e),
        }
    }

    /// Takes the rows that stand whole at the front, all of them, and adds them to others, as they lie; answers how
    /// many there were.
    pub fn take_rows(&mut self, rows: &mut DataRows) -> Result<usize, OutOfMemory>
        ensures taken { IfOk result (MovesRows rows.old rows.new self.old self.new) }
        ensures all { OnOk result (HasNoRow self.new) }
        ensures err { OnErr result ((rows.new ≡ rows.old) × (self.new ≡ self.old)) }
    {
        let span = bring_rows(&mut self.front, &mut self.tail)?;
        rows.take_span(&mut self.front, span)
    }
}

/// An inbox in two: the bytes at the front, which stay as they are, so that what is taken of them is a cut of their
/// block, and those behind them.
#[derive(Drop)]
pub struct InboxParts {
    pub front: Octets,
    pub behind: BytesMut,
}

impl Inbox {
    /// Brings the rows that stand whole at the front into the bytes that stay as they are.
    pub fn settle(&mut self) -> Result<(), OutOfMemory>
        ensures { self.new ≡ self.old }
    {
        bring_rows(&mut self.front, &mut self.tail)?;
        Ok(())
    }

    /// Its front, and what is behind that.
    pub fn into_parts(self) -> InboxParts
        ensures { result.front ++ result.behind.items ≡ self }
    {
        let Inbox { front, tail } = self;
        InboxParts {
            front,
            behind: tail,
        }
    }
}

impl InboxParts {
    pub fn into_inbox(self) -> Inbox
        ensures { result ≡ self.front ++ self.behind.items }
    {
        let InboxParts { front, behind } = self;
        Inbox {
            front,
            tail: behind,
        }
    }
}

// Takes the message at the front, where none is whole in the front alone.
fn take_behind(
    alloc: Global,
    version: ProtocolVersion,
    front: &mut Octets,
    tail: &mut BytesMut,
) -> Result<Option<PgWireBackendMessage>, PgWireClientError>
    ensures own { IfErr result IsOwn }
    ensures decoded { Decoded version (front.old ++ tail.old.items) (front.new ++ tail.new.items)
        result }
{
    match freeze(alloc, front, tail) {
        Ok(()) => {}
        Err(_) => return Err(PgWireClientError::OutOfMemory),
    }
    match decode(alloc, version, front) {
        Ok(Some(message)) => return Ok(Some(message)),
        Ok(None) => {}
        Err(e) => return Err(e),
    }
    match gather(front, tail) {
        Ok(()) => {}
        Err(_) => return Err(PgWireClientError::OutOfMemory),
    }
    decode(alloc, version, tail)
}

// Passes what came whole to the front. Of a large message no more than its own bytes pass, and what
// follows it begins another block.
fn freeze(alloc: Global, front: &mut Octets, tail: &mut BytesMut) -> Result<(), OutOfMemory>
    ensures same { front.new ++ tail.new.items ≡ front.old ++ tail.old.items }
    ensures passed { OnOk result (InboxPasses (front.old ++ tail.old.items) (length front.new)) }
{
    gather(front, tail)?;
    let len = frozen_len(tail.as_slice());
    let frozen = tail.freeze_to(len)?;
    *front = Octets::from_bytes(frozen);
    if len > LARGE {
        let rest = BytesMut::copy_from_slice(alloc, tail.as_slice())?;
        *tail = rest;
    }
    Ok(())
}

// How many bytes pass to the front: all messages that stand whole in a row, or a large first one.
fn frozen_len(bytes: &[u8]) -> usize
    ensures within { result ≤ length bytes.now }
    ensures passed { InboxPasses bytes.now result }
{
    match whole_end(bytes) {
        None => 0,
        Some(end) => { if end > LARGE { end } else { whole_len(bytes) } }
    }
}

// Where the last of the messages ends that stand whole in a row at the front.
fn whole_len(bytes: &[u8]) -> usize
    ensures within { result ≤ length bytes.now }
    ensures ends { EndsRow bytes.now result }
{
    let mut end = 0;
    while let Some(len) = whole_end(&bytes[end..]) {
        end += len;
    }
    end
}

// Finds the rows that stand whole at the front, and brings them into the front alone.
fn bring_rows(front: &mut Octets, tail: &mut BytesMut) -> Result<Span, OutOfMemory>
    ensures same { front.new ++ tail.new.items ≡ front.old ++ tail.old.items }
    ensures found { IfOk result (λ span. HasSpan front.new tail.new.items span) }
{
    let bytes = front.as_slice();
    let span = span_of(bytes);
    if is_last(&bytes[span.end..], tail.as_slice()) {
        return Ok(span);
    }
    gather(front, tail)?;
    freeze_rows(front, tail)
}

// Whether bytes at whose front no row is whole have none there either with others behind them: a
// message that is no row is whole there, or there are none, and no message is whole in the others.
fn is_last(bytes: &[u8], others: &[u8]) -> bool
    requires { HasNoRow bytes.now }
    ensures { OnTrue result (HasNoRow (bytes.now ++ others.now)) }
{
    if bytes.is_empty() {
        whole_end(others).is_none()
    } else {
        whole_end(bytes).is_some()
    }
}

// Passes the rows that stand whole at the tail's front, and nothing behind them.
fn freeze_rows(front: &mut Octets, tail: &mut BytesMut) -> Result<Span, OutOfMemory>
    requires { front.old ≡ [] }
    ensures same { front.new ++ tail.new.items ≡ tail.old.items }
    ensures found { IfOk result (λ span. HasSpan front.new tail.new.items span) }
    ensures alone { IfOk result (λ span. front.new ≡ take span.end tail.old.items) }
{
    let span = span_of(tail.as_slice());
    let frozen = tail.freeze_to(span.end)?;
    *front = Octets::from_bytes(frozen);
    Ok(span)
}

// Puts what is left of the front back before the tail.
fn gather(front: &mut Octets, tail: &mut BytesMut) -> Result<(), OutOfMemory>
    ensures moved { OnOk result ((front.new ≡ [])
        × (tail.new.items ≡ front.old ++ tail.old.items)) }
    ensures kept { OnErr result ((front.new ≡ front.old) × (tail.new.items ≡ tail.old.items)) }
{
    if front.is_empty() {
        return Ok(());
    }
    let all = joined(*tail.allocator(), front.as_slice(), tail.as_slice())?;
    *tail = all;
    *front = Octets::from_bytes(Bytes::new());
    Ok(())
}

// Some bytes and others behind them, in a block of their size.
fn joined(alloc: Global, first: &[u8], second: &[u8]) -> Result<BytesMut, OutOfMemory>
    ensures { IfOk result (λ all. all.items ≡ first.now ++ second.now) }
{
    let mut all = Vec::with_capacity(alloc, first.len().saturating_add(second.len()))?;
    all.extend_from_slice(first)?;
    all.extend_from_slice(second)?;
    Ok(BytesMut::from_vec(all))
}
