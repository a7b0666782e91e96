//! A stream and an engine, poll by poll.
ghost use Rattle.std.specs.Prelude.{◌≡◌, ◌⊎◌, ◌↔◌, ◌<◌, ◌≤◌, ℕ, min, List, [], length, Ok, Err};
ghost use Rattle.std.specs.IoError.{error_kind};
ghost use Rattle.std.specs.declared.io.ErrorKind.TheVariants.{Interrupted};
ghost use Rattle.futures.specs.Task.{Covers, Hears, IsArmed, Keeps};
ghost use Rattle.futures.specs.Poll.{IfReady, OnPending};
ghost use Rattle.tokio.specs.Io.Moved.{bytes_moved, count_moved, IfReadyErr, OnReadyOk};

use crate::engine::{Engine, Turn};
use bytes::{Buf, BytesMut};
use futures::ready;
use futures::task::{Context, Poll};
use std::alloc::{AllocError, Global};
use std::io;
use tokio::io::{AsyncRead, AsyncWrite, poll_write_buf};

/// The most bytes that one read asks for.
pub const CHUNK: usize = 8192;

// How many reads one poll makes before it lets other tasks run.
const BUDGET: usize = 64;

/// What bytes are read by way of.
pub type Piece = Box<[u8; CHUNK]>;

/// A piece.
pub fn new_piece(alloc: Global) -> Result<Piece, AllocError> {
    Ok(Box::new(alloc, [0u8; CHUNK])?)
}

/// Why no more bytes are moved.
#[derive(Debug, Drop)]
pub enum Stop {
    /// The engine is over, and all that it put out was written and flushed.
    Over,
    /// The engine waits for more, and the stream's end has come.
    End,
    /// A call of the stream failed so.
    Fault(io::Error),
}

/// A stream, an engine with what it answered last, and what it put out and is not written yet.
#[derive(Drop)]
pub struct Exchange<S, E> {
    pub stream: S,
    pub engine: E,
    pub turn: Turn,
    pub out: BytesMut,
    /// Whether anything was written since the last flush.
    pub unflushed: bool,
    pub piece: Piece,
}

// A call that failed; one that was interrupted is made again at the next poll.
fn failed<T>(e: io::Error, cx: &mut Context<'_>) -> Poll<io::Result<T>>
    ensures value { (result ≡ Poll.Ready (Err e)) ⊎ (result ≡ Poll.Pending) }
    ensures registered { OnPending result (IsArmed cx.new × ((s : ℕ) → Hears cx.new s)) }
    ensures kept { Keeps cx.old cx.new }
    ensures kind { (result ≡ Poll.Pending) ↔ (error_kind e ≡ Interrupted) }
{
    if e.kind() == io::ErrorKind::Interrupted {
        return cx.yield_now();
    }
    Poll::Ready(Err(e))
}

// One read into the front of a piece, of no more than so many bytes.
fn poll_read_piece<S: AsyncRead>(
    stream: &mut S,
    cx: &mut Context<'_>,
    piece: &mut [u8; CHUNK],
    size: usize,
) -> Poll<io::Result<usize>>
    requires some { 0 < size }
    requires within { size ≤ 8192 }
    ensures bound { count_moved result ≤ size }
    ensures bytes { S.reads stream.old (bytes_moved result piece.new) stream.new }
    ensures end { result ≡ Poll.Ready (Ok 0) → S.is_at_end stream.new }
    ensures failed { IfReadyErr result (S.fails stream.new) }
    ensures registered { OnPending result (Covers cx.new (S.needs stream.new)) }
    ensures kept { Keeps cx.old cx.new }
{
    stream.poll_read(cx, &mut piece[..size])
}

impl<S: AsyncRead + AsyncWrite, E: Engine> Exchange<S, E> {
    ghost use Rattle.pgw_tokio_moving.specs.Calls.{Call};
    ghost use Rattle.pgw_tokio_moving.specs.Moving.{held_in, IsSent, HasSoundEngine, Met, PolledStream, Ran, MovesStreamBytes, WaitsFor};

    // One write from the front of what is to be written.
    fn poll_write(&mut self, cx: &mut Context<'_>) -> Poll<io::Result<()>>
        requires { 0 < length self.old.out.items }
        ensures same { (self.new.engine ≡ self.old.engine) × (self.new.turn ≡ self.old.turn) }
        ensures polled { PolledStream S.AsyncRead S.AsyncWrite E.Engine (held_in self.old)
            (held_in self.new) result }
        ensures registered { OnPending result
            (Covers cx.new (WaitsFor S.AsyncRead S.AsyncWrite (held_in self.new))) }
        ensures kept { Keeps cx.old cx.new }
        ensures less { OnReadyOk result (length self.new.out.items < length self.old.out.items) }
    {
        match ready!(poll_write_buf(&mut self.stream, cx, &mut self.out)) {
            Ok(0) => Poll::Ready(Err(io::Error::from(io::ErrorKind::WriteZero))),
            Ok(_) => {
                self.unflushed = true;
                Poll::Ready(Ok(()))
            }
            Err(e) => failed(e, cx),
        }
    }

    // Flushes, where anything was written since the last flush.
    fn poll_flush(&mut self, cx: &mut Context<'_>) -> Poll<io::Result<()>>
        requires { self.old.out.items ≡ [] }
        ensures same { (self.new.engine ≡ self.old.engine) × (self.new.turn ≡ self.old.turn) }
        ensures polled { PolledStream S.AsyncRead S.AsyncWrite E.Engine (held_in self.old)
            (held_in self.new) result }
        ensures sent { OnReadyOk result (IsSent (held_in self.new)) }
        ensures registered { OnPending result
            (Covers cx.new (WaitsFor S.AsyncRead S.AsyncWrite (held_in self.new))) }
        ensures kept { Keeps cx.old cx.new }
    {
        if !self.unflushed {
            return Poll::Ready(Ok(()));
        }
        match ready!(self.stream.poll_flush(cx)) {
            Ok(()) => {
                self.unflushed = false;
                Poll::Ready(Ok(()))
            }
            Err(e) => failed(e, cx),
        }
    }

    // Writes all that is to be written, and flushes.
    fn poll_send(&mut self, cx: &mut Context<'_>) -> Poll<io::Result<()>>
        ensures same { (self.new.engine ≡ self.old.engine) × (self.new.turn ≡ self.old.turn) }
        ensures polled { PolledStream S.AsyncRead S.AsyncWrite E.Engine (held_in self.old)
            (held_in self.new) result }
        ensures sent { OnReadyOk result (IsSent (held_in self.new)) }
        ensures registered { OnPending result
            (Covers cx.new (WaitsFor S.AsyncRead S.AsyncWrite (held_in self.new))) }
        ensures kept { Keeps cx.old cx.new }
    {
        while self.out.has_remaining() {
            match ready!(self.poll_write(cx)) {
                Ok(()) => {}
                Err(e) => return Poll::Ready(Err(e)),
            }
        }
        self.out.clear();
        self.poll_flush(cx)
    }

    // How many bytes the next read asks for.
    fn size(&self) -> usize
        ensures { result ≡ min 8192 (E.room self.now.engine) }
    {
        let room = self.engine.room();
        if room < CHUNK as u64 {
            room as usize
        } else {
            CHUNK
        }
    }

    // Reads once, and gives the engine what came. False at the stream's end.
    fn poll_fill(&mut self, cx: &mut Context<'_>) -> Poll<io::Result<bool>>
        requires sent { IsSent (held_in self.old) }
        requires waits { self.old.turn ≡ Turn.More }
        requires sound { HasSoundEngine E.Engine (held_in self.old) }
        ensures met { Met S.AsyncRead S.AsyncWrite E.Engine (held_in self.old)
            (held_in self.new) result }
        ensures sound { HasSoundEngine E.Engine (held_in self.new) }
        ensures registered { OnPending result
            (Covers cx.new (WaitsFor S.AsyncRead S.AsyncWrite (held_in self.new))) }
        ensures kept { Keeps cx.old cx.new }
    {
        let size = self.size();
        match ready!(poll_read_piece(&mut self.stream, cx, &mut self.piece, size)) {
            Ok(0) => Poll::Ready(Ok(false)),
            Ok(n) => {
                self.turn = self.engine.take(&self.piece[..n], &mut self.out);
                Poll::Ready(Ok(true))
            }
            Err(e) => failed(e, cx),
        }
    }

    // Moves bytes until there is no more to move, or nothing can be moved now.
    pub(crate) fn poll_exchange(&mut self, cx: &mut Context<'_>) -> Poll<Stop>
        requires sound { HasSoundEngine E.Engine (held_in self.old) }
        ensures ended { IfReady result
            (λ why. Ran S.AsyncRead S.AsyncWrite E.Engine (held_in self.old) why
            (held_in self.new)) }
        ensures went { OnPending result
            ((calls : List Call) × MovesStreamBytes S.AsyncRead S.AsyncWrite E.Engine
            (held_in self.old) calls
            (held_in self.new)) }
        ensures sound { HasSoundEngine E.Engine (held_in self.new) }
        ensures registered { OnPending result
            (Covers cx.new (WaitsFor S.AsyncRead S.AsyncWrite (held_in self.new))) }
        ensures kept { Keeps cx.old cx.new }
    {
        for _ in 0..BUDGET {
            match ready!(self.poll_send(cx)) {
                Ok(()) => {}
                Err(e) => return Poll::Ready(Stop::Fault(e)),
            }
            if self.turn == Turn::Over {
                return Poll::Ready(Stop::Over);
            }
            match ready!(self.poll_fill(cx)) {
                Ok(true) => {}
                Ok(false) => return Poll::Ready(Stop::End),
                Err(e) => return Poll::Ready(Stop::Fault(e)),
            }
        }
        cx.yield_now()
    }
}
