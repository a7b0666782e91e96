//! Bytes that are written over a stream, with nothing awaited.
ghost use Rattle.std.specs.Prelude.{IsSomeAnd};
ghost use Rattle.pgw_tokio_moving.specs.Moving.{held_in, WaitsFor};
ghost use Rattle.pgw_tokio.specs.Sending.{CanSend, EndsSending, GivesSent, IsToSend, SilentFeeds, SilentStands, one_is_there};

use bytes::BytesMut;
use futures::Future;
use futures::task::{Context, Poll};
use pgw_backend::client_error::{PgWireClientError, PgWireClientResult};
use pgw_tokio_moving::{Engine, Moved, Moving, Piece, Stop, Turn};
use std::io;
use tokio::io::{AsyncRead, AsyncWrite};

/// What lets go of the bytes that it is given, and puts out none.
#[derive(Clone, Copy, Debug, PartialEq, Eq)]
pub struct Silent;

impl Engine for Silent {
    ghost takes = { SilentFeeds };

    ghost stands = { SilentStands };

    ghost room = { λ _. 1 };

    ghost has_room = { one_is_there };

    fn room(&self) -> u64 {
        1
    }

    fn take(&mut self, _piece: &[u8], _out: &mut BytesMut) -> Turn {
        Turn::Over
    }
}

/// What came of bytes that were to be written.
#[derive(Drop)]
pub struct Sent<S> {
    /// The stream, as its calls left it.
    pub stream: S,
    /// Whether all was written and flushed.
    pub result: PgWireClientResult<()>,
    /// The error of the stream's call that failed, if one did.
    pub fault: Option<io::Error>,
}

/// Bytes on their way: a future.
#[derive(Drop)]
pub struct Sending<S> {
    pub(crate) moving: Moving<S, Silent>,
    // Why there is nothing to write.
    pub(crate) refusal: Option<PgWireClientError>,
}

// Writes these bytes and flushes, unless they were refused.
pub(crate) fn send<S: AsyncRead + AsyncWrite>(
    stream: S,
    out: BytesMut,
    refusal: Option<PgWireClientError>,
    piece: Piece,
) -> Sending<S>
    ensures sends { IsToSend stream out.items refusal result }
    ensures ready { CanSend result }
{
    Sending {
        moving: Moving::new(stream, Silent, Turn::Over, out, piece),
        refusal,
    }
}

// What came of it, by why no more bytes were moved.
fn sent_by<S>(moved: Moved<S, Silent>, refusal: Option<PgWireClientError>) -> Sent<S>
    ensures { EndsSending moved.stream moved.stop refusal result }
{
    let Moved {
        stream,
        engine: _,
        out: _out,
        piece: _piece,
        stop,
    } = moved;
    let (result, fault) = match stop {
        Stop::Over | Stop::End => match refusal {
            None => (Ok(()), None),
            Some(e) => (Err(e), None),
        },
        Stop::Fault(e) => (Err(PgWireClientError::IoError), Some(e)),
    };
    Sent {
        stream,
        result,
        fault,
    }
}

impl<S: AsyncRead + AsyncWrite> Future for Sending<S> {
    type Output = Sent<S>;

    ghost can_poll = { CanSend };

    ghost needs = { λ f source. IsSomeAnd f.moving.state
        (λ x. WaitsFor S.AsyncRead S.AsyncWrite (held_in x) source) };

    ghost gives = { GivesSent S.AsyncRead S.AsyncWrite };

    fn poll(&mut self, cx: &mut Context<'_>) -> Poll<Sent<S>> {
        match self.moving.poll(cx) {
            Poll::Ready(moved) => Poll::Ready(sent_by(moved, self.refusal.take())),
            Poll::Pending => Poll::Pending,
        }
    }
}
