//! A session over a stream that may keep one waiting.
ghost use Rattle.std.specs.Prelude.{◌≡◌, IfOk, IsSomeAnd};
ghost use Rattle.pgw_tokio_moving.specs.Moving.{held_in, WaitsFor};
ghost use Rattle.pgw_session.specs.Input.{input_with};
ghost use Rattle.pgw_tokio.specs.Engine.{StreamStandsBehind};
ghost use Rattle.pgw_tokio.specs.Stream.{AnswersAs, CanPoll, GivesSession, IsSessionOf};

use crate::engine::SessionEngine;
use bytes::BytesMut;
use futures::Future;
use futures::task::{Context, Poll};
use pgw_backend::client_error::{PgWireClientError, PgWireClientResult};
use pgw_config::config::Config;
use pgw_session::types::{Request, SessionReport};
use pgw_tokio_moving::{Moved, Moving, Stop, new_piece};
use pgw_types::memory::OutOfMemory;
use std::alloc::Global;
use std::io;
use tokio::io::{AsyncRead, AsyncWrite};

/// How a session ended.
#[derive(Drop)]
pub struct Ended<S> {
    /// The stream, as its calls left it.
    pub stream: S,
    /// What the session answers.
    pub answer: PgWireClientResult<SessionReport>,
    /// The error of the stream's call that failed, if one did.
    pub fault: Option<io::Error>,
}

/// A session: a future.
#[derive(Drop)]
pub struct SessionFuture<'a, S> {
    moving: Moving<S, SessionEngine<'a>>,
}

/// Holds a session over a stream: logs in, asks the requests in turn, and reports. It reads at most so many bytes.
///
/// Where memory is wanting for what it reads by way of, the stream is let go: lend it, to keep it.
pub fn session<'a, S: AsyncRead + AsyncWrite>(
    alloc: Global,
    stream: S,
    config: &'a Config,
    requests: &'a [Request],
    nonce: &[u8; 18],
    limit: u64,
) -> Result<SessionFuture<'a, S>, OutOfMemory>
    // It is about to hold a session of this configuration, these requests and this nonce over the stream.
    ensures begins { IfOk result
        (IsSessionOf (input_with config.now requests.now nonce.now) limit stream) }
    ensures ready { IfOk result CanPoll }
{
    let piece = new_piece(alloc)?;
    let mut out = BytesMut::new(alloc);
    let (engine, turn) = SessionEngine::start(alloc, config, requests, nonce, limit, &mut out);
    Ok(SessionFuture {
        moving: Moving::new(stream, engine, turn, out, piece),
    })
}

// How it ended, by why no more bytes were moved.
fn ending_of<S>(moved: Moved<S, SessionEngine<'_>>) -> Ended<S>
    requires { StreamStandsBehind moved.engine moved.stop }
    ensures stream { result.stream ≡ moved.entry.stream }
    ensures answers { AnswersAs moved.entry.engine moved.entry.stop result.answer result.fault }
{
    let Moved {
        stream,
        engine,
        out: _out,
        piece: _piece,
        stop,
    } = moved;
    let (answer, fault) = match stop {
        Stop::Over => (engine.into_answer(), None),
        Stop::End => (Err(engine.at_end()), None),
        Stop::Fault(e) => (Err(PgWireClientError::IoError), Some(e)),
    };
    Ended {
        stream,
        answer,
        fault,
    }
}

impl<S: AsyncRead + AsyncWrite> Future for SessionFuture<'_, S> {
    type Output = Ended<S>;

    ghost can_poll = { CanPoll };

    ghost needs = { λ f source. IsSomeAnd f.moving.state
        (λ x. WaitsFor S.AsyncRead S.AsyncWrite (held_in x) source) };

    ghost gives = { GivesSession S.AsyncRead S.AsyncWrite };

    fn poll(&mut self, cx: &mut Context<'_>) -> Poll<Ended<S>> {
        match self.moving.poll(cx) {
            Poll::Ready(moved) => Poll::Ready(ending_of(moved)),
            Poll::Pending => Poll::Pending,
        }
    }
}
