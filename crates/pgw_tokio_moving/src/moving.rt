//! The future that moves bytes.
ghost use Rattle.std.specs.Prelude.{◌≡◌, Some, IsSomeAnd};
ghost use Rattle.pgw_tokio_moving.specs.Moving.{held_in, HasSoundEngine, WaitsFor};

use crate::engine::{Engine, Turn};
use crate::exchange::{Exchange, Piece, Stop};
use bytes::BytesMut;
use futures::task::{Context, Poll};
use futures::{Future, ready};
use tokio::io::{AsyncRead, AsyncWrite};

/// Moves bytes between a stream and an engine until the engine is over, the stream ends or one of its calls fails.
#[derive(Drop)]
pub struct Moving<S, E> {
    state: Option<Exchange<S, E>>,
}

/// What comes back: the stream, the engine, what the engine put out and was not written, and why.
#[derive(Drop)]
pub struct Moved<S, E> {
    pub stream: S,
    pub engine: E,
    pub out: BytesMut,
    pub piece: Piece,
    pub stop: Stop,
}

impl<S: AsyncRead + AsyncWrite, E: Engine> Moving<S, E> {
    ghost use Rattle.pgw_tokio_moving.specs.Future.{fresh_mover};

    /// Begins with bytes that are to be written first, and an engine that answered this turn.
    pub fn new(stream: S, engine: E, turn: Turn, out: BytesMut, piece: Piece) -> Moving<S, E>
        ensures { IsSomeAnd result.state
            (λ x. held_in x ≡ fresh_mover stream engine turn out.items) }
    {
        Moving {
            state: Some(Exchange {
                stream,
                engine,
                turn,
                out,
                unflushed: false,
                piece,
            }),
        }
    }
}

// What comes back, with why.
fn brought_back<S, E>(exchange: Exchange<S, E>, stop: Stop) -> Moved<S, E>
    ensures parts { (result.stream ≡ exchange.stream) × (result.engine ≡ exchange.engine) }
    ensures out { result.out ≡ exchange.out }
    ensures why { result.stop ≡ stop }
{
    let Exchange {
        stream,
        engine,
        turn: _,
        out,
        unflushed: _,
        piece,
    } = exchange;
    Moved {
        stream,
        engine,
        out,
        piece,
        stop,
    }
}

impl<S: AsyncRead + AsyncWrite, E: Engine> Future for Moving<S, E> {
    type Output = Moved<S, E>;

    ghost use Rattle.pgw_tokio_moving.specs.Future.{CameTo};

    ghost can_poll = { λ f. IsSomeAnd f.state (λ x. HasSoundEngine E.Engine (held_in x)) };

    ghost needs = { λ f source. IsSomeAnd f.state
        (λ x. WaitsFor S.AsyncRead S.AsyncWrite (held_in x) source) };

    ghost gives = { λ f moved. IsSomeAnd f.state
        (λ x. CameTo S.AsyncRead S.AsyncWrite E.Engine (held_in x) moved) };

    fn poll(&mut self, cx: &mut Context<'_>) -> Poll<Moved<S, E>> {
        let Some(exchange) = &mut self.state else {
            unreachable!()
        };
        let stop = ready!(exchange.poll_exchange(cx));
        Poll::Ready(brought_back(self.state.take().unwrap(), stop))
    }
}

/// Moves bytes as `Moving` does, of an exchange that stays where it is on the heap.
#[derive(Drop)]
pub struct BoxedMoving<S, E> {
    state: Option<Box<Exchange<S, E>>>,
}

/// What comes back: the exchange with its stream, its engine and what that put out, as the calls left them, and why.
#[derive(Drop)]
pub struct BoxedMoved<S, E> {
    pub exchange: Box<Exchange<S, E>>,
    pub stop: Stop,
}

impl<S: AsyncRead + AsyncWrite, E: Engine> BoxedMoving<S, E> {
    /// Begins with what is to be written first. The exchange's turn is what its engine answered last.
    pub fn new(exchange: Box<Exchange<S, E>>) -> BoxedMoving<S, E>
        ensures { result.state ≡ Some exchange }
    {
        BoxedMoving {
            state: Some(exchange),
        }
    }
}

impl<S: AsyncRead + AsyncWrite, E: Engine> Future for BoxedMoving<S, E> {
    type Output = BoxedMoved<S, E>;

    ghost use Rattle.pgw_tokio_moving.specs.Future.{BoxCameTo};

    ghost can_poll = { λ f. IsSomeAnd f.state (λ b. HasSoundEngine E.Engine (held_in b.value)) };

    ghost needs = { λ f source. IsSomeAnd f.state
        (λ b. WaitsFor S.AsyncRead S.AsyncWrite (held_in b.value) source) };

    ghost gives = { λ f moved. IsSomeAnd f.state
        (λ b. BoxCameTo S.AsyncRead S.AsyncWrite E.Engine (held_in b.value) moved) };

    fn poll(&mut self, cx: &mut Context<'_>) -> Poll<BoxedMoved<S, E>> {
        let Some(exchange) = &mut self.state else {
            unreachable!()
        };
        let stop = ready!(exchange.poll_exchange(cx));
        Poll::Ready(BoxedMoved {
            exchange: self.state.take().unwrap(),
            stop,
        })
    }
}
