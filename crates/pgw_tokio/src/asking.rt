//! A request that was asked over a stream that may keep one waiting.
ghost use Rattle.std.specs.Prelude.{◌≡◌, IsSomeAnd};
ghost use Rattle.pgw_tokio_moving.specs.Moving.{held_in, WaitsFor};
ghost use Rattle.pgw_tokio.specs.Asking.{CanAsk, GivesAnswered};
ghost use Rattle.pgw_tokio.specs.Calling.{ClientStandsBehind, RequestAnswers};
ghost use Rattle.pgw_tokio.specs.Client.{fault_in, push_in, stream_in};
ghost use Rattle.pgw_tokio.specs.Faults.{fault_after};

use crate::calling::ClientEngine;
use crate::client::AsyncClient;
use futures::Future;
use futures::task::{Context, Poll};
use pgw_backend::client_error::PgWireClientResult;
use pgw_session::types::Answer;
use pgw_tokio_moving::{BoxedMoved, BoxedMoving};
use tokio::io::{AsyncRead, AsyncWrite};

/// What a request gave, and the client that was asked.
#[derive(Drop)]
pub struct Answered<S> {
    pub client: AsyncClient<S>,
    pub answer: PgWireClientResult<Answer>,
}

/// A request that was asked: a future. It has the client until it ends, and where it is let go before that, the client
/// is let go with it.
#[derive(Drop)]
pub struct Asking<S> {
    pub(crate) moving: BoxedMoving<S, ClientEngine>,
}

// The client and its answer, by why no more bytes were moved.
fn answered_by<S>(moved: BoxedMoved<S, ClientEngine>) -> Answered<S>
    requires { ClientStandsBehind moved.exchange.value.engine moved.stop }
    ensures stream { stream_in result.client ≡ moved.exchange.value.stream }
    ensures answers { RequestAnswers moved.exchange.value.engine.client
        moved.exchange.value.engine.refusal moved.stop (push_in result.client) result.answer }
    ensures fault { fault_in result.client
        ≡ fault_after moved.stop moved.exchange.value.engine.fault }
{
    let BoxedMoved { mut exchange, stop } = moved;
    let answer = exchange.engine.answer(stop);
    Answered {
        client: AsyncClient { exchange },
        answer,
    }
}

impl<S: AsyncRead + AsyncWrite> Future for Asking<S> {
    type Output = Answered<S>;

    ghost can_poll = { CanAsk };

    ghost needs = { λ f source. IsSomeAnd f.moving.state
        (λ b. WaitsFor S.AsyncRead S.AsyncWrite (held_in b.value) source) };

    ghost gives = { GivesAnswered S.AsyncRead S.AsyncWrite };

    fn poll(&mut self, cx: &mut Context<'_>) -> Poll<Answered<S>> {
        match self.moving.poll(cx) {
            Poll::Ready(moved) => Poll::Ready(answered_by(moved)),
            Poll::Pending => Poll::Pending,
        }
    }
}
