//! A login over a stream that may keep one waiting.
ghost use Rattle.std.specs.Prelude.{◌≡◌, [], None, IfErr, IfOk, IfSome, IsSomeAnd};
ghost use Rattle.pgw_tokio_moving.specs.Future.{fresh_mover};
ghost use Rattle.pgw_tokio_moving.specs.Moving.{held_in, WaitsFor};
ghost use Rattle.pgw_session.specs.Demands.{refused_config};
ghost use Rattle.pgw_session.specs.Input.{input_with};
ghost use Rattle.pgw_tokio.specs.Calling.{ClientStandsBehind};
ghost use Rattle.pgw_tokio.specs.Login.{StreamCanLogIn, EndsLogin, GivesLogin, IsLoginOf, IsUnbegun, RefusesLogin};

use crate::calling::{ClientEngine, fault_after};
use crate::client::AsyncClient;
use bytes::BytesMut;
use futures::Future;
use futures::task::{Context, Poll};
use pgw_backend::client_error::PgWireClientError;
use pgw_client_push::PushClient;
use pgw_config::config::Config;
use pgw_tokio_moving::{BoxedMoved, BoxedMoving, Exchange, Piece, Turn, new_piece};
use std::alloc::Global;
use std::io;
use tokio::io::{AsyncRead, AsyncWrite};

/// Why there is no client.
#[derive(Drop)]
pub struct NotLoggedIn<S> {
    /// The stream, as its calls left it.
    pub stream: S,
    pub error: PgWireClientError,
    /// The error of the stream's call that failed, if one did.
    pub fault: Option<io::Error>,
}

/// A login under way: a future. One that is let go lets its stream go, within a login.
#[derive(Drop)]
pub struct LoggingIn<S> {
    pub(crate) moving: BoxedMoving<S, ClientEngine>,
}

// Why nothing was begun.
fn not_begun<S>(stream: S, error: PgWireClientError) -> NotLoggedIn<S>
    ensures stream { result.stream ≡ stream }
    ensures error { result.error ≡ error }
    ensures fault { result.fault ≡ None }
{
    NotLoggedIn {
        stream,
        error,
        fault: None,
    }
}

// The stream of a client that is let go.
fn let_go<S>(exchange: Exchange<S, ClientEngine>) -> S
    ensures { result ≡ exchange.stream }
{
    let Exchange {
        stream,
        engine,
        turn: _,
        out: _out,
        unflushed: _,
        piece: _piece,
    } = exchange;
    drop(engine);
    stream
}

// A client on the heap, which waits for what comes and has these bytes to write first. Where memory is wanting its
// stream comes back.
fn boxed<S>(
    alloc: Global,
    stream: S,
    client: PushClient,
    out: BytesMut,
    piece: Piece,
) -> Result<Box<Exchange<S, ClientEngine>>, S>
    ensures ok { IfOk result (λ b. held_in b.value
        ≡ fresh_mover stream (record { client = client; refusal = None; fault = None })
        Turn.More out.items) }
    ensures back { IfErr result (λ s. s ≡ stream) }
{
    let engine = ClientEngine {
        client,
        refusal: None,
        fault: None,
    };
    let exchange = Exchange {
        stream,
        engine,
        turn: Turn::More,
        out,
        unflushed: false,
        piece,
    };
    match Box::new(alloc, exchange) {
        Ok(exchange) => Ok(exchange),
        Err(failed) => Err(let_go(failed.value)),
    }
}

/// Logs in over a stream. The client reads at most so many bytes in all, with those of the login; a limit of 0 is refused
/// at once, and `u64::MAX` is as good as none.
///
/// Where the login can't be begun it says why at once, and nothing is written.
pub fn log_in<S: AsyncRead + AsyncWrite>(
    alloc: Global,
    stream: S,
    config: Config,
    nonce: &[u8; 18],
    limit: u64,
) -> Result<LoggingIn<S>, NotLoggedIn<S>>
    // A configuration that demands what this client can't do is refused by that key, or memory is wanting.
    ensures refused { IfSome (refused_config config) (λ key. RefusesLogin key result) }
    // It is about to log in by this configuration and this nonce over the stream.
    ensures begins { IfOk result (IsLoginOf (input_with config [] nonce.now) limit stream) }
    ensures ready { IfOk result StreamCanLogIn }
    // Else the error has its cause, and the stream is as it was.
    ensures unbegun { IfErr result (IsUnbegun (input_with config [] nonce.now) limit stream) }
{
    let piece = match new_piece(alloc) {
        Ok(piece) => piece,
        Err(_) => {
            drop(config);
            return Err(not_begun(stream, PgWireClientError::OutOfMemory));
        }
    };
    let mut out = BytesMut::new(alloc);
    match PushClient::start(alloc, config, nonce, limit, &mut out) {
        Ok(client) => match boxed(alloc, stream, client, out, piece) {
            Ok(exchange) => Ok(LoggingIn {
                moving: BoxedMoving::new(exchange),
            }),
            Err(stream) => Err(not_begun(stream, PgWireClientError::OutOfMemory)),
        },
        Err(error) => Err(not_begun(stream, error)),
    }
}

// The client, or why there is none, by why no more bytes were moved.
fn logged_in_by<S>(moved: BoxedMoved<S, ClientEngine>) -> Result<AsyncClient<S>, NotLoggedIn<S>>
    requires { ClientStandsBehind moved.exchange.value.engine moved.stop }
    ensures { EndsLogin moved.exchange.value.stream moved.exchange.value.engine moved.stop result }
{
    let BoxedMoved { mut exchange, stop } = moved;
    match exchange.engine.login_refusal(&stop) {
        None => {
            // So it is known, whatever the exchange held.
            exchange.engine.fault = None;
            Ok(AsyncClient { exchange })
        }
        Some(error) => Err(NotLoggedIn {
            stream: let_go(Box::into_inner(exchange)),
            error,
            fault: fault_after(stop, None),
        }),
    }
}

impl<S: AsyncRead + AsyncWrite> Future for LoggingIn<S> {
    type Output = Result<AsyncClient<S>, NotLoggedIn<S>>;

    ghost can_poll = { StreamCanLogIn };

    ghost needs = { λ f source. IsSomeAnd f.moving.state
        (λ b. WaitsFor S.AsyncRead S.AsyncWrite (held_in b.value) source) };

    ghost gives = { GivesLogin S.AsyncRead S.AsyncWrite };

    fn poll(&mut self, cx: &mut Context<'_>) -> Poll<Result<AsyncClient<S>, NotLoggedIn<S>>> {
        match self.moving.poll(cx) {
            Poll::Ready(moved) => Poll::Ready(logged_in_by(moved)),
            Poll::Pending => Poll::Pending,
        }
    }
}
