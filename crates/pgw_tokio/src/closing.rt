//! What is said to a server with no answer awaited: that a connection ends, and that another's request be canceled.
ghost use Rattle.std.specs.Prelude.{◌≡◌, [], IfOk};
ghost use Rattle.pgw_tokio.specs.Closing.{IsCancelOf, IsClosingOf, PutsEnd, PutsMessage};
ghost use Rattle.pgw_tokio.specs.Sending.{CanSend};

use crate::client::AsyncClient;
use crate::sending::{Sending, send};
use bytes::BytesMut;
use pgw_backend::client_error::PgWireClientError;
use pgw_control::cancel::CancelRequest;
use pgw_control::terminate::Terminate;
use pgw_dialogue::standings::own_key;
use pgw_dialogue::wire::put_all;
use pgw_frontend::frontend::PgWireFrontendMessage;
use pgw_tokio_moving::{Exchange, new_piece};
use pgw_types::memory::OutOfMemory;
use pgw_wire::secret_key::SecretKey;
use std::alloc::Global;
use tokio::io::{AsyncRead, AsyncWrite};

// Puts a message out, or nothing.
fn put_message(message: PgWireFrontendMessage, out: &mut BytesMut) -> Option<PgWireClientError>
    requires { out.old.items ≡ [] }
    ensures { PutsMessage message out.new.items result }
{
    let messages = [message];
    match put_all(messages.as_slice(), out) {
        Ok(()) => None,
        Err(e) => Some(e),
    }
}

// Puts out the message that ends a connection, where it can be used.
fn put_end(is_usable: bool, out: &mut BytesMut) -> Option<PgWireClientError>
    requires { out.old.items ≡ [] }
    ensures { PutsEnd is_usable out.new.items result }
{
    if !is_usable {
        return Some(PgWireClientError::Broken);
    }
    put_message(PgWireFrontendMessage::Terminate(Terminate::new()), out)
}

impl<S: AsyncRead + AsyncWrite> AsyncClient<S> {
    /// Ends the connection: writes that it ends and flushes, and gives the stream back, which it does not shut down. Of a
    /// client that can't be used nothing is written, and the result is Broken; read its `fault` before.
    pub fn close(self) -> Sending<S>
        ensures closes { IsClosingOf self result }
        ensures ready { CanSend result }
    {
        let is_usable = self.is_usable();
        let AsyncClient { exchange } = self;
        let Exchange {
            stream,
            engine,
            turn: _,
            mut out,
            unflushed: _,
            piece,
        } = Box::into_inner(exchange);
        drop(engine);
        out.clear();
        let refusal = put_end(is_usable, &mut out);
        send(stream, out, refusal, piece)
    }
}

/// Asks a server, over a stream of its own, to cancel what it does for the client of this process number and this key.
/// No answer comes: the stream is given back, to be closed. Where memory is wanting it is let go.
pub fn cancel<S: AsyncRead + AsyncWrite>(
    alloc: Global,
    stream: S,
    process_id: i32,
    secret_key: &SecretKey,
) -> Result<Sending<S>, OutOfMemory>
    ensures cancels { IfOk result (IsCancelOf process_id secret_key.now stream) }
    ensures ready { IfOk result CanSend }
{
    let key = own_key(alloc, secret_key)?;
    let piece = new_piece(alloc)?;
    let mut out = BytesMut::new(alloc);
    let request = CancelRequest::new(process_id, key);
    let refusal = put_message(PgWireFrontendMessage::CancelRequest(request), &mut out);
    Ok(send(stream, out, refusal, piece))
}
