//! A client as an engine, with the error of its stream.
ghost use Rattle.std.specs.Prelude.{◌≡◌, [], true};
ghost use Rattle.pgw_client_push.specs.Standing.{IsIdle};
ghost use Rattle.pgw_client_push.specs.Told.{push_room};
ghost use Rattle.pgw_tokio.specs.Faults.{fault_after};
ghost use Rattle.pgw_tokio.specs.First.{refusal_of, turn_of};

use crate::engine::turn_at;
use bytes::BytesMut;
use pgw_backend::client_error::{PgWireClientError, PgWireClientResult};
use pgw_client_push::{DialoguePhase, PushClient};
use pgw_session::types::{Answer, Request};
use pgw_tokio_moving::{Engine, Stop, Turn};
use std::io;

/// A client, what it was refused with, and the error of the stream's call that failed, if one did.
pub struct ClientEngine {
    pub(crate) client: PushClient,
    pub(crate) refusal: Option<PgWireClientError>,
    pub(crate) fault: Option<io::Error>,
}

// Written out, so that a caller lets one go by one call.
impl Drop for ClientEngine {
    fn drop(self) {
        let ClientEngine {
            client,
            refusal,
            fault,
        } = self;
        drop(client);
        drop(refusal);
        drop(fault);
    }
}

// Keeps what an answer refuses, and tells the turn.
fn keep(refusal: &mut Option<PgWireClientError>, answer: PgWireClientResult<DialoguePhase>) -> Turn
    ensures turn { result ≡ turn_of answer }
    ensures refusal { refusal.new ≡ refusal_of answer }
{
    match answer {
        Ok(phase) => {
            *refusal = None;
            turn_at(phase)
        }
        Err(e) => {
            *refusal = Some(e);
            Turn::Over
        }
    }
}

// The error of the call that failed, or an earlier one.
pub(crate) fn fault_after(why: Stop, earlier: Option<io::Error>) -> Option<io::Error>
    ensures { result ≡ fault_after why earlier }
{
    match why {
        Stop::Fault(e) => Some(e),
        Stop::Over | Stop::End => earlier,
    }
}

impl ClientEngine {
    ghost use Rattle.pgw_tokio.specs.Calling.{BeginsRequest, ClientStands, ClientStandsBehind};
    ghost use Rattle.pgw_tokio.specs.Calling.{LoginAnswers, RequestAnswers, client_unless};

    /// Begins to ask a request: puts out its messages. Where the client can't be used it stays as it is.
    pub(crate) fn ask(&mut self, is_usable: bool, request: Request, out: &mut BytesMut) -> Turn
        requires empty { out.old.items ≡ [] }
        requires idle { is_usable ≡ true → IsIdle self.old.client }
        ensures begins { BeginsRequest is_usable self.old.client request self.new result
            out.new.items }
        ensures stands { ClientStands self.new result }
        ensures fault { self.new.fault ≡ self.old.fault }
    {
        if !is_usable {
            drop(request);
            self.refusal = Some(PgWireClientError::Broken);
            return Turn::Over;
        }
        let answer = self.client.ask(request, out);
        keep(&mut self.refusal, answer)
    }

    /// Why there is no client that has logged in, if there is none, by why no more bytes were moved.
    pub(crate) fn login_refusal(&mut self, why: &Stop) -> Option<PgWireClientError>
        requires { ClientStandsBehind self.old why.now }
        ensures answers { LoginAnswers self.old.client self.old.refusal why.now
            (client_unless self.old.client result) }
        ensures same { self.new.client ≡ self.old.client }
    {
        match why {
            Stop::Over => self.refusal.take(),
            Stop::End => Some(self.client.at_end()),
            Stop::Fault(_) => Some(PgWireClientError::IoError),
        }
    }

    /// What the client's request is answered, by why no more bytes were moved.
    pub(crate) fn answer(&mut self, why: Stop) -> PgWireClientResult<Answer>
        requires { ClientStandsBehind self.old why }
        ensures answers { RequestAnswers self.old.client self.old.refusal why self.new.client
            result }
        ensures fault { self.new.fault ≡ fault_after why self.old.fault }
    {
        match why {
            Stop::Over => match self.refusal.take() {
                // No client that stands for some bytes lacks its answer then.
                None => match self.client.take_answer() {
                    Some(answer) => Ok(answer),
                    None => Err(PgWireClientError::Broken),
                },
                Some(e) => Err(e),
            },
            Stop::End => Err(self.client.at_end()),
            Stop::Fault(e) => {
                self.fault = Some(e);
                Err(PgWireClientError::IoError)
            }
        }
    }
}

impl Engine for ClientEngine {
    ghost use Rattle.pgw_tokio.specs.Calling.{ClientFeeds, ClientStands};

    ghost takes = { ClientFeeds };

    ghost stands = { ClientStands };

    ghost room = { λ e. push_room e.client };

    ghost has_room = { λ e waits. (waits.1).1 };

    fn room(&self) -> u64 {
        self.client.room()
    }

    fn take(&mut self, piece: &[u8], out: &mut BytesMut) -> Turn {
        let answer = self.client.take(piece, out);
        keep(&mut self.refusal, answer)
    }
}
