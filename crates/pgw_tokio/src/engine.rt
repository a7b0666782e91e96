//! A dialogue as an engine.
ghost use Rattle.std.specs.Prelude.{◌≡◌, ◌⊎◌, [], Ok, IsSomeAnd};
ghost use Rattle.pgw_session.specs.Input.{input_with};
ghost use Rattle.pgw_dialogue.specs.Machine.{notes_end};
ghost use Rattle.pgw_dialogue.specs.Wire.{IsEndError, Unless};
ghost use Rattle.pgw_tokio.specs.First.{first_turn, refusal_of, refused_at, turn_of};

use bytes::BytesMut;
use pgw_backend::client_error::{PgWireClientError, PgWireClientResult};
use pgw_config::config::Config;
use pgw_dialogue::{Dialogue, DialoguePhase};
use pgw_session::types::{Request, SessionReport};
use pgw_tokio_moving::{Engine, Turn};
use std::alloc::Global;

/// A dialogue, or what it was refused with.
pub struct SessionEngine<'a> {
    dialogue: Option<Dialogue<'a>>,
    refusal: Option<PgWireClientError>,
    // How many bytes more it may take.
    room: u64,
}

// Written out, so that a caller lets one go by one call.
impl Drop for SessionEngine<'_> {
    fn drop(self) {
        let SessionEngine {
            dialogue,
            refusal,
            room: _room,
        } = self;
        drop(dialogue);
        drop(refusal);
    }
}

// A session that may read nothing is over as soon as its first message is put out.
fn refused_at(limit: u64) -> Option<PgWireClientError>
    ensures { result ≡ refused_at limit }
{
    if limit == 0 {
        Some(PgWireClientError::ReadLimit)
    } else {
        None
    }
}

fn first_turn(limit: u64) -> Turn
    ensures { result ≡ first_turn limit }
{
    if limit == 0 { Turn::Over } else { Turn::More }
}

// What a phase makes of the turn.
pub(crate) fn turn_at(phase: DialoguePhase) -> Turn
    ensures { result ≡ turn_of (Ok phase) }
{
    match phase {
        DialoguePhase::Waiting | DialoguePhase::Ready => Turn::More,
        DialoguePhase::Done => Turn::Over,
    }
}

// What an answer makes of the turn and the refusal.
fn turn_after(answer: PgWireClientResult<DialoguePhase>) -> (Turn, Option<PgWireClientError>)
    ensures { result ≡ (turn_of answer, refusal_of answer) }
{
    match answer {
        Ok(phase) => (turn_at(phase), None),
        Err(e) => (Turn::Over, Some(e)),
    }
}

impl<'a> SessionEngine<'a> {
    ghost use Rattle.pgw_tokio.specs.Engine.{StandsAs};
    ghost use Rattle.pgw_tokio.specs.Stream.{AnswersOver, HasBegun, WasRefused};

    /// Begins a session: puts out the message that logs in.
    pub(crate) fn start(
        alloc: Global,
        config: &'a Config,
        requests: &'a [Request],
        nonce: &[u8; 18],
        limit: u64,
        out: &mut BytesMut,
    ) -> (SessionEngine<'a>, Turn)
        requires { out.old.items ≡ [] }
        ensures begins { HasBegun (input_with config.now requests.now nonce.now) limit result.0
            result.1 out.new.items
            ⊎ WasRefused (input_with config.now requests.now nonce.now) limit result.0 result.1
            out.new.items }
        ensures stands { StandsAs result.0 result.1 }
    {
        match Dialogue::start(alloc, config, requests, nonce, limit, out) {
            Ok(dialogue) => {
                let engine = SessionEngine {
                    dialogue: Some(dialogue),
                    refusal: refused_at(limit),
                    room: limit,
                };
                (engine, first_turn(limit))
            }
            Err(e) => {
                let engine = SessionEngine {
                    dialogue: None,
                    refusal: Some(e),
                    room: 0,
                };
                (engine, Turn::Over)
            }
        }
    }

    /// What is answered where it is over.
    pub(crate) fn into_answer(self) -> PgWireClientResult<SessionReport>
        requires { StandsAs self Turn.Over }
        ensures { AnswersOver self.entry.refusal self.entry.dialogue result }
    {
        let SessionEngine {
            dialogue,
            refusal,
            room: _room,
        } = self;
        match refusal {
            None => Ok(dialogue.unwrap().report()),
            Some(e) => {
                drop(dialogue);
                Err(e)
            }
        }
    }

    /// What it means that no more bytes come.
    pub(crate) fn at_end(&self) -> PgWireClientError
        requires { StandsAs self.now Turn.More }
        ensures end { IsEndError result }
        ensures is { IsSomeAnd self.now.dialogue
            (λ d. Unless result (result ≡ notes_end d.notes)) }
    {
        match &self.dialogue {
            Some(dialogue) => dialogue.at_end(),
            None => unreachable!(),
        }
    }
}

impl Engine for SessionEngine<'_> {
    ghost use Rattle.pgw_tokio.specs.Engine.{Feeds, StandsAs};
    ghost use Rattle.pgw_tokio.specs.Room.{room_is_there};

    ghost takes = { Feeds };

    ghost stands = { StandsAs };

    ghost room = { λ e. e.room };

    ghost has_room = { room_is_there };

    fn room(&self) -> u64 {
        self.room
    }

    fn take(&mut self, piece: &[u8], out: &mut BytesMut) -> Turn {
        let Some(dialogue) = &mut self.dialogue else {
            unreachable!()
        };
        let answer = dialogue.take(piece, out);
        self.room -= piece.len() as u64;
        let (turn, refusal) = turn_after(answer);
        self.refusal = refusal;
        turn
    }
}
