//! A dialogue that owns what it was made for.
ghost use Rattle.std.specs.Prelude.{◌≡◌, ◌↔◌, IfSome, IsTrue, take};
ghost use Rattle.pgw_session.specs.Demands.{refused_config};
ghost use Rattle.pgw_session.specs.Input.{input_with};
ghost use Rattle.pgw_dialogue.specs.Answers.{answer_behind, waiting_answer};
ghost use Rattle.pgw_dialogue.specs.Demands.{RefusesKey};
ghost use Rattle.pgw_dialogue.specs.Machine.{notes_end, report_at};
ghost use Rattle.pgw_dialogue.specs.Wire.{IsEndError, Unless};
ghost use Rattle.hothummei_c.specs.Opening.{PutsStartup, held_behind};

use crate::steps::feed;
use bytes::BytesMut;
use pgw_backend::client_error::{PgWireClientError, PgWireClientResult};
use pgw_config::config::Config;
use pgw_dialogue::DialoguePhase;
use pgw_dialogue::demands::check_config;
use pgw_dialogue::inbox::Inbox;
use pgw_dialogue::input::Input;
use pgw_dialogue::machine::{self, end_error, into_report};
use pgw_session::notes::Notes;
use pgw_session::types::{Request, SessionReport};
use pgw_types::listed::Listed;
use std::alloc::Global;

/// What it does with bytes.
#[derive(Clone, Copy, Debug)]
pub enum HeldState {
    /// It takes them.
    Going,
    /// It passes them over, since the transcript is whole,
    Done,
    /// or refuses them: what was given before was refused,
    Refused,
    /// or memory was wanting.
    Starved,
}

/// A dialogue that owns the configuration, the requests and the nonce that it was made for, so that it can be kept
/// behind a handle. Its calls are those of `Dialogue`, and its clauses speak of the dialogue that it stands for.
pub struct Held {
    alloc: Global,
    config: Config,
    requests: Listed<Request>,
    nonce: [u8; 18],
    notes: Notes,
    inbox: Inbox,
    // How many bytes more it may take.
    room: u64,
    state: HeldState,
}

// Written out, so that a caller lets one go by one call.
impl Drop for Held {
    fn drop(self) {
        let Held {
            alloc: _alloc,
            config,
            requests,
            nonce: _nonce,
            notes,
            inbox,
            room: _room,
            state: _state,
        } = self;
        drop(config);
        drop(requests);
        drop(notes);
        drop(inbox);
    }
}

// Puts out the message that logs in.
fn open(alloc: Global, input: &Input<'_>, out: &mut BytesMut) -> PgWireClientResult<Notes>
    ensures refused { IfSome (refused_config input.now.config.now) (λ key. RefusesKey key result) }
    ensures opens { PutsStartup (input_with input.now.config.now input.now.requests.now
        input.now.nonce.now) out.old.items out.new.items result }
{
    match check_config(alloc, input.config) {
        Ok(()) => {}
        Err(refused) => return Err(refused),
    }
    let mut opening = BytesMut::new(alloc);
    let notes = match machine::start(alloc, input, &mut opening) {
        Ok(notes) => notes,
        Err(e) => return Err(e),
    };
    match out.extend_from_slice(opening.as_slice()) {
        Ok(()) => Ok(notes),
        Err(_) => {
            drop(notes);
            Err(PgWireClientError::OutOfMemory)
        }
    }
}

// The first bytes, no more than there is room for.
fn within(bytes: &[u8], room: u64) -> &[u8]
    ensures { result.now ≡ take room bytes.now }
{
    if room < bytes.len() as u64 {
        &bytes[..room as usize]
    } else {
        bytes
    }
}

// What is answered where the transcript is not whole.
fn waiting_answer(room: u64, closed: usize) -> PgWireClientResult<DialoguePhase>
    ensures { result ≡ waiting_answer room closed }
{
    if room == 0 {
        Err(PgWireClientError::ReadLimit)
    } else if closed == 0 {
        Ok(DialoguePhase::Waiting)
    } else {
        Ok(DialoguePhase::Ready)
    }
}

// What is answered behind some bytes.
fn answer_behind(
    fed: PgWireClientResult<bool>,
    room: u64,
    closed: usize,
) -> PgWireClientResult<DialoguePhase>
    ensures { result ≡ answer_behind fed room closed }
{
    match fed {
        Ok(true) => Ok(DialoguePhase::Done),
        Ok(false) => waiting_answer(room, closed),
        Err(e) => Err(e),
    }
}

// What it does with bytes behind an answer.
fn state_behind(answer: &PgWireClientResult<DialoguePhase>) -> HeldState
    ensures { result ≡ held_behind answer.now }
{
    match answer {
        Ok(DialoguePhase::Waiting) | Ok(DialoguePhase::Ready) => HeldState::Going,
        Ok(DialoguePhase::Done) => HeldState::Done,
        Err(PgWireClientError::OutOfMemory) => HeldState::Starved,
        Err(_) => HeldState::Refused,
    }
}

impl Held {
    ghost use Rattle.pgw_dialogue.specs.Dialogue.{Awaits, IsBehind, IsDone, Takes};
    ghost use Rattle.hothummei_c.specs.Held.{HeldStarts, dialogue_of};

    /// Begins a session: puts out the message that logs in.
    pub fn start(
        alloc: Global,
        config: Config,
        requests: Listed<Request>,
        nonce: [u8; 18],
        limit: u64,
        out: &mut BytesMut,
    ) -> PgWireClientResult<Held>
        // A configuration that demands what this client can't do is refused by that key, or memory is wanting.
        ensures refused { IfSome (refused_config config) (λ key. RefusesKey key result) }
        // It stands for no bytes given, and for the startup message put out. Else nothing is put out, and the error has its
        // cause.
        ensures starts { HeldStarts (input_with config requests nonce) limit out.old.items
            out.new.items result }
    {
        let input = Input {
            config: &config,
            requests: requests.as_slice(),
            nonce: &nonce,
        };
        match open(alloc, &input, out) {
            Ok(notes) => Ok(Held {
                alloc,
                config,
                requests,
                nonce,
                notes,
                inbox: Inbox::new(alloc),
                room: limit,
                state: HeldState::Going,
            }),
            Err(e) => {
                drop(config);
                drop(requests);
                Err(e)
            }
        }
    }

    /// Takes bytes that came from the server, and puts out what is to be sent then.
    pub fn take(&mut self, piece: &[u8], out: &mut BytesMut) -> PgWireClientResult<DialoguePhase>
        ensures takes { Takes (dialogue_of self.old) (dialogue_of self.new) piece.now out.old.items
            out.new.items result }
        // It awaits more bytes, or is done, or broken, as it answers.
        ensures after { IsBehind (dialogue_of self.new) result }
    {
        match self.state {
            HeldState::Going => {}
            HeldState::Done => return Ok(DialoguePhase::Done),
            HeldState::Refused | HeldState::Starved => return Err(PgWireClientError::Broken),
        }
        let input = Input {
            config: &self.config,
            requests: self.requests.as_slice(),
            nonce: &self.nonce,
        };
        let bytes = within(piece, self.room);
        let fed = feed(
            self.alloc,
            &input,
            &mut self.notes,
            &mut self.inbox,
            bytes,
            out,
        );
        self.room -= bytes.len() as u64;
        let answer = answer_behind(fed, self.room, self.notes.closed);
        self.state = state_behind(&answer);
        answer
    }

    /// Whether it awaits more bytes.
    pub fn awaits(&self) -> bool
        ensures { IsTrue result ↔ Awaits (dialogue_of self.now) }
    {
        match self.state {
            HeldState::Going => self.room > 0,
            HeldState::Done | HeldState::Refused | HeldState::Starved => false,
        }
    }

    /// What it means that no more bytes come.
    pub fn at_end(&self) -> PgWireClientError
        ensures end { IsEndError result }
        ensures is { Unless result (result ≡ notes_end (dialogue_of self.now).notes) }
    {
        end_error(self.alloc, &self.notes)
    }

    /// What is reported of the session.
    pub fn report(self) -> SessionReport
        ensures { result ≡ report_at (dialogue_of self).notes }
    {
        let Held {
            alloc: _alloc,
            config,
            requests,
            nonce: _nonce,
            notes,
            inbox,
            room: _room,
            state: _state,
        } = self;
        drop(config);
        drop(requests);
        drop(inbox);
        into_report(notes)
    }
}
