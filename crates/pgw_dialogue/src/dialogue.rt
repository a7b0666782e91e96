//! A session whose bytes the caller moves.
ghost use Rattle.std.specs.Prelude.{◌≡◌, ◌<◌, ℕ, List, ◌⊎◌, true, Ok, Err, IfSome};
ghost use Rattle.pgw_backend.specs.declared.client_error.PgWireClientError.TheVariants as client;
ghost use Rattle.pgw_dialogue.specs.Demands.{RefusesKey};
ghost use Rattle.pgw_session.specs.Input.{input_with, Input as TheInput};
ghost use Rattle.pgw_dialogue.specs.Machine.{notes_end, report_at};
ghost use Rattle.pgw_dialogue.specs.Wire.{IsEndError, Unless};
ghost use Rattle.pgw_session.specs.Demands.{refused_config};
ghost use Rattle.pgw_session.specs.Failures.{EndsAs};
ghost use Rattle.pgw_session.specs.Transcript.{Completed};
ghost use Rattle.pgw_dialogue.specs.declared.phase.DialoguePhase.TheVariants as phase;
ghost use Rattle.pgw_dialogue.specs.Answers.{answer_behind, state_behind, taken_of, waiting_answer};

use crate::demands::check_config;
use crate::inbox::Inbox;
use crate::input::Input;
use crate::machine::{self, end_error, into_report};
use crate::phase::{DialoguePhase, State};
use crate::steps::{feed, within};
use bytes::BytesMut;
use pgw_backend::client_error::{PgWireClientError, PgWireClientResult};
use pgw_config::config::Config;
use pgw_session::notes::Notes;
use pgw_session::types::{Request, SessionReport};
use std::alloc::Global;

/// A session whose bytes the caller moves, by whatever means of input and output it has.
///
/// It is given the server's bytes as they come, in pieces of any length, and puts out what is to be sent to the server.
/// Of the bytes given it takes no more than its limit.
pub struct Dialogue<'a> {
    alloc: Global,
    config: &'a Config,
    requests: &'a [Request],
    nonce: [u8; 18],
    notes: Notes,
    inbox: Inbox,
    // How many bytes more it may take.
    room: u64,
    state: State,
}

// Written out, so that a caller lets one go by one call.
impl Drop for Dialogue<'_> {
    fn drop(self) {
        let Dialogue {
            alloc: _alloc,
            config: _config,
            requests: _requests,
            nonce: _nonce,
            notes,
            inbox,
            room: _room,
            state: _state,
        } = self;
        drop(notes);
        drop(inbox);
    }
}

// What is answered where the transcript is not whole: the limit is reached, or the startup segment is open, or has closed.
fn waiting_answer(room: u64, closed: usize) -> PgWireClientResult<DialoguePhase>
    ensures { result ≡ waiting_answer room closed }
{
    if room == 0 {
        Err(PgWireClientError::ReadLimit)
    } else if closed == 0 {
        Ok(DialoguePhase::Waiting)
    } else {
        Ok(DialoguePhase::Ready)
    }
}

// What is answered behind some bytes.
fn answer_behind(
    fed: PgWireClientResult<bool>,
    room: u64,
    closed: usize,
) -> PgWireClientResult<DialoguePhase>
    ensures { result ≡ answer_behind fed room closed }
{
    match fed {
        Ok(true) => Ok(DialoguePhase::Done),
        Ok(false) => waiting_answer(room, closed),
        Err(e) => Err(e),
    }
}

// What a dialogue does with bytes behind an answer.
fn state_behind(answer: &PgWireClientResult<DialoguePhase>) -> State
    ensures { result ≡ state_behind answer.now }
{
    match answer {
        Ok(DialoguePhase::Waiting) | Ok(DialoguePhase::Ready) => State::Going,
        Ok(DialoguePhase::Done) => State::Done,
        Err(PgWireClientError::OutOfMemory) => State::Starved,
        Err(_) => State::Refused,
    }
}

impl<'a> Dialogue<'a> {
    ghost use Rattle.pgw_dialogue.specs.Dialogue.{Awaits, IsBehind, IsBroken, IsDone, IsStarved, Stands, Starts, Takes};

    /// Begins a session: puts out the message that logs in.
    ///
    /// It is made for this configuration, these requests in turn and the nonce of a SCRAM login.
    pub fn start(
        alloc: Global,
        config: &'a Config,
        requests: &'a [Request],
        nonce: &[u8; 18],
        limit: u64,
        out: &mut BytesMut,
    ) -> PgWireClientResult<Dialogue<'a>>
        // A configuration that demands what this client can't do is refused by that key, or memory is wanting.
        ensures refused { IfSome (refused_config config.now) (λ key. RefusesKey key result) }
        // It stands for no bytes given, and for the startup message put out. Else nothing is put out, and the error has its
        // cause.
        ensures starts { Starts (input_with config.now requests.now nonce.now) limit out.old.items
            out.new.items result }
    {
        match check_config(alloc, config) {
            Ok(()) => {}
            Err(e) => return Err(e),
        }
        let input = Input {
            config,
            requests,
            nonce,
        };
        let mut opening = BytesMut::new(alloc);
        let notes = match machine::start(alloc, &input, &mut opening) {
            Ok(notes) => notes,
            Err(e) => return Err(e),
        };
        match out.extend_from_slice(opening.as_slice()) {
            Ok(()) => {}
            Err(_) => {
                drop(notes);
                return Err(PgWireClientError::OutOfMemory);
            }
        }
        Ok(Dialogue {
            alloc,
            config,
            requests,
            nonce: *nonce,
            notes,
            inbox: Inbox::new(alloc),
            room: limit,
            state: State::Going,
        })
    }

    /// Takes bytes that came from the server, and puts out what is to be sent then.
    ///
    /// The phase is that behind every message that is whole. Behind the end of the transcript bytes are passed over.
    pub fn take(&mut self, piece: &[u8], out: &mut BytesMut) -> PgWireClientResult<DialoguePhase>
        // For every pair of bytes given and bytes put out that it stood for, it stands for that pair with the piece and
        // what is put out now behind them. Its answer is the one of the bytes given, with its cause, or memory is wanting.
        ensures takes { Takes self.old self.new piece.now out.old.items out.new.items result }
        // It awaits more bytes, or is done, or broken, as it answers.
        ensures after { IsBehind self.new result }
        // It is starved where memory was wanting, now or before.
        ensures starved { IsStarved self.new → IsStarved self.old
            ⊎ (result ≡ Err client.OutOfMemory) }
        // Where the transcript is whole nothing changes,
        ensures done { IsDone self.old → (result ≡ Ok phase.Done) × (self.new ≡ self.old)
            × (out.new.items ≡ out.old.items) }
        // and where an earlier call was refused Broken is the answer, and nothing changes.
        ensures broken { IsBroken self.old → (result ≡ Err client.Broken) × (self.new ≡ self.old)
            × (out.new.items ≡ out.old.items) }
    {
        match self.state {
            State::Going => {}
            State::Done => return Ok(DialoguePhase::Done),
            State::Refused | State::Starved => return Err(PgWireClientError::Broken),
        }
        let input = Input {
            config: self.config,
            requests: self.requests,
            nonce: &self.nonce,
        };
        let bytes = within(piece, self.room);
        let fed = feed(
            self.alloc,
            &input,
            &mut self.notes,
            &mut self.inbox,
            bytes,
            out,
        );
        self.room -= bytes.len() as u64;
        let answer = answer_behind(fed, self.room, self.notes.closed);
        self.state = state_behind(&answer);
        answer
    }

    /// What it means that no more bytes come. Asked behind `start` with a limit above 0, or behind Waiting or Ready.
    pub fn at_end(&self) -> PgWireClientError
        requires { Awaits self.now }
        ensures end { IsEndError result }
        // It is the one of what was noted, or memory is wanting.
        ensures is { Unless result (result ≡ notes_end self.now.notes) }
        // For every pair that it stands for, the error has its cause, or memory is wanting.
        ensures cause { (input : TheInput) (limit : ℕ) (given put : List ℕ) →
            Stands input limit self.now given put → Unless result (EndsAs input given put result) }
    {
        end_error(self.alloc, &self.notes)
    }

    /// What is reported of the session.
    pub fn report(self) -> SessionReport
        requires { IsDone self }
        // It is that of what was noted.
        ensures reported { result ≡ report_at self.entry.notes }
        // For every pair that it stands for, it is that of a completed session.
        ensures completed { (input : TheInput) (limit : ℕ) (given put : List ℕ) →
            Stands input limit self.entry given put →
            Completed input (taken_of limit given) put result }
    {
        let Dialogue {
            alloc: _alloc,
            config: _config,
            requests: _requests,
            nonce: _nonce,
            notes,
            inbox,
            room: _room,
            state: _state,
        } = self;
        drop(inbox);
        into_report(notes)
    }
}
