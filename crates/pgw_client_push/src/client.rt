//! A client whose bytes the caller moves.
ghost use Rattle.std.specs.Prelude.{◌≡◌, ◌≤◌, ◌<◌, ◌+◌, ◌∷◌, ℕ, List, [], length, Some, None, Ok, Err, IfSome, IfOk};
ghost use Rattle.std.specs.Bool.{Decides};
ghost use Rattle.pgw_backend.specs.declared.client_error.PgWireClientError.TheVariants as client;
ghost use Rattle.pgw_dialogue.specs.Answers.{answer_behind};
ghost use Rattle.pgw_dialogue.specs.Demands.{RefusesKey};
ghost use Rattle.pgw_dialogue.specs.Wire.{IsEndError, Unless};
ghost use Rattle.pgw_session.specs.declared.types.Answer.{Answer as TheAnswer};
ghost use Rattle.pgw_session.specs.Demands.{refused_config};
ghost use Rattle.pgw_session.specs.Failures.{EndsAs};
ghost use Rattle.pgw_session.specs.Input.{input_with, Input as TheInput};
ghost use Rattle.pgw_client_push.specs.Calls.{Begun, OpensSegment};
ghost use Rattle.pgw_client_push.specs.Serving.{Serves};
ghost use Rattle.pgw_client_push.specs.Standing.{asks};

use crate::serving::serve;
use crate::state::{State, state_behind};
use bytes::BytesMut;
use pgw_backend::client_error::{PgWireClientError, PgWireClientResult};
use pgw_config::config::Config;
use pgw_dialogue::DialoguePhase;
use pgw_dialogue::answers::no_tally;
use pgw_dialogue::demands::check_config;
use pgw_dialogue::inbox::Inbox;
use pgw_dialogue::input::Input;
use pgw_dialogue::machine::{self, end_error};
use pgw_dialogue::requests::{kind_of, put_request};
use pgw_session::notes::Notes;
use pgw_session::stage::Stage;
use pgw_session::types::{Answer, Request};
use pgw_types::listed::Listed;
use std::alloc::Global;
use std::mem::replace;

/// A client whose bytes the caller moves, by whatever means of input and output it has, and that is asked one request at
/// a time.
///
/// While a segment is open it is given the server's bytes as they come; behind its end it can be asked. What comes while
/// no segment is open waits with the caller until the next request was asked. Each call puts out what is to be sent to
/// the server, which the caller sends first, also where the call fails. It takes no more bytes in all than its limit.
pub struct PushClient {
    pub(crate) alloc: Global,
    pub(crate) config: Config,
    pub(crate) nonce: [u8; 18],
    // The request whose segment is open or has closed last, and none where that is the startup segment.
    pub(crate) asked: Option<[Request; 1]>,
    // What is noted of that segment, and of the connection.
    pub(crate) notes: Notes,
    pub(crate) inbox: Inbox,
    // How many bytes more it may take.
    pub(crate) room: u64,
    pub(crate) state: State,
}

// Written out, so that a caller lets one go by one call.
impl Drop for PushClient {
    fn drop(self) {
        let PushClient {
            alloc: _alloc,
            config,
            nonce: _nonce,
            asked,
            notes,
            inbox,
            room: _room,
            state: _state,
        } = self;
        drop(config);
        drop(asked);
        drop(notes);
        drop(inbox);
    }
}

// What is answered behind some bytes: the segment has closed, or it is open still.
fn answer_behind(
    served: PgWireClientResult<bool>,
    room: u64,
    closed: usize,
) -> PgWireClientResult<DialoguePhase>
    ensures { result ≡ answer_behind served room closed }
{
    match served {
        Ok(true) => Ok(DialoguePhase::Done),
        Ok(false) => {
            if room == 0 {
                Err(PgWireClientError::ReadLimit)
            } else if closed == 0 {
                Ok(DialoguePhase::Waiting)
            } else {
                Ok(DialoguePhase::Ready)
            }
        }
        Err(e) => Err(e),
    }
}

// Checks the configuration, and puts out the message that logs in.
fn begin(
    alloc: Global,
    config: &Config,
    nonce: &[u8; 18],
    limit: u64,
    out: &mut BytesMut,
) -> PgWireClientResult<Notes>
    requires { out.old.items ≡ [] }
    ensures refused { IfSome (refused_config config.now) (λ key. RefusesKey key result) }
    ensures begun { Begun (input_with config.now [] nonce.now) limit out.new.items result }
{
    match check_config(alloc, config) {
        Ok(()) => {}
        Err(e) => return Err(e),
    }
    if limit == 0 {
        return Err(PgWireClientError::ReadLimit);
    }
    let requests: [Request; 0] = [];
    let input = Input {
        config,
        requests: requests.as_slice(),
        nonce,
    };
    machine::start(alloc, &input, out)
}

// Takes the messages that are whole, as the machine of the last request does.
fn serve_last(
    alloc: Global,
    config: &Config,
    asked: &Option<[Request; 1]>,
    nonce: &[u8; 18],
    notes: &mut Notes,
    inbox: &mut Inbox,
    out: &mut BytesMut,
) -> PgWireClientResult<bool>
    ensures { Serves (input_with config.now (asks asked.now) nonce.now) notes.old notes.new
        inbox.old inbox.new out.old.items out.new.items result }
{
    match asked {
        Some(one) => {
            let requests = one.as_slice();
            let input = Input {
                config,
                requests,
                nonce,
            };
            serve(alloc, &input, notes, inbox, out)
        }
        None => {
            let none: [Request; 0] = [];
            let input = Input {
                config,
                requests: none.as_slice(),
                nonce,
            };
            serve(alloc, &input, notes, inbox, out)
        }
    }
}

impl PushClient {
    ghost use Rattle.pgw_client_push.specs.Calls.{AsksNext, HasAnswer, IsLastAnswer, IsLeft, Served, StartsClient, TakesPiece};
    ghost use Rattle.pgw_client_push.specs.Told.{answers_in, asked_of, push_room};
    ghost use Rattle.pgw_client_push.specs.Standing.{IsPushBroken, IsIdle, IsOpen, IsStarvedPush, StandsFor};

    /// Begins to log in: puts out the first message. It is made for this configuration and the nonce of a SCRAM login. A
    /// limit of 0 is ReadLimit.
    pub fn start(
        alloc: Global,
        config: Config,
        nonce: &[u8; 18],
        limit: u64,
        out: &mut BytesMut,
    ) -> PgWireClientResult<PushClient>
        requires { out.old.items ≡ [] }
        // A configuration that demands what this client can't do is refused by that key, or memory is wanting.
        ensures refused { IfSome (refused_config config) (λ key. RefusesKey key result) }
        // It stands for no bytes given, and for the startup message put out, with no request asked. Else nothing is put
        // out, and the error has its cause.
        ensures starts { StartsClient (input_with config [] nonce.now) limit out.new.items result }
    {
        match begin(alloc, &config, nonce, limit, out) {
            Ok(notes) => Ok(PushClient {
                alloc,
                config,
                nonce: *nonce,
                asked: None,
                notes,
                inbox: Inbox::new(alloc),
                room: limit,
                state: State::Open,
            }),
            Err(e) => {
                drop(config);
                Err(e)
            }
        }
    }

    // Takes the messages that are whole, up to the end of the open segment.
    fn go_on(&mut self, out: &mut BytesMut) -> PgWireClientResult<DialoguePhase>
        ensures served { Served self.old self.new out.old.items out.new.items result }
    {
        let served = serve_last(
            self.alloc,
            &self.config,
            &self.asked,
            &self.nonce,
            &mut self.notes,
            &mut self.inbox,
            out,
        );
        let answer = answer_behind(served, self.room, self.notes.closed);
        self.state = state_behind(&answer);
        answer
    }

    /// Takes bytes that came from the server while a segment is open, and puts out what is to be sent then. A piece may
    /// have no bytes, and no more than `room`.
    ///
    /// The phase is that behind every message that is whole: the startup segment is open still, or that of a request is,
    /// or the segment has closed, and the client can be asked. Bytes behind that are kept for the next request. Behind an
    /// error it takes nothing more, and can't be asked.
    pub fn take(&mut self, piece: &[u8], out: &mut BytesMut) -> PgWireClientResult<DialoguePhase>
        requires waits { IsOpen self.old }
        requires fits { length piece.now ≤ push_room self.old }
        ensures takes { TakesPiece self.old self.new piece.now out.old.items out.new.items result }
        ensures left { IsLeft self.new result }
        ensures room { push_room self.new + length piece.now ≡ push_room self.old }
        ensures asked { asked_of self.new ≡ asked_of self.old }
        ensures starved { IsStarvedPush self.new → result ≡ Err client.OutOfMemory }
    {
        self.room -= piece.len() as u64;
        match self.inbox.append(piece) {
            Ok(()) => self.go_on(out),
            Err(_) => {
                self.state = State::Starved;
                Err(PgWireClientError::OutOfMemory)
            }
        }
    }

    // Opens the segment of a request.
    fn open(&mut self, request: Request)
        ensures { OpensSegment self.old self.new request }
    {
        self.notes.stage = Stage::Answering(kind_of(&request), false);
        self.notes.closed = 1;
        self.notes.answers = Listed::new(self.alloc);
        self.asked = Some([request]);
        self.state = State::Open;
    }

    /// Asks a request: puts out its messages, and takes what had come behind the last segment. An answer that was not
    /// taken is gone then.
    ///
    /// A request that has no spelling is refused, and then nothing changes: another can be asked. Behind any error
    /// `is_idle` says whether another can be. Where no room is left the messages are put out and ReadLimit is answered,
    /// unless the whole answer has come.
    pub fn ask(&mut self, request: Request, out: &mut BytesMut) -> PgWireClientResult<DialoguePhase>
        requires { IsIdle self.old }
        ensures asks { AsksNext self.old self.new request out.old.items out.new.items result }
        ensures answer { HasAnswer self.new result }
        ensures asked { IfOk result (λ phase. asked_of self.new ≡ Some (request ∷ [])) }
        ensures room { push_room self.new ≡ push_room self.old }
        ensures starved { IsStarvedPush self.new → result ≡ Err client.OutOfMemory }
    {
        match put_request(self.alloc, &request, out) {
            Ok(()) => {}
            Err(e) => {
                drop(request);
                return Err(e);
            }
        }
        self.open(request);
        self.go_on(out)
    }

    /// Hands out the answer of the last request, once. None where nothing was asked or its answer was handed out.
    pub fn take_answer(&mut self) -> Option<Answer>
        requires { IsIdle self.old }
        ensures is { (answer : TheAnswer) → answers_in self.old ≡ answer ∷ [] →
            result ≡ Some answer }
        ensures none { answers_in self.old ≡ [] → result ≡ None }
        ensures once { answers_in self.new ≡ [] }
        // For every pair that it stood for it is the last answer of the session, and the client stands for that pair still.
        ensures last { (input : TheInput) (limit : ℕ) (given put : List ℕ) →
            StandsFor input limit self.old given put →
            IfSome result (IsLastAnswer input given put) }
        ensures stands { (input : TheInput) (limit : ℕ) (given put : List ℕ) →
            StandsFor input limit self.old given put → StandsFor input limit self.new given put }
        ensures idle { IsIdle self.new }
        ensures room { push_room self.new ≡ push_room self.old }
    {
        let kept = replace(&mut self.notes.answers, Listed::new(self.alloc));
        kept.into_vec().pop()
    }

    /// What it means that no more bytes come, while a segment is open.
    pub fn at_end(&self) -> PgWireClientError
        requires { IsOpen self.now }
        ensures end { IsEndError result }
        // For every pair that it stands for, the error has its cause, or memory is wanting.
        ensures cause { (input : TheInput) (limit : ℕ) (given put : List ℕ) →
            StandsFor input limit self.now given put →
            Unless result (EndsAs input given put result) }
    {
        end_error(self.alloc, &self.notes)
    }

    /// Whether it can be asked. It takes no memory.
    pub fn is_idle(&self) -> bool
        ensures { Decides result (IsIdle self.now) }
    {
        self.state == State::Idle
    }

    /// Whether a segment is open, so that it takes bytes. It takes no memory.
    pub fn is_open(&self) -> bool
        ensures { Decides result (IsOpen self.now) }
    {
        self.state == State::Open && self.room > 0
    }

    /// How many bytes more it may be given.
    pub fn room(&self) -> u64
        ensures { result ≡ push_room self.now }
    {
        self.room
    }
}
