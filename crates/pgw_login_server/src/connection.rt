//! A server's side of a login: bytes go in as they come, and those to be sent come out.
ghost use Rattle.std.specs.Prelude.{◌≡◌, ◌≢◌, ◌≤◌, ◌++◌, ℕ, max, List, [], length, true, false, Some, None, Ok, OnOk, IfErr, ◌∷◌};
ghost use Rattle.pgw_machine.specs.Course.{Course, More};
ghost use Rattle.pgw_login.specs.DefaultClients.{login_client};
ghost use Rattle.pgw_login.specs.declared.client_info.PgWireConnectionState.TheVariants.{ReadyForQuery};
ghost use Rattle.pgw_login_server.specs.Server.{Stage, ServerEnding, begins, begins_within, bound_in, stage_front};
ghost use Rattle.pgw_login_server.specs.Stands.{stage_of, phase_at, IsAt, ServerStands, Arrives, WentOn};
ghost use Rattle.pgw_login_server.specs.Steps.{is_end, DidHear, DidStep, AdvancesServer, ServerTakesAll};
ghost use Rattle.pgw_wire.specs.declared.limits.TheConstants.{SMALL_LIMIT};

use crate::front::next_message;
use bytes::BytesMut;
use pgw_control::cancel::CancelRequest;
use pgw_frontend::frontend::PgWireFrontendMessage;
use pgw_login::client_info::{DefaultClient, PgWireConnectionState};
use pgw_login::handler::StartupHandler;
use pgw_login::outbox::ByteOutbox;
use pgw_login::state::LoginState;
use pgw_startup::response::SslResponse;
use pgw_types::error::{PgWireError, PgWireResult};
use std::alloc::Global;
use std::mem::replace;

/// What came of the bytes given so far.
#[derive(Drop)]
pub enum ServerPhase {
    /// More bytes are needed.
    Waiting,
    /// The client has logged in, and may ask.
    Finished,
    /// The client does not log in: it asks for the query of another connection to be canceled.
    CancelAsked(CancelRequest),
}

/// The server's side of one connection up to its login. It reads and writes nothing itself.
///
/// Requests for encryption are refused, and the client goes on without. Until an end, what waits in it is no more than
/// one message that is not whole yet. That may have up to 1073741823 bytes, of a client that has not logged in too,
/// unless the core was started with a bound. Behind an end the bytes not looked at stay until `finish`.
pub struct ServerCore<H> {
    handler: H,
    client: DefaultClient<()>,
    login: LoginState,
    inbox: BytesMut,
    // the startup message was taken
    started: bool,
    // a message was refused, or a request to cancel was taken
    over: bool,
    // the most bytes that a message may say it has until the client may ask
    bound: Option<u32>,
}

impl<H: StartupHandler> ServerCore<H> {
    /// A connection of which nothing came yet.
    pub fn start(
        alloc: Global,
        handler: H,
        client: DefaultClient<()>,
        state: LoginState,
    ) -> ServerCore<H>
        requires { H.fits handler state }
        ensures fits { H.fits result.handler result.login }
        // It goes on.
        ensures going { result.over ≡ false }
        ensures kept { (result.handler ≡ handler) × (result.client ≡ client)
            × (result.login ≡ state) × (result.bound ≡ None) }
        // It stands for no bytes given and none put out.
        ensures stands { ServerStands (H.means handler) (begins (login_client client) state) result
            [] [] }
    {
        ServerCore::begin(alloc, handler, client, state, None)
    }

    /// As `start`, under a bound: until the client may ask, a message behind its startup message that says it has more bytes
    /// is refused with `MessageTooLarge`, by its header alone. (PostgreSQL takes 65535 bytes of a password or token at the
    /// most.) Messages up to the startup message have at most 10000 bytes.
    pub fn start_within(
        alloc: Global,
        handler: H,
        client: DefaultClient<()>,
        state: LoginState,
        bound: u32,
    ) -> ServerCore<H>
        requires { H.fits handler state }
        ensures fits { H.fits result.handler result.login }
        ensures going { result.over ≡ false }
        ensures kept { (result.handler ≡ handler) × (result.client ≡ client)
            × (result.login ≡ state) × (result.bound ≡ Some bound) }
        ensures stands { ServerStands (H.means handler)
            (begins_within (Some bound) (login_client client) state)
            result [] [] }
    {
        ServerCore::begin(alloc, handler, client, state, Some(bound))
    }

    fn begin(
        alloc: Global,
        handler: H,
        client: DefaultClient<()>,
        state: LoginState,
        bound: Option<u32>,
    ) -> ServerCore<H>
        requires { H.fits handler state }
        ensures fits { H.fits result.handler result.login }
        ensures going { result.over ≡ false }
        ensures kept { (result.handler ≡ handler) × (result.client ≡ client)
            × (result.login ≡ state) × (result.bound ≡ bound) }
        ensures stands { ServerStands (H.means handler)
            (begins_within bound (login_client client) state) result
            [] [] }
    {
        ServerCore {
            handler,
            client,
            login: state,
            inbox: BytesMut::new(alloc),
            started: false,
            over: false,
            bound,
        }
    }

    /// Takes bytes that came, and appends those to be sent.
    ///
    /// After a refusal, want of memory among them, and after a request to cancel, it takes nothing more.
    pub fn take(
        &mut self,
        alloc: Global,
        piece: &[u8],
        out: &mut BytesMut,
    ) -> PgWireResult<ServerPhase>
        requires { H.fits self.old.handler self.old.login }
        ensures fits { H.fits self.new.handler self.new.login }
        ensures kept { (self.new.handler ≡ self.old.handler) × (self.new.bound ≡ self.old.bound) }
        // For all bytes given and put out that it stood for, it stands for them with the piece and what is appended.
        ensures stands { (begin : Stage) (given put : List ℕ) →
            ServerStands (H.means self.old.handler) begin self.old given put →
            (more : List ℕ) × (out.new.items ≡ out.old.items ++ more)
            × ServerStands (H.means self.old.handler) begin self.new (given ++ piece.now)
            (put ++ more) }
        // From wherever it was, the piece leads to where it is.
        ensures continues { (course : Course Stage ServerEnding) (put : List ℕ) →
            IsAt self.old put course → WentOn (H.means self.old.handler) self.old self.new put
            piece.now out.old.items out.new.items course result }
        // What it answers is what that place tells,
        ensures answers { self.old.over ≡ false → (begin : Stage) (given put : List ℕ) →
            ServerStands (H.means self.old.handler) begin self.old given put →
            (more : List ℕ) × (out.new.items ≡ out.old.items ++ more)
            × Arrives (H.means self.old.handler) begin self.new (given ++ piece.now) (put ++ more)
            result }
        // but behind an end it looks at nothing.
        ensures over { self.old.over ≡ true → (self.new ≡ self.old)
            × (out.new.items ≡ out.old.items) × (result ≡ Err PgWireError.InvalidSASLState) }
        // Where it waits, nothing whole stands at the front of what waits in it.
        ensures more { self.new.over ≡ false → stage_front (stage_of self.new) self.new.inbox.items
            ≡ More }
        // Under a bound, until the client may ask, no more waits than the bound says, or 10000 bytes.
        ensures little { (bound : ℕ) → self.new.bound ≡ Some bound → self.new.over ≡ false →
            self.new.client.state ≢ ReadyForQuery →
            length self.new.inbox.items ≤ max SMALL_LIMIT bound }
    {
        if self.over {
            return Err(PgWireError::InvalidSASLState);
        }
        let answer = self.receive(alloc, piece, out);
        self.over = is_end(&answer);
        answer
    }

    /// What it was made of. Bytes that came and are no whole message are let go.
    pub fn finish(self) -> (H, DefaultClient<()>, LoginState)
        ensures { (result.0 ≡ self.handler) × (result.1 ≡ self.client) × (result.2 ≡ self.login) }
    {
        let ServerCore {
            handler,
            client,
            login,
            inbox: _,
            started: _,
            over: _,
            bound: _,
        } = self;
        (handler, client, login)
    }

    // Takes bytes that came, of a connection that goes on.
    fn receive(
        &mut self,
        alloc: Global,
        piece: &[u8],
        out: &mut BytesMut,
    ) -> PgWireResult<ServerPhase>
        requires { H.fits self.old.handler self.old.login }
        ensures fits { H.fits self.new.handler self.new.login }
        ensures kept { (self.new.handler ≡ self.old.handler) × (self.new.over ≡ self.old.over)
            × (self.new.bound ≡ self.old.bound) }
        ensures comes { ServerTakesAll (H.means self.old.handler) (stage_of self.old)
            (self.old.inbox.items ++ piece.now) (stage_of self.new) self.new.inbox.items
            out.old.items out.new.items result }
    {
        match self.inbox.extend_from_slice(piece) {
            Ok(()) => self.serve(alloc, out),
            Err(_) => Err(PgWireError::OutOfMemory),
        }
    }

    // Takes the messages that are whole, and appends what is sent.
    fn serve(&mut self, alloc: Global, out: &mut BytesMut) -> PgWireResult<ServerPhase>
        requires { H.fits self.old.handler self.old.login }
        ensures fits { H.fits self.new.handler self.new.login }
        ensures kept { (self.new.handler ≡ self.old.handler) × (self.new.over ≡ self.old.over)
            × (self.new.bound ≡ self.old.bound) }
        ensures comes { ServerTakesAll (H.means self.old.handler) (stage_of self.old)
            self.old.inbox.items
            (stage_of self.new) self.new.inbox.items out.old.items out.new.items result }
    {
        let buffer = replace(out, BytesMut::new(alloc));
        let mut outbox = ByteOutbox { buffer };
        let answer = self.take_all(alloc, &mut outbox);
        let ByteOutbox { buffer } = outbox;
        *out = buffer;
        answer
    }

    // Takes the messages that are whole, and hands what is sent to the outbox.
    fn take_all(&mut self, alloc: Global, out: &mut ByteOutbox) -> PgWireResult<ServerPhase>
        requires { H.fits self.old.handler self.old.login }
        ensures fits { H.fits self.new.handler self.new.login }
        ensures kept { (self.new.handler ≡ self.old.handler) × (self.new.over ≡ self.old.over)
            × (self.new.bound ≡ self.old.bound) }
        ensures comes { ServerTakesAll (H.means self.old.handler) (stage_of self.old)
            self.old.inbox.items
            (stage_of self.new) self.new.inbox.items out.old.buffer.items out.new.buffer.items
            result }
    {
        'messages: loop {
            match self.advance(alloc, out) {
                Ok(Some(phase)) => return Ok(phase),
                Ok(None) => {}
                Err(e) => return Err(e),
            }
        }
    }

    // Takes the message at the front. Where none is whole, or it is the last, it answers how far the connection is.
    fn advance(&mut self, alloc: Global, out: &mut ByteOutbox) -> PgWireResult<Option<ServerPhase>>
        requires { H.fits self.old.handler self.old.login }
        ensures fits { H.fits self.new.handler self.new.login }
        ensures kept { (self.new.handler ≡ self.old.handler) × (self.new.over ≡ self.old.over)
            × (self.new.bound ≡ self.old.bound) }
        ensures advanced { AdvancesServer (H.means self.old.handler) (stage_of self.old)
            self.old.inbox.items (stage_of self.new) self.new.inbox.items out.old.buffer.items
            out.new.buffer.items result }
    {
        let version = self.client.protocol_version;
        let bound = self.bound();
        match next_message(alloc, &mut self.inbox, self.started, bound, version) {
            Ok(None) => Ok(Some(self.phase())),
            Ok(Some(message)) => match self.step(alloc, out, message) {
                Ok(None) => Ok(None),
                Ok(Some(request)) => Ok(Some(ServerPhase::CancelAsked(request))),
                Err(e) => Err(e),
            },
            Err(e) => Err(e),
        }
    }

    // The bound, which falls where the client may ask.
    fn bound(&self) -> Option<u32>
        ensures { result ≡ bound_in self.now.client.state self.now.bound }
    {
        match self.client.state {
            PgWireConnectionState::ReadyForQuery => None,
            _ => self.bound,
        }
    }

    // How far the connection is that goes on.
    fn phase(&self) -> ServerPhase
        ensures { result ≡ phase_at self.now.client.state }
    {
        match self.client.state {
            PgWireConnectionState::ReadyForQuery => ServerPhase::Finished,
            _ => ServerPhase::Waiting,
        }
    }

    // Does what a message asks for; hands on a request to cancel.
    fn step(
        &mut self,
        alloc: Global,
        out: &mut ByteOutbox,
        message: PgWireFrontendMessage,
    ) -> PgWireResult<Option<CancelRequest>>
        requires { H.fits self.old.handler self.old.login }
        ensures fits { H.fits self.new.handler self.new.login }
        ensures kept { (self.new.handler ≡ self.old.handler) × (self.new.over ≡ self.old.over)
            × (self.new.inbox ≡ self.old.inbox) × (self.new.bound ≡ self.old.bound) }
        ensures stepped { DidStep (H.means self.old.handler) message (stage_of self.old)
            (stage_of self.new) out.old.buffer.items out.new.buffer.items result }
    {
        match message {
            PgWireFrontendMessage::SslNegotiation(_) => match refuse_encryption(&mut out.buffer) {
                Ok(()) => Ok(None),
                Err(e) => Err(e),
            },
            PgWireFrontendMessage::CancelRequest(request) => Ok(Some(request)),
            message => match self.hear(alloc, out, message) {
                Ok(()) => Ok(None),
                Err(e) => Err(e),
            },
        }
    }

    // Hands a message to the handler.
    fn hear(
        &mut self,
        alloc: Global,
        out: &mut ByteOutbox,
        message: PgWireFrontendMessage,
    ) -> PgWireResult<()>
        requires { H.fits self.old.handler self.old.login }
        ensures fits { H.fits self.new.handler self.new.login }
        ensures kept { (self.new.handler ≡ self.old.handler) × (self.new.over ≡ self.old.over)
            × (self.new.inbox ≡ self.old.inbox) × (self.new.bound ≡ self.old.bound) }
        ensures heard { DidHear (H.means self.old.handler) message (stage_of self.old)
            (stage_of self.new) out.old.buffer.items out.new.buffer.items result }
    {
        let client = &mut self.client;
        let login = &mut self.login;
        match self.handler.on_startup(alloc, client, out, login, message) {
            Ok(()) => {
                self.started = true;
                Ok(())
            }
            Err(e) => Err(e),
        }
    }
}

// Whether nothing is taken behind it.
fn is_end(answer: &PgWireResult<ServerPhase>) -> bool
    ensures { result ≡ is_end answer.now }
{
    match answer {
        Ok(ServerPhase::Waiting) => false,
        Ok(ServerPhase::Finished) => false,
        Ok(ServerPhase::CancelAsked(_)) => true,
        Err(_) => true,
    }
}

// Answers a request for encryption.
fn refuse_encryption(out: &mut BytesMut) -> PgWireResult<()>
    ensures ok { OnOk result (out.new.items ≡ out.old.items ++ 78 ∷ []) }
    ensures err { IfErr result (λ e. (e ≡ PgWireError.OutOfMemory)
        × (out.new.items ≡ out.old.items)) }
{
    match out.extend_from_slice(&[SslResponse::BYTE_REFUSE]) {
        Ok(()) => Ok(()),
        Err(_) => Err(PgWireError::OutOfMemory),
    }
}
