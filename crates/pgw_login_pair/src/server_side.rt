//! The server's side of two parties.
ghost use Rattle.std.specs.Prelude.{◌≡◌, ◌≤◌, ◌↔◌, [], None, Err, IsTrue, IfOk, OnOk};
ghost use Rattle.atomic_table.specs.Seated.{TableId};
ghost use Rattle.pgw_types.specs.declared.error.PgWireError.TheVariants as why;
ghost use Rattle.pgw_registry.specs.Generator.{unused};
ghost use Rattle.pgw_machine.specs.Course.{Course, Waits};
ghost use Rattle.pgw_login.specs.declared.state.LoginState.{LoginState as TheState};
ghost use Rattle.pgw_login_server.specs.Server.{Stage, ServerEnding};
ghost use Rattle.pgw_login_server.specs.Steps.{is_end};
ghost use Rattle.pgw_login_pair.specs.Parties.{server_end};
ghost use Rattle.pgw_login_pair.specs.Server.{scram_end};
ghost use Rattle.pgw_login_pair.specs.Sides.{IsFrom, StaysFrom, ServerAt, ServerTook, end_in};
ghost use Rattle.pgw_login_pair.specs.World.{first_stage};

use crate::parties::{PairInput, ServerEnd};
use crate::piece::next;
use bytes::BytesMut;
use pgw_login::client_info::DefaultClient;
use pgw_login::handler::StartupHandler;
use pgw_login::source::{AuthSource, LoginInfo};
use pgw_login::state::LoginState;
use pgw_login_sasl::scram::ScramAuth;
use pgw_login_server::connection::{ServerCore, ServerPhase};
use pgw_registry::generator::PidSeat;
use pgw_scram::password::Password;
use pgw_types::error::{PgWireError, PgWireResult};
use pgw_types::listed::Duplicate;
use pgw_types::memory::OutOfMemory;
use pgw_types::text::Text;
use std::alloc::Global;
use std::mem::replace;

/// Answers one password for every login.
#[derive(Drop)]
pub struct StoredPassword {
    stored: Password,
}

impl AuthSource for StoredPassword {
    ghost use Rattle.pgw_login_pair.specs.Server.{AnswersStored};

    ghost answers = { λ s. AnswersStored s.stored };

    fn get_password(&self, _alloc: Global, _login: &LoginInfo<'_>) -> PgWireResult<Password> {
        match self.stored.duplicate() {
            Ok(password) => Ok(password),
            Err(_) => Err(PgWireError::OutOfMemory),
        }
    }
}

/// The server's end of SCRAM, by what is stored.
pub fn scram_for(alloc: Global, input: &PairInput) -> Result<ScramAuth<StoredPassword>, OutOfMemory>
    requires { 1 ≤ input.now.count }
    ensures { IfOk result (λ scram. (scram.auth_db.stored ≡ input.now.stored)
        × (scram.authenticator ≡ scram_end input.now)) }
{
    let stored = input.stored.duplicate()?;
    let mut scram = ScramAuth::new(StoredPassword { stored });
    scram.set_iterations(input.count);
    match &input.server_hash {
        Some(hash) => {
            scram.configure_certificate_hash(alloc, hash.as_slice())?;
            Ok(scram)
        }
        None => Ok(scram),
    }
}

/// The server, how many bytes it took, and those that it wrote.
pub struct ServerSide<H> {
    pub core: ServerCore<H>,
    // its last answer
    pub answer: PgWireResult<ServerPhase>,
    pub taken: usize,
    pub out: BytesMut,
}

impl<H: StartupHandler> ServerSide<H> {
    /// A server of which nothing came yet.
    pub fn begin(alloc: Global, input: &PairInput, handler: H, seat: PidSeat) -> ServerSide<H>
        requires { (state : TheState) → state.seat ≡ seat → state.pass ≡ None
            → state.registered ≡ None → H.fits handler state }
        ensures fits { H.fits result.core.handler result.core.login }
        ensures kept { (result.core.handler ≡ handler) × (result.taken ≡ 0)
            × (result.out.items ≡ []) }
        ensures from { (generator : TableId) → seat ≡ unused generator 100000
            → IsFrom (H.means handler) (first_stage generator input.now) result.core }
        ensures is_at { (generator : TableId) → seat ≡ unused generator 100000
            → ServerAt result (Waits (first_stage generator input.now) [] []) }
    {
        let client = DefaultClient::new(alloc, Text::new(alloc), false, ());
        let state = LoginState::new(input.server_nonce, input.words, seat, None);
        ServerSide {
            core: ServerCore::start(alloc, handler, client, state),
            answer: Ok(ServerPhase::Waiting),
            taken: 0,
            out: BytesMut::new(alloc),
        }
    }

    /// Takes the next bytes, unless it has ended.
    pub fn take(&mut self, alloc: Global, bytes: &[u8], count: u32) -> Result<(), OutOfMemory>
        requires { H.fits self.old.core.handler self.old.core.login }
        ensures fits { H.fits self.new.core.handler self.new.core.login }
        ensures kept { self.new.core.handler ≡ self.old.core.handler }
        ensures from { StaysFrom (H.means self.old.core.handler) self.old.core self.new.core }
        ensures took { (course : Course Stage ServerEnding) → ServerAt self.old course
            → OnOk result (ServerTook (H.means self.old.core.handler) self.old self.new
            bytes.now count course) }
    {
        if is_end(&self.answer) {
            return Ok(());
        }
        let piece = next(bytes, self.taken, count);
        let answer = self.core.take(alloc, piece, &mut self.out);
        self.taken += piece.len();
        let starved = is_starved(&answer);
        drop(replace(&mut self.answer, answer));
        if starved { Err(OutOfMemory) } else { Ok(()) }
    }
}

impl<H: StartupHandler + Drop> ServerSide<H> {
    /// Where it is, and what it wrote. A connection that is registered nowhere is let go.
    pub fn end(self) -> (ServerEnd, BytesMut)
        requires { self.core.login.registered ≡ None }
        ensures wrote { result.1 ≡ self.out }
        ensures is { (course : Course Stage ServerEnding) → ServerAt self course
            → result.0 ≡ server_end course }
    {
        let ServerSide {
            core,
            answer,
            taken: _taken,
            out,
        } = self;
        let_go(core);
        (end_of(answer), out)
    }

    /// Lets a connection go that is registered nowhere.
    pub fn let_go(self)
        requires { self.core.login.registered ≡ None }
    {
        let ServerSide {
            core,
            answer,
            taken: _taken,
            out: _out,
        } = self;
        drop(answer);
        let_go(core);
    }
}

// Lets a core go that is registered nowhere.
fn let_go<H: StartupHandler + Drop>(core: ServerCore<H>)
    requires { core.login.registered ≡ None }
{
    let (handler, client, login) = core.finish();
    drop(handler);
    drop(client);
    let (seat, pass, handle, guard) = login.finish();
    drop(seat);
    drop(pass);
    match handle {
        None => {}
        Some(_handle) => unreachable!(),
    }
    match guard {
        None => {}
        Some(_guard) => unreachable!(),
    }
}

// Whether it takes nothing more.
fn is_end(answer: &PgWireResult<ServerPhase>) -> bool
    ensures { result ≡ is_end answer.now }
{
    match answer {
        Ok(ServerPhase::Waiting) => false,
        Ok(ServerPhase::Finished) => false,
        Ok(ServerPhase::CancelAsked(_)) => true,
        Err(_) => true,
    }
}

// Whether memory was wanting.
fn is_starved(answer: &PgWireResult<ServerPhase>) -> bool
    ensures { IsTrue result ↔ (answer.now ≡ Err why.OutOfMemory) }
{
    match answer {
        Err(PgWireError::OutOfMemory) => true,
        _ => false,
    }
}

// Where it is by its last answer.
fn end_of(answer: PgWireResult<ServerPhase>) -> ServerEnd
    ensures { result ≡ end_in answer }
{
    match answer {
        Ok(ServerPhase::Waiting) => ServerEnd::Waiting,
        Ok(ServerPhase::Finished) => ServerEnd::Finished,
        Ok(ServerPhase::CancelAsked(request)) => {
            drop(request);
            ServerEnd::Waiting
        }
        Err(e) => ServerEnd::Refused(e),
    }
}
