//! A server whose core is given bytes.
ghost use Rattle.std.specs.Prelude.{◌≡◌, None};
ghost use Rattle.pgw_login.specs.declared.state.LoginState.{LoginState as TheState};

use bytes::BytesMut;
use pgw_login::client_info::{ClientInfo, DefaultClient};
use pgw_login::handler::StartupHandler;
use pgw_login::provider::ServerParameterProvider;
use pgw_login::source::{AuthSource, LoginInfo};
use pgw_login::state::LoginState;
use pgw_login_server::connection::{ServerCore, ServerPhase};
use pgw_registry::generator::PidSeat;
use pgw_scram::password::Password;
use pgw_types::error::PgWireResult;
use pgw_types::memory::OutOfMemory;
use pgw_types::octets::Octets;
use pgw_types::text::Text;
use pgw_wire::params::Params;
use std::alloc::Global;
use std::fmt::Display;
use std::process::Abort;

/// Keeps one password, for whoever asks.
#[derive(Drop)]
pub struct OnePassword {
    pub salt: &'static [u8],
    pub password: &'static [u8],
}

impl AuthSource for OnePassword {
    ghost answers = { λ s login answer. Unit {0} };

    fn get_password(&self, alloc: Global, _login: &LoginInfo<'_>) -> PgWireResult<Password> {
        let salt = Octets::from_slice(alloc, self.salt)?;
        let password = Octets::from_slice(alloc, self.password)?;
        Ok(Password::new(Some(salt), password))
    }
}

/// Tells its clients no parameters.
#[derive(Drop)]
pub struct NoParameters;

impl ServerParameterProvider for NoParameters {
    ghost provides = { λ p client parameters. Unit {0} };

    fn server_parameters<C: ClientInfo>(
        &self,
        _alloc: Global,
        _client: &C,
    ) -> Result<Option<Params>, OutOfMemory> {
        Ok(None)
    }
}

/// What a server puts out, and what it answers in the end.
#[derive(Drop)]
pub struct Said {
    pub out: BytesMut,
    pub answer: String,
}

// A value as it is printed. Of any type, since a type with many variants makes the proof of a `format!` long.
fn printed<T: Display>(alloc: Global, value: &T) -> Result<String, OutOfMemory> {
    Ok(format!(in alloc; "{value}")?)
}

// What an answer says, in words.
fn told(alloc: Global, answer: &PgWireResult<ServerPhase>) -> Result<String, OutOfMemory> {
    match answer {
        Ok(ServerPhase::Waiting) => Ok(String::from_str(alloc, "waiting")?),
        Ok(ServerPhase::Finished) => Ok(String::from_str(alloc, "finished")?),
        Ok(ServerPhase::CancelAsked(request)) => Ok(format!(in alloc; "cancel {}", request.pid)?),
        Err(error) => printed(alloc, error),
    }
}

fn check_none<R: Abort, T>(rt: &R, value: Option<T>) {
    match value {
        None => {}
        Some(_value) => panic!(rt; "registered"),
    }
}

// Lets a login go that was registered nowhere.
fn let_go<R: Abort>(rt: &R, state: LoginState) {
    let (_seat, pass, handle, guard) = state.finish();
    check_none(rt, pass);
    check_none(rt, handle);
    check_none(rt, guard);
}

fn close<H: StartupHandler + Drop, R: Abort>(rt: &R, core: ServerCore<H>) {
    let (handler, client, state) = core.finish();
    drop(handler);
    drop(client);
    let_go(rt, state);
}

// Takes a piece, and tells the answer.
fn take<H: StartupHandler>(
    alloc: Global,
    core: &mut ServerCore<H>,
    piece: &[u8],
    out: &mut BytesMut,
) -> Result<String, OutOfMemory>
    requires { H.fits core.old.handler core.old.login }
    ensures { H.fits core.new.handler core.new.login }
{
    let answer = core.take(alloc, piece, out);
    let text = told(alloc, &answer);
    drop(answer);
    text
}

// Gives a core some bytes, so many at a time, and tells its last answer.
fn take_all<H: StartupHandler>(
    alloc: Global,
    core: &mut ServerCore<H>,
    bytes: &[u8],
    cut: usize,
    out: &mut BytesMut,
) -> Result<String, OutOfMemory>
    requires { H.fits core.old.handler core.old.login }
    ensures { H.fits core.new.handler core.new.login }
{
    let mut answer = String::from_str(alloc, "waiting")?;
    for piece in bytes.chunks(cut.max(1)) {
        answer = take(alloc, core, piece, out)?;
    }
    Ok(answer)
}

fn core_of<H: StartupHandler>(
    alloc: Global,
    handler: H,
    seat: PidSeat,
    bound: Option<u32>,
) -> ServerCore<H>
    requires { (state : TheState) → state.seat ≡ seat → state.pass ≡ None → state.registered
        ≡ None → H.fits handler state }
    ensures { H.fits result.handler result.login }
{
    let client = DefaultClient::new(alloc, Text::new(alloc), false, ());
    let state = LoginState::new([7; 18], [1; 32], seat, None);
    match bound {
        Some(bound) => ServerCore::start_within(alloc, handler, client, state, bound),
        None => ServerCore::start(alloc, handler, client, state),
    }
}

/// What a server with this handler says to a client's bytes, so many at a time, under a bound if there is one.
pub fn hear<H: StartupHandler + Drop, R: Abort>(
    rt: &R,
    alloc: Global,
    handler: H,
    seat: PidSeat,
    bound: Option<u32>,
    bytes: &[u8],
    cut: usize,
) -> Result<Said, OutOfMemory>
    requires { (state : TheState) → state.seat ≡ seat → state.pass ≡ None → state.registered
        ≡ None → H.fits handler state }
{
    let mut core = core_of(alloc, handler, seat, bound);
    let mut out = BytesMut::new(alloc);
    let answer = take_all(alloc, &mut core, bytes, cut, &mut out);
    close(rt, core);
    Ok(Said {
        out,
        answer: answer?,
    })
}
