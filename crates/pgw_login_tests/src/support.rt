//! A handler that is given messages.
ghost use Rattle.std.specs.Prelude.{◌≡◌, None};
ghost use Rattle.pgw_login.specs.declared.state.LoginState.{LoginState as TheState};

use crate::words::words_of;
use bytes::BytesMut;
use pgw_control::terminate::Terminate;
use pgw_frontend::frontend::PgWireFrontendMessage;
use pgw_login::client_info::{ClientInfo, DefaultClient, METADATA_USER, PgWireConnectionState};
use pgw_login::handler::StartupHandler;
use pgw_login::outbox::{ByteOutbox, Outbox};
use pgw_login::provider::ServerParameterProvider;
use pgw_login::source::{AuthSource, LoginInfo};
use pgw_login::state::LoginState;
use pgw_registry::generator::PidSeat;
use pgw_scram::password::Password as Kept;
use pgw_startup::password::{Password, PasswordMessageFamily};
use pgw_startup::sasl::{SASLInitialResponse, SASLResponse};
use pgw_startup::startup::Startup;
use pgw_types::context::ProtocolVersion;
use pgw_types::error::{PgWireError, PgWireResult};
use pgw_types::memory::OutOfMemory;
use pgw_types::octets::Octets;
use pgw_types::text::Text;
use pgw_wire::params::Params;
use std::alloc::Global;
use std::process::Abort;

/// Keeps one password with a salt, for whoever asks but `eve`; that of `tom` has no salt, and that of `sam` one of three
/// bytes.
#[derive(Drop)]
pub struct OnePassword {
    pub password: &'static [u8],
}

// The salt of a user's password.
fn salt_of(user: &str) -> Option<&'static [u8]> {
    match user {
        "tom" => None,
        "sam" => Some(b"abc"),
        _ => Some(b"\x14\xf7\x6b\xf9"),
    }
}

fn octets(alloc: Global, bytes: Option<&[u8]>) -> Result<Option<Octets>, OutOfMemory> {
    match bytes {
        Some(bytes) => Ok(Some(Octets::from_slice(alloc, bytes)?)),
        None => Ok(None),
    }
}

impl AuthSource for OnePassword {
    ghost answers = { λ source login answer. Unit {0} };

    fn get_password(&self, alloc: Global, login: &LoginInfo<'_>) -> PgWireResult<Kept> {
        let user = login.user().unwrap_or("");
        if user == "eve" {
            return Err(PgWireError::UserNameRequired);
        }
        let salt = octets(alloc, salt_of(user))?;
        Ok(Kept::new(salt, Octets::from_slice(alloc, self.password)?))
    }
}

/// Tells a client no parameter.
#[derive(Drop)]
pub struct Silent;

impl ServerParameterProvider for Silent {
    ghost provides = { λ provider client parameters. Unit {0} };

    fn server_parameters<C: ClientInfo>(
        &self,
        _alloc: Global,
        _client: &C,
    ) -> Result<Option<Params>, OutOfMemory> {
        Ok(None)
    }
}

/// A message of a client.
#[derive(Clone, Copy, Drop)]
pub enum Step<'a> {
    /// With this user name, if it is not empty.
    Startup(&'a str),
    /// With this version, and no user name.
    Version(u16, u16),
    Password(&'a str),
    /// A body of a password message that is not read yet.
    Raw(&'a [u8]),
    /// A first message of SASL: its method, and what goes with it.
    First(&'a str, Option<&'a [u8]>),
    /// A further message of SASL.
    Response(&'a [u8]),
    Terminate,
}

fn named(alloc: Global, user: &str) -> Result<Params, OutOfMemory> {
    let name = Text::from_str(alloc, METADATA_USER)?;
    let user = Text::from_str(alloc, user)?;
    let mut parameters = Params::new(alloc);
    parameters.insert(name, user)?;
    Ok(parameters)
}

fn startup(alloc: Global, user: &str) -> Result<PgWireFrontendMessage, OutOfMemory> {
    let mut startup = Startup::new(alloc);
    if !user.is_empty() {
        startup.parameters = named(alloc, user)?;
    }
    Ok(PgWireFrontendMessage::Startup(startup))
}

fn version(alloc: Global, major: u16, minor: u16) -> PgWireFrontendMessage {
    let mut startup = Startup::new(alloc);
    startup.protocol_number_major = major;
    startup.protocol_number_minor = minor;
    PgWireFrontendMessage::Startup(startup)
}

fn password(alloc: Global, text: &str) -> Result<PasswordMessageFamily, OutOfMemory> {
    let password = Password::new(Text::from_str(alloc, text)?);
    Ok(PasswordMessageFamily::Password(password))
}

fn first(
    alloc: Global,
    method: &str,
    payload: Option<&[u8]>,
) -> Result<PasswordMessageFamily, OutOfMemory> {
    let method = Text::from_str(alloc, method)?;
    let message = SASLInitialResponse::new(method, octets(alloc, payload)?);
    Ok(PasswordMessageFamily::SASLInitialResponse(message))
}

fn response(alloc: Global, payload: &[u8]) -> Result<PasswordMessageFamily, OutOfMemory> {
    let message = SASLResponse::new(Octets::from_slice(alloc, payload)?);
    Ok(PasswordMessageFamily::SASLResponse(message))
}

fn raw(alloc: Global, body: &[u8]) -> Result<PasswordMessageFamily, OutOfMemory> {
    Ok(PasswordMessageFamily::Raw(Octets::from_slice(alloc, body)?))
}

fn enveloped(
    message: Result<PasswordMessageFamily, OutOfMemory>,
) -> Result<PgWireFrontendMessage, OutOfMemory> {
    Ok(PgWireFrontendMessage::PasswordMessageFamily(message?))
}

fn message_of(alloc: Global, step: Step<'_>) -> Result<PgWireFrontendMessage, OutOfMemory> {
    match step {
        Step::Startup(user) => startup(alloc, user),
        Step::Version(major, minor) => Ok(version(alloc, major, minor)),
        Step::Password(text) => enveloped(password(alloc, text)),
        Step::Raw(body) => enveloped(raw(alloc, body)),
        Step::First(method, payload) => enveloped(first(alloc, method, payload)),
        Step::Response(payload) => enveloped(response(alloc, payload)),
        Step::Terminate => Ok(PgWireFrontendMessage::Terminate(Terminate::new())),
    }
}

/// How far a client is, its version, whether it has a name, and its process number.
pub type Standing = (PgWireConnectionState, ProtocolVersion, bool, i32);

pub fn standing_of<C: ClientInfo>(client: &C) -> Standing {
    let is_named = client.metadata().get(METADATA_USER).is_some();
    let (number, _key) = client.pid_and_secret_key();
    (client.state(), client.protocol_version(), is_named, number)
}

/// What comes of messages.
#[derive(Drop)]
pub struct Outcome {
    /// What each is answered, with a space before it.
    pub words: String,
    pub sent: BytesMut,
    pub client: Standing,
}

fn answer_to<H: StartupHandler, O: Outbox>(
    alloc: Global,
    handler: &H,
    client: &mut DefaultClient<()>,
    out: &mut O,
    state: &mut LoginState,
    step: Step<'_>,
) -> PgWireResult<()>
    requires { H.fits handler.now state.old }
    ensures { H.fits handler.now state.new }
{
    let message = message_of(alloc, step)?;
    handler.on_startup(alloc, client, out, state, message)
}

fn add_word(words: &mut String, answer: &PgWireResult<()>) -> Result<(), OutOfMemory> {
    words.push_str(" ")?;
    words.push_str(words_of(answer))?;
    Ok(())
}

fn hear<H: StartupHandler, O: Outbox>(
    alloc: Global,
    handler: &H,
    client: &mut DefaultClient<()>,
    out: &mut O,
    state: &mut LoginState,
    step: Step<'_>,
    words: &mut String,
) -> Result<(), OutOfMemory>
    requires { H.fits handler.now state.old }
    ensures { H.fits handler.now state.new }
{
    let answer = answer_to(alloc, handler, client, out, state, step);
    let added = add_word(words, &answer);
    drop(answer);
    added
}

// Hears the messages, those behind a refusal too.
fn hear_all<H: StartupHandler, O: Outbox>(
    alloc: Global,
    handler: &H,
    client: &mut DefaultClient<()>,
    out: &mut O,
    state: &mut LoginState,
    steps: &[Step<'_>],
    words: &mut String,
) -> Result<(), OutOfMemory>
    requires { H.fits handler.now state.old }
    ensures { H.fits handler.now state.new }
{
    for step in steps {
        hear(alloc, handler, client, out, state, *step, words)?;
    }
    Ok(())
}

/// What each message of a new client is answered, with a space before it, and how the client stands in the end.
pub fn log_in<H: StartupHandler, O: Outbox>(
    alloc: Global,
    handler: &H,
    out: &mut O,
    state: &mut LoginState,
    steps: &[Step<'_>],
) -> Result<(String, Standing), OutOfMemory>
    requires { H.fits handler.now state.old }
    ensures { H.fits handler.now state.new }
{
    let mut client = DefaultClient::new(alloc, Text::new(alloc), false, ());
    let mut words = String::new(alloc);
    let heard = hear_all(alloc, handler, &mut client, out, state, steps, &mut words);
    let standing = standing_of(&client);
    drop(client);
    heard?;
    Ok((words, standing))
}

/// What comes of a login that was told so, and was sent what the outbox holds.
pub fn outcome_by(
    told: Result<(String, Standing), OutOfMemory>,
    out: ByteOutbox,
) -> Result<Outcome, OutOfMemory> {
    let (words, client) = told?;
    Ok(Outcome {
        words,
        sent: out.buffer,
        client,
    })
}

/// The nonce that a server draws, and the words of a client's key.
pub type Drawn = ([u8; 18], [u8; 32]);

pub const DRAWN: Drawn = ([7; 18], [1; 32]);

/// What comes of messages to a handler.
pub fn outcome_of<H: StartupHandler, R: Abort>(
    rt: &R,
    alloc: Global,
    handler: &H,
    seat: PidSeat,
    drawn: Drawn,
    steps: &[Step<'_>],
) -> Result<Outcome, OutOfMemory>
    requires { (state : TheState) → state.seat ≡ seat → state.pass ≡ None → state.registered
        ≡ None → H.fits handler.now state }
{
    let (nonce, key) = drawn;
    let mut out = ByteOutbox::new(alloc);
    let mut state = LoginState::new(nonce, key, seat, None);
    let told = log_in(alloc, handler, &mut out, &mut state, steps);
    let_go(rt, state);
    outcome_by(told, out)
}

fn check_none<R: Abort, T>(rt: &R, value: Option<T>) {
    match value {
        None => {}
        Some(_value) => panic!(rt; "registered"),
    }
}

/// Lets a login go that was registered nowhere.
pub fn let_go<R: Abort>(rt: &R, state: LoginState) {
    let (_seat, pass, handle, guard) = state.finish();
    check_none(rt, pass);
    check_none(rt, handle);
    check_none(rt, guard);
}

fn last_word(words: &str) -> &str {
    match words.rsplit_once(' ') {
        Some((_, word)) => word,
        None => "",
    }
}

/// Compares what the last message is answered, and what is sent in all, with what is wanted.
pub fn compare<R: Abort>(rt: &R, outcome: &Outcome, word: &str, sent: &[u8]) {
    assert_eq!(rt; last_word(outcome.words.as_str()), word);
    assert_eq!(rt; outcome.sent.as_slice(), sent);
}
