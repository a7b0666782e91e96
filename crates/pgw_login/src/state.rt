//! How far a login is.
ghost use Rattle.std.specs.Prelude.{◌≡◌, ℕ, [], None, false};
ghost use Rattle.pgw_login.specs.Client.{LoginClient};
ghost use Rattle.pgw_login.specs.Acts.{standing_in_login, StartsLogin, LoginAwaits, IsSameSource, with_sasl, login_by_answer, IsReleasable};
ghost use Rattle.pgw_login.specs.Password.{with_kept};
ghost use Rattle.pgw_login.specs.Registered.{CanRelease, guard_of, pair_handle};
ghost use Rattle.pgw_login.specs.declared.state.SASLState.TheVariants.{Initial};

use pgw_registry::generator::PidSeat;
use pgw_registry::manager::{ConnectionGuard, ConnectionHandle, Pass};
use pgw_scram::server::ScramServerAuthWaitingForClientFinal;
use pgw_secrets::server::StoredScramWaiting;
use pgw_types::boxed::Boxed;
use pgw_types::error::{PgWireError, PgWireResult};
use pgw_types::octets::Octets;

/// How far the exchange of messages is by which a client logs in.
#[derive(Drop)]
pub enum SASLState {
    Initial,
    ScramClientFirstReceived,
    ScramServerFirstSent(Boxed<ScramServerAuthWaitingForClientFinal>),
    /// The server's first message was sent, by a stored secret.
    StoredServerFirstSent(Boxed<StoredScramWaiting>),
    OauthStateInit,
    OauthStateError,
    Finished,
    /// A message was refused. The login cannot go on.
    Failed,
}

/// One connection's login: what it may draw from, and how far it is.
pub struct LoginState {
    pub(crate) nonce: [u8; 18],
    pub(crate) words: [u8; 32],
    pub(crate) seat: PidSeat,
    pub(crate) pass: Option<Pass>,
    pub(crate) started: bool,
    pub(crate) sasl: SASLState,
    pub(crate) kept: Option<Octets>,
    pub(crate) registered: Option<(ConnectionHandle, ConnectionGuard)>,
}

impl LoginState {
    /// A login that has not begun. The nonce and the words are to be random and used for no other.
    pub fn new(nonce: [u8; 18], words: [u8; 32], seat: PidSeat, pass: Option<Pass>) -> LoginState
        ensures { result ≡ record {
          nonce = nonce;
          words = words;
          seat = seat;
          pass = pass;
          started
              = false;
          sasl = Initial;
          kept = None;
          registered = None;
        } }
    {
        LoginState {
            nonce,
            words,
            seat,
            pass,
            started: false,
            sasl: SASLState::Initial,
            kept: None,
            registered: None,
        }
    }

    pub fn sasl(&self) -> &SASLState
        ensures { result.now ≡ self.now.sasl }
    {
        &self.sasl
    }

    /// For handlers in other crates. It can open a login again that has ended.
    pub fn set_sasl(&mut self, sasl: SASLState)
        ensures { self.new ≡ with_sasl sasl self.old }
    {
        self.sasl = sasl;
    }

    /// Whether a startup message has come.
    pub fn is_started(&self) -> bool
        ensures { result ≡ self.now.started }
    {
        self.started
    }

    /// The bytes of the server's nonce.
    pub fn nonce(&self) -> &[u8; 18]
        ensures { result.now ≡ self.now.nonce }
    {
        &self.nonce
    }

    /// Begins the login, which can be done once, and not where a message of it was refused.
    pub fn start(&mut self) -> PgWireResult<()>
        ensures source { IsSameSource self.old self.new }
        ensures started { (client : LoginClient) (faults : ℕ) →
            StartsLogin (standing_in_login client self.old faults)
            (standing_in_login client self.new faults) [] result }
    {
        match &self.sasl {
            SASLState::Initial if !self.started => {
                self.started = true;
                Ok(())
            }
            _ => Err(PgWireError::InvalidSASLState),
        }
    }

    /// Whether a first password message may come. It may come once.
    pub fn await_password(&self) -> PgWireResult<()>
        ensures { (client : LoginClient) (faults : ℕ) →
            LoginAwaits (standing_in_login client self.now faults)
            (standing_in_login client self.now faults) [] result }
    {
        match &self.sasl {
            SASLState::Initial if self.started => Ok(()),
            _ => Err(PgWireError::InvalidSASLState),
        }
    }

    // Keeps a text for the password that is to come, if there is one.
    pub(crate) fn keep(&mut self, text: Option<Octets>)
        ensures { self.new ≡ with_kept text self.old }
    {
        if let Some(text) = text {
            self.kept = Some(text);
        }
    }

    /// What a message's answer makes of the login: after a refusal it has failed.
    pub fn settle(&mut self, answer: PgWireResult<()>) -> PgWireResult<()>
        ensures answer { result ≡ answer }
        ensures settled { self.new ≡ login_by_answer answer self.old }
    {
        match answer {
            Ok(()) => Ok(()),
            Err(e) => {
                self.sasl = SASLState::Failed;
                Err(e)
            }
        }
    }

    /// What the login drew from, and where the connection is registered, if it is.
    pub fn finish(
        self,
    ) -> (
        PidSeat,
        Option<Pass>,
        Option<ConnectionHandle>,
        Option<ConnectionGuard>,
    )
        ensures drawn { (result.0 ≡ self.seat) × (result.1 ≡ self.pass) }
        ensures registered { (result.2 ≡ pair_handle self.registered)
            × (result.3 ≡ guard_of self.registered) }
        ensures releasable { IsReleasable self → CanRelease result.3 result.1 }
    {
        let LoginState {
            nonce: _,
            words: _,
            seat,
            pass,
            started: _,
            sasl: _,
            kept: _,
            registered,
        } = self;
        match registered {
            Some((handle, guard)) => (seat, pass, Some(handle), Some(guard)),
            None => (seat, pass, None, None),
        }
    }
}
