//! What is noted of a login.
ghost use Rattle.std.specs.Prelude.{◌≡◌, ◌||◌, false, None, Some};
ghost use Rattle.pgw_prog_commands.specs.Notes.{is_final as ends_sasl, kind_after as heard_after, login_kind as kind_for, place_offers};

use pgw_startup::authentication::Authentication;
use pgw_types::text::Text;
use std::time::Duration;

/// Which login a server asked for.
#[derive(Clone, Copy, Debug, PartialEq, Eq)]
pub enum LoginKind {
    /// None: it let the client in at once.
    Trust,
    CleartextPassword,
    Md5Password,
    ScramSha256,
    /// SASL with channel binding among its methods.
    ScramSha256Plus,
    Other,
}

/// What tells the time that has passed since a moment of its own.
pub trait Clock {
    fn now(&mut self) -> Duration;
}

/// A clock that stands still.
#[derive(Clone, Copy, Debug)]
pub struct NoClock;

impl Clock for NoClock {
    fn now(&mut self) -> Duration {
        Duration::ZERO
    }
}

/// What is noted of the login that began last.
#[derive(Clone, Copy, Debug)]
pub struct LoginNotes {
    /// What the server asked for, once it asked.
    pub kind: Option<LoginKind>,
    /// Whether its last SASL message was accepted: it showed then that it knows the password.
    pub proved: bool,
    /// When the link was there.
    pub began: Option<Duration>,
}

// Whether a method is among those that a server offers.
fn is_offered(methods: &[Text], name: &str) -> bool
    ensures { result ≡ place_offers methods.now name.now }
{
    methods.iter().any(|method| method.as_str() == name)
}

// The login of a server that offers these methods.
#[tactic(auto, unfolding(crate::specs::Notes::login_kind))]
fn kind_of(methods: &[Text]) -> LoginKind
    ensures { result ≡ kind_for methods.now }
{
    if is_offered(methods, "SCRAM-SHA-256-PLUS") {
        LoginKind::ScramSha256Plus
    } else if is_offered(methods, "SCRAM-SHA-256") {
        LoginKind::ScramSha256
    } else {
        LoginKind::Other
    }
}

// What is noted behind a request.
fn kind_after(kind: Option<LoginKind>, request: &Authentication) -> Option<LoginKind>
    ensures { result ≡ heard_after kind request.now }
{
    match request {
        Authentication::Ok => Some(kind.unwrap_or(LoginKind::Trust)),
        Authentication::CleartextPassword => Some(LoginKind::CleartextPassword),
        Authentication::KerberosV5 => Some(LoginKind::Other),
        Authentication::MD5Password(_) => Some(LoginKind::Md5Password),
        Authentication::SASL(methods) => Some(kind_of(methods.as_slice())),
        Authentication::SASLContinue(_) | Authentication::SASLFinal(_) => kind,
    }
}

/// Whether a request is the last message of SASL.
pub fn is_final(request: &Authentication) -> bool
    ensures { result ≡ ends_sasl request.now }
{
    match request {
        Authentication::SASLFinal(_) => true,
        _ => false,
    }
}

impl LoginNotes {
    /// Of no login.
    pub fn new() -> LoginNotes
        ensures { result ≡ record { kind = None; proved = false; began = None } }
    {
        LoginNotes {
            kind: None,
            proved: false,
            began: None,
        }
    }

    /// Notes that a login begins.
    pub fn begin(&mut self, at: Duration)
        ensures { self.new ≡ record { kind = None; proved = false; began = Some at } }
    {
        *self = LoginNotes {
            kind: None,
            proved: false,
            began: Some(at),
        };
    }

    /// Notes what the server asks for.
    pub fn hear(&mut self, request: &Authentication)
        ensures { self.new ≡ record self.old { kind = heard_after self.old.kind request.now } }
    {
        self.kind = kind_after(self.kind, request);
    }

    /// Notes that the last message of SASL was accepted, if it was.
    pub fn accept(&mut self, accepted: bool)
        ensures { self.new ≡ record self.old { proved = self.old.proved || accepted } }
    {
        self.proved = self.proved || accepted;
    }
}
