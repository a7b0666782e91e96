//! The server's end of a login by SCRAM, message by message.
ghost use Rattle.std.specs.Prelude.{◌≡◌, ◌⊎◌, ◌≤◌, Result, Some, None, Ok, Err, OnOk, OnErr, is_some};
ghost use Rattle.pgw_types.specs.declared.error.PgWireError.TheVariants.{OutOfMemory as NoMemory};
ghost use Rattle.pgw_login.specs.Logins.{login_of};
ghost use Rattle.pgw_scram.specs.declared.server.ScramServerAuth.{ScramServerAuth as TheServer};
ghost use Rattle.pgw_scram.specs.Answers.{IsScramAnswer};
ghost use Rattle.pgw_login_sasl.specs.Scram.{binds, is_misnamed, offered_by, offered_under, first_reply, FirstReplies, FinalReplies, Exchanges};

use crate::methods::SCRAM_SHA_256_PLUS_METHOD;
use pgw_login::source::{AuthSource, LoginInfo};
use pgw_login::state::SASLState;
use pgw_scram::messages::ClientFirst;
use pgw_scram::offer::is_bound;
use pgw_scram::password::Password;
use pgw_scram::server::{ScramServerAuth, ScramServerAuthWaitingForClientFinal};
use pgw_startup::authentication::Authentication;
use pgw_startup::password::PasswordMessageFamily;
use pgw_startup::sasl::SASLInitialResponse;
use pgw_types::boxed::Boxed;
use pgw_types::error::{PgWireError, PgWireResult, ScramMessageFault};
use pgw_types::memory::OutOfMemory;
use pgw_types::octets::Octets;
use pgw_types::text::Text;
use std::alloc::Global;

/// Where salted passwords, or stored secrets, come from, and the server's end of SCRAM.
#[derive(Drop)]
pub struct ScramAuth<A> {
    auth_db: A,
    authenticator: ScramServerAuth,
}

impl<A> ScramAuth<A> {
    /// 4096 rounds, and no certificate.
    pub fn new(auth_db: A) -> ScramAuth<A>
        ensures { result ≡ record {
          auth_db = auth_db;
          authenticator = record
              { iterations = 4096; certificate_hash = None };
        } }
    {
        ScramAuth {
            auth_db,
            authenticator: ScramServerAuth::new(),
        }
    }

    /// Sets the hash of the server's certificate, as the channel binding `tls-server-end-point` has it
    /// (RFC 5929, section 4). From then on `SCRAM-SHA-256-PLUS` is offered.
    pub fn configure_certificate_hash(
        &mut self,
        alloc: Global,
        hash: &[u8],
    ) -> Result<(), OutOfMemory>
        ensures set { OnOk result (self.new ≡ record self.old {
          authenticator = record self.old.authenticator
              { certificate_hash = Some hash.now };
        }) }
        ensures refused { OnErr result (self.new ≡ self.old) }
    {
        self.authenticator.configure_certificate_hash(alloc, hash)
    }

    /// Sets the number of rounds that a client is asked for. The passwords of the source are to be
    /// salted with as many. A stored secret has its own.
    pub fn set_iterations(&mut self, iterations: u32)
        requires { 1 ≤ iterations }
        ensures { self.new ≡ record self.old {
          authenticator = record self.old.authenticator
              { iterations = iterations };
        } }
    {
        self.authenticator.set_iterations(iterations);
    }

    /// Whether a certificate's hash is set.
    pub fn supports_channel_binding(&self) -> bool
        ensures { result ≡ is_some self.now.authenticator.certificate_hash }
    {
        self.authenticator.certificate_hash().is_some()
    }
}

// Whether a method of this name binds a login.
fn binds(name: &str) -> bool
    ensures { result ≡ binds name.now }
{
    name == SCRAM_SHA_256_PLUS_METHOD
}

/// Whether one of the method's name and the client's header names a channel binding, and the other none.
pub(crate) fn is_misnamed(name: &str, header: &str) -> bool
    ensures { result ≡ is_misnamed name.now header.now }
{
    if binds(name) {
        !is_bound(header)
    } else {
        is_bound(header)
    }
}

// The server's first message, and the server that has sent it, of the parts of the client's.
fn offered_by(
    alloc: Global,
    server: &ScramServerAuth,
    kept: &Password,
    name: &str,
    parts: ClientFirst,
    nonce: &[u8; 18],
) -> PgWireResult<(Text, ScramServerAuthWaitingForClientFinal)>
    ensures { IsScramAnswer result (offered_by name.now server.now (Ok parts) kept.now nonce.now) }
{
    if is_misnamed(name, parts.header.as_str()) {
        return Err(PgWireError::InvalidScramMessage(ScramMessageFault::ChannelBinding));
    }
    server.offer(alloc, parts, kept, nonce)
}

// As `offered_by`, of the client's first message.
fn offered_under(
    alloc: Global,
    server: &ScramServerAuth,
    kept: &Password,
    name: &str,
    message: &[u8],
    nonce: &[u8; 18],
) -> PgWireResult<(Text, ScramServerAuthWaitingForClientFinal)>
    ensures { IsScramAnswer result (offered_under name.now server.now message.now kept.now
        nonce.now) }
{
    let parts = ClientFirst::read(alloc, message)?;
    offered_by(alloc, server, kept, name, parts, nonce)
}

// The server's first message.
fn first_reply(
    alloc: Global,
    server: &ScramServerAuth,
    kept: &Password,
    name: &str,
    message: &[u8],
    nonce: &[u8; 18],
) -> PgWireResult<(Authentication, SASLState)>
    ensures { (result ≡ Err NoMemory) ⊎ (result
        ≡ first_reply (offered_under name.now server.now message.now kept.now nonce.now)) }
{
    let (text, waiting) = offered_under(alloc, server, kept, name, message, nonce)?;
    let payload = Octets::from_slice(alloc, text.as_str().as_bytes())?;
    let waiting = Boxed::new(alloc, waiting)?;
    Ok((
        Authentication::SASLContinue(payload),
        SASLState::ScramServerFirstSent(waiting),
    ))
}

// The server's last message.
fn final_reply(
    alloc: Global,
    server: &ScramServerAuthWaitingForClientFinal,
    message: PasswordMessageFamily,
) -> PgWireResult<(Authentication, SASLState)>
    ensures { FinalReplies server.now message result }
{
    let message = message.into_sasl_response()?;
    let text = server.on_client_final_message(alloc, message.payload.as_slice())?;
    let payload = Octets::from_slice(alloc, text.as_str().as_bytes())?;
    Ok((Authentication::SASLFinal(payload), SASLState::Finished))
}

// What is answered to a client-first.
fn reply_to_first<A: AuthSource>(
    alloc: Global,
    source: &A,
    server: &ScramServerAuth,
    login: &LoginInfo<'_>,
    message: PasswordMessageFamily,
    nonce: &[u8; 18],
) -> PgWireResult<(Authentication, SASLState)>
    ensures { FirstReplies (A.answers source.now) server.now (login_of login.now) message nonce.now
        result }
{
    let SASLInitialResponse {
        auth_method,
        payload,
    } = message.into_sasl_initial_response(alloc)?;
    let Some(payload) = payload else {
        return Err(PgWireError::InvalidScramMessage(ScramMessageFault::Empty));
    };
    let kept = source.get_password(alloc, login)?;
    first_reply(
        alloc,
        server,
        &kept,
        auth_method.as_str(),
        payload.as_slice(),
        nonce,
    )
}

/// What a server's end of SCRAM answers by: a source of salted passwords, or `Secrets` over one of stored secrets.
pub trait ScramSource {
    ghost use Rattle.pgw_login.specs.Logins.{login_of};

    /// What is replied by a server's end, for a login to a message, by its nonce and how far the exchange is.
    ghost replies: { Self → TheServer → Exchanges };

    /// What is answered to a client's message, and how far the exchange is then.
    fn reply_by(
        &self,
        alloc: Global,
        server: &ScramServerAuth,
        login: &LoginInfo<'_>,
        message: PasswordMessageFamily,
        state: &SASLState,
        nonce: &[u8; 18],
    ) -> PgWireResult<(Authentication, SASLState)>
        ensures { replies self.now server.now (login_of login.now) message nonce.now state.now
            result };
}

impl<A: AuthSource> ScramSource for A {
    ghost use Rattle.pgw_login_sasl.specs.Scram.{by_passwords};

    ghost replies = { by_passwords A.answers };

    fn reply_by(
        &self,
        alloc: Global,
        server: &ScramServerAuth,
        login: &LoginInfo<'_>,
        message: PasswordMessageFamily,
        state: &SASLState,
        nonce: &[u8; 18],
    ) -> PgWireResult<(Authentication, SASLState)> {
        match state {
            SASLState::ScramClientFirstReceived => {
                reply_to_first(alloc, self, server, login, message, nonce)
            }
            SASLState::ScramServerFirstSent(server) => {
                final_reply(alloc, server.as_ref(), message)
            }
            _ => Err(PgWireError::InvalidSASLState),
        }
    }
}

impl<A: ScramSource> ScramAuth<A> {
    /// What is answered to a client's message, and how far the exchange is then. In the state
    /// `ScramClientFirstReceived` the message is a client-first: its data, then the source is asked,
    /// then the step, which refuses a header that does not suit the method's name. In the state
    /// `ScramServerFirstSent` of a password, or `StoredServerFirstSent` of a secret, it is a
    /// client-final. In any other state it is refused with `InvalidSASLState`.
    pub fn process_scram_message(
        &self,
        alloc: Global,
        login: &LoginInfo<'_>,
        message: PasswordMessageFamily,
        state: &SASLState,
        nonce: &[u8; 18],
    ) -> PgWireResult<(Authentication, SASLState)>
        ensures { A.replies self.now.auth_db self.now.authenticator (login_of login.now) message
            nonce.now state.now result }
    {
        self.auth_db
            .reply_by(alloc, &self.authenticator, login, message, state, nonce)
    }
}
