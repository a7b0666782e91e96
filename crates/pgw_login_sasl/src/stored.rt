//! The server's end of a login by SCRAM over stored secrets, message by message.
ghost use Rattle.std.specs.Prelude.{◌≡◌, ◌⊎◌, ◌≤◌, Err, IfOk};
ghost use Rattle.pgw_types.specs.declared.error.PgWireError.TheVariants.{OutOfMemory as NoMemory};
ghost use Rattle.pgw_login.specs.Logins.{login_of};
ghost use Rattle.pgw_scram.specs.Answers.{IsScramAnswer};
ghost use Rattle.pgw_login_sasl.specs.Stored.{over as server_over, offered_by, offered_under, first_reply, FirstReplies, FinalReplies};

use crate::scram::{ScramSource, is_misnamed};
use pgw_login::source::{LoginInfo, SecretSource};
use pgw_login::state::SASLState;
use pgw_scram::messages::ClientFirst;
use pgw_scram::server::ScramServerAuth;
use pgw_secrets::secret::StoredSecret;
use pgw_secrets::server::{StoredScramAuth, StoredScramWaiting};
use pgw_startup::authentication::Authentication;
use pgw_startup::password::PasswordMessageFamily;
use pgw_startup::sasl::SASLInitialResponse;
use pgw_types::boxed::Boxed;
use pgw_types::error::{PgWireError, PgWireResult, ScramMessageFault};
use pgw_types::memory::OutOfMemory;
use pgw_types::octets::Octets;
use pgw_types::text::Text;
use std::alloc::Global;

/// A source of stored secrets, in the place of one of passwords.
#[derive(Drop)]
pub struct Secrets<S> {
    source: S,
}

impl<S> Secrets<S> {
    pub fn new(source: S) -> Secrets<S>
        ensures { result ≡ record { source = source } }
    {
        Secrets { source }
    }
}

// A server over a secret, with the certificate of this one.
fn over(
    alloc: Global,
    server: &ScramServerAuth,
    secret: StoredSecret,
) -> Result<StoredScramAuth, OutOfMemory>
    requires { 1 ≤ secret.count }
    ensures { IfOk result (λ stored. stored ≡ server_over server.now secret) }
{
    let mut stored = StoredScramAuth::new(secret);
    match server.certificate_hash() {
        Some(hash) => {
            stored.configure_certificate_hash(alloc, hash)?;
            Ok(stored)
        }
        None => Ok(stored),
    }
}

// The server's first message, and the server that has sent it, of the parts of the client's.
fn offered_by(
    alloc: Global,
    server: &StoredScramAuth,
    name: &str,
    parts: ClientFirst,
    nonce: &[u8; 18],
) -> PgWireResult<(Text, StoredScramWaiting)>
    ensures { IsScramAnswer result (offered_by name.now server.now (Ok parts) nonce.now) }
{
    if is_misnamed(name, parts.header.as_str()) {
        return Err(PgWireError::InvalidScramMessage(ScramMessageFault::ChannelBinding));
    }
    server.offer(alloc, parts, nonce)
}

// As `offered_by`, of the client's first message.
fn offered_under(
    alloc: Global,
    server: &StoredScramAuth,
    name: &str,
    message: &[u8],
    nonce: &[u8; 18],
) -> PgWireResult<(Text, StoredScramWaiting)>
    ensures { IsScramAnswer result (offered_under name.now server.now message.now nonce.now) }
{
    let parts = ClientFirst::read(alloc, message)?;
    offered_by(alloc, server, name, parts, nonce)
}

// The server's first message.
fn first_reply(
    alloc: Global,
    server: &StoredScramAuth,
    name: &str,
    message: &[u8],
    nonce: &[u8; 18],
) -> PgWireResult<(Authentication, SASLState)>
    ensures { (result ≡ Err NoMemory)
        ⊎ (result ≡ first_reply (offered_under name.now server.now message.now nonce.now)) }
{
    let (text, waiting) = offered_under(alloc, server, name, message, nonce)?;
    let payload = Octets::from_slice(alloc, text.as_str().as_bytes())?;
    let waiting = Boxed::new(alloc, waiting)?;
    Ok((
        Authentication::SASLContinue(payload),
        SASLState::StoredServerFirstSent(waiting),
    ))
}

// The server's last message.
fn final_reply(
    alloc: Global,
    server: &StoredScramWaiting,
    message: PasswordMessageFamily,
) -> PgWireResult<(Authentication, SASLState)>
    ensures { FinalReplies server.now message result }
{
    let message = message.into_sasl_response()?;
    let text = server.on_client_final_message(alloc, message.payload.as_slice())?;
    let payload = Octets::from_slice(alloc, text.as_str().as_bytes())?;
    Ok((Authentication::SASLFinal(payload), SASLState::Finished))
}

// What is answered to a client-first.
fn reply_to_first<S: SecretSource>(
    alloc: Global,
    source: &S,
    server: &ScramServerAuth,
    login: &LoginInfo<'_>,
    message: PasswordMessageFamily,
    nonce: &[u8; 18],
) -> PgWireResult<(Authentication, SASLState)>
    ensures { FirstReplies (S.secrets source.now) server.now (login_of login.now) message nonce.now
        result }
{
    let SASLInitialResponse {
        auth_method,
        payload,
    } = message.into_sasl_initial_response(alloc)?;
    let Some(payload) = payload else {
        return Err(PgWireError::InvalidScramMessage(ScramMessageFault::Empty));
    };
    let secret = source.get_secret(alloc, login)?;
    let stored = over(alloc, server, secret)?;
    first_reply(
        alloc,
        &stored,
        auth_method.as_str(),
        payload.as_slice(),
        nonce,
    )
}

impl<S: SecretSource> ScramSource for Secrets<S> {
    ghost use Rattle.pgw_login_sasl.specs.Stored.{by_secrets};

    ghost replies = { by_secrets S.secrets };

    fn reply_by(
        &self,
        alloc: Global,
        server: &ScramServerAuth,
        login: &LoginInfo<'_>,
        message: PasswordMessageFamily,
        state: &SASLState,
        nonce: &[u8; 18],
    ) -> PgWireResult<(Authentication, SASLState)> {
        match state {
            SASLState::ScramClientFirstReceived => {
                reply_to_first(alloc, &self.source, server, login, message, nonce)
            }
            SASLState::StoredServerFirstSent(server) => {
                final_reply(alloc, server.as_ref(), message)
            }
            _ => Err(PgWireError::InvalidSASLState),
        }
    }
}
