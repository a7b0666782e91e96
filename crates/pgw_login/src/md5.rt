//! Logins by a password that MD5 is taken of.
ghost use Rattle.std.specs.Prelude.{◌≡◌, ◌⊎◌, ◌↔◌, Ok, Err, List};
ghost use Rattle.pgw_frontend.specs.declared.frontend.PgWireFrontendMessage.{PgWireFrontendMessage as Frontend};
ghost use Rattle.pgw_backend.specs.declared.backend.PgWireBackendMessage.{PgWireBackendMessage as Message};
ghost use Rattle.pgw_login.specs.Acts.{Standing, Answer};
ghost use Rattle.pgw_types.specs.declared.error.PgWireError.TheVariants.{OutOfMemory as NoMemory};
ghost use Rattle.pgw_login.specs.Md5.{OpensMd5, ChecksMd5, Md5Means, md5_challenge};

use crate::handler::StartupHandler;
use crate::password::{Challenge, PasswordMethod, PasswordStartupHandler, compare};
use crate::provider::ServerParameterProvider;
use crate::registers::{NoRegistry, Registers};
use crate::source::{AuthSource, LoginInfo};
use pgw_registry::generator::PidSecretKeyGenerator;
use pgw_scram::password::Password;
use pgw_startup::authentication::Authentication;
use pgw_types::error::{PgWireError, PgWireResult};
use pgw_types::octets::Octets;
use std::alloc::Global;

/// A password under MD5 (AuthenticationMD5Password). The source gives the text that a client is to
/// send and the salt of four bytes that it was made with.
#[derive(Drop)]
pub struct Md5Password<A> {
    auth_source: A,
}

impl<A> Md5Password<A> {
    /// The method by the salted texts of this source.
    pub fn new(auth_source: A) -> Md5Password<A>
        ensures { result ≡ record { auth_source = auth_source } }
    {
        Md5Password { auth_source }
    }
}

// What a client is asked by for a password that the source keeps.
fn challenge_of(alloc: Global, kept: &Password) -> PgWireResult<Challenge>
    ensures { (result ≡ Err NoMemory) ⊎ (result ≡ md5_challenge (Ok kept.now)) }
{
    let Some(salt) = kept.salt() else {
        return Err(PgWireError::SaltRequired);
    };
    let salt = Octets::from_slice(alloc, salt)?;
    let text = Octets::from_slice(alloc, kept.password())?;
    Ok(Challenge {
        request: Authentication::MD5Password(salt),
        kept: Some(text),
    })
}

impl<A: AuthSource> PasswordMethod for Md5Password<A> {
    ghost opens = { λ m. OpensMd5 (A.answers m.auth_source) };

    ghost checks = { λ m. ChecksMd5 };

    fn open(&self, alloc: Global, login: &LoginInfo<'_>) -> PgWireResult<Challenge> {
        let kept = self.auth_source.get_password(alloc, login)?;
        challenge_of(alloc, &kept)
    }

    fn verify(
        &self,
        alloc: Global,
        login: &LoginInfo<'_>,
        kept: &Option<Octets>,
        text: &str,
    ) -> PgWireResult<()> {
        match kept {
            Some(kept) => compare(alloc, login, text, kept.as_slice()),
            None => Err(PgWireError::InvalidSASLState),
        }
    }
}

/// Asks for a password under MD5.
pub type Md5PasswordAuthStartupHandler<A, P, G, M> = PasswordStartupHandler<
    Md5Password<A>,
    P,
    G,
    M,
>;

impl<A, P, G> PasswordStartupHandler<Md5Password<A>, P, G, NoRegistry> {
    /// A handler by the salted texts of this source.
    pub fn new(
        auth_source: A,
        parameter_provider: P,
        generator: G,
    ) -> Md5PasswordAuthStartupHandler<A, P, G, NoRegistry>
        ensures { result ≡ record {
          method = record { auth_source = auth_source };
          parameter_provider = parameter_provider;
          generator = generator;
          registry = record {};
        } }
    {
        let method = Md5Password::new(auth_source);
        PasswordStartupHandler::with_method(method, parameter_provider, generator)
    }
}

/// What a handler does with a message is the act of its table.
pub fn md5_handlers_act<A, P, G, M>(handler: &Md5PasswordAuthStartupHandler<A, P, G, M>)
where
    A: AuthSource,
    P: ServerParameterProvider,
    G: PidSecretKeyGenerator,
    M: Registers,
    ensures { (m : Frontend) (before after : Standing) (sent : List Message)
        (answer : Answer) →
        ⟦<Md5PasswordAuthStartupHandler<A, P, G, M> as StartupHandler>⟧.means handler.now m before
        after sent answer
        ↔ Md5Means (A.answers handler.now.method.auth_source)
        (P.provides handler.now.parameter_provider) (M.registers handler.now.registry) m
        before after sent answer }
{}
