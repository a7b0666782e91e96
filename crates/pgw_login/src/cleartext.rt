//! Logins by a password in clear text.
ghost use Rattle.std.specs.Prelude.{◌≡◌, ◌↔◌, [], ◌∷◌, List};
ghost use Rattle.pgw_frontend.specs.declared.frontend.PgWireFrontendMessage.{PgWireFrontendMessage as Frontend};
ghost use Rattle.pgw_backend.specs.declared.backend.PgWireBackendMessage.{PgWireBackendMessage as Message};
ghost use Rattle.pgw_login.specs.Acts.{Standing, Answer, Sends};
ghost use Rattle.pgw_login.specs.Password.{Challenges};
ghost use Rattle.pgw_login.specs.Cleartext.{OpensCleartext, ChecksCleartext, CleartextMeans, cleartext_request};

use crate::handler::StartupHandler;
use crate::password::{Challenge, PasswordMethod, PasswordStartupHandler, compare};
use crate::provider::ServerParameterProvider;
use crate::registers::{NoRegistry, Registers};
use crate::source::{AuthSource, LoginInfo};
use pgw_registry::generator::PidSecretKeyGenerator;
use pgw_startup::authentication::Authentication;
use pgw_types::error::PgWireResult;
use pgw_types::octets::Octets;
use std::alloc::Global;

/// A password in clear text (AuthenticationCleartextPassword), which is to be the source's.
#[derive(Drop)]
pub struct CleartextPassword<A> {
    auth_source: A,
}

impl<A> CleartextPassword<A> {
    /// The method by the passwords of this source.
    pub fn new(auth_source: A) -> CleartextPassword<A>
        ensures { result ≡ record { auth_source = auth_source } }
    {
        CleartextPassword { auth_source }
    }
}

impl<A: AuthSource> PasswordMethod for CleartextPassword<A> {
    ghost opens = { λ m. OpensCleartext };

    ghost checks = { λ m. ChecksCleartext (A.answers m.auth_source) };

    fn open(&self, _alloc: Global, _login: &LoginInfo<'_>) -> PgWireResult<Challenge> {
        Ok(Challenge {
            request: Authentication::CleartextPassword,
            kept: None,
        })
    }

    fn verify(
        &self,
        alloc: Global,
        login: &LoginInfo<'_>,
        _kept: &Option<Octets>,
        text: &str,
    ) -> PgWireResult<()> {
        let kept = self.auth_source.get_password(alloc, login)?;
        compare(alloc, login, text, kept.password())
    }
}

/// Asks for a password in clear text.
pub type CleartextPasswordAuthStartupHandler<A, P, G, M> = PasswordStartupHandler<
    CleartextPassword<A>,
    P,
    G,
    M,
>;

impl<A, P, G> PasswordStartupHandler<CleartextPassword<A>, P, G, NoRegistry> {
    /// A handler by the passwords of this source.
    pub fn new(
        auth_source: A,
        parameter_provider: P,
        generator: G,
    ) -> CleartextPasswordAuthStartupHandler<A, P, G, NoRegistry>
        ensures { result ≡ record {
          method = record { auth_source = auth_source };
          parameter_provider = parameter_provider;
          generator = generator;
          registry = record {};
        } }
    {
        let method = CleartextPassword::new(auth_source);
        PasswordStartupHandler::with_method(method, parameter_provider, generator)
    }
}

/// A client is asked by one message and nothing else: AuthenticationCleartextPassword is sent, and nothing is kept.
pub fn cleartext_is_asked_for()
    ensures { (before after : Standing) (sent : List Message) (answer : Answer) →
        Challenges OpensCleartext before after sent answer
        ↔ Sends (cleartext_request ∷ []) before after sent answer }
{}

/// What a handler does with a message is the act of its table.
pub fn cleartext_handlers_act<A, P, G, M>(handler: &CleartextPasswordAuthStartupHandler<A, P, G, M>)
where
    A: AuthSource,
    P: ServerParameterProvider,
    G: PidSecretKeyGenerator,
    M: Registers,
    ensures { (m : Frontend) (before after : Standing) (sent : List Message)
        (answer : Answer) →
        ⟦<CleartextPasswordAuthStartupHandler<A, P, G, M> as StartupHandler>⟧.means handler.now m
        before after sent answer
        ↔ CleartextMeans (A.answers handler.now.method.auth_source)
        (P.provides handler.now.parameter_provider) (M.registers handler.now.registry) m
        before after sent answer }
{}
