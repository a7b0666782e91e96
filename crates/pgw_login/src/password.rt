//! Logins by a password, whatever the method by which it is asked for and checked.
ghost use Rattle.std.specs.Prelude.{◌≡◌, ◌⊎◌, OnOk, ℕ, List, Option, Result, Ok, Err};
ghost use Rattle.std.specs.Arc.{arc_value};
ghost use Rattle.pgw_types.specs.declared.error.PgWireError.{PgWireError as Refusal};
ghost use Rattle.pgw_types.specs.declared.error.PgWireError.TheVariants.{OutOfMemory as NoMemory};
ghost use Rattle.pgw_login.specs.Login.{Login};
ghost use Rattle.pgw_login.specs.Logins.{login_of};
ghost use Rattle.pgw_login.specs.Acts.{standing_in_login, Answer, Did, Then, LoginAwaits, IsSameSource, IsReleasable};
ghost use Rattle.pgw_login.specs.Opening.{Opens};
ghost use Rattle.pgw_login.specs.Finish.{Finishes};
ghost use Rattle.pgw_login.specs.Password.{Challenges, ChecksPassword, Checks, PasswordOn, PasswordMeans, wrong_password, compared};
ghost use Rattle.pgw_login.specs.declared.password.Challenge.{Challenge as TheChallenge};

use crate::acts::send;
use crate::client_info::ClientInfo;
use crate::finish::finish;
use crate::handler::{Heard, StartupHandler};
use crate::negotiation::open_login;
use crate::outbox::Outbox;
use crate::provider::ServerParameterProvider;
use crate::registers::{Managed, NoRegistry, Registers};
use crate::source::LoginInfo;
use crate::state::LoginState;
use pgw_backend::backend::PgWireBackendMessage;
use pgw_frontend::frontend::PgWireFrontendMessage;
use pgw_registry::generator::PidSecretKeyGenerator;
use pgw_registry::manager::ConnectionManager;
use pgw_startup::authentication::Authentication;
use pgw_startup::password::PasswordMessageFamily;
use pgw_startup::startup::Startup;
use pgw_types::error::{PgWireError, PgWireResult};
use pgw_types::octets::Octets;
use pgw_types::text::Text;
use std::alloc::Global;
use std::sync::{Arc, Wait};

/// What a client is asked by, and what is to be kept for its password, if there is something.
#[derive(Drop)]
pub struct Challenge {
    pub request: Authentication,
    pub kept: Option<Octets>,
}

/// How a password is asked for, and how the one that comes is checked. A client must not be asked by AuthenticationOk, which
/// would let it in.
pub trait PasswordMethod {
    /// What a login may be opened with: what its client is asked by, or why it is not asked.
    ghost opens: { Self → Login → Result TheChallenge Refusal → Type 0 };

    /// What may be answered to the text of a password, by what was kept for it and the login.
    ghost checks: { Self → List ℕ → Option (List ℕ) → Login → Answer → Type 0 };

    /// What the client that logs in is asked by.
    fn open(&self, alloc: Global, login: &LoginInfo<'_>) -> PgWireResult<Challenge>
        ensures { opens self.now (login_of login.now) result };

    /// Whether the text is the password.
    fn verify(
        &self,
        alloc: Global,
        login: &LoginInfo<'_>,
        kept: &Option<Octets>,
        text: &str,
    ) -> PgWireResult<()>
        ensures { (result ≡ Err NoMemory)
            ⊎ checks self.now text.now kept.now (login_of login.now) result };
}

/// The error of a client whose password is wrong, with the user that it named.
pub fn wrong_password(alloc: Global, login: &LoginInfo<'_>) -> PgWireError
    ensures { (result ≡ NoMemory) ⊎ (result ≡ wrong_password (login_of login.now)) }
{
    match Text::from_str(alloc, login.user().unwrap_or("")) {
        Ok(user) => PgWireError::InvalidPassword(user),
        Err(_) => PgWireError::OutOfMemory,
    }
}

/// Ok where the text is the one that it is compared with, byte for byte.
pub fn compare(alloc: Global, login: &LoginInfo<'_>, text: &str, kept: &[u8]) -> PgWireResult<()>
    ensures { (result ≡ Err NoMemory)
        ⊎ (result ≡ compared text.now (login_of login.now) kept.now) }
{
    if text.as_bytes() == kept {
        Ok(())
    } else {
        Err(wrong_password(alloc, login))
    }
}

/// Asks for a password by a method.
#[derive(Drop)]
pub struct PasswordStartupHandler<V, P, G, M> {
    method: V,
    parameter_provider: P,
    generator: G,
    registry: M,
}

impl<V, P, G> PasswordStartupHandler<V, P, G, NoRegistry> {
    /// A handler by this method.
    pub fn with_method(
        method: V,
        parameter_provider: P,
        generator: G,
    ) -> PasswordStartupHandler<V, P, G, NoRegistry>
        ensures { result ≡ record {
          method = method;
          parameter_provider = parameter_provider;
          generator = generator;
          registry = record {};
        } }
    {
        PasswordStartupHandler {
            method,
            parameter_provider,
            generator,
            registry: NoRegistry,
        }
    }
}

impl<V, P, G, M> PasswordStartupHandler<V, P, G, M>
where
    V: PasswordMethod,
    P: ServerParameterProvider,
    G: PidSecretKeyGenerator,
    M: Registers,
{
    // Asks as the method says.
    fn challenge<C: ClientInfo, O: Outbox>(
        &self,
        alloc: Global,
        client: &C,
        out: &mut O,
        state: &mut LoginState,
    ) -> PgWireResult<()>
        ensures source { IsSameSource state.old state.new }
        ensures challenged { Did O.add (O.sent out.old) (O.sent out.new)
            (Challenges (V.opens self.now.method))
            (standing_in_login (C.sight client.now) state.old (O.faults out.old))
            (standing_in_login (C.sight client.now) state.new (O.faults out.new)) result }
        ensures flushed { OnOk result (O.waiting out.new ≡ 0) }
    {
        let login = LoginInfo::from_client_info(client);
        let challenge = self.method.open(alloc, &login)?;
        state.keep(challenge.kept);
        send(out, PgWireBackendMessage::Authentication(challenge.request))
    }

    fn open<C: ClientInfo, O: Outbox>(
        &self,
        alloc: Global,
        client: &mut C,
        out: &mut O,
        state: &mut LoginState,
        startup: &Startup,
    ) -> PgWireResult<()>
        ensures source { IsSameSource state.old state.new }
        ensures opened { Did O.add (O.sent out.old) (O.sent out.new)
            (Then (Opens startup.now) (Challenges (V.opens self.now.method)))
            (standing_in_login (C.sight client.old) state.old (O.faults out.old))
            (standing_in_login (C.sight client.new) state.new (O.faults out.new)) result }
        ensures flushed { OnOk result (O.waiting out.new ≡ 0) }
    {
        open_login(alloc, client, out, state, startup)?;
        self.challenge(alloc, client, out, state)
    }

    // Whether the message is the password.
    fn verify(
        &self,
        alloc: Global,
        login: &LoginInfo<'_>,
        kept: &Option<Octets>,
        message: PasswordMessageFamily,
    ) -> PgWireResult<()>
        ensures { ChecksPassword (V.checks self.now.method) message kept.now (login_of login.now)
            result }
    {
        let password = message.into_password(alloc)?;
        self.method
            .verify(alloc, login, kept, password.password.as_str())
    }

    fn check<C: ClientInfo, O: Outbox>(
        &self,
        alloc: Global,
        client: &mut C,
        out: &mut O,
        state: &mut LoginState,
        message: PasswordMessageFamily,
    ) -> PgWireResult<()>
        requires { G.fits self.now.generator state.old.seat
            × M.fits self.now.registry state.old.pass }
        ensures fits { G.fits self.now.generator state.new.seat
            × M.fits self.now.registry state.new.pass }
        ensures releasable { IsReleasable state.old → IsReleasable state.new }
        ensures checked { Did O.add (O.sent out.old) (O.sent out.new)
            (Then LoginAwaits (Then (Checks (V.checks self.now.method) message)
            (Finishes (P.provides self.now.parameter_provider) (M.registers self.now.registry))))
            (standing_in_login (C.sight client.old) state.old (O.faults out.old))
            (standing_in_login (C.sight client.new) state.new (O.faults out.new)) result }
        ensures flushed { OnOk result (O.waiting out.new ≡ 0) }
    {
        state.await_password()?;
        self.verify(
            alloc,
            &LoginInfo::from_client_info(client),
            &state.kept,
            message,
        )?;
        let provider = &self.parameter_provider;
        finish(
            alloc,
            client,
            out,
            state,
            provider,
            &self.generator,
            &self.registry,
        )
    }

    fn answer<C: ClientInfo, O: Outbox>(
        &self,
        alloc: Global,
        client: &mut C,
        out: &mut O,
        state: &mut LoginState,
        message: Heard,
    ) -> PgWireResult<()>
        requires { G.fits self.now.generator state.old.seat
            × M.fits self.now.registry state.old.pass }
        ensures fits { G.fits self.now.generator state.new.seat
            × M.fits self.now.registry state.new.pass }
        ensures releasable { IsReleasable state.old → IsReleasable state.new }
        ensures answered { Did O.add (O.sent out.old) (O.sent out.new)
            (PasswordOn (V.opens self.now.method) (V.checks self.now.method)
            (P.provides self.now.parameter_provider) (M.registers self.now.registry) message)
            (standing_in_login (C.sight client.old) state.old (O.faults out.old))
            (standing_in_login (C.sight client.new) state.new (O.faults out.new)) result }
        ensures flushed { O.waiting out.old ≡ 0 → OnOk result (O.waiting out.new ≡ 0) }
    {
        match message {
            Heard::Startup(startup) => self.open(alloc, client, out, state, &startup),
            Heard::Password(message) => self.check(alloc, client, out, state, message),
            Heard::Other => Ok(()),
        }
    }
}

impl<V, P, G, M> StartupHandler for PasswordStartupHandler<V, P, G, M>
where
    V: PasswordMethod,
    P: ServerParameterProvider,
    G: PidSecretKeyGenerator,
    M: Registers,
{
    ghost fits = { λ h s. G.fits h.generator s.seat × M.fits h.registry s.pass × IsReleasable s };

    ghost means = { λ h. PasswordMeans (V.opens h.method) (V.checks h.method)
        (P.provides h.parameter_provider) (M.registers h.registry) };

    fn on_startup<C: ClientInfo, O: Outbox>(
        &self,
        alloc: Global,
        client: &mut C,
        out: &mut O,
        state: &mut LoginState,
        message: PgWireFrontendMessage,
    ) -> PgWireResult<()> {
        let answer = self.answer(alloc, client, out, state, Heard::of(message));
        state.settle(answer)
    }
}

impl<V, P, G: Drop, M> PasswordStartupHandler<V, P, G, M> {
    /// This handler with another generator.
    pub fn with_pid_secret_key_generator(self, generator: G) -> Self
        ensures { result ≡ record self { generator = generator } }
    {
        PasswordStartupHandler { generator, ..self }
    }
}

impl<V, P, G, M: Drop> PasswordStartupHandler<V, P, G, M> {
    /// This handler, which registers its connections. A login then may wait for the registry's turn.
    pub fn with_connection_manager<R: Wait>(
        self,
        manager: Arc<ConnectionManager>,
        rt: R,
    ) -> PasswordStartupHandler<V, P, G, Managed<R>>
        ensures kept { (result.method ≡ self.method)
            × (result.parameter_provider ≡ self.parameter_provider)
            × (result.generator ≡ self.generator) }
        ensures manager { arc_value result.registry.manager ≡ arc_value manager }
    {
        let PasswordStartupHandler {
            method,
            parameter_provider,
            generator,
            registry: _,
        } = self;
        PasswordStartupHandler {
            method,
            parameter_provider,
            generator,
            registry: Managed::new(manager, rt),
        }
    }
}
