//! Logins that ask for nothing.
ghost use Rattle.std.specs.Prelude.{◌≡◌, OnOk, List};
ghost use Rattle.pgw_frontend.specs.declared.frontend.PgWireFrontendMessage.{PgWireFrontendMessage as TheMessage};
ghost use Rattle.pgw_backend.specs.declared.backend.PgWireBackendMessage.{PgWireBackendMessage as Backend};
ghost use Rattle.pgw_login.specs.Acts.{Standing, standing_in_login, Answer, Did, LoginStays, IsReleasable};
ghost use Rattle.pgw_login.specs.Noop.{NoopMeans, NoopOn, Welcomes, IntroducesBy};
ghost use Rattle.pgw_login.specs.Provider.{default_provider};
ghost use Rattle.pgw_login.specs.declared.state.LoginState.{LoginState as TheState};

use crate::client_info::ClientInfo;
use crate::finish::{accept, introduce, ready};
use crate::handler::{Heard, StartupHandler};
use crate::negotiation::begin;
use crate::outbox::Outbox;
use crate::provider::DefaultServerParameterProvider;
use crate::registers::{NoRegistry, Registers};
use crate::state::{LoginState, SASLState};
use pgw_frontend::frontend::PgWireFrontendMessage;
use pgw_registry::generator::PidSecretKeyGenerator;
use pgw_startup::startup::Startup;
use pgw_types::error::PgWireResult;
use std::alloc::Global;

/// What a login that asks for nothing does before the client may ask.
pub trait NoopStartupHandler {
    type Generator: PidSecretKeyGenerator;

    type Registry: Registers;

    ghost generator: { Self → Self.Generator };

    ghost registry: { Self → Self.Registry };

    /// What `post_startup` does with the startup message.
    ghost posts: { Self → TheMessage → Standing → Standing → List Backend → Answer → Type 0 };

    /// Where its connections are registered.
    fn connection_manager(&self) -> &Self::Registry
        ensures { result.now ≡ registry self.now };

    fn pid_secret_key_generator(&self) -> &Self::Generator
        ensures { result.now ≡ generator self.now };

    /// Called before the client is told that it may ask.
    fn post_startup<C: ClientInfo, O: Outbox>(
        &self,
        client: &mut C,
        out: &mut O,
        message: PgWireFrontendMessage,
    ) -> PgWireResult<()>
        ensures { (login : TheState) → Did O.add (O.sent out.old) (O.sent out.new)
            (posts self.now message) (standing_in_login (C.sight client.old) login
            (O.faults out.old))
            (standing_in_login (C.sight client.new) login (O.faults out.new)) result };
}

// What the client is told where nothing else is said.
fn introduce_default<C: ClientInfo, O: Outbox>(
    alloc: Global,
    client: &C,
    out: &mut O,
) -> PgWireResult<()>
    ensures { (login : TheState) → Did O.add (O.sent out.old) (O.sent out.new)
        (IntroducesBy default_provider) (standing_in_login (C.sight client.now) login
        (O.faults out.old))
        (standing_in_login (C.sight client.now) login (O.faults out.new)) result }
{
    let provider = DefaultServerParameterProvider::new(alloc)?;
    let told = introduce(alloc, client, out, &provider);
    drop(provider);
    told
}

fn welcome<H: NoopStartupHandler, C: ClientInfo, O: Outbox>(
    handler: &H,
    alloc: Global,
    client: &mut C,
    out: &mut O,
    state: &mut LoginState,
    startup: Startup,
) -> PgWireResult<()>
    requires { H.Generator.fits (H.generator handler.now) state.old.seat
        × H.Registry.fits (H.registry handler.now) state.old.pass }
    ensures fits { H.Generator.fits (H.generator handler.now) state.new.seat
        × H.Registry.fits (H.registry handler.now) state.new.pass }
    ensures releasable { IsReleasable state.old → IsReleasable state.new }
    ensures welcomed { Did O.add (O.sent out.old) (O.sent out.new)
        (Welcomes (H.posts handler.now) (H.Registry.registers (H.registry handler.now)) startup)
        (standing_in_login (C.sight client.old) state.old (O.faults out.old))
        (standing_in_login (C.sight client.new) state.new (O.faults out.new)) result }
    ensures flushed { OnOk result (O.waiting out.new ≡ 0) }
{
    begin(alloc, client, out, state, &startup)?;
    let generator = handler.pid_secret_key_generator();
    accept(
        alloc,
        client,
        state,
        generator,
        handler.connection_manager(),
    )?;
    introduce_default(alloc, client, out)?;
    handler.post_startup(client, out, PgWireFrontendMessage::Startup(startup))?;
    ready(client, out)?;
    state.set_sasl(SASLState::Finished);
    Ok(())
}

fn answer<H: NoopStartupHandler, C: ClientInfo, O: Outbox>(
    handler: &H,
    alloc: Global,
    client: &mut C,
    out: &mut O,
    state: &mut LoginState,
    message: Heard,
) -> PgWireResult<()>
    requires { H.Generator.fits (H.generator handler.now) state.old.seat
        × H.Registry.fits (H.registry handler.now) state.old.pass }
    ensures fits { H.Generator.fits (H.generator handler.now) state.new.seat
        × H.Registry.fits (H.registry handler.now) state.new.pass }
    ensures releasable { IsReleasable state.old → IsReleasable state.new }
    ensures answered { Did O.add (O.sent out.old) (O.sent out.new)
        (NoopOn (H.posts handler.now) (H.Registry.registers (H.registry handler.now)) message)
        (standing_in_login (C.sight client.old) state.old (O.faults out.old))
        (standing_in_login (C.sight client.new) state.new (O.faults out.new)) result }
    ensures flushed { O.waiting out.old ≡ 0 → OnOk result (O.waiting out.new ≡ 0) }
{
    match message {
        Heard::Startup(startup) => welcome(handler, alloc, client, out, state, startup),
        Heard::Password(_) => Ok(()),
        Heard::Other => Ok(()),
    }
}

/// What a handler that asks for nothing does with a message.
pub fn noop_startup<H: NoopStartupHandler, C: ClientInfo, O: Outbox>(
    handler: &H,
    alloc: Global,
    client: &mut C,
    out: &mut O,
    state: &mut LoginState,
    message: PgWireFrontendMessage,
) -> PgWireResult<()>
    requires { H.Generator.fits (H.generator handler.now) state.old.seat
        × H.Registry.fits (H.registry handler.now) state.old.pass }
    ensures fits { H.Generator.fits (H.generator handler.now) state.new.seat
        × H.Registry.fits (H.registry handler.now) state.new.pass }
    ensures releasable { IsReleasable state.old → IsReleasable state.new }
    ensures means { Did O.add (O.sent out.old) (O.sent out.new)
        (NoopMeans (H.posts handler.now) (H.Registry.registers (H.registry handler.now)) message)
        (standing_in_login (C.sight client.old) state.old (O.faults out.old))
        (standing_in_login (C.sight client.new) state.new (O.faults out.new)) result }
    ensures flushed { O.waiting out.old ≡ 0 → OnOk result (O.waiting out.new ≡ 0) }
{
    let answer = answer(handler, alloc, client, out, state, Heard::of(message));
    state.settle(answer)
}

/// Asks for nothing: whoever connects is let in.
#[derive(Drop)]
pub struct NoopHandler<G> {
    generator: G,
}

impl<G> NoopHandler<G> {
    pub fn new(generator: G) -> NoopHandler<G>
        ensures { result.generator ≡ generator }
    {
        NoopHandler { generator }
    }
}

impl<G: PidSecretKeyGenerator> NoopStartupHandler for NoopHandler<G> {
    type Generator = G;

    type Registry = NoRegistry;

    ghost generator = { λ h. h.generator };

    ghost registry = { λ h. record {} };

    ghost posts = { λ h m. LoginStays };

    fn connection_manager(&self) -> &NoRegistry {
        &NoRegistry
    }

    fn pid_secret_key_generator(&self) -> &G {
        &self.generator
    }

    fn post_startup<C: ClientInfo, O: Outbox>(
        &self,
        _client: &mut C,
        _out: &mut O,
        _message: PgWireFrontendMessage,
    ) -> PgWireResult<()> {
        Ok(())
    }
}

impl<G: PidSecretKeyGenerator> StartupHandler for NoopHandler<G> {
    ghost use Rattle.pgw_login.specs.Registered.{NotRegistered};

    ghost fits = { λ h s. G.fits h.generator s.seat × IsReleasable s };

    ghost means = { λ h. NoopMeans (λ m. LoginStays)
        (λ before pid key after answer. NotRegistered before after answer) };

    fn on_startup<C: ClientInfo, O: Outbox>(
        &self,
        alloc: Global,
        client: &mut C,
        out: &mut O,
        state: &mut LoginState,
        message: PgWireFrontendMessage,
    ) -> PgWireResult<()> {
        noop_startup(self, alloc, client, out, state, message)
    }
}
