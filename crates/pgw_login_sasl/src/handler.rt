//! Logins by SASL.
ghost use Rattle.std.specs.Prelude.{◌≡◌, IfOk, OnOk, Some, None, is_some};
ghost use Rattle.std.specs.Arc.{arc_value};
ghost use Rattle.pgw_login.specs.Logins.{login_of};
ghost use Rattle.pgw_login.specs.Acts.{standing_in_login, Did, Then, Sends, IsSameSource, IsReleasable};
ghost use Rattle.pgw_login.specs.Client.{LoginClient};
ghost use Rattle.pgw_login.specs.Opening.{Opens};
ghost use Rattle.pgw_login.specs.declared.state.LoginState.{LoginState as TheState};
ghost use Rattle.pgw_login_sasl.specs.Methods.{offered_methods};
ghost use Rattle.pgw_login_sasl.specs.Scram.{ByScram};
ghost use Rattle.pgw_login_sasl.specs.Sasl.{Offers, ByOauth, By, Replied, sasl_messages, EndsSaslLogin, RespondsBy, Responds, SaslOn, SaslMeans};

use crate::methods::{
    Method, OAUTHBEARER_METHOD, SCRAM_SHA_256_METHOD, SCRAM_SHA_256_PLUS_METHOD, unsupported,
};
use crate::oauth::Oauth;
use crate::scram::{ScramAuth, ScramSource};
use crate::turn::{begun, is_finished, is_initial, stage_of, turned};
use crate::validator::OauthValidator;
use pgw_backend::backend::PgWireBackendMessage;
use pgw_frontend::frontend::PgWireFrontendMessage;
use pgw_login::acts::send;
use pgw_login::client_info::ClientInfo;
use pgw_login::finish::finish;
use pgw_login::handler::{Heard, StartupHandler};
use pgw_login::negotiation::open_login;
use pgw_login::outbox::Outbox;
use pgw_login::provider::ServerParameterProvider;
use pgw_login::registers::{Managed, NoRegistry, Registers};
use pgw_login::source::LoginInfo;
use pgw_login::state::{LoginState, SASLState};
use pgw_registry::generator::PidSecretKeyGenerator;
use pgw_registry::manager::ConnectionManager;
use pgw_startup::authentication::Authentication;
use pgw_startup::password::PasswordMessageFamily;
use pgw_startup::startup::Startup;
use pgw_types::error::{PgWireError, PgWireResult};
use pgw_types::listed::Listed;
use pgw_types::memory::OutOfMemory;
use pgw_types::text::Text;
use std::alloc::Global;
use std::sync::{Arc, Wait};

/// Asks for a login by one of the SASL methods that are set (AuthenticationSASL).
#[derive(Drop)]
pub struct SASLAuthStartupHandler<A, P, G, M> {
    parameter_provider: P,
    generator: G,
    registry: M,
    scram: Option<ScramAuth<A>>,
    oauth: Option<Oauth>,
}

impl<A, P, G> SASLAuthStartupHandler<A, P, G, NoRegistry> {
    /// No method is set.
    pub fn new(parameter_provider: P, generator: G) -> SASLAuthStartupHandler<A, P, G, NoRegistry>
        ensures { result ≡ record {
          parameter_provider = parameter_provider;
          generator = generator;
          registry = record {};
          scram = None;
          oauth = None;
        } }
    {
        SASLAuthStartupHandler {
            parameter_provider,
            generator,
            registry: NoRegistry,
            scram: None,
            oauth: None,
        }
    }
}

// The methods that are set.
fn offered_methods<A>(
    alloc: Global,
    scram: &Option<ScramAuth<A>>,
    oauth: &Option<Oauth>,
) -> Result<Listed<Text>, OutOfMemory>
    ensures { IfOk result (λ methods. methods ≡ offered_methods scram.now oauth.now) }
{
    let mut methods = Listed::new(alloc);
    if let Some(scram) = scram {
        methods.push(Text::from_str(alloc, SCRAM_SHA_256_METHOD)?)?;
        if scram.supports_channel_binding() {
            methods.push(Text::from_str(alloc, SCRAM_SHA_256_PLUS_METHOD)?)?;
        }
    }
    if oauth.is_some() {
        methods.push(Text::from_str(alloc, OAUTHBEARER_METHOD)?)?;
    }
    Ok(methods)
}

// What SCRAM replies, if it is set.
fn reply_by_scram<A: ScramSource>(
    alloc: Global,
    scram: &Option<ScramAuth<A>>,
    login: &LoginInfo<'_>,
    message: PasswordMessageFamily,
    nonce: &[u8; 18],
    state: &SASLState,
) -> PgWireResult<(Option<Authentication>, SASLState)>
    ensures { ByScram A.replies scram.now (login_of login.now) message nonce.now state.now result }
{
    let Some(scram) = scram else {
        return Err(unsupported(alloc, "SCRAM"));
    };
    match scram.process_scram_message(alloc, login, message, state, nonce) {
        Ok((reply, next)) => Ok((Some(reply), next)),
        Err(e) => Err(e),
    }
}

// What OAUTHBEARER replies, if it is set.
fn reply_by_oauth(
    alloc: Global,
    oauth: &Option<Oauth>,
    login: &LoginInfo<'_>,
    message: PasswordMessageFamily,
    nonce: &[u8; 18],
    state: &SASLState,
) -> PgWireResult<(Option<Authentication>, SASLState)>
    ensures { ByOauth oauth.now (λ o. validates o.validator) (login_of login.now) message nonce.now
        state.now result }
{
    match oauth {
        Some(oauth) => oauth.process_oauth_message(alloc, login, message, state),
        None => Err(unsupported(alloc, OAUTHBEARER_METHOD)),
    }
}

// Sends a reply, if there is one.
fn tell<O: Outbox>(out: &mut O, reply: Option<Authentication>) -> PgWireResult<()>
    ensures told { (client : LoginClient) (login : TheState) →
        Did O.add (O.sent out.old) (O.sent out.new) (Sends (sasl_messages reply))
        (standing_in_login client login (O.faults out.old))
        (standing_in_login client login (O.faults out.new))
        result }
    ensures flushed { O.waiting out.old ≡ 0 → OnOk result (O.waiting out.new ≡ 0) }
{
    match reply {
        Some(reply) => send(out, PgWireBackendMessage::Authentication(reply)),
        None => Ok(()),
    }
}

impl<A, P, G, M> SASLAuthStartupHandler<A, P, G, M>
where
    A: ScramSource,
    P: ServerParameterProvider,
    G: PidSecretKeyGenerator,
    M: Registers,
{
    fn offer<O: Outbox>(&self, alloc: Global, out: &mut O) -> PgWireResult<()>
        ensures offered { (client : LoginClient) (login : TheState) →
            Did O.add (O.sent out.old) (O.sent out.new)
            (Offers (offered_methods self.now.scram self.now.oauth))
            (standing_in_login client login (O.faults out.old))
            (standing_in_login client login (O.faults out.new))
            result }
        ensures flushed { OnOk result (O.waiting out.new ≡ 0) }
    {
        let methods = offered_methods(alloc, &self.scram, &self.oauth)?;
        let request = Authentication::SASL(methods);
        send(out, PgWireBackendMessage::Authentication(request))
    }

    fn open<C: ClientInfo, O: Outbox>(
        &self,
        alloc: Global,
        client: &mut C,
        out: &mut O,
        state: &mut LoginState,
        startup: &Startup,
    ) -> PgWireResult<()>
        ensures source { IsSameSource state.old state.new }
        ensures opened { Did O.add (O.sent out.old) (O.sent out.new)
            (Then (Opens startup.now) (Offers (offered_methods self.now.scram self.now.oauth)))
            (standing_in_login (C.sight client.old) state.old (O.faults out.old))
            (standing_in_login (C.sight client.new) state.new (O.faults out.new)) result }
        ensures flushed { OnOk result (O.waiting out.new ≡ 0) }
    {
        open_login(alloc, client, out, state, startup)?;
        self.offer(alloc, out)
    }

    // What the method replies.
    fn reply_by(
        &self,
        alloc: Global,
        login: &LoginInfo<'_>,
        method: Method,
        message: PasswordMessageFamily,
        nonce: &[u8; 18],
        state: &SASLState,
    ) -> PgWireResult<(Option<Authentication>, SASLState)>
        ensures { By (ByScram A.replies self.now.scram)
            (ByOauth self.now.oauth (λ o. validates o.validator)) (login_of login.now) method
            message nonce.now state.now result }
    {
        match method {
            Method::Scram => reply_by_scram(alloc, &self.scram, login, message, nonce, state),
            Method::OauthBearer => {
                reply_by_oauth(alloc, &self.oauth, login, message, nonce, state)
            }
        }
    }

    // What is replied to a message.
    fn reply(
        &self,
        alloc: Global,
        login: &LoginInfo<'_>,
        state: &LoginState,
        message: PasswordMessageFamily,
    ) -> PgWireResult<(Option<Authentication>, SASLState)>
        ensures { Replied (ByScram A.replies self.now.scram)
            (ByOauth self.now.oauth (λ o. validates o.validator)) (login_of login.now) state.now
            message result }
    {
        let (method, message) = turned(alloc, stage_of(state), message)?;
        if is_initial(state.sasl()) {
            let sasl = begun(method);
            self.reply_by(alloc, login, method, message, state.nonce(), &sasl)
        } else {
            self.reply_by(alloc, login, method, message, state.nonce(), state.sasl())
        }
    }

    // Ends the login where the exchange has ended.
    fn end<C: ClientInfo, O: Outbox>(
        &self,
        alloc: Global,
        client: &mut C,
        out: &mut O,
        state: &mut LoginState,
        is_finished: bool,
    ) -> PgWireResult<()>
        requires { G.fits self.now.generator state.old.seat
            × M.fits self.now.registry state.old.pass }
        ensures fits { G.fits self.now.generator state.new.seat
            × M.fits self.now.registry state.new.pass }
        ensures releasable { IsReleasable state.old → IsReleasable state.new }
        ensures ended { Did O.add (O.sent out.old) (O.sent out.new)
            (EndsSaslLogin (P.provides self.now.parameter_provider) (M.registers self.now.registry)
            is_finished) (standing_in_login (C.sight client.old) state.old (O.faults out.old))
            (standing_in_login (C.sight client.new) state.new (O.faults out.new)) result }
        ensures flushed { O.waiting out.old ≡ 0 → OnOk result (O.waiting out.new ≡ 0) }
    {
        if !is_finished {
            return Ok(());
        }
        let provider = &self.parameter_provider;
        finish(
            alloc,
            client,
            out,
            state,
            provider,
            &self.generator,
            &self.registry,
        )
    }

    // Sends the reply, and goes on from there.
    fn go_on<C: ClientInfo, O: Outbox>(
        &self,
        alloc: Global,
        client: &mut C,
        out: &mut O,
        state: &mut LoginState,
        reply: Option<Authentication>,
        next: SASLState,
    ) -> PgWireResult<()>
        requires { G.fits self.now.generator state.old.seat
            × M.fits self.now.registry state.old.pass }
        ensures fits { G.fits self.now.generator state.new.seat
            × M.fits self.now.registry state.new.pass }
        ensures releasable { IsReleasable state.old → IsReleasable state.new }
        ensures done { Did O.add (O.sent out.old) (O.sent out.new)
            (RespondsBy (P.provides self.now.parameter_provider) (M.registers self.now.registry)
            (Ok (reply, next))) (standing_in_login (C.sight client.old) state.old
            (O.faults out.old))
            (standing_in_login (C.sight client.new) state.new (O.faults out.new)) result }
        ensures flushed { O.waiting out.old ≡ 0 → OnOk result (O.waiting out.new ≡ 0) }
    {
        tell(out, reply)?;
        let is_finished = is_finished(&next);
        state.set_sasl(next);
        self.end(alloc, client, out, state, is_finished)
    }

    fn respond<C: ClientInfo, O: Outbox>(
        &self,
        alloc: Global,
        client: &mut C,
        out: &mut O,
        state: &mut LoginState,
        message: PasswordMessageFamily,
    ) -> PgWireResult<()>
        requires { G.fits self.now.generator state.old.seat
            × M.fits self.now.registry state.old.pass }
        ensures fits { G.fits self.now.generator state.new.seat
            × M.fits self.now.registry state.new.pass }
        ensures releasable { IsReleasable state.old → IsReleasable state.new }
        ensures responded { Did O.add (O.sent out.old) (O.sent out.new)
            (Responds (ByScram A.replies self.now.scram)
            (ByOauth self.now.oauth (λ o. validates o.validator))
            (P.provides self.now.parameter_provider) (M.registers self.now.registry) message)
            (standing_in_login (C.sight client.old) state.old (O.faults out.old))
            (standing_in_login (C.sight client.new) state.new (O.faults out.new)) result }
        ensures flushed { O.waiting out.old ≡ 0 → OnOk result (O.waiting out.new ≡ 0) }
    {
        let (reply, next) = self.reply(
            alloc,
            &LoginInfo::from_client_info(client),
            state,
            message,
        )?;
        self.go_on(alloc, client, out, state, reply, next)
    }

    fn answer<C: ClientInfo, O: Outbox>(
        &self,
        alloc: Global,
        client: &mut C,
        out: &mut O,
        state: &mut LoginState,
        message: Heard,
    ) -> PgWireResult<()>
        requires { G.fits self.now.generator state.old.seat
            × M.fits self.now.registry state.old.pass }
        ensures fits { G.fits self.now.generator state.new.seat
            × M.fits self.now.registry state.new.pass }
        ensures releasable { IsReleasable state.old → IsReleasable state.new }
        ensures answered { Did O.add (O.sent out.old) (O.sent out.new)
            (SaslOn (offered_methods self.now.scram self.now.oauth)
            (ByScram A.replies self.now.scram) (ByOauth self.now.oauth (λ o. validates o.validator))
            (P.provides self.now.parameter_provider) (M.registers self.now.registry) message)
            (standing_in_login (C.sight client.old) state.old (O.faults out.old))
            (standing_in_login (C.sight client.new) state.new (O.faults out.new)) result }
        ensures flushed { O.waiting out.old ≡ 0 → OnOk result (O.waiting out.new ≡ 0) }
    {
        match message {
            Heard::Startup(startup) => self.open(alloc, client, out, state, &startup),
            Heard::Password(message) => self.respond(alloc, client, out, state, message),
            Heard::Other => Ok(()),
        }
    }
}

impl<A, P, G, M> StartupHandler for SASLAuthStartupHandler<A, P, G, M>
where
    A: ScramSource,
    P: ServerParameterProvider,
    G: PidSecretKeyGenerator,
    M: Registers,
{
    ghost fits = { λ h s. G.fits h.generator s.seat × M.fits h.registry s.pass × IsReleasable s };

    ghost means = { λ h. SaslMeans (offered_methods h.scram h.oauth) (ByScram A.replies h.scram)
        (ByOauth h.oauth (λ o. (OauthValidator-box o.validator).validates o.validator.value))
        (P.provides h.parameter_provider) (M.registers h.registry) };

    fn on_startup<C: ClientInfo, O: Outbox>(
        &self,
        alloc: Global,
        client: &mut C,
        out: &mut O,
        state: &mut LoginState,
        message: PgWireFrontendMessage,
    ) -> PgWireResult<()> {
        let answer = self.answer(alloc, client, out, state, Heard::of(message));
        state.settle(answer)
    }
}

impl<A: Drop, P, G, M> SASLAuthStartupHandler<A, P, G, M> {
    /// This handler, which offers SCRAM.
    pub fn with_scram(self, scram: ScramAuth<A>) -> Self
        ensures { result ≡ record self { scram = Some scram } }
    {
        SASLAuthStartupHandler {
            scram: Some(scram),
            ..self
        }
    }
}

impl<A, P, G, M> SASLAuthStartupHandler<A, P, G, M> {
    /// This handler, which offers OAUTHBEARER.
    pub fn with_oauth(self, oauth: Oauth) -> Self
        ensures { result ≡ record self { oauth = Some oauth } }
    {
        SASLAuthStartupHandler {
            oauth: Some(oauth),
            ..self
        }
    }
}

impl<A, P, G: Drop, M> SASLAuthStartupHandler<A, P, G, M> {
    /// This handler with another generator.
    pub fn with_pid_secret_key_generator(self, generator: G) -> Self
        ensures { result ≡ record self { generator = generator } }
    {
        SASLAuthStartupHandler { generator, ..self }
    }
}

impl<A, P, G, M: Drop> SASLAuthStartupHandler<A, P, G, M> {
    /// This handler, which registers its connections. A login then may wait for the registry's turn.
    pub fn with_connection_manager<R: Wait>(
        self,
        manager: Arc<ConnectionManager>,
        rt: R,
    ) -> SASLAuthStartupHandler<A, P, G, Managed<R>>
        ensures kept { (result.parameter_provider ≡ self.parameter_provider)
            × (result.generator ≡ self.generator) × (result.scram ≡ self.scram)
            × (result.oauth ≡ self.oauth) }
        ensures manager { arc_value result.registry.manager ≡ arc_value manager }
    {
        let SASLAuthStartupHandler {
            parameter_provider,
            generator,
            registry: _,
            scram,
            oauth,
        } = self;
        SASLAuthStartupHandler {
            parameter_provider,
            generator,
            registry: Managed::new(manager, rt),
            scram,
            oauth,
        }
    }
}
