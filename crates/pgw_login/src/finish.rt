//! The end of a login.
ghost use Rattle.std.specs.Prelude.{◌≡◌, ℕ, [], ◌++◌, map, Option, OnOk, IfOk};
ghost use Rattle.std.specs.FinMap as finite;
ghost use Rattle.pgw_wire.specs.Pairs.{Held};
ghost use Rattle.pgw_login.specs.Acts.{standing_in_login, Did, IsReleasable};
ghost use Rattle.pgw_login.specs.Finish.{Draws, AcceptsLogin, Enrolls, Introduces, Readies, login_ready, FinishesAuthentication, Finishes, introduction, status_message, pid_refusal};
ghost use Rattle.pgw_login.specs.declared.state.LoginState.{LoginState as TheState};

use crate::acts::{feed_all, send};
use crate::client_info::{ClientInfo, PgWireConnectionState};
use crate::outbox::Outbox;
use crate::provider::ServerParameterProvider;
use crate::registers::Registers;
use crate::state::{LoginState, SASLState};
use pgw_backend::backend::PgWireBackendMessage;
use pgw_query::response::{ReadyForQuery, TransactionStatus};
use pgw_registry::error::{PidError, RegistryError};
use pgw_registry::generator::PidSecretKeyGenerator;
use pgw_startup::authentication::Authentication;
use pgw_startup::backend_key_data::BackendKeyData;
use pgw_startup::parameter_status::ParameterStatus;
use pgw_types::error::{PgWireError, PgWireResult};
use pgw_types::listed::Duplicate;
use pgw_types::memory::OutOfMemory;
use pgw_wire::params::Params;
use std::alloc::Global;
use std::mem::replace;

fn pid_refusal(why: PidError) -> PgWireError
    ensures { result ≡ pid_refusal why }
{
    match why {
        PidError::PidsExhausted => PgWireError::PidsExhausted,
        PidError::OutOfMemory => PgWireError::OutOfMemory,
    }
}

/// Draws a process number and a key, and sets them in the client.
pub fn draw<C: ClientInfo, G: PidSecretKeyGenerator>(
    client: &mut C,
    state: &mut LoginState,
    generator: &G,
) -> PgWireResult<()>
    requires { G.fits generator.now state.old.seat }
    ensures fits { G.fits generator.now state.new.seat }
    ensures pass { (state.new.pass ≡ state.old.pass)
        × (state.new.registered ≡ state.old.registered) }
    ensures drawn { (faults : ℕ) → Draws (standing_in_login (C.sight client.old) state.old faults)
        (standing_in_login (C.sight client.new) state.new faults) [] result }
{
    let version = client.protocol_version();
    match generator.generate(&mut state.seat, version, &state.words) {
        Ok((pid, key)) => {
            client.set_pid_and_secret_key(pid, key);
            Ok(())
        }
        Err(why) => Err(pid_refusal(why)),
    }
}

/// Registers the client's process number and key.
pub fn enroll<C: ClientInfo, M: Registers>(
    alloc: Global,
    client: &C,
    state: &mut LoginState,
    registry: &M,
) -> PgWireResult<()>
    requires { M.fits registry.now state.old.pass }
    ensures fits { M.fits registry.now state.new.pass }
    ensures seat { state.new.seat ≡ state.old.seat }
    ensures releasable { IsReleasable state.old → IsReleasable state.new }
    ensures enrolled { (faults : ℕ) → Enrolls (M.registers registry.now)
        (standing_in_login (C.sight client.now) state.old faults)
        (standing_in_login (C.sight client.now) state.new faults) [] result }
{
    if state.registered.is_some() {
        return Ok(());
    }
    let (pid, key) = client.pid_and_secret_key();
    match registry.register(alloc, &mut state.pass, pid, key) {
        Ok(pair) => {
            match replace(&mut state.registered, pair) {
                None => Ok(()),
                Some(_registered) => unreachable!(),
            }
        }
        Err(RegistryError::Gone) => unreachable!(),
        Err(RegistryError::Exhausted) => Err(PgWireError::RegistryExhausted),
        Err(RegistryError::OutOfMemory) => Err(PgWireError::OutOfMemory),
    }
}

/// Draws a process number and a key, sets them in the client, and registers them.
pub fn accept<C: ClientInfo, G: PidSecretKeyGenerator, M: Registers>(
    alloc: Global,
    client: &mut C,
    state: &mut LoginState,
    generator: &G,
    registry: &M,
) -> PgWireResult<()>
    requires { G.fits generator.now state.old.seat × M.fits registry.now state.old.pass }
    ensures fits { G.fits generator.now state.new.seat × M.fits registry.now state.new.pass }
    ensures releasable { IsReleasable state.old → IsReleasable state.new }
    ensures accepted { (faults : ℕ) → AcceptsLogin (M.registers registry.now)
        (standing_in_login (C.sight client.old) state.old faults)
        (standing_in_login (C.sight client.new) state.new faults) [] result }
{
    draw(client, state, generator)?;
    enroll(alloc, client, state, registry)
}

// Appends what the client is told of each parameter.
fn push_statuses(
    messages: &mut Vec<PgWireBackendMessage>,
    parameters: &Params,
) -> Result<(), OutOfMemory>
    ensures { OnOk result (messages.new.items ≡ messages.old.items
        ++ map status_message (finite.entries parameters.now)) }
{
    for (name, value) in parameters.iter() {
        let status = ParameterStatus::new(name.duplicate()?, value.duplicate()?);
        messages.push(PgWireBackendMessage::ParameterStatus(status))?;
    }
    Ok(())
}

// That the login is accepted, the parameters, and the number and key.
fn introduction<C: ClientInfo, P: ServerParameterProvider>(
    alloc: Global,
    client: &C,
    provider: &P,
) -> Result<Vec<PgWireBackendMessage>, OutOfMemory>
    ensures { IfOk result (λ messages. (parameters : Option Held)
        × P.provides provider.now (C.sight client.now) parameters
        × (messages.items ≡ introduction (C.sight client.now) parameters)) }
{
    let mut messages = Vec::new(alloc);
    messages.push(PgWireBackendMessage::Authentication(Authentication::Ok))?;
    if let Some(parameters) = provider.server_parameters(alloc, client)? {
        push_statuses(&mut messages, &parameters)?;
    }
    let (pid, key) = client.pid_and_secret_key();
    let data = BackendKeyData::new(pid, key.duplicate()?);
    messages.push(PgWireBackendMessage::BackendKeyData(data))?;
    Ok(messages)
}

/// Tells the client that it is accepted, the parameters, and its number and key.
pub fn introduce<C: ClientInfo, O: Outbox, P: ServerParameterProvider>(
    alloc: Global,
    client: &C,
    out: &mut O,
    provider: &P,
) -> PgWireResult<()>
    ensures { (login : TheState) → Did O.add (O.sent out.old) (O.sent out.new)
        (Introduces (P.provides provider.now))
        (standing_in_login (C.sight client.now) login (O.faults out.old))
        (standing_in_login (C.sight client.now) login (O.faults out.new)) result }
{
    let messages = introduction(alloc, client, provider)?;
    feed_all(out, messages)
}

/// Tells the client that it may ask.
pub fn ready<C: ClientInfo, O: Outbox>(client: &mut C, out: &mut O) -> PgWireResult<()>
    ensures readied { (login : TheState) → Did O.add (O.sent out.old) (O.sent out.new)
        (Readies login_ready) (standing_in_login (C.sight client.old) login (O.faults out.old))
        (standing_in_login (C.sight client.new) login (O.faults out.new)) result }
    ensures flushed { OnOk result (O.waiting out.new ≡ 0) }
{
    let ready = ReadyForQuery {
        status: TransactionStatus::Idle,
    };
    send(out, PgWireBackendMessage::ReadyForQuery(ready))?;
    client.set_state(PgWireConnectionState::ReadyForQuery);
    Ok(())
}

/// The end of a login from AuthenticationOk on: the parameters in the order of their names, the
/// client's process number and key, and ReadyForQuery.
pub fn finish_authentication<C: ClientInfo, O: Outbox, P: ServerParameterProvider>(
    alloc: Global,
    client: &mut C,
    out: &mut O,
    provider: &P,
) -> PgWireResult<()>
    ensures finished { (login : TheState) → Did O.add (O.sent out.old) (O.sent out.new)
        (FinishesAuthentication (P.provides provider.now))
        (standing_in_login (C.sight client.old) login (O.faults out.old))
        (standing_in_login (C.sight client.new) login (O.faults out.new)) result }
    ensures flushed { OnOk result (O.waiting out.new ≡ 0) }
{
    introduce(alloc, client, out, provider)?;
    ready(client, out)
}

/// The whole end of a login that is accepted.
pub fn finish<C, O, P, G, M>(
    alloc: Global,
    client: &mut C,
    out: &mut O,
    state: &mut LoginState,
    provider: &P,
    generator: &G,
    registry: &M,
) -> PgWireResult<()>
where
    C: ClientInfo,
    O: Outbox,
    P: ServerParameterProvider,
    G: PidSecretKeyGenerator,
    M: Registers,
    requires { G.fits generator.now state.old.seat × M.fits registry.now state.old.pass }
    ensures fits { G.fits generator.now state.new.seat × M.fits registry.now state.new.pass }
    ensures releasable { IsReleasable state.old → IsReleasable state.new }
    ensures finished { Did O.add (O.sent out.old) (O.sent out.new)
        (Finishes (P.provides provider.now) (M.registers registry.now))
        (standing_in_login (C.sight client.old) state.old (O.faults out.old))
        (standing_in_login (C.sight client.new) state.new (O.faults out.new)) result }
    ensures flushed { OnOk result (O.waiting out.new ≡ 0) }
{
    accept(alloc, client, state, generator, registry)?;
    finish_authentication(alloc, client, out, provider)?;
    state.sasl = SASLState::Finished;
    Ok(())
}
