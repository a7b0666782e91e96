//! The beginning of a login.
ghost use Rattle.std.specs.Prelude.{◌≡◌, [], ◌∷◌, OnOk, OnErr, IfOk};
ghost use Rattle.pgw_login.specs.Acts.{standing_in_login, Did, Then, Sends, IsSameSource};
ghost use Rattle.pgw_login.specs.Client.{LoginClient, with_metadata};
ghost use Rattle.pgw_login.specs.Opening.{negotiation, offered_messages, saved, Negotiates, BeginsLogin, Opens};
ghost use Rattle.pgw_login.specs.declared.state.LoginState.{LoginState as TheState};

use crate::acts::send;
use crate::client_info::{ClientInfo, PgWireConnectionState};
use crate::outbox::Outbox;
use crate::state::LoginState;
use pgw_backend::backend::PgWireBackendMessage;
use pgw_startup::authentication::Authentication;
use pgw_startup::negotiate::NegotiateProtocolVersion;
use pgw_startup::startup::Startup;
use pgw_types::context::ProtocolVersion;
use pgw_types::error::{PgWireError, PgWireResult};
use pgw_types::listed::{Duplicate, Listed};
use pgw_types::memory::OutOfMemory;
use pgw_wire::params::Params;
use std::alloc::Global;

// The version for what a client asks for, and what it is told where that is another.
fn negotiation(
    alloc: Global,
    startup: &Startup,
) -> PgWireResult<(ProtocolVersion, Option<PgWireBackendMessage>)>
    ensures { result ≡ negotiation startup.now }
{
    if startup.protocol_number_major != 3 {
        return Err(PgWireError::UnsupportedProtocolVersion(
            startup.protocol_number_major,
            startup.protocol_number_minor,
        ));
    }
    match startup.protocol_number_minor {
        0 => Ok((ProtocolVersion::PROTOCOL3_0, None)),
        2 => Ok((ProtocolVersion::PROTOCOL3_2, None)),
        _ => {
            let offer = NegotiateProtocolVersion::new(
                Startup::PROTOCOL_VERSION_3_2,
                Listed::new(alloc),
            );
            Ok((
                ProtocolVersion::PROTOCOL3_2,
                Some(PgWireBackendMessage::NegotiateProtocolVersion(offer)),
            ))
        }
    }
}

// Tells what is to be told.
fn tell<O: Outbox>(out: &mut O, offer: Option<PgWireBackendMessage>) -> PgWireResult<()>
    ensures told { (client : LoginClient) (login : TheState) →
        Did O.add (O.sent out.old) (O.sent out.new) (Sends (offered_messages offer))
        (standing_in_login client login (O.faults out.old))
        (standing_in_login client login (O.faults out.new))
        result }
    ensures flushed { O.waiting out.old ≡ 0 → OnOk result (O.waiting out.new ≡ 0) }
{
    match offer {
        Some(message) => send(out, message),
        None => Ok(()),
    }
}

/// Settles the version. A client that asks for a minor version that is not known is offered 3.2
/// (NegotiateProtocolVersion); it is refused where the major version is another than 3.
pub fn protocol_negotiation<C: ClientInfo, O: Outbox>(
    alloc: Global,
    client: &mut C,
    out: &mut O,
    startup: &Startup,
) -> PgWireResult<()>
    ensures negotiated { (login : TheState) →
        Did O.add (O.sent out.old) (O.sent out.new) (Negotiates startup.now)
        (standing_in_login (C.sight client.old) login (O.faults out.old))
        (standing_in_login (C.sight client.new) login (O.faults out.new)) result }
    ensures flushed { O.waiting out.old ≡ 0 → OnOk result (O.waiting out.new ≡ 0) }
{
    let (version, offer) = negotiation(alloc, startup)?;
    tell(out, offer)?;
    client.set_protocol_version(version);
    Ok(())
}

// Parameters and further ones, of which those replace the ones of the same name.
fn saved(metadata: &Params, parameters: &Params) -> Result<Params, OutOfMemory>
    ensures { IfOk result (λ all. all ≡ saved metadata.now parameters.now) }
{
    let mut all = metadata.duplicate()?;
    for (name, value) in parameters.iter() {
        all.insert(name.duplicate()?, value.duplicate()?)?;
    }
    Ok(all)
}

/// Saves the parameters of a startup message. One replaces an earlier one of its name.
pub fn save_startup_parameters_to_metadata<C: ClientInfo>(
    client: &mut C,
    startup: &Startup,
) -> Result<(), OutOfMemory>
    ensures saved { OnOk result (C.sight client.new
        ≡ with_metadata (saved (C.sight client.old).metadata startup.now.parameters)
        (C.sight client.old)) }
    ensures refused { OnErr result (C.sight client.new ≡ C.sight client.old) }
{
    let metadata = saved(client.metadata(), &startup.parameters)?;
    client.set_metadata(metadata);
    Ok(())
}

/// What every handler does first.
pub fn begin<C: ClientInfo, O: Outbox>(
    alloc: Global,
    client: &mut C,
    out: &mut O,
    state: &mut LoginState,
    startup: &Startup,
) -> PgWireResult<()>
    ensures source { IsSameSource state.old state.new }
    ensures begun { Did O.add (O.sent out.old) (O.sent out.new) (BeginsLogin startup.now)
        (standing_in_login (C.sight client.old) state.old (O.faults out.old))
        (standing_in_login (C.sight client.new) state.new (O.faults out.new)) result }
    ensures flushed { O.waiting out.old ≡ 0 → OnOk result (O.waiting out.new ≡ 0) }
{
    state.start()?;
    protocol_negotiation(alloc, client, out, startup)?;
    save_startup_parameters_to_metadata(client, startup)?;
    Ok(())
}

/// What every handler does first that asks for something.
pub fn open_login<C: ClientInfo, O: Outbox>(
    alloc: Global,
    client: &mut C,
    out: &mut O,
    state: &mut LoginState,
    startup: &Startup,
) -> PgWireResult<()>
    ensures source { IsSameSource state.old state.new }
    ensures opened { Did O.add (O.sent out.old) (O.sent out.new) (Opens startup.now)
        (standing_in_login (C.sight client.old) state.old (O.faults out.old))
        (standing_in_login (C.sight client.new) state.new (O.faults out.new)) result }
    ensures flushed { O.waiting out.old ≡ 0 → OnOk result (O.waiting out.new ≡ 0) }
{
    begin(alloc, client, out, state, startup)?;
    client.set_state(PgWireConnectionState::AuthenticationInProgress);
    Ok(())
}

/// Begins a login and sends what is asked for.
pub fn ask<C: ClientInfo, O: Outbox>(
    alloc: Global,
    client: &mut C,
    out: &mut O,
    state: &mut LoginState,
    startup: &Startup,
    request: Authentication,
) -> PgWireResult<()>
    ensures source { IsSameSource state.old state.new }
    ensures asked { Did O.add (O.sent out.old) (O.sent out.new)
        (Then (Opens startup.now) (Sends (PgWireBackendMessage.Authentication request ∷ [])))
        (standing_in_login (C.sight client.old) state.old (O.faults out.old))
        (standing_in_login (C.sight client.new) state.new (O.faults out.new)) result }
    ensures flushed { OnOk result (O.waiting out.new ≡ 0) }
{
    open_login(alloc, client, out, state, startup)?;
    send(out, PgWireBackendMessage::Authentication(request))
}
