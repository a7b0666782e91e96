//! Both ends of a login, over a schedule.
ghost use Rattle.std.specs.Prelude.{◌≡◌, ◌≤◌, None, IfOk, OnOk};
ghost use Rattle.atomic_table.specs.Seated.{TableId};
ghost use Rattle.pgw_registry.specs.Generator.{unused};
ghost use Rattle.pgw_login.specs.declared.state.LoginState.{LoginState as TheState};
ghost use Rattle.pgw_login_pair.specs.declared.parties.PairInput.{PairInput as TheInput};
ghost use Rattle.pgw_login_pair.specs.Parties.{TwoParty};
ghost use Rattle.pgw_login_pair.specs.Server.{Means};
ghost use Rattle.pgw_login_pair.specs.Sides.{AreActs, AreIn, IsGoing, StaysFrom};
ghost use Rattle.pgw_login_pair.specs.Sound.{IsSoundInput};
ghost use Rattle.pgw_login_pair.specs.World.{World, Happens, Runs, client_config, first_world};

use crate::client_side::{ClientSide, client_config};
use crate::parties::{PairInput, PairOutcome};
use crate::server_side::{ServerSide, scram_for};
use crate::sound::is_sound;
use bytes::BytesMut;
use pgw_config::config::Config;
use pgw_login::handler::StartupHandler;
use pgw_login::provider::DefaultServerParameterProvider;
use pgw_login_sasl::handler::SASLAuthStartupHandler;
use pgw_machine::event::Event;
use pgw_registry::generator::{PidSeat, RandomPidSecretKeyGenerator};
use pgw_types::memory::OutOfMemory;
use pgw_types::octets::Octets;
use std::alloc::Global;

// One event.
fn happen<H: StartupHandler>(
    alloc: Global,
    client: &mut ClientSide<'_>,
    server: &mut ServerSide<H>,
    event: Event,
) -> Result<(), OutOfMemory>
    requires fits { H.fits server.old.core.handler server.old.core.login }
    requires going { IsGoing client.old.dialogue client.old.phase }
    ensures fits { H.fits server.new.core.handler server.new.core.login }
    ensures kept { server.new.core.handler ≡ server.old.core.handler }
    ensures going { OnOk result (IsGoing client.new.dialogue client.new.phase) }
    ensures from { StaysFrom (H.means server.old.core.handler) server.old.core server.new.core }
    ensures happens { (generator : TableId) (input : TheInput) (w : World)
        → AreActs (H.means server.old.core.handler) (Means input)
        → AreIn generator input client.old server.old w
        → OnOk result ((there : World) × Happens input w event there
        × AreIn generator input client.new server.new there) }
{
    match event {
        Event::ToServer(count) => server.take(alloc, client.out.as_slice(), count),
        Event::ToClient(count) => client.take(server.out.as_slice(), count),
    }
}

// All events of a schedule, in order.
fn run<H: StartupHandler>(
    alloc: Global,
    client: &mut ClientSide<'_>,
    server: &mut ServerSide<H>,
    schedule: &[Event],
) -> Result<(), OutOfMemory>
    requires fits { H.fits server.old.core.handler server.old.core.login }
    requires going { IsGoing client.old.dialogue client.old.phase }
    ensures going { OnOk result (IsGoing client.new.dialogue client.new.phase) }
    ensures from { StaysFrom (H.means server.old.core.handler) server.old.core server.new.core }
    ensures runs { (generator : TableId) (input : TheInput) (w : World)
        → AreActs (H.means server.old.core.handler) (Means input)
        → AreIn generator input client.old server.old w
        → OnOk result ((there : World) × Runs input schedule.now w there
        × AreIn generator input client.new server.new there) }
{
    for event in schedule {
        happen(alloc, client, server, *event)?;
    }
    Ok(())
}

// The bytes that both wrote.
fn written(to_server: BytesMut, to_client: BytesMut) -> Result<(Octets, Octets), OutOfMemory>
    ensures { IfOk result (λ r. (r.0 ≡ to_server.items) × (r.1 ≡ to_client.items)) }
{
    let to_server = to_server.freeze()?;
    let to_client = to_client.freeze()?;
    Ok((Octets::from_bytes(to_server), Octets::from_bytes(to_client)))
}

// Where both are, and what they wrote.
fn end<H: StartupHandler + Drop>(
    client: ClientSide<'_>,
    server: ServerSide<H>,
) -> Result<PairOutcome, OutOfMemory>
    requires going { IsGoing client.dialogue client.phase }
    requires nowhere { server.core.login.registered ≡ None }
    ensures ended { (generator : TableId) (input : TheInput) (w : World) → IsSoundInput input
        → Runs input input.schedule (first_world generator input) w
        → AreIn generator input client.entry server w
        → IfOk result (TwoParty input) }
{
    let taken_by_client = client.taken as u64;
    let taken_by_server = server.taken as u64;
    let (client, to_server) = client.end();
    let (server, to_client) = server.end();
    match written(to_server, to_client) {
        Ok((to_server, to_client)) => {
            // Tells the proof how many they may be.
            let _ = to_client.len();
            Ok(PairOutcome {
                client,
                server,
                to_server,
                to_client,
                taken_by_server,
                taken_by_client,
            })
        }
        Err(e) => {
            drop(client);
            drop(server);
            Err(e)
        }
    }
}

// Both over the schedule, the server with this handler.
fn lead<H: StartupHandler + Drop>(
    alloc: Global,
    input: &PairInput,
    config: &Config,
    handler: H,
    seat: PidSeat,
) -> Result<PairOutcome, OutOfMemory>
    requires fits { (state : TheState) → state.seat ≡ seat → state.pass ≡ None
        → state.registered ≡ None → H.fits handler state }
    requires means { AreActs (H.means handler) (Means input.now) }
    requires config { config.now ≡ client_config input.now }
    requires seat { (generator : TableId) × (seat ≡ unused generator 100000) }
    requires sound { IsSoundInput input.now }
    ensures { IfOk result (TwoParty input.now) }
{
    let mut client = ClientSide::begin(alloc, config, &input.client_nonce)?;
    let mut server = ServerSide::begin(alloc, input, handler, seat);
    match run(alloc, &mut client, &mut server, input.schedule.as_slice()) {
        Ok(()) => end(client, server),
        Err(e) => {
            drop(client);
            server.let_go();
            Err(e)
        }
    }
}

/// Runs both ends of a login over the schedule of the input.
pub fn two_party(alloc: Global, input: &PairInput) -> Result<PairOutcome, OutOfMemory>
    requires { 1 ≤ input.now.count }
    ensures { IfOk result (λ o. TwoParty input.now o) }
{
    prove!(is_sound(input));
    let config = client_config(alloc, input)?;
    let scram = scram_for(alloc, input)?;
    let provider = DefaultServerParameterProvider::new(alloc)?;
    let (generator, seat) = RandomPidSecretKeyGenerator::new(alloc)?;
    let handler = SASLAuthStartupHandler::new(provider, generator).with_scram(scram);
    lead(alloc, input, &config, handler, seat)
}
