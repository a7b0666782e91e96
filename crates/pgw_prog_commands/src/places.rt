//! Connecting to the first of some places that lets a client in.
ghost use Rattle.std.specs.Prelude.{◌≡◌};
ghost use Rattle.pgw_prog_commands.specs.Places.{DialsInTurn, IsClosed, KeepsAtPlace, LogsInAtPlace, Tries, TriesAll, no_session_of as ends};
ghost use Rattle.pgw_prog_commands.specs.Telling.{telling};

use crate::noted::NotedStartupHandler;
use crate::notes::{Clock, LoginNotes};
use crate::targets::{Fit, look_at, wanted_of};
use pgw_backend::client_error::{PgWireClientError, PgWireClientResult};
use pgw_client_calls::PgWireClient;
use pgw_config::config::Config;
use pgw_handlers_default::DefaultStartupHandler;
use pgw_link::dialer::Dialer;
use pgw_link::stream::Sink;
use pgw_prog_output::faults::told_of_error;
use pgw_prog_output::written::write_whole;
use pgw_types::listed::Duplicate;
use std::alloc::Global;

// What people are told of a server that will not do.
const UNFIT: &str = "a server was passed over: it is not as target_session_attrs wants\n";

/// A place to connect to, and the nonce of a login there.
#[derive(Drop)]
pub struct Place {
    pub config: Config,
    pub nonce: [u8; 18],
}

/// Why there is no session.
#[derive(Clone, Copy, Debug, PartialEq, Eq)]
pub enum NoSession {
    Refused,
    Memory,
}

// Logs in at a place.
fn log_in<D: Dialer, T: Clock>(
    alloc: Global,
    place: &Place,
    dialer: &mut D,
    clock: &mut T,
    notes: &mut LoginNotes,
) -> PgWireClientResult<PgWireClient<D::Link>>
    ensures { LogsInAtPlace (telling D.foretells D.offers D.tape D.faults
        D.Link.foretells D.Link.left D.Link.tape D.Link.faults)
        place.now dialer.old dialer.new result }
{
    let config = match place.config.duplicate() {
        Ok(config) => config,
        Err(_) => return Err(PgWireClientError::OutOfMemory),
    };
    let handler = DefaultStartupHandler::new(place.nonce);
    let noted = NotedStartupHandler::new(handler, notes, clock);
    PgWireClient::connect(alloc, config, noted, dialer, u64::MAX)
}

// Why no more places are tried behind an error.
fn ended_by(error: &PgWireClientError) -> Option<NoSession>
    ensures { result ≡ ends error.now }
{
    match error {
        PgWireClientError::OutOfMemory => Some(NoSession::Memory),
        PgWireClientError::IoError | PgWireClientError::UnexpectedEOF => None,
        _ => Some(NoSession::Refused),
    }
}

// Tells people of an error.
fn tell<E: Sink>(alloc: Global, error: &PgWireClientError, errors: &mut E) {
    let told = told_of_error(alloc, error);
    let _ = write_whole(errors, told.as_bytes());
}

// Takes leave of a server, and has the link closed.
fn close<D: Dialer>(client: PgWireClient<D::Link>, dialer: &mut D)
    ensures { IsClosed (telling D.foretells D.offers D.tape D.faults
        D.Link.foretells D.Link.left D.Link.tape D.Link.faults)
        client dialer.old dialer.new }
{
    let _ = client.close(dialer);
}

// Keeps a client whose server will do, and closes any other.
fn keep<D: Dialer, E: Sink>(
    wanted: Option<bool>,
    mut client: PgWireClient<D::Link>,
    dialer: &mut D,
    errors: &mut E,
) -> Result<PgWireClient<D::Link>, Option<NoSession>>
    ensures { KeepsAtPlace (telling D.foretells D.offers D.tape D.faults
        D.Link.foretells D.Link.left D.Link.tape D.Link.faults)
        wanted client dialer.old dialer.new result }
{
    match look_at(wanted, &mut client) {
        Fit::Fits => Ok(client),
        Fit::Unfit => {
            let _ = write_whole(errors, UNFIT.as_bytes());
            close(client, dialer);
            Err(None)
        }
        Fit::Starved => {
            close(client, dialer);
            Err(Some(NoSession::Memory))
        }
    }
}

// Logs in at a place, or says why no more are tried, if so.
fn try_place<D: Dialer, E: Sink, T: Clock>(
    alloc: Global,
    place: &Place,
    dialer: &mut D,
    errors: &mut E,
    clock: &mut T,
    notes: &mut LoginNotes,
) -> Result<PgWireClient<D::Link>, Option<NoSession>>
    ensures { Tries (telling D.foretells D.offers D.tape D.faults
        D.Link.foretells D.Link.left D.Link.tape D.Link.faults)
        place.now dialer.old dialer.new result }
{
    match log_in(alloc, place, dialer, clock, notes) {
        Ok(client) => {
            let wanted = wanted_of(place.config.get_target_session_attrs());
            keep(wanted, client, dialer, errors)
        }
        Err(error) => {
            tell(alloc, &error, errors);
            let ended = ended_by(&error);
            drop(error);
            Err(ended)
        }
    }
}

// Tries places in turn.
fn try_all<D: Dialer, E: Sink, T: Clock>(
    alloc: Global,
    places: &[Place],
    dialer: &mut D,
    errors: &mut E,
    clock: &mut T,
    notes: &mut LoginNotes,
) -> Result<PgWireClient<D::Link>, NoSession>
    ensures { TriesAll (telling D.foretells D.offers D.tape D.faults
        D.Link.foretells D.Link.left D.Link.tape D.Link.faults)
        places.now dialer.old dialer.new result }
{
    for place in places {
        match try_place(alloc, place, dialer, errors, clock, notes) {
            Ok(client) => return Ok(client),
            Err(Some(why)) => return Err(why),
            Err(None) => {}
        }
    }
    Err(NoSession::Refused)
}

/// Connects to the first place that lets a client in. The next one is tried where no link was made, or it failed, or the
/// server is not as `target_session_attrs` of its configuration wants, which it is asked by a query.
///
/// The notes tell of the last login that began what `NotedStartupHandler` noted, which no clause says.
#[tactic(auto, using(crate::proofs::TurnLaws::all_in_turn))]
pub fn connect_first<D: Dialer, E: Sink, T: Clock>(
    alloc: Global,
    places: &[Place],
    dialer: &mut D,
    errors: &mut E,
    clock: &mut T,
    notes: &mut LoginNotes,
) -> Result<PgWireClient<D::Link>, NoSession>
    // which place let the client in, what became of each before it, and that its link is closed
    ensures tries { TriesAll (telling D.foretells D.offers D.tape D.faults
        D.Link.foretells D.Link.left D.Link.tape D.Link.faults)
        places.now dialer.old dialer.new result }
    ensures dials { DialsInTurn places.now (D.tape dialer.old) (D.tape dialer.new) }
{
    try_all(alloc, places, dialer, errors, clock, notes)
}
