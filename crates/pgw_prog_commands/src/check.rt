//! The session of the command `check`.
ghost use Rattle.std.specs.Prelude.{◌≡◌, IfOk};
ghost use Rattle.pgw_prog_commands.specs.Places.{DialsInTurn, IsClosed};
ghost use Rattle.pgw_prog_commands.specs.Telling.{telling};
ghost use Rattle.pgw_prog_commands.specs.Check.{IsCheckRun, PrintsText, TellsCheckReport, named_database, named_user, unchecked_status as status_lacking};

use crate::notes::{Clock, LoginNotes};
use crate::places::{NoSession, Place, connect_first};
use crate::report::{CheckReport, put_report};
use pgw_client_calls::{ClientInfo, PgWireClient};
use pgw_config::config::Config;
use pgw_link::dialer::Dialer;
use pgw_link::link::Link;
use pgw_link::stream::Sink;
use pgw_prog_output::written::write_whole;
use pgw_types::memory::OutOfMemory;
use std::alloc::Global;
use std::time::Duration;

fn status_without(why: NoSession) -> u8
    ensures { result ≡ status_lacking why }
{
    match why {
        NoSession::Refused => 1,
        NoSession::Memory => 4,
    }
}

// How many milliseconds lie between two times.
fn between(from: Duration, to: Duration) -> u64 {
    u64::try_from(to.saturating_sub(from).as_millis()).unwrap_or(u64::MAX)
}

// How many milliseconds the connection took, and the login over it.
#[derive(Clone, Copy)]
struct Spans {
    dial: u64,
    login: u64,
}

fn spans_of(began: Duration, notes: &LoginNotes, ended: Duration) -> Spans {
    let there = notes.began.unwrap_or(began);
    Spans {
        dial: between(began, there),
        login: between(there, ended),
    }
}

// The user that a configuration names.
fn user_of(config: &Config) -> &str
    ensures { result.now ≡ named_user config.now }
{
    config.get_user().unwrap_or("")
}

// The database that it names, else that of the user's name.
fn database_of(config: &Config) -> &str
    ensures { result.now ≡ named_database config.now }
{
    match config.get_dbname() {
        Some(name) => name,
        None => user_of(config),
    }
}

// The text of a client's report.
fn told<L: Link>(
    alloc: Global,
    client: &PgWireClient<L>,
    notes: &LoginNotes,
    spans: Spans,
) -> Result<Vec<u8>, OutOfMemory>
    ensures { IfOk result (λ text. TellsCheckReport notes.now client.now text.items) }
{
    let config = client.config();
    let Ok(server) = config.address(alloc) else {
        return Err(OutOfMemory);
    };
    let report = CheckReport {
        server: &server,
        login: notes.kind,
        proved: notes.proved,
        version: client.protocol_version(),
        user: user_of(config),
        database: database_of(config),
        process_id: client.process_id(),
        parameters: client.server_parameters(),
        dial_took: spans.dial,
        login_took: spans.login,
    };
    let mut out = Vec::new(alloc);
    put_report(alloc, &mut out, &report)?;
    Ok(out)
}

// Takes leave of the server, and has the link closed.
fn hang_up<D: Dialer>(client: PgWireClient<D::Link>, dialer: &mut D)
    ensures { IsClosed (telling D.foretells D.offers D.tape D.faults
        D.Link.foretells D.Link.left D.Link.tape D.Link.faults) client dialer.old dialer.new }
{
    let _ = client.close(dialer);
}

// Prints a text, and says with which status to end.
fn print<O: Sink>(text: &[u8], output: &mut O) -> u8
    ensures { PrintsText text.now (O.tape output.old).wrote (O.tape output.new).wrote
        (O.faults output.old) (O.faults output.new) result }
{
    match write_whole(output, text) {
        Ok(()) => 0,
        Err(_) => 3,
    }
}

/// Logs in at the first place that lets a client in, closes the link, prints the report of the login, and says with
/// which status to end: 0 it did, 1 there is no connection, or the login failed, 3 standard output failed, 4 memory ran
/// out.
///
/// The report tells what the notes hold of the login, and the clock's times. Why there is none is said on `errors`.
pub fn run_check<D: Dialer, O: Sink, E: Sink, T: Clock>(
    alloc: Global,
    places: &[Place],
    notes: &mut LoginNotes,
    clock: &mut T,
    output: &mut O,
    errors: &mut E,
    dialer: &mut D,
) -> u8
    ensures dials { DialsInTurn places.now (D.tape dialer.old) (D.tape dialer.new) }
    ensures checked { IsCheckRun (telling D.foretells D.offers D.tape D.faults
        D.Link.foretells D.Link.left D.Link.tape D.Link.faults)
        places.now notes.new dialer.old dialer.new
        (O.tape output.old).wrote (O.tape output.new).wrote
        (O.faults output.old) (O.faults output.new) result }
{
    let began = clock.now();
    match connect_first(alloc, places, dialer, errors, clock, notes) {
        Ok(client) => {
            let spans = spans_of(began, notes, clock.now());
            let told = told(alloc, &client, notes, spans);
            hang_up(client, dialer);
            match told {
                Ok(text) => print(text.as_slice(), output),
                Err(_) => 4,
            }
        }
        Err(why) => status_without(why),
    }
}
