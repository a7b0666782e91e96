//! The session with the server that a connection text names.
ghost use Rattle.std.specs.Prelude.{◌≢◌, ◌≤◌, IfOk, OnOk, IsErrOf};
ghost use Rattle.pgw_backend.specs.declared.client_error.PgWireClientError.TheVariants as client;
ghost use Rattle.pgw_prog.specs.declared.command.Command.TheVariants as kind;
ghost use Rattle.pgw_prog.specs.Connected.{input_for, dial_span, PrintsConnection, LeavesDialer, LeavesFor, PrintsAtAddress, IsDialOutcome};
ghost use Rattle.pgw_prog.specs.Held.{Says, exit_status as status_for};
ghost use Rattle.pgw_prog_sessions.specs.SessionText.{error_line, result_text};
ghost use Rattle.pgw_config.specs.Address.{address_of};

use crate::command::Connection;
use crate::held::status_of;
use crate::printed::Printed;
use crate::told::{told_of_outcome, told_of_refusal};
use pgw_backend::client_error::{PgWireClientError, PgWireClientResult};
use pgw_client::session::run_session;
use pgw_config::config::Config;
use pgw_link::dialer::{DialError, Dialer};
use pgw_prog_sessions::session_text::put_result;
use pgw_session::types::SessionReport;
use pgw_types::address::Address;
use pgw_types::memory::OutOfMemory;
use std::alloc::Global;
use std::mem::forget;

// Holds the session over a link to the address, and closes the link.
fn talk<D: Dialer>(
    alloc: Global,
    asked: &Connection,
    config: &Config,
    address: &Address,
    dialer: &mut D,
    nonce: &[u8; 18],
) -> PgWireClientResult<SessionReport>
    ensures later { D.faults dialer.old ≤ D.faults dialer.new }
    ensures talked { IsDialOutcome (input_for asked.now nonce.now config.now) asked.now.limit
        address.now
        (dial_span D.tape D.foretells D.offers D.faults dialer.old dialer.new) result }
{
    let mut link = match dialer.dial(address) {
        Ok(link) => link,
        Err(DialError::Fault) => return Err(PgWireClientError::IoError),
        Err(DialError::OutOfMemory) => return Err(PgWireClientError::OutOfMemory),
    };
    let requests = asked.requests.as_slice();
    let outcome = run_session(alloc, &mut link, config, requests, nonce, asked.limit);
    dialer.close(link);
    outcome
}

// Prints a session's report or its error. Want of memory is no answer to be printed.
fn print_outcome(
    alloc: Global,
    outcome: &PgWireClientResult<SessionReport>,
    told: String,
) -> Result<Printed, OutOfMemory>
    ensures says { IfOk result (λ p. Says p (result_text outcome.now) (status_for outcome.now)) }
    ensures memory { OnOk result (IsErrOf outcome.now client.OutOfMemory → ⊥) }
{
    let status = status_of(outcome)?;
    let mut text = Vec::new(alloc);
    put_result(&mut text, outcome)?;
    Ok(Printed { text, status, told })
}

// Prints an outcome that is used up. The program ends with it: what a report keeps is left to the system, which
// takes it back at once, and not let go of piece by piece.
fn print_result(
    alloc: Global,
    outcome: PgWireClientResult<SessionReport>,
) -> Result<Printed, OutOfMemory>
    ensures says { IfOk result (λ p. Says p (result_text outcome) (status_for outcome)) }
    ensures memory { OnOk result (IsErrOf outcome client.OutOfMemory → ⊥) }
{
    let told = told_of_outcome(alloc, &outcome);
    let printed = print_outcome(alloc, &outcome, told);
    forget(outcome);
    printed
}

// Prints why a connection text is refused. Want of memory is no refusal to be printed.
fn print_refusal(
    alloc: Global,
    text: &str,
    error: PgWireClientError,
) -> Result<Printed, OutOfMemory>
    ensures says { IfOk result (λ p. Says p (error_line error) 1) }
    ensures memory { OnOk result (error ≢ client.OutOfMemory) }
{
    let told = told_of_refusal(alloc, text, &error);
    let outcome = Err(error);
    let printed = print_outcome(alloc, &outcome, told);
    drop(outcome);
    printed
}

// Holds the session at the address of a configuration and prints it, or prints that there is no address.
fn connect_with<D: Dialer>(
    alloc: Global,
    asked: &Connection,
    config: &Config,
    dialer: &mut D,
    nonce: &[u8; 18],
) -> Result<Printed, OutOfMemory>
    ensures later { D.faults dialer.old ≤ D.faults dialer.new }
    ensures leaves { LeavesFor nonce.now asked.now config.now
        (dial_span D.tape D.foretells D.offers D.faults dialer.old dialer.new) }
    ensures prints { IfOk result (PrintsAtAddress nonce.now
        (dial_span D.tape D.foretells D.offers D.faults dialer.old dialer.new)
        asked.now config.now (address_of config.now)) }
{
    match config.address(alloc) {
        Ok(address) => {
            let outcome = talk(alloc, asked, config, &address, dialer, nonce);
            print_result(alloc, outcome)
        }
        Err(error) => print_result(alloc, Err(PgWireClientError::from(error))),
    }
}

/// Holds the session with the server that a connection text names and prints it, or prints why the text is refused.
pub fn connect<D: Dialer>(
    alloc: Global,
    asked: &Connection,
    dialer: &mut D,
    nonce: &[u8; 18],
) -> Result<Printed, OutOfMemory>
    ensures later { D.faults dialer.old ≤ D.faults dialer.new }
    ensures leaves { LeavesDialer nonce.now (kind.Connect asked.now)
        (dial_span D.tape D.foretells D.offers D.faults dialer.old dialer.new) }
    ensures prints { IfOk result (PrintsConnection nonce.now
        (dial_span D.tape D.foretells D.offers D.faults dialer.old dialer.new) asked.now) }
{
    match Config::parse(alloc, asked.text.as_str()) {
        Ok(config) => {
            let printed = connect_with(alloc, asked, &config, dialer, nonce);
            drop(config);
            printed
        }
        Err(error) => {
            let error = PgWireClientError::from(error);
            print_refusal(alloc, asked.text.as_str(), error)
        }
    }
}
