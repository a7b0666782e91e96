//! Whether a server is as a configuration wants it.
ghost use Rattle.std.specs.Prelude.{◌≡◌};
ghost use Rattle.pgw_prog_commands.specs.Targets.{target_fit as fit_for, fit_of as fit_behind, target_setting as told_by_row, told_in as told_in_response, told_in_rows as told_in_all, target_told as told_in_responses, wanted_of as wanted_by};
ghost use Rattle.pgw_prog_commands.specs.Fitting.{AsksPlace, FitsBy};

use pgw_backend::client_error::{PgWireClientError, PgWireClientResult};
use pgw_client_calls::PgWireClient;
use pgw_config::config::TargetSessionAttrs;
use pgw_handlers_default::DefaultSimpleQueryHandler;
use pgw_link::link::Link;
use pgw_query::data_rows::DataRows;
use pgw_session::types::Response;
use pgw_types::listed::Listed;

// What is asked.
const QUESTION: &str = "SHOW transaction_read_only";

// A row of one value, `on` or `off`.
const ON: [u8; 6] = [0, 0, 0, 2, b'o', b'n'];

const OFF: [u8; 7] = [0, 0, 0, 3, b'o', b'f', b'f'];

/// Whether a server will do.
#[derive(Clone, Copy, Debug, PartialEq, Eq)]
pub enum Fit {
    Fits,
    Unfit,
    /// Memory ran out.
    Starved,
}

/// Whether a server is to be read-only. None where any will do.
pub fn wanted_of(target: TargetSessionAttrs) -> Option<bool>
    ensures { result ≡ wanted_by target }
{
    match target {
        TargetSessionAttrs::Any => None,
        TargetSessionAttrs::ReadWrite => Some(false),
        TargetSessionAttrs::ReadOnly => Some(true),
    }
}

// What a row says.
#[tactic(auto, unfolding(crate::specs::Targets::target_setting))]
fn told_by(row: &[u8]) -> Option<bool>
    ensures { result ≡ told_by_row row.now }
{
    if row == ON.as_slice() {
        Some(true)
    } else if row == OFF.as_slice() {
        Some(false)
    } else {
        None
    }
}

fn told_in_rows(rows: &DataRows) -> Option<bool>
    ensures { result ≡ told_in_all rows.now }
{
    match rows.iter().next() {
        Some(row) => told_by(row.payload),
        None => None,
    }
}

fn told_in(response: &Response) -> Option<bool>
    ensures { result ≡ told_in_response response.now }
{
    match response {
        Response::Query(_, _, rows) => told_in_rows(rows),
        _ => None,
    }
}

fn told_of(responses: &[Response]) -> Option<bool>
    ensures { result ≡ told_in_responses responses.now }
{
    match responses.split_first() {
        Some((first, _)) => told_in(first),
        None => None,
    }
}

fn fit_by(read_only: bool, told: Option<bool>) -> Fit
    ensures { result ≡ fit_for read_only told }
{
    match told {
        Some(is) if is == read_only => Fit::Fits,
        _ => Fit::Unfit,
    }
}

// What an answer makes of a server.
fn fit_of(read_only: bool, answer: PgWireClientResult<Listed<Response>>) -> Fit
    ensures { result ≡ fit_behind read_only answer }
{
    match answer {
        Ok(responses) => fit_by(read_only, told_of(responses.as_slice())),
        Err(PgWireClientError::OutOfMemory) => Fit::Starved,
        Err(_) => Fit::Unfit,
    }
}

// Asks a server whether it is read-only.
fn ask<L: Link>(client: &mut PgWireClient<L>) -> PgWireClientResult<Listed<Response>>
    ensures { AsksPlace L.foretells L.left L.tape L.faults client.old client.new result }
{
    let handler = DefaultSimpleQueryHandler::new(client.alloc());
    client.simple_query(handler, QUESTION)
}

/// Whether a client's server will do. It is asked where not any will.
pub fn look_at<L: Link>(wanted: Option<bool>, client: &mut PgWireClient<L>) -> Fit
    ensures { FitsBy L.foretells L.left L.tape L.faults wanted client.old client.new result }
{
    match wanted {
        Some(read_only) => fit_of(read_only, ask(client)),
        None => Fit::Fits,
    }
}
