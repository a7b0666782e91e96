//! What a session is made for.
ghost use Rattle.std.specs.Prelude.{◌≡◌, ◌<◌, ◌↔◌, [], IfOk, IsTrue, None, Some};
ghost use Rattle.pgw_wire.specs.Reading.{name_of};
ghost use Rattle.pgw_session.specs.declared.types.Request.TheVariants as request;
ghost use Rattle.hothummei_c.specs.Asks.{AddsParameter, AddsRequest, AsksRows, numbered_target};
ghost use Rattle.hothummei_c.specs.Session.{HandleAsks, AsksWith, AsksWithin, ConnectsInC, RefusesText, UnreadOne};
ghost use Rattle.hothummei_c.specs.declared.session.Phase.TheVariants as phase;

use crate::codes::{NOT_UTF8, OK, OUT_OF_MEMORY, OUT_OF_PLACE, OUT_OF_RANGE};
use crate::session::{Phase, Session};
use pgw_backend::client_error::PgWireClientError;
use pgw_config::config::Config;
use pgw_session::types::{Request, Target};
use pgw_types::listed::Listed;
use pgw_types::memory::OutOfMemory;
use pgw_types::octets::Octets;
use pgw_types::text::Text;
use std::alloc::Global;
use std::mem::replace;

/// Reads the connection text, and takes the nonce.
pub fn connection(session: &mut Session, text: &[u8], nonce: &[u8; 18]) -> u32
    ensures { ConnectsInC session.old session.new text.now nonce.now result }
{
    match session.phase {
        Phase::New => {}
        _ => return OUT_OF_PLACE,
    }
    let Ok(text) = str::from_utf8(text) else {
        return NOT_UTF8;
    };
    match Config::parse(session.alloc, text) {
        Ok(config) => {
            session.config = config;
            session.nonce = *nonce;
            session.phase = Phase::Asking;
            OK
        }
        Err(e) => session.fail(PgWireClientError::from(e)),
    }
}

// Adds a request, if it could be made.
fn add(session: &mut Session, request: Result<Request, OutOfMemory>) -> u32
    ensures { AddsRequest session.old session.new request result }
{
    let Ok(request) = request else {
        return OUT_OF_MEMORY;
    };
    match session.requests.push(request) {
        Ok(()) => OK,
        Err(_) => OUT_OF_MEMORY,
    }
}

// Whether requests may be added.
fn is_asking(session: &Session) -> bool
    ensures { IsTrue result ↔ (session.now.phase ≡ phase.Asking) }
{
    match session.phase {
        Phase::Asking => true,
        _ => false,
    }
}

// A name, or none where the text is empty.
fn named(alloc: Global, name: &str) -> Result<Option<Text>, OutOfMemory>
    ensures { IfOk result (λ o. o ≡ name_of name.now) }
{
    if name.is_empty() {
        return Ok(None);
    }
    Ok(Some(Text::from_str(alloc, name)?))
}

/// A simple query.
pub fn simple(session: &mut Session, sql: &[u8]) -> u32
    ensures { HandleAsks session.old session.new (RefusesText sql.now) (request.Simple sql.now)
        result }
{
    let Ok(sql) = str::from_utf8(sql) else {
        return NOT_UTF8;
    };
    if !is_asking(session) {
        return OUT_OF_PLACE;
    }
    let request = Request::simple(session.alloc, sql);
    add(session, request)
}

/// A statement with its query; an empty name is none.
pub fn prepare(session: &mut Session, name: &[u8], sql: &[u8]) -> u32
    ensures { HandleAsks session.old session.new (UnreadOne name.now sql.now)
        (request.Prepare (name_of name.now) sql.now []) result }
{
    let Ok(name) = str::from_utf8(name) else {
        return NOT_UTF8;
    };
    let Ok(sql) = str::from_utf8(sql) else {
        return NOT_UTF8;
    };
    if !is_asking(session) {
        return OUT_OF_PLACE;
    }
    let request = Request::prepare(session.alloc, name, sql);
    add(session, request)
}

// A bind with these parameters.
fn bind_of(
    alloc: Global,
    portal: &str,
    statement: &str,
    parameters: Listed<Option<Octets>>,
) -> Result<Request, OutOfMemory>
    ensures { IfOk result (λ r. r ≡ request.Bind (name_of portal.now) (name_of statement.now)
        parameters []) }
{
    let portal = match named(alloc, portal) {
        Ok(portal) => portal,
        Err(e) => {
            drop(parameters);
            return Err(e);
        }
    };
    match named(alloc, statement) {
        Ok(statement) => Ok(Request::Bind(portal, statement, parameters, Listed::new(alloc))),
        Err(e) => {
            drop(portal);
            drop(parameters);
            Err(e)
        }
    }
}

/// A portal of a statement, with the parameters that stand ready.
pub fn bind(session: &mut Session, portal: &[u8], statement: &[u8]) -> u32
    ensures { AsksWith session.old session.new (UnreadOne portal.now statement.now)
        (request.Bind (name_of portal.now) (name_of statement.now) session.old.parameters [])
        result }
{
    let Ok(portal) = str::from_utf8(portal) else {
        return NOT_UTF8;
    };
    let Ok(statement) = str::from_utf8(statement) else {
        return NOT_UTF8;
    };
    if !is_asking(session) {
        return OUT_OF_PLACE;
    }
    let alloc = session.alloc;
    let parameters = replace(&mut session.parameters, Listed::new(alloc));
    let request = bind_of(alloc, portal, statement, parameters);
    add(session, request)
}

/// Runs a portal for so many rows at most; 0 is all.
pub fn execute(session: &mut Session, portal: &[u8], rows: u32) -> u32
    ensures { AsksRows session.old session.new portal.now rows result }
{
    let Ok(rows) = i32::try_from(rows) else {
        return OUT_OF_RANGE;
    };
    let Ok(portal) = str::from_utf8(portal) else {
        return NOT_UTF8;
    };
    if !is_asking(session) {
        return OUT_OF_PLACE;
    }
    let request = Request::execute(session.alloc, portal, rows);
    add(session, request)
}

// What is named: a statement (0) or a portal.
fn target(alloc: Global, kind: u32, name: &str) -> Result<Target, OutOfMemory>
    ensures { IfOk result (λ t. t ≡ numbered_target kind (name_of name.now)) }
{
    let name = named(alloc, name)?;
    if kind == 0 {
        Ok(Target::Statement(name))
    } else {
        Ok(Target::Portal(name))
    }
}

fn describe_of(alloc: Global, kind: u32, name: &str) -> Result<Request, OutOfMemory>
    ensures { IfOk result (λ r. r ≡ request.Describe (numbered_target kind (name_of name.now))) }
{
    Ok(Request::Describe(target(alloc, kind, name)?))
}

fn close_of(alloc: Global, kind: u32, name: &str) -> Result<Request, OutOfMemory>
    ensures { IfOk result (λ r. r ≡ request.Close (numbered_target kind (name_of name.now))) }
{
    Ok(Request::Close(target(alloc, kind, name)?))
}

/// Describes a statement (0) or a portal (1).
pub fn describe(session: &mut Session, kind: u32, name: &[u8]) -> u32
    ensures { AsksWithin session.old session.new (1 < kind) name.now
        (request.Describe (numbered_target kind (name_of name.now))) result }
{
    if kind > 1 {
        return OUT_OF_RANGE;
    }
    let Ok(name) = str::from_utf8(name) else {
        return NOT_UTF8;
    };
    if !is_asking(session) {
        return OUT_OF_PLACE;
    }
    let request = describe_of(session.alloc, kind, name);
    add(session, request)
}

/// Closes a statement (0) or a portal (1).
pub fn close(session: &mut Session, kind: u32, name: &[u8]) -> u32
    ensures { AsksWithin session.old session.new (1 < kind) name.now
        (request.Close (numbered_target kind (name_of name.now))) result }
{
    if kind > 1 {
        return OUT_OF_RANGE;
    }
    let Ok(name) = str::from_utf8(name) else {
        return NOT_UTF8;
    };
    if !is_asking(session) {
        return OUT_OF_PLACE;
    }
    let request = close_of(session.alloc, kind, name);
    add(session, request)
}

// A query with these parameters.
fn query_of(
    alloc: Global,
    sql: &str,
    parameters: Listed<Option<Octets>>,
) -> Result<Request, OutOfMemory>
    ensures { IfOk result (λ r. r ≡ request.Query sql.now [] parameters) }
{
    match Text::from_str(alloc, sql) {
        Ok(sql) => Ok(Request::Query(sql, Listed::new(alloc), parameters)),
        Err(e) => {
            drop(parameters);
            Err(e)
        }
    }
}

/// A query with the parameters that stand ready.
pub fn query(session: &mut Session, sql: &[u8]) -> u32
    ensures { AsksWith session.old session.new (RefusesText sql.now)
        (request.Query sql.now [] session.old.parameters) result }
{
    let Ok(sql) = str::from_utf8(sql) else {
        return NOT_UTF8;
    };
    if !is_asking(session) {
        return OUT_OF_PLACE;
    }
    let alloc = session.alloc;
    let parameters = replace(&mut session.parameters, Listed::new(alloc));
    let request = query_of(alloc, sql, parameters);
    add(session, request)
}

/// One parameter more stands ready for the next bind or query: the text of a value.
pub fn parameter(session: &mut Session, value: &[u8]) -> u32
    ensures { AddsParameter session.old session.new (Some value.now) result }
{
    let Ok(value) = Octets::from_slice(session.alloc, value) else {
        return OUT_OF_MEMORY;
    };
    match session.parameters.push(Some(value)) {
        Ok(()) => OK,
        Err(_) => OUT_OF_MEMORY,
    }
}

/// One parameter more that is NULL.
pub fn null_parameter(session: &mut Session) -> u32
    ensures { AddsParameter session.old session.new None result }
{
    match session.parameters.push(None) {
        Ok(()) => OK,
        Err(_) => OUT_OF_MEMORY,
    }
}
