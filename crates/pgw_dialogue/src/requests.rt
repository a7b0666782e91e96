//! What each request sends.
ghost use Rattle.std.specs.Prelude.{◌≡◌, [], ◌∷◌, None, IfErr, IfOk};
ghost use Rattle.pgw_frontend.specs.Frontend.{encodings};
ghost use Rattle.pgw_session.specs.Requests.{kind_of, sends_of};
ghost use Rattle.pgw_dialogue.specs.Wire.{IsOwn, PutOut};

use crate::wire::{put_all, put_query};
use bytes::BytesMut;
use pgw_backend::client_error::PgWireClientError;
use pgw_ext::extendedquery::{
    Bind, Close, Describe, Execute, Flush, Parse, Sync, TARGET_TYPE_BYTE_PORTAL,
    TARGET_TYPE_BYTE_STATEMENT,
};
use pgw_frontend::frontend::PgWireFrontendMessage;
use pgw_query::simplequery::Query;
use pgw_session::stage::Kind;
use pgw_session::types::{Request, Target};
use pgw_types::listed::{Duplicate, Listed};
use pgw_types::memory::OutOfMemory;
use pgw_types::octets::Octets;
use pgw_types::text::Text;
use std::alloc::Global;

/// The row of a request.
pub fn kind_of(request: &Request) -> Kind
    ensures { result ≡ kind_of request.now }
{
    match request {
        Request::Simple(..) => Kind::Simple,
        Request::Prepare(..) => Kind::Prepare,
        Request::Bind(..) => Kind::Bind,
        Request::Execute(..) => Kind::Execute,
        Request::Describe(target) => match target {
            Target::Statement(..) => Kind::DescribeStatement,
            Target::Portal(..) => Kind::DescribePortal,
        },
        Request::Close(..) => Kind::Close,
        Request::Query(..) => Kind::Query,
    }
}

// ---- messages

/// Sync (Extended Query).
pub fn sync() -> PgWireFrontendMessage
    ensures { result ≡ PgWireFrontendMessage.Sync (record {}) }
{
    PgWireFrontendMessage::Sync(Sync::new())
}

fn flush() -> PgWireFrontendMessage
    ensures { result ≡ PgWireFrontendMessage.Flush (record {}) }
{
    PgWireFrontendMessage::Flush(Flush::new())
}

fn parse(
    name: &Option<Text>,
    query: &Text,
    types: &Listed<u32>,
) -> Result<PgWireFrontendMessage, OutOfMemory>
    ensures { IfOk result (λ m. m ≡ PgWireFrontendMessage.Parse
        (record { name = name.now; query = query.now; type_oids = types.now })) }
{
    let name = name.duplicate()?;
    let query = query.duplicate()?;
    let types = types.duplicate()?;
    Ok(PgWireFrontendMessage::Parse(Parse::new(name, query, types)))
}

fn describe(target_type: u8, name: &Option<Text>) -> Result<PgWireFrontendMessage, OutOfMemory>
    ensures { IfOk result (λ m. m ≡ PgWireFrontendMessage.Describe
        (record { target_type = target_type; name = name.now })) }
{
    let name = name.duplicate()?;
    Ok(PgWireFrontendMessage::Describe(Describe::new(target_type, name)))
}

fn close(target_type: u8, name: &Option<Text>) -> Result<PgWireFrontendMessage, OutOfMemory>
    ensures { IfOk result (λ m. m ≡ PgWireFrontendMessage.Close
        (record { target_type = target_type; name = name.now })) }
{
    let name = name.duplicate()?;
    Ok(PgWireFrontendMessage::Close(Close::new(target_type, name)))
}

// Parameters are sent as text.
fn bind(
    alloc: Global,
    portal: &Option<Text>,
    statement: &Option<Text>,
    parameters: &Listed<Option<Octets>>,
    formats: Listed<i16>,
) -> Result<PgWireFrontendMessage, OutOfMemory>
    ensures { IfOk result (λ m. m ≡ PgWireFrontendMessage.Bind
        (record {
          portal_name = portal.now;
          statement_name = statement.now;
          parameter_format_codes
              = [];
          parameters = parameters.now;
          result_column_format_codes = formats;
        })) }
{
    let portal = portal.duplicate()?;
    let statement = statement.duplicate()?;
    let parameters = parameters.duplicate()?;
    Ok(PgWireFrontendMessage::Bind(Bind::new(
        portal,
        statement,
        Listed::new(alloc),
        parameters,
        formats,
    )))
}

fn execute(portal: &Option<Text>, max_rows: i32) -> Result<PgWireFrontendMessage, OutOfMemory>
    ensures { IfOk result (λ m. m ≡ PgWireFrontendMessage.Execute
        (record { name = portal.now; max_rows = max_rows })) }
{
    let portal = portal.duplicate()?;
    Ok(PgWireFrontendMessage::Execute(Execute::new(portal, max_rows)))
}

// ---- openings

type Sends = Vec<PgWireFrontendMessage>;

// Two messages, of which the second is Sync or Flush.
fn with_end(
    alloc: Global,
    first: PgWireFrontendMessage,
    end: PgWireFrontendMessage,
) -> Result<Sends, OutOfMemory>
    ensures { IfOk result (λ v. v.items ≡ first ∷ end ∷ []) }
{
    Ok(Vec::from_array(alloc, [first, end])?)
}

fn of_simple(alloc: Global, query: &Text) -> Result<Sends, OutOfMemory>
    ensures { IfOk result (λ v. v.items ≡ sends_of (Request.Simple query.now)) }
{
    let mut sends = Vec::new(alloc);
    let query = query.duplicate()?;
    sends.push(PgWireFrontendMessage::Query(Query { query }))?;
    Ok(sends)
}

fn of_prepare(
    alloc: Global,
    name: &Option<Text>,
    query: &Text,
    types: &Listed<u32>,
) -> Result<Sends, OutOfMemory>
    ensures { IfOk result (λ v. v.items ≡ sends_of (Request.Prepare name.now query.now types.now)) }
{
    let mut sends = Vec::new(alloc);
    sends.push(parse(name, query, types)?)?;
    sends.push(describe(TARGET_TYPE_BYTE_STATEMENT, name)?)?;
    sends.push(sync())?;
    Ok(sends)
}

fn of_describe(alloc: Global, target: &Target) -> Result<Sends, OutOfMemory>
    ensures { IfOk result (λ v. v.items ≡ sends_of (Request.Describe target.now)) }
{
    match target {
        Target::Statement(name) => {
            with_end(alloc, describe(TARGET_TYPE_BYTE_STATEMENT, name)?, sync())
        }
        Target::Portal(name) => {
            with_end(alloc, describe(TARGET_TYPE_BYTE_PORTAL, name)?, flush())
        }
    }
}

fn of_close(alloc: Global, target: &Target) -> Result<Sends, OutOfMemory>
    ensures { IfOk result (λ v. v.items ≡ sends_of (Request.Close target.now)) }
{
    match target {
        Target::Statement(name) => {
            with_end(alloc, close(TARGET_TYPE_BYTE_STATEMENT, name)?, sync())
        }
        Target::Portal(name) => with_end(alloc, close(TARGET_TYPE_BYTE_PORTAL, name)?, sync()),
    }
}

fn of_query(
    alloc: Global,
    query: &Text,
    types: &Listed<u32>,
    parameters: &Listed<Option<Octets>>,
) -> Result<Sends, OutOfMemory>
    ensures { IfOk result (λ v. v.items ≡ sends_of
        (Request.Query query.now types.now parameters.now)) }
{
    let mut sends = Vec::new(alloc);
    sends.push(parse(&None, query, types)?)?;
    sends.push(bind(alloc, &None, &None, parameters, Listed::new(alloc))?)?;
    sends.push(execute(&None, 0)?)?;
    sends.push(sync())?;
    Ok(sends)
}

/// The messages that open a request's segment.
pub fn sends_of(alloc: Global, request: &Request) -> Result<Sends, OutOfMemory>
    ensures { IfOk result (λ v. v.items ≡ sends_of request.now) }
{
    match request {
        Request::Simple(query) => of_simple(alloc, query),
        Request::Prepare(name, query, types) => of_prepare(alloc, name, query, types),
        Request::Bind(portal, statement, parameters, formats) => {
            let formats = formats.duplicate()?;
            with_end(
                alloc,
                bind(alloc, portal, statement, parameters, formats)?,
                flush(),
            )
        }
        Request::Execute(portal, max_rows) => {
            with_end(alloc, execute(portal, *max_rows)?, flush())
        }
        Request::Describe(target) => of_describe(alloc, target),
        Request::Close(target) => of_close(alloc, target),
        Request::Query(query, types, parameters) => of_query(alloc, query, types, parameters),
    }
}

/// Puts out the messages that open a request's segment.
pub fn put_request(
    alloc: Global,
    request: &Request,
    out: &mut BytesMut,
) -> Result<(), PgWireClientError>
    ensures own { IfErr result IsOwn }
    ensures put { PutOut (encodings (sends_of request.now)) out.old.items out.new.items result }
{
    if let Request::Simple(query) = request {
        return put_query(query, out);
    }
    match sends_of(alloc, request) {
        Ok(sends) => put_all(&sends, out),
        Err(_) => Err(PgWireClientError::OutOfMemory),
    }
}
