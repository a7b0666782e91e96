//! The answer of a request, by what its segment gave.
ghost use Rattle.std.specs.Prelude.{◌≡◌, [], ◌++◌, map, Some, IfOk, OnOk};
ghost use Rattle.pgw_query.specs.Fields.{field_info_of, type_of};
ghost use Rattle.pgw_session.specs.Answers.{answer_by, last_columns, executed_of, no_tally, tally_with, result_of, rows_until, tally_after, with_end, with_row, response_of};

use pgw_backend::backend::PgWireBackendMessage;
use pgw_query::data::{DataRow, FieldDescription};
use pgw_query::data_rows::DataRows;
use pgw_query::field_info::FieldInfo;
use pgw_query::pg_type::PgType;
use pgw_query::response::CommandComplete;
use pgw_query::tag::Tag;
use pgw_session::tally::{Opened, Tally};
use pgw_session::types::{
    Answer, DescribeResponse, ExecuteResult, PrepareResponse, Request, Response,
};
use pgw_types::listed::{Duplicate, Listed};
use pgw_types::memory::OutOfMemory;
use std::alloc::Global;
use std::mem::replace;

/// That of a segment of which nothing was got.
pub fn no_tally(alloc: Global) -> Tally
    ensures { result ≡ no_tally }
{
    Tally {
        responses: Listed::new(alloc),
        opened: None,
        param_types: Listed::new(alloc),
        executed: None,
        rows: DataRows::new(alloc),
        remote: None,
    }
}

// ---- what a message gives

/// The columns that a row description tells of.
pub fn columns(
    alloc: Global,
    fields: Vec<FieldDescription>,
) -> Result<Listed<FieldInfo>, OutOfMemory>
    ensures { IfOk result (λ columns. columns ≡ map field_info_of fields.items) }
{
    let mut columns = Listed::new(alloc);
    for field in fields {
        columns.push(FieldInfo::from_description(field))?;
    }
    Ok(columns)
}

/// The types of some numbers.
pub fn types(alloc: Global, oids: &[u32]) -> Result<Listed<PgType>, OutOfMemory>
    ensures { IfOk result (λ types. types ≡ map type_of oids.now) }
{
    let mut types = Listed::new(alloc);
    for oid in oids {
        types.push(PgType::from_oid(*oid))?;
    }
    Ok(types)
}

// A result opens, with these columns.
fn note_columns(
    alloc: Global,
    tally: &mut Tally,
    fields: Vec<FieldDescription>,
) -> Result<(), OutOfMemory>
    ensures { OnOk result (tally.new ≡ record tally.old
        { opened = Some (record { fields = map field_info_of fields.items; rows = [] }) }) }
{
    let fields = columns(alloc, fields)?;
    tally.opened = Some(Opened {
        fields,
        rows: DataRows::new(alloc),
    });
    Ok(())
}

// The types of a statement's parameters.
fn note_types(alloc: Global, tally: &mut Tally, oids: Listed<u32>) -> Result<(), OutOfMemory>
    ensures { OnOk result (tally.new ≡ record tally.old { param_types = map type_of oids }) }
{
    tally.param_types = types(alloc, oids.as_slice())?;
    Ok(())
}

// Notes a row behind no error.
fn note_row(tally: &mut Tally, row: DataRow) -> Result<(), OutOfMemory>
    ensures { OnOk result (tally.new ≡ with_row tally.old.opened tally.old row) }
{
    match &mut tally.opened {
        Some(opened) => opened.rows.push(row),
        None => tally.rows.push(row),
    }
}

// The portal ends with all of its rows.
fn complete(alloc: Global, tally: &mut Tally)
    ensures { tally.new ≡ with_end tally.old.executed tally.old
        (ExecuteResult.Complete tally.old.rows) }
{
    if tally.executed.is_none() {
        let rows = replace(&mut tally.rows, DataRows::new(alloc));
        tally.executed = Some(ExecuteResult::Complete(rows));
    }
}

// The portal stops with some of them.
fn suspend(alloc: Global, tally: &mut Tally)
    ensures { tally.new ≡ with_end tally.old.executed tally.old
        (ExecuteResult.Suspended tally.old.rows) }
{
    if tally.executed.is_none() {
        let rows = replace(&mut tally.rows, DataRows::new(alloc));
        tally.executed = Some(ExecuteResult::Suspended(rows));
    }
}

// The response of a command.
fn response_of(
    alloc: Global,
    opened: Option<Opened>,
    command: CommandComplete,
) -> Result<Response, OutOfMemory>
    ensures { IfOk result (λ response. response ≡ response_of opened command.tag) }
{
    let tag = Tag::from_text(alloc, command.tag)?;
    match opened {
        Some(Opened { fields, rows }) => Ok(Response::Query(tag, fields, rows)),
        None => Ok(Response::Execution(tag)),
    }
}

fn note_command(
    alloc: Global,
    tally: &mut Tally,
    command: CommandComplete,
) -> Result<(), OutOfMemory>
    ensures { OnOk result (tally.new ≡ tally_with tally.old
        (PgWireBackendMessage.CommandComplete command)) }
{
    let response = response_of(alloc, tally.opened.take(), command)?;
    tally.responses.push(response)?;
    complete(alloc, tally);
    Ok(())
}

// An empty query ends the portal too.
fn note_empty(alloc: Global, tally: &mut Tally) -> Result<(), OutOfMemory>
    ensures { OnOk result (tally.new ≡ tally_with tally.old
        (PgWireBackendMessage.EmptyQueryResponse (record {}))) }
{
    tally.responses.push(Response::EmptyQuery)?;
    complete(alloc, tally);
    Ok(())
}

/// Notes a message. Behind an error nothing more is noted.
pub fn note(
    alloc: Global,
    tally: &mut Tally,
    message: PgWireBackendMessage,
) -> Result<(), OutOfMemory>
    ensures { OnOk result (tally.new ≡ tally_after tally.old message) }
{
    if tally.remote.is_some() {
        drop(message);
        return Ok(());
    }
    match message {
        PgWireBackendMessage::RowDescription(m) => note_columns(alloc, tally, m.fields.into_vec()),
        PgWireBackendMessage::ParameterDescription(m) => note_types(alloc, tally, m.types),
        PgWireBackendMessage::DataRow(row) => note_row(tally, row),
        PgWireBackendMessage::CommandComplete(command) => note_command(alloc, tally, command),
        PgWireBackendMessage::EmptyQueryResponse(_empty) => note_empty(alloc, tally),
        PgWireBackendMessage::PortalSuspended(_suspended) => {
            suspend(alloc, tally);
            Ok(())
        }
        PgWireBackendMessage::ErrorResponse(error) => {
            tally.remote = Some(error);
            Ok(())
        }
        other => {
            drop(other);
            Ok(())
        }
    }
}

// ---- the answer

fn executed_of(alloc: Global, executed: Option<ExecuteResult<DataRows>>) -> ExecuteResult<DataRows>
    ensures { result ≡ executed_of executed }
{
    match executed {
        Some(executed) => executed,
        None => ExecuteResult::Complete(DataRows::new(alloc)),
    }
}

// The rows up to the portal's end.
fn rows_until(alloc: Global, executed: Option<ExecuteResult<DataRows>>) -> DataRows
    ensures { result ≡ rows_until executed }
{
    match executed {
        Some(ExecuteResult::Complete(rows)) => rows,
        Some(ExecuteResult::Suspended(rows)) => rows,
        None => DataRows::new(alloc),
    }
}

// Some rows and others behind them.
fn with_rows(mut rows: DataRows, behind: DataRows) -> Result<DataRows, OutOfMemory>
    ensures { IfOk result (λ all. all ≡ rows ++ behind) }
{
    rows.append(behind)?;
    Ok(rows)
}

fn columns_of(alloc: Global, opened: Option<Opened>) -> Listed<FieldInfo>
    ensures { result ≡ last_columns opened }
{
    match opened {
        Some(
            Opened {
                fields,
                rows: _rows,
            },
        ) => fields,
        None => Listed::new(alloc),
    }
}

// What a request gives where no error came. It is taken out of the tally.
fn result_of(alloc: Global, request: &Request, tally: &mut Tally) -> Result<Answer, OutOfMemory>
    ensures { IfOk result (λ answer. answer ≡ result_of request.now tally.old) }
{
    match request {
        Request::Simple(_) => {
            let responses = replace(&mut tally.responses, Listed::new(alloc));
            Ok(Answer::Responses(responses))
        }
        Request::Prepare(name, ..) => {
            let name = name.duplicate()?;
            let param_types = replace(&mut tally.param_types, Listed::new(alloc));
            Ok(Answer::Prepared(PrepareResponse { name, param_types }))
        }
        Request::Bind(..) => Ok(Answer::Bound),
        Request::Execute(..) => Ok(Answer::Executed(executed_of(alloc, tally.executed.take()))),
        Request::Describe(_) => {
            let param_types = replace(&mut tally.param_types, Listed::new(alloc));
            let fields = columns_of(alloc, tally.opened.take());
            Ok(Answer::Described(DescribeResponse {
                param_types,
                fields,
            }))
        }
        Request::Close(_) => Ok(Answer::Closed),
        Request::Query(..) => {
            let behind = replace(&mut tally.rows, DataRows::new(alloc));
            let rows = with_rows(rows_until(alloc, tally.executed.take()), behind)?;
            Ok(Answer::Rows(rows))
        }
    }
}

/// Takes the answer of a request whose segment has closed out of its tally.
pub(crate) fn answer_by(
    alloc: Global,
    request: &Request,
    tally: &mut Tally,
) -> Result<Answer, OutOfMemory>
    ensures { IfOk result (λ answer. answer ≡ answer_by request.now tally.old) }
{
    match tally.remote.take() {
        Some(error) => Ok(Answer::Remote(error)),
        None => result_of(alloc, request, tally),
    }
}
