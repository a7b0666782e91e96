//! What is read of a session's report.
ghost use Rattle.std.specs.Prelude.{◌≡◌, ◌≤◌, length, slice_get};
ghost use Rattle.std.specs.FinMap as map;
ghost use Rattle.std.specs.Option.{option_copied};
ghost use Rattle.pgw_rows.specs.Cuts.{HasLength, Locates};
ghost use Rattle.hothummei_c.specs.Reads.{CountsAs, FindsAnswer, FindsColumn, FindsFault, FindsField, FindsPair, FindsResult, FindsRow, FindsType, AnswersIndex, PutsField, Pushes, PutsNext, PutsValues, SumsUp, Summed, TellsColumn, TellsCommand, TellsPair, TellsResult, answer_in, rows_of_tag, row_value_count, first_field, kind_number, result_in, shape_number, status_number};

use crate::codes::{NO_SUCH_INDEX, OK, OUT_OF_MEMORY, OUT_OF_PLACE};
use crate::infos::{AnswerInfo, ColumnInfo, Pair, ResultInfo, RowInfo, Summary, TypeInfo};
use crate::report::{AnswerKind, CommandResult, Report, ResultKind, Told};
use crate::session::Session;
use crate::values::{Value, null_value, value_of};
use pgw_backend::client_error::PgWireClientError;
use pgw_query::field_info::{FieldFormat, FieldInfo};
use pgw_query::response::{ErrorResponse, TransactionStatus};
use pgw_query::tag::Tag;
use pgw_types::text::Text;
use pgw_wire::params::Params;

const VALUE_MISSING: u32 = 19;

// ---- the whole

fn status_number(status: TransactionStatus) -> u32
    ensures { result ≡ status_number status }
{
    match status {
        TransactionStatus::Idle => 73,
        TransactionStatus::Transaction => 84,
        TransactionStatus::Error => 69,
    }
}

fn summary_of(report: &Report) -> Summary
    ensures { Summed report.now result }
{
    let (_major, minor) = report.version.version_number();
    Summary {
        minor: minor as u32,
        status: status_number(report.status),
        process: report.process_id.cast_unsigned(),
        parameters: report.parameters.len(),
        answers: report.answers.len(),
        key: value_of(report.key.as_slice()),
    }
}

/// What a session told as a whole.
pub fn summary(session: &mut Session, out: &mut Summary) -> u32
    ensures { SumsUp session.old session.new out.new result }
{
    match &session.report {
        None => OUT_OF_PLACE,
        Some(report) => {
            *out = summary_of(report);
            OK
        }
    }
}

fn pair_of(name: &Text, value: &Text) -> Pair
    ensures { TellsPair result (name.now, value.now) }
{
    Pair {
        name: value_of(name.as_str().as_bytes()),
        value: value_of(value.as_str().as_bytes()),
    }
}

// A parameter by its number.
#[tactic(auto, using(crate::proofs::ReadLaws::one_later))]
fn put_pair(parameters: &Params, index: usize, out: &mut Pair) -> u32
    ensures { AnswersIndex (slice_get (map.entries parameters.now) index) (TellsPair out.new)
        result }
{
    let mut left = index;
    for (name, value) in parameters.iter() {
        if left == 0 {
            *out = pair_of(name, value);
            return OK;
        }
        left -= 1;
    }
    NO_SUCH_INDEX
}

/// A parameter of the server by its number, in the order of their names.
pub fn server_parameter(session: &mut Session, index: usize, out: &mut Pair) -> u32
    ensures { FindsPair session.old session.new index out.new result }
{
    match &session.report {
        None => OUT_OF_PLACE,
        Some(report) => put_pair(&report.parameters, index, out),
    }
}

// ---- answers

fn kind_number(kind: AnswerKind) -> u32
    ensures { result ≡ kind_number kind }
{
    match kind {
        AnswerKind::Responses => 0,
        AnswerKind::Prepared => 1,
        AnswerKind::Bound => 2,
        AnswerKind::Complete => 3,
        AnswerKind::Suspended => 4,
        AnswerKind::Described => 5,
        AnswerKind::Closed => 6,
        AnswerKind::Rows => 7,
        AnswerKind::Remote => 8,
    }
}

// The answer to a request.
fn answer_in(session: &Session, index: usize) -> Option<&Told>
    ensures { option_copied result ≡ answer_in session.now index }
{
    match &session.report {
        None => None,
        Some(report) => report.answers.as_slice().get(index),
    }
}

// What one command gave.
fn result_in(session: &Session, answer: usize, index: usize) -> Option<&CommandResult>
    ensures { option_copied result ≡ result_in session.now answer index }
{
    match answer_in(session, answer) {
        None => None,
        Some(told) => told.results.as_slice().get(index),
    }
}

/// The answer to a request, by the request's number.
pub fn answer(session: &mut Session, index: usize, out: &mut AnswerInfo) -> u32
    ensures { FindsAnswer session.old session.new index out.new result }
{
    match answer_in(session, index) {
        None => NO_SUCH_INDEX,
        Some(told) => {
            *out = AnswerInfo {
                kind: kind_number(told.kind),
                results: told.results.len(),
                types: told.types.len(),
            };
            OK
        }
    }
}

/// The type of a statement's parameter.
pub fn parameter_type(session: &mut Session, answer: usize, index: usize, out: &mut TypeInfo) -> u32
    ensures { FindsType session.old session.new answer index out.new result }
{
    let Some(told) = answer_in(session, answer) else {
        return NO_SUCH_INDEX;
    };
    match told.types.as_slice().get(index) {
        None => NO_SUCH_INDEX,
        Some(known) => {
            *out = TypeInfo { oid: known.oid() };
            OK
        }
    }
}

// ---- the fields of errors

// The text of the first field with this code.
fn first_field(fields: &[(u8, Text)], code: u32) -> Option<&Text>
    ensures { option_copied result ≡ first_field code fields.now }
{
    for field in fields {
        if field.0 as u32 == code {
            return Some(&field.1);
        }
    }
    None
}

fn put_field(error: Option<&ErrorResponse>, code: u32, out: &mut Value) -> u32
    ensures { PutsField error.entry code out.new result }
{
    let Some(error) = error else {
        return OUT_OF_PLACE;
    };
    match first_field(error.fields.as_slice(), code) {
        None => NO_SUCH_INDEX,
        Some(text) => {
            *out = value_of(text.as_str().as_bytes());
            OK
        }
    }
}

/// A field of the server's error that the session failed by.
pub fn error_field(session: &mut Session, code: u32, out: &mut Value) -> u32
    ensures { FindsFault session.old session.new code out.new result }
{
    let error = match &session.fault {
        Some(PgWireClientError::RemoteError(error)) => Some(error),
        _ => None,
    };
    put_field(error, code, out)
}

/// A field of the server's error that answers a request.
pub fn answer_field(session: &mut Session, answer: usize, code: u32, out: &mut Value) -> u32
    ensures { FindsField session.old session.new answer code out.new result }
{
    let Some(told) = answer_in(session, answer) else {
        return NO_SUCH_INDEX;
    };
    put_field(told.error.as_ref(), code, out)
}

// ---- results

fn shape_number(kind: ResultKind) -> u32
    ensures { result ≡ shape_number kind }
{
    match kind {
        ResultKind::Nothing => 0,
        ResultKind::Rows => 1,
        ResultKind::Command => 2,
    }
}

fn command_of(tag: &Option<Tag>) -> Value
    ensures { TellsCommand tag.now result }
{
    match tag {
        None => null_value(),
        Some(tag) => value_of(tag.command.as_str().as_bytes()),
    }
}

fn count_of(tag: &Option<Tag>) -> Option<usize>
    ensures { result ≡ rows_of_tag tag.now }
{
    match tag {
        None => None,
        Some(tag) => tag.rows,
    }
}

// The number, and 1; or zeros.
fn told_count(count: Option<usize>) -> (u64, u32)
    ensures { CountsAs count result.0 result.1 }
{
    match count {
        None => (0, 0),
        Some(number) => (number as u64, 1),
    }
}

fn info_of(found: &CommandResult) -> ResultInfo
    ensures { TellsResult found.now result }
{
    let (count, counted) = told_count(count_of(&found.tag));
    ResultInfo {
        kind: shape_number(found.kind),
        columns: found.fields.len(),
        rows: found.rows.len(),
        command: command_of(&found.tag),
        count,
        counted,
    }
}

/// What one command of a request gave, by its number.
pub fn result_info(session: &mut Session, answer: usize, index: usize, out: &mut ResultInfo) -> u32
    ensures { FindsResult session.old session.new answer index out.new result }
{
    match result_in(session, answer, index) {
        None => NO_SUCH_INDEX,
        Some(found) => {
            *out = info_of(found);
            OK
        }
    }
}

fn column_of(field: &FieldInfo) -> ColumnInfo
    ensures { TellsColumn field.now result }
{
    ColumnInfo {
        name: value_of(field.name.as_str().as_bytes()),
        oid: field.datatype.oid(),
        format: match field.format {
            FieldFormat::Text => 0,
            FieldFormat::Binary => 1,
        },
    }
}

/// A column of a result, by its number.
pub fn column(
    session: &mut Session,
    answer: usize,
    number: usize,
    index: usize,
    out: &mut ColumnInfo,
) -> u32
    ensures { FindsColumn session.old session.new answer number index out.new result }
{
    let Some(found) = result_in(session, answer, number) else {
        return NO_SUCH_INDEX;
    };
    match found.fields.as_slice().get(index) {
        None => NO_SUCH_INDEX,
        Some(field) => {
            *out = column_of(field);
            OK
        }
    }
}

// ---- rows

// The length before a value.
#[tactic(auto, unfolding(pgw_wire::specs::Reading::int_at, pgw_wire::specs::Reading::nat_at))]
fn length_at(bytes: &[u8]) -> Option<i32>
    ensures { HasLength bytes.now result }
{
    if bytes.len() < 4 {
        return None;
    }
    Some(i32::from_be_bytes([bytes[0], bytes[1], bytes[2], bytes[3]]))
}

// Where the value at an index of a row ends, or none for NULL; nothing where the row ends within it.
#[tactic(auto, unfolding(pgw_wire::specs::Values::nullable_at))]
fn locate(row: &[u8], at: usize) -> Option<Option<usize>>
    requires { at ≤ length row.now }
    ensures { Locates row.now at result }
{
    let rest = &row[at..];
    let len = length_at(rest)?;
    if len < 0 {
        return Some(None);
    }
    if rest.len() - 4 < len as usize {
        return None;
    }
    Some(Some(at + 4 + len as usize))
}

// Shows one value more; answers where the next one begins.
fn push_value(values: &mut Vec<Value>, shown: Value, next: usize) -> Result<usize, u32>
    ensures { Pushes values.old.items values.new.items shown next result }
{
    match values.push(shown) {
        Ok(()) => Ok(next),
        Err(_) => Err(OUT_OF_MEMORY),
    }
}

// The next value, from a place on; answers where the one behind it begins.
fn put_next(values: &mut Vec<Value>, row: &[u8], at: usize) -> Result<usize, u32>
    requires { at ≤ length row.now }
    ensures { PutsNext values.old.items values.new.items row.now at result }
{
    match locate(row, at) {
        None => Err(VALUE_MISSING),
        Some(None) => push_value(values, null_value(), at + 4),
        Some(Some(end)) => push_value(values, value_of(&row[at + 4..end]), end),
    }
}

// How many values a row tells of.
fn counted(count: i16) -> usize
    ensures { result ≡ row_value_count count }
{
    if count > 0 { count as usize } else { 0 }
}

// The values of a row, side by side.
fn put_values(values: &mut Vec<Value>, count: usize, row: &[u8]) -> u32
    ensures { PutsValues values.new.items count row.now result }
{
    values.clear();
    let mut at = 0;
    let mut left = count;
    'each: while left > 0 {
        match put_next(values, row, at) {
            Ok(next) => at = next,
            Err(code) => return code,
        }
        left -= 1;
    }
    OK
}

/// The values of a row, by its number. They stand side by side until the next row is asked for; the bytes that they point
/// to stay.
pub fn row(
    session: &mut Session,
    answer: usize,
    number: usize,
    index: usize,
    out: &mut RowInfo,
) -> u32
    ensures { FindsRow session.old session.new answer number index out.new result }
{
    let Session { report, values, .. } = session;
    let Some(report) = report else {
        return NO_SUCH_INDEX;
    };
    let Some(told) = report.answers.as_slice().get(answer) else {
        return NO_SUCH_INDEX;
    };
    let Some(found) = told.results.as_slice().get(number) else {
        return NO_SUCH_INDEX;
    };
    let Some(row) = found.rows.get(index) else {
        return NO_SUCH_INDEX;
    };
    let code = put_values(values, counted(row.field_count), row.payload);
    *out = RowInfo {
        values: values.as_ptr(),
        count: values.len(),
    };
    code
}
