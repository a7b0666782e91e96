//! What a session told, with the rows of its results by index.
ghost use Rattle.std.specs.Prelude.{◌≡◌, [], map, IfOk};
ghost use Rattle.pgw_wire.specs.Keys.{key_bytes};
ghost use Rattle.hothummei_c.specs.Report.{told_described, kept_report, plain_told, command_result, rows_result, told_of, told_with};

use crate::rows::Rows;
use pgw_query::data_rows::DataRows;
use pgw_query::field_info::FieldInfo;
use pgw_query::pg_type::PgType;
use pgw_query::response::{ErrorResponse, TransactionStatus};
use pgw_query::tag::Tag;
use pgw_session::types::{
    Answer, DescribeResponse, ExecuteResult, PrepareResponse, Response, SessionReport,
};
use pgw_types::context::ProtocolVersion;
use pgw_types::listed::Listed;
use pgw_types::memory::OutOfMemory;
use pgw_types::octets::Octets;
use pgw_wire::params::Params;
use pgw_wire::secret_key::SecretKey;
use std::alloc::Global;

/// What a result is.
#[derive(Clone, Copy, Debug)]
pub enum ResultKind {
    /// An empty query gave none.
    Nothing,
    /// Rows, with their columns if these were described.
    Rows,
    /// A command without rows.
    Command,
}

/// What one command gave.
#[derive(Drop)]
pub struct CommandResult {
    pub kind: ResultKind,
    pub tag: Option<Tag>,
    pub fields: Listed<FieldInfo>,
    pub rows: Rows,
}

/// What an answer is.
#[derive(Clone, Copy, Debug)]
pub enum AnswerKind {
    Responses,
    Prepared,
    Bound,
    Complete,
    Suspended,
    Described,
    Closed,
    Rows,
    Remote,
}

/// What a request gave.
#[derive(Drop)]
pub struct Told {
    pub kind: AnswerKind,
    pub results: Listed<CommandResult>,
    pub types: Listed<PgType>,
    pub error: Option<ErrorResponse>,
}

/// What a session told.
#[derive(Drop)]
pub struct Report {
    pub version: ProtocolVersion,
    pub parameters: Params,
    pub process_id: i32,
    pub key: Octets,
    pub status: TransactionStatus,
    pub answers: Listed<Told>,
}

// ---- results

// Rows without a tag.
fn rows_result(
    alloc: Global,
    fields: Listed<FieldInfo>,
    rows: DataRows,
) -> Result<CommandResult, OutOfMemory>
    ensures { IfOk result (λ r. r ≡ rows_result fields rows) }
{
    Ok(CommandResult {
        kind: ResultKind::Rows,
        tag: None,
        fields,
        rows: Rows::of(alloc, rows)?,
    })
}

// What one command gave.
fn result_of(alloc: Global, response: Response) -> Result<CommandResult, OutOfMemory>
    ensures { IfOk result (λ r. r ≡ command_result response) }
{
    match response {
        Response::EmptyQuery => Ok(CommandResult {
            kind: ResultKind::Nothing,
            tag: None,
            fields: Listed::new(alloc),
            rows: Rows::none(alloc),
        }),
        Response::Query(tag, fields, rows) => Ok(CommandResult {
            kind: ResultKind::Rows,
            tag: Some(tag),
            fields,
            rows: Rows::of(alloc, rows)?,
        }),
        Response::Execution(tag) => Ok(CommandResult {
            kind: ResultKind::Command,
            tag: Some(tag),
            fields: Listed::new(alloc),
            rows: Rows::none(alloc),
        }),
    }
}

fn results_of(alloc: Global, responses: Vec<Response>) -> Result<Listed<CommandResult>, OutOfMemory>
    ensures { IfOk result (λ all. all ≡ map command_result responses.items) }
{
    let mut all = Listed::new(alloc);
    for response in responses {
        all.push(result_of(alloc, response)?)?;
    }
    Ok(all)
}

// ---- answers

fn plain(alloc: Global, kind: AnswerKind) -> Told
    ensures { result ≡ plain_told kind }
{
    Told {
        kind,
        results: Listed::new(alloc),
        types: Listed::new(alloc),
        error: None,
    }
}

// An answer with one result.
fn with_result(
    alloc: Global,
    kind: AnswerKind,
    types: Listed<PgType>,
    only: CommandResult,
) -> Result<Told, OutOfMemory>
    ensures { IfOk result (λ told. told ≡ told_with kind types only) }
{
    let mut results = Listed::new(alloc);
    results.push(only)?;
    Ok(Told {
        kind,
        results,
        types,
        error: None,
    })
}

// Rows that a portal or a query gave.
fn with_rows(alloc: Global, kind: AnswerKind, rows: DataRows) -> Result<Told, OutOfMemory>
    ensures { IfOk result (λ told. told ≡ told_with kind [] (rows_result [] rows)) }
{
    let result = rows_result(alloc, Listed::new(alloc), rows)?;
    with_result(alloc, kind, Listed::new(alloc), result)
}

fn described(alloc: Global, told: DescribeResponse) -> Result<Told, OutOfMemory>
    ensures { IfOk result (λ all. all ≡ told_described told) }
{
    let DescribeResponse {
        param_types,
        fields,
    } = told;
    let result = rows_result(alloc, fields, DataRows::new(alloc))?;
    with_result(alloc, AnswerKind::Described, param_types, result)
}

/// What a request gave.
pub fn told_of(alloc: Global, answer: Answer) -> Result<Told, OutOfMemory>
    ensures { IfOk result (λ told. told ≡ told_of answer) }
{
    match answer {
        Answer::Responses(responses) => Ok(Told {
            kind: AnswerKind::Responses,
            results: results_of(alloc, responses.into_vec())?,
            types: Listed::new(alloc),
            error: None,
        }),
        Answer::Prepared(PrepareResponse { name, param_types }) => {
            drop(name);
            Ok(Told {
                kind: AnswerKind::Prepared,
                results: Listed::new(alloc),
                types: param_types,
                error: None,
            })
        }
        Answer::Bound => Ok(plain(alloc, AnswerKind::Bound)),
        Answer::Executed(ExecuteResult::Complete(rows)) => {
            with_rows(alloc, AnswerKind::Complete, rows)
        }
        Answer::Executed(ExecuteResult::Suspended(rows)) => {
            with_rows(alloc, AnswerKind::Suspended, rows)
        }
        Answer::Described(told) => described(alloc, told),
        Answer::Closed => Ok(plain(alloc, AnswerKind::Closed)),
        Answer::Rows(rows) => with_rows(alloc, AnswerKind::Rows, rows),
        Answer::Remote(error) => Ok(Told {
            kind: AnswerKind::Remote,
            results: Listed::new(alloc),
            types: Listed::new(alloc),
            error: Some(error),
        }),
    }
}

fn tolds_of(alloc: Global, answers: Vec<Answer>) -> Result<Listed<Told>, OutOfMemory>
    ensures { IfOk result (λ all. all ≡ map told_of answers.items) }
{
    let mut all = Listed::new(alloc);
    for answer in answers {
        all.push(told_of(alloc, answer)?)?;
    }
    Ok(all)
}

// A key as its bytes.
#[tactic(auto, unfolding(pgw_wire::specs::Writing::i32))]
fn key_of(alloc: Global, key: SecretKey) -> Result<Octets, OutOfMemory>
    ensures { IfOk result (λ bytes. bytes ≡ key_bytes key) }
{
    match key {
        SecretKey::I32(number) => Octets::from_slice(alloc, number.to_be_bytes().as_slice()),
        SecretKey::Bytes(bytes) => Ok(bytes),
    }
}

/// What a session told, with an index of each result's rows.
pub fn kept_of(alloc: Global, report: SessionReport) -> Result<Report, OutOfMemory>
    ensures { IfOk result (λ kept. kept ≡ kept_report report) }
{
    let SessionReport {
        version,
        parameters,
        process_id,
        secret_key,
        status,
        answers,
    } = report;
    let key = key_of(alloc, secret_key)?;
    let answers = tolds_of(alloc, answers.into_vec())?;
    Ok(Report {
        version,
        parameters,
        process_id,
        key,
        status,
        answers,
    })
}
