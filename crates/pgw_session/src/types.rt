//! What goes into a session and what comes out of it.
ghost use Rattle.std.specs.Prelude.{◌≡◌, [], map, IfOk};
ghost use Rattle.std.specs.Option.{option_copied};
ghost use Rattle.pgw_wire.specs.Reading.{name_of};

use pgw_query::data_rows::DataRows;
use pgw_query::field_info::FieldInfo;
use pgw_query::pg_type::PgType;
use pgw_query::response::{ErrorResponse, TransactionStatus};
use pgw_query::tag::Tag;
use pgw_rows::result::DataRowsReader;
use pgw_types::context::ProtocolVersion;
use pgw_types::listed::{Duplicate, Listed};
use pgw_types::memory::OutOfMemory;
use pgw_types::octets::Octets;
use pgw_types::text::Text;
use pgw_wire::params::Params;
use pgw_wire::secret_key::SecretKey;
use std::alloc::Global;

/// What is described or closed, by its name.
#[derive(Debug, Drop)]
pub enum Target {
    Statement(Option<Text>),
    Portal(Option<Text>),
}

/// What a client asks for.
#[derive(Debug, Drop)]
pub enum Request {
    /// A simple query, which may hold several commands.
    Simple(Text),
    /// A statement's name, its query and the types of its parameters.
    Prepare(Option<Text>, Text, Listed<u32>),
    /// A portal, its statement, the parameters as text, and the formats of the result (none: all text).
    Bind(Option<Text>, Option<Text>, Listed<Option<Octets>>, Listed<i16>),
    /// A portal, and how many rows at most; 0 is all.
    Execute(Option<Text>, i32),
    Describe(Target),
    Close(Target),
    /// A query with the types of its parameters and their values as text.
    Query(Text, Listed<u32>, Listed<Option<Octets>>),
}

// A name, or none where the text is empty.
fn named(alloc: Global, name: &str) -> Result<Option<Text>, OutOfMemory>
    ensures { IfOk result (λ o. o ≡ name_of name.now) }
{
    if name.is_empty() {
        return Ok(None);
    }
    Ok(Some(Text::from_str(alloc, name)?))
}

// A parameter's text as its bytes.
fn parameter_of(alloc: Global, value: Option<&str>) -> Result<Option<Octets>, OutOfMemory>
    ensures { IfOk result (λ o. o ≡ option_copied value.entry) }
{
    match value {
        Some(text) => Ok(Some(Octets::from_slice(alloc, text.as_bytes())?)),
        None => Ok(None),
    }
}

fn parameters_of(
    alloc: Global,
    values: &[Option<&str>],
) -> Result<Listed<Option<Octets>>, OutOfMemory>
    ensures { IfOk result (λ list. list ≡ map option_copied values.now) }
{
    let mut parameters = Listed::new(alloc);
    for value in values {
        parameters.push(parameter_of(alloc, *value)?)?;
    }
    Ok(parameters)
}

/// Requests made of texts. An empty name is none, parameters are texts with None for NULL, their types are left to the
/// server, and every result is asked for as text.
impl Request {
    ghost use Rattle.pgw_session.specs.declared.types.Request.TheVariants as request;

    pub fn simple(alloc: Global, sql: &str) -> Result<Request, OutOfMemory>
        ensures { IfOk result (λ r. r ≡ request.Simple sql.now) }
    {
        Ok(Request::Simple(Text::from_str(alloc, sql)?))
    }

    pub fn prepare(alloc: Global, name: &str, sql: &str) -> Result<Request, OutOfMemory>
        ensures { IfOk result (λ r. r ≡ request.Prepare (name_of name.now) sql.now []) }
    {
        let name = named(alloc, name)?;
        Ok(Request::Prepare(name, Text::from_str(alloc, sql)?, Listed::new(alloc)))
    }

    pub fn bind(
        alloc: Global,
        portal: &str,
        statement: &str,
        parameters: &[Option<&str>],
    ) -> Result<Request, OutOfMemory>
        ensures { IfOk result (λ r. r ≡ request.Bind (name_of portal.now) (name_of statement.now)
            (map option_copied parameters.now) []) }
    {
        let portal = named(alloc, portal)?;
        let statement = named(alloc, statement)?;
        let parameters = parameters_of(alloc, parameters)?;
        Ok(Request::Bind(portal, statement, parameters, Listed::new(alloc)))
    }

    /// So many rows of a portal at most; 0 is all.
    pub fn execute(alloc: Global, portal: &str, rows: i32) -> Result<Request, OutOfMemory>
        ensures { IfOk result (λ r. r ≡ request.Execute (name_of portal.now) rows) }
    {
        Ok(Request::Execute(named(alloc, portal)?, rows))
    }

    pub fn query(
        alloc: Global,
        sql: &str,
        parameters: &[Option<&str>],
    ) -> Result<Request, OutOfMemory>
        ensures { IfOk result (λ r. r ≡ request.Query sql.now []
            (map option_copied parameters.now)) }
    {
        let parameters = parameters_of(alloc, parameters)?;
        Ok(Request::Query(Text::from_str(alloc, sql)?, Listed::new(alloc), parameters))
    }
}

/// What one command of a simple query gave.
#[derive(Debug, Drop)]
pub enum Response {
    EmptyQuery,
    /// The rows of a result, with its columns and its command tag.
    Query(Tag, Listed<FieldInfo>, DataRows),
    /// The tag of a command without rows.
    Execution(Tag),
}

impl Response {
    ghost use Rattle.pgw_session.specs.Responses.{waiting_rows};

    /// The rows of a result, to be read; of any other response, none.
    pub fn into_data_rows_reader(self, alloc: Global) -> DataRowsReader
        ensures { result ≡ waiting_rows self }
    {
        match self {
            Response::EmptyQuery => DataRowsReader::empty(alloc),
            Response::Query(_tag, fields, rows) => DataRowsReader::new(fields, rows),
            Response::Execution(_tag) => DataRowsReader::empty(alloc),
        }
    }
}

/// A statement that was prepared.
#[derive(Debug, Drop)]
pub struct PrepareResponse {
    pub name: Option<Text>,
    pub param_types: Listed<PgType>,
}

impl Duplicate for PrepareResponse {
    fn duplicate(&self) -> Result<PrepareResponse, OutOfMemory> {
        Ok(PrepareResponse {
            name: self.name.duplicate()?,
            param_types: self.param_types.duplicate()?,
        })
    }
}

/// What was described.
#[derive(Debug, Drop)]
pub struct DescribeResponse {
    pub param_types: Listed<PgType>,
    pub fields: Listed<FieldInfo>,
}

/// What came of a portal that was run: all, or up to the number of rows.
#[derive(Debug, Drop)]
pub enum ExecuteResult<T> {
    Complete(T),
    Suspended(T),
}

/// What a request gave.
#[derive(Debug, Drop)]
pub enum Answer {
    Responses(Listed<Response>),
    Prepared(PrepareResponse),
    Bound,
    Executed(ExecuteResult<DataRows>),
    Described(DescribeResponse),
    Closed,
    Rows(DataRows),
    /// The server's error; the connection stays usable.
    Remote(ErrorResponse),
}

/// What a session told.
#[derive(Debug, Drop)]
pub struct SessionReport {
    pub version: ProtocolVersion,
    pub parameters: Params,
    /// The server's process number, or -1 where it sent none.
    pub process_id: i32,
    pub secret_key: SecretKey,
    pub status: TransactionStatus,
    /// One answer for each request, in order.
    pub answers: Listed<Answer>,
}
