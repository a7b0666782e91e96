//! A client as a value: one call for each request.

use pgw_client::{
    Config, DataRows, Dialer, ErrorResponse, ExecuteResult, FromSql, FromSqlText, Link, Listed,
    Octets, PgWireClientError, PgWireClientResult, Response, Text,
};
use pgw_client_calls::{ExtendedQueryClient, PgWireClient};
use pgw_handlers_default::{
    DefaultExtendedQueryHandler, DefaultSimpleQueryHandler, DefaultStartupHandler,
};
use std::alloc::Global;

/// What a visit to a server came to.
#[derive(Debug, Drop)]
pub struct Visit {
    /// The number that the first query gave, and the text of the second.
    pub number: Option<i32>,
    pub text: Option<Text>,
    /// How many rows each part of the prepared statement had.
    pub parts: Listed<u64>,
    /// The server's error to a query that names no column.
    pub refused: Option<ErrorResponse>,
    /// The number that a query behind that error gave.
    pub again: Option<i32>,
}

// The first value of a query's first result.
fn first_value<T: FromSql + FromSqlText>(
    alloc: Global,
    responses: Listed<Response>,
) -> PgWireClientResult<Option<T>> {
    for response in responses.into_vec() {
        let mut rows = response.into_data_rows_reader(alloc);
        if let Some(mut row) = rows.next_row() {
            return Ok(row.next_value::<T>(alloc)?);
        }
    }
    Ok(None)
}

fn ask<L: Link>(
    alloc: Global,
    client: &mut PgWireClient<L>,
    sql: &str,
) -> PgWireClientResult<Listed<Response>> {
    client.simple_query(DefaultSimpleQueryHandler::new(alloc), sql)
}

// The server's error to a query, if it has one. The client goes on behind it.
fn refusal<L: Link>(
    alloc: Global,
    client: &mut PgWireClient<L>,
    sql: &str,
) -> PgWireClientResult<Option<ErrorResponse>> {
    match ask(alloc, client, sql) {
        Ok(_responses) => Ok(None),
        Err(PgWireClientError::RemoteError(error)) => Ok(Some(error)),
        Err(error) => Err(error),
    }
}

type Statements<'a, L> = ExtendedQueryClient<'a, L, DefaultExtendedQueryHandler>;

// Prepares a statement, and binds its one value.
fn bind_one<L: Link>(
    alloc: Global,
    statements: &mut Statements<'_, L>,
    sql: &str,
    value: &str,
) -> PgWireClientResult<()> {
    statements.prepare(None, sql, &[])?;
    let mut parameters = Listed::new(alloc);
    parameters.push(Some(Octets::from_slice(alloc, value.as_bytes())?))?;
    statements.bind(None, None, parameters, Listed::new(alloc))
}

// How many rows came in a part, and whether it is the last.
fn part(executed: ExecuteResult<DataRows>) -> (u64, bool) {
    match executed {
        ExecuteResult::Suspended(rows) => (rows.len() as u64, false),
        ExecuteResult::Complete(rows) => (rows.len() as u64, true),
    }
}

// How many rows come in each part, so many at a time.
fn parts_of<L: Link>(
    alloc: Global,
    statements: &mut Statements<'_, L>,
    most: i32,
) -> PgWireClientResult<Listed<u64>> {
    let mut parts = Listed::new(alloc);
    for _ in 0..u64::MAX {
        let (rows, is_last) = part(statements.execute(None, most)?);
        parts.push(rows)?;
        if is_last {
            break;
        }
    }
    Ok(parts)
}

// Takes the rows of a prepared statement with one value so many at a time; gives how many came in each part.
fn in_parts<L: Link>(
    alloc: Global,
    client: &mut PgWireClient<L>,
    sql: &str,
    value: &str,
    most: i32,
) -> PgWireClientResult<Listed<u64>> {
    let mut handler = DefaultExtendedQueryHandler::new();
    let mut statements = client.extended_query(&mut handler);
    bind_one(alloc, &mut statements, sql, value)?;
    parts_of(alloc, &mut statements, most)
}

// The number that a query gave.
fn number<L: Link>(
    alloc: Global,
    client: &mut PgWireClient<L>,
    sql: &str,
) -> PgWireClientResult<Option<i32>> {
    first_value(alloc, ask(alloc, client, sql)?)
}

// Asks two queries, takes the rows of a prepared statement two at a time, asks what the server refuses, and asks once
// more.
fn ask_all<L: Link>(
    alloc: Global,
    client: &mut PgWireClient<L>,
    visit: &mut Visit,
) -> PgWireClientResult<()> {
    visit.number = number(alloc, client, "SELECT 7")?;
    visit.text = first_value(alloc, ask(alloc, client, "SELECT 'seven'::text")?)?;
    let sql = "SELECT n FROM generate_series(1, $1::int) AS n";
    visit.parts = in_parts(alloc, client, sql, "5", 2)?;
    visit.refused = refusal(alloc, client, "SELECT no_such_column")?;
    visit.again = number(alloc, client, "SELECT 8")?;
    Ok(())
}

// Visits over a client.
fn visit_by<L: Link>(alloc: Global, client: &mut PgWireClient<L>) -> PgWireClientResult<Visit> {
    let mut visit = Visit {
        number: None,
        text: None,
        parts: Listed::new(alloc),
        refused: None,
        again: None,
    };
    ask_all(alloc, client, &mut visit)?;
    Ok(visit)
}

/// Connects, asks, and ends the session, whatever came of it.
pub fn visit_server<D: Dialer>(
    alloc: Global,
    dialer: &mut D,
    config: Config,
    nonce: &[u8; 18],
    limit: u64,
) -> PgWireClientResult<Visit> {
    let handler = DefaultStartupHandler::new(*nonce);
    let mut client = PgWireClient::connect(alloc, config, handler, dialer, limit)?;
    let visit = visit_by(alloc, &mut client);
    client.close(dialer)?;
    visit
}
