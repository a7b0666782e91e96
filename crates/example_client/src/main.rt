//! A client of a PostgreSQL server, as an example to copy.
//!
//! `example_client TEXT` connects to the server of a connection text, prepares a statement, binds
//! values to it and reads its rows by the names of their columns, goes on behind an error of the
//! server's, cancels a query from a second thread, and closes.
#![tactic(auto)]

use anyhow::{Context, Result, bail};
use pgw_client::{
    ClientSocket, Config, DataRowDecoder, DataRowsReader, ErrorInfo, ExecuteResult, FromSql,
    FromSqlText, Listed, Parameters, PgType, PgWireClientError, PgWireClientResult, Response,
    SocketDialer, Text, Timeouts,
};
use pgw_client_ask::column;
use pgw_client_calls::{DescribeTarget, PgWireClient};
use pgw_handlers_default::{
    DefaultExtendedQueryHandler, DefaultSimpleQueryHandler, DefaultStartupHandler,
};
use rand::RngExt;
use rand::rngs::StdRng;
use std::alloc::Global;
use std::io::{Eprint, Print};
use std::net::{Net, TcpListener, TcpStream};
use std::thread::Threads;
use std::time::{Clock, Duration};
use std::{env, io, thread};

type Client = PgWireClient<ClientSocket>;

// The most bytes that are read of the server.
const LIMIT: u64 = 1_000_000;

// The name of the prepared statement.
const NAME: Option<&str> = Some("herons");

const QUERY: &str = "SELECT n AS number, $2 || n AS label FROM generate_series(1, $1) AS n";

fn prepare(client: &mut Client) -> Result<()> {
    let types = [PgType::Int4.oid(), PgType::Text.oid()];
    let mut handler = DefaultExtendedQueryHandler::new();
    let mut statements = client.extended_query(&mut handler);
    statements.prepare(NAME, QUERY, &types)?;
    Ok(())
}

// Binds values to the statement, and gives all its rows with their columns.
fn rows(alloc: Global, client: &mut Client, count: i32, label: &str) -> Result<DataRowsReader> {
    let mut values = Parameters::new(alloc);
    values.push_text(alloc, &count)?;
    values.push_text(alloc, &label)?;
    let values = values.into_values(alloc)?;
    let mut handler = DefaultExtendedQueryHandler::new();
    let mut statements = client.extended_query(&mut handler);
    statements.bind(None, NAME, values, Listed::new(alloc))?;
    let columns = statements.describe(DescribeTarget::Portal(None))?.fields;
    match statements.execute(None, 0)? {
        ExecuteResult::Complete(rows) => Ok(DataRowsReader::new(columns, rows)),
        ExecuteResult::Suspended(_) => bail!("the server holds rows back"),
    }
}

// The value at a place of a row. The row is a copy that stands at the first value.
fn value<T: FromSql + FromSqlText>(
    alloc: Global,
    mut row: DataRowDecoder<'_>,
    place: usize,
) -> Result<T> {
    for _ in 0..place {
        row.next_raw()?;
    }
    row.next_value(alloc)?.context("NULL")
}

fn print_rows(rt: &impl Print, alloc: Global, mut rows: DataRowsReader) -> Result<()> {
    let label = column(rows.fields(), "label").context("no column label")?;
    let number = column(rows.fields(), "number").context("no column number")?;
    for _ in 0..u64::MAX {
        let Some(row) = rows.next_row() else { break };
        let label: Text = value(alloc, row, label)?;
        let number: i32 = value(alloc, row, number)?;
        println!(rt; "label {label}, number {number}")?;
    }
    Ok(())
}

fn ask(alloc: Global, client: &mut Client, sql: &str) -> PgWireClientResult<Listed<Response>> {
    client.simple_query(DefaultSimpleQueryHandler::new(alloc), sql)
}

// Why the server refuses a query, by its SQLSTATE. The client goes on behind such an error.
fn refusal(answer: PgWireClientResult<Listed<Response>>) -> Result<&'static str> {
    let error = match answer {
        Ok(_) => bail!("the server does not refuse the query"),
        Err(PgWireClientError::RemoteError(error)) => ErrorInfo::from_fields(error.fields),
        Err(error) => return Err(error.into()),
    };
    match error.code.as_str() {
        "22012" => Ok("division by zero"),
        "57014" => Ok("canceled"),
        code => bail!("{code}: {}", error.message),
    }
}

// Asks a query, which a second thread cancels a second later: all that it has of the client is a token.
fn cancel<R>(rt: &R, alloc: Global, client: &mut Client, sql: &str) -> Result<&'static str>
where
    R: Threads + Sync + Clock + Eprint + Net<Listener = TcpListener, Stream = TcpStream>,
{
    let token = client.cancel_token()?;
    let (sent, answer) = thread::join(
        rt,
        move || {
            thread::sleep(rt, Duration::from_secs(1));
            token.cancel(&mut SocketDialer::new(rt, Timeouts::NONE))
        },
        || ask(alloc, client, sql),
    );
    sent?;
    refusal(answer)
}

fn use_client<R>(rt: &R, alloc: Global, client: &mut Client) -> Result<()>
where
    R: Threads + Sync + Clock + Print + Eprint + Net<Listener = TcpListener, Stream = TcpStream>,
{
    prepare(client)?;
    print_rows(rt, alloc, rows(alloc, client, 3, "heron ")?)?;
    println!(rt; "refused: {}", refusal(ask(alloc, client, "SELECT 1 / 0"))?)?;
    println!(rt;
        "refused: {}",
        cancel(rt, alloc, client, "SELECT pg_sleep(60)")?
    )?;
    print_rows(rt, alloc, rows(alloc, client, 1, "teal ")?)
}

fn nonce(rt: &HostRuntime) -> io::Result<[u8; 18]> {
    let rng: io::Result<StdRng> = rand::make_rng(rt);
    Ok(rng?.random())
}

fn main(rt: HostRuntime) -> Result<()> {
    let alloc = rt.alloc();
    let Some(text) = env::args(&rt)?.nth(1) else {
        println!(rt; "example_client TEXT")?;
        return Ok(());
    };
    let config = Config::parse(alloc, text.as_str())?;
    let handler = DefaultStartupHandler::new(nonce(&rt)?);
    let mut dialer = SocketDialer::new(&rt, Timeouts::NONE);
    let mut client = PgWireClient::connect(alloc, config, handler, &mut dialer, LIMIT)?;
    let used = use_client(&rt, alloc, &mut client);
    client.close(&mut dialer)?;
    used
}
