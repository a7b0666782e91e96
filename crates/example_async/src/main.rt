//! An asynchronous client of a PostgreSQL server, as an example to copy.
//!
//! It logs in, asks two queries one after the other, and prints their rows and errors. So that it needs no network, its
//! stream is one in memory, at whose other end a thread plays a server (`server.rt`). Over TCP a stream is what
//! `pgw_tokio::connect` gives.
#![tactic(auto)]

mod server;

use crate::server::serve;
use anyhow::{Context, Result, bail};
use futures::executor::block_on;
use pgw_client::{Answer, Config, DataRowsReader, ErrorInfo, Listed, Response, Text};
use pgw_tokio::{Answered, AsyncClient, log_in};
use rand::RngExt;
use rand::rngs::StdRng;
use std::alloc::{AllocGlobal, Global};
use std::io::{self, Print};
use std::random::RandomSource;
use std::sync::Wait;
use std::thread;
use tokio::io::{DuplexStream, duplex};

type Client = AsyncClient<DuplexStream>;

// The most bytes that are read of the server.
const LIMIT: u64 = 1_000_000;

fn connected<R>(rt: &R, stream: DuplexStream, nonce: &[u8; 18]) -> Result<Client>
where
    R: Wait + RandomSource + AllocGlobal,
{
    let config = Config::parse(rt.alloc(), "user=bob")?;
    let Ok(logging_in) = log_in(rt.alloc(), stream, config, nonce, LIMIT) else {
        bail!("nothing was begun");
    };
    match block_on(rt, logging_in)? {
        Ok(client) => Ok(client),
        Err(refused) => Err(refused.error.into()),
    }
}

// Prints the first column of each row as a number.
fn print_rows(rt: &impl Print, alloc: Global, mut rows: DataRowsReader) -> Result<()> {
    for _ in 0..u64::MAX {
        let Some(mut row) = rows.next_row() else {
            break
        };
        let number: i32 = row.next_value(alloc)?.context("NULL")?;
        println!(rt; "number {number}")?;
    }
    Ok(())
}

fn print_responses(rt: &impl Print, alloc: Global, responses: Listed<Response>) -> Result<()> {
    for response in responses.into_vec() {
        match response {
            Response::Query(_tag, fields, rows) => {
                print_rows(rt, alloc, DataRowsReader::new(fields, rows))?;
            }
            Response::Execution(_tag) => {}
            Response::EmptyQuery => {}
        }
    }
    Ok(())
}

// Asks a query, prints what it gave, and gives the client back.
fn ask<R>(rt: &R, client: Client, query: &str) -> Result<Client>
where
    R: Wait + RandomSource + AllocGlobal + Print,
{
    let alloc = rt.alloc();
    let query = Text::from_str(alloc, query)?;
    let Answered { client, answer } = block_on(rt, client.simple_query(query))?;
    match answer? {
        Answer::Responses(responses) => print_responses(rt, alloc, responses)?,
        Answer::Remote(error) => {
            let error = ErrorInfo::from_fields(error.fields);
            println!(rt; "refused: {}", error.code)?;
        }
        _ => bail!("no answer of a simple query"),
    }
    Ok(client)
}

fn use_client<R>(rt: &R, stream: DuplexStream, nonce: &[u8; 18]) -> Result<()>
where
    R: Wait + RandomSource + AllocGlobal + Print,
{
    let client = connected(rt, stream, nonce)?;
    let client = ask(rt, client, "SELECT 1/0")?;
    let client = ask(rt, client, "SELECT n FROM generate_series(1, 2) AS n")?;
    block_on(rt, client.close())?.result?;
    Ok(())
}

fn nonce(rt: &HostRuntime) -> io::Result<[u8; 18]> {
    let rng: io::Result<StdRng> = rand::make_rng(rt);
    Ok(rng?.random())
}

fn main(rt: HostRuntime) -> Result<()> {
    let nonce = nonce(&rt)?;
    let (near, far) = duplex(rt.alloc(), 64)?;
    let rt = &rt;
    let (served, used) = thread::join(
        rt,
        move || serve(rt, far),
        move || use_client(rt, near, &nonce),
    );
    used?;
    served?;
    Ok(())
}
