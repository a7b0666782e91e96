//! A web server whose pages are rows of PostgreSQL, as an example to copy.
//!
//! `example_web LISTEN TEXT` takes HTTP connections at the address LISTEN, prints `serving at http://ADDRESS`, and
//! answers `/numbers?n=3` with three rows of the server of a connection text, as JSON, a line each. It serves until it
//! is killed, on one thread.
//!
//! Any other request is answered by 404 or 400, and one more than there are places for by 503. Where the server can't
//! be asked the answer is 502, and standard error says why; where it refuses the query, as that for 50,000 rows, whose
//! squares are too large, the answer is 500 with its SQLSTATE.
#![tactic(auto)]

mod clients;
mod numbers;

use crate::clients::{Clients, Host};
use crate::numbers::Numbers;
use anyhow::{Context, Result, bail};
use futures::{FutureExt, StreamExt, future};
use hyper::rt::TokioTimer;
use hyper::server::conn::http1::Builder;
use pgw_client::{Address, Config};
use std::alloc::AllocGlobal;
use std::env;
use std::hash::RandomState;
use std::io::Print;
use std::net::{Net, SocketAddr, ToSocketAddrs};
use std::process::ExitCode;
use std::rc::Rc;
use std::sync::Wait;
use tokio::net::TcpListener;
use tokio::runtime::{Handle, LocalRuntime};

fn first_address<R: Net, A: ToSocketAddrs>(rt: &R, name: A) -> Result<SocketAddr> {
    name.to_socket_addrs(rt)?
        .next()
        .context("the name has no address")
}

// The address of the server that a configuration names.
fn server_of<R: Net + AllocGlobal>(rt: &R, config: &Config) -> Result<SocketAddr> {
    match config.address(rt.alloc())? {
        Address::Host(name, port) => first_address(rt, (name.as_str(), port)),
        Address::Ip(..) | Address::Unix(_) => bail!("the server is to be named by host=NAME"),
    }
}

// What answers requests, over clients of the server of a connection text.
fn numbers_of<R: Host>(rt: R, handle: &Handle, text: &str) -> Result<Numbers<R>> {
    let config = Config::parse(rt.alloc(), text)?;
    let server = server_of(&rt, &config)?;
    let clients = Clients::new(rt, handle.clone()?, server, config)?;
    Ok(Numbers::new(rt, Rc::new(rt.alloc(), clients)?))
}

fn listen_at<R: Host>(rt: &R, handle: &Handle, listen: &str) -> Result<TcpListener> {
    let address = first_address(rt, listen)?;
    Ok(TcpListener::bind(rt, address, handle.reactor())?)
}

fn http_of<R: Host>(rt: R, handle: &Handle) -> Result<Builder<TokioTimer<R>>> {
    let timer = TokioTimer::new(rt, handle.time().clone()?);
    Ok(Builder::new(rt.alloc(), RandomState::new(&rt)?).timer(timer))
}

fn serve<R: Host + Wait + Print>(rt: R, listen: &str, text: &str) -> Result<()> {
    let mut runtime = LocalRuntime::new(&rt)?;
    let handle = runtime.handle();
    let http = http_of(rt, handle)?;
    let service = numbers_of(rt, handle, text)?;
    let listener = listen_at(&rt, handle, listen)?;
    println!(rt; "serving at http://{}", listener.local_addr()?)?;
    let connections = listener
        .incoming()
        .filter_map(move |accepted| {
            let socket = accepted.ok();
            future::ready(socket.and_then(|socket| Some((socket, service.clone().ok()?))))
        })
        .map(move |(socket, service)| http.serve_connection(socket, service).map(|_| ()));
    runtime.run_all(&rt, connections)?;
    Ok(())
}

fn main(rt: HostRuntime) -> Result<ExitCode> {
    let mut words = env::args(&rt)?.skip(1);
    let (Some(listen), Some(text)) = (words.next(), words.next()) else {
        println!(rt; "example_web LISTEN TEXT")?;
        return Ok(ExitCode::SUCCESS);
    };
    serve(rt, listen.as_str(), text.as_str())?;
    Ok(ExitCode::SUCCESS)
}
