//! A caller of a client as a value, to begin from: it visits a server and prints what came of it.
//!
//! With a word, a connection text, it visits that server over sockets; without one a server whose bytes stand in
//! `server`, over a link in memory.
#![tactic(auto)]

mod guest;
mod server;

use crate::guest::{Visit, visit_server};
use crate::server::SERVER;
use anyhow::{Context, Result};
use pgw_client::{Config, Listed, MemoryDialer, MemoryLink, Octets, SocketDialer, Timeouts};
use rand::RngExt;
use rand::rngs::StdRng;
use std::alloc::Global;
use std::{env, io};

// The most bytes that are read of a server.
const LIMIT: u64 = 1_000_000;

// A dialer with one link, to the server whose bytes stand here.
fn memory_dialer(alloc: Global) -> Result<MemoryDialer> {
    let mut bytes = Vec::new(alloc);
    for message in SERVER {
        bytes.extend_from_slice(&hex::decode(alloc, message)?)?;
    }
    let mut links = Listed::new(alloc);
    links.push(MemoryLink::new(
        alloc,
        Octets::from_slice(alloc, &bytes)?,
        1000,
        Listed::new(alloc),
        Listed::new(alloc),
    ))?;
    Ok(MemoryDialer::new(links, Listed::new(alloc)))
}

fn in_memory(alloc: Global) -> Result<Visit> {
    let config = Config::parse(alloc, "host=memory user=bob")?;
    let mut dialer = memory_dialer(alloc)?;
    Ok(visit_server(alloc, &mut dialer, config, &[0; 18], LIMIT)?)
}

fn over_sockets(rt: &HostRuntime, text: &str) -> Result<Visit> {
    let alloc = rt.alloc();
    let config = Config::parse(alloc, text)?;
    let rng: io::Result<StdRng> = rand::make_rng(rt);
    let nonce: [u8; 18] = rng?.random();
    let mut dialer = SocketDialer::new(rt, Timeouts::NONE);
    Ok(visit_server(alloc, &mut dialer, config, &nonce, LIMIT)?)
}

fn print(rt: &HostRuntime, visit: &Visit) -> Result<()> {
    let number = visit.number.context("no number")?;
    let text = visit.text.as_ref().context("no text")?;
    let parts = visit.parts.as_slice();
    let again = visit.again.context("no number behind the error")?;
    println!(rt; "number {number}")?;
    println!(rt; "text {text}")?;
    println!(rt; "rows in parts {parts:?}")?;
    match &visit.refused {
        Some(error) => println!(rt; "refused: {error}")?,
        None => println!(rt; "not refused")?,
    }
    println!(rt; "number {again}")?;
    Ok(())
}

fn main(rt: HostRuntime) -> Result<()> {
    let visit = match env::args(&rt)?.nth(1) {
        Some(text) => over_sockets(&rt, text.as_str())?,
        None => in_memory(rt.alloc())?,
    };
    print(&rt, &visit)
}
