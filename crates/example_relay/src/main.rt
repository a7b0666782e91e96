//! A recording proxy between clients and a server, over sockets.
//!
//! `example_relay LISTEN SERVER COUNT RECORDS` prints `waiting at ADDRESS`, waits for COUNT connections at the address
//! LISTEN (a client's request to cancel is one), connects each to the server at the address SERVER, passes on what either
//! side sends, and writes the record of each connection to a file RECORDS.N, counted from 1, over one that is there
//! already. An address is HOST:PORT; port 0 of LISTEN is one that is free. Each connection has two threads, one a
//! direction, which share a `Proxy` under a lock. Where a proxy stops, no connection to the server is made, or the record
//! cannot be written, both connections are ended and standard error says why. At the end the status is 0.
//!
//! A record is written each time it has 65536 bytes, and at the connection's end; where the program is killed, the rest
//! is lost.
//!
//! `example_relay SERVER RECORD` sends the client's messages of a record to a server, and says whether the server
//! answers as it did then: it prints how many messages are as they were, with status 0, or
//! `the server's message N is another`.
#![tactic(auto)]

mod connection;
mod replay;

use crate::connection::serve;
use crate::replay::replay;
use anyhow::Result;
use std::net::TcpListener;
use std::process::ExitCode;
use std::{env, io, thread};

const USAGE: &str = "example_relay LISTEN SERVER COUNT RECORDS, or example_relay SERVER RECORD";

fn words(rt: &HostRuntime) -> io::Result<Vec<String>> {
    let mut words = Vec::new(rt.alloc());
    for word in env::args(rt)?.skip(1) {
        words.push(word)?;
    }
    Ok(words)
}

fn usage(rt: &HostRuntime, status: ExitCode) -> Result<ExitCode> {
    println!(rt; "{USAGE}")?;
    Ok(status)
}

fn main(rt: HostRuntime) -> Result<ExitCode> {
    let words = words(&rt)?;
    match words.as_slice() {
        [listen, server, count, records] => {
            let Ok(count) = count.as_str().parse::<u32>() else {
                return usage(&rt, ExitCode::FAILURE);
            };
            let listener = TcpListener::bind(&rt, listen.as_str())?;
            let at = listener.local_addr()?;
            println!(&rt; "waiting at {at}")?;
            let (host, server, records) = (&rt, server.as_str(), records.as_str());
            thread::scope(thread::scope_env(), host, |scope| {
                for number in 1..=count {
                    let Ok((client, _)) = listener.accept() else {
                        return;
                    };
                    let served = scope.spawn(move || serve(host, client, server, records, number));
                    if served.is_err() {
                        return;
                    }
                }
            });
            Ok(ExitCode::SUCCESS)
        }
        [server, record] => {
            let count = replay(&rt, server.as_str(), record.as_str())?;
            println!(&rt; "{count} messages, as they were recorded")?;
            Ok(ExitCode::SUCCESS)
        }
        [] => usage(&rt, ExitCode::SUCCESS),
        [help] if help.as_str() == "--help" => usage(&rt, ExitCode::SUCCESS),
        _ => usage(&rt, ExitCode::FAILURE),
    }
}
