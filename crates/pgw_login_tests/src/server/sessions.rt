//! Whole logins of a client's session at a server's core: each is given what the other says.

use crate::server::servers::{Asks, compare, server_says};
use bytes::BytesMut;
use pgw_client::{Config, Listed, MemoryLink, Octets, OutOfMemory, run_session};
use std::alloc::Global;
use std::process::Abort;
use std::test::Fail;

fn link_of(alloc: Global, server: &[u8]) -> Result<MemoryLink, OutOfMemory> {
    let server = Octets::from_slice(alloc, server)?;
    Ok(MemoryLink::new(alloc, server, 7, Listed::new(alloc), Listed::new(alloc)))
}

// Whether a session over the link is done.
fn is_done(alloc: Global, link: &mut MemoryLink, config: &Config) -> bool {
    let answer = run_session(alloc, link, config, &[], &[0; 18], 10_000);
    let is_done = answer.is_ok();
    drop(answer);
    is_done
}

// What a session writes to a server that says this, and whether it was done.
fn client_says(
    alloc: Global,
    config: &Config,
    server: &BytesMut,
) -> Result<(Vec<u8>, bool), OutOfMemory> {
    let mut link = link_of(alloc, server.as_slice())?;
    let is_done = is_done(alloc, &mut link, config);
    let written = link.written().to_vec(alloc);
    drop(link);
    Ok((written?, is_done))
}

// What the server says to a session that hears this.
fn replied<R: Abort>(
    rt: &R,
    alloc: Global,
    asks: Asks,
    config: &Config,
    cut: usize,
    server: &BytesMut,
) -> Result<BytesMut, OutOfMemory> {
    let (client, _) = client_says(alloc, config, server)?;
    Ok(server_says(rt, alloc, asks, client.as_slice(), cut)?.out)
}

// What the server says in the end, where each begins anew with all that the other has said, four times.
fn talked<R: Abort>(
    rt: &R,
    alloc: Global,
    asks: Asks,
    config: &Config,
    cut: usize,
) -> Result<BytesMut, OutOfMemory> {
    let mut server = BytesMut::new(alloc);
    for _ in 0..4 {
        server = replied(rt, alloc, asks, config, cut, &server)?;
    }
    Ok(server)
}

// The session that hears this server is done and says what it is to say.
fn check_client<R: Abort>(
    rt: &R,
    alloc: Global,
    config: &Config,
    server: &BytesMut,
    want: &[u8],
) -> Result<(), OutOfMemory> {
    let (client, is_done) = client_says(alloc, config, server)?;
    assert_eq!(rt; (is_done, client.as_slice()), (true, want));
    Ok(())
}

// The client that hears this server is done and says what it is to say, and the server that hears it says this and is
// finished.
fn check_both<R: Abort>(
    rt: &R,
    alloc: Global,
    asks: Asks,
    config: &Config,
    cut: usize,
    server: &BytesMut,
    want: &[u8],
) -> Result<(), OutOfMemory> {
    check_client(rt, alloc, config, server, want)?;
    let said = server_says(rt, alloc, asks, want, cut)?;
    compare(rt, &said, "finished", server.as_slice(), cut);
    Ok(())
}

// Checks both by what the server says in the end.
fn agree<R: Abort>(
    rt: &R,
    alloc: Global,
    asks: Asks,
    config: &Config,
    cut: usize,
    want: &[u8],
) -> Result<(), OutOfMemory> {
    let server = talked(rt, alloc, asks, config, cut)?;
    check_both(rt, alloc, asks, config, cut, &server, want)
}

// As `agree`, however the client's bytes are cut.
fn agree_by<R: Abort>(
    rt: &R,
    alloc: Global,
    asks: Asks,
    config: &Config,
    want: &[u8],
) -> Result<(), OutOfMemory> {
    for cut in [1, 7, 1000] {
        agree(rt, alloc, asks, config, cut, want)?;
    }
    Ok(())
}

// MD5 password and salt: the worked exchange of the documentation's formula. SCRAM: computed with Python's hashlib by
// the formulas of RFC 5802.
const SESSIONS: &[(Asks, &str, &[u8])] = &[
    (
        Asks::Cleartext,
        "user=bob password=secret",
        b"\0\0\0\x12\0\x03\0\0user\0bob\0\0p\0\0\0\x0bsecret\0",
    ),
    (
        Asks::Md5,
        "user=zmjiang password=themanwhochangedchina",
        b"\0\0\0\x16\0\x03\0\0user\0zmjiang\0\0p\0\0\0\x28md521fe459d77d3e3ea9c9fcd5c11030d30\0",
    ),
    (
        Asks::Scram,
        "user=bob password=pencil",
        b"\0\0\0\x12\0\x03\0\0user\0bob\0\0p\0\0\0\x39SCRAM-SHA-256\0\0\0\0\x23n,,n=bob,r=AAAAAAAAAAAAAAAAAAAAAAAAp\0\0\0\x6cc=biws,r=AAAAAAAAAAAAAAAAAAAAAAAABwcHBwcHBwcHBwcHBwcHBwcH,p=n1VgT25XHwVm6sZ2+FOk/xU9ha8fQMg8oIejHRXoAqY=",
    ),
    (
        Asks::Stored,
        "user=bob password=pencil",
        b"\0\0\0\x12\0\x03\0\0user\0bob\0\0p\0\0\0\x39SCRAM-SHA-256\0\0\0\0\x23n,,n=bob,r=AAAAAAAAAAAAAAAAAAAAAAAAp\0\0\0\x6cc=biws,r=AAAAAAAAAAAAAAAAAAAAAAAABwcHBwcHBwcHBwcHBwcHBwcH,p=n1VgT25XHwVm6sZ2+FOk/xU9ha8fQMg8oIejHRXoAqY=",
    ),
];

#[test]
fn sessions_log_in(rt: HostRuntime) -> Result<(), Fail> {
    for (asks, text, want) in SESSIONS {
        let config = Config::parse(rt.alloc(), text)?;
        let agreed = agree_by(&rt, rt.alloc(), *asks, &config, want);
        drop(config);
        agreed?;
    }
    Ok(())
}
