//! The nonces of the program's logins, over a socket to a server in another thread.

use pgw_prog::start::run;
use std::io::{Read, Write};
use std::net::TcpListener;
use std::test::Fail;
use std::{io, thread};

// AuthenticationSASL with SCRAM-SHA-256.
const ASKS: &[u8; 24] = b"R\0\0\0\x17\0\0\0\x0aSCRAM-SHA-256\0\0";

// Asks one client for a login, and gives the nonce of its first message, which ends with it.
fn nonce_of_next(listener: &TcpListener) -> io::Result<[u8; 24]> {
    let (mut client, _) = listener.accept()?;
    let mut startup = [0; 18];
    client.read_exact(&mut startup)?;
    client.write_all(ASKS)?;
    let mut answer = [0; 55];
    client.read_exact(&mut answer)?;
    let mut nonce = [0; 24];
    nonce.copy_from_slice(&answer[31..]);
    Ok(nonce)
}

// Whether the nonces of two clients differ.
fn differ(listener: &TcpListener) -> io::Result<bool> {
    let first = nonce_of_next(listener)?;
    let second = nonce_of_next(listener)?;
    Ok(first != second)
}

#[test]
fn nonces_differ(rt: HostRuntime) -> Result<(), Fail> {
    let alloc = rt.alloc();
    let listener = TcpListener::bind(&rt, "127.0.0.1:0")?;
    let port = listener.local_addr()?.port();
    let server = thread::spawn(&rt, move || differ(&listener))?;
    let words = [
        String::from_str(alloc, "connect")?,
        format!(in alloc; "user=bob password=x host=127.0.0.1 port={port}")?,
        String::from_str(alloc, "1000")?,
        String::from_str(alloc, "SELECT 1")?,
    ];
    // The server goes away in the middle of each login.
    assert_eq!(rt; run(&rt, &words), 1);
    assert_eq!(rt; run(&rt, &words), 1);
    assert!(rt; server.join(&rt)?);
    Ok(())
}
