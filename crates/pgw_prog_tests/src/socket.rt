//! `connect` over a socket, to a server in another thread, which the cases cannot have.

use pgw_link::memory_stream::{MemorySink, MemorySource};
use pgw_link::socket_dialer::{SocketDialer, Timeouts};
use pgw_prog::program::run_program;
use pgw_types::listed::Listed;
use pgw_types::octets::Octets;
use std::alloc::Global;
use std::io::{Read, Write};
use std::net::TcpListener;
use std::test::Fail;
use std::time::Duration;
use std::{io, thread};

// A login, and one row for a query: 74 bytes.
const SERVER: &[u8] =
    b"R\0\0\0\x08\0\0\0\0Z\0\0\0\x05IT\0\0\0\x1a\0\x01a\0\0\0\0\0\0\0\0\0\0\x17\0\x04\xff\xff\xff\xff\0\0D\0\0\0\x0b\0\x01\0\0\0\x011C\0\0\0\x0dSELECT 1\0Z\0\0\0\x05I";

// The client's startup and query: 32 bytes.
const CLIENT: &[u8] = b"\0\0\0\x12\0\x03\0\0user\0bob\0\0Q\0\0\0\x0dSELECT 1\0";

const REPORT: &[u8] = b"version 3.0
process -1
key i32 00000000
status I
answer 1 responses 1
rows \"SELECT 1\"
field \"a\" 23 0
row 1 0000000131
";

// Answers one client, and says whether it sent what it should.
fn serve(alloc: Global, listener: &TcpListener) -> io::Result<bool> {
    let (mut client, _) = listener.accept()?;
    client.write_all(SERVER)?;
    let mut sent = Vec::new(alloc);
    client.read_to_end(&mut sent)?;
    Ok(sent.as_slice() == CLIENT)
}

// What is written of a query to the server at this port, and the status.
fn connected(rt: &HostRuntime, port: u16) -> Result<(Vec<u8>, u8), Fail> {
    let alloc = rt.alloc();
    let words = [
        String::from_str(alloc, "connect")?,
        format!(in alloc; "user=bob host=127.0.0.1 port={port}")?,
        String::from_str(alloc, "1000")?,
        String::from_str(alloc, "SELECT 1")?,
    ];
    let limit = Some(Duration::from_secs(10));
    let timeouts = Timeouts {
        connect: limit,
        read: limit,
        write: limit,
    };
    let mut dialer = SocketDialer::new(rt, timeouts);
    let mut input = MemorySource::new(Octets::from_slice(alloc, b"")?, 1, Listed::new(alloc));
    let mut output = MemorySink::new(alloc, 100, Listed::new(alloc));
    let status = run_program(
        alloc,
        &words,
        &mut input,
        &mut output,
        &mut dialer,
        &[0; 18],
        &[0; 32],
    );
    Ok((output.written().to_vec(alloc)?, status))
}

#[test]
fn connect_over_a_socket(rt: HostRuntime) -> Result<(), Fail> {
    let alloc = rt.alloc();
    let listener = TcpListener::bind(&rt, "127.0.0.1:0")?;
    let port = listener.local_addr()?.port();
    let server = thread::spawn(&rt, move || serve(alloc, &listener))?;
    let (printed, status) = connected(&rt, port)?;
    assert_eq!(rt; printed.as_slice(), REPORT);
    assert_eq!(rt; status, 0);
    assert!(rt; server.join(&rt)?);
    // Nobody listens there any more.
    let (printed, status) = connected(&rt, port)?;
    assert_eq!(rt; printed.as_slice(), b"error IoError\n".as_slice());
    assert_eq!(rt; status, 1);
    Ok(())
}
