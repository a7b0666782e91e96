//! Sessions of any size over links of their own.

use pgw_backend::client_error::{PgWireClientError, PgWireClientResult};
use pgw_link::link::Link;
use pgw_link::memory::MemoryLink;
use pgw_link::stream_link::StreamLink;
use pgw_prog::gen_session::gen_session;
use pgw_prog_sessions::stream::stream;
use pgw_prog_sessions::summary::GenSummary;
use pgw_types::listed::Listed;
use pgw_types::octets::Octets;
use std::alloc::Global;
use std::io;
use std::io::{Read, Write};
use std::net::{TcpListener, TcpStream};
use std::os::unix::net::UnixStream;
use std::test::Fail;

// A login, and one row for a query: 74 bytes.
const SERVER: &[u8] =
    b"R\0\0\0\x08\0\0\0\0Z\0\0\0\x05IT\0\0\0\x1a\0\x01a\0\0\0\0\0\0\0\0\0\0\x17\0\x04\xff\xff\xff\xff\0\0D\0\0\0\x0b\0\x01\0\0\0\x011C\0\0\0\x0dSELECT 1\0Z\0\0\0\x05I";

// The client's startup and query.
const CLIENT: &[u8] = b"\0\0\0\x12\0\x03\0\0user\0gen\0\0Q\0\0\0\x0dSELECT n\0";

// SHA-256 of the row's five bytes, by sha256sum.
const ONE_ROW: Held = Held::Rows(
    1,
    [
        0x86, 0xe1, 0xb5, 0xd0, 0xcd, 0x65, 0xe7, 0x68, 0x1e, 0xe2, 0x85, 0xf0, 0x8a, 0x12, 0x93,
        0x3f, 0xc3, 0x59, 0xe9, 0x02, 0xc6, 0x92, 0x3b, 0x7a, 0x51, 0xe7, 0x7c, 0x8f, 0x51, 0x10,
        0x20, 0xd0,
    ],
);

// What a session came to.
#[derive(Clone, Copy, Debug, PartialEq, Eq)]
enum Held {
    Rows(u64, [u8; 32]),
    ReadLimit,
    Ended,
    Other,
}

fn told(held: &PgWireClientResult<GenSummary>) -> Held {
    match held {
        Ok(summary) => Held::Rows(summary.rows, summary.digest),
        Err(PgWireClientError::ReadLimit) => Held::ReadLimit,
        Err(PgWireClientError::UnexpectedEOF) => Held::Ended,
        Err(_) => Held::Other,
    }
}

fn over<L: Link>(alloc: Global, link: &mut L, limit: u64) -> Held {
    let held = gen_session(alloc, link, &[0; 18], limit);
    let is = told(&held);
    drop(held);
    is
}

fn over_bytes(alloc: Global, server: &[u8], limit: u64) -> Result<Held, Fail> {
    let server = Octets::from_slice(alloc, server)?;
    let mut link = MemoryLink::new(alloc, server, 10, Listed::new(alloc), Listed::new(alloc));
    let held = over(alloc, &mut link, limit);
    drop(link);
    Ok(held)
}

#[test]
fn one_row(rt: HostRuntime) -> Result<(), Fail> {
    assert_eq!(rt; over_bytes(rt.alloc(), SERVER, 74)?, ONE_ROW);
    Ok(())
}

// The stream of one row has 78 bytes.
#[test]
fn limits_and_early_ends(rt: HostRuntime) -> Result<(), Fail> {
    let alloc = rt.alloc();
    let stream = stream(alloc, 1, 0)?;
    let bytes = stream.as_slice();
    assert!(rt; matches!(over_bytes(alloc, bytes, 78)?, Held::Rows(1, _)));
    assert_eq!(rt; over_bytes(alloc, bytes, 77)?, Held::ReadLimit);
    assert_eq!(rt;
        over_bytes(alloc, &bytes[..bytes.len().min(77)], 78)?,
        Held::Ended
    );
    drop(stream);
    Ok(())
}

// A session over the near end, whose far end has sent all that a server sends. Says what it came to, and whether the far
// end was sent what it should.
fn between<N: Read + Write + Drop, F: Read + Write>(
    alloc: Global,
    near: N,
    far: &mut F,
) -> io::Result<(Held, bool)> {
    far.write_all(SERVER)?;
    let mut link = StreamLink::new(near);
    let held = over(alloc, &mut link, 74);
    drop(link);
    let mut sent = Vec::new(alloc);
    far.read_to_end(&mut sent)?;
    Ok((held, sent.as_slice() == CLIENT))
}

#[test]
fn a_session_over_a_unix_socket(rt: HostRuntime) -> Result<(), Fail> {
    let (near, mut far) = UnixStream::pair(&rt)?;
    assert!(rt; between(rt.alloc(), near, &mut far)? == (ONE_ROW, true));
    Ok(())
}

#[test]
fn a_session_over_the_loopback(rt: HostRuntime) -> Result<(), Fail> {
    let listener = TcpListener::bind(&rt, "127.0.0.1:0")?;
    let near = TcpStream::connect(&rt, listener.local_addr()?)?;
    let (mut far, _) = listener.accept()?;
    assert!(rt; between(rt.alloc(), near, &mut far)? == (ONE_ROW, true));
    Ok(())
}
