//! A message of 64 MiB that comes in pieces of 8192 bytes.

use crate::pieces::{give_cut, no_outputs, same};
use bytes::BytesMut;
use pgw_proxy::proxy::Proxy;
use std::alloc::Global;
use std::test::Fail;

// The Startup of a client.
const STARTUP: &[u8] = b"\0\0\0\x12\0\x03\0\0user\0bob\0\0";

const PIECES: usize = 8192;

// A piece of a CopyData message that has as many pieces: a fill of its own, and of the first one
// the type byte and the length.
fn piece(number: usize) -> [u8; 8192] {
    let mut bytes = [(number % 251) as u8; 8192];
    if number == 0 {
        let [a, b, c, d] = 67108863_u32.to_be_bytes();
        bytes[0] = b'd';
        bytes[1] = a;
        bytes[2] = b;
        bytes[3] = c;
        bytes[4] = d;
    }
    bytes
}

// That the bytes are all pieces, one behind the other.
fn are_pieces(bytes: &[u8]) -> bool {
    let mut number = 0;
    for chunk in bytes.chunks(8192) {
        if number >= PIECES || chunk != piece(number).as_slice() {
            return false;
        }
        number += 1;
    }
    number == PIECES
}

// Where the messages of a side go.
fn out_of(side: char, to_server: BytesMut, to_client: BytesMut) -> BytesMut {
    if side == 'c' { to_server } else { to_client }
}

// What is passed on of the message, and its record. Before the last piece nothing is.
fn passed(alloc: Global, side: char) -> Result<(BytesMut, BytesMut), Fail> {
    let mut proxy = Proxy::new(alloc);
    let mut before = no_outputs(alloc);
    same(
        give_cut(alloc, &mut proxy, 'c', STARTUP, 100, &mut before),
        "-",
    )?;
    let mut out = no_outputs(alloc);
    for number in 0..PIECES {
        if !out.tape.is_empty() {
            return Err(Fail::new(format_args!("recorded before piece {number}")));
        }
        let answer = give_cut(alloc, &mut proxy, side, &piece(number), 8192, &mut out);
        same(answer, "-")?;
    }
    Ok((out_of(side, out.to_server, out.to_client), out.tape))
}

fn check(alloc: Global, side: char, direction: u8) -> Result<(), Fail> {
    let (out, tape) = passed(alloc, side)?;
    if !are_pieces(out.as_slice()) {
        return Err(Fail::new(format_args!("{side}: other bytes are passed on")));
    }
    match tape.as_slice() {
        [first, 4, 0, 0, 0, message @ ..] if *first == direction && are_pieces(message) => Ok(()),
        _ => Err(Fail::new(format_args!("{side}: other bytes are recorded"))),
    }
}

#[test]
fn large_messages_pass(rt: HostRuntime) -> Result<(), Fail> {
    check(rt.alloc(), 'c', 0)?;
    check(rt.alloc(), 's', 1)
}
