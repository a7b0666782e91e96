//! A proxy that is given pieces.

use bytes::BytesMut;
use pgw_proxy::fault::ProxyFault;
use pgw_proxy::proxy::Proxy;
use std::alloc::Global;
use std::test::Fail;

/// Pieces that come, each with the letter of its side; and what becomes of them, in hexadecimal digits.
#[derive(Clone, Copy, Drop)]
pub struct Row {
    pub pieces: &'static [(char, &'static str)],
    pub to_server: &'static str,
    pub to_client: &'static str,
    pub record: &'static str,
    pub fault: &'static str,
}

/// What became of pieces.
#[derive(Drop)]
pub struct Outputs {
    pub to_server: BytesMut,
    pub to_client: BytesMut,
    pub tape: BytesMut,
}

/// The name of a fault.
pub fn name(fault: &ProxyFault) -> &'static str {
    match fault {
        ProxyFault::Client(_) => "Client",
        ProxyFault::Server(_) => "Server",
        ProxyFault::Negotiation => "Negotiation",
        ProxyFault::TlsAccepted => "TlsAccepted",
        ProxyFault::ClientIo => "ClientIo",
        ProxyFault::ServerIo => "ServerIo",
        ProxyFault::Stopped => "Stopped",
        ProxyFault::OutOfMemory => "OutOfMemory",
    }
}

// What is answered, as a word.
fn word(answer: Result<(), ProxyFault>) -> &'static str {
    match answer {
        Ok(()) => "-",
        Err(fault) => {
            let name = name(&fault);
            drop(fault);
            name
        }
    }
}

// Gives the proxy one piece.
fn give(
    alloc: Global,
    proxy: &mut Proxy,
    side: char,
    piece: &[u8],
    outputs: &mut Outputs,
) -> Result<(), ProxyFault> {
    let tape = &mut outputs.tape;
    if side == 'c' {
        proxy.from_client(alloc, piece, &mut outputs.to_server, tape)
    } else {
        proxy.from_server(alloc, piece, &mut outputs.to_client, tape)
    }
}

/// Gives the proxy a side's bytes in cuts of this size.
pub fn give_cut(
    alloc: Global,
    proxy: &mut Proxy,
    side: char,
    bytes: &[u8],
    size: usize,
    outputs: &mut Outputs,
) -> &'static str {
    if bytes.is_empty() {
        return word(give(alloc, proxy, side, bytes, outputs));
    }
    for piece in bytes.chunks(size.max(1)) {
        let answer = word(give(alloc, proxy, side, piece, outputs));
        if answer != "-" {
            return answer;
        }
    }
    "-"
}

pub fn no_outputs(alloc: Global) -> Outputs {
    Outputs {
        to_server: BytesMut::new(alloc),
        to_client: BytesMut::new(alloc),
        tape: BytesMut::new(alloc),
    }
}

/// Gives a proxy a row's pieces, each cut to this size, and tells the fault that ends it.
pub fn outcome(
    alloc: Global,
    proxy: &mut Proxy,
    row: &Row,
    size: usize,
    outputs: &mut Outputs,
) -> Result<&'static str, Fail> {
    for (side, digits) in row.pieces {
        let bytes = hex::decode(alloc, digits)?;
        let answer = give_cut(alloc, proxy, *side, &bytes, size, outputs);
        if answer != "-" {
            return Ok(answer);
        }
    }
    Ok("-")
}

/// That a text is the one that is wanted.
pub fn same(found: &str, want: &str) -> Result<(), Fail> {
    if found == want {
        return Ok(());
    }
    Err(Fail::new(format_args!("{found} and not {want}")))
}
