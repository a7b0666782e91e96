//! A record, played back to a server.

use anyhow::{Context, Result, bail};
use bytes::BytesMut;
use pgw_backend::backend::PgWireBackendMessage;
use pgw_frontend::frontend::PgWireFrontendMessage;
use pgw_proxy::proxy::Proxy;
use pgw_proxy::reading::read_record;
use pgw_proxy::recorded::Recorded;
use pgw_types::listed::Listed;
use std::alloc::{AllocGlobal, Global};
use std::io::{Read, Write};
use std::net::{Net, Shutdown, TcpListener, TcpStream};
use std::rt::Files;
use std::thread::Threads;
use std::{fs, io, thread};

// Whether a message tells of one connection alone: its process and key, or that it goes on without encryption.
fn is_own(message: &PgWireBackendMessage) -> bool {
    matches!(
        message,
        PgWireBackendMessage::BackendKeyData(_)
            | PgWireBackendMessage::SslResponse(_)
            | PgWireBackendMessage::GssEncResponse(_)
    )
}

// Whether a message asks for encryption, which a connection that is played back goes on without.
fn asks_for_encryption(message: &PgWireFrontendMessage) -> bool {
    matches!(message, PgWireFrontendMessage::SslNegotiation(_))
}

// Keeps a message, unless it tells of one connection alone.
fn keep(answers: &mut Vec<PgWireBackendMessage>, message: PgWireBackendMessage) -> Result<()> {
    if is_own(&message) {
        drop(message);
        return Ok(());
    }
    answers.push(message)?;
    Ok(())
}

// The server's messages, but for those that tell of one connection alone.
fn answers(alloc: Global, record: Listed<Recorded>) -> Result<Vec<PgWireBackendMessage>> {
    let mut answers = Vec::new(alloc);
    for message in record.into_vec() {
        match message {
            Recorded::Backend(message) => keep(&mut answers, message)?,
            Recorded::Frontend(message) => drop(message),
        }
    }
    Ok(answers)
}

// The client's messages as they are sent, but for requests for encryption.
fn sent(alloc: Global, record: &Listed<Recorded>) -> Result<BytesMut> {
    let mut bytes = BytesMut::new(alloc);
    for message in record.as_slice() {
        if let Recorded::Frontend(message) = message {
            if !asks_for_encryption(message) {
                message.encode(&mut bytes)?;
            }
        }
    }
    Ok(bytes)
}

// All that comes, up to the server's end.
fn read_all(alloc: Global, stream: &TcpStream) -> io::Result<Vec<u8>> {
    let mut answer = Vec::new(alloc);
    (&mut &*stream).read_to_end(&mut answer)?;
    Ok(answer)
}

// Sends the bytes, and behind them that no more come: a server ends then, without Terminate too.
fn send_all(stream: &TcpStream, bytes: &[u8]) -> io::Result<()> {
    (&mut &*stream).write_all(bytes)?;
    stream.shutdown(Shutdown::Write)
}

// What a server answers these bytes with, up to its end. A server that ends before it has read all is no error: its
// answer tells.
fn ask<R>(rt: &R, server: &str, bytes: &[u8]) -> io::Result<Vec<u8>>
where
    R: Threads + AllocGlobal + Net<Listener = TcpListener, Stream = TcpStream>,
{
    let alloc = rt.alloc();
    let stream = TcpStream::connect(rt, server)?;
    let (answer, _sent) = thread::join(
        rt,
        || read_all(alloc, &stream),
        || send_all(&stream, bytes),
    );
    answer
}

// The messages of a connection of which these are the bytes of both sides.
fn recorded(alloc: Global, client: &[u8], server: &[u8]) -> Result<Listed<Recorded>> {
    let mut proxy = Proxy::new(alloc);
    let mut passed = BytesMut::new(alloc);
    let mut tape = BytesMut::new(alloc);
    proxy.from_client(alloc, client, &mut passed, &mut tape)?;
    proxy.from_server(alloc, server, &mut passed, &mut tape)?;
    Ok(read_record(alloc, tape.as_slice())?)
}

/// Sends the client's messages of a record to a server, and tells how many messages it answers with: they are those of
/// the record, or the first that differs is told.
pub fn replay<R>(rt: &R, server: &str, record: &str) -> Result<usize>
where
    R: Threads + Files + AllocGlobal + Net<Listener = TcpListener, Stream = TcpStream>,
{
    let alloc = rt.alloc();
    let bytes = fs::read(rt, record)?;
    let record = read_record(alloc, &bytes)?;
    let client = sent(alloc, &record)?;
    let server = ask(rt, server, client.as_slice())?;
    let wanted = answers(alloc, record)?;
    let got = answers(alloc, recorded(alloc, client.as_slice(), &server)?)?;
    for (number, (one, other)) in wanted.iter().zip(got.iter()).enumerate() {
        if one != other {
            bail!("the server's message {} is another", number + 1);
        }
    }
    if wanted.len() != got.len() {
        bail!("the server answers with another number of messages");
    }
    Ok(got.len())
}
