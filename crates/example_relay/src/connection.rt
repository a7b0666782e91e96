//! One connection: a client, a server, and the proxy between them.

use bytes::BytesMut;
use pgw_proxy::fault::ProxyFault;
use pgw_proxy::proxy::Proxy;
use pgw_proxy::recorded::Side;
use std::alloc::{AllocGlobal, Global};
use std::fs::File;
use std::io::{Eprint, ErrorKind, Read, Write};
use std::net::{Net, Shutdown, TcpListener, TcpStream};
use std::rt::Files;
use std::sync::{Mutex, Wait};
use std::thread::Threads;
use std::{io, thread};

// A record of so many bytes is written to its file.
const FULL: usize = 65536;

// What both directions share: the proxy, what was recorded and not written yet, and the record's file.
#[derive(Drop)]
struct Shared<F: Write + Drop> {
    proxy: Proxy,
    tape: BytesMut,
    file: F,
}

impl<F: Write + Drop> Shared<F> {
    // Passes a piece of one side through the proxy.
    fn pass(
        &mut self,
        alloc: Global,
        side: Side,
        piece: &[u8],
        out: &mut BytesMut,
    ) -> Result<(), ProxyFault> {
        match side {
            Side::Client => self.proxy.from_client(alloc, piece, out, &mut self.tape),
            Side::Server => self.proxy.from_server(alloc, piece, out, &mut self.tape),
        }
    }

    // Writes what was recorded.
    fn save(&mut self) -> io::Result<()> {
        self.file.write_all(self.tape.as_slice())?;
        self.tape.clear();
        Ok(())
    }
}

// A way from one side to the other.
#[derive(Clone, Copy)]
struct Way<'a> {
    number: u32,
    side: Side,
    from: &'a TcpStream,
    to: &'a TcpStream,
}

// Passes on what comes, until that side ends or the proxy stops, which is told on standard error.
fn pass_on<R: Wait + Eprint + AllocGlobal, F: Write + Drop>(
    rt: &R,
    shared: &Mutex<Shared<F>>,
    way: Way<'_>,
) -> io::Result<()> {
    let alloc = rt.alloc();
    let mut piece = [0u8; 8192];
    let mut out = BytesMut::new(alloc);
    for _ in rt.forever() {
        let n = (&mut &*way.from).read(&mut piece)?;
        if n == 0 {
            break;
        }
        out.clear();
        let mut locked = shared.lock(rt);
        let passed = locked.pass(alloc, way.side, &piece[..n], &mut out);
        let saved = if locked.tape.len() < FULL {
            Ok(())
        } else {
            locked.save()
        };
        drop(locked);
        (&mut &*way.to).write_all(out.as_slice())?;
        saved?;
        if let Err(fault) = passed {
            let _told = eprintln!(rt; "connection {}: {fault}", way.number);
            return Err(ErrorKind::InvalidData.into());
        }
    }
    Ok(())
}

// Passes on, and then ends the other side's input; behind a failure it ends both connections.
fn pass_all<R: Wait + Eprint + AllocGlobal, F: Write + Drop>(
    rt: &R,
    shared: &Mutex<Shared<F>>,
    way: Way<'_>,
) {
    let how = match pass_on(rt, shared, way) {
        Ok(()) => Shutdown::Write,
        Err(_) => {
            let _closed = way.from.shutdown(Shutdown::Both);
            Shutdown::Both
        }
    };
    let _closed = way.to.shutdown(how);
}

// Connects a client to the server, and passes on what each sends until both have ended.
fn relay<R>(rt: &R, client: &TcpStream, server: &str, records: &str, number: u32) -> io::Result<()>
where
    R: Threads
        + Wait
        + Sync
        + Files<File = File>
        + Eprint
        + AllocGlobal
        + Net<Listener = TcpListener, Stream = TcpStream>,
{
    let alloc = rt.alloc();
    let server = TcpStream::connect(rt, server)?;
    client.set_nodelay(true)?;
    server.set_nodelay(true)?;
    let name = format!(in alloc; "{records}.{number}")?;
    let shared = Mutex::new(Shared {
        proxy: Proxy::new(alloc),
        tape: BytesMut::new(alloc),
        file: File::create(rt, name.as_str())?,
    });
    let there = Way {
        number,
        side: Side::Client,
        from: client,
        to: &server,
    };
    let back = Way {
        number,
        side: Side::Server,
        from: &server,
        to: client,
    };
    thread::join(
        rt,
        || pass_all(rt, &shared, there),
        || pass_all(rt, &shared, back),
    );
    shared.into_inner().save()
}

/// Serves a client; a failure is told on standard error.
pub fn serve<R>(rt: &R, client: TcpStream, server: &str, records: &str, number: u32)
where
    R: Threads
        + Wait
        + Sync
        + Files<File = File>
        + Eprint
        + AllocGlobal
        + Net<Listener = TcpListener, Stream = TcpStream>,
{
    if let Err(error) = relay(rt, &client, server, records, number) {
        let _told = eprintln!(rt; "connection {number}: {error}");
    }
}
