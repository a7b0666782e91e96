//! A dialer over the system's sockets.
ghost use Rattle.std.specs.Prelude.{◌≡◌, IfOk};
ghost use Rattle.pgw_link.specs.Tape.{new_tape};
ghost use Rattle.pgw_link.specs.Dials.{new_dials};
ghost use Rattle.pgw_link.specs.DialLog.{dial_tape_of};

use crate::dial_log::{DialLog, DialNote};
use crate::dialer::{DialError, Dialer};
use crate::socket::ClientSocket;
use crate::stream_link::StreamLink;
use pgw_types::address::{Address, HostAddr};
use std::io;
use std::io::{Eprint, ErrorKind};
use std::net::{IpAddr, Ipv4Addr, Ipv6Addr, Net, SocketAddr, TcpStream, ToSocketAddrs};
use std::os::unix::net::UnixStream;
use std::time::Duration;

/// A dialer over the system's sockets. It tells what it dialled and what its sockets' calls did. Why a dial failed, or a
/// call of a link, it says on standard error.
///
/// Host names are looked up by the system, and the addresses found are tried in turn within one dial.
#[derive(Drop)]
pub struct SocketDialer<R: Net<Stream = TcpStream> + Eprint + Drop> {
    rt: R,
    timeouts: Timeouts,
    faults: u64,
    log: DialLog,
}

/// How long to wait for a connection to each address, for a read and for a write; without end where it is None or zero.
/// What takes longer is a fault. A Unix socket connects at once.
#[derive(Clone, Copy, Debug, PartialEq, Eq, Drop)]
pub struct Timeouts {
    pub connect: Option<Duration>,
    pub read: Option<Duration>,
    pub write: Option<Duration>,
}

impl Timeouts {
    /// No timeout at all.
    pub const NONE: Timeouts = Timeouts {
        connect: None,
        read: None,
        write: None,
    };
}

fn unless_zero(timeout: Option<Duration>) -> Option<Duration> {
    timeout.filter(|time| !time.is_zero())
}

fn ip_of(addr: HostAddr) -> IpAddr {
    match addr {
        HostAddr::V4(octets) => IpAddr::V4(Ipv4Addr::from(octets)),
        HostAddr::V6(segments) => IpAddr::V6(Ipv6Addr::from(segments)),
    }
}

impl<R: Net<Stream = TcpStream> + Eprint + Drop> SocketDialer<R> {
    ghost use Rattle.pgw_link.specs.Sockets.{socket_faults, socket_tape};

    pub fn new(rt: R, timeouts: Timeouts) -> SocketDialer<R>
        ensures faults { result.faults ≡ 0 }
        ensures tape { dial_tape_of result.log ≡ new_dials }
    {
        SocketDialer {
            rt,
            timeouts,
            faults: 0,
            log: DialLog::new(),
        }
    }

    fn connect(&self, addr: SocketAddr) -> io::Result<TcpStream> {
        match unless_zero(self.timeouts.connect) {
            Some(time) => TcpStream::connect_timeout(&self.rt, &addr, time),
            None => TcpStream::connect(&self.rt, addr),
        }
    }

    fn set_up(&self, stream: &TcpStream) -> io::Result<()> {
        stream.set_nodelay(true)?;
        stream.set_read_timeout(unless_zero(self.timeouts.read))?;
        stream.set_write_timeout(unless_zero(self.timeouts.write))
    }

    fn open_tcp(&self, addr: SocketAddr) -> io::Result<ClientSocket>
        ensures { IfOk result (λ s. (socket_faults s ≡ 0) × (socket_tape s ≡ new_tape)) }
    {
        let stream = self.connect(addr)?;
        self.set_up(&stream)?;
        Ok(ClientSocket::Plain(StreamLink::new(stream)))
    }

    fn open_host(&self, name: &str, port: u16) -> io::Result<ClientSocket>
        ensures { IfOk result (λ s. (socket_faults s ≡ 0) × (socket_tape s ≡ new_tape)) }
    {
        let mut last = io::Error::new(ErrorKind::NotFound, "the name has no address");
        for addr in (name, port).to_socket_addrs(&self.rt)? {
            match self.open_tcp(addr) {
                Ok(socket) => return Ok(socket),
                Err(error) => last = error,
            }
        }
        Err(last)
    }

    fn open_unix(&self, path: &str) -> io::Result<ClientSocket>
        ensures { IfOk result (λ s. (socket_faults s ≡ 0) × (socket_tape s ≡ new_tape)) }
    {
        let stream = UnixStream::connect(&self.rt, path)?;
        stream.set_read_timeout(unless_zero(self.timeouts.read))?;
        stream.set_write_timeout(unless_zero(self.timeouts.write))?;
        Ok(ClientSocket::Unix(StreamLink::new(stream)))
    }

    fn open(&self, address: &Address) -> io::Result<ClientSocket>
        ensures { IfOk result (λ s. (socket_faults s ≡ 0) × (socket_tape s ≡ new_tape)) }
    {
        match address {
            Address::Ip(addr, port) => self.open_tcp(SocketAddr::new(ip_of(*addr), *port)),
            Address::Host(name, port) => self.open_host(name.as_str(), *port),
            Address::Unix(path) => self.open_unix(path.as_str()),
        }
    }

    fn say(&self, what: &str, error: io::Error) {
        let _ = match error.kind() {
            ErrorKind::WouldBlock | ErrorKind::TimedOut => eprintln!(self.rt; "{what}: timed out"),
            _ => eprintln!(self.rt; "{what}: {error}"),
        };
    }

    fn say_at(&self, address: &Address, error: io::Error) {
        let _ = match address {
            Address::Ip(addr, port) => {
                eprint!(self.rt;
                    "cannot connect to {}",
                    SocketAddr::new(ip_of(*addr), *port)
                )
            }
            // A password's '@' that was not written %40 ends the credentials: the rest may be secret.
            Address::Host(name, _) if name.as_str().contains('@') => eprint!(self.rt;
                "cannot connect to a host whose name has an '@' (in a password it is written %40)"
            ),
            Address::Host(name, port) => eprint!(self.rt;
                "cannot connect to {}:{port}",
                name.as_str()
            ),
            Address::Unix(path) => eprint!(self.rt; "cannot connect to {}", path.as_str()),
        };
        self.say("", error);
    }
}

impl<R: Net<Stream = TcpStream> + Eprint + Drop> Dialer for SocketDialer<R> {
    type Link = ClientSocket;

    ghost tape = { λ s. dial_tape_of s.log };

    ghost foretells = { ⊥ };

    ghost faults = { λ s. s.faults };

    ghost links_foretell = { λ t. t };

    fn dial(&mut self, address: &Address) -> Result<ClientSocket, DialError> {
        let opened = self.open(address);
        self.log = self.log.then(&DialNote::Dialled(address, opened.is_ok()));
        match opened {
            Ok(socket) => Ok(socket),
            Err(error) if error.kind() == ErrorKind::OutOfMemory => Err(DialError::OutOfMemory),
            Err(error) => {
                self.say_at(address, error);
                self.faults = self.faults.saturating_add(1);
                Err(DialError::Fault)
            }
        }
    }

    fn close(&mut self, used: ClientSocket) {
        if used.faults() > 0 {
            self.faults = self.faults.saturating_add(1);
        }
        // The socket is closed before anything is said: it may have the number of standard error.
        let (log, failure) = used.into_failure();
        self.log = self.log.then(&DialNote::Shut(&log));
        if let Some(error) = failure {
            self.say("the connection failed", error);
        }
    }
}
