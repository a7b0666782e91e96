//! A client's socket, over TCP or of the system.
ghost use Rattle.std.specs.Prelude.{◌≡◌, nat_lt, is_some};
ghost use Rattle.pgw_link.specs.Log.{tape_of};

use crate::link::{Link, LinkFault};
use crate::log::Log;
use crate::stream_link::{TcpLink, UnixLink};
use std::io;

/// The socket of a client. It tells its history.
#[derive(Drop)]
pub enum ClientSocket {
    Plain(TcpLink),
    Unix(UnixLink),
}

impl ClientSocket {
    ghost use Rattle.pgw_link.specs.Sockets.{socket_faults, socket_tape};

    /// How often a call has failed.
    pub fn faults(&self) -> u64
        ensures { result ≡ socket_faults self.now }
    {
        match self {
            ClientSocket::Plain(link) => link.faults(),
            ClientSocket::Unix(link) => link.faults(),
        }
    }

    /// Why a call failed last, if one has failed.
    pub fn failure(&self) -> Option<&io::Error>
        ensures { is_some result ≡ nat_lt 0 (socket_faults self.now) }
    {
        match self {
            ClientSocket::Plain(link) => link.failure(),
            ClientSocket::Unix(link) => link.failure(),
        }
    }

    /// Closes the socket. Gives what its calls did, and why one failed last.
    pub fn into_failure(self) -> (Log, Option<io::Error>)
        ensures log { tape_of result.0 ≡ socket_tape self }
        ensures failure { is_some result.1 ≡ nat_lt 0 (socket_faults self) }
    {
        match self {
            ClientSocket::Plain(link) => link.into_failure(),
            ClientSocket::Unix(link) => link.into_failure(),
        }
    }
}

impl Link for ClientSocket {
    ghost use Rattle.std.specs.Prelude.{ℕ};
    ghost use Rattle.pgw_link.specs.Sockets.{socket_tape, socket_faults, socket_flushed_in};

    ghost tape = { socket_tape };

    ghost foretells = { ⊥ };

    ghost faults = { socket_faults };

    ghost Plan = { Unit {0} };

    ghost plan = { λ s. tt };

    ghost knows = { λ t s. absurd t };

    ghost flushed_in = { socket_flushed_in };

    fn read(&mut self, buf: &mut [u8]) -> Result<usize, LinkFault> {
        match self {
            ClientSocket::Plain(link) => link.read(buf),
            ClientSocket::Unix(link) => link.read(buf),
        }
    }

    fn write(&mut self, piece: &[u8]) -> Result<usize, LinkFault> {
        match self {
            ClientSocket::Plain(link) => link.write(piece),
            ClientSocket::Unix(link) => link.write(piece),
        }
    }

    fn flush(&mut self) -> Result<(), LinkFault> {
        match self {
            ClientSocket::Plain(link) => link.flush(),
            ClientSocket::Unix(link) => link.flush(),
        }
    }
}
