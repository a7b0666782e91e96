//! Why a proxy stops.
ghost use Rattle.std.specs.Prelude.{◌≡◌};
ghost use Rattle.pgw_proxy.specs.declared.fault.ProxyFault.TheVariants as fault;

use pgw_types::error::PgWireError;
use pgw_types::memory::OutOfMemory;
use std::alloc::{AllocError, AllocFailed};
use std::error::Error;
use std::fmt;

/// Why a proxy stops.
#[derive(Debug, Drop)]
pub enum ProxyFault {
    /// The bytes of the client are refused.
    Client(PgWireError),
    /// The bytes of the server are refused.
    Server(PgWireError),
    /// The client goes on before its request for encryption is answered.
    Negotiation,
    /// The server goes on encrypted, so nothing more can be read.
    TlsAccepted,
    /// A call of the link to the client failed.
    ClientIo,
    /// A call of the link to the server failed.
    ServerIo,
    /// There was a fault before.
    Stopped,
    OutOfMemory,
}

impl fmt::Display for ProxyFault {
    fn fmt<W: fmt::Write>(&self, f: &mut fmt::Formatter<W>) -> fmt::Result {
        match self {
            ProxyFault::Client(e) => write!(f, "the client's bytes are refused: {e}"),
            ProxyFault::Server(e) => write!(f, "the server's bytes are refused: {e}"),
            ProxyFault::Negotiation => {
                f.write_str("the client goes on before its request for encryption is answered")
            }
            ProxyFault::TlsAccepted => f.write_str("the server goes on encrypted"),
            ProxyFault::ClientIo => f.write_str("a call of the connection to the client failed"),
            ProxyFault::ServerIo => f.write_str("a call of the connection to the server failed"),
            ProxyFault::Stopped => f.write_str("the proxy has stopped"),
            ProxyFault::OutOfMemory => f.write_str("out of memory"),
        }
    }
}

impl Error for ProxyFault {}

impl From<OutOfMemory> for ProxyFault {
    ghost from_gives = { λ _ f. f ≡ fault.OutOfMemory };

    fn from(_e: OutOfMemory) -> ProxyFault {
        ProxyFault::OutOfMemory
    }
}

impl From<AllocError> for ProxyFault {
    ghost from_gives = { λ _ f. f ≡ fault.OutOfMemory };

    fn from(_e: AllocError) -> ProxyFault {
        ProxyFault::OutOfMemory
    }
}

impl<T: Drop> From<AllocFailed<T>> for ProxyFault {
    ghost from_gives = { λ _ f. f ≡ fault.OutOfMemory };

    fn from(_e: AllocFailed<T>) -> ProxyFault {
        ProxyFault::OutOfMemory
    }
}

/// Why a record cannot be read: the first record that is faulty, by its number, counted from 0.
#[derive(Clone, Copy, Debug, Drop)]
pub enum RecordFault {
    /// Bytes of the record are missing.
    Truncated(u64),
    /// The byte that names the side is another.
    BadDirection(u64, u8),
    /// The bytes are not one message that a proxy passes on there.
    BadMessage(u64),
    OutOfMemory,
}

impl fmt::Display for RecordFault {
    fn fmt<W: fmt::Write>(&self, f: &mut fmt::Formatter<W>) -> fmt::Result {
        match self {
            RecordFault::Truncated(number) => write!(f, "record {number} is cut short"),
            RecordFault::BadDirection(number, side) => {
                write!(f, "record {number} is of no side: {side}")
            }
            RecordFault::BadMessage(number) => {
                write!(f, "record {number} is not one message of its side")
            }
            RecordFault::OutOfMemory => f.write_str("out of memory"),
        }
    }
}

impl Error for RecordFault {}
