//! Where a server is.
ghost use Rattle.std.specs.Cmp.Rules.{comparing};
ghost use Rattle.std.proofs.Common.{rules};

use crate::listed::Duplicate;
use crate::memory::OutOfMemory;
use crate::text::Text;

/// Where a server is: a host name, or the directory of a Unix socket.
#[derive(Debug, Drop, PartialEq, Eq)]
pub enum Host {
    Tcp(Text),
    Unix(Text),
}

/// The numbers of an address, the highest part first.
#[derive(Clone, Copy, Debug, PartialEq, Eq)]
pub enum HostAddr {
    V4([u8; 4]),
    V6([u16; 8]),
}

/// A place to connect to.
#[derive(Debug, Drop, PartialEq, Eq)]
pub enum Address {
    /// An IP address and a port.
    Ip(HostAddr, u16),
    /// A host name, still to be resolved, and a port.
    Host(Text, u16),
    /// The file of a Unix socket.
    Unix(Text),
}

impl Duplicate for Host {
    fn duplicate(&self) -> Result<Host, OutOfMemory> {
        match self {
            Host::Tcp(name) => Ok(Host::Tcp(name.duplicate()?)),
            Host::Unix(path) => Ok(Host::Unix(path.duplicate()?)),
        }
    }
}

impl Duplicate for HostAddr {
    fn duplicate(&self) -> Result<HostAddr, OutOfMemory> {
        Ok(*self)
    }
}

impl Duplicate for Address {
    fn duplicate(&self) -> Result<Address, OutOfMemory> {
        match self {
            Address::Ip(addr, port) => Ok(Address::Ip(*addr, *port)),
            Address::Host(name, port) => Ok(Address::Host(name.duplicate()?, *port)),
            Address::Unix(path) => Ok(Address::Unix(path.duplicate()?)),
        }
    }
}
