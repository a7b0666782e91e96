//! What a client reads from and writes to.
//!
//! To a session above it promises what each call of a link moves, what a dialer dialled and closed, and that a fault is
//! answered only where its count rose. All of them tell what their calls did, sockets and standard input and output
//! too; the forms in memory also tell what is still to come.
#![tactic(auto)]

pub mod calls;
pub mod dial_log;
pub mod dialer;
pub mod equality;
pub mod link;
pub mod log;
pub mod memory;
pub mod memory_dialer;
pub mod memory_stream;
pub mod piece;
pub mod sending;
pub mod socket;
pub mod socket_dialer;
pub mod standard;
pub mod stream;
pub mod stream_link;
mod told;

pub use crate::calls::Calls;
pub use crate::dial_log::{DialLog, DialNote};
pub use crate::dialer::{DialError, Dialer};
pub use crate::link::{Link, LinkFault};
pub use crate::log::{Log, Note};
pub use crate::memory::MemoryLink;
pub use crate::memory_dialer::MemoryDialer;
pub use crate::memory_stream::{MemorySink, MemorySource};
pub use crate::piece::copy_from;
pub use crate::sending::send;
pub use crate::socket::ClientSocket;
pub use crate::socket_dialer::{SocketDialer, Timeouts};
pub use crate::standard::{StdSink, StdSource};
pub use crate::stream::{Sink, SinkFault, Source, SourceFault};
pub use crate::stream_link::{StreamLink, TcpLink, UnixLink};
