//! A pool of sessions with a server, which it lends one lease at a time.
//!
//! A caller takes a lease, asks requests in it and gives it back; the pool then has the session reset. It promises that
//!
//! - a session is its startup segment, then for each of its leases the segments of that lease's own requests and one of
//!   `DISCARD ALL`,
//! - each answer is that of its own request's segment,
//! - each lease after a session's first begins with no transaction open,
//! - a session that was dropped is never lent again.
//!
//! A request that was passed over, and one at which an error cut the session, are told as such. A lease tells how many
//! leases its session has had.
#![tactic(auto)]

pub mod checking;
mod closing;
pub mod ending;
pub mod laws;
pub mod lease;
pub mod pool;
mod refilling;
pub mod returned;
mod session;
pub mod spare;
mod starting;

pub use crate::checking::{CheckError, Unfit};
pub use crate::ending::LeaseEnd;
pub use crate::lease::Lease;
pub use crate::pool::{LendError, Pool};
pub use crate::returned::{DropCause, Returned};
pub use crate::spare::Spare;
