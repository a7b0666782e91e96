//! A recording proxy: what a client and a server send each other is passed on as it was spelled, and
//! recorded message by message.
//!
//! To whoever stands between a client and a server it promises, for all pieces that came from
//! either side in any order, that each side gets the messages of the other, whole and in order,
//! and nothing else, up to the first fault; that the record is the list of these messages; and
//! that a record is read back as that list.
#![tactic(auto)]

pub mod context;
pub mod fault;
mod front;
pub mod laws;
mod passing;
mod plain;
pub mod proxy;
pub mod reading;
pub mod recorded;
pub mod run;
mod taking;
mod tape;

pub use crate::context::{
    Context, behind_client, behind_server, client_context, is_accepted, is_due, past_requests,
};
pub use crate::fault::{ProxyFault, RecordFault};
pub use crate::proxy::Proxy;
pub use crate::reading::read_record;
pub use crate::recorded::{Recorded, Side};
pub use crate::run::{ProxyRun, run_proxy};
