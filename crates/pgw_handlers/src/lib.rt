//! What a client hands its server's messages to.
//!
//! To a client it promises that each handler has one meaning, which each of its calls is an instance of; that a message
//! is heard by its own function; and that of the client nothing changes but what a handler sees of it. To a handler it
//! promises what it may ask and tell of any client, and what becomes of a message that it sends.
#![tactic(auto)]

pub mod causes;
pub mod client_info;
pub mod extended;
pub mod outgoing;
pub mod responses;
pub mod simple;
pub mod startup;

pub use crate::causes::{admitted, misplaced};
pub use crate::client_info::{ClientInfo, ReadyState, Seen, ServerInformation};
pub use crate::extended::ExtendedQueryHandler;
pub use crate::outgoing::Outgoing;
pub use crate::responses::ResponseList;
pub use crate::simple::SimpleQueryHandler;
pub use crate::startup::StartupHandler;
