//! Handlers that log a client in and ask its queries as a session does.
//!
//! To a client they promise what each of their calls does: the login is by the table of a session's startup segment, a
//! simple query gives the responses of its segment, and an extended one sends each message as it is.
#![tactic(auto)]

pub mod extended;
pub mod simple;
pub mod startup;

pub use crate::extended::DefaultExtendedQueryHandler;
pub use crate::simple::DefaultSimpleQueryHandler;
pub use crate::startup::DefaultStartupHandler;
