//! What a client's calls come to: laws.
//!
//! To a caller of a client with the default handlers it promises that each call is one segment of a session, answered by
//! that segment. It has law functions and nothing that runs.
#![tactic(auto)]

pub mod laws;
