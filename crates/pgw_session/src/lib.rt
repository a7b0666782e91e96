//! What a session is: definitions and laws.
//!
//! To the client above it promises what transcripts, legal prefixes, answers, reports and causes are, and that the
//! machine which goes over a server's messages leads just to them. But for the types of requests and answers it has law
//! functions and nothing that runs.
#![tactic(auto)]

pub mod equality;
pub mod laws;
pub mod notes;
pub mod stage;
pub mod standing;
pub mod table_laws;
pub mod tally;
pub mod types;

pub use crate::notes::Notes;
pub use crate::stage::{Kind, Next, Role, Stage};
pub use crate::standing::Standing;
pub use crate::tally::{Opened, Tally};
pub use crate::types::{
    Answer, DescribeResponse, ExecuteResult, PrepareResponse, Request, Response, SessionReport,
    Target,
};
