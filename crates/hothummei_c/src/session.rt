//! What stands behind a handle.
ghost use Rattle.std.specs.Prelude.{None};
ghost use Rattle.hothummei_c.specs.Codes.{code_of};
ghost use Rattle.hothummei_c.specs.Session.{HandleFails, IsNewSession};

use crate::codes::code_of;
use crate::held::Held;
use crate::report::Report;
use crate::values::Value;
use bytes::BytesMut;
use pgw_backend::client_error::PgWireClientError;
use pgw_config::config::Config;
use pgw_session::types::Request;
use pgw_types::listed::Listed;
use pgw_types::octets::Octets;
use std::alloc::Global;

/// How far a session has come.
#[derive(Clone, Copy, Debug, PartialEq, Eq)]
pub enum Phase {
    /// It has no connection text yet.
    New,
    /// Requests may be added.
    Asking,
    /// The startup segment is open.
    Waiting,
    /// The startup segment has closed, and the transcript is not whole.
    Ready,
    /// The transcript is whole, and there is a report.
    Done,
    /// It was refused, and says why.
    Failed,
}

/// A session, from its connection text to its report.
#[derive(Drop)]
pub struct Session {
    pub alloc: Global,
    pub phase: Phase,
    pub config: Config,
    pub requests: Listed<Request>,
    /// Those of the next request that has any.
    pub parameters: Listed<Option<Octets>>,
    pub nonce: [u8; 18],
    pub held: Option<Held>,
    pub report: Option<Report>,
    /// What is to be sent to the server.
    pub out: BytesMut,
    pub fault: Option<PgWireClientError>,
    /// The sentence of the fault; empty where memory was wanting.
    pub sentence: String,
    /// The values of the row that was asked for last.
    pub values: Vec<Value>,
}

/// A session with nothing in it.
pub fn new_session(alloc: Global) -> Session
    ensures { IsNewSession result }
{
    Session {
        alloc,
        phase: Phase::New,
        config: Config::new(alloc),
        requests: Listed::new(alloc),
        parameters: Listed::new(alloc),
        nonce: [0; 18],
        held: None,
        report: None,
        out: BytesMut::new(alloc),
        fault: None,
        sentence: String::new(alloc),
        values: Vec::new(alloc),
    }
}

/// Lets a session go, with all that it holds.
pub fn let_go(session: Session) {
    drop(session);
}

// The sentence of an error; an empty one where memory is wanting.
fn sentence_of(alloc: Global, e: &PgWireClientError) -> String {
    match format!(in alloc; "{e}") {
        Ok(text) => text,
        Err(_) => String::new(alloc),
    }
}

impl Session {
    /// Gives up, by this error.
    pub fn fail(&mut self, e: PgWireClientError) -> u32
        ensures { HandleFails self.old self.new e result }
    {
        let code = code_of(&e);
        self.sentence = sentence_of(self.alloc, &e);
        self.fault = Some(e);
        self.phase = Phase::Failed;
        code
    }
}
