//! Where a segment stands, and what a message does to it.

use pgw_backend::client_error::PgWireClientError;
use pgw_frontend::frontend::PgWireFrontendMessage;
use pgw_scram::exchange::ClientLogin;
use pgw_types::octets::Octets;
use std::fmt;

/// Which row of the table of requests an open segment is of.
#[derive(Clone, Copy, Debug, PartialEq, Eq)]
pub enum Kind {
    Simple,
    Prepare,
    Bind,
    Execute,
    DescribeStatement,
    DescribePortal,
    Close,
    Query,
}

/// What a message is to a request's segment.
#[derive(Clone, Copy, Debug, PartialEq, Eq)]
pub enum Role {
    /// It is taken, and rows may come then, or not.
    Taken(bool),
    /// It closes the segment.
    Closing,
    /// It completes a portal: Sync is sent, and anything may come up to ReadyForQuery.
    Completing,
    /// The server's error.
    Failing,
    Misplaced,
}

/// How far the open segment has come.
#[derive(Drop)]
pub enum Stage {
    /// The startup segment, before a login block.
    Starting,
    /// Within a SCRAM login, of this user: the server's first text is awaited,
    Challenged(ClientLogin),
    /// or its last, which should have this signature.
    Proving(Octets),
    /// The startup segment behind its login block.
    Admitted,
    /// A request's segment, and whether rows may come.
    Answering(Kind, bool),
    /// A segment that takes anything up to ReadyForQuery.
    PassingOver,
}

/// It shows neither who logs in nor the signature that is awaited.
impl fmt::Debug for Stage {
    fn fmt<W: fmt::Write>(&self, f: &mut fmt::Formatter<W>) -> fmt::Result {
        match self {
            Stage::Starting => f.write_str("Starting"),
            Stage::Challenged(_login) => f.write_str("Challenged(_)"),
            Stage::Proving(_expected) => f.write_str("Proving(_)"),
            Stage::Admitted => f.write_str("Admitted"),
            Stage::Answering(kind, rows) => {
                f.debug_tuple("Answering").field(kind).field(rows).finish()
            }
            Stage::PassingOver => f.write_str("PassingOver"),
        }
    }
}

/// What a message does to the open segment.
#[derive(Debug, Drop)]
pub enum Next {
    /// It is taken, and this is sent right behind it; the segment goes on.
    Goes(Stage, Option<PgWireFrontendMessage>),
    /// It is taken, and closes the segment.
    Closes,
    /// It has no place here.
    Wrong,
    /// It ends the session with an error of its own.
    Refuses(PgWireClientError),
    /// It has no place here, and the messages up to ReadyForQuery are passed over first.
    PassesOver,
}
