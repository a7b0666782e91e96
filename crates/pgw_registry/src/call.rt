//! Calls of the registry and what it answers, and the parts of its state.

use pgw_types::octets::Octets;

/// How far a query is.
#[derive(Clone, Copy, Debug, PartialEq, Eq)]
pub enum Phase {
    /// It may be canceled.
    Waiting,
    /// It was canceled, and no look has told so.
    Fired,
    /// It was canceled, and a look has told so.
    Taken,
    /// Another query was started on its handle, or the handle was forgotten.
    Replaced,
}

/// A connection, by which its query is canceled.
#[derive(Clone, Copy, Debug, PartialEq, Eq)]
pub struct Handle {
    /// The query that a cancel would fire.
    pub active: Option<u64>,
    /// The handles that are not closed yet, and one more where the pair map has it.
    pub holders: u128,
}

/// A call of the registry. No value of it is made.
pub enum Call {
    Register(i32, Octets),
    NewHandle,
    StartQuery(u64),
    CancelHandle(u64),
    Cancel(i32, Octets),
    Look(u64),
    Finish(u64),
    CloseHandle(u64),
    Release(i32, Octets),
}

/// What the registry answers. No value of it is made.
pub enum Reply {
    /// The number of the handle.
    Handled(u64),
    /// The number of the query.
    Started(u64),
    /// Whether there was something to cancel.
    Canceled(bool),
    /// Whether the query has fired.
    Looked(Option<()>),
    /// Nothing is told of the query.
    NoQuery,
    Done,
    /// There is no such handle.
    NoHandle,
}

/// A call in a history. No value of it is made.
pub struct Entry {
    /// The number of the seat that made the call.
    pub by: u64,
    pub call: Call,
    pub reply: Reply,
}
