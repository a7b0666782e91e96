//! What a client notes of a session.

use crate::stage::Stage;
use crate::standing::Standing;
use crate::tally::Tally;
use crate::types::Answer;
use pgw_backend::backend::PgWireBackendMessage;
use pgw_types::listed::Listed;

/// What a client notes of a session: what it needs of the events, and no more.
#[derive(Debug, Drop)]
pub struct Notes {
    /// How far the open segment has come.
    pub stage: Stage,
    /// What was told of the connection.
    pub standing: Standing,
    /// What the open segment gave so far.
    pub tally: Tally,
    /// The answers of the requests whose segments have closed.
    pub answers: Listed<Answer>,
    /// How many segments have closed.
    pub closed: usize,
    /// The first message that had no place, where others are passed over behind it.
    pub first_passed: Option<PgWireBackendMessage>,
}
