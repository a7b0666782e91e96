//! How far a dialogue has come.

/// How far a dialogue has come.
#[derive(Clone, Copy, Debug, PartialEq, Eq)]
pub enum DialoguePhase {
    /// The startup segment is open.
    Waiting,
    /// The startup segment has closed, and the transcript is not whole.
    Ready,
    /// The transcript is whole.
    Done,
}

/// What a dialogue does with bytes.
#[derive(Clone, Copy, Debug)]
pub enum State {
    /// It takes them.
    Going,
    /// It passes them over, since the transcript is whole,
    Done,
    /// or refuses them: what was given before was refused,
    Refused,
    /// or memory was wanting.
    Starved,
}
