//! Shares of a right that many hold together.

/// A fraction of the right. No value of it is made.
pub struct Share {
    pub parts: u64,
    /// How many parts are the whole.
    pub whole: u64,
}
