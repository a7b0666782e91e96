//! Tests of clients whose bytes the caller moves.

mod asking;
mod kinds;
mod refusing;
