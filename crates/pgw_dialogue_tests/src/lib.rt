//! Tests of dialogues, and of clients whose bytes the caller moves.
#![tactic(auto)]

#[cfg(test)]
mod callers;
#[cfg(test)]
mod calls;
#[cfg(test)]
mod pieces;
#[cfg(test)]
mod push;
