//! Tests of turns.
#![tactic(auto)]

#[cfg(test)]
mod counters;
#[cfg(test)]
mod many;
#[cfg(test)]
mod order;
