//! Tests of two parties to a login.
#![tactic(auto)]

#[cfg(test)]
mod pairs;
#[cfg(test)]
mod random;
#[cfg(test)]
mod support;
