//! Tests of the registry, from one thread and from several, that need its public calls alone.
#![tactic(auto)]

#[cfg(test)]
mod shared;
#[cfg(test)]
mod single;
