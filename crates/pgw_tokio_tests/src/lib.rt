//! Tests of sessions and clients under tokio, over streams in memory.
#![tactic(auto)]

#[cfg(test)]
mod asked;
#[cfg(test)]
mod clients;
#[cfg(test)]
mod ends;
#[cfg(test)]
mod failing;
#[cfg(test)]
mod servers;
#[cfg(test)]
mod sessions;
