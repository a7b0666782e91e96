//! Tests of a pool, and of one that threads share.
#![tactic(auto)]

#[cfg(test)]
mod failing;
#[cfg(test)]
mod lending;
#[cfg(test)]
mod moving;
#[cfg(test)]
mod renewing;
#[cfg(test)]
mod retiring;
#[cfg(test)]
mod servers;
#[cfg(test)]
mod shared;
