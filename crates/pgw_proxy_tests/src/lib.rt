//! Tests of the recording proxy.
#![tactic(auto)]

#[cfg(test)]
mod large;
#[cfg(test)]
mod links;
#[cfg(test)]
mod pieces;
#[cfg(test)]
mod records;
#[cfg(test)]
mod rows;
#[cfg(test)]
mod run;
#[cfg(test)]
mod told;
