//! Tests of the rows of a result.
#![tactic(auto)]

#[cfg(test)]
mod parameters;
#[cfg(test)]
mod rows;
#[cfg(test)]
mod shared;
#[cfg(test)]
mod values;
