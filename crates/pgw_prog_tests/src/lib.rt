//! Tests of the program over a socket, of the large input from a number and of its session, and of the commands `check` and
//! `query`. The cases of `hothummei_cases` test all else.
#![tactic(auto)]

#[cfg(test)]
mod commands;
#[cfg(test)]
mod nonces;
#[cfg(test)]
mod pairs;
#[cfg(test)]
mod sessions;
#[cfg(test)]
mod socket;
#[cfg(test)]
mod streams;
