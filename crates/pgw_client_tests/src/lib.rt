//! Tests of sessions that no script can hold, and of sessions over each cut, each limit, each early end and each failing
//! call; of asking one request, and of the example that asks a list of them.
#![tactic(auto)]

#[cfg(test)]
mod ask;
#[cfg(test)]
mod cuts;
#[cfg(test)]
mod requests;
#[cfg(test)]
mod scram;
#[cfg(test)]
mod session;
#[cfg(test)]
mod troubles;
