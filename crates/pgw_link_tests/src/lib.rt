//! Tests of links, streams and dialers that need their public calls alone.
#![tactic(auto)]

#[cfg(test)]
mod links;
