//! Tests of the codec that need its public calls alone. Nothing else stands here: a crate with tests is proved twice.
#![tactic(auto)]

#[cfg(test)]
mod tests;
