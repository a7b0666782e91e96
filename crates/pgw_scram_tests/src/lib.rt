//! Tests of the hashes of a login and of SCRAM: the vectors of the public documents, worked exchanges, and what each end
//! refuses; of stored secrets and of files of passwords.
#![tactic(auto)]

#[cfg(test)]
mod hashes;
#[cfg(test)]
mod secrets;
#[cfg(test)]
mod shared;
#[cfg(test)]
mod tests;
