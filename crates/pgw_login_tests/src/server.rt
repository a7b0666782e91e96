//! Tests of a server's side of a login that need its public calls alone.

mod logins;
mod scram;
mod servers;
mod sessions;
mod support;
