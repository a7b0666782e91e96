//! Logins by SASL: whole exchanges, and what each message is refused for.
mod oauth;
mod scram;
mod shared;
