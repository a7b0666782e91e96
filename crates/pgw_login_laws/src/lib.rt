//! What holds of whole logins by SASL, over every course of a server.
//!
//! To whoever trusts a server's logins it promises that a client is let in only behind its proof or its token, and that
//! a proof under SCRAM-SHA-256-PLUS is bound to the server's certificate.
#![tactic(auto)]

pub mod laws;
