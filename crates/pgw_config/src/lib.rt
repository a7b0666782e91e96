//! The configuration of a client.
//!
//! To a caller it promises that each setter changes its field alone, that a `set_` or `add_` which is refused changes
//! nothing, and that a connection text answers its one outcome: of each key the last value, or the first fault.
#![tactic(auto)]

pub mod address;
mod choices;
pub mod config;
pub mod equality;
pub mod error;
mod host_addr;
mod keys;
mod lists;
mod numbers;
pub mod parse;
pub mod setters;
mod settings;

pub use crate::config::{
    ChannelBinding, Config, LoadBalanceHosts, SslMode, SslNegotiation, TargetSessionAttrs,
};
