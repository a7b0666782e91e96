//! Scripts: what a text of them says.
//!
//! To the crate that runs them it promises the whole reading: `script::parse` answers each text's one session script,
//! `pair_script::parse_pair` its one pair script, `relay_script::parse_relay` its one relay script,
//! `pool_script::parse_pool` its one pool script, or the number of its first line outside the grammar, which
//! `specs/Grammar` tells as a relation over a kind of scripts (`specs/Form`); `grammar::grammar_is_read` is the law that
//! both agree. `expected::expected_at` has the words for what was expected at that line.
#![tactic(auto)]

pub mod equality;
pub mod expected;
pub mod grammar;
mod hex_digits;
mod line;
pub mod lines;
pub mod number;
mod pair_line;
pub mod pair_script;
mod pool_line;
pub mod pool_script;
mod relay_line;
pub mod relay_script;
mod request_line;
pub mod script;
pub mod server_bytes;

pub use crate::expected::{
    expected_at, expected_in_pair_at, expected_in_pool_at, expected_in_relay_at,
};
pub use crate::grammar::grammar_is_read;
pub use crate::lines::{Draft, ScriptFault, read_whole};
pub use crate::number::read_number;
pub use crate::pair_script::{PairDraft, PairPlace, PairScript, pair_may_follow, parse_pair};
pub use crate::pool_script::{PoolDraft, PoolPlace, PoolScript, parse_pool, pool_may_follow};
pub use crate::relay_script::{RelayDraft, RelayPlace, RelayScript, parse_relay, relay_may_follow};
pub use crate::script::{Place, Script, ScriptDraft, may_follow, parse};
pub use crate::server_bytes::ServerBytes;
