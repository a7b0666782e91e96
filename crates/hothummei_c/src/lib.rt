//! The push core as a C library: a session by a handle, whose bytes the caller moves.
//!
//! To a C caller it promises, call by call, what `Dialogue` promises: a session stands for the bytes that it was given and
//! those that it put out, and what it reports is the report of that session. `include/hothummei.h` has the calls, and
//! `docs/C.md` what is proved of each up to the border.
#![tactic(auto)]

pub mod asks;
pub mod calls;
pub mod codes;
pub mod held;
pub mod infos;
pub mod places;
pub mod reads;
pub mod report;
pub mod rows;
pub mod session;
pub mod steps;
pub mod turns;
pub mod values;
