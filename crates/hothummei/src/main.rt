//! The program.
#![tactic(auto)]

mod clock;
mod commands;
mod credentials;
mod surroundings;

use crate::commands::start;
use std::process::ExitCode;

fn main(rt: HostRuntime) -> ExitCode {
    ExitCode::from(start(&rt))
}
