//! The parts of a connection text.

use anyhow::Result;
use pgw_config_text::part::{Fault, Part};
use pgw_config_text::text;
use std::alloc::Global;

fn part_shown(alloc: Global, part: &Part) -> Result<String> {
    match part {
        Part::Pair(key, value) => Ok(format!(in alloc; "{}={};", key.as_str(), value.as_str())?),
        Part::Host(host) => Ok(format!(in alloc; "[{}];", host.as_str())?),
        Part::Password(password) => Ok(format!(in alloc; "{:?};", password.as_slice())?),
    }
}

// How the parts of a text end.
fn end_of(fault: &Option<Fault>) -> &'static str {
    match fault {
        None => "end",
        Some(Fault::Syntax) => "syntax",
        Some(Fault::Host) => "host",
        Some(Fault::NotUtf8(_)) => "bytes",
    }
}

/// The parts of a text and how they end.
pub fn parts_shown(alloc: Global, text: &str) -> Result<String> {
    let cut = text::cut(alloc, text)?;
    let mut out = String::new(alloc);
    for part in cut.parts.as_slice() {
        let shown = part_shown(alloc, part)?;
        out.push_str(shown.as_str())?;
    }
    out.push_str(end_of(&cut.fault))?;
    Ok(out)
}
