//! Says of each case of a table on standard input what a connection text stands for. The head of the table says how its
//! lines are read.
#![tactic(auto)]

mod case;
mod fields;
mod parts;

use crate::case::answer_of;
use anyhow::{Context, Result};
use std::alloc::Global;
use std::io;
use std::io::BufReader;

// What is printed of a line, where something is.
fn printed(alloc: Global, line: &str) -> Result<Option<String>> {
    if line.is_empty() || line.starts_with('#') {
        return Ok(None);
    }
    if line.starts_with("==") {
        return Ok(Some(String::from_str(alloc, line)?));
    }
    let answer = answer_of(alloc, line)?;
    Ok(Some(format!(in alloc; "{line} -> {answer}")?))
}

fn main(rt: HostRuntime) -> Result<()> {
    let alloc = rt.alloc();
    let table = io::read_to_string(alloc, BufReader::new(alloc, rt.reader())?)?;
    for line in table.lines() {
        if let Some(text) = printed(alloc, line).context(format_args!("{line}"))? {
            println!(rt; "{text}")?;
        }
    }
    Ok(())
}
