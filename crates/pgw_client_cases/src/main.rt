//! Says of each case of a table on standard input what the calls of a client come to. The head of the table says how its
//! lines are read.
#![tactic(auto)]

mod case;
mod extended;
mod link;
mod listener;
mod own;
mod pieces;
mod run;
mod shown;

use crate::case::Case;
use crate::pieces::Pieces;
use crate::run::answers;
use anyhow::{Context, Result};
use std::alloc::Global;
use std::io;
use std::io::BufReader;

// What is printed of a line, where something is.
fn printed(alloc: Global, pieces: &mut Pieces, line: &str) -> Result<Option<String>> {
    if line.is_empty() || line.starts_with('#') {
        return Ok(None);
    }
    if line.starts_with("==") {
        return Ok(Some(String::from_str(alloc, line)?));
    }
    if let Some(piece) = line.strip_prefix("let ") {
        pieces.add(alloc, piece)?;
        return Ok(None);
    }
    let (head, calls) = line.split_once(" : ").context("a line without calls")?;
    let case = Case::read(alloc, pieces, head)?;
    let answers = answers(alloc, &case, calls)?;
    let name = case.name.as_str();
    Ok(Some(format!(in alloc; "{name}: {answers}")?))
}

fn main(rt: HostRuntime) -> Result<()> {
    let alloc = rt.alloc();
    let table = io::read_to_string(alloc, BufReader::new(alloc, rt.reader())?)?;
    let mut pieces = Pieces::new(alloc);
    for line in table.lines() {
        let text = printed(alloc, &mut pieces, line).context(format_args!("{line}"))?;
        if let Some(text) = text {
            println!(rt; "{text}")?;
        }
    }
    Ok(())
}
