//! Runs the cases of a table on standard input, and says of each whether the program does what it wants. The head of
//! the table says how its lines are read.
#![tactic(auto)]

mod case;
mod outcome;
mod table;
mod wanted;

use crate::case::Case;
use crate::outcome::{Outcome, run_case};
use crate::table::{Section, read_table};
use anyhow::{Context, Result, ensure};
use std::alloc::Global;
use std::io;
use std::io::BufReader;

// What came, where it is not what the case wants.
fn told(alloc: Global, case: &Case, outcome: &Outcome) -> Result<Option<String>> {
    if outcome.fits(case) {
        return Ok(None);
    }
    Ok(Some(outcome.shown(alloc)?))
}

fn came_of(alloc: Global, case: &Case) -> Result<Option<String>> {
    let outcome = run_case(alloc, case)?;
    let came = told(alloc, case, &outcome);
    drop(outcome);
    came
}

// What came in a case, where it is not what was wanted.
fn failure(alloc: Global, section: &Section) -> Result<Option<String>> {
    let name = section.name.as_str();
    let case = Case::read(alloc, section.text.as_str()).context(format_args!("{name}"))?;
    let came = came_of(alloc, &case);
    drop(case);
    came
}

// Says of a case whether it is as it wants, which it answers.
fn is_right(rt: &HostRuntime, section: &Section) -> Result<bool> {
    let name = section.name.as_str();
    match failure(rt.alloc(), section)? {
        Some(came) => {
            println!(rt; "{name}: {came}")?;
            Ok(false)
        }
        None => {
            println!(rt; "{name} ok")?;
            Ok(true)
        }
    }
}

// How many cases there are, and how many of them failed.
fn counted(rt: &HostRuntime, sections: &[Section]) -> Result<(u64, u64)> {
    let mut cases = 0u64;
    let mut failed = 0u64;
    for section in sections {
        if section.is_case {
            cases = cases.saturating_add(1);
            if !is_right(rt, section)? {
                failed = failed.saturating_add(1);
            }
        }
    }
    Ok((cases, failed))
}

fn main(rt: HostRuntime) -> Result<()> {
    let alloc = rt.alloc();
    let table = io::read_to_string(alloc, BufReader::new(alloc, rt.reader())?)?;
    let sections = read_table(alloc, table.as_str())?;
    let (cases, failed) = counted(&rt, &sections)?;
    println!(rt; "{cases} cases, {failed} failed")?;
    ensure!(failed == 0, "a case failed");
    Ok(())
}
