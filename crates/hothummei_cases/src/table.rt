//! The sections of a table.

use anyhow::{Context, Result, bail};
use std::alloc::Global;

/// A case, or a piece that cases share: its lines, and in the place of each `use` those of the piece.
#[derive(Drop)]
pub struct Section {
    pub name: String,
    pub is_case: bool,
    pub text: String,
}

impl Section {
    fn new(alloc: Global, name: &str, is_case: bool) -> Result<Section> {
        Ok(Section {
            name: String::from_str(alloc, name)?,
            is_case,
            text: String::new(alloc),
        })
    }
}

/// A line's first word, and what stands behind the blank after it.
pub fn split(line: &str) -> (&str, &str) {
    line.split_once(' ').unwrap_or((line, ""))
}

// The text of the piece with this name.
fn text_of(alloc: Global, sections: &[Section], name: &str) -> Result<String> {
    for section in sections {
        if !section.is_case && section.name.as_str() == name {
            return Ok(String::from_str(alloc, section.text.as_str())?);
        }
    }
    bail!("no piece {name}")
}

// Adds lines to the last section.
fn add(sections: &mut [Section], text: &str) -> Result<()> {
    let section = sections
        .last_mut()
        .context(format_args!("a line outside a case: {text}"))?;
    section.text.push_str(text)?;
    section.text.push_str("\n")?;
    Ok(())
}

fn read_line(alloc: Global, sections: &mut Vec<Section>, line: &str) -> Result<()> {
    match split(line) {
        ("==", name) => sections.push(Section::new(alloc, name, true)?)?,
        ("let", name) => sections.push(Section::new(alloc, name, false)?)?,
        ("use", name) => {
            let text = text_of(alloc, sections, name)?;
            add(sections, text.as_str())?;
        }
        _ => add(sections, line)?,
    }
    Ok(())
}

/// The sections of a table. Empty lines, and those that begin with `#`, are passed over.
pub fn read_table(alloc: Global, table: &str) -> Result<Vec<Section>> {
    let mut sections = Vec::new(alloc);
    for line in table.lines() {
        if !line.is_empty() && !line.starts_with('#') {
            read_line(alloc, &mut sections, line)?;
        }
    }
    Ok(sections)
}
