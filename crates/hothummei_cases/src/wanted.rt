//! Bytes given to the program or wanted of it.

use crate::table::split;
use anyhow::{Result, bail};
use std::alloc::Global;

/// The bytes of hex digits, among which blanks may stand.
pub fn hex_bytes(alloc: Global, digits: &str) -> Result<Vec<u8>> {
    let digits: String = digits.chars().filter(|c| *c != ' ').collect(alloc)?;
    Ok(hex::decode(alloc, digits.as_str())?)
}

fn add_line(bytes: &mut Vec<u8>, text: &str) -> Result<()> {
    bytes.extend_from_slice(text.as_bytes())?;
    bytes.push(b'\n')?;
    Ok(())
}

fn repeat(bytes: &mut Vec<u8>, text: &str) -> Result<()> {
    let (count, line) = split(text);
    for _ in 0..count.parse::<u64>()? {
        add_line(bytes, line)?;
    }
    Ok(())
}

fn fill(bytes: &mut Vec<u8>, length: &str) -> Result<()> {
    let length = length.parse::<usize>()?;
    bytes.resize(length.max(bytes.len()), b' ')?;
    Ok(())
}

/// Adds what a line of this form stands for.
pub fn add_form(alloc: Global, bytes: &mut Vec<u8>, form: &str, text: &str) -> Result<()> {
    match form {
        "" => add_line(bytes, text),
        "part" => Ok(bytes.extend_from_slice(text.as_bytes())?),
        "hex" => Ok(bytes.extend_from_slice(&hex_bytes(alloc, text)?)?),
        "repeat" => repeat(bytes, text),
        "fill" => fill(bytes, text),
        _ => bail!("no form {form} of a line"),
    }
}

/// What is to be written: a front, and where a gap is left the end.
#[derive(Drop)]
pub struct Wanted {
    is_stated: bool,
    front: Vec<u8>,
    end: Option<Vec<u8>>,
}

impl Wanted {
    pub fn new(alloc: Global) -> Wanted {
        Wanted {
            is_stated: false,
            front: Vec::new(alloc),
            end: None,
        }
    }

    pub fn add(&mut self, alloc: Global, form: &str, text: &str) -> Result<()> {
        self.is_stated = true;
        if form == ".." {
            self.end = Some(Vec::new(alloc));
            return Ok(());
        }
        match &mut self.end {
            Some(end) => add_form(alloc, end, form, text),
            None => add_form(alloc, &mut self.front, form, text),
        }
    }

    /// Whether it is this, or nothing was said of it.
    pub fn allows(&self, written: &[u8]) -> bool {
        !self.is_stated || self.fits(written)
    }

    /// Whether it is this.
    pub fn fits(&self, written: &[u8]) -> bool {
        match &self.end {
            None => written == self.front.as_slice(),
            Some(end) => written
                .strip_prefix(self.front.as_slice())
                .is_some_and(|rest| rest.ends_with(end)),
        }
    }
}
