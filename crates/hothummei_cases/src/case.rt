//! One case.

use crate::table::split;
use crate::wanted::{Wanted, add_form, hex_bytes};
use anyhow::{Context, Result, bail};
use pgw_types::listed::Listed;
use std::alloc::Global;
use std::num::NonZeroUsize;

/// A call that can be told to fail.
#[derive(Clone, Copy, PartialEq)]
pub enum Call {
    Read,
    Write,
    Told,
    Dial,
    LinkRead,
    LinkWrite,
}

impl Call {
    fn named(name: &str) -> Option<Call> {
        match name {
            "read" => Some(Call::Read),
            "write" => Some(Call::Write),
            "told" => Some(Call::Told),
            "dial" => Some(Call::Dial),
            "link-read" => Some(Call::LinkRead),
            "link-write" => Some(Call::LinkWrite),
            _ => None,
        }
    }
}

// The text of hex digits.
fn hex_text(alloc: Global, digits: &str) -> Result<String> {
    Ok(String::from_utf8(hex_bytes(alloc, digits)?)?)
}

#[derive(Drop)]
struct Failing {
    call: Call,
    number: u64,
}

/// What the program is given, and what is wanted of it.
#[derive(Drop)]
pub struct Case {
    pub words: Vec<String>,
    pub input: Vec<u8>,
    pub server: Vec<u8>,
    pub cut: Option<NonZeroUsize>,
    failing: Vec<Failing>,
    pub output: Wanted,
    pub told: Wanted,
    pub sent: Wanted,
    pub status: u8,
}

impl Case {
    fn new(alloc: Global) -> Case {
        Case {
            words: Vec::new(alloc),
            input: Vec::new(alloc),
            server: Vec::new(alloc),
            cut: None,
            failing: Vec::new(alloc),
            output: Wanted::new(alloc),
            told: Wanted::new(alloc),
            sent: Wanted::new(alloc),
            status: 0,
        }
    }

    /// The case that the lines of a section describe.
    pub fn read(alloc: Global, text: &str) -> Result<Case> {
        let mut case = Case::new(alloc);
        match case.add_all(alloc, text) {
            Ok(()) => Ok(case),
            Err(error) => {
                drop(case);
                Err(error)
            }
        }
    }

    fn add_all(&mut self, alloc: Global, text: &str) -> Result<()> {
        for line in text.lines() {
            if !line.is_empty() {
                self.add(alloc, line).context(format_args!("{line}"))?;
            }
        }
        Ok(())
    }

    fn add(&mut self, alloc: Global, line: &str) -> Result<()> {
        let (key, text) = split(line);
        if let Some(form) = key.strip_prefix('|') {
            return add_form(alloc, &mut self.input, form, text);
        }
        if let Some(form) = key.strip_prefix('>') {
            return self.output.add(alloc, form, text);
        }
        if let Some(form) = key.strip_prefix('!') {
            return self.told.add(alloc, form, text);
        }
        self.set(alloc, key, text)
    }

    fn set(&mut self, alloc: Global, key: &str, text: &str) -> Result<()> {
        match key {
            "word" => self.words.push(String::from_str(alloc, text)?)?,
            "word-hex" => self.words.push(hex_text(alloc, text)?)?,
            "server" => add_form(alloc, &mut self.server, "hex", text)?,
            "sent" => self.sent.add(alloc, "hex", text)?,
            "cut" => self.cut = Some(text.parse::<NonZeroUsize>()?),
            "status" => self.status = text.parse::<u8>()?,
            "fail" => self.fail(text)?,
            _ => bail!("no such line"),
        }
        Ok(())
    }

    fn fail(&mut self, text: &str) -> Result<()> {
        let (name, number) = split(text);
        let call = Call::named(name).context("no such call")?;
        let number = number.parse::<u64>()?;
        self.failing.push(Failing { call, number })?;
        Ok(())
    }

    /// The numbers of the calls of this kind that fail.
    pub fn numbers(&self, alloc: Global, call: Call) -> Result<Listed<u64>> {
        let mut numbers = Listed::new(alloc);
        for failing in &self.failing {
            if failing.call == call {
                numbers.push(failing.number)?;
            }
        }
        Ok(numbers)
    }
}
