//! What stands before a case's calls.
ghost use Rattle.std.specs.Prelude.{◌<◌, IfOk};
ghost use Rattle.pgw_link.specs.MemoryLinks.{IsUnused};

use crate::link::CaseDialer;
use crate::pieces::Pieces;
use anyhow::Result;
use pgw_client::{Config, PgWireClientError, PgWireClientResult};
use pgw_link::memory::MemoryLink;
use pgw_link::memory_dialer::MemoryDialer;
use pgw_types::listed::Listed;
use pgw_types::octets::Octets;
use std::alloc::Global;
use std::num::NonZeroUsize;

/// A server's bytes, the calls that fail, the limit, and what the configuration has besides user and host.
#[derive(Drop)]
pub struct Case {
    pub name: String,
    server: Vec<u8>,
    cut: Option<NonZeroUsize>,
    fail_reads: Vec<u64>,
    fail_writes: Vec<u64>,
    fail_dials: Vec<u64>,
    fail_second_writes: Vec<u64>,
    fail_flush: u64,
    pub limit: u64,
    hash: Vec<u8>,
    config: String,
}

impl Case {
    fn new(alloc: Global) -> Result<Case> {
        Ok(Case {
            name: String::new(alloc),
            server: Vec::new(alloc),
            cut: None,
            fail_reads: Vec::new(alloc),
            fail_writes: Vec::new(alloc),
            fail_dials: Vec::new(alloc),
            fail_second_writes: Vec::new(alloc),
            fail_flush: 0,
            limit: 100_000,
            hash: Vec::new(alloc),
            config: String::from_str(alloc, "user=bob host=a")?,
        })
    }

    /// A name, settings and the server's bytes.
    pub fn read(alloc: Global, pieces: &Pieces, head: &str) -> Result<Case> {
        let mut case = Case::new(alloc)?;
        for word in head.split(' ') {
            if case.name.is_empty() {
                case.name.push_str(word)?;
            } else if let Some((key, value)) = word.split_once('=') {
                case.set(alloc, key, value)?;
            } else {
                pieces.append(alloc, word, &mut case.server)?;
            }
        }
        Ok(case)
    }

    fn set(&mut self, alloc: Global, key: &str, value: &str) -> Result<()> {
        match key {
            "limit" => self.limit = value.parse::<u64>()?,
            "cut" => self.cut = Some(value.parse::<NonZeroUsize>()?),
            "hash" => self.hash = hex::decode(alloc, value)?,
            "fail-flush" => self.fail_flush = value.parse::<u64>()?,
            _ => self.add(key, value)?,
        }
        Ok(())
    }

    // Adds a call that fails, or else a setting of the configuration.
    fn add(&mut self, key: &str, value: &str) -> Result<()> {
        match key {
            "fail-read" => add_number(&mut self.fail_reads, value),
            "fail-write" => add_number(&mut self.fail_writes, value),
            "fail-dial" => add_number(&mut self.fail_dials, value),
            "fail-second-write" => add_number(&mut self.fail_second_writes, value),
            _ => add_setting(&mut self.config, key, value),
        }
    }

    /// What a client is configured by, with the certificate's hash where one is set.
    pub fn configuration(&self, alloc: Global) -> Result<PgWireClientResult<Config>> {
        let mut config = match Config::parse(alloc, self.config.as_str()) {
            Ok(config) => config,
            Err(e) => return Ok(Err(PgWireClientError::from(e))),
        };
        if !self.hash.is_empty() {
            config.set_certificate_hash(alloc, self.hash.as_slice())?;
        }
        Ok(Ok(config))
    }

    /// A dialer with a link to the server, and one to a server that says nothing.
    pub fn dialer(&self, alloc: Global) -> Result<CaseDialer> {
        Ok(CaseDialer::new(self.links(alloc)?, self.fail_flush))
    }

    // A link to the server.
    fn link(&self, alloc: Global) -> Result<MemoryLink>
        ensures { IfOk result IsUnused }
    {
        let server = Octets::from_slice(alloc, &self.server)?;
        let fail_reads = numbers(alloc, &self.fail_reads)?;
        let fail_writes = numbers(alloc, &self.fail_writes)?;
        Ok(MemoryLink::new(alloc, server, cut_of(self.cut), fail_reads, fail_writes))
    }

    // A link to a server that says nothing.
    fn silent_link(&self, alloc: Global) -> Result<MemoryLink>
        ensures { IfOk result IsUnused }
    {
        let silent = Octets::from_slice(alloc, &[])?;
        let fail_writes = numbers(alloc, &self.fail_second_writes)?;
        Ok(MemoryLink::new(
            alloc,
            silent,
            cut_of(self.cut),
            Listed::new(alloc),
            fail_writes,
        ))
    }

    fn links(&self, alloc: Global) -> Result<MemoryDialer> {
        let mut links = Listed::new(alloc);
        links.push(self.link(alloc)?)?;
        links.push(self.silent_link(alloc)?)?;
        Ok(MemoryDialer::new(links, numbers(alloc, &self.fail_dials)?))
    }
}

fn add_number(numbers: &mut Vec<u64>, value: &str) -> Result<()> {
    numbers.push(value.parse::<u64>()?)?;
    Ok(())
}

fn add_setting(config: &mut String, key: &str, value: &str) -> Result<()> {
    for part in [" ", key, "=", value] {
        config.push_str(part)?;
    }
    Ok(())
}

fn cut_of(cut: Option<NonZeroUsize>) -> usize
    ensures { 0 < result }
{
    match cut {
        Some(cut) => cut.get(),
        None => 1000,
    }
}

fn numbers(alloc: Global, numbers: &[u64]) -> Result<Listed<u64>> {
    let mut listed = Listed::new(alloc);
    for number in numbers {
        listed.push(*number)?;
    }
    Ok(listed)
}
