//! What a command runs over: places, servers in memory, and what it prints to.
ghost use Rattle.std.specs.Prelude.{All, IfOk};
ghost use Rattle.pgw_link.specs.MemoryLinks.{IsUnused};

use pgw_config::config::Config;
use pgw_link::memory::MemoryLink;
use pgw_link::memory_dialer::MemoryDialer;
use pgw_link::memory_stream::MemorySink;
use pgw_prog_commands::places::Place;
use pgw_types::listed::Listed;
use pgw_types::memory::OutOfMemory;
use pgw_types::octets::Octets;
use std::alloc::Global;
use std::test::Fail;

#[derive(Drop)]
pub(crate) struct Setting {
    pub(crate) places: Listed<Place>,
    pub(crate) dialer: MemoryDialer,
    pub(crate) output: MemorySink,
    pub(crate) errors: MemorySink,
}

impl Setting {
    // Whether the link that was closed last got this last.
    pub(crate) fn was_sent(&self, end: &[u8]) -> bool {
        match self.dialer.closed() {
            Some(link) => link.written().ends_with(end),
            None => false,
        }
    }
}

fn link_to(alloc: Global, server: &[u8]) -> Result<MemoryLink, OutOfMemory>
    ensures { IfOk result IsUnused }
{
    let server = Octets::from_slice(alloc, server)?;
    Ok(MemoryLink::new(alloc, server, 30, Listed::new(alloc), Listed::new(alloc)))
}

fn links_to(alloc: Global, servers: &[&[u8]]) -> Result<Listed<MemoryLink>, OutOfMemory>
    ensures { IfOk result (All IsUnused) }
{
    let mut links = Listed::new(alloc);
    for server in servers {
        links.push(link_to(alloc, server)?)?;
    }
    Ok(links)
}

fn dialer_to(alloc: Global, servers: &[&[u8]]) -> Result<MemoryDialer, OutOfMemory> {
    let links = links_to(alloc, servers)?;
    Ok(MemoryDialer::new(links, Listed::new(alloc)))
}

fn place(alloc: Global, text: &str) -> Result<Place, Fail> {
    let config = Config::parse(alloc, text)?;
    Ok(Place {
        config,
        nonce: [0; 18],
    })
}

// A place for each server, all of one connection text.
fn places(alloc: Global, text: &str, servers: &[&[u8]]) -> Result<Listed<Place>, Fail> {
    let mut places = Listed::new(alloc);
    for _ in servers {
        places.push(place(alloc, text)?)?;
    }
    Ok(places)
}

// A sink whose write of this number fails, counted from 1.
fn sink_failing_at(alloc: Global, write: u64) -> Result<MemorySink, OutOfMemory> {
    let mut numbers = Listed::new(alloc);
    numbers.push(write)?;
    Ok(MemorySink::new(alloc, 1000, numbers))
}

// Servers that say this, each at a place of its own, and an output whose write of this number fails; 0 is none.
pub(crate) fn new_setting(
    alloc: Global,
    text: &str,
    servers: &[&[u8]],
    failing_write: u64,
) -> Result<Setting, Fail> {
    let dialer = dialer_to(alloc, servers)?;
    let places = places(alloc, text, servers)?;
    let output = sink_failing_at(alloc, failing_write)?;
    let errors = MemorySink::new(alloc, 1000, Listed::new(alloc));
    Ok(Setting {
        places,
        dialer,
        output,
        errors,
    })
}
