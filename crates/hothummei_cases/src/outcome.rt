//! A run of the program.
ghost use Rattle.std.specs.Prelude.{◌<◌, All, IfOk};
ghost use Rattle.pgw_link.specs.MemoryLinks.{IsUnused};

use crate::case::{Call, Case};
use anyhow::Result;
use pgw_link::memory::MemoryLink;
use pgw_link::memory_dialer::MemoryDialer;
use pgw_link::memory_stream::{MemorySink, MemorySource};
use pgw_prog::program::run_program_with;
use pgw_types::listed::Listed;
use pgw_types::octets::Octets;
use std::alloc::Global;
use std::num::NonZeroUsize;

/// What a run left: what was written, the dialer with the link that was closed, and the status.
#[derive(Drop)]
pub struct Outcome {
    output: MemorySink,
    errors: MemorySink,
    dialer: MemoryDialer,
    status: u8,
}

impl Outcome {
    // The bytes sent to the server.
    fn sent(&self) -> &[u8] {
        match self.dialer.closed() {
            Some(link) => link.written(),
            None => &[],
        }
    }

    /// Whether it is what the case wants.
    pub fn fits(&self, case: &Case) -> bool {
        self.status == case.status
            && case.output.fits(self.output.written())
            && case.told.allows(self.errors.written())
            && case.sent.allows(self.sent())
    }

    /// Tells people of it.
    pub fn shown(&self, alloc: Global) -> Result<String> {
        let mut shown = format!(in alloc; "status {}, wrote ", self.status)?;
        add_text(alloc, &mut shown, self.output.written())?;
        shown.push_str(", told ")?;
        add_text(alloc, &mut shown, self.errors.written())?;
        shown.push_str(", sent ")?;
        shown.push_str(hex::encode(alloc, self.sent())?.as_str())?;
        Ok(shown)
    }

    // Runs the program. It has no clause, since those of the program make what calls it dear.
    fn run(&mut self, alloc: Global, case: &Case, input: &mut MemorySource) {
        self.status = run_program_with(
            alloc,
            &case.words,
            input,
            &mut self.output,
            &mut self.errors,
            &mut self.dialer,
            &[0; 18],
            &[0; 32],
        );
    }
}

// Adds bytes as text in quotes.
fn add_text(alloc: Global, shown: &mut String, bytes: &[u8]) -> Result<()> {
    let text = String::from_utf8_lossy(alloc, bytes)?;
    shown.push_str(format!(in alloc; "{text:?}")?.as_str())?;
    Ok(())
}

fn cut_of(cut: Option<NonZeroUsize>, usual: usize) -> usize
    requires { 0 < usual }
    ensures { 0 < result }
{
    match cut {
        Some(cut) => cut.get(),
        None => usual,
    }
}

fn source_of(alloc: Global, case: &Case) -> Result<MemorySource> {
    let bytes = Octets::from_slice(alloc, &case.input)?;
    let fail_reads = case.numbers(alloc, Call::Read)?;
    Ok(MemorySource::new(bytes, cut_of(case.cut, 100), fail_reads))
}

fn sink_of(alloc: Global, case: &Case, call: Call) -> Result<MemorySink> {
    let fail_writes = case.numbers(alloc, call)?;
    Ok(MemorySink::new(alloc, cut_of(case.cut, 7), fail_writes))
}

fn link_of(alloc: Global, case: &Case) -> Result<MemoryLink>
    ensures { IfOk result IsUnused }
{
    let server = Octets::from_slice(alloc, &case.server)?;
    let fail_reads = case.numbers(alloc, Call::LinkRead)?;
    let fail_writes = case.numbers(alloc, Call::LinkWrite)?;
    Ok(MemoryLink::new(alloc, server, cut_of(case.cut, 10), fail_reads, fail_writes))
}

// The links of a dialer: one, where the case has a server.
fn links_of(alloc: Global, case: &Case) -> Result<Listed<MemoryLink>>
    ensures { IfOk result (All IsUnused) }
{
    let mut links = Listed::new(alloc);
    if !case.server.is_empty() {
        links.push(link_of(alloc, case)?)?;
    }
    Ok(links)
}

fn dialer_of(alloc: Global, case: &Case) -> Result<MemoryDialer> {
    let links = links_of(alloc, case)?;
    Ok(MemoryDialer::new(links, case.numbers(alloc, Call::Dial)?))
}

// What a run begins with.
fn begun(alloc: Global, case: &Case) -> Result<Outcome> {
    let output = sink_of(alloc, case, Call::Write)?;
    let errors = sink_of(alloc, case, Call::Told)?;
    Ok(Outcome {
        dialer: dialer_of(alloc, case)?,
        output,
        errors,
        status: 0,
    })
}

/// Runs the program as the case says.
pub fn run_case(alloc: Global, case: &Case) -> Result<Outcome> {
    let mut input = source_of(alloc, case)?;
    let mut outcome = begun(alloc, case)?;
    outcome.run(alloc, case, &mut input);
    drop(input);
    Ok(outcome)
}
