//! A session of any size, made from a number.
ghost use Rattle.std.specs.Prelude.{◌≡◌, ◌<◌, ◌^◌, ◌++◌, ℕ, OnOk, IfOk};
ghost use Rattle.pgw_prog_sessions.specs.Stream.{IsStream};
ghost use Rattle.pgw_prog.specs.GenSession.{GivesSummary};
ghost use Rattle.pgw_prog.specs.Generated.{SaysGen, stream_summary, summary_text};
ghost use Rattle.pgw_prog.specs.Held.{Says};

use crate::gen_session::gen_session;
use crate::printed::Printed;
use pgw_backend::client_error::{PgWireClientError, PgWireClientResult};
use pgw_link::memory::MemoryLink;
use pgw_prog_sessions::pieces::{put, put_decimal, put_hex};
use pgw_prog_sessions::stream::stream;
use pgw_prog_sessions::summary::GenSummary;
use pgw_types::listed::Listed;
use pgw_types::memory::OutOfMemory;
use pgw_types::octets::Octets;
use std::alloc::Global;

// The most bytes that a call of the link moves.
const CUT: usize = 65536;

#[tactic(auto, unfolding(crate::specs::Generated::summary_text))]
fn put_summary(out: &mut Vec<u8>, summary: &GenSummary, bytes: u64) -> Result<(), OutOfMemory>
    ensures { OnOk result (out.new.items ≡ out.old.items ++ summary_text summary.now bytes) }
{
    put(out, b"rows ")?;
    put_decimal(out, summary.rows)?;
    put(out, b"\nbytes ")?;
    put_decimal(out, bytes)?;
    put(out, b"\nsha256 ")?;
    put_hex(out, &summary.digest)?;
    put(out, b"\n")
}

// The text of a summary.
fn says(alloc: Global, summary: &GenSummary, bytes: u64) -> Result<Printed, OutOfMemory>
    ensures { IfOk result (λ p. Says p (summary_text summary.now bytes) 0) }
{
    let mut text = Vec::new(alloc);
    put_summary(&mut text, summary, bytes)?;
    Ok(Printed {
        text,
        status: 0,
        told: String::new(alloc),
    })
}

// Holds the session over what the server sends. Where that is a stream, no error comes but want of memory.
fn hold(alloc: Global, server: Octets, nonce: &[u8; 18]) -> PgWireClientResult<GenSummary>
    ensures { (count start : ℕ) → count < 2 ^ 64 → IsStream count start server →
        GivesSummary (stream_summary count start) result }
{
    let limit = server.len() as u64;
    let mut link = MemoryLink::new(alloc, server, CUT, Listed::new(alloc), Listed::new(alloc));
    let held = gen_session(alloc, &mut link, nonce, limit);
    if link.was_short_of_memory() {
        drop(held);
        return Err(PgWireClientError::OutOfMemory);
    }
    held
}

/// Holds the session over its stream, and prints how many rows and bytes it had, and the digest of its rows.
pub fn generate(
    alloc: Global,
    rows: u32,
    start: u32,
    nonce: &[u8; 18],
) -> Result<Printed, OutOfMemory>
    ensures { IfOk result (SaysGen rows start) }
{
    let Ok(bytes) = stream(alloc, rows, start)?.freeze() else {
        return Err(OutOfMemory);
    };
    let len = bytes.len() as u64;
    match hold(alloc, Octets::from_bytes(bytes), nonce) {
        Ok(summary) => says(alloc, &summary, len),
        // The stream completes the session, so no other error comes.
        Err(error) => {
            prove!(matches!(&error, PgWireClientError::OutOfMemory));
            drop(error);
            Err(OutOfMemory)
        }
    }
}
