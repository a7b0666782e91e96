//! Pool scripts.
ghost use Rattle.std.specs.Prelude.{◌≡◌, ◌<◌, Some, None, OnOk, IfOk, if◌then◌else◌};
ghost use Rattle.pgw_prog_script.specs.Form.{step, read_script, ReadsScript};
ghost use Rattle.pgw_prog_script.specs.PoolLine.{MovesPool};
ghost use Rattle.pgw_prog_script.specs.PoolScript.{pool_form, first_pool, with_pool_line, pool_place, pool_follows as follows, pool_may_end};

use crate::lines::{Draft, ScriptFault, read_whole};
pub use crate::pool_line::PoolCall;
use crate::pool_line::{PoolLine, read_pool_line};
use pgw_types::listed::Listed;
use pgw_types::memory::OutOfMemory;
use pgw_types::octets::Octets;
use pgw_types::text::Text;
use std::alloc::Global;

/// A pool of sessions with one server, and calls of it and of its leases.
#[derive(Debug, Drop)]
pub struct PoolScript {
    /// The connection text.
    pub config: Text,
    /// That of each login.
    pub nonce: [u8; 18],
    pub limit: u64,
    /// The most bytes that one call of a link moves.
    pub cut: usize,
    /// What the server sends in each session.
    pub servers: Listed<Octets>,
    pub calls: Listed<PoolCall>,
}

/// The kind of the line that was read last.
#[derive(Clone, Copy, Debug, PartialEq, Eq)]
pub enum PoolPlace {
    Start,
    Config,
    Nonce,
    Limit,
    Cut,
    Server,
    Call,
}

impl PoolScript {
    fn new(alloc: Global) -> PoolScript
        ensures { result ≡ first_pool }
    {
        PoolScript {
            config: Text::new(alloc),
            nonce: [0; 18],
            limit: 0,
            cut: 1,
            servers: Listed::new(alloc),
            calls: Listed::new(alloc),
        }
    }

    fn take(&mut self, line: PoolLine) -> Result<(), OutOfMemory>
        ensures { OnOk result (self.new ≡ with_pool_line self.old line) }
    {
        match line {
            PoolLine::Config(text) => self.config = text,
            PoolLine::Nonce(nonce) => self.nonce = nonce,
            PoolLine::Limit(limit) => self.limit = limit,
            PoolLine::Cut(cut) => self.cut = cut,
            PoolLine::Server(bytes) => self.servers.push(bytes)?,
            PoolLine::Call(call) => self.calls.push(call)?,
        }
        Ok(())
    }
}

fn place_of(line: &PoolLine) -> PoolPlace
    ensures { result ≡ pool_place line.now }
{
    match line {
        PoolLine::Config(_) => PoolPlace::Config,
        PoolLine::Nonce(_) => PoolPlace::Nonce,
        PoolLine::Limit(_) => PoolPlace::Limit,
        PoolLine::Cut(_) => PoolPlace::Cut,
        PoolLine::Server(_) => PoolPlace::Server,
        PoolLine::Call(_) => PoolPlace::Call,
    }
}

/// Whether a line of the second kind may stand behind one of the first.
pub fn pool_may_follow(before: PoolPlace, next: PoolPlace) -> bool
    ensures { result ≡ follows before next }
{
    match before {
        PoolPlace::Start => matches!(next, PoolPlace::Config),
        PoolPlace::Config => matches!(next, PoolPlace::Nonce),
        PoolPlace::Nonce => matches!(next, PoolPlace::Limit),
        PoolPlace::Limit => matches!(next, PoolPlace::Cut),
        PoolPlace::Cut => matches!(next, PoolPlace::Server),
        PoolPlace::Server => matches!(next, PoolPlace::Server | PoolPlace::Call),
        PoolPlace::Call => matches!(next, PoolPlace::Call),
    }
}

fn may_end(place: PoolPlace) -> bool
    ensures { result ≡ pool_may_end place }
{
    matches!(place, PoolPlace::Server | PoolPlace::Call)
}

/// A pool script as far as its lines were read.
#[derive(Drop)]
pub struct PoolDraft {
    place: PoolPlace,
    script: PoolScript,
}

impl PoolDraft {
    // Takes a line, where it may stand here.
    fn take(&mut self, line: PoolLine) -> Result<bool, OutOfMemory>
        ensures step { IfOk result (λ went. step pool_form self.old.place self.old.script
            (Some line) ≡ (if went then Some (self.new.place, self.new.script) else None)) }
        ensures moves { OnOk result (0 < self.old.script.cut → MovesPool line →
            0 < self.new.script.cut) }
    {
        let next = place_of(&line);
        if !pool_may_follow(self.place, next) {
            return Ok(false);
        }
        self.script.take(line)?;
        self.place = next;
        Ok(true)
    }
}

impl Draft for PoolDraft {
    ghost use Rattle.std.specs.Prelude.{◌<◌};
    ghost use Rattle.pgw_prog_script.specs.declared.pool_line.PoolLine.{PoolLine as TheLine};
    ghost use Rattle.pgw_prog_script.specs.declared.pool_script.PoolPlace.{PoolPlace as ThePlace};
    ghost use Rattle.pgw_prog_script.specs.PoolScript.{pool_form};

    type Script = PoolScript;

    ghost Line = { TheLine };

    ghost Place = { ThePlace };

    ghost form = { pool_form };

    ghost place = { λ draft. draft.place };

    ghost script = { λ draft. draft.script };

    ghost Holds = { λ script. 0 < script.cut };

    fn new(alloc: Global) -> PoolDraft {
        PoolDraft {
            place: PoolPlace::Start,
            script: PoolScript::new(alloc),
        }
    }

    fn read(&mut self, alloc: Global, line: &[u8]) -> Result<bool, OutOfMemory> {
        match read_pool_line(alloc, line)? {
            Some(line) => self.take(line),
            None => Ok(false),
        }
    }

    fn may_end(&self) -> bool {
        may_end(self.place)
    }

    fn finish(self) -> PoolScript {
        self.script
    }
}

/// Reads a whole pool script.
pub fn parse_pool(alloc: Global, text: &[u8]) -> Result<PoolScript, ScriptFault>
    ensures exact { ReadsScript result (read_script pool_form text.now) }
    ensures moves { IfOk result (λ s. 0 < s.cut) }
{
    read_whole::<PoolDraft>(alloc, text)
}
