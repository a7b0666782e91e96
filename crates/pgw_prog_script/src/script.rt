//! Session scripts.
ghost use Rattle.std.specs.Prelude.{◌≡◌, ◌<◌, Some, None, OnOk, IfOk, if◌then◌else◌};
ghost use Rattle.pgw_prog_script.specs.Form.{step, read_script, ReadsScript};
ghost use Rattle.pgw_prog_script.specs.Line.{CutMovesByte, bytes_in, known};
ghost use Rattle.pgw_prog_script.specs.Script.{session_form, first_script, with_line, line_place as place_for, may_follow as follows, may_end as ends};

use crate::line::{Line, read_line};
use crate::lines::{Draft, ScriptFault, read_whole};
use crate::server_bytes::ServerBytes;
use pgw_session::types::Request;
use pgw_types::context::ProtocolVersion;
use pgw_types::listed::Listed;
use pgw_types::marks::behind_word;
use pgw_types::memory::OutOfMemory;
use pgw_types::octets::Octets;
use pgw_types::text::Text;
use std::alloc::Global;

/// A session to be held over a link in memory.
#[derive(Debug, Drop)]
pub struct Script {
    /// The connection text.
    pub config: Text,
    pub protocol_version: ProtocolVersion,
    /// The hash of the server's certificate, where one is known.
    pub certificate_hash: Option<Octets>,
    pub nonce: [u8; 18],
    pub limit: u64,
    pub cut: usize,
    pub fail_reads: Listed<u64>,
    pub fail_writes: Listed<u64>,
    pub requests: Listed<Request>,
    /// What the server sends.
    pub server: ServerBytes,
}

/// The kind of the line that was read last.
#[derive(Clone, Copy, Debug, PartialEq, Eq)]
pub enum Place {
    Start,
    Config,
    Protocol,
    Certificate,
    Nonce,
    Limit,
    Cut,
    Fail,
    Request,
    Server,
}

impl Script {
    fn new(alloc: Global) -> Script
        ensures { result ≡ first_script }
    {
        Script {
            config: Text::new(alloc),
            protocol_version: ProtocolVersion::PROTOCOL3_0,
            certificate_hash: None,
            nonce: [0; 18],
            limit: 0,
            cut: 1,
            fail_reads: Listed::new(alloc),
            fail_writes: Listed::new(alloc),
            requests: Listed::new(alloc),
            server: ServerBytes::new(alloc),
        }
    }

    fn take(&mut self, line: Line) -> Result<(), OutOfMemory>
        ensures { OnOk result (self.new ≡ with_line self.old line) }
    {
        match line {
            Line::Config(text) => self.config = text,
            Line::Protocol(version) => self.protocol_version = version,
            Line::Certificate(hash) => self.certificate_hash = Some(hash),
            Line::Nonce(nonce) => self.nonce = nonce,
            Line::Limit(limit) => self.limit = limit,
            Line::Cut(cut) => self.cut = cut,
            Line::FailRead(number) => self.fail_reads.push(number)?,
            Line::FailWrite(number) => self.fail_writes.push(number)?,
            Line::Request(request) => self.requests.push(request)?,
            Line::Server(bytes) => self.server.add(bytes.as_slice())?,
        }
        Ok(())
    }
}

fn place_of(line: &Line) -> Place
    ensures { result ≡ place_for line.now }
{
    match line {
        Line::Config(_) => Place::Config,
        Line::Protocol(_) => Place::Protocol,
        Line::Certificate(_) => Place::Certificate,
        Line::Nonce(_) => Place::Nonce,
        Line::Limit(_) => Place::Limit,
        Line::Cut(_) => Place::Cut,
        Line::FailRead(_) => Place::Fail,
        Line::FailWrite(_) => Place::Fail,
        Line::Request(_) => Place::Request,
        Line::Server(_) => Place::Server,
    }
}

/// Whether a line of the second kind may stand behind one of the first.
pub fn may_follow(before: Place, next: Place) -> bool
    ensures { result ≡ follows before next }
{
    match before {
        Place::Start => matches!(next, Place::Config),
        Place::Config => { matches!(next, Place::Protocol | Place::Certificate | Place::Nonce) }
        Place::Protocol => matches!(next, Place::Certificate | Place::Nonce),
        Place::Certificate => matches!(next, Place::Nonce),
        Place::Nonce => matches!(next, Place::Limit),
        Place::Limit => matches!(next, Place::Cut),
        Place::Cut | Place::Fail => matches!(next, Place::Fail | Place::Request | Place::Server),
        Place::Request => matches!(next, Place::Request | Place::Server),
        Place::Server => matches!(next, Place::Server),
    }
}

fn may_end(place: Place) -> bool
    ensures { result ≡ ends place }
{
    matches!(
        place,
        Place::Cut | Place::Fail | Place::Request | Place::Server
    )
}

/// A session script as far as its lines were read.
#[derive(Drop)]
pub struct ScriptDraft {
    place: Place,
    script: Script,
}

impl ScriptDraft {
    // Takes a line, where it may stand here.
    fn take(&mut self, line: Line) -> Result<bool, OutOfMemory>
        ensures step { IfOk result (λ went. step session_form self.old.place self.old.script
            (Some line) ≡ (if went then Some (self.new.place, self.new.script) else None)) }
        ensures moves { OnOk result (0 < self.old.script.cut → CutMovesByte line →
            0 < self.new.script.cut) }
    {
        let next = place_of(&line);
        if !may_follow(self.place, next) {
            return Ok(false);
        }
        self.script.take(line)?;
        self.place = next;
        Ok(true)
    }

    // Takes a line of the server's bytes, where it may stand here and is in the grammar.
    fn take_server(&mut self, digits: &[u8]) -> Result<bool, OutOfMemory>
        ensures step { IfOk result (λ went. step session_form self.old.place self.old.script
            (known Line.Server (bytes_in digits.now))
            ≡ (if went then Some (self.new.place, self.new.script) else None)) }
        ensures moves { OnOk result (0 < self.old.script.cut → 0 < self.new.script.cut) }
    {
        if !may_follow(self.place, Place::Server) {
            return Ok(false);
        }
        if !self.script.server.add_hex(digits)? {
            return Ok(false);
        }
        self.place = Place::Server;
        Ok(true)
    }
}

impl Draft for ScriptDraft {
    ghost use Rattle.std.specs.Prelude.{◌<◌};
    ghost use Rattle.pgw_prog_script.specs.declared.line.Line.{Line as TheLine};
    ghost use Rattle.pgw_prog_script.specs.declared.script.Place.{Place as ThePlace};
    ghost use Rattle.pgw_prog_script.specs.Script.{session_form};

    type Script = Script;

    ghost Line = { TheLine };

    ghost Place = { ThePlace };

    ghost form = { session_form };

    ghost place = { λ draft. draft.place };

    ghost script = { λ draft. draft.script };

    ghost Holds = { λ script. 0 < script.cut };

    fn new(alloc: Global) -> ScriptDraft {
        ScriptDraft {
            place: Place::Start,
            script: Script::new(alloc),
        }
    }

    fn read(&mut self, alloc: Global, line: &[u8]) -> Result<bool, OutOfMemory> {
        if let Some(digits) = behind_word(b"server ", line) {
            return self.take_server(digits);
        }
        match read_line(alloc, line)? {
            Some(line) => self.take(line),
            None => Ok(false),
        }
    }

    fn may_end(&self) -> bool {
        may_end(self.place)
    }

    fn finish(self) -> Script {
        self.script
    }
}

/// Reads a whole session script.
pub fn parse(alloc: Global, text: &[u8]) -> Result<Script, ScriptFault>
    ensures exact { ReadsScript result (read_script session_form text.now) }
    ensures moves { IfOk result (λ s. 0 < s.cut) }
{
    read_whole::<ScriptDraft>(alloc, text)
}
