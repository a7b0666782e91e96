//! Relay scripts.
ghost use Rattle.std.specs.Prelude.{◌≡◌, ◌<◌, Some, None, OnOk, IfOk, if◌then◌else◌};
ghost use Rattle.pgw_prog_script.specs.Form.{step, read_script, ReadsScript};
ghost use Rattle.pgw_prog_script.specs.Line.{bytes_in};
ghost use Rattle.pgw_prog_script.specs.RequestLine.{make_line};
ghost use Rattle.pgw_prog_script.specs.RelayLine.{MovesBytes, relay_line_of};
ghost use Rattle.pgw_prog_script.specs.RelayScript.{relay_form, first_relay, with_relay_line, relay_place, relay_follows as follows, relay_may_end};

use crate::lines::{Draft, ScriptFault, read_whole};
use crate::relay_line::{RelayLine, read_relay_line};
use crate::server_bytes::ServerBytes;
use pgw_proxy::recorded::Side;
use pgw_types::listed::Listed;
use pgw_types::marks::behind_word;
use pgw_types::memory::OutOfMemory;
use std::alloc::Global;

/// What a client and a server send, and in which turns a proxy between them reads it.
#[derive(Debug, Drop)]
pub struct RelayScript {
    /// The most bytes that one call moves.
    pub cut: usize,
    pub client: ServerBytes,
    pub server: ServerBytes,
    pub turns: Listed<Side>,
}

/// The kind of the line that was read last.
#[derive(Clone, Copy, Debug, PartialEq, Eq)]
pub enum RelayPlace {
    Start,
    Cut,
    Client,
    Server,
    Turns,
}

impl RelayScript {
    fn new(alloc: Global) -> RelayScript
        ensures { result ≡ first_relay }
    {
        RelayScript {
            cut: 1,
            client: ServerBytes::new(alloc),
            server: ServerBytes::new(alloc),
            turns: Listed::new(alloc),
        }
    }

    fn take(&mut self, line: RelayLine) -> Result<(), OutOfMemory>
        ensures { OnOk result (self.new ≡ with_relay_line self.old line) }
    {
        match line {
            RelayLine::Cut(cut) => self.cut = cut,
            RelayLine::Client(bytes) => self.client.add(bytes.as_slice())?,
            RelayLine::Server(bytes) => self.server.add(bytes.as_slice())?,
            RelayLine::Turns(turns) => self.turns = turns,
        }
        Ok(())
    }
}

fn place_of(line: &RelayLine) -> RelayPlace
    ensures { result ≡ relay_place line.now }
{
    match line {
        RelayLine::Cut(_) => RelayPlace::Cut,
        RelayLine::Client(_) => RelayPlace::Client,
        RelayLine::Server(_) => RelayPlace::Server,
        RelayLine::Turns(_) => RelayPlace::Turns,
    }
}

/// Whether a line of the second kind may stand behind one of the first.
pub fn relay_may_follow(before: RelayPlace, next: RelayPlace) -> bool
    ensures { result ≡ follows before next }
{
    match before {
        RelayPlace::Start => matches!(next, RelayPlace::Cut),
        RelayPlace::Cut | RelayPlace::Client => {
            matches!(
                next,
                RelayPlace::Client | RelayPlace::Server | RelayPlace::Turns
            )
        }
        RelayPlace::Server => matches!(next, RelayPlace::Server | RelayPlace::Turns),
        RelayPlace::Turns => false,
    }
}

fn may_end(place: RelayPlace) -> bool
    ensures { result ≡ relay_may_end place }
{
    matches!(place, RelayPlace::Turns)
}

/// A relay script as far as its lines were read.
#[derive(Drop)]
pub struct RelayDraft {
    place: RelayPlace,
    script: RelayScript,
}

impl RelayDraft {
    // Takes a line, where it may stand here.
    fn take(&mut self, line: RelayLine) -> Result<bool, OutOfMemory>
        ensures step { IfOk result (λ went. step relay_form self.old.place self.old.script
            (Some line) ≡ (if went then Some (self.new.place, self.new.script) else None)) }
        ensures moves { OnOk result (0 < self.old.script.cut → MovesBytes line →
            0 < self.new.script.cut) }
    {
        let next = place_of(&line);
        if !relay_may_follow(self.place, next) {
            return Ok(false);
        }
        self.script.take(line)?;
        self.place = next;
        Ok(true)
    }

    // Takes a line of the client's bytes, where it may stand here and is in the grammar.
    fn take_client(&mut self, digits: &[u8]) -> Result<bool, OutOfMemory>
        ensures step { IfOk result (λ went. step relay_form self.old.place self.old.script
            (make_line RelayLine.Client (bytes_in digits.now))
            ≡ (if went then Some (self.new.place, self.new.script) else None)) }
        ensures moves { OnOk result (0 < self.old.script.cut → 0 < self.new.script.cut) }
    {
        if !relay_may_follow(self.place, RelayPlace::Client) {
            return Ok(false);
        }
        if !self.script.client.add_hex(digits)? {
            return Ok(false);
        }
        self.place = RelayPlace::Client;
        Ok(true)
    }

    // Takes a line of the server's bytes.
    fn take_server(&mut self, digits: &[u8]) -> Result<bool, OutOfMemory>
        ensures step { IfOk result (λ went. step relay_form self.old.place self.old.script
            (make_line RelayLine.Server (bytes_in digits.now))
            ≡ (if went then Some (self.new.place, self.new.script) else None)) }
        ensures moves { OnOk result (0 < self.old.script.cut → 0 < self.new.script.cut) }
    {
        if !relay_may_follow(self.place, RelayPlace::Server) {
            return Ok(false);
        }
        if !self.script.server.add_hex(digits)? {
            return Ok(false);
        }
        self.place = RelayPlace::Server;
        Ok(true)
    }
}

impl Draft for RelayDraft {
    ghost use Rattle.std.specs.Prelude.{◌<◌};
    ghost use Rattle.pgw_prog_script.specs.declared.relay_line.RelayLine.{RelayLine as TheLine};
    ghost use Rattle.pgw_prog_script.specs.declared.relay_script.RelayPlace.{RelayPlace as ThePlace};
    ghost use Rattle.pgw_prog_script.specs.RelayScript.{relay_form};

    type Script = RelayScript;

    ghost Line = { TheLine };

    ghost Place = { ThePlace };

    ghost form = { relay_form };

    ghost place = { λ draft. draft.place };

    ghost script = { λ draft. draft.script };

    ghost Holds = { λ script. 0 < script.cut };

    fn new(alloc: Global) -> RelayDraft {
        RelayDraft {
            place: RelayPlace::Start,
            script: RelayScript::new(alloc),
        }
    }

    #[tactic(auto, unfolding(crate::specs::RelayLine::relay_line_of))]
    fn read(&mut self, alloc: Global, line: &[u8]) -> Result<bool, OutOfMemory> {
        if let Some(digits) = behind_word(b"client ", line) {
            return self.take_client(digits);
        }
        if let Some(digits) = behind_word(b"server ", line) {
            return self.take_server(digits);
        }
        match read_relay_line(alloc, line)? {
            Some(line) => self.take(line),
            None => Ok(false),
        }
    }

    fn may_end(&self) -> bool {
        may_end(self.place)
    }

    fn finish(self) -> RelayScript {
        self.script
    }
}

/// Reads a whole relay script.
pub fn parse_relay(alloc: Global, text: &[u8]) -> Result<RelayScript, ScriptFault>
    ensures exact { ReadsScript result (read_script relay_form text.now) }
    ensures moves { IfOk result (λ s. 0 < s.cut) }
{
    read_whole::<RelayDraft>(alloc, text)
}
