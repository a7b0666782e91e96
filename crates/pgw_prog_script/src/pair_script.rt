//! Pair scripts.
ghost use Rattle.std.specs.Prelude.{◌≡◌, ◌<◌, Some, None, OnOk, IfOk, if◌then◌else◌};
ghost use Rattle.pgw_prog_script.specs.Form.{step, read_script, ReadsScript};
ghost use Rattle.pgw_prog_script.specs.PairLine.{HasLineCount};
ghost use Rattle.pgw_prog_script.specs.PairScript.{pair_form, first_pair, with_pair_line, pair_place, pair_follows as follows, pair_may_end};

use crate::lines::{Draft, ScriptFault, read_whole};
use crate::pair_line::{PairLine, read_pair_line};
use bytes::Bytes;
use pgw_machine::event::Event;
use pgw_types::listed::Listed;
use pgw_types::memory::OutOfMemory;
use pgw_types::octets::Octets;
use pgw_types::text::Text;
use std::alloc::Global;

/// A login of two parties, and the order in which they take what the other wrote.
#[derive(Debug, Drop)]
pub struct PairScript {
    pub user: Text,
    pub password: Text,
    /// The password that the server keeps a salted one of.
    pub stored: Text,
    pub salt: Octets,
    pub count: u32,
    pub client_nonce: [u8; 18],
    pub server_nonce: [u8; 18],
    pub words: [u8; 32],
    /// The hash of a certificate that the client knows.
    pub client_hash: Option<Octets>,
    /// The hash of the server's own certificate.
    pub server_hash: Option<Octets>,
    pub schedule: Listed<Event>,
}

/// The kind of the line that was read last.
#[derive(Clone, Copy, Debug, PartialEq, Eq)]
pub enum PairPlace {
    Start,
    User,
    Password,
    Stored,
    Salt,
    Count,
    Client,
    Server,
    Words,
    ClientHash,
    ServerHash,
    Event,
}

impl PairScript {
    fn new(alloc: Global) -> PairScript
        ensures { result ≡ first_pair }
    {
        PairScript {
            user: Text::new(alloc),
            password: Text::new(alloc),
            stored: Text::new(alloc),
            salt: Octets::from_bytes(Bytes::new()),
            count: 1,
            client_nonce: [0; 18],
            server_nonce: [0; 18],
            words: [0; 32],
            client_hash: None,
            server_hash: None,
            schedule: Listed::new(alloc),
        }
    }

    fn take(&mut self, line: PairLine) -> Result<(), OutOfMemory>
        ensures { OnOk result (self.new ≡ with_pair_line self.old line) }
    {
        match line {
            PairLine::User(text) => self.user = text,
            PairLine::Password(text) => self.password = text,
            PairLine::Stored(text) => self.stored = text,
            PairLine::Salt(salt) => self.salt = salt,
            PairLine::Count(count) => self.count = count,
            PairLine::Client(nonce) => self.client_nonce = nonce,
            PairLine::Server(nonce) => self.server_nonce = nonce,
            PairLine::Words(words) => self.words = words,
            PairLine::ClientHash(hash) => self.client_hash = Some(hash),
            PairLine::ServerHash(hash) => self.server_hash = Some(hash),
            PairLine::Event(event) => self.schedule.push(event)?,
        }
        Ok(())
    }
}

fn place_of(line: &PairLine) -> PairPlace
    ensures { result ≡ pair_place line.now }
{
    match line {
        PairLine::User(_) => PairPlace::User,
        PairLine::Password(_) => PairPlace::Password,
        PairLine::Stored(_) => PairPlace::Stored,
        PairLine::Salt(_) => PairPlace::Salt,
        PairLine::Count(_) => PairPlace::Count,
        PairLine::Client(_) => PairPlace::Client,
        PairLine::Server(_) => PairPlace::Server,
        PairLine::Words(_) => PairPlace::Words,
        PairLine::ClientHash(_) => PairPlace::ClientHash,
        PairLine::ServerHash(_) => PairPlace::ServerHash,
        PairLine::Event(_) => PairPlace::Event,
    }
}

/// Whether a line of the second kind may stand behind one of the first.
pub fn pair_may_follow(before: PairPlace, next: PairPlace) -> bool
    ensures { result ≡ follows before next }
{
    match before {
        PairPlace::Start => matches!(next, PairPlace::User),
        PairPlace::User => matches!(next, PairPlace::Password),
        PairPlace::Password => matches!(next, PairPlace::Stored),
        PairPlace::Stored => matches!(next, PairPlace::Salt),
        PairPlace::Salt => matches!(next, PairPlace::Count),
        PairPlace::Count => matches!(next, PairPlace::Client),
        PairPlace::Client => matches!(next, PairPlace::Server),
        PairPlace::Server => matches!(next, PairPlace::Words),
        PairPlace::Words => {
            matches!(
                next,
                PairPlace::ClientHash | PairPlace::ServerHash | PairPlace::Event
            )
        }
        PairPlace::ClientHash => matches!(next, PairPlace::ServerHash | PairPlace::Event),
        PairPlace::ServerHash | PairPlace::Event => matches!(next, PairPlace::Event),
    }
}

fn may_end(place: PairPlace) -> bool
    ensures { result ≡ pair_may_end place }
{
    matches!(
        place,
        PairPlace::Words | PairPlace::ClientHash | PairPlace::ServerHash | PairPlace::Event
    )
}

/// A pair script as far as its lines were read.
#[derive(Drop)]
pub struct PairDraft {
    place: PairPlace,
    script: PairScript,
}

impl PairDraft {
    // Takes a line, where it may stand here.
    fn take(&mut self, line: PairLine) -> Result<bool, OutOfMemory>
        ensures step { IfOk result (λ went. step pair_form self.old.place self.old.script
            (Some line) ≡ (if went then Some (self.new.place, self.new.script) else None)) }
        ensures counts { OnOk result (0 < self.old.script.count → HasLineCount line →
            0 < self.new.script.count) }
    {
        let next = place_of(&line);
        if !pair_may_follow(self.place, next) {
            return Ok(false);
        }
        self.script.take(line)?;
        self.place = next;
        Ok(true)
    }
}

impl Draft for PairDraft {
    ghost use Rattle.std.specs.Prelude.{◌<◌};
    ghost use Rattle.pgw_prog_script.specs.declared.pair_line.PairLine.{PairLine as TheLine};
    ghost use Rattle.pgw_prog_script.specs.declared.pair_script.PairPlace.{PairPlace as ThePlace};
    ghost use Rattle.pgw_prog_script.specs.PairScript.{pair_form};

    type Script = PairScript;

    ghost Line = { TheLine };

    ghost Place = { ThePlace };

    ghost form = { pair_form };

    ghost place = { λ draft. draft.place };

    ghost script = { λ draft. draft.script };

    ghost Holds = { λ script. 0 < script.count };

    fn new(alloc: Global) -> PairDraft {
        PairDraft {
            place: PairPlace::Start,
            script: PairScript::new(alloc),
        }
    }

    fn read(&mut self, alloc: Global, line: &[u8]) -> Result<bool, OutOfMemory> {
        match read_pair_line(alloc, line)? {
            Some(line) => self.take(line),
            None => Ok(false),
        }
    }

    fn may_end(&self) -> bool {
        may_end(self.place)
    }

    fn finish(self) -> PairScript {
        self.script
    }
}

/// Reads a whole pair script.
pub fn parse_pair(alloc: Global, text: &[u8]) -> Result<PairScript, ScriptFault>
    ensures exact { ReadsScript result (read_script pair_form text.now) }
    ensures counts { IfOk result (λ s. 0 < s.count) }
{
    read_whole::<PairDraft>(alloc, text)
}
