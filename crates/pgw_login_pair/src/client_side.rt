//! The client's side of two parties.
ghost use Rattle.std.specs.Prelude.{◌≡◌, ◌≤◌, ◌↔◌, ℕ, List, [], length, take};
ghost use Rattle.std.specs.Prelude.{IfOk, OnOk, IsTrue, Ok, Err};
ghost use Rattle.pgw_backend.specs.declared.client_error.PgWireClientError.TheVariants as client;
ghost use Rattle.pgw_dialogue.specs.Dialogue.{IsBehind};
ghost use Rattle.pgw_login_pair.specs.World.{client_config};
ghost use Rattle.pgw_login_pair.specs.declared.parties.PairInput.{PairInput as TheInput};
ghost use Rattle.pgw_login_pair.specs.Parties.{client_end};
ghost use Rattle.pgw_login_pair.specs.Sides.{IsGoing, PartyStands, ClientAt, ClientTook};

use crate::parties::{ClientEnd, PairInput};
use crate::piece::next;
use bytes::BytesMut;
use pgw_backend::client_error::{PgWireClientError, PgWireClientResult};
use pgw_config::config::Config;
use pgw_dialogue::{Dialogue, DialoguePhase};
use pgw_handlers::client_info::ServerInformation;
use pgw_session::types::SessionReport;
use pgw_types::listed::Duplicate;
use pgw_types::memory::OutOfMemory;
use std::alloc::Global;
use std::mem::replace;

/// The configuration of the client.
pub fn client_config(alloc: Global, input: &PairInput) -> Result<Config, OutOfMemory>
    ensures { IfOk result (λ config. config ≡ client_config input.now) }
{
    let user = input.user.duplicate()?;
    let password = input.password.duplicate()?;
    let hash = input.client_hash.duplicate()?;
    let mut config = Config::new(alloc);
    config.user = Some(user);
    config.password = Some(password);
    config.certificate_hash = hash;
    Ok(config)
}

/// The client, how many bytes it took, and those that it wrote.
#[derive(Drop)]
pub struct ClientSide<'a> {
    // the dialogue, or why it refused
    pub dialogue: PgWireClientResult<Dialogue<'a>>,
    pub phase: DialoguePhase,
    pub taken: usize,
    pub out: BytesMut,
}

impl<'a> ClientSide<'a> {
    /// A client that has written its first message, if it has one.
    pub fn begin(
        alloc: Global,
        config: &'a Config,
        nonce: &[u8; 18],
    ) -> Result<ClientSide<'a>, OutOfMemory>
        ensures going { IfOk result (λ side. IsGoing side.dialogue side.phase) }
        ensures begun { (input : TheInput) → config.now ≡ client_config input
            → nonce.now ≡ input.client_nonce
            → IfOk result (λ side. (side.taken ≡ 0) × ClientAt input side []) }
    {
        let mut out = BytesMut::new(alloc);
        let dialogue = Dialogue::start(alloc, config, &[], nonce, u64::MAX, &mut out);
        if lacks_memory(&dialogue) {
            drop(dialogue);
            return Err(OutOfMemory);
        }
        Ok(ClientSide {
            dialogue,
            phase: DialoguePhase::Waiting,
            taken: 0,
            out,
        })
    }

    /// Takes the next bytes, unless it has refused.
    pub fn take(&mut self, bytes: &[u8], count: u32) -> Result<(), OutOfMemory>
        ensures going { IsGoing self.old.dialogue self.old.phase
            → OnOk result (IsGoing self.new.dialogue self.new.phase) }
        ensures took { IsGoing self.old.dialogue self.old.phase → (input : TheInput)
            → self.old.taken ≤ length bytes.now
            → ClientAt input self.old (take self.old.taken bytes.now)
            → OnOk result (ClientTook input self.old self.new bytes.now count) }
    {
        let Ok(dialogue) = &mut self.dialogue else {
            return Ok(());
        };
        let piece = next(bytes, self.taken, count);
        let answer = dialogue.take(piece, &mut self.out);
        self.taken += piece.len();
        if lacks_memory(&answer) {
            drop(answer);
            return Err(OutOfMemory);
        }
        match answer {
            Ok(phase) => {
                self.phase = phase;
                Ok(())
            }
            Err(e) => {
                drop(replace(&mut self.dialogue, Err(e)));
                Ok(())
            }
        }
    }

    /// Where it is, and what it wrote.
    pub fn end(self) -> (ClientEnd, BytesMut)
        requires { IsGoing self.dialogue self.phase }
        ensures wrote { result.1 ≡ self.entry.out }
        ensures is { (input : TheInput) (taken : List ℕ) → ClientAt input self.entry taken
            → result.0 ≡ client_end input taken }
    {
        let ClientSide {
            dialogue,
            phase,
            taken: _taken,
            out,
        } = self;
        match dialogue {
            Ok(dialogue) => (end_of(dialogue, phase), out),
            Err(e) => (ClientEnd::Refused(e), out),
        }
    }
}

// Whether memory was wanting.
fn lacks_memory<T>(answer: &PgWireClientResult<T>) -> bool
    ensures { IsTrue result ↔ (answer.now ≡ Err client.OutOfMemory) }
{
    match answer {
        Err(PgWireClientError::OutOfMemory) => true,
        _ => false,
    }
}

// Where a client is that has not refused.
fn end_of(dialogue: Dialogue<'_>, phase: DialoguePhase) -> ClientEnd
    requires { IsBehind dialogue (Ok phase) }
    ensures { (input : TheInput) (taken put : List ℕ)
        → PartyStands input (Ok dialogue.entry) phase taken put → result ≡ client_end input taken }
{
    match phase {
        DialoguePhase::Waiting => {
            drop(dialogue);
            ClientEnd::Waiting
        }
        DialoguePhase::Ready => {
            drop(dialogue);
            ClientEnd::Waiting
        }
        DialoguePhase::Done => ClientEnd::Ready(information_in(dialogue.report())),
    }
}

// What the server told of itself.
fn information_in(report: SessionReport) -> ServerInformation
    ensures { result ≡ record {
      parameters = report.parameters;
      process_id = report.process_id;
      secret_key = report.secret_key;
    } }
{
    let SessionReport {
        version: _version,
        parameters,
        process_id,
        secret_key,
        status: _status,
        answers,
    } = report;
    drop(answers);
    ServerInformation {
        parameters,
        process_id,
        secret_key,
    }
}
