//! A session over bytes that another runtime moves.
ghost use Rattle.std.specs.Prelude.{◌≡◌, ◌<◌, ◌++◌, ℕ, List, IfOk, IfSome};
ghost use Rattle.std.specs.List.{concat};
ghost use Rattle.pgw_dialogue.specs.Demands.{RefusesKey};
ghost use Rattle.pgw_session.specs.Input.{input_with};
ghost use Rattle.pgw_dialogue.specs.Answers.{taken_of};
ghost use Rattle.example_dialogue.specs.Push.{HoldsExample};
ghost use Rattle.pgw_session.specs.Demands.{refused_config};
ghost use Rattle.pgw_session.specs.Transcript.{Completed};

use bytes::BytesMut;
use pgw_client::{Config, Octets, PgWireClientResult, Request, SessionReport};
use pgw_dialogue::{Dialogue, DialoguePhase};
use std::alloc::Global;

/// Holds a session over what each read from the server gave, and puts out what is to be sent to it.
///
/// Where a runtime reads as the session goes, each read is a piece; what stands in `out` behind `start`, and behind each
/// `take`, whatever it answers, is written and cleared before the answer is used.
pub fn over_pieces(
    alloc: Global,
    config: &Config,
    requests: &[Request],
    nonce: &[u8; 18],
    limit: u64,
    pieces: &[Octets],
    out: &mut BytesMut,
) -> PgWireClientResult<SessionReport>
    requires { 0 < limit }
    // A configuration that demands what this client can't do is refused by that key, or memory is wanting.
    ensures refused { IfSome (refused_config config.now) (λ key. RefusesKey key result) }
    // What is put out, and the answer, are those of a dialogue that was given all these bytes; so they are those of a
    // session over a link that has them.
    ensures held { HoldsExample (input_with config.now requests.now nonce.now) limit
        (concat pieces.now)
        out.old.items out.new.items result }
    // The report is that of a completed session, whose bytes were given and put out.
    ensures completed { IfOk result (λ report. (put : List ℕ)
        × (out.new.items ≡ out.old.items ++ put)
        × Completed (input_with config.now requests.now nonce.now)
        (taken_of limit (concat pieces.now)) put report) }
{
    let mut dialogue = Dialogue::start(alloc, config, requests, nonce, limit, out)?;
    for piece in pieces {
        match dialogue.take(piece.as_slice(), out)? {
            DialoguePhase::Waiting | DialoguePhase::Ready => {}
            DialoguePhase::Done => return Ok(dialogue.report()),
        }
    }
    Err(dialogue.at_end())
}
