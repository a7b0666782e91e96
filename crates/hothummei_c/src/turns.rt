//! The turns of a session: bytes that came, and bytes that are to be sent.
ghost use Rattle.std.specs.Prelude.{◌≡◌, string_bytes};
ghost use Rattle.hothummei_c.specs.Session.{Began, HandleBegins, MeetsBytesEnd, FinishesReport, HandleSends, TakesBytes};
ghost use Rattle.hothummei_c.specs.Turns.{Shows, phase_number};

use crate::codes::{OK, OUT_OF_MEMORY, OUT_OF_PLACE, OUT_OF_RANGE};
use crate::held::Held;
use crate::report::kept_of;
use crate::session::{Phase, Session};
use crate::values::{Value, value_of};
use pgw_config::config::Config;
use pgw_dialogue::DialoguePhase;
use pgw_types::listed::Listed;
use std::mem::replace;

// Begins the session, of all that it is made for.
fn begin(session: &mut Session, limit: u64) -> u32
    ensures { Began session.old session.new limit result }
{
    let alloc = session.alloc;
    let config = replace(&mut session.config, Config::new(alloc));
    let requests = replace(&mut session.requests, Listed::new(alloc));
    let nonce = session.nonce;
    match Held::start(alloc, config, requests, nonce, limit, &mut session.out) {
        Ok(held) => {
            session.held = Some(held);
            session.phase = Phase::Waiting;
            OK
        }
        Err(e) => session.fail(e),
    }
}

/// Begins the session: the message that logs in is to be sent.
pub fn start(session: &mut Session, limit: u64) -> u32
    ensures { HandleBegins session.old session.new limit result }
{
    match session.phase {
        Phase::Asking => {}
        _ => return OUT_OF_PLACE,
    }
    if limit == 0 {
        return OUT_OF_RANGE;
    }
    begin(session, limit)
}

// Makes the report of a dialogue that is done.
fn finish(session: &mut Session, held: Held) -> u32
    ensures { FinishesReport session.old session.new held result }
{
    match kept_of(session.alloc, held.report()) {
        Ok(report) => {
            session.report = Some(report);
            session.phase = Phase::Done;
            OK
        }
        Err(_) => {
            session.phase = Phase::Failed;
            OUT_OF_MEMORY
        }
    }
}

/// Takes bytes that came from the server; what is to be sent then stands behind what was.
pub fn take(session: &mut Session, piece: &[u8]) -> u32
    ensures { TakesBytes session.old session.new piece.now result }
{
    let Some(mut held) = session.held.take() else {
        return OUT_OF_PLACE;
    };
    match held.take(piece, &mut session.out) {
        Ok(DialoguePhase::Waiting) => {
            session.phase = Phase::Waiting;
            session.held = Some(held);
            OK
        }
        Ok(DialoguePhase::Ready) => {
            session.phase = Phase::Ready;
            session.held = Some(held);
            OK
        }
        Ok(DialoguePhase::Done) => finish(session, held),
        Err(e) => {
            drop(held);
            session.fail(e)
        }
    }
}

/// What is to be sent.
pub fn pending(session: &mut Session, out: &mut Value) -> u32
    ensures { Shows session.old session.new session.old.out.items out.new result }
{
    *out = value_of(session.out.as_slice());
    OK
}

/// So many of these bytes are sent.
pub fn sent(session: &mut Session, count: usize) -> u32
    ensures { HandleSends session.old session.new count result }
{
    if count > session.out.len() {
        return OUT_OF_RANGE;
    }
    session.out.advance(count);
    OK
}

/// How far it has come.
pub fn phase(session: &mut Session) -> u32
    ensures { (result ≡ phase_number session.old.phase) × (session.new ≡ session.old) }
{
    match session.phase {
        Phase::New => 0,
        Phase::Asking => 1,
        Phase::Waiting => 2,
        Phase::Ready => 3,
        Phase::Done => 4,
        Phase::Failed => 5,
    }
}

/// No more bytes come.
pub fn at_end(session: &mut Session) -> u32
    ensures { MeetsBytesEnd session.old session.new result }
{
    let Some(held) = &session.held else {
        return OUT_OF_PLACE;
    };
    if !held.awaits() {
        return OUT_OF_PLACE;
    }
    let e = held.at_end();
    session.held = None;
    session.fail(e)
}

/// The sentence of the error that it failed by.
pub fn sentence(session: &mut Session, out: &mut Value) -> u32
    ensures { Shows session.old session.new (string_bytes session.old.sentence) out.new result }
{
    *out = value_of(session.sentence.as_str().as_bytes());
    OK
}
