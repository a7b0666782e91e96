//! A session over a link.
ghost use Rattle.std.specs.Prelude.{◌≡◌, ◌<◌, ◌≤◌, [], length, min, IfOk, IfErr, IfSome, IsErrOf, OnOk};
ghost use Rattle.std.specs.Io.KnownBytes.{Keeps};
ghost use Rattle.pgw_link.specs.Foresight.{TapeEnds, Foreseen};
ghost use Rattle.pgw_link.specs.Sending.{ReadsNothing};
ghost use Rattle.pgw_session.specs.Demands.{refused_config};
ghost use Rattle.pgw_client.specs.Session.{IoHasCause};
ghost use Rattle.pgw_dialogue.specs.Wire.{IsNoDemand};
ghost use Rattle.pgw_dialogue.specs.Input.{input_of};
ghost use Rattle.pgw_session.specs.Input.{input_with};
ghost use Rattle.pgw_client.specs.OverLink.{OverLink, link_span};
ghost use Rattle.pgw_client.specs.SessionSteps.{Conversed, Filled, LinkSession, TookAll};

use bytes::BytesMut;
use pgw_backend::client_error::{PgWireClientError, PgWireClientResult};
use pgw_config::config::Config;
use pgw_dialogue::demands::check_config;
use pgw_dialogue::inbox::Inbox;
use pgw_dialogue::input::Input;
use pgw_dialogue::machine::{Progress, advance, end_error, into_report, start};
use pgw_link::link::Link;
use pgw_link::sending::send;
use pgw_session::notes::Notes;
use pgw_session::types::{Request, SessionReport};
use std::alloc::Global;

/// The most bytes that one read asks for.
pub const CHUNK: usize = 8192;

// Takes the messages at the buffer's front, and sends what falls due, by way of a buffer that keeps its room.
fn take_all<L: Link>(
    alloc: Global,
    link: &mut L,
    input: &Input<'_>,
    notes: &mut Notes,
    buffer: &mut Inbox,
    out: &mut BytesMut,
) -> PgWireClientResult<bool>
    requires { out.old.items ≡ [] }
    ensures emptied { OnOk result (out.new.items ≡ []) }
    ensures cause { IoHasCause (L.faults link.old) (L.faults link.new) result }
    ensures talk { IfErr result IsNoDemand }
    ensures clean { (IsErrOf result PgWireClientError.IoError → ⊥) → L.faults link.new
        ≡ L.faults link.old }
    ensures kept { L.plan link.new ≡ L.plan link.old }
    ensures left { L.foretells → Keeps (L.left link.old) (L.left link.new) }
    ensures quiet { ReadsNothing (L.tape link.old) (L.tape link.new) }
    ensures talks { (L.tape link.old).flushed ≡ length (L.tape link.old).wrote →
        TookAll (input_of input.now) notes.old notes.new (L.tape link.old) (L.tape link.new)
        buffer.old buffer.new result }
{
    'messages: loop {
        match advance(alloc, input, notes, buffer, out) {
            Ok(Progress::More) => return Ok(false),
            Ok(Progress::Went) => {
                if out.len() > 0 {
                    match send(link, out.as_slice()) {
                        Ok(()) => {}
                        Err(_) => return Err(PgWireClientError::IoError),
                    }
                    out.clear();
                }
            }
            Ok(Progress::Done) => return Ok(true),
            Err(e) => return Err(e),
        }
    }
}

/// How many bytes one read asks for: 8192, or what there is room for.
pub fn chunk_size(room: u64) -> usize
    ensures { result ≡ min 8192 room }
{
    if room < 8192 { room as usize } else { CHUNK }
}

/// Reads once, no more than there is room for and no more than 8192 bytes, by way of a piece that is cleared once for
/// all reads.
pub fn fill<L: Link>(
    link: &mut L,
    piece: &mut [u8; CHUNK],
    buffer: &mut Inbox,
    room: u64,
) -> PgWireClientResult<usize>
    requires { 0 < room }
    ensures bound { IfOk result (λ n. n ≤ room) }
    ensures cause { IoHasCause (L.faults link.old) (L.faults link.new) result }
    ensures talk { IfErr result IsNoDemand }
    ensures clean { (IsErrOf result PgWireClientError.IoError → ⊥) → L.faults link.new
        ≡ L.faults link.old }
    ensures kept { L.plan link.new ≡ L.plan link.old }
    ensures foreseen { L.foretells → Foreseen (L.left link.old) (L.left link.new) (L.tape link.old)
        (L.tape link.new) }
    ensures ends { L.foretells → TapeEnds (L.left link.new) (L.tape link.old) (L.tape link.new) }
    ensures filled { Filled (L.tape link.old) (L.tape link.new) buffer.old buffer.new room result }
{
    let size = chunk_size(room);
    let n = match link.read(&mut piece[..size]) {
        Ok(n) => n,
        Err(_) => return Err(PgWireClientError::IoError),
    };
    match buffer.append(&piece[..n]) {
        Ok(()) => Ok(n),
        Err(_) => Err(PgWireClientError::OutOfMemory),
    }
}

// Takes messages until the session is whole or fails.
fn converse<L: Link>(
    alloc: Global,
    link: &mut L,
    input: &Input<'_>,
    notes: &mut Notes,
    limit: u64,
) -> PgWireClientResult<()>
    ensures cause { IoHasCause (L.faults link.old) (L.faults link.new) result }
    ensures talk { IfErr result IsNoDemand }
    ensures clean { (IsErrOf result PgWireClientError.IoError → ⊥) → L.faults link.new
        ≡ L.faults link.old }
    ensures kept { L.plan link.new ≡ L.plan link.old }
    ensures foreseen { L.foretells → Foreseen (L.left link.old) (L.left link.new) (L.tape link.old)
        (L.tape link.new) }
    ensures ends { L.foretells → TapeEnds (L.left link.new) (L.tape link.old) (L.tape link.new) }
    ensures talks { (L.tape link.old).flushed ≡ length (L.tape link.old).wrote →
        Conversed (input_of input.now) notes.old notes.new limit (L.tape link.old) (L.tape link.new)
        result }
{
    let mut buffer = Inbox::new(alloc);
    let mut piece = [0u8; CHUNK];
    let mut out = BytesMut::new(alloc);
    let mut read: u64 = 0;
    'reads: loop {
        let done = match take_all(alloc, link, input, notes, &mut buffer, &mut out) {
            Ok(done) => done,
            Err(e) => return Err(e),
        };
        if done {
            return Ok(());
        }
        if read >= limit {
            return Err(PgWireClientError::ReadLimit);
        }
        let n = match fill(link, &mut piece, &mut buffer, limit - read) {
            Ok(n) => n,
            Err(e) => return Err(e),
        };
        if n == 0 {
            return Err(end_error(alloc, notes));
        }
        read += n as u64;
    }
}

// A session, with all that it leaves.
fn hold_session<L: Link>(
    alloc: Global,
    link: &mut L,
    input: &Input<'_>,
    limit: u64,
) -> PgWireClientResult<SessionReport>
    ensures cause { IoHasCause (L.faults link.old) (L.faults link.new) result }
    ensures talk { IfErr result IsNoDemand }
    ensures clean { (IsErrOf result PgWireClientError.IoError → ⊥) → L.faults link.new
        ≡ L.faults link.old }
    ensures kept { L.plan link.new ≡ L.plan link.old }
    ensures foreseen { L.foretells → Foreseen (L.left link.old) (L.left link.new) (L.tape link.old)
        (L.tape link.new) }
    ensures ends { L.foretells → TapeEnds (L.left link.new) (L.tape link.old) (L.tape link.new) }
    ensures session { LinkSession (input_of input.now) limit (L.tape link.old) (L.tape link.new)
        result }
{
    let mut out = BytesMut::new(alloc);
    let mut notes = match start(alloc, input, &mut out) {
        Ok(notes) => notes,
        Err(e) => return Err(e),
    };
    match send(link, out.as_slice()) {
        Ok(()) => {}
        Err(_) => {
            drop(notes);
            return Err(PgWireClientError::IoError);
        }
    }
    match converse(alloc, link, input, &mut notes, limit) {
        Ok(()) => Ok(into_report(notes)),
        Err(e) => {
            drop(notes);
            Err(e)
        }
    }
}

/// Holds a session over the link: logs in, makes each request in turn, and reports.
///
/// A request is sent once the answer before it is whole. At most `limit` bytes are read. The
/// nonce is that of a SCRAM login.
pub fn run_session<L: Link>(
    alloc: Global,
    link: &mut L,
    config: &Config,
    requests: &[Request],
    nonce: &[u8; 18],
    limit: u64,
) -> PgWireClientResult<SessionReport>
    // What is promised of the session, its answer, and what it leaves is one record.
    ensures session { OverLink (input_with config.now requests.now nonce.now) limit L.foretells
        (link_span L.tape L.left L.faults link.old link.new) result }
    // A configuration that demands what this client cannot do leaves the link as it was.
    ensures untouched { IfSome (refused_config config.now) (λ key. link.new ≡ link.old) }
    // What the link was made with stays.
    ensures kept { L.plan link.new ≡ L.plan link.old }
{
    match check_config(alloc, config) {
        Ok(()) => {}
        Err(error) => return Err(error),
    }
    let input = Input {
        config,
        requests,
        nonce,
    };
    hold_session(alloc, link, &input, limit)
}
