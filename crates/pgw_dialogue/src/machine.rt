//! The client's side of a session: it takes a message at a time, and puts bytes out.
ghost use Rattle.std.specs.Prelude.{◌≡◌, [], ◌++◌, false, suc, length, slice_get, None, IfOk, IfErr, OnOk};
ghost use Rattle.pgw_frontend.specs.Frontend.{encodings};
ghost use Rattle.pgw_session.specs.Standings.{standing_by};
ghost use Rattle.pgw_session.specs.Segments.{is_ready, sends, startup_message, startup_parameters, with_set};
ghost use Rattle.pgw_session.specs.Requests.{role};
ghost use Rattle.pgw_session.specs.Table.{next_after, by_role};
ghost use Rattle.pgw_session.specs.Machine.{open_request, moves_by, opens_next, sending, turn_by};
ghost use Rattle.pgw_session.specs.Notes.{answer_for, notes_book};
ghost use Rattle.pgw_dialogue.specs.Wire.{IsEndError, IsOwn, Unless, PutOut};
ghost use Rattle.pgw_dialogue.specs.Input.{input_of};
ghost use Rattle.pgw_dialogue.specs.Machine.{AdvancesRun, IsGood, AnswersMove, DialoguePasses, Shortens, StartsRun, CutsFront, notes_end, report_at};

use crate::inbox::Inbox;
use crate::input::Input;
use crate::rows::{take_rows, takes_rows};
use crate::table::{after, by_role, is_ready, role};
use crate::wire::put_all;
use crate::{answers, requests, standings};
use bytes::BytesMut;
use pgw_backend::backend::PgWireBackendMessage;
use pgw_backend::client_error::{PgWireClientError, unexpected};
use pgw_frontend::frontend::PgWireFrontendMessage;
use pgw_session::notes::Notes;
use pgw_session::stage::{Kind, Next, Role, Stage};
use pgw_session::tally::Tally;
use pgw_session::types::{Answer, Request, SessionReport};
use pgw_startup::startup::Startup;
use pgw_types::listed::{Duplicate, Listed};
use pgw_types::memory::OutOfMemory;
use pgw_types::text::Text;
use pgw_wire::params::Params;
use std::alloc::Global;
use std::mem::replace;

/// What stood at the front of the buffer.
#[derive(Clone, Copy, Drop)]
pub enum Progress {
    /// No message is whole yet.
    More,
    /// A message was taken, and the session goes on.
    Went,
    /// The session is whole.
    Done,
}

// ---- the startup message

// Sets a parameter of that name, where there is a value.
fn set_parameter(
    alloc: Global,
    parameters: &mut Params,
    name: &str,
    value: &Option<Text>,
) -> Result<(), OutOfMemory>
    ensures { OnOk result (parameters.new ≡ with_set name.now value.now parameters.old) }
{
    if let Some(value) = value {
        parameters.insert(Text::from_str(alloc, name)?, value.duplicate()?)?;
    }
    Ok(())
}

// The parameters of the startup message.
fn startup_parameters(alloc: Global, input: &Input<'_>) -> Result<Params, OutOfMemory>
    ensures { IfOk result (λ parameters. parameters ≡ startup_parameters (input_of input.now)) }
{
    let config = input.config;
    let mut parameters = Params::new(alloc);
    set_parameter(
        alloc,
        &mut parameters,
        "application_name",
        &config.application_name,
    )?;
    set_parameter(alloc, &mut parameters, "user", &config.user)?;
    set_parameter(alloc, &mut parameters, "database", &config.dbname)?;
    Ok(parameters)
}

/// The message that opens the session.
pub fn startup_message(
    alloc: Global,
    input: &Input<'_>,
) -> Result<PgWireFrontendMessage, OutOfMemory>
    ensures { IfOk result (λ message. message ≡ startup_message (input_of input.now)) }
{
    let (major, minor) = input.config.protocol_version.version_number();
    Ok(PgWireFrontendMessage::Startup(Startup {
        protocol_number_major: major,
        protocol_number_minor: minor,
        parameters: startup_parameters(alloc, input)?,
    }))
}

/// Puts out the startup message.
pub fn start(
    alloc: Global,
    input: &Input<'_>,
    out: &mut BytesMut,
) -> Result<Notes, PgWireClientError>
    requires { out.old.items ≡ [] }
    ensures own { IfErr result IsOwn }
    ensures start { StartsRun (input_of input.now) out.new.items result }
{
    let startup = match startup_message(alloc, input) {
        Ok(message) => [message],
        Err(_) => return Err(PgWireClientError::OutOfMemory),
    };
    match put_all(startup.as_slice(), out) {
        Ok(()) => {}
        Err(e) => return Err(e),
    }
    Ok(Notes {
        stage: Stage::Starting,
        standing: standings::first_standing(alloc, input.config),
        tally: answers::no_tally(alloc),
        answers: Listed::new(alloc),
        closed: 0,
        first_passed: None,
    })
}

// ---- steps

// Takes a message that the segment goes on behind.
fn note(
    alloc: Global,
    notes: &mut Notes,
    message: PgWireBackendMessage,
    stage: Stage,
) -> Result<(), OutOfMemory>
    ensures { OnOk result (notes.new ≡ notes_book.takes notes.old message [] stage) }
{
    if standings::note(alloc, &mut notes.standing, &message).is_err() {
        drop(message);
        return Err(OutOfMemory);
    }
    answers::note(alloc, &mut notes.tally, message)?;
    notes.stage = stage;
    Ok(())
}

// Puts out the message that is sent behind one, if there is one.
fn put_reply(
    reply: Option<PgWireFrontendMessage>,
    out: &mut BytesMut,
) -> Result<(), PgWireClientError>
    ensures own { IfErr result IsOwn }
    ensures put { PutOut (encodings (sends reply)) out.old.items out.new.items result }
{
    match reply {
        None => Ok(()),
        Some(message) => put_all([message].as_slice(), out),
    }
}

// Takes a message, and sends the one behind it.
fn go_on(
    alloc: Global,
    notes: &mut Notes,
    message: PgWireBackendMessage,
    stage: Stage,
    reply: Option<PgWireFrontendMessage>,
    out: &mut BytesMut,
) -> Result<bool, PgWireClientError>
    ensures own { IfErr result IsOwn }
    ensures moved { AnswersMove (sending (notes_book.takes notes.old message [] stage)
        (notes_book.takes notes.old message (sends reply) stage) (encodings (sends reply)))
        notes.new out.old.items out.new.items result }
{
    match note(alloc, notes, message, stage) {
        Ok(()) => {}
        Err(_) => {
            drop(reply);
            return Err(PgWireClientError::OutOfMemory);
        }
    }
    match put_reply(reply, out) {
        Ok(()) => Ok(false),
        Err(e) => Err(e),
    }
}

// Keeps the answer of the request that closes; the startup segment has none.
fn keep_answer(
    alloc: Global,
    input: &Input<'_>,
    closed: usize,
    tally: &mut Tally,
    answers: &mut Listed<Answer>,
) -> Result<(), OutOfMemory>
    ensures { OnOk result (answers.new ≡ answers.old
        ++ answer_for (open_request (input_of input.now) closed) tally.old) }
{
    if closed > 0 {
        if let Some(request) = input.requests.get(closed - 1) {
            answers.push(answers::answer_by(alloc, request, tally)?)?;
        }
    }
    Ok(())
}

// Takes the message that closes the segment. It counts as closed once the next is opened.
fn close(
    alloc: Global,
    input: &Input<'_>,
    notes: &mut Notes,
    message: PgWireBackendMessage,
) -> Result<(), OutOfMemory>
    ensures { OnOk result (notes.new ≡ record
        (notes_book.closes notes.old message (open_request (input_of input.now) notes.old.closed))
        { closed = notes.old.closed }) }
{
    note(alloc, notes, message, Stage::Starting)?;
    keep_answer(
        alloc,
        input,
        notes.closed,
        &mut notes.tally,
        &mut notes.answers,
    )?;
    notes.tally = answers::no_tally(alloc);
    Ok(())
}

// Opens the next request, if there is one; answers that there is none.
fn open_next(
    alloc: Global,
    notes: &mut Notes,
    requests: &[Request],
    out: &mut BytesMut,
) -> Result<bool, PgWireClientError>
    ensures own { IfErr result IsOwn }
    ensures moved { AnswersMove (opens_next notes_book
        (record notes.old { closed = suc notes.old.closed })
        (slice_get requests.now notes.old.closed)) notes.new out.old.items out.new.items result }
{
    match requests.get(notes.closed) {
        None => Ok(true),
        Some(request) => {
            match requests::put_request(alloc, request, out) {
                Ok(()) => {}
                Err(e) => return Err(e),
            }
            notes.stage = Stage::Answering(requests::kind_of(request), false);
            notes.closed += 1;
            Ok(false)
        }
    }
}

// Takes the message that closes the segment, and opens the next request.
fn close_and_open(
    alloc: Global,
    input: &Input<'_>,
    notes: &mut Notes,
    message: PgWireBackendMessage,
    out: &mut BytesMut,
) -> Result<bool, PgWireClientError>
    ensures own { IfErr result IsOwn }
    ensures moved { AnswersMove (moves_by notes_book (input_of input.now) notes.old message
        Next.Closes)
        notes.new out.old.items out.new.items result }
{
    match close(alloc, input, notes, message) {
        Ok(()) => {}
        Err(_) => return Err(PgWireClientError::OutOfMemory),
    }
    open_next(alloc, notes, input.requests, out)
}

// Passes a message over that does not end the segment, behind the first that had no place.
fn keep_first(
    alloc: Global,
    notes: &mut Notes,
    first: PgWireBackendMessage,
    message: &PgWireBackendMessage,
) -> Result<bool, PgWireClientError>
    requires { is_ready message.now ≡ false }
    ensures own { IfErr result IsOwn }
    ensures passed { DialoguePasses notes.old notes.new first message.now result }
{
    drop(replace(&mut notes.first_passed, Some(first)));
    match standings::note(alloc, &mut notes.standing, message) {
        Ok(()) => Ok(false),
        Err(_) => Err(PgWireClientError::OutOfMemory),
    }
}

// Behind the first message that had no place all are passed over, up to ReadyForQuery.
fn pass_over(
    alloc: Global,
    notes: &mut Notes,
    first: PgWireBackendMessage,
    message: PgWireBackendMessage,
) -> Result<bool, PgWireClientError>
    ensures own { IfErr result IsOwn }
    ensures passed { DialoguePasses notes.old notes.new first message result }
{
    if is_ready(&message) {
        drop(message);
        return Err(unexpected(alloc, first));
    }
    let kept = keep_first(alloc, notes, first, &message);
    drop(message);
    kept
}

// The first message that has no place is passed over.
fn pass_first(
    alloc: Global,
    notes: &mut Notes,
    message: PgWireBackendMessage,
) -> Result<bool, PgWireClientError>
    ensures own { IfErr result IsOwn }
    ensures passed { IfOk result (λ whole. (whole ≡ false)
        × (notes.new ≡ record notes.old {
          standing = standing_by notes.old.standing message;
          first_passed = Some message;
        })) }
    ensures lacks { IfErr result (λ e. e ≡ PgWireClientError.OutOfMemory) }
{
    let noted = standings::note(alloc, &mut notes.standing, &message);
    drop(replace(&mut notes.first_passed, Some(message)));
    match noted {
        Ok(()) => Ok(false),
        Err(_) => Err(PgWireClientError::OutOfMemory),
    }
}

// Does what the table says of a message, where none has been passed over.
fn follow(
    alloc: Global,
    input: &Input<'_>,
    notes: &mut Notes,
    message: PgWireBackendMessage,
    next: Next,
    out: &mut BytesMut,
) -> Result<bool, PgWireClientError>
    requires good { IsGood next }
    requires clean { notes.old.first_passed ≡ None }
    ensures own { IfErr result IsOwn }
    ensures moved { AnswersMove (moves_by notes_book (input_of input.now) notes.old message next)
        notes.new out.old.items out.new.items result }
{
    match next {
        Next::Goes(stage, reply) => go_on(alloc, notes, message, stage, reply, out),
        Next::Closes => close_and_open(alloc, input, notes, message, out),
        Next::Wrong => Err(unexpected(alloc, message)),
        Next::Refuses(error) => {
            drop(message);
            Err(error)
        }
        Next::PassesOver => pass_first(alloc, notes, message),
    }
}

// Takes a message of a request's segment, which most are.
fn answer(
    alloc: Global,
    input: &Input<'_>,
    notes: &mut Notes,
    kind: Kind,
    rows: bool,
    message: PgWireBackendMessage,
    out: &mut BytesMut,
) -> Result<bool, PgWireClientError>
    requires clean { notes.old.first_passed ≡ None }
    ensures own { IfErr result IsOwn }
    ensures moved { AnswersMove (moves_by notes_book (input_of input.now) notes.old message
        (by_role kind (role kind rows message))) notes.new out.old.items out.new.items result }
{
    match role(kind, rows, &message) {
        Role::Taken(rows) => {
            let stage = Stage::Answering(kind, rows);
            go_on(alloc, notes, message, stage, None, out)
        }
        Role::Closing => close_and_open(alloc, input, notes, message, out),
        role => {
            let next = by_role(kind, role);
            follow(alloc, input, notes, message, next, out)
        }
    }
}

// Takes a message where none has been passed over.
fn step(
    alloc: Global,
    input: &Input<'_>,
    notes: &mut Notes,
    message: PgWireBackendMessage,
    out: &mut BytesMut,
) -> Result<bool, PgWireClientError>
    requires clean { notes.old.first_passed ≡ None }
    ensures own { IfErr result IsOwn }
    ensures moved { AnswersMove (moves_by notes_book (input_of input.now) notes.old message
        (next_after (input_of input.now) notes.old.stage message)) notes.new out.old.items
        out.new.items
        result }
{
    if let Stage::Answering(kind, rows) = &notes.stage {
        let (kind, rows) = (*kind, *rows);
        return answer(alloc, input, notes, kind, rows, message, out);
    }
    match after(alloc, input, &notes.stage, &message) {
        Ok(next) => follow(alloc, input, notes, message, next, out),
        Err(_) => {
            drop(message);
            Err(PgWireClientError::OutOfMemory)
        }
    }
}

// Takes a message.
fn take(
    alloc: Global,
    input: &Input<'_>,
    notes: &mut Notes,
    message: PgWireBackendMessage,
    out: &mut BytesMut,
) -> Result<bool, PgWireClientError>
    ensures own { IfErr result IsOwn }
    ensures moved { AnswersMove (turn_by notes_book (input_of input.now) notes.old message
        notes.old.first_passed) notes.new out.old.items out.new.items result }
{
    if notes.first_passed.is_none() {
        return step(alloc, input, notes, message, out);
    }
    let first = notes.first_passed.take().unwrap();
    pass_over(alloc, notes, first, message)
}

// Takes the message at the buffer's front, and puts out what falls due then.
#[inline(always)]
fn take_next(
    alloc: Global,
    input: &Input<'_>,
    notes: &mut Notes,
    buffer: &mut Inbox,
    out: &mut BytesMut,
) -> Result<Progress, PgWireClientError>
    ensures own { IfErr result IsOwn }
    ensures shorter { IfOk result (λ taken. Shortens taken (length buffer.old)
        (length buffer.new)) }
    ensures step { AdvancesRun (input_of input.now) notes.old notes.new buffer.old buffer.new
        out.old.items out.new.items result }
    ensures front { CutsFront (input_of input.now) notes.old notes.new buffer.old buffer.new
        out.old.items out.new.items result }
{
    let message = match buffer.next_message(alloc, notes.standing.version) {
        Ok(Some(message)) => message,
        Ok(None) => return Ok(Progress::More),
        Err(e) => return Err(e),
    };
    match take(alloc, input, notes, message, out) {
        Ok(true) => Ok(Progress::Done),
        Ok(false) => Ok(Progress::Went),
        Err(e) => Err(e),
    }
}

/// Takes the message at the buffer's front, or the rows that stand there, and puts out what falls due then.
#[inline(always)]
pub fn advance(
    alloc: Global,
    input: &Input<'_>,
    notes: &mut Notes,
    buffer: &mut Inbox,
    out: &mut BytesMut,
) -> Result<Progress, PgWireClientError>
    ensures own { IfErr result IsOwn }
    ensures shorter { IfOk result (λ taken. Shortens taken (length buffer.old)
        (length buffer.new)) }
    ensures step { AdvancesRun (input_of input.now) notes.old notes.new buffer.old buffer.new
        out.old.items out.new.items result }
    ensures front { CutsFront (input_of input.now) notes.old notes.new buffer.old buffer.new
        out.old.items out.new.items result }
{
    if takes_rows(notes) {
        match take_rows(notes, buffer) {
            Ok(true) => return Ok(Progress::Went),
            Ok(false) => {}
            Err(_) => return Err(PgWireClientError::OutOfMemory),
        }
    }
    take_next(alloc, input, notes, buffer, out)
}

// ---- the end

/// What has been noted for the report.
pub fn into_report(notes: Notes) -> SessionReport
    ensures { result ≡ report_at notes }
{
    let Notes {
        stage,
        standing,
        tally,
        answers,
        first_passed,
        ..
    } = notes;
    drop(stage);
    drop(tally);
    drop(first_passed);
    SessionReport {
        version: standing.version,
        parameters: standing.parameters,
        process_id: standing.process_id,
        secret_key: standing.secret_key,
        status: standing.status,
        answers,
    }
}

/// What the link's end means now.
pub fn end_error(alloc: Global, notes: &Notes) -> PgWireClientError
    ensures end { IsEndError result }
    ensures is { Unless result (result ≡ notes_end notes.now) }
{
    if let Some(first) = &notes.first_passed {
        return match first.duplicate() {
            Ok(first) => unexpected(alloc, first),
            Err(_) => PgWireClientError::OutOfMemory,
        };
    }
    match &notes.tally.remote {
        Some(error) => match error.duplicate() {
            Ok(error) => PgWireClientError::RemoteError(error),
            Err(_) => PgWireClientError::OutOfMemory,
        },
        None => PgWireClientError::UnexpectedEOF,
    }
}
