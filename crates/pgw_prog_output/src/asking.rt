//! Queries that are asked, and their answers.
ghost use Rattle.std.specs.Prelude.{◌≡◌, ℕ, [], Some, None, Ok};
ghost use Rattle.pgw_prog_output.specs.declared.asking.Halt.TheVariants as halt;
ghost use Rattle.pgw_prog_output.specs.Asking.{WritesAnswer, AsksAndPrints, AskedAll, CountsEnd, CountsHalt, Falls, HearsAnswers};
ghost use Rattle.pgw_prog_output.specs.Halting.{ClosesSheet, end_at, end_behind, halt_behind, halt_of, stop_in};
ghost use Rattle.pgw_prog_output.specs.Lines.{NeedsBytes, ServerLine, LineTakes};
ghost use Rattle.pgw_prog_output.specs.Pages.{PrintsHeard, Sheet, sheet};

use crate::faults::told_of_error;
use crate::messages::Messages;
use crate::page::{Page, Stop};
use crate::printer::RowFormat;
use crate::said::Turn;
use crate::written::write_whole;
use pgw_backend::backend::PgWireBackendMessage;
use pgw_backend::client_error::PgWireClientError;
use pgw_link::stream::Sink;
use pgw_types::text::Text;
use std::alloc::Global;

/// Why hearing halts.
#[derive(Clone, Copy, Debug, PartialEq, Eq)]
pub enum Halt {
    GoesOn,
    Ready,
    Misplaced,
    Lost,
    Stopped(Stop),
}

/// How an answer ended.
#[derive(Clone, Copy, Debug, PartialEq, Eq)]
pub enum AnswerEnd {
    /// The server is ready for the next query, and answered no error.
    Well,
    /// It is ready for the next query, and answered an error.
    Failed,
    /// It sent what has no place in an answer.
    Misplaced,
    /// The answer did not come whole, or the query could not be sent.
    Lost,
    /// A write to standard output failed.
    NoOutput,
    NoMemory,
}

// What a message that was heard makes of the answer.
fn halt_at(heard: Result<Turn, Stop>) -> Halt
    ensures { result ≡ halt_of heard }
{
    match heard {
        Ok(Turn::GoesOn) => Halt::GoesOn,
        Ok(Turn::Ready) => Halt::Ready,
        Ok(Turn::Misplaced) => Halt::Misplaced,
        Err(stop) => Halt::Stopped(stop),
    }
}

// Tells people why an answer does not come whole.
fn lose<E: Sink>(alloc: Global, error: PgWireClientError, errors: &mut E) -> Halt
    ensures { result ≡ halt_behind error }
{
    match error {
        PgWireClientError::OutOfMemory => Halt::Stopped(Stop::Memory),
        error => {
            let told = told_of_error(alloc, &error);
            let _ = write_whole(errors, told.as_bytes());
            drop(error);
            Halt::Lost
        }
    }
}

// Waits for more bytes.
fn fill<M: Messages, E: Sink>(alloc: Global, source: &mut M, errors: &mut E) -> Halt
    ensures hears { (before after : Sheet) → PrintsHeard [] before after →
        NeedsBytes (M.line source.old) →
        HearsAnswers (M.line source.old) (M.line source.new) before after result }
    ensures falls { Falls (M.line source.old) (M.line source.new) result }
    ensures counts { (n : ℕ) → CountsHalt n n result }
{
    match source.wait() {
        Ok(true) => Halt::GoesOn,
        Ok(false) => lose(alloc, PgWireClientError::UnexpectedEOF, errors),
        Err(error) => lose(alloc, error, errors),
    }
}

// Writes what waits, and waits for more bytes.
fn wait_for_more<M: Messages, O: Sink, E: Sink>(
    alloc: Global,
    source: &mut M,
    page: &mut Page,
    output: &mut O,
    errors: &mut E,
) -> Halt
    ensures hears { NeedsBytes (M.line source.old) →
        HearsAnswers (M.line source.old) (M.line source.new)
        (sheet (O.tape output.old).wrote page.old) (sheet (O.tape output.new).wrote page.new)
        result }
    ensures counts { CountsHalt (O.faults output.old) (O.faults output.new) result }
    ensures falls { Falls (M.line source.old) (M.line source.new) result }
{
    match page.write_out(output) {
        Ok(()) => fill(alloc, source, errors),
        Err(_) => Halt::Stopped(Stop::Output),
    }
}

// Hears a message that was taken.
fn hear_message<O: Sink, E: Sink>(
    alloc: Global,
    page: &mut Page,
    message: &PgWireBackendMessage,
    query: &str,
    output: &mut O,
    errors: &mut E,
) -> Halt
    ensures hears { (old new : ServerLine) → LineTakes old new (Ok (Some message.now)) →
        HearsAnswers old new
        (sheet (O.tape output.old).wrote page.old) (sheet (O.tape output.new).wrote page.new)
        result }
    ensures counts { CountsHalt (O.faults output.old) (O.faults output.new) result }
{
    halt_at(page.hear(alloc, message, query, output, errors))
}

// Hears the next message, or waits for more bytes.
fn step<M: Messages, O: Sink, E: Sink>(
    alloc: Global,
    source: &mut M,
    page: &mut Page,
    query: &str,
    output: &mut O,
    errors: &mut E,
) -> Halt
    ensures hears { HearsAnswers (M.line source.old) (M.line source.new)
        (sheet (O.tape output.old).wrote page.old) (sheet (O.tape output.new).wrote page.new)
        result }
    ensures counts { CountsHalt (O.faults output.old) (O.faults output.new) result }
    ensures falls { Falls (M.line source.old) (M.line source.new) result }
{
    match source.next_whole() {
        Ok(Some(message)) => hear_message(alloc, page, &message, query, output, errors),
        Ok(None) => wait_for_more(alloc, source, page, output, errors),
        Err(error) => lose(alloc, error, errors),
    }
}

// Hears an answer until it is over.
fn hear_answer<M: Messages, O: Sink, E: Sink>(
    alloc: Global,
    source: &mut M,
    page: &mut Page,
    query: &str,
    output: &mut O,
    errors: &mut E,
) -> Halt
    ensures over { result ≡ halt.GoesOn → ⊥ }
    ensures hears { HearsAnswers (M.line source.old) (M.line source.new)
        (sheet (O.tape output.old).wrote page.old) (sheet (O.tape output.new).wrote page.new)
        result }
    ensures counts { CountsHalt (O.faults output.old) (O.faults output.new) result }
{
    'messages: loop {
        match step(alloc, source, page, query, output, errors) {
            Halt::GoesOn => {}
            Halt::Ready => return Halt::Ready,
            Halt::Misplaced => return Halt::Misplaced,
            Halt::Lost => return Halt::Lost,
            Halt::Stopped(stop) => return Halt::Stopped(stop),
        }
    }
}

fn end_by(stop: Stop) -> AnswerEnd
    ensures { result ≡ end_behind stop }
{
    match stop {
        Stop::Output => AnswerEnd::NoOutput,
        Stop::Memory => AnswerEnd::NoMemory,
    }
}

fn end_of(halt: Halt, failed: bool) -> AnswerEnd
    ensures { result ≡ end_at halt failed }
{
    match halt {
        Halt::Ready if failed => AnswerEnd::Failed,
        Halt::Ready => AnswerEnd::Well,
        Halt::Misplaced => AnswerEnd::Misplaced,
        Halt::GoesOn | Halt::Lost => AnswerEnd::Lost,
        Halt::Stopped(stop) => end_by(stop),
    }
}

fn stop_of(halt: Halt) -> Option<Stop>
    ensures { result ≡ stop_in halt }
{
    match halt {
        Halt::Stopped(stop) => Some(stop),
        Halt::GoesOn | Halt::Ready | Halt::Misplaced | Halt::Lost => None,
    }
}

// Prints the end of a page.
fn end_page<O: Sink>(alloc: Global, halt: Halt, page: &mut Page, output: &mut O) -> AnswerEnd
    requires { stop_in halt ≡ None }
    ensures { ClosesSheet halt (sheet (O.tape output.old).wrote page.old)
        (O.faults output.old) (O.faults output.new) (O.tape output.new).wrote result }
{
    match page.finish(alloc, output) {
        Ok(()) => end_of(halt, page.failed),
        Err(stop) => end_by(stop),
    }
}

// Prints the end of a page, unless printing stopped.
fn close<O: Sink>(alloc: Global, halt: Halt, page: &mut Page, output: &mut O) -> AnswerEnd
    ensures { ClosesSheet halt (sheet (O.tape output.old).wrote page.old)
        (O.faults output.old) (O.faults output.new) (O.tape output.new).wrote result }
{
    match stop_of(halt) {
        Some(stop) => end_by(stop),
        None => end_page(alloc, halt, page, output),
    }
}

// Prints the answer of a query that was asked.
fn answer<M: Messages, O: Sink, E: Sink>(
    alloc: Global,
    source: &mut M,
    format: RowFormat,
    query: &str,
    output: &mut O,
    errors: &mut E,
) -> AnswerEnd
    ensures answered { WritesAnswer format (M.line source.old) (M.line source.new)
        (O.tape output.old).wrote (O.tape output.new).wrote result }
    ensures counts { CountsEnd (O.faults output.old) (O.faults output.new) result }
{
    let mut page = Page::new(alloc, format);
    let halt = hear_answer(alloc, source, &mut page, query, output, errors);
    close(alloc, halt, &mut page, output)
}

/// Asks a query, prints the rows of its answer as they come, and tells people of what else comes.
pub fn ask<M: Messages, O: Sink, E: Sink>(
    alloc: Global,
    source: &mut M,
    format: RowFormat,
    query: &str,
    output: &mut O,
    errors: &mut E,
) -> AnswerEnd
    ensures asked { AsksAndPrints format query.now (M.line source.old) (M.line source.new)
        (O.tape output.old).wrote (O.tape output.new).wrote result }
    ensures counts { CountsEnd (O.faults output.old) (O.faults output.new) result }
{
    match source.ask(query) {
        Ok(()) => answer(alloc, source, format, query, output, errors),
        Err(error) => end_of(lose(alloc, error, errors), false),
    }
}

/// Asks queries in turn, up to the first whose answer does not end well.
pub fn ask_all<M: Messages, O: Sink, E: Sink>(
    alloc: Global,
    source: &mut M,
    format: RowFormat,
    queries: &[Text],
    output: &mut O,
    errors: &mut E,
) -> AnswerEnd
    ensures asked { AskedAll format queries.now (M.line source.old) (M.line source.new)
        (O.tape output.old).wrote (O.tape output.new).wrote result }
    ensures counts { CountsEnd (O.faults output.old) (O.faults output.new) result }
{
    for query in queries {
        match ask(alloc, source, format, query.as_str(), output, errors) {
            AnswerEnd::Well => {}
            end => return end,
        }
    }
    AnswerEnd::Well
}
