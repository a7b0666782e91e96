//! What people are told of a server's messages. No clause speaks of these texts; where memory runs out, nothing is told.

use crate::said::Turn;
use pgw_backend::backend::PgWireBackendMessage;
use pgw_query::response::{ErrorResponse, NoticeResponse};
use pgw_types::text::Text;
use std::alloc::{AllocError, Global};
use std::fmt::Write;
use unicode_width::UnicodeWidthStr;

// The code of the field that tells the place in the query.
const PLACE: u8 = b'P';

// A text without control characters but for line feeds: a server's message must not steer a terminal.
fn without_controls(alloc: Global, text: &str) -> Result<String, AllocError> {
    let mut plain = String::new(alloc);
    for c in text.chars() {
        if c.is_control() && c != '\n' {
            write!(plain, "{}", c.escape_default())?;
        } else {
            plain.push(c)?;
        }
    }
    Ok(plain)
}

// The place in the query that an error tells: a number of characters, counted from 1.
fn place_of(fields: &[(u8, Text)]) -> Option<u64> {
    for (code, text) in fields {
        if *code == PLACE {
            return text.as_str().parse::<u64>().ok();
        }
    }
    None
}

// A line of a query, and the front of it.
#[derive(Drop)]
struct Line {
    number: u64,
    text: String,
    front: String,
}

// The line in which a place lies, and what stands before the place in it.
fn line_at(alloc: Global, query: &str, place: u64) -> Result<Line, AllocError> {
    let mut line = Line {
        number: 1,
        text: String::new(alloc),
        front: String::new(alloc),
    };
    let mut at = 1u64;
    for c in query.chars() {
        if c == '\n' {
            if at >= place {
                break;
            }
            line.number = line.number.saturating_add(1);
            line.text.clear();
            line.front.clear();
        } else {
            let shown = if c.is_control() { ' ' } else { c };
            if at < place {
                line.front.push(shown)?;
            }
            line.text.push(shown)?;
        }
        at = at.saturating_add(1);
    }
    Ok(line)
}

// A line of a query, and a mark under the place.
fn marked(alloc: Global, query: &str, place: u64) -> Result<String, AllocError> {
    let line = line_at(alloc, query, place)?;
    let head = format!(in alloc; "LINE {}: ", line.number)?;
    let mut text = format!(in alloc; "{}{}\n", head, line.text)?;
    for _ in 0..head.width().saturating_add(line.front.width()) {
        text.push(' ')?;
    }
    text.push_str("^\n")?;
    Ok(text)
}

fn error_text(alloc: Global, error: &ErrorResponse, query: &str) -> Result<String, AllocError> {
    let text = format!(in alloc; "{error}\n")?;
    let mut text = without_controls(alloc, text.as_str())?;
    if let Some(place) = place_of(error.fields.as_slice()) {
        text.push_str(marked(alloc, query, place)?.as_str())?;
    }
    Ok(text)
}

fn notice_text(alloc: Global, notice: &NoticeResponse) -> Result<String, AllocError> {
    let text = format!(in alloc; "{notice}\n")?;
    without_controls(alloc, text.as_str())
}

// Why an answer cannot go on behind a message.
fn misplaced_text(alloc: Global, message: &PgWireBackendMessage) -> Result<String, AllocError> {
    match message {
        PgWireBackendMessage::CopyInResponse(_)
        | PgWireBackendMessage::CopyOutResponse(_)
        | PgWireBackendMessage::CopyBothResponse(_) => {
            format!(in alloc; "COPY from standard input or to standard output is not done here\n")
        }
        PgWireBackendMessage::DataRow(_) => {
            format!(in alloc; "the server sent a row that is none of a result, or cannot be read\n")
        }
        PgWireBackendMessage::RowDescription(_) => {
            format!(in alloc; "the server sent columns whose values do not come as text\n")
        }
        _ => format!(in alloc; "the server sent a message that has no place in an answer\n"),
    }
}

fn text_of(
    alloc: Global,
    message: &PgWireBackendMessage,
    query: &str,
) -> Result<String, AllocError> {
    match message {
        PgWireBackendMessage::CommandComplete(m) => {
            let text = format!(in alloc; "{}\n", m.tag)?;
            without_controls(alloc, text.as_str())
        }
        PgWireBackendMessage::EmptyQueryResponse(_) => format!(in alloc; "the query is empty\n"),
        PgWireBackendMessage::ErrorResponse(m) => error_text(alloc, m, query),
        PgWireBackendMessage::NoticeResponse(m) => notice_text(alloc, m),
        PgWireBackendMessage::NotificationResponse(m) => {
            let text = format!(in alloc;
                "NOTIFY {} from process {}: {}\n",
                m.channel, m.pid, m.payload
            )?;
            without_controls(alloc, text.as_str())
        }
        _ => Ok(String::new(alloc)),
    }
}

/// What people are told of a message that comes in the answer of a query.
pub fn told_of(alloc: Global, message: &PgWireBackendMessage, turn: Turn, query: &str) -> String {
    let text = match turn {
        Turn::Misplaced => misplaced_text(alloc, message),
        Turn::GoesOn | Turn::Ready => text_of(alloc, message, query),
    };
    match text {
        Ok(text) => text,
        Err(_) => String::new(alloc),
    }
}
