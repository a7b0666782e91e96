//! The calls of a case.

use crate::case::Case;
use crate::extended::extended;
use crate::link::{CaseDialer, CaseLink};
use crate::listener::Listener;
use crate::own::{fill, parameter, poll, send, set};
use crate::shown::{Shown, error_name, said, status_shown, told};
use anyhow::Result;
use example_row_counter::RowCounter;
use pgw_client::{Listed, PgWireClientError, PgWireClientResult};
use pgw_client_calls::PgWireClient;
use pgw_handlers_default::{DefaultSimpleQueryHandler, DefaultStartupHandler};
use std::alloc::Global;

type Client = PgWireClient<CaseLink>;

fn simple(alloc: Global, client: &mut Client, sql: &str) -> Result<String> {
    let handler = DefaultSimpleQueryHandler::new(alloc);
    told(alloc, client.simple_query(handler, sql))
}

// A handler of a caller's own, which counts rows.
fn count(alloc: Global, client: &mut Client, sql: &str) -> Result<String> {
    told(alloc, client.simple_query(RowCounter::new(), sql))
}

// A handler of a caller's own, which keeps notices and notifications.
fn listen(alloc: Global, client: &mut Client, sql: &str) -> Result<String> {
    told(alloc, client.simple_query(Listener::new(alloc), sql))
}

// Listens, by an extended query.
fn listen_extended(alloc: Global, client: &mut Client, sql: &str) -> Result<String> {
    let mut listener = Listener::new(alloc);
    let mut lent = client.extended_query(&mut listener);
    let rows = told(alloc, lent.query(sql, &[], Listed::new(alloc)))?;
    let heard = listener.heard.shown(alloc)?;
    Ok(format!(in alloc; "{rows}, {heard}")?)
}

// Cancels by a token.
fn cancel_by_token(client: &Client, dialer: &mut CaseDialer) -> Result<PgWireClientResult<()>> {
    match client.cancel_token() {
        Ok(token) => Ok(token.cancel(dialer)),
        Err(error) => Ok(Err(error)),
    }
}

// A call that asks nothing of the server, or one of extended queries.
fn other(alloc: Global, client: &mut Client, word: &str, rest: &str) -> Result<String> {
    match word {
        "poll" => poll(alloc, client),
        "fill" => fill(alloc, client),
        "send" => send(alloc, client, rest),
        "buffered" => Ok(format!(in alloc; "{}", client.buffered())?),
        "sent" => Ok(hex::encode(alloc, client.link().written())?),
        _ => extended(alloc, client, word, rest),
    }
}

// A call that asks nothing, or one by a handler that listens, or one that has to do with a parameter.
fn quiet(alloc: Global, client: &mut Client, word: &str, rest: &str) -> Result<String> {
    match word {
        "set" => set(alloc, client, rest),
        "parameter" => parameter(alloc, client, rest),
        "listen" => listen(alloc, client, rest),
        "listen-extended" => listen_extended(alloc, client, rest),
        _ => other(alloc, client, word, rest),
    }
}

// One call on a client, and what came of it.
fn call(alloc: Global, client: &mut Client, dialer: &mut CaseDialer, text: &str) -> Result<String> {
    let (word, rest) = text.split_once(' ').unwrap_or((text, ""));
    match word {
        "simple" => simple(alloc, client, rest),
        "count" => count(alloc, client, rest),
        "cancel" => said(alloc, client.cancel(dialer), "ok"),
        "token" => said(alloc, cancel_by_token(client, dialer)?, "ok"),
        "closed" => closed(alloc, dialer),
        _ => quiet(alloc, client, word, rest),
    }
}

// A word of a call. Two stand for what no line holds, or holds badly: a zero byte, and 10000 letters.
fn spell(alloc: Global, word: &str, spelled: &mut String) -> Result<()> {
    match word {
        "\\0" => spelled.push_str("\0")?,
        "\\long" => spelled.push_str("a".repeat(alloc, 10_000)?.as_str())?,
        _ => spelled.push_str(word)?,
    }
    Ok(())
}

// The text of a call, with what its words stand for.
fn spelled(alloc: Global, text: &str) -> Result<String> {
    let mut spelled = String::new(alloc);
    for word in text.split(' ') {
        if !spelled.is_empty() {
            spelled.push_str(" ")?;
        }
        spell(alloc, word, &mut spelled)?;
    }
    Ok(spelled)
}

// The call of a text.
fn call_by(
    alloc: Global,
    client: &mut Client,
    dialer: &mut CaseDialer,
    text: &str,
) -> Result<String> {
    let spelled = spelled(alloc, text)?;
    call(alloc, client, dialer, spelled.as_str())
}

// What a client was told, behind a call.
fn state(alloc: Global, client: &Client) -> Result<String> {
    if client.is_broken() {
        return Ok(String::from_str(alloc, "broken")?);
    }
    Ok(String::from_str(alloc, status_shown(client))?)
}

fn connect(
    alloc: Global,
    case: &Case,
    dialer: &mut CaseDialer,
) -> Result<PgWireClientResult<Client>> {
    let config = match case.configuration(alloc)? {
        Ok(config) => config,
        Err(e) => return Ok(Err(e)),
    };
    let handler = DefaultStartupHandler::new([0; 18]);
    Ok(PgWireClient::connect(alloc, config, handler, dialer, case.limit))
}

// The bytes that were sent over the link that was closed last.
fn closed(alloc: Global, dialer: &CaseDialer) -> Result<String> {
    match dialer.closed() {
        Some(link) if link.written().is_empty() => Ok(String::from_str(alloc, "nothing")?),
        Some(link) => Ok(hex::encode(alloc, link.written())?),
        None => Ok(String::from_str(alloc, "-")?),
    }
}

// What one call comes to, and how it leaves the client.
fn answer(
    alloc: Global,
    client: &mut Client,
    dialer: &mut CaseDialer,
    text: &str,
) -> Result<String> {
    let came = call_by(alloc, client, dialer, text)?;
    let state = state(alloc, client)?;
    Ok(format!(in alloc; "; {text} -> {came}, {state}")?)
}

// What a refused connect comes to.
fn refused(alloc: Global, error: &PgWireClientError, dialer: &CaseDialer) -> Result<String> {
    let closed = closed(alloc, dialer)?;
    Ok(format!(in alloc; "{}, closed {closed}", error_name(error))?)
}

// What the calls on a client come to.
fn all(alloc: Global, client: &mut Client, dialer: &mut CaseDialer, calls: &str) -> Result<String> {
    let mut answers = format!(in alloc; "connected {}", status_shown(client))?;
    for text in calls.split(" ; ") {
        let came = answer(alloc, client, dialer, text)?;
        answers.push_str(came.as_str())?;
    }
    Ok(answers)
}

// What the end of a client comes to.
fn ended(alloc: Global, client: Client, dialer: &mut CaseDialer) -> Result<String> {
    let came = said(alloc, client.close(dialer), "ok")?;
    let closed = closed(alloc, dialer)?;
    Ok(format!(in alloc; "; end -> {came}, closed {closed}")?)
}

// What the calls on a client come to, and its end behind them.
fn until_its_end(
    alloc: Global,
    mut client: Client,
    dialer: &mut CaseDialer,
    calls: &str,
) -> Result<String> {
    let answers = all(alloc, &mut client, dialer, calls);
    let end = ended(alloc, client, dialer);
    let mut whole = answers?;
    whole.push_str(end?.as_str())?;
    Ok(whole)
}

// What the calls on a client come to, with its end where that is asked for.
fn whole(
    alloc: Global,
    mut client: Client,
    dialer: &mut CaseDialer,
    calls: &str,
) -> Result<String> {
    if let Some((calls, _)) = calls.split_once(" ; end") {
        return until_its_end(alloc, client, dialer, calls);
    }
    let answers = all(alloc, &mut client, dialer, calls);
    drop(client);
    answers
}

/// What a case's calls come to, one behind the other.
pub fn answers(alloc: Global, case: &Case, calls: &str) -> Result<String> {
    let mut dialer = case.dialer(alloc)?;
    match connect(alloc, case, &mut dialer)? {
        Ok(client) => {
            let said = whole(alloc, client, &mut dialer, calls);
            drop(dialer);
            said
        }
        Err(error) => {
            let said = refused(alloc, &error, &dialer);
            drop(error);
            drop(dialer);
            said
        }
    }
}
