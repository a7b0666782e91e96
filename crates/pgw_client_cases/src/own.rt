//! What a caller reads, sends and sets by itself.

use crate::link::CaseLink;
use crate::shown::{said, told};
use anyhow::{Context, Result, bail};
use pgw_client::{Listed, Text};
use pgw_client_calls::{ClientInfo, Outgoing, PgWireClient, PgWireFrontendMessage};
use pgw_ext::extendedquery::{Parse, Sync};
use std::alloc::Global;

type Client = PgWireClient<CaseLink>;

/// Polls once.
pub fn poll(alloc: Global, client: &mut Client) -> Result<String> {
    told(alloc, client.poll_next())
}

/// Reads once.
pub fn fill(alloc: Global, client: &mut Client) -> Result<String> {
    told(alloc, client.fill())
}

// A Parse that has no spelling: its text holds a zero byte.
fn unspelled(alloc: Global) -> Result<Parse> {
    let text = Text::from_str(alloc, "\0")?;
    Ok(Parse::new(None, text, Listed::new(alloc)))
}

fn message(alloc: Global, word: &str) -> Result<PgWireFrontendMessage> {
    match word {
        "sync" => Ok(PgWireFrontendMessage::Sync(Sync::new())),
        "bad" => Ok(PgWireFrontendMessage::Parse(unspelled(alloc)?)),
        _ => bail!("no message {word}"),
    }
}

/// Sends a message.
pub fn send(alloc: Global, client: &mut Client, word: &str) -> Result<String> {
    let message = message(alloc, word)?;
    said(alloc, client.send(message), "ok")
}

/// Sets a parameter.
pub fn set(alloc: Global, client: &mut Client, text: &str) -> Result<String> {
    let (name, value) = text.split_once(' ').context("a name and a value")?;
    let name = Text::from_str(alloc, name)?;
    let value = Text::from_str(alloc, value)?;
    client.set_server_parameter(name, value)?;
    Ok(String::from_str(alloc, "ok")?)
}

/// The value of a parameter.
pub fn parameter(alloc: Global, client: &Client, name: &str) -> Result<String> {
    let value = match client.server_parameters().get(name) {
        Some(value) => value.as_str(),
        None => "-",
    };
    Ok(String::from_str(alloc, value)?)
}
