//! An honest client's login by SCRAM-SHA-256 at a server's core, however its bytes are cut.

use crate::server::servers::{Asks, server_says};
use crate::server::support::Said;
use bytes::BytesMut;
use pgw_frontend::frontend::PgWireFrontendMessage;
use pgw_login::client_info::METADATA_USER;
use pgw_scram::client::{
    ScramClientAuth, ScramClientAuthWaitingForServerFinal, ScramClientAuthWaitingForServerFirst,
};
use pgw_startup::password::PasswordMessageFamily;
use pgw_startup::sasl::{SASLInitialResponse, SASLResponse};
use pgw_startup::startup::Startup;
use pgw_types::error::PgWireResult;
use pgw_types::memory::OutOfMemory;
use pgw_types::octets::Octets;
use pgw_types::text::Text;
use std::alloc::Global;
use std::process::Abort;
use std::test::Fail;

// How many bytes AuthenticationSASL with its one method has.
const OFFER: usize = 24;

fn startup(alloc: Global) -> Result<PgWireFrontendMessage, OutOfMemory> {
    let name = Text::from_str(alloc, METADATA_USER)?;
    let user = Text::from_str(alloc, "bob")?;
    let mut startup = Startup::new(alloc);
    startup.parameters.insert(name, user)?;
    Ok(PgWireFrontendMessage::Startup(startup))
}

fn first(alloc: Global, text: &str) -> Result<PgWireFrontendMessage, OutOfMemory> {
    let method = Text::from_str(alloc, "SCRAM-SHA-256")?;
    let payload = Octets::from_slice(alloc, text.as_bytes())?;
    let response = SASLInitialResponse::new(method, Some(payload));
    let message = PasswordMessageFamily::SASLInitialResponse(response);
    Ok(PgWireFrontendMessage::PasswordMessageFamily(message))
}

fn further(alloc: Global, text: &str) -> Result<PgWireFrontendMessage, OutOfMemory> {
    let payload = Octets::from_slice(alloc, text.as_bytes())?;
    let message = PasswordMessageFamily::SASLResponse(SASLResponse::new(payload));
    Ok(PgWireFrontendMessage::PasswordMessageFamily(message))
}

fn put(
    bytes: &mut BytesMut,
    message: Result<PgWireFrontendMessage, OutOfMemory>,
) -> PgWireResult<()> {
    message?.encode(bytes)
}

// The text of the message of a server that stands there, behind its type, its length and its code.
fn text_at(out: &[u8], at: usize) -> &[u8] {
    let message = out.get(at..).unwrap_or(&[]);
    match message.get(4) {
        Some(length) => message.get(9..usize::from(*length) + 1).unwrap_or(&[]),
        None => &[],
    }
}

fn client(alloc: Global) -> Result<ScramClientAuth, OutOfMemory> {
    let name = Text::from_str(alloc, "bob")?;
    Ok(ScramClientAuth::new(name, Text::from_str(alloc, "pencil")?))
}

// Puts out the startup message and the client's first message of SCRAM.
fn begin(
    alloc: Global,
    bytes: &mut BytesMut,
) -> Result<ScramClientAuthWaitingForServerFirst, Fail> {
    put(bytes, startup(alloc))?;
    let (text, client) = client(alloc)?.build_client_first(alloc, &[0; 18])?;
    put(bytes, first(alloc, text.as_str()))?;
    Ok(client)
}

// Puts out the client's last message of SCRAM, which it makes of what the server said.
fn end(
    alloc: Global,
    client: ScramClientAuthWaitingForServerFirst,
    said: &[u8],
    bytes: &mut BytesMut,
) -> Result<ScramClientAuthWaitingForServerFinal, Fail> {
    let (text, client) = client.build_client_final(alloc, text_at(said, OFFER))?;
    put(bytes, further(alloc, text.as_str()))?;
    Ok(client)
}

fn heard<R: Abort>(rt: &R, alloc: Global, bytes: &BytesMut, cut: usize) -> Result<Said, Fail> {
    Ok(server_says(rt, alloc, Asks::Scram, bytes.as_slice(), cut)?)
}

// Puts out all that the client sends; how many bytes the server said before the last message, and the client behind it.
fn sent<R: Abort>(
    rt: &R,
    alloc: Global,
    cut: usize,
    bytes: &mut BytesMut,
) -> Result<(usize, ScramClientAuthWaitingForServerFinal), Fail> {
    let client = begin(alloc, bytes)?;
    let said = heard(rt, alloc, bytes, cut)?;
    let client = end(alloc, client, said.out.as_slice(), bytes)?;
    Ok((said.out.len(), client))
}

// What the server answers to all that the client sends, and whether the client then finds that it knows the password.
fn answered<R: Abort>(
    rt: &R,
    alloc: Global,
    cut: usize,
    bytes: &mut BytesMut,
) -> Result<(String, bool), Fail> {
    let (count, client) = sent(rt, alloc, cut, bytes)?;
    let said = heard(rt, alloc, bytes, cut)?;
    let last = text_at(said.out.as_slice(), count);
    let is_known = client.verify_server_final(alloc, last).is_ok();
    drop(client);
    Ok((said.answer, is_known))
}

fn log_in<R: Abort>(rt: &R, alloc: Global, cut: usize) -> Result<(String, bool), Fail> {
    let mut bytes = BytesMut::new(alloc);
    answered(rt, alloc, cut, &mut bytes)
}

#[test]
fn scram_login(rt: HostRuntime) -> Result<(), Fail> {
    for cut in [1, 7, 1000] {
        let (answer, is_known) = log_in(&rt, rt.alloc(), cut)?;
        assert_eq!(rt; (answer.as_str(), is_known), ("finished", true));
    }
    Ok(())
}
