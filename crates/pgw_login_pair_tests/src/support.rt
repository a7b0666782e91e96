//! Two parties by what they know, and words for how they end.

use pgw_client::{
    Listed, Octets, OutOfMemory, PgWireClientError, PgWireError, ScramMessageFault, Text,
};
use pgw_hash::pbkdf2::gen_salted_password;
use pgw_login_pair::parties::{ClientEnd, PairInput, PairOutcome, ServerEnd};
use pgw_login_pair::{Event, two_party};
use pgw_scram::password::Password;
use std::alloc::Global;

/// What the client knows, and what the server keeps: the salted password of a text, or bytes.
#[derive(Clone, Copy)]
pub struct Knows<'a> {
    pub user: &'a str,
    pub password: &'a [u8],
    pub stored: Stored<'a>,
    pub salt: Option<&'a [u8]>,
    pub count: u32,
    pub client_hash: Option<&'a [u8]>,
    pub server_hash: Option<&'a [u8]>,
}

#[derive(Clone, Copy)]
pub enum Stored<'a> {
    Of(&'a str),
    Bytes(&'a [u8]),
}

/// Honest parties.
pub const HONEST: Knows<'static> = Knows {
    user: "foo",
    password: b"bar",
    stored: Stored::Of("bar"),
    salt: Some(b"salt"),
    count: 2,
    client_hash: None,
    server_hash: None,
};

fn password(alloc: Global, knows: &Knows<'_>) -> Result<Octets, OutOfMemory> {
    match knows.stored {
        Stored::Of(text) => {
            let salt = knows.salt.unwrap_or(b"salt");
            let salted = gen_salted_password(alloc, text, salt, knows.count.max(1))?;
            Octets::from_slice(alloc, &salted)
        }
        Stored::Bytes(bytes) => Octets::from_slice(alloc, bytes),
    }
}

fn kept(alloc: Global, knows: &Knows<'_>) -> Result<Password, OutOfMemory> {
    let salt = octets(alloc, knows.salt)?;
    Ok(Password::new(salt, password(alloc, knows)?))
}

fn octets(alloc: Global, bytes: Option<&[u8]>) -> Result<Option<Octets>, OutOfMemory> {
    match bytes {
        Some(bytes) => Ok(Some(Octets::from_slice(alloc, bytes)?)),
        None => Ok(None),
    }
}

// The name and the password of the client.
fn client_of(alloc: Global, knows: &Knows<'_>) -> Result<(Text, Octets), OutOfMemory> {
    let user = Text::from_str(alloc, knows.user)?;
    Ok((user, Octets::from_slice(alloc, knows.password)?))
}

// The hash of the client, and the server's.
fn hashes(
    alloc: Global,
    knows: &Knows<'_>,
) -> Result<(Option<Octets>, Option<Octets>), OutOfMemory> {
    let of_client = octets(alloc, knows.client_hash)?;
    Ok((of_client, octets(alloc, knows.server_hash)?))
}

// An input without events, and zeros for what is drawn.
fn input_for(alloc: Global, knows: &Knows<'_>) -> Result<PairInput, OutOfMemory> {
    let (user, password) = client_of(alloc, knows)?;
    let stored = kept(alloc, knows)?;
    let (client_hash, server_hash) = hashes(alloc, knows)?;
    Ok(PairInput {
        user,
        password,
        stored,
        count: knows.count,
        client_nonce: [0; 18],
        server_nonce: [0; 18],
        words: [0; 32],
        client_hash,
        server_hash,
        schedule: Listed::new(alloc),
    })
}

// By the key that is refused.
fn config_word(key: &Text) -> &'static str {
    match key.as_str() {
        "user" => "InvalidConfig user",
        _ => "InvalidConfig",
    }
}

// How the client ends.
fn client_word(end: &ClientEnd) -> &'static str {
    match end {
        ClientEnd::Waiting => "waiting",
        ClientEnd::Ready(_) => "ready",
        ClientEnd::Refused(PgWireClientError::InvalidConfig(key)) => config_word(key),
        ClientEnd::Refused(PgWireClientError::ScramError(_)) => "ScramError",
        ClientEnd::Refused(_) => "another refusal",
    }
}

// How the server ends.
fn server_word(end: &ServerEnd) -> &'static str {
    match end {
        ServerEnd::Waiting => "waiting",
        ServerEnd::Finished => "finished",
        ServerEnd::Refused(PgWireError::InvalidPassword(_)) => "InvalidPassword",
        ServerEnd::Refused(PgWireError::InvalidScramMessage(ScramMessageFault::Grammar)) =>
            "Grammar",
        ServerEnd::Refused(PgWireError::InvalidScramMessage(ScramMessageFault::ChannelBinding)) => {
            "ChannelBinding"
        }
        ServerEnd::Refused(PgWireError::SaltRequired) => "SaltRequired",
        ServerEnd::Refused(_) => "another refusal",
    }
}

/// All that there is to the server and then to the client, so many times.
pub fn turns(alloc: Global, count: usize) -> Result<Listed<Event>, OutOfMemory> {
    let mut events = Listed::new(alloc);
    for _ in 0..count {
        events.push(Event::ToServer(10000))?;
        events.push(Event::ToClient(10000))?;
    }
    Ok(events)
}

/// What comes of this schedule.
pub fn outcome(
    alloc: Global,
    knows: &Knows<'_>,
    schedule: Listed<Event>,
) -> Result<PairOutcome, OutOfMemory> {
    let mut input = input_for(alloc, knows)?;
    input.count = input.count.max(1);
    input.schedule = schedule;
    let outcome = two_party(alloc, &input);
    drop(input);
    outcome
}

/// How the client and the server end.
pub fn ends_of(outcome: &PairOutcome) -> (&'static str, &'static str) {
    (client_word(&outcome.client), server_word(&outcome.server))
}
