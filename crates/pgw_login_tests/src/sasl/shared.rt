//! What the tests log in with.

use crate::support::{Drawn, Outcome, Standing, Step};
use pgw_hash::pbkdf2::gen_salted_password;
use pgw_login::client_info::PgWireConnectionState;
use pgw_login::source::{AuthSource, LoginInfo, SecretSource};
use pgw_login_sasl::scram::ScramAuth;
use pgw_scram::password::Password as Kept;
use pgw_secrets::secret::StoredSecret;
use pgw_types::error::{PgWireError, PgWireResult};
use pgw_types::octets::Octets;
use std::alloc::Global;
use std::process::Abort;

/// Keeps the password `pencil` of `bob`, one without salt of `tom`, and none of others.
#[derive(Drop)]
pub struct TwoPasswords;

fn kept_of_bob(alloc: Global) -> PgWireResult<Kept> {
    let salted = gen_salted_password(alloc, "pencil", b"bar", 12)?;
    let salt = Octets::from_slice(alloc, b"bar")?;
    Ok(Kept::new(Some(salt), Octets::from_slice(alloc, &salted)?))
}

impl AuthSource for TwoPasswords {
    ghost answers = { λ source login answer. Unit {0} };

    fn get_password(&self, alloc: Global, login: &LoginInfo<'_>) -> PgWireResult<Kept> {
        match login.user().unwrap_or("") {
            "bob" => kept_of_bob(alloc),
            "tom" => Ok(Kept::new(None, Octets::from_slice(alloc, b"pencil")?)),
            _ => Err(PgWireError::UserNameRequired),
        }
    }
}

/// Keeps the secret of `pencil` of `bob`, and none of others.
#[derive(Drop)]
pub struct OneSecret;

impl SecretSource for OneSecret {
    ghost secrets = { λ source login answer. Unit {0} };

    fn get_secret(&self, alloc: Global, login: &LoginInfo<'_>) -> PgWireResult<StoredSecret> {
        match login.user().unwrap_or("") {
            "bob" => Ok(StoredSecret::make(alloc, "pencil", b"bar", 12)?),
            _ => Err(PgWireError::UserNameRequired),
        }
    }
}

/// SCRAM with twelve rounds.
pub fn scram() -> ScramAuth<TwoPasswords> {
    let mut scram = ScramAuth::new(TwoPasswords);
    scram.set_iterations(12);
    scram
}

/// Messages, the word that each is answered, what is sent in all, and then the client's process number: -1 of one that may
/// not ask.
pub type Case = (
    &'static [Step<'static>],
    &'static str,
    &'static [&'static [u8]],
    i32,
);

/// What a server draws for SASL.
pub const DRAWN: Drawn = ([1; 18], [0; 32]);

// The client's process number: -1 of one that may not ask.
fn number_of(client: &Standing) -> i32 {
    match client {
        (PgWireConnectionState::ReadyForQuery, _, _, number) => *number,
        _ => -1,
    }
}

// Whether the bytes are these pieces, one behind the other.
fn is_joined(bytes: &[u8], pieces: &[&[u8]]) -> bool {
    let mut rest = bytes;
    for piece in pieces {
        match rest.strip_prefix(*piece) {
            Some(behind) => rest = behind,
            None => return false,
        }
    }
    rest.is_empty()
}

/// Compares the words that a case's messages are answered, and the client's number, with what is wanted.
pub fn compare_words<R: Abort>(rt: &R, outcome: &Outcome, words: &str, number: i32) {
    let came = outcome.words.as_str().trim_start();
    assert_eq!(rt; (came, number_of(&outcome.client)), (words, number));
}

/// Compares all that comes of a case's messages with what is wanted.
pub fn compare<R: Abort>(rt: &R, outcome: &Outcome, words: &str, sent: &[&[u8]], number: i32) {
    compare_words(rt, outcome, words, number);
    assert!(rt; is_joined(outcome.sent.as_slice(), sent));
}
