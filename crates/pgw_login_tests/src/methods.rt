//! Logins by a password method of one's own.
ghost use Rattle.std.specs.Prelude.{◌≡◌, ◌∷◌, []};
ghost use Rattle.pgw_login.specs.Cleartext.{OpensCleartext};
ghost use Rattle.pgw_login.specs.Password.{compared};

use crate::handlers::LET_IN;
use crate::support::{
    DRAWN, OnePassword, Outcome, Silent, Step, compare as compare_outcome, outcome_of,
};
use pgw_login::{
    Challenge, CleartextPassword, LoginInfo, PasswordMethod, PasswordStartupHandler, compare,
};
use pgw_registry::generator::RandomPidSecretKeyGenerator;
use pgw_startup::authentication::Authentication;
use pgw_types::error::PgWireResult;
use pgw_types::memory::OutOfMemory;
use pgw_types::octets::Octets;
use std::alloc::Global;
use std::process::Abort;
use std::test::Fail;

const ASKED: &[u8] = b"R\0\0\0\x08\0\0\0\x03";

// One word lets every user in.
#[derive(Drop)]
struct OneWord;

impl PasswordMethod for OneWord {
    ghost opens = { λ m. OpensCleartext };

    ghost checks = { λ m text kept login answer.
        answer ≡ compared text login (111 ∷ 112 ∷ 101 ∷ 110 ∷ []) };

    fn open(&self, _alloc: Global, _login: &LoginInfo<'_>) -> PgWireResult<Challenge> {
        Ok(Challenge {
            request: Authentication::CleartextPassword,
            kept: None,
        })
    }

    fn verify(
        &self,
        alloc: Global,
        login: &LoginInfo<'_>,
        _kept: &Option<Octets>,
        text: &str,
    ) -> PgWireResult<()> {
        compare(alloc, login, text, b"open")
    }
}

fn by_word<R: Abort>(rt: &R, alloc: Global, steps: &[Step<'_>]) -> Result<Outcome, OutOfMemory> {
    let (generator, seat) = RandomPidSecretKeyGenerator::new(alloc)?;
    let handler = PasswordStartupHandler::with_method(OneWord, Silent, generator);
    outcome_of(rt, alloc, &handler, seat, DRAWN, steps)
}

// The method of clear text, named.
fn by_source<R: Abort>(rt: &R, alloc: Global, steps: &[Step<'_>]) -> Result<Outcome, OutOfMemory> {
    let (generator, seat) = RandomPidSecretKeyGenerator::new(alloc)?;
    let method = CleartextPassword::new(OnePassword { password: b"open" });
    let handler = PasswordStartupHandler::with_method(method, Silent, generator);
    outcome_of(rt, alloc, &handler, seat, DRAWN, steps)
}

const TABLE: &[(&[Step<'static>], &str, &[u8])] = &[
    (&[Step::Startup("bob")], "ok", ASKED),
    (
        &[Step::Startup("bob"), Step::Password("open")],
        "ok",
        LET_IN,
    ),
    (
        &[Step::Startup("bob"), Step::Password("Open")],
        "bob",
        ASKED,
    ),
    (&[Step::Password("open")], "InvalidSASLState", b""),
];

#[test]
fn a_method_of_its_own_lets_in(rt: HostRuntime) -> Result<(), Fail> {
    for (steps, words, sent) in TABLE {
        let outcome = by_word(&rt, rt.alloc(), steps)?;
        compare_outcome(&rt, &outcome, words, sent);
    }
    Ok(())
}

#[test]
fn the_method_of_clear_text_lets_in(rt: HostRuntime) -> Result<(), Fail> {
    for (steps, words, sent) in TABLE {
        let outcome = by_source(&rt, rt.alloc(), steps)?;
        compare_outcome(&rt, &outcome, words, sent);
    }
    Ok(())
}
