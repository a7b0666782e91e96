//! OAUTHBEARER.
use crate::sasl::shared::{Case, DRAWN, TwoPasswords, compare, compare_words, scram};
use crate::support::{Outcome, Silent, Step, outcome_of};
use pgw_login_sasl::handler::SASLAuthStartupHandler;
use pgw_login_sasl::oauth::Oauth;
use pgw_login_sasl::validator::{OauthValidator, ValidatorModuleResult};
use pgw_registry::generator::RandomPidSecretKeyGenerator;
use pgw_types::error::{PgWireError, PgWireResult};
use pgw_types::memory::OutOfMemory;
use pgw_types::text::Text;
use std::alloc::Global;
use std::process::Abort;
use std::test::Fail;

const METHOD: &str = "OAUTHBEARER";

// AuthenticationSASL with both methods, and with the one.
const BOTH_OFFERED: &[u8] = b"R\0\0\0#\0\0\0\x0aSCRAM-SHA-256\0OAUTHBEARER\0\0";

const OFFER: &[u8] = b"R\0\0\0\x15\0\0\0\x0aOAUTHBEARER\0\0";

// An empty AuthenticationSASLContinue.
const ASKED: &[u8] = b"R\0\0\0\x08\0\0\0\x0b";

const TOLD: &[u8] =
    b"R\0\0\0\x81\0\0\0\x0b{\"openid-configuration\":\"https://example.com/.well-known/openid-configuration\",\"scope\":\"openid\",\"status\":\"invalid_token\"}";

// An issuer that names its configuration.
const TOLD_OF_ISSUER: &[u8] =
    b"R\0\0\0\x68\0\0\0\x0b{\"openid-configuration\":\"https://example.com/.well-known/x\",\"scope\":\"\",\"status\":\"invalid_token\"}";

const END: &[u8] = b"R\0\0\0\x08\0\0\0\0K\0\0\0\x0c\0\x01\x86\xa0\0\0\0\0Z\0\0\0\x05I";

const DATA: &[u8] = b"n,,\x01host=localhost\x01auth=Bearer token123\x01port=5432\x01\x01";

// Knows one token, of one user.
#[derive(Drop)]
struct OneToken;

fn is_known(token: &str, username: &str, issuer: &str, required_scopes: &str) -> bool {
    token == "token123"
        && username == "bob"
        && issuer == "https://example.com"
        && required_scopes == "openid"
}

fn verdict(alloc: Global, authorized: bool, username: &str) -> PgWireResult<ValidatorModuleResult> {
    Ok(ValidatorModuleResult {
        authorized,
        authn_id: Some(Text::from_str(alloc, username)?),
        metadata: None,
    })
}

fn down(alloc: Global) -> PgWireResult<ValidatorModuleResult> {
    Err(PgWireError::OAuthValidationError(Text::from_str(alloc, "down")?))
}

impl OauthValidator for OneToken {
    ghost validates = { λ validator token user issuer scopes answer. Unit {0} };

    fn validate(
        &self,
        alloc: Global,
        token: &str,
        username: &str,
        issuer: &str,
        required_scopes: &str,
    ) -> PgWireResult<ValidatorModuleResult> {
        if token == "broken" {
            down(alloc)
        } else {
            let known = is_known(token, username, issuer, required_scopes);
            verdict(alloc, known, username)
        }
    }
}

fn oauth_by(alloc: Global, issuer: &str, scope: &str) -> Result<Oauth, OutOfMemory> {
    let issuer = Text::from_str(alloc, issuer)?;
    let scope = Text::from_str(alloc, scope)?;
    Ok(Oauth::new(issuer, scope, Box::new(alloc, OneToken)?))
}

// What comes of messages to a handler for OAUTHBEARER alone.
fn by_oauth<R: Abort>(rt: &R, alloc: Global, steps: &[Step<'_>]) -> Result<Outcome, OutOfMemory> {
    let oauth = oauth_by(alloc, "https://example.com", "openid")?;
    let (generator, seat) = RandomPidSecretKeyGenerator::new(alloc)?;
    let handler = SASLAuthStartupHandler::<TwoPasswords, _, _, _>::new(Silent, generator);
    let handler = handler.with_oauth(oauth.with_skip_usermapping(true));
    outcome_of(rt, alloc, &handler, seat, DRAWN, steps)
}

const OPENED: Step<'static> = Step::Startup("bob");

// Says no more than that it has no token.
const TOKENLESS: Step<'static> = Step::First(METHOD, Some(b"n,,\x01\x01"));

const WHOLE: Step<'static> = Step::First(METHOD, Some(DATA));

const CASES: &[Case] = &[
    (&[OPENED], "ok", &[OFFER], -1),
    (&[OPENED, WHOLE], "ok ok", &[OFFER, END], 100000),
    (
        &[OPENED, Step::First(METHOD, None), Step::Response(DATA)],
        "ok ok ok",
        &[OFFER, ASKED, END],
        100000,
    ),
    (
        &[
            OPENED,
            Step::First(METHOD, Some(b"y,,\x01auth=BEARER   token123\x01")),
        ],
        "ok ok",
        &[OFFER, END],
        100000,
    ),
    (&[OPENED, TOKENLESS], "ok ok", &[OFFER, TOLD], -1),
    (&[WHOLE], "InvalidSASLState", &[], -1),
    (
        &[OPENED, TOKENLESS, Step::Response(b"\x01")],
        "ok ok Ended",
        &[OFFER, TOLD],
        -1,
    ),
    (
        &[OPENED, TOKENLESS, Step::Response(b"\x02")],
        "ok ok NotOneByte",
        &[OFFER, TOLD],
        -1,
    ),
    (
        &[OPENED, TOKENLESS, Step::Response(b"\x01\x01")],
        "ok ok NotOneByte",
        &[OFFER, TOLD],
        -1,
    ),
    (
        &[OPENED, TOKENLESS, Step::Response(b"")],
        "ok ok NotOneByte",
        &[OFFER, TOLD],
        -1,
    ),
    (
        &[OPENED, WHOLE, Step::Response(b"\x01")],
        "ok ok InvalidSASLState",
        &[OFFER, END],
        100000,
    ),
    (
        &[OPENED, Step::Password("")],
        "ok FailedToCoercePasswordMessage",
        &[OFFER],
        -1,
    ),
    (
        &[OPENED, Step::First("SCRAM-SHA-256", Some(DATA))],
        "ok SCRAM",
        &[OFFER],
        -1,
    ),
    (
        &[Step::Startup(""), WHOLE],
        "ok UserNameRequired",
        &[OFFER],
        -1,
    ),
];

#[test]
fn logins(rt: HostRuntime) -> Result<(), Fail> {
    for (steps, words, sent, number) in CASES {
        let outcome = by_oauth(&rt, rt.alloc(), steps)?;
        compare(&rt, &outcome, words, sent, *number);
    }
    Ok(())
}

// First messages.
const FAULTS: &[(&[u8], &str)] = &[
    (b"p,,\x01\x01", "ok ChannelBinding"),
    (b"x,,\x01\x01", "ok Flag"),
    (b"n", "ok Flag"),
    (b"n,", "ok AuthzId"),
    (b"n,a=bob,\x01\x01", "ok AuthzId"),
    (b"n,,", "ok Separator"),
    (b"n,,\x01auth\x01\x01", "ok Pair"),
    (b"n,,\x01a1=b\x01\x01", "ok Key"),
    (b"n,,\x01host=\x7f\x01\x01", "ok Value"),
    (
        b"n,,\x01auth=Bearer a\x01auth=Bearer b\x01\x01",
        "ok TwiceAuth",
    ),
    (b"n,,\x01auth=Bearer a\x01auth=\x7f\x01\x01", "ok TwiceAuth"),
    (b"n,,\x01auth=Basic token123\x01\x01", "ok Malformed"),
    (b"n,,\x01auth=Bearer \x01\x01", "ok Malformed"),
    (b"n,,\x01auth=Bearer token 123\x01\x01", "ok Malformed"),
    (b"n,,\x01auth=Bearer token124\x01\x01", "ok Refused"),
    (b"n,,\x01auth=Bearer broken\x01\x01", "ok down"),
    (b"n,,\x01auth=\x01\x01", "ok ok"),
];

// What comes of a first message of SASL.
fn by_first<R: Abort>(rt: &R, alloc: Global, first: &[u8]) -> Result<Outcome, OutOfMemory> {
    by_oauth(rt, alloc, &[OPENED, Step::First(METHOD, Some(first))])
}

#[test]
fn faults(rt: HostRuntime) -> Result<(), Fail> {
    for (first, words) in FAULTS {
        let outcome = by_first(&rt, rt.alloc(), first)?;
        compare_words(&rt, &outcome, words, -1);
    }
    Ok(())
}

// What comes of messages to a handler for both methods, with the issuer alone.
fn by_both<R: Abort>(rt: &R, alloc: Global, steps: &[Step<'_>]) -> Result<Outcome, OutOfMemory> {
    let oauth = oauth_by(alloc, "https://example.com/.well-known/x", "")?;
    let (generator, seat) = RandomPidSecretKeyGenerator::new(alloc)?;
    let handler = SASLAuthStartupHandler::new(Silent, generator).with_scram(scram());
    let handler = handler.with_oauth(oauth);
    outcome_of(rt, alloc, &handler, seat, DRAWN, steps)
}

// Both methods are offered, SCRAM first.
#[test]
fn both_methods(rt: HostRuntime) -> Result<(), Fail> {
    let steps = [OPENED, Step::First(METHOD, Some(b""))];
    let outcome = by_both(&rt, rt.alloc(), &steps)?;
    let sent = [BOTH_OFFERED, TOLD_OF_ISSUER];
    compare(&rt, &outcome, "ok ok", &sent, -1);
    Ok(())
}
