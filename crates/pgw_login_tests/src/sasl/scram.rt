//! SCRAM-SHA-256. Texts and digests were computed with Python's hashlib by the formulas of RFC 5802.
use crate::sasl::shared::{Case, DRAWN, OneSecret, TwoPasswords, compare, scram};
use crate::support::{Outcome, Silent, Step, outcome_of};
use pgw_login_sasl::handler::SASLAuthStartupHandler;
use pgw_login_sasl::scram::{ScramAuth, ScramSource};
use pgw_login_sasl::stored::Secrets;
use pgw_registry::generator::RandomPidSecretKeyGenerator;
use pgw_types::memory::OutOfMemory;
use std::alloc::Global;
use std::process::Abort;
use std::test::Fail;

const METHOD: &str = "SCRAM-SHA-256";

const PLUS: &str = "SCRAM-SHA-256-PLUS";

const FIRST: &[u8] = b"n,,n=bob,r=AAAAAAAAAAAAAAAAAAAAAAAA";

const BOUND_FIRST: &[u8] = b"p=tls-server-end-point,,n=bob,r=AAAAAAAAAAAAAAAAAAAAAAAA";

const UNOFFERED_FIRST: &[u8] = b"y,,n=bob,r=AAAAAAAAAAAAAAAAAAAAAAAA";

const LAST: &[u8] =
    b"c=biws,r=AAAAAAAAAAAAAAAAAAAAAAAAAQEBAQEBAQEBAQEBAQEBAQEB,p=rENGY+XF2NrcuDnCzeudKtjcyghjLunPidEO0/tNTKc=";

const FALSE_PROOF: &[u8] =
    b"c=biws,r=AAAAAAAAAAAAAAAAAAAAAAAAAQEBAQEBAQEBAQEBAQEBAQEB,p=sENGY+XF2NrcuDnCzeudKtjcyghjLunPidEO0/tNTKc=";

// Of the hash whose one byte is 10.
const BOUND_LAST: &[u8] =
    b"c=cD10bHMtc2VydmVyLWVuZC1wb2ludCwsCg==,r=AAAAAAAAAAAAAAAAAAAAAAAAAQEBAQEBAQEBAQEBAQEBAQEB,p=pl2wYwZOcqk7mYr6S/psTQ8E2445XWSYpCRi+EsB1fs=";

const BOUND_OFFER: &[u8] = b"R\0\0\0*\0\0\0\x0aSCRAM-SHA-256\0SCRAM-SHA-256-PLUS\0\0";

// AuthenticationSASL with its one method.
const OFFER: &[u8] = b"R\0\0\0\x17\0\0\0\x0aSCRAM-SHA-256\0\0";

const SERVER_FIRST: &[u8] =
    b"R\0\0\0F\0\0\0\x0br=AAAAAAAAAAAAAAAAAAAAAAAAAQEBAQEBAQEBAQEBAQEBAQEB,s=YmFy,i=12";

const SERVER_FINAL: &[u8] = b"R\0\0\06\0\0\0\x0cv=ixyMlYYopKNLUY01k1RxEoUhGHhc+NZ5t4InsGNpq44=";

const BOUND_FINAL: &[u8] = b"R\0\0\06\0\0\0\x0cv=WMQlyGrOcHISKr5/7+nbEhEOxtgqwwgK76PjmwdGP7Y=";

// AuthenticationOk, BackendKeyData with the first number and a key of zeros, ReadyForQuery.
const END: &[u8] = b"R\0\0\0\x08\0\0\0\0K\0\0\0\x0c\0\x01\x86\xa0\0\0\0\0Z\0\0\0\x05I";

const OPENED: Step<'static> = Step::Startup("bob");

const BEGUN: Step<'static> = Step::First(METHOD, Some(FIRST));

const ENDED: Step<'static> = Step::Response(LAST);

const UNEXPECTED: &str = "ok FailedToCoercePasswordMessage";

// The first is an honest client's login.
const CASES: &[Case] = &[
    (
        &[OPENED, BEGUN, ENDED],
        "ok ok ok",
        &[OFFER, SERVER_FIRST, SERVER_FINAL, END],
        100000,
    ),
    (&[BEGUN], "InvalidSASLState", &[], -1),
    (&[OPENED, OPENED], "ok InvalidSASLState", &[OFFER], -1),
    (&[OPENED, Step::Response(FIRST)], UNEXPECTED, &[OFFER], -1),
    (&[OPENED, Step::Password("")], UNEXPECTED, &[OFFER], -1),
    (
        &[OPENED, Step::First("PLAIN", None)],
        "ok PLAIN",
        &[OFFER],
        -1,
    ),
    (
        &[OPENED, Step::First("OAUTHBEARER", None)],
        "ok OAUTHBEARER",
        &[OFFER],
        -1,
    ),
    (
        &[OPENED, Step::First(METHOD, None), BEGUN],
        "ok Empty InvalidSASLState",
        &[OFFER],
        -1,
    ),
    (
        &[OPENED, Step::First(METHOD, Some(b"n=bob"))],
        "ok Grammar",
        &[OFFER],
        -1,
    ),
    (
        &[Step::Startup("eve"), BEGUN],
        "ok UserNameRequired",
        &[OFFER],
        -1,
    ),
    (
        &[Step::Startup("tom"), BEGUN],
        "ok SaltRequired",
        &[OFFER],
        -1,
    ),
    (
        &[OPENED, Step::First(METHOD, Some(BOUND_FIRST))],
        "ok ChannelBinding",
        &[OFFER],
        -1,
    ),
    (
        &[OPENED, Step::First(PLUS, Some(BOUND_FIRST))],
        "ok ChannelBinding",
        &[OFFER],
        -1,
    ),
    (
        &[Step::Startup("tom"), Step::First(PLUS, Some(FIRST))],
        "ok ChannelBinding",
        &[OFFER],
        -1,
    ),
    (
        &[OPENED, BEGUN, BEGUN],
        "ok ok FailedToCoercePasswordMessage",
        &[OFFER, SERVER_FIRST],
        -1,
    ),
    (
        &[OPENED, BEGUN, Step::Response(FALSE_PROOF)],
        "ok ok bob",
        &[OFFER, SERVER_FIRST],
        -1,
    ),
    (
        &[OPENED, BEGUN, ENDED, ENDED],
        "ok ok ok InvalidSASLState",
        &[OFFER, SERVER_FIRST, SERVER_FINAL, END],
        100000,
    ),
];

// With a certificate's hash the method with a channel binding is offered too, and its binding is taken; so is a client that
// knows no binding. A client that says that none was offered is refused, and so is another header than the method's.
const BOUND: &[Case] = &[
    (
        &[
            OPENED,
            Step::First(PLUS, Some(BOUND_FIRST)),
            Step::Response(BOUND_LAST),
        ],
        "ok ok ok",
        &[BOUND_OFFER, SERVER_FIRST, BOUND_FINAL, END],
        100000,
    ),
    (
        &[OPENED, BEGUN, ENDED],
        "ok ok ok",
        &[BOUND_OFFER, SERVER_FIRST, SERVER_FINAL, END],
        100000,
    ),
    (
        &[OPENED, Step::First(METHOD, Some(UNOFFERED_FIRST))],
        "ok ChannelBinding",
        &[BOUND_OFFER],
        -1,
    ),
    (
        &[OPENED, Step::First(METHOD, Some(BOUND_FIRST))],
        "ok ChannelBinding",
        &[BOUND_OFFER],
        -1,
    ),
    (
        &[OPENED, Step::First(PLUS, Some(FIRST))],
        "ok ChannelBinding",
        &[BOUND_OFFER],
        -1,
    ),
];

// What comes of messages to a handler for SCRAM alone.
fn by_scram<A: ScramSource + Drop, R: Abort>(
    rt: &R,
    alloc: Global,
    scram: ScramAuth<A>,
    steps: &[Step<'_>],
) -> Result<Outcome, OutOfMemory> {
    let (generator, seat) = RandomPidSecretKeyGenerator::new(alloc)?;
    let handler = SASLAuthStartupHandler::new(Silent, generator).with_scram(scram);
    outcome_of(rt, alloc, &handler, seat, DRAWN, steps)
}

#[test]
fn logins(rt: HostRuntime) -> Result<(), Fail> {
    for (steps, words, sent, number) in CASES {
        let outcome = by_scram(&rt, rt.alloc(), scram(), steps)?;
        compare(&rt, &outcome, words, sent, *number);
    }
    Ok(())
}

fn bound(alloc: Global) -> Result<ScramAuth<TwoPasswords>, OutOfMemory> {
    let mut scram = scram();
    scram.configure_certificate_hash(alloc, &[10])?;
    Ok(scram)
}

#[test]
fn bound_logins(rt: HostRuntime) -> Result<(), Fail> {
    for (steps, words, sent, number) in BOUND {
        let outcome = by_scram(&rt, rt.alloc(), bound(rt.alloc())?, steps)?;
        compare(&rt, &outcome, words, sent, *number);
    }
    Ok(())
}

// Over a stored secret an honest client's login is the same, bound or not, and so are the refusals.
const STORED: &[Case] = &[
    (
        &[OPENED, BEGUN, ENDED],
        "ok ok ok",
        &[BOUND_OFFER, SERVER_FIRST, SERVER_FINAL, END],
        100000,
    ),
    (
        &[
            OPENED,
            Step::First(PLUS, Some(BOUND_FIRST)),
            Step::Response(BOUND_LAST),
        ],
        "ok ok ok",
        &[BOUND_OFFER, SERVER_FIRST, BOUND_FINAL, END],
        100000,
    ),
    (
        &[OPENED, BEGUN, Step::Response(FALSE_PROOF)],
        "ok ok bob",
        &[BOUND_OFFER, SERVER_FIRST],
        -1,
    ),
    (
        &[Step::Startup("eve"), BEGUN],
        "ok UserNameRequired",
        &[BOUND_OFFER],
        -1,
    ),
    (
        &[OPENED, Step::First(PLUS, Some(FIRST))],
        "ok ChannelBinding",
        &[BOUND_OFFER],
        -1,
    ),
    (
        &[OPENED, Step::First(METHOD, Some(b"n=bob"))],
        "ok Grammar",
        &[BOUND_OFFER],
        -1,
    ),
    (
        &[OPENED, Step::First(METHOD, None)],
        "ok Empty",
        &[BOUND_OFFER],
        -1,
    ),
    (
        &[OPENED, BEGUN, BEGUN],
        "ok ok FailedToCoercePasswordMessage",
        &[BOUND_OFFER, SERVER_FIRST],
        -1,
    ),
    (
        &[OPENED, BEGUN, ENDED, ENDED],
        "ok ok ok InvalidSASLState",
        &[BOUND_OFFER, SERVER_FIRST, SERVER_FINAL, END],
        100000,
    ),
];

fn stored(alloc: Global) -> Result<ScramAuth<Secrets<OneSecret>>, OutOfMemory> {
    let mut scram = ScramAuth::new(Secrets::new(OneSecret));
    scram.configure_certificate_hash(alloc, &[10])?;
    Ok(scram)
}

#[test]
fn stored_logins(rt: HostRuntime) -> Result<(), Fail> {
    for (steps, words, sent, number) in STORED {
        let outcome = by_scram(&rt, rt.alloc(), stored(rt.alloc())?, steps)?;
        compare(&rt, &outcome, words, sent, *number);
    }
    Ok(())
}
