//! Logins message by message.

use crate::support::{DRAWN, OnePassword, Outcome, Silent, Step, compare, outcome_of};
use pgw_login::cleartext::CleartextPasswordAuthStartupHandler;
use pgw_login::client_info::PgWireConnectionState;
use pgw_login::md5::Md5PasswordAuthStartupHandler;
use pgw_login::noop::NoopHandler;
use pgw_registry::generator::{PidSecretKeyGenerator, RandomPidSecretKeyGenerator};
use pgw_types::context::ProtocolVersion;
use pgw_types::memory::OutOfMemory;
use std::alloc::Global;
use std::process::Abort;
use std::test::Fail;

const ASKED: &[u8] = b"R\0\0\0\x08\0\0\0\x03";

// Behind the offer of version 3.2.
const OFFERED: &[u8] = b"v\0\0\0\x0c\0\x03\0\x02\0\0\0\0R\0\0\0\x08\0\0\0\x03";

/// Behind the request for a password: AuthenticationOk, BackendKeyData, ReadyForQuery.
pub const LET_IN: &[u8] =
    b"R\0\0\0\x08\0\0\0\x03R\0\0\0\x08\0\0\0\0K\0\0\0\x0c\0\x01\x86\xa0\x01\x01\x01\x01Z\0\0\0\x05I";

const CHALLENGED: &[u8] = b"R\0\0\0\x0c\0\0\0\x05\x14\xf7\x6b\xf9";

const LET_IN_BY_MD5: &[u8] =
    b"R\0\0\0\x0c\0\0\0\x05\x14\xf7\x6b\xf9R\0\0\0\x08\0\0\0\0K\0\0\0\x0c\0\x01\x86\xa0\x01\x01\x01\x01Z\0\0\0\x05I";

// The worked exchange of the documentation's formula.
const HASHED: &str = "md521fe459d77d3e3ea9c9fcd5c11030d30";

/// AuthenticationOk, the parameters in the order of their names, BackendKeyData, ReadyForQuery.
pub const WELCOMED: &[u8] =
    b"R\0\0\0\x08\0\0\0\0S\0\0\0\x17DateStyle\0ISO, YMD\0S\0\0\0\x1bIntervalStyle\0postgres\0S\0\0\0\x15TimeZone\0Etc/UTC\0S\0\0\0\x19client_encoding\0UTF8\0S\0\0\0\x26default_transaction_read_only\0off\0S\0\0\0\x17in_hot_standby\0off\0S\0\0\0\x19integer_datetimes\0on\0S\0\0\0\x14is_superuser\0on\0S\0\0\0\x1ascram_iterations\04096\0S\0\0\0\x17search_path\0public\0S\0\0\0\x19server_encoding\0UTF8\0S\0\0\0\x26server_version\016.6-pgwire-0.41.0\0S\0\0\0\x1esession_authorization\0bob\0S\0\0\0\x23standard_conforming_strings\0on\0K\0\0\0\x0c\0\x01\x86\xa0\x01\x01\x01\x01Z\0\0\0\x05I";

// A server that asks for the password `secret` in clear text.
fn by_cleartext<R: Abort>(
    rt: &R,
    alloc: Global,
    steps: &[Step<'_>],
) -> Result<Outcome, OutOfMemory> {
    let (generator, seat) = RandomPidSecretKeyGenerator::new(alloc)?;
    let source = OnePassword {
        password: b"secret",
    };
    let handler = CleartextPasswordAuthStartupHandler::new(source, Silent, generator);
    outcome_of(rt, alloc, &handler, seat, DRAWN, steps)
}

// A server that asks for the password `themanwhochangedchina` of `zmjiang` under MD5.
fn by_md5<R: Abort>(rt: &R, alloc: Global, steps: &[Step<'_>]) -> Result<Outcome, OutOfMemory> {
    let (generator, seat) = RandomPidSecretKeyGenerator::new(alloc)?;
    let source = OnePassword {
        password: HASHED.as_bytes(),
    };
    let handler = Md5PasswordAuthStartupHandler::new(source, Silent, generator);
    outcome_of(rt, alloc, &handler, seat, DRAWN, steps)
}

// A server that asks for nothing.
fn by_noop<R: Abort>(rt: &R, alloc: Global, steps: &[Step<'_>]) -> Result<Outcome, OutOfMemory> {
    let (generator, seat) = RandomPidSecretKeyGenerator::new(alloc)?;
    let handler = NoopHandler::new(generator);
    outcome_of(rt, alloc, &handler, seat, DRAWN, steps)
}

const CLEARTEXT: &[(&[Step<'static>], &str, &[u8])] = &[
    (&[Step::Startup("bob")], "ok", ASKED),
    (
        &[Step::Startup("bob"), Step::Password("secret")],
        "ok",
        LET_IN,
    ),
    (
        &[Step::Startup("bob"), Step::Password("secreT")],
        "bob",
        ASKED,
    ),
    (&[Step::Startup(""), Step::Password("secreT")], "", ASKED),
    (
        &[
            Step::Startup("bob"),
            Step::Password("secreT"),
            Step::Password("secret"),
        ],
        "InvalidSASLState",
        ASKED,
    ),
    (
        &[
            Step::Startup("bob"),
            Step::Password("secret"),
            Step::Password("secret"),
        ],
        "InvalidSASLState",
        LET_IN,
    ),
    (&[Step::Password("secret")], "InvalidSASLState", b""),
    (
        &[Step::Startup("bob"), Step::Startup("bob")],
        "InvalidSASLState",
        ASKED,
    ),
    (&[Step::Startup("eve")], "ok", ASKED),
    (
        &[Step::Startup("eve"), Step::Password("secret")],
        "UserNameRequired",
        ASKED,
    ),
    (&[Step::Terminate, Step::Startup("bob")], "ok", ASKED),
    (
        &[Step::Startup("bob"), Step::Raw(b"secret\0")],
        "ok",
        LET_IN,
    ),
    (
        &[Step::Startup("bob"), Step::Raw(b"secret")],
        "InvalidMessageBody",
        ASKED,
    ),
    (
        &[Step::Startup("bob"), Step::Raw(b"secret\0!")],
        "InvalidMessageBody",
        ASKED,
    ),
    (
        &[Step::Startup("bob"), Step::Response(b"secret")],
        "FailedToCoercePasswordMessage",
        ASKED,
    ),
    (
        &[Step::Password("secret"), Step::Startup("bob")],
        "InvalidSASLState",
        b"",
    ),
    (&[Step::Version(3, 2)], "ok", ASKED),
    (&[Step::Version(3, 1)], "ok", OFFERED),
    (&[Step::Version(4, 0)], "UnsupportedProtocolVersion", b""),
];

#[test]
fn cleartext_table(rt: HostRuntime) -> Result<(), Fail> {
    for (steps, words, sent) in CLEARTEXT {
        let outcome = by_cleartext(&rt, rt.alloc(), steps)?;
        compare(&rt, &outcome, words, sent);
    }
    Ok(())
}

const MD5: &[(&[Step<'static>], &str, &[u8])] = &[
    (&[Step::Startup("zmjiang")], "ok", CHALLENGED),
    (
        &[Step::Startup("zmjiang"), Step::Password(HASHED)],
        "ok",
        LET_IN_BY_MD5,
    ),
    (
        &[
            Step::Startup("zmjiang"),
            Step::Password("themanwhochangedchina"),
        ],
        "zmjiang",
        CHALLENGED,
    ),
    (
        &[
            Step::Startup("zmjiang"),
            Step::Password("themanwhochangedchina"),
            Step::Password(HASHED),
        ],
        "InvalidSASLState",
        CHALLENGED,
    ),
    (
        &[
            Step::Startup("zmjiang"),
            Step::Password(HASHED),
            Step::Password(HASHED),
        ],
        "InvalidSASLState",
        LET_IN_BY_MD5,
    ),
    (&[Step::Password(HASHED)], "InvalidSASLState", b""),
    (
        &[Step::Startup("zmjiang"), Step::Startup("zmjiang")],
        "InvalidSASLState",
        CHALLENGED,
    ),
    (
        &[
            Step::Startup("zmjiang"),
            Step::Raw(b"md521fe459d77d3e3ea9c9fcd5c11030d30"),
        ],
        "InvalidMessageBody",
        CHALLENGED,
    ),
    (&[Step::Startup("tom")], "SaltRequired", b""),
    (&[Step::Startup("sam")], "InvalidMessageBody", b""),
    (
        &[Step::Password(HASHED), Step::Startup("zmjiang")],
        "InvalidSASLState",
        b"",
    ),
    (&[Step::Startup("eve")], "UserNameRequired", b""),
    (&[Step::Terminate], "ok", b""),
];

#[test]
fn md5_table(rt: HostRuntime) -> Result<(), Fail> {
    for (steps, words, sent) in MD5 {
        let outcome = by_md5(&rt, rt.alloc(), steps)?;
        compare(&rt, &outcome, words, sent);
    }
    Ok(())
}

const NOOP: &[(&[Step<'static>], &str, &[u8])] = &[
    (&[Step::Startup("bob")], "ok", WELCOMED),
    (
        &[Step::Startup("bob"), Step::Password("secret")],
        "ok",
        WELCOMED,
    ),
    (&[Step::Password("secret")], "ok", b""),
    (&[Step::Terminate], "ok", b""),
    (
        &[Step::Startup("bob"), Step::Startup("bob")],
        "InvalidSASLState",
        WELCOMED,
    ),
    (&[Step::Version(2, 0)], "UnsupportedProtocolVersion", b""),
];

#[test]
fn noop_table(rt: HostRuntime) -> Result<(), Fail> {
    for (steps, words, sent) in NOOP {
        let outcome = by_noop(&rt, rt.alloc(), steps)?;
        compare(&rt, &outcome, words, sent);
    }
    Ok(())
}

// A server in clear text whose process numbers are all drawn but for the greatest, which is drawn before.
fn by_spent<R: Abort>(rt: &R, alloc: Global, steps: &[Step<'_>]) -> Result<Outcome, OutOfMemory> {
    let (generator, seat) = RandomPidSecretKeyGenerator::starting_at(alloc, i32::MAX)?;
    let mut seat = seat;
    let drawn = generator.generate(&mut seat, ProtocolVersion::PROTOCOL3_0, &[1; 32]);
    drop(drawn);
    let source = OnePassword {
        password: b"secret",
    };
    let handler = CleartextPasswordAuthStartupHandler::new(source, Silent, generator);
    outcome_of(rt, alloc, &handler, seat, DRAWN, steps)
}

const SPENT: &[(&[Step<'static>], &str, &[u8])] = &[
    (
        &[Step::Startup("bob"), Step::Password("secret")],
        "PidsExhausted",
        ASKED,
    ),
    (
        &[
            Step::Startup("bob"),
            Step::Password("secret"),
            Step::Password("secret"),
        ],
        "InvalidSASLState",
        ASKED,
    ),
];

#[test]
fn spent_table(rt: HostRuntime) -> Result<(), Fail> {
    for (steps, words, sent) in SPENT {
        let outcome = by_spent(&rt, rt.alloc(), steps)?;
        compare(&rt, &outcome, words, sent);
    }
    Ok(())
}

// What a handler sets in the client while it asks, and where it lets it in.
#[test]
fn asked_clients_are_set(rt: HostRuntime) -> Result<(), Fail> {
    let client = by_cleartext(&rt, rt.alloc(), &[Step::Version(3, 1)])?.client;
    let asked = PgWireConnectionState::AuthenticationInProgress;
    assert_eq!(rt; client, (asked, ProtocolVersion::PROTOCOL3_2, false, 0));
    Ok(())
}

#[test]
fn let_in_clients_are_set(rt: HostRuntime) -> Result<(), Fail> {
    let client = by_noop(&rt, rt.alloc(), &[Step::Startup("bob")])?.client;
    let let_in = PgWireConnectionState::ReadyForQuery;
    assert_eq!(rt;
        client,
        (let_in, ProtocolVersion::PROTOCOL3_0, true, 100000)
    );
    Ok(())
}
