//! Logins, however their bytes are cut.

use crate::server::servers::{Asks, compare, server_says};
use pgw_types::memory::OutOfMemory;
use std::alloc::Global;
use std::process::Abort;
use std::test::Fail;

// A client's bytes, what the server answers in the end, and what it puts out.
const ENCRYPTED: &[(&[u8], &str, &[u8])] = &[
    (b"\0\0\0\x08\x04\xd2\x16\x2f", "waiting", b"N"),
    (
        b"\0\0\0\x08\x04\xd2\x16\x30\0\0\0\x08\x04\xd2\x16\x2f",
        "waiting",
        b"NN",
    ),
    (
        b"\0\0\0\x08\x04\xd2\x16\x2f\0\0\0\x08\x04\xd2\x16\x30\0\0\0\x12\0\x03\0\0user\0bob\0\0",
        "waiting",
        b"NNR\0\0\0\x08\0\0\0\x03",
    ),
    (
        b"\0\0\0\x08\x04\xd2\x16\x2f\0\0\0\x12\0\x03\0\0user\0bob\0\0p\0\0\0\x0bsecret\0",
        "finished",
        b"NR\0\0\0\x08\0\0\0\x03R\0\0\0\x08\0\0\0\0K\0\0\0\x0c\0\x01\x86\xa0\x01\x01\x01\x01Z\0\0\0\x05I",
    ),
];

// Requests for encryption are refused by `N`, and the login goes on, however the bytes are cut.
#[test]
fn server_core_ssl(rt: HostRuntime) -> Result<(), Fail> {
    for (bytes, answer, out) in ENCRYPTED {
        for cut in [1, 7, 100] {
            let said = server_says(&rt, rt.alloc(), Asks::Cleartext, bytes, cut)?;
            compare(&rt, &said, answer, out, cut);
        }
    }
    Ok(())
}

// The salt and the text are the worked exchange of the documentation's formula.
const MD5: &[u8] =
    b"\0\0\0\x16\0\x03\0\0user\0zmjiang\0\0p\0\0\0\x28md521fe459d77d3e3ea9c9fcd5c11030d30\0";

const LET_IN_BY_MD5: &[u8] =
    b"R\0\0\0\x0c\0\0\0\x05\x14\xf7\x6b\xf9R\0\0\0\x08\0\0\0\0K\0\0\0\x0c\0\x01\x86\xa0\x01\x01\x01\x01Z\0\0\0\x05I";

#[test]
fn md5_login(rt: HostRuntime) -> Result<(), Fail> {
    for cut in [1, 22, 100] {
        let said = server_says(&rt, rt.alloc(), Asks::Md5, MD5, cut)?;
        compare(&rt, &said, "finished", LET_IN_BY_MD5, cut);
    }
    Ok(())
}

// A client's bytes, how many come at a time, what the server answers in the end, and what it puts out.
const ENDS: &[(&[u8], usize, &str, &[u8])] = &[
    (
        b"\0\0\0\x10\x04\xd2\x16\x2e\0\0\0\x07\0\0\0\x09",
        5,
        "cancel 7",
        b"",
    ),
    (
        b"\0\0\0\x10\x04\xd2\x16\x2e\0\0\0\x07\0\0\0\x09\0",
        16,
        "the login is in another state",
        b"",
    ),
    (
        b"\0\0\0\x12\0\x03\0\0user\0bob\0\0p\0\0\0\x0bsecreT\0",
        30,
        "password authentication failed for user `bob`",
        b"R\0\0\0\x08\0\0\0\x03",
    ),
    (
        b"\0\0\0\x12\0\x03\0\0user\0bob\0\0p\0\0\0\x0bsecreT\0p\0\0\0\x0bsecret\0",
        30,
        "the login is in another state",
        b"R\0\0\0\x08\0\0\0\x03",
    ),
    (
        b"\0\0\0\x12\0\x03\0\0user\0bob\0\0z\0",
        20,
        "invalid message type 122",
        b"R\0\0\0\x08\0\0\0\x03",
    ),
    (
        b"\0\0\0\x12\0\x03\0\0user\0bob\0\0p\0\0\0\x0bsecret\0Q\0\0\0\x05\0H\0\0",
        100,
        "finished",
        b"R\0\0\0\x08\0\0\0\x03R\0\0\0\x08\0\0\0\0K\0\0\0\x0c\0\x01\x86\xa0\x01\x01\x01\x01Z\0\0\0\x05I",
    ),
    (
        b"\0\0\0\x12\0\x03\0\0user\0bob\0\0p\0\0\0\x0bsecret\0p\0\0\0\x0bsecret\0",
        100,
        "the login is in another state",
        b"R\0\0\0\x08\0\0\0\x03R\0\0\0\x08\0\0\0\0K\0\0\0\x0c\0\x01\x86\xa0\x01\x01\x01\x01Z\0\0\0\x05I",
    ),
];

// Behind an end nothing is looked at and nothing is sent.
#[test]
fn ends_stay(rt: HostRuntime) -> Result<(), Fail> {
    for (bytes, cut, answer, out) in ENDS {
        let said = server_says(&rt, rt.alloc(), Asks::Cleartext, bytes, *cut)?;
        compare(&rt, &said, answer, out, *cut);
    }
    Ok(())
}

// What comes behind the startup message under a bound of 16 bytes, and what the server answers in the end: of a message
// that says it has more, the header alone has come.
const BOUNDED: &[(&[u8], &str)] = &[
    (b"Q\0\0\0\x10", "waiting"),
    (b"Q\0\0\0\x11", "message of 17 bytes, above the limit 16"),
    (b"z\0", "invalid message type 122"),
    (
        b"p\0\0\x27\x11",
        "message of 10001 bytes, above the limit 10000",
    ),
    (b"p\0\0\0\x0bsecret\0Q\0\0\0\x11", "finished"),
];

fn behind_startup(alloc: Global, bytes: &[u8]) -> Result<Vec<u8>, OutOfMemory> {
    let mut all = Vec::new(alloc);
    all.extend_from_slice(b"\0\0\0\x12\0\x03\0\0user\0bob\0\0")?;
    all.extend_from_slice(bytes)?;
    Ok(all)
}

// Compares what the server answers under the bound, however the bytes are cut.
fn check_bound<R: Abort>(
    rt: &R,
    alloc: Global,
    bytes: &[u8],
    answer: &str,
) -> Result<(), OutOfMemory> {
    for cut in [1, 100] {
        let said = server_says(rt, alloc, Asks::CleartextWithin(16), bytes, cut)?;
        assert_eq!(rt; said.answer.as_str(), answer, "cut at {cut}");
    }
    Ok(())
}

// A bound holds from the startup message on until the client may ask.
#[test]
fn bound_before_a_login(rt: HostRuntime) -> Result<(), Fail> {
    for (bytes, answer) in BOUNDED {
        let all = behind_startup(rt.alloc(), bytes)?;
        check_bound(&rt, rt.alloc(), &all, answer)?;
    }
    Ok(())
}
