//! Files of passwords.
use pgw_secrets::password_file::{PasswordFile, is_open_to_others};
use std::process::Abort;
use std::test::Fail;

// A file of which each line tells something.
const FILE: &[u8] = b"#*:*:*:*:comment\n\
\n\
three:colons:only\n\
db.example:5432:sales:bob:s1\n\
db.example:5433:*:bob:s2\r\n\
*:*:a\\:b:*:colon\\:and\\\\backslash\n\
\\*:*:*:star:escaped\n\
*:*:*:ann:first:with:colons\n\
*:*:*:ann:second\n\
*:*:*:tail:back\\\n\
*:*:*::nobody\n\
*:*:*:cr:\r\r\n\
last:1:*:*:no line feed\r";

// Host, port, database and user, and the password, or none.
const ASKED: &[(&str, u16, &str, &str, Option<&[u8]>)] = &[
    ("db.example", 5432, "sales", "bob", Some(b"s1")),
    ("db.example", 5433, "sales", "bob", Some(b"s2")),
    ("db.example", 5434, "sales", "bob", None),
    ("x", 1, "a:b", "zoe", Some(b"colon:and\\backslash")),
    ("*", 1, "d", "star", Some(b"escaped")),
    ("x", 1, "d", "star", None),
    ("x", 1, "d", "ann", Some(b"first:with:colons")),
    ("x", 1, "d", "tail", Some(b"back")),
    ("x", 1, "d", "", Some(b"nobody")),
    ("x", 1, "d", "cr", Some(b"\r")),
    ("last", 1, "d", "zoe", Some(b"no line feed")),
    ("last", 10, "d", "zoe", None),
];

fn check_look_ups<R: Abort>(rt: &R, file: &PasswordFile) {
    for (host, port, database, user, wanted) in ASKED {
        let found = file
            .lookup(host, *port, database, user)
            .map(|password| password.as_slice());
        assert_eq!(rt; found, *wanted, "{host} {user}");
    }
}

#[test]
fn look_ups(rt: HostRuntime) -> Result<(), Fail> {
    let file = PasswordFile::read(rt.alloc(), FILE)?;
    check_look_ups(&rt, &file);
    Ok(())
}

// A mode, and whether others than the owner may read or write.
const MODES: &[(u32, bool)] = &[
    (0o100600, false),
    (0o100400, false),
    (0o100640, true),
    (0o100604, true),
    (0o100660, true),
    (0o100000, false),
];

#[test]
fn modes(rt: HostRuntime) {
    for (mode, wanted) in MODES {
        assert_eq!(rt; is_open_to_others(*mode), *wanted, "{mode:o}");
    }
}
