//! How SCRAM logins end.

use crate::session::{link_of, session};
use pgw_client::{
    ChannelBinding, Config, MemoryLink, OutOfMemory, PgWireClientError, PgWireClientResult,
    ScramFault, SessionReport,
};
use std::alloc::Global;
use std::test::Fail;

// What an honest server says to bob, whose password is pencil and whose nonce has zeros. Computed with Python's hashlib.
pub const HONEST: &[u8] =
    b"R\0\0\0\x17\0\0\0\x0aSCRAM-SHA-256\0\0R\0\0\0\x4a\0\0\0\x0br=AAAAAAAAAAAAAAAAAAAAAAAAserver,s=W22ZaJ0SNY7soEsUEjb6gQ==,i=4096R\0\0\0\x36\0\0\0\x0cv=uHmpiQRcOxaoAlpl+3NqPqejwiGX+xLqz6G7nzX1oDE=R\0\0\0\x08\0\0\0\0Z\0\0\0\x05I";

// What that server says with another signature.
const FORGED: &[u8] =
    b"R\0\0\0\x17\0\0\0\x0aSCRAM-SHA-256\0\0R\0\0\0\x4a\0\0\0\x0br=AAAAAAAAAAAAAAAAAAAAAAAAserver,s=W22ZaJ0SNY7soEsUEjb6gQ==,i=4096R\0\0\0\x0e\0\0\0\x0cv=AAAAR\0\0\0\x08\0\0\0\0Z\0\0\0\x05I";

fn config_of(alloc: Global, password: &[u8]) -> Result<Box<Config>, OutOfMemory> {
    let mut config = Box::new(alloc, Config::new(alloc))?;
    config.set_user(alloc, "bob")?;
    config.set_password(alloc, password)?;
    Ok(config)
}

fn name_of(answer: &PgWireClientResult<SessionReport>) -> &'static str {
    match answer {
        Ok(_) => "logged in",
        Err(PgWireClientError::ScramError(ScramFault::SignatureMismatch)) => "another signature",
        Err(PgWireClientError::ScramError(ScramFault::PasswordNotUtf8)) => "no text",
        Err(PgWireClientError::UnexpectedMessage(_)) => "no place",
        Err(PgWireClientError::UnsupportedSASLAuthMethods(_)) => "no method",
        Err(PgWireClientError::RemoteError(_)) => "the server's error",
        Err(PgWireClientError::InvalidConfig(_)) => "refused",
        Err(_) => "another error",
    }
}

fn ending_of(alloc: Global, link: &mut MemoryLink, config: &Config) -> &'static str {
    let answer = session(alloc, link, config, &[], 10_000);
    let name = name_of(&answer);
    drop(answer);
    name
}

fn end_over(
    alloc: Global,
    link: &mut MemoryLink,
    password: &[u8],
) -> Result<&'static str, OutOfMemory> {
    let config = config_of(alloc, password)?;
    let ended = ending_of(alloc, link, &config);
    drop(config);
    Ok(ended)
}

// How a login as bob ends.
fn ended(alloc: Global, server: &[u8], password: &[u8]) -> Result<&'static str, OutOfMemory> {
    let mut link = link_of(alloc, server, 7)?;
    let ended = end_over(alloc, &mut link, password);
    drop(link);
    ended
}

// The honest server; another signature than the one of this exchange; a password that is no text; another password than
// the server's.
const LOGINS: &[(&[u8], &[u8], &str)] = &[
    (HONEST, b"pencil", "logged in"),
    (FORGED, b"pencil", "another signature"),
    (HONEST, b"\xff", "no text"),
    (HONEST, b"other", "another signature"),
];

#[test]
fn scram_logins(rt: HostRuntime) -> Result<(), Fail> {
    for (server, password, want) in LOGINS {
        assert_eq!(rt; ended(rt.alloc(), server, password)?, *want);
    }
    Ok(())
}

// Whether the hash 000102 of the server's certificate is given, whether it may be bound, what the server says, and what it
// is told. Computed with Python's hashlib.
const BOUND: &[(bool, ChannelBinding, &[u8], &[u8])] = &[
    (
        true,
        ChannelBinding::Prefer,
        b"R\0\0\0*\0\0\0\x0aSCRAM-SHA-256\0SCRAM-SHA-256-PLUS\0\0R\0\0\0J\0\0\0\x0br=AAAAAAAAAAAAAAAAAAAAAAAAserver,s=W22ZaJ0SNY7soEsUEjb6gQ==,i=4096R\0\0\06\0\0\0\x0cv=AgnmmpwEqh4yJJu61zXE3CzWo9YrCXYpGY5tt0H8Wmk=R\0\0\0\x08\0\0\0\0Z\0\0\0\x05I",
        b"\0\0\0\x12\0\x03\0\0user\0bob\0\0p\0\0\0SSCRAM-SHA-256-PLUS\0\0\0\08p=tls-server-end-point,,n=bob,r=AAAAAAAAAAAAAAAAAAAAAAAAp\0\0\0zc=cD10bHMtc2VydmVyLWVuZC1wb2ludCwsAAEC,r=AAAAAAAAAAAAAAAAAAAAAAAAserver,p=wJWbwlmx4xT1JKIrbb5dE2+iDVQM7u/0fSttRFhWKkU=",
    ),
    (
        true,
        ChannelBinding::Prefer,
        b"R\0\0\0\x1c\0\0\0\x0aSCRAM-SHA-256-PLUS\0\0R\0\0\0J\0\0\0\x0br=AAAAAAAAAAAAAAAAAAAAAAAAserver,s=W22ZaJ0SNY7soEsUEjb6gQ==,i=4096R\0\0\06\0\0\0\x0cv=AgnmmpwEqh4yJJu61zXE3CzWo9YrCXYpGY5tt0H8Wmk=R\0\0\0\x08\0\0\0\0Z\0\0\0\x05I",
        b"\0\0\0\x12\0\x03\0\0user\0bob\0\0p\0\0\0SSCRAM-SHA-256-PLUS\0\0\0\08p=tls-server-end-point,,n=bob,r=AAAAAAAAAAAAAAAAAAAAAAAAp\0\0\0zc=cD10bHMtc2VydmVyLWVuZC1wb2ludCwsAAEC,r=AAAAAAAAAAAAAAAAAAAAAAAAserver,p=wJWbwlmx4xT1JKIrbb5dE2+iDVQM7u/0fSttRFhWKkU=",
    ),
    (
        true,
        ChannelBinding::Prefer,
        b"R\0\0\0\x17\0\0\0\x0aSCRAM-SHA-256\0\0R\0\0\0J\0\0\0\x0br=AAAAAAAAAAAAAAAAAAAAAAAAserver,s=W22ZaJ0SNY7soEsUEjb6gQ==,i=4096R\0\0\06\0\0\0\x0cv=/5psY7NaFSv5jWJrsQGMrzENrYmC3gcJTNxQEapA9Ow=R\0\0\0\x08\0\0\0\0Z\0\0\0\x05I",
        b"\0\0\0\x12\0\x03\0\0user\0bob\0\0p\0\0\09SCRAM-SHA-256\0\0\0\0#y,,n=bob,r=AAAAAAAAAAAAAAAAAAAAAAAAp\0\0\0Zc=eSws,r=AAAAAAAAAAAAAAAAAAAAAAAAserver,p=O3dCPZzY1nSfzahHWIqtc5Cj/BQVFmwsAvwLmdIbgno=",
    ),
    (
        false,
        ChannelBinding::Prefer,
        b"R\0\0\0*\0\0\0\x0aSCRAM-SHA-256\0SCRAM-SHA-256-PLUS\0\0R\0\0\0J\0\0\0\x0br=AAAAAAAAAAAAAAAAAAAAAAAAserver,s=W22ZaJ0SNY7soEsUEjb6gQ==,i=4096R\0\0\06\0\0\0\x0cv=uHmpiQRcOxaoAlpl+3NqPqejwiGX+xLqz6G7nzX1oDE=R\0\0\0\x08\0\0\0\0Z\0\0\0\x05I",
        b"\0\0\0\x12\0\x03\0\0user\0bob\0\0p\0\0\09SCRAM-SHA-256\0\0\0\0#n,,n=bob,r=AAAAAAAAAAAAAAAAAAAAAAAAp\0\0\0Zc=biws,r=AAAAAAAAAAAAAAAAAAAAAAAAserver,p=J0NXZihltZeaxM/aR3msf91g2I9t/18qmtWUTFIvbaQ=",
    ),
    (
        true,
        ChannelBinding::Disable,
        b"R\0\0\0*\0\0\0\x0aSCRAM-SHA-256\0SCRAM-SHA-256-PLUS\0\0R\0\0\0J\0\0\0\x0br=AAAAAAAAAAAAAAAAAAAAAAAAserver,s=W22ZaJ0SNY7soEsUEjb6gQ==,i=4096R\0\0\06\0\0\0\x0cv=uHmpiQRcOxaoAlpl+3NqPqejwiGX+xLqz6G7nzX1oDE=R\0\0\0\x08\0\0\0\0Z\0\0\0\x05I",
        b"\0\0\0\x12\0\x03\0\0user\0bob\0\0p\0\0\09SCRAM-SHA-256\0\0\0\0#n,,n=bob,r=AAAAAAAAAAAAAAAAAAAAAAAAp\0\0\0Zc=biws,r=AAAAAAAAAAAAAAAAAAAAAAAAserver,p=J0NXZihltZeaxM/aR3msf91g2I9t/18qmtWUTFIvbaQ=",
    ),
];

fn bound_config(
    alloc: Global,
    password: &[u8],
    has_hash: bool,
    mode: ChannelBinding,
) -> Result<Box<Config>, OutOfMemory> {
    let mut config = config_of(alloc, password)?;
    config.channel_binding = mode;
    if has_hash {
        config.certificate_hash(alloc, &[0, 1, 2])?;
    }
    Ok(config)
}

fn bound_end(
    alloc: Global,
    link: &mut MemoryLink,
    password: &[u8],
    has_hash: bool,
    mode: ChannelBinding,
) -> Result<&'static str, OutOfMemory> {
    let config = bound_config(alloc, password, has_hash, mode)?;
    let ended = ending_of(alloc, link, &config);
    drop(config);
    Ok(ended)
}

// Whether a login is as it is to be, and how it ended.
fn bound(
    alloc: Global,
    password: &[u8],
    has_hash: bool,
    mode: ChannelBinding,
    server: &[u8],
    want: &[u8],
) -> Result<(&'static str, bool), OutOfMemory> {
    let mut link = link_of(alloc, server, 50)?;
    let ended = bound_end(alloc, &mut link, password, has_hash, mode);
    let is_wanted = link.written() == want;
    drop(link);
    Ok((ended?, is_wanted))
}

#[test]
fn bound_logins(rt: HostRuntime) -> Result<(), Fail> {
    for (has_hash, mode, server, want) in BOUND {
        let found = bound(rt.alloc(), b"pencil", *has_hash, *mode, server, want)?;
        assert_eq!(rt; found, ("logged in", true));
    }
    Ok(())
}

// The startup message of bob.
const STARTUP: &[u8] = b"\0\0\0\x12\0\x03\0\0user\0bob\0\0";

// Where a login must be bound: whether the hash is given, what the server says, how it ends, and what it is told. In order:
// no hash; AuthenticationOk, a password in clear text, one under MD5, and ReadyForQuery before the login; methods of which
// none binds; the server's error; and a whole login behind a parameter.
const REQUIRED: &[(bool, &[u8], &str, &[u8])] = &[
    (false, b"R\0\0\0\x08\0\0\0\0Z\0\0\0\x05I", "refused", b""),
    (true, b"R\0\0\0\x08\0\0\0\0", "no place", STARTUP),
    (true, b"R\0\0\0\x08\0\0\0\x03", "no place", STARTUP),
    (true, b"R\0\0\0\x0c\0\0\0\x05salt", "no place", STARTUP),
    (true, b"Z\0\0\0\x05I", "no place", STARTUP),
    (
        true,
        b"R\0\0\0\x17\0\0\0\x0aSCRAM-SHA-256\0\0",
        "no method",
        STARTUP,
    ),
    (true, b"E\0\0\0\x05\0", "the server's error", STARTUP),
    (
        true,
        b"S\0\0\0\x08a\0b\0R\0\0\0*\0\0\0\x0aSCRAM-SHA-256\0SCRAM-SHA-256-PLUS\0\0R\0\0\0J\0\0\0\x0br=AAAAAAAAAAAAAAAAAAAAAAAAserver,s=W22ZaJ0SNY7soEsUEjb6gQ==,i=4096R\0\0\06\0\0\0\x0cv=AgnmmpwEqh4yJJu61zXE3CzWo9YrCXYpGY5tt0H8Wmk=R\0\0\0\x08\0\0\0\0Z\0\0\0\x05I",
        "logged in",
        b"\0\0\0\x12\0\x03\0\0user\0bob\0\0p\0\0\0SSCRAM-SHA-256-PLUS\0\0\0\08p=tls-server-end-point,,n=bob,r=AAAAAAAAAAAAAAAAAAAAAAAAp\0\0\0zc=cD10bHMtc2VydmVyLWVuZC1wb2ludCwsAAEC,r=AAAAAAAAAAAAAAAAAAAAAAAAserver,p=wJWbwlmx4xT1JKIrbb5dE2+iDVQM7u/0fSttRFhWKkU=",
    ),
];

#[test]
fn required_bindings(rt: HostRuntime) -> Result<(), Fail> {
    for (has_hash, server, end, want) in REQUIRED {
        let mode = ChannelBinding::Require;
        let found = bound(rt.alloc(), b"pencil", *has_hash, mode, server, want)?;
        assert_eq!(rt; found, (*end, true));
    }
    Ok(())
}

// Where a login must be bound, with a hash and a password that is no text: what the server says, and how it ends. In order: a parameter and the
// method that binds; and a password in clear text.
const REQUIRED_OF_NO_TEXT: &[(&[u8], &str)] = &[
    (
        b"S\0\0\0\x08a\0b\0R\0\0\0\x1c\0\0\0\x0aSCRAM-SHA-256-PLUS\0\0",
        "no text",
    ),
    (b"R\0\0\0\x08\0\0\0\x03", "no place"),
];

#[test]
fn required_bindings_of_no_text(rt: HostRuntime) -> Result<(), Fail> {
    for (server, end) in REQUIRED_OF_NO_TEXT {
        let mode = ChannelBinding::Require;
        let found = bound(rt.alloc(), b"\xff", true, mode, server, STARTUP)?;
        assert_eq!(rt; found, (*end, true));
    }
    Ok(())
}
