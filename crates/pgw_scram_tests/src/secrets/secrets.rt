//! Stored secrets, and logins over them.
use pgw_scram::client::{
    ScramClientAuth, ScramClientAuthWaitingForServerFinal, ScramClientAuthWaitingForServerFirst,
};
use pgw_secrets::secret::{SecretFault, StoredSecret};
use pgw_secrets::server::{StoredScramAuth, StoredScramWaiting};
use pgw_types::error::PgWireResult;
use pgw_types::memory::OutOfMemory;
use pgw_types::text::Text;
use std::alloc::Global;
use std::fmt::Debug;
use std::process::Abort;
use std::test::Fail;

const SALT: &[u8] = b"\x5b\x6d\x99\x68\x9d\x12\x35\x8e\xec\xa0\x4b\x14\x12\x36\xfa\x81";

const BARE: &[u8] = b"n=user,r=rOprNGfwEbeRWgbNEkqO";

const FIRST: &[u8] =
    b"r=rOprNGfwEbeRWgbNEkqO%hvYDpWUa2RaTCAfuxFIlj)hNlF$k0,s=W22ZaJ0SNY7soEsUEjb6gQ==,i=4096";

const WITHOUT_PROOF: &[u8] = b"c=biws,r=rOprNGfwEbeRWgbNEkqO%hvYDpWUa2RaTCAfuxFIlj)hNlF$k0";

// A proof of the example, and whether it is one: the one of RFC 7677, section 3, another, one that is no base64, and one
// of 31 bytes.
const PROOFS: &[(&str, bool)] = &[
    ("dHzbZapWIk4jUhN+Ute9ytag9zjfMHgsqmmiz7AndVQ=", true),
    ("dHzbZapWIk4jUhN+Ute9ytag9zjfMHgsqmmiz7AndVU=", false),
    ("dHzbZapWIk4jUhN+Ute9ytag9zjfMHgsqmmiz7AndVR=", false),
    ("dHzbZapWIk4jUhN+Ute9ytag9zjfMHgsqmmiz7AndQ==", false),
    ("", false),
];

// The secret of the example of RFC 7677, section 3.
fn example(alloc: Global) -> Result<StoredSecret, OutOfMemory> {
    StoredSecret::make(alloc, "pencil", SALT, 4096)
}

fn check_proofs<R: Abort>(rt: &R, alloc: Global, secret: &StoredSecret) -> Result<(), OutOfMemory> {
    for (proof, wanted) in PROOFS {
        let found = secret.verify_proof(alloc, BARE, FIRST, WITHOUT_PROOF, proof)?;
        assert_eq!(rt; found, *wanted, "{proof}");
    }
    Ok(())
}

#[test]
fn proofs(rt: HostRuntime) -> Result<(), Fail> {
    let secret = example(rt.alloc())?;
    check_proofs(&rt, rt.alloc(), &secret)?;
    Ok(())
}

#[test]
fn signature(rt: HostRuntime) -> Result<(), Fail> {
    let signature = example(rt.alloc())?.signature(BARE, FIRST, WITHOUT_PROOF);
    assert_eq!(rt;
        signature.as_slice(),
        b"6rriTRBi23WpRR/wtup+mMhUZUn/dB5nLTJRsjl95G4=".as_slice()
    );
    Ok(())
}

// The text of a password's secret, with the salt of the example and so many rounds. The keys were computed with Python's
// hashlib.
const TEXTS: &[(&str, u32, &str)] = &[
    (
        "pencil",
        4096,
        "SCRAM-SHA-256$4096:W22ZaJ0SNY7soEsUEjb6gQ==$WG5d8oPm3OtcPnkdi4Uo7BkeZkBFzpcXkuLmtbsT4qY=:wfPLwcE6nTWhTAmQ7tl2KeoiWGPlZqQxSrmfPwDl2dU=",
    ),
    (
        "secret",
        1,
        "SCRAM-SHA-256$1:W22ZaJ0SNY7soEsUEjb6gQ==$8x2B4yhiw6z+YCrlrPDl906m86uimd/lEx0dXfwmCl4=:NGZ3B36yqWam01mOBQur+jcPNMIsN0NDOk/J/ZVaWaA=",
    ),
];

fn text_of(alloc: Global, password: &str, salt: &[u8], count: u32) -> Result<Text, OutOfMemory> {
    StoredSecret::make(alloc, password, salt, count.max(1))?.to_text(alloc)
}

fn read_again(alloc: Global, text: &str) -> Result<Text, SecretFault> {
    let secret = StoredSecret::read(alloc, text)?;
    Ok(secret.to_text(alloc)?)
}

// A text that is read back is itself.
fn check_again<R: Abort>(rt: &R, alloc: Global, text: &str) -> Result<(), SecretFault> {
    let again = read_again(alloc, text)?;
    assert_eq!(rt; again.as_str(), text);
    Ok(())
}

#[test]
fn texts(rt: HostRuntime) -> Result<(), Fail> {
    for (password, count, wanted) in TEXTS {
        let text = text_of(rt.alloc(), password, SALT, *count)?;
        assert_eq!(rt; text.as_str(), *wanted);
        drop(text);
        check_again(&rt, rt.alloc(), wanted)?;
    }
    Ok(())
}

// What PostgreSQL 15 keeps of the password `geheim`, by `CREATE ROLE .. PASSWORD`.
const POSTGRESQLS: &str =
    "SCRAM-SHA-256$4096:lZ6Gtg9s0e9tJ+KUjm7eXw==$rCjGxHdegP4njk+eN5bpbxxApZdEwM62b3m+jrikYnY=:tFYkI95ci1iRJCuZRB8vh49BTlwcvNl4YvChjnV6M0s=";

#[test]
fn postgresqls_own(rt: HostRuntime) -> Result<(), Fail> {
    check_again(&rt, rt.alloc(), POSTGRESQLS)?;
    let found = logged_in(rt.alloc(), "geheim", POSTGRESQLS)?;
    assert_eq!(rt; found.as_str(), "accepted");
    Ok(())
}

// A text that tells no secret, and its first faulty part.
const FAULTS: &[(&str, SecretFault)] = &[
    ("", SecretFault::Prefix),
    ("md5abc", SecretFault::Prefix),
    ("scram-sha-256$1:$:", SecretFault::Prefix),
    ("SCRAM-SHA-256$", SecretFault::Count),
    ("SCRAM-SHA-256$4096", SecretFault::Count),
    ("SCRAM-SHA-256$0:YmFy$", SecretFault::Count),
    ("SCRAM-SHA-256$4294967296:YmFy$", SecretFault::Count),
    ("SCRAM-SHA-256$-1:YmFy$", SecretFault::Count),
    ("SCRAM-SHA-256$1:YmFy", SecretFault::Salt),
    ("SCRAM-SHA-256$1:YmFyx$a:b", SecretFault::Salt),
    ("SCRAM-SHA-256$1:YmF=$a:b", SecretFault::Salt),
    ("SCRAM-SHA-256$1:YmFy$", SecretFault::StoredKey),
    ("SCRAM-SHA-256$1:YmFy$YmFy:YmFy", SecretFault::StoredKey),
    (
        "SCRAM-SHA-256$1:YmFy$AAAAAAAAAAAAAAAAAAAAAAAAAAAAAAAAAAAAAAAAAAA=",
        SecretFault::StoredKey,
    ),
    (
        "SCRAM-SHA-256$1:YmFy$AAAAAAAAAAAAAAAAAAAAAAAAAAAAAAAAAAAAAAAAAAA=:YmFy",
        SecretFault::ServerKey,
    ),
    (
        "SCRAM-SHA-256$1:$AAAAAAAAAAAAAAAAAAAAAAAAAAAAAAAAAAAAAAAAAAA=:AAAAAAAAAAAAAAAAAAAAAAAAAAAAAAAAAAAAAAAAAAA= ",
        SecretFault::ServerKey,
    ),
];

#[test]
fn faults(rt: HostRuntime) {
    for (text, wanted) in FAULTS {
        let found = StoredSecret::read(rt.alloc(), text).err();
        assert_eq!(rt; found, Some(*wanted), "{text}");
    }
}

// The server that keeps the secret of this text.
fn server_of(alloc: Global, text: &str) -> Option<StoredScramAuth> {
    let mut secret = StoredSecret::read(alloc, text).ok()?;
    secret.count = secret.count.max(1);
    Some(StoredScramAuth::new(secret))
}

// A client of bob with this password.
fn client_of(alloc: Global, password: &str) -> Option<ScramClientAuth> {
    let user = Text::from_str(alloc, "bob").ok()?;
    let password = Text::from_str(alloc, password).ok()?;
    Some(ScramClientAuth::new(user, password))
}

// The server's first message, and both ends behind it.
fn first_of(
    alloc: Global,
    client: ScramClientAuth,
    server: &StoredScramAuth,
) -> Option<
    (
        Text,
        ScramClientAuthWaitingForServerFirst,
        StoredScramWaiting,
    ),
> {
    let (first, client) = client.build_client_first(alloc, &[0; 18]).ok()?;
    let first = first.as_str().as_bytes();
    let (answer, server) = server.on_client_first_message(alloc, first, &[1; 18]).ok()?;
    Some((answer, client, server))
}

// The server's first message of a login, and both ends behind it.
fn begun(
    alloc: Global,
    password: &str,
    secret: &str,
) -> Option<
    (
        Text,
        ScramClientAuthWaitingForServerFirst,
        StoredScramWaiting,
    ),
> {
    let server = server_of(alloc, secret)?;
    let client = client_of(alloc, password)?;
    first_of(alloc, client, &server)
}

// The client's last message, and both ends behind it.
fn last_of(
    alloc: Global,
    password: &str,
    secret: &str,
) -> Option<
    (
        Text,
        ScramClientAuthWaitingForServerFinal,
        StoredScramWaiting,
    ),
> {
    let (answer, client, server) = begun(alloc, password, secret)?;
    let answer = answer.as_str().as_bytes();
    let (last, client) = client.build_client_final(alloc, answer).ok()?;
    Some((last, client, server))
}

fn shown<T: Debug>(alloc: Global, value: &T) -> Result<String, OutOfMemory> {
    Ok(format!(in alloc; "{value:?}")?)
}

// Whether the client takes the server's last message for the server's.
fn verdict(
    alloc: Global,
    client: &ScramClientAuthWaitingForServerFinal,
    text: &Text,
) -> &'static str {
    if client
        .verify_server_final(alloc, text.as_str().as_bytes())
        .is_ok()
    {
        "accepted"
    } else {
        "another server"
    }
}

// What the client finds of the server's answer, or why the server refused it.
fn told(
    alloc: Global,
    client: &ScramClientAuthWaitingForServerFinal,
    answer: &PgWireResult<Text>,
) -> Result<String, OutOfMemory> {
    match answer {
        Ok(text) => Ok(String::from_str(alloc, verdict(alloc, client, text))?),
        Err(error) => shown(alloc, error),
    }
}

fn judged(
    alloc: Global,
    last: &Text,
    client: &ScramClientAuthWaitingForServerFinal,
    server: &StoredScramWaiting,
) -> Result<String, OutOfMemory> {
    let answer = server.on_client_final_message(alloc, last.as_str().as_bytes());
    let told = told(alloc, client, &answer);
    drop(answer);
    told
}

// A login of a client with this password, by the server that keeps this secret's text: what the server answers last.
fn logged_in(alloc: Global, password: &str, secret: &str) -> Result<String, OutOfMemory> {
    match last_of(alloc, password, secret) {
        Some((last, client, server)) => judged(alloc, &last, &client, &server),
        None => Ok(String::from_str(alloc, "no exchange")?),
    }
}

// A password that a secret is made of, one that a client has, and what the server answers.
const LOGINS: &[(&str, &str, &str)] = &[
    ("pencil", "pencil", "accepted"),
    (
        "pencil",
        "pencils",
        "InvalidPassword(Text { text: \"bob\" })",
    ),
];

// A login at the server that keeps the one password's secret, by a client that has the other.
fn login(alloc: Global, kept: &str, given: &str) -> Result<String, OutOfMemory> {
    let text = text_of(alloc, kept, SALT, 7)?;
    logged_in(alloc, given, text.as_str())
}

#[test]
fn logins(rt: HostRuntime) -> Result<(), Fail> {
    for (kept, given, wanted) in LOGINS {
        let found = login(rt.alloc(), kept, given)?;
        assert_eq!(rt; found.as_str(), *wanted);
    }
    Ok(())
}
