//! Servers that ask for a password.

use crate::server::support::{NoParameters, OnePassword, Said, hear};
use pgw_login::cleartext::CleartextPasswordAuthStartupHandler;
use pgw_login::md5::Md5PasswordAuthStartupHandler;
use pgw_login::source::{LoginInfo, SecretSource};
use pgw_login_sasl::handler::SASLAuthStartupHandler;
use pgw_login_sasl::scram::ScramAuth;
use pgw_login_sasl::stored::Secrets;
use pgw_registry::generator::RandomPidSecretKeyGenerator;
use pgw_secrets::secret::StoredSecret;
use pgw_types::error::PgWireResult;
use pgw_types::memory::OutOfMemory;
use pgw_types::octets::Octets;
use std::alloc::Global;
use std::process::Abort;

/// What a server asks for.
#[derive(Clone, Copy, Drop)]
pub enum Asks {
    Cleartext,
    // under this bound
    CleartextWithin(u32),
    Md5,
    Scram,
    // the same over a stored secret
    Stored,
}

/// What a server for SCRAM keeps.
pub const PENCIL: &[u8] =
    b"\xc6\xe7F\xca\x1c\n\xb4\xb9F\x99\x15iu\xf6\x1a1\xb6\x1f\x07^V\xb3\x1e\xbb;\x117\x8b\x14)`R";

// A server that asks for the password `secret` in clear text.
fn cleartext<R: Abort>(
    rt: &R,
    alloc: Global,
    bound: Option<u32>,
    bytes: &[u8],
    cut: usize,
) -> Result<Said, OutOfMemory> {
    let (generator, seat) = RandomPidSecretKeyGenerator::new(alloc)?;
    let source = OnePassword {
        salt: b"",
        password: b"secret",
    };
    let handler = CleartextPasswordAuthStartupHandler::new(source, NoParameters, generator);
    hear(rt, alloc, handler, seat, bound, bytes, cut)
}

// A server that asks for the password `themanwhochangedchina` of `zmjiang` under MD5, with a salt.
fn md5<R: Abort>(rt: &R, alloc: Global, bytes: &[u8], cut: usize) -> Result<Said, OutOfMemory> {
    let (generator, seat) = RandomPidSecretKeyGenerator::new(alloc)?;
    let source = OnePassword {
        salt: b"\x14\xf7\x6b\xf9",
        password: b"md521fe459d77d3e3ea9c9fcd5c11030d30",
    };
    let handler = Md5PasswordAuthStartupHandler::new(source, NoParameters, generator);
    hear(rt, alloc, handler, seat, None, bytes, cut)
}

// SCRAM with twelve rounds.
fn pencil() -> ScramAuth<OnePassword> {
    let mut scram = ScramAuth::new(OnePassword {
        salt: b"bar",
        password: PENCIL,
    });
    scram.set_iterations(12);
    scram
}

// A server that asks for the password `pencil` by SCRAM-SHA-256. It keeps what PBKDF2 makes of it, as Python's hashlib
// tells it: `pbkdf2_hmac('sha256', b'pencil', b'bar', 12)`.
fn scram<R: Abort>(rt: &R, alloc: Global, bytes: &[u8], cut: usize) -> Result<Said, OutOfMemory> {
    let (generator, seat) = RandomPidSecretKeyGenerator::new(alloc)?;
    let handler = SASLAuthStartupHandler::new(NoParameters, generator).with_scram(pencil());
    hear(rt, alloc, handler, seat, None, bytes, cut)
}

// Keeps the secret of `pencil`, for whoever asks: StoredKey and ServerKey as Python's hashlib and hmac tell them, of the
// same salt and count.
#[derive(Drop)]
struct PencilSecret;

const STORED_KEY: [u8; 32] =
    *b"\xd2\xcdU47f;k\xc2\x1e\xa0\0I9ky\x1ed0\xa4\xa3\x9czNx\x92zZ\xbb'\nD";

const SERVER_KEY: [u8; 32] =
    *b"Q\x0ePv\xbdqJ(}\xca5<\xe5\x99\xe8:\xd2;l\x7fb\xb7\xba\xf2\xb0\xdd\xabHs7\xb4o";

impl SecretSource for PencilSecret {
    ghost secrets = { λ s login answer. Unit {0} };

    fn get_secret(&self, alloc: Global, _login: &LoginInfo<'_>) -> PgWireResult<StoredSecret> {
        Ok(StoredSecret {
            count: 12,
            salt: Octets::from_slice(alloc, b"bar")?,
            stored_key: STORED_KEY,
            server_key: SERVER_KEY,
        })
    }
}

// A server that asks for the same by SCRAM-SHA-256, and keeps a secret in place of a password.
fn stored<R: Abort>(rt: &R, alloc: Global, bytes: &[u8], cut: usize) -> Result<Said, OutOfMemory> {
    let (generator, seat) = RandomPidSecretKeyGenerator::new(alloc)?;
    let scram = ScramAuth::new(Secrets::new(PencilSecret));
    let handler = SASLAuthStartupHandler::new(NoParameters, generator).with_scram(scram);
    hear(rt, alloc, handler, seat, None, bytes, cut)
}

/// What a server says to a client's bytes, so many at a time.
pub fn server_says<R: Abort>(
    rt: &R,
    alloc: Global,
    asks: Asks,
    bytes: &[u8],
    cut: usize,
) -> Result<Said, OutOfMemory> {
    match asks {
        Asks::Cleartext => cleartext(rt, alloc, None, bytes, cut),
        Asks::CleartextWithin(bound) => cleartext(rt, alloc, Some(bound), bytes, cut),
        Asks::Md5 => md5(rt, alloc, bytes, cut),
        Asks::Scram => scram(rt, alloc, bytes, cut),
        Asks::Stored => stored(rt, alloc, bytes, cut),
    }
}

/// Compares what a server says with what is wanted, of bytes that came so many at a time.
pub fn compare<R: Abort>(rt: &R, said: &Said, answer: &str, out: &[u8], cut: usize) {
    let came = (said.answer.as_str(), said.out.as_slice());
    assert_eq!(rt; came, (answer, out), "cut at {cut}");
}
