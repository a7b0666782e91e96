//! The salted password.
ghost use Rattle.std.specs.Prelude.{◌≡◌, ◌≤◌, IfOk};
ghost use Rattle.pgw_hash.specs.Pbkdf2.{hi, salted_password};

use crate::hmac::Hmac;
use crate::saslprep::saslprep;
use crate::xor::xor_into;
use pgw_types::memory::OutOfMemory;
use std::alloc::Global;

// The number of the one block that a key of 32 bytes has.
const FIRST_BLOCK: u32 = 1;

/// The key of 32 bytes that a password, a salt and a number of rounds give.
pub fn hi(password: &[u8], salt: &[u8], count: u32) -> [u8; 32]
    requires { 1 ≤ count }
    ensures { result ≡ hi password.now salt.now count }
{
    let key = Hmac::new(password);
    let mut term = key.code_of_parts(salt, &FIRST_BLOCK.to_be_bytes());
    let mut total = term;
    for _ in 1..count {
        term = key.code(&term);
        xor_into(&mut total, &term);
    }
    total
}

/// The key of a password that is prepared first, where it can be.
pub fn gen_salted_password(
    alloc: Global,
    password: &str,
    salt: &[u8],
    iters: u32,
) -> Result<[u8; 32], OutOfMemory>
    requires { 1 ≤ iters }
    ensures { IfOk result (λ key. key ≡ salted_password password.now salt.now iters) }
{
    match saslprep(alloc, password)? {
        Some(prepared) => Ok(hi(prepared.as_str().as_bytes(), salt, iters)),
        None => Ok(hi(password.as_bytes(), salt, iters)),
    }
}
