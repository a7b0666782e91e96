//! What a server keeps of a password in place of it.
ghost use Rattle.std.specs.Prelude.{◌≡◌, ◌≤◌, ◌⊎◌, ◌↔◌, IfOk, IsTrue, Result, Err};
ghost use Rattle.pgw_scram.specs.Base64.{base64};
ghost use Rattle.pgw_scram.specs.Formulas.{auth_message, signature_by};
ghost use Rattle.pgw_secrets.specs.Proof.{IsProof};
ghost use Rattle.pgw_secrets.specs.Secret.{kept_secret, secret_of, secret_text, stored_secret_text};
ghost use Rattle.pgw_secrets.specs.Text.{IsSecretReading, ReadsSecret};

use crate::keys::{encode, is_proof};
use crate::text::read_text;
use itoa::Buffer;
use pgw_hash::pbkdf2::gen_salted_password;
use pgw_scram::proof::{client_key, server_key, signature_by};
use pgw_types::listed::Duplicate;
use pgw_types::memory::OutOfMemory;
use pgw_types::octets::Octets;
use pgw_types::text::Text;
use sha2::{Digest, Sha256};
use std::alloc::Global;

/// What a server keeps of a password by SCRAM-SHA-256. It shows neither password nor keys by `Debug`, which it has not.
#[derive(Drop)]
pub struct StoredSecret {
    /// The number of rounds.
    pub count: u32,
    pub salt: Octets,
    pub stored_key: [u8; 32],
    pub server_key: [u8; 32],
}

/// The first faulty part of a secret's text, or that memory ran out.
#[derive(Clone, Copy, Debug, PartialEq, Eq)]
pub enum SecretFault {
    /// The text does not begin with `SCRAM-SHA-256$`.
    Prefix,
    /// No colon follows, or what stands before it is no whole number from 1 to 4294967295.
    Count,
    /// No dollar sign follows, or what stands before it is no base64.
    Salt,
    /// No colon follows, or what stands before it is not 32 bytes in base64.
    StoredKey,
    /// The rest is not 32 bytes in base64.
    ServerKey,
    OutOfMemory,
}

impl From<OutOfMemory> for SecretFault {
    ghost use Rattle.pgw_secrets.specs.declared.secret.SecretFault.TheVariants as fault;

    ghost from_gives = { λ e r. r ≡ fault.OutOfMemory };

    fn from(_e: OutOfMemory) -> SecretFault {
        SecretFault::OutOfMemory
    }
}

impl Duplicate for StoredSecret {
    fn duplicate(&self) -> Result<StoredSecret, OutOfMemory> {
        Ok(StoredSecret {
            count: self.count,
            salt: self.salt.duplicate()?,
            stored_key: self.stored_key,
            server_key: self.server_key,
        })
    }
}

// The secret of a SaltedPassword.
fn kept_of(
    alloc: Global,
    salted: &[u8; 32],
    salt: &[u8],
    count: u32,
) -> Result<StoredSecret, OutOfMemory>
    ensures { IfOk result (λ s. s ≡ kept_secret salted.now salt.now count) }
{
    let key = client_key(salted);
    Ok(StoredSecret {
        count,
        salt: Octets::from_slice(alloc, salt)?,
        stored_key: Sha256::digest(&key),
        server_key: server_key(salted),
    })
}

// The text of a secret, of its parts.
fn written(
    alloc: Global,
    count: u32,
    salt: &str,
    stored_key: &str,
    server_key: &str,
) -> Result<Text, OutOfMemory>
    ensures { IfOk result (λ text. text ≡ secret_text count salt.now stored_key.now
        server_key.now) }
{
    let mut digits = Buffer::new();
    let mut text = String::from_str(alloc, "SCRAM-SHA-256$")?;
    text.push_str(digits.format(count))?;
    text.push_str(":")?;
    text.push_str(salt)?;
    text.push_str("$")?;
    text.push_str(stored_key)?;
    text.push_str(":")?;
    text.push_str(server_key)?;
    Ok(Text::from_string(text))
}

impl StoredSecret {
    /// The secret of a password, by a salt and a number of rounds. Drawing the salt is the caller's part. The password is
    /// not kept.
    pub fn make(
        alloc: Global,
        password: &str,
        salt: &[u8],
        count: u32,
    ) -> Result<StoredSecret, OutOfMemory>
        requires { 1 ≤ count }
        ensures { IfOk result (λ s. s ≡ secret_of password.now salt.now count) }
    {
        let salted = gen_salted_password(alloc, password, salt, count)?;
        kept_of(alloc, &salted, salt, count)
    }

    /// The secret that a text tells, or the first faulty part of it from the left.
    pub fn read(alloc: Global, text: &str) -> Result<StoredSecret, SecretFault>
        ensures value { ReadsSecret text.now result }
        // A text has one reading.
        ensures only { (other : Result StoredSecret SecretFault) → IsSecretReading text.now other
            → (result ≡ Err SecretFault.OutOfMemory) ⊎ (result ≡ other) }
    {
        read_text(alloc, text)
    }

    /// Its text, as `SCRAM-SHA-256$4096:..$..:..`.
    pub fn to_text(&self, alloc: Global) -> Result<Text, OutOfMemory>
        ensures { IfOk result (λ text. text ≡ stored_secret_text self.now) }
    {
        let salt = encode(alloc, self.salt.as_slice())?;
        let stored_key = encode(alloc, &self.stored_key)?;
        let server_key = encode(alloc, &self.server_key)?;
        written(
            alloc,
            self.count,
            salt.as_str(),
            stored_key.as_str(),
            server_key.as_str(),
        )
    }

    /// Whether a client's proof is one of this secret, for the texts as they were exchanged.
    pub fn verify_proof(
        &self,
        alloc: Global,
        client_first_bare: &[u8],
        server_first: &[u8],
        without_proof: &[u8],
        proof: &str,
    ) -> Result<bool, OutOfMemory>
        ensures { IfOk result (λ yes. IsTrue yes ↔ IsProof self.now.stored_key
            (auth_message client_first_bare.now server_first.now without_proof.now) proof.now) }
    {
        is_proof(
            alloc,
            &self.stored_key,
            client_first_bare,
            server_first,
            without_proof,
            proof,
        )
    }

    /// The text of the server's signature in base64, of the same texts. It takes no memory.
    pub fn signature(
        &self,
        client_first_bare: &[u8],
        server_first: &[u8],
        without_proof: &[u8],
    ) -> [u8; 44]
        ensures { result ≡ base64 (signature_by self.now.server_key
            (auth_message client_first_bare.now server_first.now without_proof.now)) }
    {
        signature_by(
            &self.server_key,
            client_first_bare,
            server_first,
            without_proof,
        )
    }
}
