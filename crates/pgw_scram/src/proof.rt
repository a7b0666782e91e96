//! What a client proves and what a server signs (RFC 5802, section 3). It takes no memory.
ghost use Rattle.std.specs.Prelude.{◌≡◌};
ghost use Rattle.pgw_scram.specs.Base64.{base64};
ghost use Rattle.pgw_scram.specs.Formulas.{auth_message, client_key, stored_key, server_key, client_signature, proof_by, client_proof, signature_by, server_signature};

use crate::code::AuthMessage;
use crate::encoding::encode_32;
use pgw_hash::hmac::hmac_sha256;
use pgw_hash::xor::xor_into;
use sha2::{Digest, Sha256};

/// The ClientKey of a SaltedPassword.
pub fn client_key(salted: &[u8]) -> [u8; 32]
    ensures { result ≡ client_key salted.now }
{
    hmac_sha256(salted, b"Client Key")
}

/// The ServerKey of a SaltedPassword.
pub fn server_key(salted: &[u8]) -> [u8; 32]
    ensures { result ≡ server_key salted.now }
{
    hmac_sha256(salted, b"Server Key")
}

/// The ClientSignature, by a StoredKey and the texts as they were exchanged.
pub fn client_signature(
    stored_key: &[u8; 32],
    client_first_bare: &[u8],
    server_first: &[u8],
    without_proof: &[u8],
) -> [u8; 32]
    ensures { result ≡ client_signature stored_key.now
        (auth_message client_first_bare.now server_first.now without_proof.now) }
{
    AuthMessage {
        client_first_bare,
        server_first,
        without_proof,
    }
    .code(stored_key)
}

/// The text of ClientProof in base64, by a ClientKey and the same.
pub fn proof_by(
    client_key: &[u8; 32],
    client_first_bare: &[u8],
    server_first: &[u8],
    without_proof: &[u8],
) -> [u8; 44]
    ensures { result ≡ base64 (proof_by client_key.now
        (auth_message client_first_bare.now server_first.now without_proof.now)) }
{
    let stored_key = Sha256::digest(client_key);
    let mut proof = *client_key;
    xor_into(
        &mut proof,
        &client_signature(&stored_key, client_first_bare, server_first, without_proof),
    );
    encode_32(&proof)
}

/// The text of ClientProof in base64, by the SaltedPassword.
#[tactic(auto, unfolding(crate::specs::Formulas::client_proof))]
pub fn client_proof(
    salted: &[u8],
    client_first_bare: &[u8],
    server_first: &[u8],
    without_proof: &[u8],
) -> [u8; 44]
    ensures { result ≡ base64 (client_proof salted.now
        (auth_message client_first_bare.now server_first.now without_proof.now)) }
{
    proof_by(
        &client_key(salted),
        client_first_bare,
        server_first,
        without_proof,
    )
}

/// The text of ServerSignature in base64, by a ServerKey.
pub fn signature_by(
    server_key: &[u8; 32],
    client_first_bare: &[u8],
    server_first: &[u8],
    without_proof: &[u8],
) -> [u8; 44]
    ensures { result ≡ base64 (signature_by server_key.now
        (auth_message client_first_bare.now server_first.now without_proof.now)) }
{
    let message = AuthMessage {
        client_first_bare,
        server_first,
        without_proof,
    };
    encode_32(&message.code(server_key))
}

/// The text of ServerSignature in base64, by the SaltedPassword.
#[tactic(auto, unfolding(crate::specs::Formulas::server_signature))]
pub fn server_signature(
    salted: &[u8],
    client_first_bare: &[u8],
    server_first: &[u8],
    without_proof: &[u8],
) -> [u8; 44]
    ensures { result ≡ base64 (server_signature salted.now
        (auth_message client_first_bare.now server_first.now without_proof.now)) }
{
    signature_by(
        &server_key(salted),
        client_first_bare,
        server_first,
        without_proof,
    )
}
