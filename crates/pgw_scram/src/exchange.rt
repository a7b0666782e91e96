//! What a client sends (RFC 5802, section 5), of texts that are prepared.
ghost use Rattle.std.specs.Prelude.{◌≡◌, ◌++◌, IfOk, Ok, Some, codes, IsUtf8};
ghost use Rattle.pgw_scram.specs.Base64.{base64};
ghost use Rattle.pgw_scram.specs.Formulas.{auth_message, client_proof, server_signature};
ghost use Rattle.pgw_scram.specs.Exchange.{client_first_bare, client_first, without_proof, client_final, signature};
ghost use Rattle.pgw_scram.specs.Answers.{AnswersClient};
ghost use Rattle.pgw_scram.specs.Refusals.{begins_with};
ghost use Rattle.pgw_scram.specs.Client.{scram_reply};
ghost use Rattle.pgw_scram.specs.Readers.{read_server_first};

use crate::binding::ClientBinding;
use crate::encoding::decode_salt;
use crate::messages::ServerFirst;
use crate::proof::{client_proof, server_signature};
use pgw_hash::pbkdf2::gen_salted_password;
use pgw_types::memory::OutOfMemory;
use pgw_types::scram_error::{ScramClientError, ScramClientResult, ScramFault};
use pgw_types::text::Text;
use std::alloc::Global;
use std::str;

/// The client's first message behind its header.
pub fn client_first_bare(alloc: Global, user: &str, nonce: &str) -> Result<Text, OutOfMemory>
    ensures { IfOk result (λ text. text ≡ client_first_bare user.now nonce.now) }
{
    let text = format!(in alloc; "n={user},r={nonce}")?;
    Ok(Text::from_string(text))
}

/// Who logs in, and what the messages of one exchange are made of.
#[derive(Drop)]
pub struct ClientLogin {
    pub binding: ClientBinding,
    /// In its prepared form.
    pub user: Text,
    pub password: Text,
    /// In base64, as it is sent.
    pub nonce: Text,
}

/// The client's first message.
#[tactic(auto, unfolding(crate::specs::Exchange::client_first))]
pub fn client_first(alloc: Global, login: &ClientLogin) -> Result<Text, OutOfMemory>
    ensures { IfOk result (λ text. text ≡ client_first login.now) }
{
    let header = login.binding.header();
    let bare = client_first_bare(alloc, login.user.as_str(), login.nonce.as_str())?;
    let bare = bare.as_str();
    let text = format!(in alloc; "{header}{bare}")?;
    Ok(Text::from_string(text))
}

// The client's last message without its proof.
#[tactic(auto, unfolding(crate::specs::Exchange::without_proof))]
fn without_proof(alloc: Global, binding: &ClientBinding, nonce: &str) -> Result<Text, OutOfMemory>
    ensures { IfOk result (λ text. text ≡ without_proof binding.now nonce.now) }
{
    let bound = binding.text(alloc)?;
    let bound = bound.as_str();
    let text = format!(in alloc; "c={bound},r={nonce}")?;
    Ok(Text::from_string(text))
}

/// The client's last message, and the text of the signature that the server owes for it.
#[derive(Drop)]
pub struct ClientReply {
    pub message: Text,
    pub signature: [u8; 44],
}

// The reply by the SaltedPassword and the nonce in the server's first message.
fn reply(
    alloc: Global,
    salted: &[u8],
    login: &ClientLogin,
    server_first: &[u8],
    server_nonce: &str,
) -> Result<ClientReply, OutOfMemory>
    ensures message { IfOk result (λ r. r.message ≡ without_proof login.now.binding server_nonce.now
        ++ codes ",p=" ++ base64 (client_proof salted.now
        (auth_message (client_first_bare login.now.user login.now.nonce) server_first.now
        (without_proof login.now.binding server_nonce.now)))) }
    ensures signature { IfOk result (λ r. r.signature
        ≡ base64 (server_signature salted.now
        (auth_message (client_first_bare login.now.user login.now.nonce) server_first.now
        (without_proof login.now.binding server_nonce.now)))) }
{
    let bare = client_first_bare(alloc, login.user.as_str(), login.nonce.as_str())?;
    let without = without_proof(alloc, &login.binding, server_nonce)?;
    let bare = bare.as_str().as_bytes();
    let bytes = without.as_str().as_bytes();
    let proof = client_proof(salted, bare, server_first, bytes);
    let signature = server_signature(salted, bare, server_first, bytes);
    let message = with_proof(alloc, without.as_str(), &proof)?;
    Ok(ClientReply { message, signature })
}

// The client's last message with a proof's text.
fn with_proof(alloc: Global, without_proof: &str, proof: &[u8; 44]) -> Result<Text, OutOfMemory>
    requires { IsUtf8 proof.now }
    ensures { IfOk result (λ text. text ≡ without_proof.now ++ codes ",p=" ++ proof.now) }
{
    let proof = str::from_utf8(proof).unwrap();
    let text = format!(in alloc; "{without_proof},p={proof}")?;
    Ok(Text::from_string(text))
}

fn begins_with(text: &str, front: &str) -> bool
    ensures { result ≡ begins_with text.now front.now }
{
    text.as_bytes().starts_with(front.as_bytes())
}

/// The client's last message, behind the server's first one. In this order: `InvalidScramMessage`;
/// `NonceMismatch` where the server's nonce does not begin with the client's; `SaltNotBase64`.
pub fn client_final(
    alloc: Global,
    login: &ClientLogin,
    server_first: &[u8],
) -> ScramClientResult<ClientReply>
    ensures { AnswersClient result (scram_reply login.now server_first.now) }
{
    let parts = ServerFirst::read(alloc, server_first)?;
    reply_to(alloc, login, server_first, &parts)
}

// As `client_final`, of the parts of the server's first message.
fn reply_to(
    alloc: Global,
    login: &ClientLogin,
    server_first: &[u8],
    parts: &ServerFirst,
) -> ScramClientResult<ClientReply>
    requires { read_server_first server_first.now ≡ Ok parts.now }
    ensures { AnswersClient result (scram_reply login.now server_first.now) }
{
    if !begins_with(parts.nonce.as_str(), login.nonce.as_str()) {
        return Err(ScramClientError::ScramError(ScramFault::NonceMismatch));
    }
    let Some(salt) = decode_salt(alloc, parts.salt.as_str().as_bytes())? else {
        return Err(ScramClientError::ScramError(ScramFault::SaltNotBase64));
    };
    let salted = gen_salted_password(alloc, login.password.as_str(), &salt, parts.count)?;
    Ok(reply(alloc, &salted, login, server_first, parts.nonce.as_str())?)
}
