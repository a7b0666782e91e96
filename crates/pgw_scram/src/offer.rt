//! What a server offers, and what it checks of the answer (RFC 5802, section 5), whatever it keeps of a password.
ghost use Rattle.std.specs.Prelude.{◌≡◌, ◌++◌, IfOk, codes, IsUtf8};
ghost use Rattle.std.specs.Option.{option_copied};
ghost use Rattle.pgw_scram.specs.Answers.{IsScramAnswer};
ghost use Rattle.pgw_scram.specs.Base64.{base64};
ghost use Rattle.pgw_scram.specs.Offers.{server_first, bound, is_bound, names_end_point, is_misbound, whole_nonce, offer_of, final_for_offer};

use crate::encoding::{encode, encode_joined};
use crate::messages::{ClientFinal, ClientFirst};
use crate::nonce::random_nonce;
use pgw_types::error::{PgWireError, PgWireResult, ScramMessageFault};
use pgw_types::memory::OutOfMemory;
use pgw_types::text::Text;
use std::alloc::Global;
use std::str;

/// The server's first message, of the whole nonce, the salt's bytes and the count.
pub fn server_first(
    alloc: Global,
    nonce: &str,
    salt: &[u8],
    count: u32,
) -> Result<Text, OutOfMemory>
    ensures { IfOk result (λ text. text ≡ server_first nonce.now salt.now count) }
{
    let salt = encode(alloc, salt)?;
    let salt = salt.as_str();
    let text = format!(in alloc; "r={nonce},s={salt},i={count}")?;
    Ok(Text::from_string(text))
}

/// The server's last message, of its signature in base64.
pub fn server_final(alloc: Global, signature: &[u8; 44]) -> Result<Text, OutOfMemory>
    requires { IsUtf8 signature.now }
    ensures { IfOk result (λ text. text ≡ codes "v=" ++ signature.now) }
{
    let signature = str::from_utf8(signature).unwrap();
    let text = format!(in alloc; "v={signature}")?;
    Ok(Text::from_string(text))
}

/// The nonce of an exchange, of the client's and the bytes of the server's own.
pub fn whole_nonce(alloc: Global, nonce: &str, own: &[u8; 18]) -> Result<Text, OutOfMemory>
    ensures { IfOk result (λ text. text ≡ whole_nonce nonce.now own.now) }
{
    let own = random_nonce(alloc, own)?;
    joined(alloc, nonce, own.as_str())
}

fn joined(alloc: Global, front: &str, back: &str) -> Result<Text, OutOfMemory>
    ensures { IfOk result (λ text. text ≡ front.now ++ back.now) }
{
    let text = format!(in alloc; "{front}{back}")?;
    Ok(Text::from_string(text))
}

// ---- channel binding

/// Whether a client's header names a channel binding.
pub fn is_bound(header: &str) -> bool
    ensures { result ≡ is_bound header.now }
{
    header.as_bytes().starts_with(b"p=")
}

// Whether it names the one that a server has.
fn names_end_point(header: &str) -> bool
    ensures { result ≡ names_end_point header.now }
{
    header.as_bytes().starts_with(b"p=tls-server-end-point,")
}

/// Whether a client's header does not suit a server with this hash of its certificate, or without
/// one.
pub fn is_misbound(certificate_hash: Option<&[u8]>, header: &str) -> bool
    ensures { result ≡ is_misbound (option_copied certificate_hash.entry) header.now }
{
    match certificate_hash {
        Some(_) => {
            header.as_bytes().starts_with(b"y,") || (is_bound(header) && !names_end_point(header))
        }
        None => is_bound(header),
    }
}

fn binding_of(
    alloc: Global,
    header: &str,
    certificate_hash: Option<&[u8]>,
) -> Result<Text, OutOfMemory>
    ensures { IfOk result (λ text. text ≡ base64
        (bound header.now (option_copied certificate_hash.entry))) }
{
    match certificate_hash {
        Some(hash) if names_end_point(header) => encode_joined(alloc, header.as_bytes(), hash),
        _ => encode(alloc, header.as_bytes()),
    }
}

// ---- the offer and its answer

/// What a server has sent first, and what it awaits in the answer besides the proof.
#[derive(Drop)]
pub struct Offer {
    /// The user name in the client's first message.
    pub user: Text,
    /// The client's first message behind its header.
    pub bare: Text,
    pub server_first: Text,
    pub nonce: Text,
    /// In base64, as the answer has it.
    pub binding: Text,
}

impl Offer {
    /// The offer to a client with this first message, of the salt, the count and the bytes of the
    /// server's nonce.
    pub fn new(
        alloc: Global,
        parts: ClientFirst,
        certificate_hash: Option<&[u8]>,
        salt: &[u8],
        count: u32,
        own: &[u8; 18],
    ) -> Result<Offer, OutOfMemory>
        ensures { IfOk result (λ offer. offer
            ≡ offer_of parts (option_copied certificate_hash.entry) salt.now count own.now) }
    {
        let nonce = whole_nonce(alloc, parts.nonce.as_str(), own)?;
        let server_first = server_first(alloc, nonce.as_str(), salt, count)?;
        let binding = binding_of(alloc, parts.header.as_str(), certificate_hash)?;
        Ok(Offer {
            user: parts.user,
            bare: parts.bare,
            server_first,
            nonce,
            binding,
        })
    }

    /// The parts of the client's last message, whose proof is still to be checked.
    /// `InvalidScramMessage` for its form, then for its channel binding, then for its nonce.
    pub fn answer(&self, alloc: Global, message: &[u8]) -> PgWireResult<ClientFinal>
        ensures { IsScramAnswer result (final_for_offer self.now message.now) }
    {
        let parts = ClientFinal::read(alloc, message)?;
        if parts.binding != self.binding {
            return Err(PgWireError::InvalidScramMessage(ScramMessageFault::ChannelBinding));
        }
        if parts.nonce != self.nonce {
            return Err(PgWireError::InvalidScramMessage(ScramMessageFault::Nonce));
        }
        Ok(parts)
    }
}
