//! The messages of SCRAM (RFC 5802, section 7).
ghost use Rattle.std.specs.Prelude.{◌≡◌, IfOk, IfSome, IfNone, true, false, option_map};
ghost use Rattle.std.specs.Str.{is_utf8};
ghost use Rattle.pgw_types.specs.Numbers.{number_in};
ghost use Rattle.pgw_scram.specs.Answers.{IsScramAnswer, scram_result};
ghost use Rattle.pgw_scram.specs.Messages.{IsClientFirst, IsServerFirst, IsClientFinal, IsServerFinal};
ghost use Rattle.pgw_scram.specs.ShownMessages.{header_text, shown_header, shown_client_first, shown_server_first, shown_client_final, shown_server_final, result_map};
ghost use Rattle.pgw_scram.specs.Readers.{is_flag, is_authzid, header_parts, client_first_parts, server_first_parts, client_final_parts, server_final_parts, read_client_first, read_server_first, read_client_final, read_server_final};

use crate::attributes::{attribute_at, behind_mext, behind_name, cut, cut_last, two_at};
use pgw_types::error::{PgWireError, PgWireResult, ScramMessageFault};
use pgw_types::memory::OutOfMemory;
use pgw_types::text::Text;
use std::alloc::Global;
use std::str;

/// The client's first message.
#[derive(Debug, Drop, PartialEq, Eq)]
pub struct ClientFirst {
    /// The flag of channel binding and the authorization identity, with both commas.
    pub header: Text,
    /// What stands behind the header.
    pub bare: Text,
    pub user: Text,
    pub nonce: Text,
}

/// The server's first message.
#[derive(Debug, Drop, PartialEq, Eq)]
pub struct ServerFirst {
    pub nonce: Text,
    /// In base64, as it was sent.
    pub salt: Text,
    pub count: u32,
}

/// The client's last message.
#[derive(Debug, Drop, PartialEq, Eq)]
pub struct ClientFinal {
    /// In base64, as it was sent.
    pub binding: Text,
    pub nonce: Text,
    /// What stands before the last comma.
    pub without_proof: Text,
    /// In base64, as it was sent.
    pub proof: Text,
}

/// The server's last message.
#[derive(Debug, Drop, PartialEq, Eq)]
pub enum ServerFinal {
    /// In base64, as it was sent.
    Signature(Text),
    /// Why the login failed, in the server's words.
    Failed(Text),
}

fn invalid(why: ScramMessageFault) -> PgWireError
    ensures { result ≡ PgWireError.InvalidScramMessage why }
{
    PgWireError::InvalidScramMessage(why)
}

fn is_flag(text: &str) -> bool
    ensures { result ≡ is_flag text.now }
{
    text == "n" || text == "y" || behind_name(text, "p=").is_some()
}

fn is_authzid(text: &str) -> bool
    ensures { result ≡ is_authzid text.now }
{
    text == "" || behind_name(text, "a=").is_some()
}

// What stands before the bare message, between its commas, and the bare message.
#[derive(Clone, Copy, Drop)]
struct Header<'a> {
    flag: &'a str,
    authzid: &'a str,
    bare: &'a str,
}

#[tactic(auto, unfolding(crate::specs::Readers::header_parts))]
fn header_in(text: &str) -> Option<Header<'_>>
    ensures { option_map shown_header result ≡ header_parts text.now }
{
    let flag = cut(text);
    let authzid = cut(flag.rest?);
    let bare = authzid.rest?;
    if !is_flag(flag.value) || !is_authzid(authzid.value) {
        return None;
    }
    Some(Header {
        flag: flag.value,
        authzid: authzid.value,
        bare,
    })
}

impl Header<'_> {
    // Its text, with both commas.
    fn text(&self, alloc: Global) -> Result<Text, OutOfMemory>
        ensures { IfOk result (λ t. t ≡ header_text self.now) }
    {
        let mut text = String::from_str(alloc, self.flag)?;
        text.push(',')?;
        text.push_str(self.authzid)?;
        text.push(',')?;
        Ok(Text::from_string(text))
    }
}

// The parts of the client's first message in its text.
#[derive(Clone, Copy, Drop)]
struct ClientFirstIn<'a> {
    header: Header<'a>,
    user: &'a str,
    nonce: &'a str,
}

#[tactic(auto, unfolding(crate::specs::Readers::client_first_parts))]
fn client_first_in(text: &str) -> Option<ClientFirstIn<'_>>
    ensures { option_map shown_client_first result ≡ client_first_parts text.now }
{
    let header = header_in(text)?;
    let names = two_at(behind_mext(header.bare), "n=", "r=")?;
    Some(ClientFirstIn {
        header,
        user: names.first,
        nonce: names.second,
    })
}

// A message as text.
fn text_of(message: &[u8]) -> Option<&str>
    ensures text { IfSome result (λ t. (t.now ≡ message.now) × (is_utf8 message.now ≡ true)) }
    ensures none { IfNone result (is_utf8 message.now ≡ false) }
{
    match str::from_utf8(message) {
        Ok(text) => Some(text),
        Err(_) => None,
    }
}

impl ClientFirst {
    /// The parts of a message, or what is wrong with it.
    pub fn read(alloc: Global, message: &[u8]) -> PgWireResult<ClientFirst>
        ensures value { IsScramAnswer result (scram_result (read_client_first message.now)) }
        ensures form { IfOk result (IsClientFirst message.now) }
    {
        let Some(text) = text_of(message) else {
            return Err(invalid(ScramMessageFault::NotUtf8));
        };
        let Some(parts) = client_first_in(text) else {
            return Err(invalid(ScramMessageFault::Grammar));
        };
        Ok(ClientFirst {
            header: parts.header.text(alloc)?,
            bare: Text::from_str(alloc, parts.header.bare)?,
            user: Text::from_str(alloc, parts.user)?,
            nonce: Text::from_str(alloc, parts.nonce)?,
        })
    }
}

// The parts of the server's first message in its text.
#[derive(Clone, Copy, Drop)]
struct ServerFirstIn<'a> {
    nonce: &'a str,
    salt: &'a str,
    count: &'a str,
}

#[tactic(auto, unfolding(crate::specs::Readers::server_first_parts))]
fn server_first_in(text: &str) -> Option<ServerFirstIn<'_>>
    ensures { option_map shown_server_first result ≡ server_first_parts text.now }
{
    let two = two_at(behind_mext(text), "r=", "s=")?;
    let count = attribute_at(two.rest?, "i=")?;
    Some(ServerFirstIn {
        nonce: two.first,
        salt: two.second,
        count: count.value,
    })
}

fn number_in(text: &str) -> Option<u32>
    ensures { result ≡ number_in 32 text.now }
{
    text.parse::<u32>().ok()
}

impl ServerFirst {
    /// The parts of a message, or what is wrong with it.
    pub fn read(alloc: Global, message: &[u8]) -> PgWireResult<ServerFirst>
        ensures value { IsScramAnswer result (scram_result (read_server_first message.now)) }
        ensures form { IfOk result (IsServerFirst message.now) }
    {
        let Some(text) = text_of(message) else {
            return Err(invalid(ScramMessageFault::NotUtf8));
        };
        let Some(parts) = server_first_in(text) else {
            return Err(invalid(ScramMessageFault::Grammar));
        };
        let Some(count) = number_in(parts.count) else {
            return Err(invalid(ScramMessageFault::Count));
        };
        if count == 0 {
            return Err(invalid(ScramMessageFault::Count));
        }
        Ok(ServerFirst {
            nonce: Text::from_str(alloc, parts.nonce)?,
            salt: Text::from_str(alloc, parts.salt)?,
            count,
        })
    }
}

// The parts of the client's last message in its text.
#[derive(Clone, Copy, Drop)]
struct ClientFinalIn<'a> {
    binding: &'a str,
    nonce: &'a str,
    without_proof: &'a str,
    proof: &'a str,
}

#[tactic(auto, unfolding(crate::specs::Readers::client_final_parts))]
fn client_final_in(text: &str) -> Option<ClientFinalIn<'_>>
    ensures { option_map shown_client_final result ≡ client_final_parts text.now }
{
    let (without_proof, last) = cut_last(text)?;
    let proof = behind_name(last, "p=")?;
    let names = two_at(without_proof, "c=", "r=")?;
    Some(ClientFinalIn {
        binding: names.first,
        nonce: names.second,
        without_proof,
        proof,
    })
}

impl ClientFinal {
    /// The parts of a message, or what is wrong with it.
    pub fn read(alloc: Global, message: &[u8]) -> PgWireResult<ClientFinal>
        ensures value { IsScramAnswer result (scram_result (read_client_final message.now)) }
        ensures form { IfOk result (IsClientFinal message.now) }
    {
        let Some(text) = text_of(message) else {
            return Err(invalid(ScramMessageFault::NotUtf8));
        };
        let Some(parts) = client_final_in(text) else {
            return Err(invalid(ScramMessageFault::Grammar));
        };
        Ok(ClientFinal {
            binding: Text::from_str(alloc, parts.binding)?,
            nonce: Text::from_str(alloc, parts.nonce)?,
            without_proof: Text::from_str(alloc, parts.without_proof)?,
            proof: Text::from_str(alloc, parts.proof)?,
        })
    }
}

/// The server's last message in its text.
#[derive(Clone, Copy, Drop)]
pub(crate) enum ServerFinalIn<'a> {
    Signature(&'a str),
    Failed(&'a str),
}

#[tactic(auto, unfolding(crate::specs::Readers::server_final_parts))]
fn server_final_in(text: &str) -> Option<ServerFinalIn<'_>>
    ensures { option_map shown_server_final result ≡ server_final_parts text.now }
{
    if let Some(verifier) = attribute_at(text, "v=") {
        return Some(ServerFinalIn::Signature(verifier.value));
    }
    let error = attribute_at(text, "e=")?;
    Some(ServerFinalIn::Failed(error.value))
}

/// The server's last message in its bytes, which takes no memory.
pub(crate) fn read_server_final(message: &[u8]) -> Result<ServerFinalIn<'_>, ScramMessageFault>
    ensures { result_map shown_server_final result ≡ read_server_final message.now }
{
    let Some(text) = text_of(message) else {
        return Err(ScramMessageFault::NotUtf8);
    };
    match server_final_in(text) {
        Some(parts) => Ok(parts),
        None => Err(ScramMessageFault::Grammar),
    }
}

impl ServerFinal {
    /// The parts of a message, or what is wrong with it.
    pub fn read(alloc: Global, message: &[u8]) -> PgWireResult<ServerFinal>
        ensures value { IsScramAnswer result (scram_result (read_server_final message.now)) }
        ensures form { IfOk result (IsServerFinal message.now) }
    {
        match read_server_final(message) {
            Ok(ServerFinalIn::Signature(text)) => {
                Ok(ServerFinal::Signature(Text::from_str(alloc, text)?))
            }
            Ok(ServerFinalIn::Failed(text)) => Ok(ServerFinal::Failed(Text::from_str(
                alloc, text,
            )?)),
            Err(why) => Err(invalid(why)),
        }
    }
}
