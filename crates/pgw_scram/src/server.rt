//! The server's end of an exchange (RFC 5802, section 5).
ghost use Rattle.std.specs.Prelude.{◌≡◌, ◌≤◌, IfOk, OnOk, OnErr, Ok, Some, None};
ghost use Rattle.std.specs.Option.{option_copied};
ghost use Rattle.pgw_scram.specs.Answers.{IsScramAnswer};
ghost use Rattle.pgw_scram.specs.Server.{scram_wait, offered_to, scram_offer, accepted_as, accepted};

use crate::messages::{ClientFinal, ClientFirst};
use crate::offer::{Offer, is_misbound, server_final};
use crate::password::Password;
use crate::proof::{client_key, proof_by, server_key, signature_by};
use pgw_types::error::{PgWireError, PgWireResult, ScramMessageFault};
use pgw_types::listed::Duplicate;
use pgw_types::memory::OutOfMemory;
use pgw_types::octets::Octets;
use pgw_types::text::Text;
use std::alloc::Global;

/// The number of rounds where none is set.
pub const SCRAM_ITERATIONS: usize = 4096;

/// A server before an exchange.
#[derive(Drop)]
pub struct ScramServerAuth {
    iterations: u32,
    certificate_hash: Option<Octets>,
}

/// A server that has sent its first message.
#[derive(Drop)]
pub struct ScramServerAuthWaitingForClientFinal {
    offer: Offer,
    client_key: [u8; 32],
    server_key: [u8; 32],
}

impl Default for ScramServerAuth {
    ghost is_default = { λ server. server ≡ record { iterations = 4096; certificate_hash = None } };

    fn default() -> ScramServerAuth {
        ScramServerAuth::new()
    }
}

impl ScramServerAuth {
    /// 4096 rounds, and no certificate.
    pub fn new() -> ScramServerAuth
        ensures { result ≡ record { iterations = 4096; certificate_hash = None } }
    {
        ScramServerAuth {
            iterations: SCRAM_ITERATIONS as u32,
            certificate_hash: None,
        }
    }

    /// Sets the hash of the server's certificate, as the channel binding `tls-server-end-point` has it
    /// (RFC 5929, section 4).
    pub fn configure_certificate_hash(
        &mut self,
        alloc: Global,
        hash: &[u8],
    ) -> Result<(), OutOfMemory>
        ensures set { OnOk result (self.new ≡ record self.old
            { certificate_hash = Some hash.now }) }
        ensures refused { OnErr result (self.new ≡ self.old) }
    {
        self.certificate_hash = Some(Octets::from_slice(alloc, hash)?);
        Ok(())
    }

    /// The hash of the server's certificate, if it is set.
    pub fn certificate_hash(&self) -> Option<&[u8]>
        ensures { option_copied result ≡ self.now.certificate_hash }
    {
        self.certificate_hash.as_ref().map(|hash| hash.as_slice())
    }

    /// Sets the number of rounds that a client is asked for.
    pub fn set_iterations(&mut self, iterations: u32)
        requires { 1 ≤ iterations }
        ensures { self.new ≡ record self.old { iterations = iterations } }
    {
        self.iterations = iterations;
    }

    /// The server's first message. In this order: `InvalidScramMessage` for the message's form, then
    /// for a header that does not suit the server; `SaltRequired` where the password has no salt.
    pub fn on_client_first_message(
        &self,
        alloc: Global,
        message: &[u8],
        password: &Password,
        nonce: &[u8; 18],
    ) -> PgWireResult<(Text, ScramServerAuthWaitingForClientFinal)>
        ensures { IsScramAnswer result (scram_offer self.now message.now password.now nonce.now) }
    {
        let parts = ClientFirst::read(alloc, message)?;
        self.offer(alloc, parts, password, nonce)
    }

    /// As `on_client_first_message`, of the parts of the client's first message.
    pub fn offer(
        &self,
        alloc: Global,
        parts: ClientFirst,
        password: &Password,
        nonce: &[u8; 18],
    ) -> PgWireResult<(Text, ScramServerAuthWaitingForClientFinal)>
        ensures { IsScramAnswer result (offered_to self.now parts password.now nonce.now) }
    {
        if is_misbound(self.certificate_hash(), parts.header.as_str()) {
            return Err(PgWireError::InvalidScramMessage(ScramMessageFault::ChannelBinding));
        }
        let Some(salt) = password.salt() else {
            return Err(PgWireError::SaltRequired);
        };
        let waiting = self.waiting(alloc, parts, salt, password.password(), nonce)?;
        let message = waiting.offer.server_first.duplicate()?;
        Ok((message, waiting))
    }

    // The server that has sent its first message.
    fn waiting(
        &self,
        alloc: Global,
        parts: ClientFirst,
        salt: &[u8],
        salted: &[u8],
        own: &[u8; 18],
    ) -> Result<ScramServerAuthWaitingForClientFinal, OutOfMemory>
        ensures { IfOk result (λ server. server
            ≡ scram_wait self.now parts salt.now salted.now own.now) }
    {
        let offer = Offer::new(
            alloc,
            parts,
            self.certificate_hash(),
            salt,
            self.iterations,
            own,
        )?;
        Ok(ScramServerAuthWaitingForClientFinal {
            offer,
            client_key: client_key(salted),
            server_key: server_key(salted),
        })
    }
}

impl ScramServerAuthWaitingForClientFinal {
    /// The server's last message. In this order: `InvalidScramMessage` for the message's form, for its
    /// channel binding and for its nonce; `InvalidPassword` with the user name where the proof is
    /// another.
    pub fn on_client_final_message(&self, alloc: Global, message: &[u8]) -> PgWireResult<Text>
        ensures { IsScramAnswer result (accepted self.now message.now) }
    {
        let parts = self.offer.answer(alloc, message)?;
        self.accept(alloc, &parts)
    }

    /// The server's last message (server-final), of the parts of the client's, or that its proof is another.
    pub fn accept(&self, alloc: Global, parts: &ClientFinal) -> PgWireResult<Text>
        ensures { IsScramAnswer result (accepted_as self.now (Ok parts.now)) }
    {
        let bare = self.offer.bare.as_str().as_bytes();
        let server_first = self.offer.server_first.as_str().as_bytes();
        let without_proof = parts.without_proof.as_str().as_bytes();
        let proof = proof_by(&self.client_key, bare, server_first, without_proof);
        if parts.proof.as_str().as_bytes() != proof.as_slice() {
            return Err(PgWireError::InvalidPassword(self.offer.user.duplicate()?));
        }
        let signature = signature_by(&self.server_key, bare, server_first, without_proof);
        Ok(server_final(alloc, &signature)?)
    }
}
