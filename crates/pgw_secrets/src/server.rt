//! The server's end of an exchange (RFC 5802, section 5), of a secret in place of a password.
ghost use Rattle.std.specs.Prelude.{◌≡◌, ◌≤◌, ◌↔◌, IfOk, IsTrue, OnOk, OnErr, Ok, Some, None};
ghost use Rattle.std.specs.Option.{option_copied};
ghost use Rattle.pgw_scram.specs.Answers.{IsScramAnswer};
ghost use Rattle.pgw_secrets.specs.Server.{stored_wait, stored_offer_to, stored_offer, Proves, Judges, AcceptsStored, StoredOrNoMemory};

use crate::keys::is_proof;
use crate::secret::StoredSecret;
use pgw_scram::messages::{ClientFinal, ClientFirst};
use pgw_scram::offer::{Offer, is_misbound, server_final};
use pgw_scram::proof::signature_by;
use pgw_types::error::{PgWireError, PgWireResult, ScramMessageFault};
use pgw_types::listed::Duplicate;
use pgw_types::memory::OutOfMemory;
use pgw_types::octets::Octets;
use pgw_types::text::Text;
use std::alloc::Global;

/// A server before an exchange, with the secret of who logs in.
#[derive(Drop)]
pub struct StoredScramAuth {
    secret: StoredSecret,
    certificate_hash: Option<Octets>,
}

/// A server that has sent its first message.
#[derive(Drop)]
pub struct StoredScramWaiting {
    offer: Offer,
    stored_key: [u8; 32],
    server_key: [u8; 32],
}

impl StoredScramAuth {
    /// Without a certificate.
    pub fn new(secret: StoredSecret) -> StoredScramAuth
        requires { 1 ≤ secret.count }
        ensures { result ≡ record { secret = secret; certificate_hash = None } }
    {
        StoredScramAuth {
            secret,
            certificate_hash: None,
        }
    }

    /// Sets the hash of the server's certificate, as the channel binding `tls-server-end-point` has it
    /// (RFC 5929, section 4).
    pub fn configure_certificate_hash(
        &mut self,
        alloc: Global,
        hash: &[u8],
    ) -> Result<(), OutOfMemory>
        ensures set { OnOk result
            (self.new ≡ record self.old { certificate_hash = Some hash.now }) }
        ensures refused { OnErr result (self.new ≡ self.old) }
    {
        self.certificate_hash = Some(Octets::from_slice(alloc, hash)?);
        Ok(())
    }

    fn certificate_hash(&self) -> Option<&[u8]>
        ensures { option_copied result ≡ self.now.certificate_hash }
    {
        self.certificate_hash.as_ref().map(|hash| hash.as_slice())
    }

    /// The server's first message. `InvalidScramMessage` for the message's form, then for a header that does not suit the
    /// server.
    pub fn on_client_first_message(
        &self,
        alloc: Global,
        message: &[u8],
        nonce: &[u8; 18],
    ) -> PgWireResult<(Text, StoredScramWaiting)>
        ensures { IsScramAnswer result (stored_offer self.now message.now nonce.now) }
    {
        let parts = ClientFirst::read(alloc, message)?;
        self.offer(alloc, parts, nonce)
    }

    /// As `on_client_first_message`, of the parts of the client's first message.
    pub fn offer(
        &self,
        alloc: Global,
        parts: ClientFirst,
        nonce: &[u8; 18],
    ) -> PgWireResult<(Text, StoredScramWaiting)>
        ensures { IsScramAnswer result (stored_offer_to self.now parts nonce.now) }
    {
        if is_misbound(self.certificate_hash(), parts.header.as_str()) {
            return Err(PgWireError::InvalidScramMessage(ScramMessageFault::ChannelBinding));
        }
        let waiting = self.waiting(alloc, parts, nonce)?;
        let message = waiting.offer.server_first.duplicate()?;
        Ok((message, waiting))
    }

    // The server that has sent its first message.
    fn waiting(
        &self,
        alloc: Global,
        parts: ClientFirst,
        own: &[u8; 18],
    ) -> Result<StoredScramWaiting, OutOfMemory>
        ensures { IfOk result (λ server. server ≡ stored_wait self.now parts own.now) }
    {
        let salt = self.secret.salt.as_slice();
        let count = self.secret.count;
        let offer = Offer::new(alloc, parts, self.certificate_hash(), salt, count, own)?;
        let stored_key = self.secret.stored_key;
        let server_key = self.secret.server_key;
        Ok(StoredScramWaiting {
            offer,
            stored_key,
            server_key,
        })
    }
}

impl StoredScramWaiting {
    /// The server's last message. In this order: `InvalidScramMessage` for the message's form, for its channel binding and
    /// for its nonce; `InvalidPassword` with the user name where the proof is none of the secret.
    pub fn on_client_final_message(&self, alloc: Global, message: &[u8]) -> PgWireResult<Text>
        ensures { StoredOrNoMemory (AcceptsStored self.now message.now) result }
    {
        let parts = self.offer.answer(alloc, message)?;
        self.judge(alloc, &parts)
    }

    // The server's last message, of the parts of the client's.
    fn judge(&self, alloc: Global, parts: &ClientFinal) -> PgWireResult<Text>
        ensures { StoredOrNoMemory (Judges self.now parts.now) result }
    {
        if !self.proves(alloc, parts)? {
            return Err(PgWireError::InvalidPassword(self.offer.user.duplicate()?));
        }
        let signature = signature_by(
            &self.server_key,
            self.offer.bare.as_str().as_bytes(),
            self.offer.server_first.as_str().as_bytes(),
            parts.without_proof.as_str().as_bytes(),
        );
        Ok(server_final(alloc, &signature)?)
    }

    // Whether the parts prove the stored key.
    fn proves(&self, alloc: Global, parts: &ClientFinal) -> Result<bool, OutOfMemory>
        ensures { IfOk result (λ yes. IsTrue yes ↔ Proves self.now parts.now) }
    {
        is_proof(
            alloc,
            &self.stored_key,
            self.offer.bare.as_str().as_bytes(),
            self.offer.server_first.as_str().as_bytes(),
            parts.without_proof.as_str().as_bytes(),
            parts.proof.as_str(),
        )
    }
}
