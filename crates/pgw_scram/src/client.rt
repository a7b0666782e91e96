//! The client's end of an exchange (RFC 5802, section 5).
ghost use Rattle.std.specs.Prelude.{◌≡◌, None, Ok};
ghost use Rattle.pgw_scram.specs.Answers.{AnswersClient};
ghost use Rattle.pgw_scram.specs.Refusals.{scram_refusal};
ghost use Rattle.pgw_scram.specs.Client.{began, proved, verified};

use crate::binding::ClientBinding;
use crate::exchange::{ClientLogin, client_final, client_first};
use crate::messages::{ServerFinalIn, read_server_final};
use crate::nonce::random_nonce;
use pgw_hash::saslprep::saslprep;
use pgw_types::error::PgWireError;
use pgw_types::listed::Duplicate;
use pgw_types::scram_error::{ScramClientError, ScramClientResult, ScramFault};
use pgw_types::text::Text;
use std::alloc::Global;

/// A client before an exchange.
#[derive(Drop)]
pub struct ScramClientAuth {
    username: Text,
    password: Text,
    binding: ClientBinding,
}

/// A client that has sent its first message.
#[derive(Drop)]
pub struct ScramClientAuthWaitingForServerFirst {
    login: ClientLogin,
}

/// A client that has sent its last message.
#[derive(Drop)]
pub struct ScramClientAuthWaitingForServerFinal {
    signature: [u8; 44],
}

impl ScramClientAuth {
    /// A client that binds its login to nothing.
    pub fn new(username: Text, password: Text) -> ScramClientAuth
        ensures { result ≡ record {
          username = username;
          password = password;
          binding =
              ClientBinding.None;
        } }
    {
        ScramClientAuth {
            username,
            password,
            binding: ClientBinding::None,
        }
    }

    /// Sets what the client binds its login to.
    pub fn configure_channel_binding(&mut self, binding: ClientBinding)
        ensures { self.new ≡ record self.old { binding = binding } }
    {
        self.binding = binding;
    }

    /// The client's first message, or `InvalidConfig("user")` where the user name cannot be prepared.
    pub fn build_client_first(
        &self,
        alloc: Global,
        nonce: &[u8; 18],
    ) -> ScramClientResult<(Text, ScramClientAuthWaitingForServerFirst)>
        ensures { AnswersClient result (began self.now nonce.now) }
    {
        let Some(user) = saslprep(alloc, self.username.as_str())? else {
            return Err(ScramClientError::InvalidConfig(Text::from_str(alloc, "user")?));
        };
        let login = ClientLogin {
            binding: self.binding.duplicate()?,
            user,
            password: self.password.duplicate()?,
            nonce: random_nonce(alloc, nonce)?,
        };
        let message = client_first(alloc, &login)?;
        Ok((message, ScramClientAuthWaitingForServerFirst { login }))
    }
}

impl ScramClientAuthWaitingForServerFirst {
    /// The client's last message. In this order: `InvalidScramMessage`; `NonceMismatch` where the
    /// server's nonce does not begin with the client's; `SaltNotBase64`.
    pub fn build_client_final(
        &self,
        alloc: Global,
        message: &[u8],
    ) -> ScramClientResult<(Text, ScramClientAuthWaitingForServerFinal)>
        ensures { AnswersClient result (proved self.now message.now) }
    {
        let reply = client_final(alloc, &self.login, message)?;
        let signature = reply.signature;
        let waiting = ScramClientAuthWaitingForServerFinal { signature };
        Ok((reply.message, waiting))
    }
}

impl ScramClientAuthWaitingForServerFinal {
    /// Accepts the server's last message. In this order: `InvalidScramMessage`; `ServerError` with the
    /// server's words; `SignatureMismatch`. Only a server's error takes memory.
    pub fn verify_server_final(&self, alloc: Global, message: &[u8]) -> ScramClientResult<()>
        ensures value { AnswersClient result (verified self.now message.now) }
        ensures right { scram_refusal self.now.signature message.now ≡ None → result ≡ Ok tt }
    {
        match read_server_final(message) {
            Err(why) => Err(ScramClientError::PgWireError(PgWireError::InvalidScramMessage(why))),
            Ok(ServerFinalIn::Failed(text)) => {
                let text = Text::from_str(alloc, text)?;
                Err(ScramClientError::ScramError(ScramFault::ServerError(text)))
            }
            Ok(ServerFinalIn::Signature(text)) => {
                if text.as_bytes() == self.signature.as_slice() {
                    Ok(())
                } else {
                    Err(ScramClientError::ScramError(ScramFault::SignatureMismatch))
                }
            }
        }
    }
}
