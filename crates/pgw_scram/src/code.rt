//! The code of what was exchanged, taken in part by part.
ghost use Rattle.std.specs.Prelude.{◌≡◌};
ghost use Rattle.pgw_hash.specs.Hmac.{hmac_sha256};
ghost use Rattle.pgw_scram.specs.Formulas.{auth_message};

use pgw_hash::hmac::Hmac;

/// What both ends authenticate (RFC 5802, section 3: AuthMessage).
#[derive(Clone, Copy, Drop)]
pub(crate) struct AuthMessage<'a> {
    pub(crate) client_first_bare: &'a [u8],
    pub(crate) server_first: &'a [u8],
    pub(crate) without_proof: &'a [u8],
}

impl AuthMessage<'_> {
    /// Its code under a key.
    pub(crate) fn code(&self, key: &[u8]) -> [u8; 32]
        ensures { result ≡ hmac_sha256 key.now
            (auth_message self.now.client_first_bare.now self.now.server_first.now
            self.now.without_proof.now) }
    {
        let mut code = Hmac::new(key);
        code.update(self.client_first_bare);
        code.update(b",");
        code.update(self.server_first);
        code.update(b",");
        code.update(self.without_proof);
        code.finalize()
    }
}
