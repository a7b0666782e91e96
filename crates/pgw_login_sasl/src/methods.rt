//! The methods of SASL that a server may offer.
ghost use Rattle.std.specs.Prelude.{◌≡◌, ◌⊎◌};
ghost use Rattle.pgw_login_sasl.specs.Methods.{sasl_method};
ghost use Rattle.pgw_types.specs.declared.error.PgWireError.TheVariants.{OutOfMemory as NoMemory};

use pgw_types::error::PgWireError;
use pgw_types::text::Text;
use std::alloc::Global;

pub const SCRAM_SHA_256_METHOD: &str = "SCRAM-SHA-256";

/// SCRAM-SHA-256 with a channel binding.
pub const SCRAM_SHA_256_PLUS_METHOD: &str = "SCRAM-SHA-256-PLUS";

pub const OAUTHBEARER_METHOD: &str = "OAUTHBEARER";

/// What a client's method asks for.
#[derive(Clone, Copy, Debug, PartialEq, Eq)]
pub enum Method {
    Scram,
    OauthBearer,
}

impl Method {
    /// What the method of this name asks for, if it is known.
    pub fn of(name: &str) -> Option<Method>
        ensures { result ≡ sasl_method name.now }
    {
        if name == SCRAM_SHA_256_METHOD || name == SCRAM_SHA_256_PLUS_METHOD {
            Some(Method::Scram)
        } else if name == OAUTHBEARER_METHOD {
            Some(Method::OauthBearer)
        } else {
            None
        }
    }
}

/// That a method is not supported.
pub fn unsupported(alloc: Global, name: &str) -> PgWireError
    ensures { (result ≡ NoMemory) ⊎ (result ≡ PgWireError.UnsupportedSASLAuthMethod name.now) }
{
    match Text::from_str(alloc, name) {
        Ok(name) => PgWireError::UnsupportedSASLAuthMethod(name),
        Err(_) => PgWireError::OutOfMemory,
    }
}
