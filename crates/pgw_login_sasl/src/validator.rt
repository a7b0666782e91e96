//! What judges a token.
ghost use Rattle.std.specs.Prelude.{ℕ, List, Result};
ghost use Rattle.pgw_types.specs.declared.error.PgWireError.{PgWireError as Refusal};
ghost use Rattle.pgw_login_sasl.specs.declared.validator.ValidatorModuleResult.{ValidatorModuleResult as Verdict};

use pgw_types::error::PgWireResult;
use pgw_types::listed::Duplicate;
use pgw_types::memory::OutOfMemory;
use pgw_types::text::Text;
use pgw_wire::params::Params;
use std::alloc::Global;

/// What a validator found of a token.
#[derive(Drop)]
pub struct ValidatorModuleResult {
    /// Whether the token gives access.
    pub authorized: bool,
    /// Whom the token names.
    pub authn_id: Option<Text>,
    /// What else the token says.
    pub metadata: Option<Params>,
}

impl Duplicate for ValidatorModuleResult {
    fn duplicate(&self) -> Result<ValidatorModuleResult, OutOfMemory> {
        Ok(ValidatorModuleResult {
            authorized: self.authorized,
            authn_id: self.authn_id.duplicate()?,
            metadata: self.metadata.duplicate()?,
        })
    }
}

/// Judges tokens.
pub trait OauthValidator: Drop {
    /// What may be answered of a token, a user, an issuer and the scopes that are asked for.
    ghost validates: { Self → List ℕ → List ℕ → List ℕ → List ℕ → Result Verdict Refusal → Type 0 };

    /// Whether a token gives this user access with these scopes, or why that cannot be said.
    fn validate(
        &self,
        alloc: Global,
        token: &str,
        username: &str,
        issuer: &str,
        required_scopes: &str,
    ) -> PgWireResult<ValidatorModuleResult>
        ensures { validates self.now token.now username.now issuer.now required_scopes.now result };
}
