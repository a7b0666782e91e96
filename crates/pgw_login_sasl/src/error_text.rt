//! What a server says of a login without a token (RFC 7628, section 3.2.2).
ghost use Rattle.std.specs.Prelude.{◌≡◌, IfOk};
ghost use Rattle.serde_json.specs.View.{view};
ghost use Rattle.pgw_login_sasl.specs.ErrorText.{IsConfiguration, object_of, IsErrorText};

use pgw_types::memory::OutOfMemory;
use pgw_types::octets::Octets;
use pgw_types::text::Text;
use serde_json::{Value, json};
use std::alloc::{AllocError, Global};

// Where the issuer tells its configuration.
fn configuration(alloc: Global, issuer: &str) -> Result<Text, OutOfMemory>
    ensures { IfOk result (λ text. IsConfiguration issuer.now text) }
{
    if issuer.contains("/.well-known/") {
        return Text::from_str(alloc, issuer);
    }
    let text = format!(in alloc; "{issuer}/.well-known/openid-configuration")?;
    Ok(Text::from_string(text))
}

// The object that is written.
fn object_of(alloc: Global, configuration: &str, scope: &str) -> Result<Value, AllocError>
    ensures { IfOk result (λ value. view value ≡ object_of configuration.now scope.now) }
{
    json!(in alloc; {
        "openid-configuration": configuration,
        "scope": scope,
        "status": "invalid_token"
    })
}

/// The error text of an issuer and the scopes that are asked for.
pub fn error_text(alloc: Global, issuer: &str, scope: &str) -> Result<Octets, OutOfMemory>
    ensures { IfOk result (λ text. IsErrorText issuer.now scope.now text) }
{
    let configuration = configuration(alloc, issuer)?;
    let value = object_of(alloc, configuration.as_str(), scope)?;
    let text = value.to_string(alloc)?;
    Octets::from_slice(alloc, text.as_bytes())
}
