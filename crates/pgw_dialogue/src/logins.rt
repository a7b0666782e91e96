//! What a client sends to log in.
ghost use Rattle.std.specs.Prelude.{◌≡◌, codes, Some, None, true, false, is_some, IfOk, IfSome, IfNone};
ghost use Rattle.std.specs.Str.{bytes_eq, is_utf8};
ghost use Rattle.pgw_hash.specs.Saslprep.{saslprep};
ghost use Rattle.pgw_wire.specs.Reading.{lossy};
ghost use Rattle.pgw_session.specs.Logins.{binding_of, cleartext_message, final_refusal, first_message, md5_message, method_of, offers, must_bind, password_message, password_of, scram_login, takes_method, user_of};
ghost use Rattle.pgw_dialogue.specs.Input.{input_of};

use crate::input::Input;
use pgw_backend::client_error::PgWireClientError;
use pgw_config::config::ChannelBinding;
use pgw_frontend::frontend::PgWireFrontendMessage;
use pgw_hash::md5_password::hash_md5_password;
use pgw_scram::binding::ClientBinding;
use pgw_scram::exchange::{ClientLogin, client_first};
use pgw_scram::messages::ServerFinal;
use pgw_scram::nonce::random_nonce;
use pgw_startup::password::{Password, PasswordMessageFamily};
use pgw_startup::sasl::{SASLInitialResponse, SASLResponse};
use pgw_types::error::PgWireError;
use pgw_types::listed::{Duplicate, Listed};
use pgw_types::memory::OutOfMemory;
use pgw_types::octets::Octets;
use pgw_types::scram_error::ScramFault;
use pgw_types::text::Text;
use pgw_wire::reader::lossy_text;
use std::alloc::Global;
use std::str;

/// The user name, or the empty text where none is set.
pub fn user_of<'a>(input: &Input<'a>) -> &'a str
    ensures { result.now ≡ user_of (input_of input.now) }
{
    match &input.config.user {
        Some(user) => user.as_str(),
        None => "",
    }
}

/// The bytes of the password, or none where none is set.
pub fn password_of<'a>(input: &Input<'a>) -> &'a [u8]
    ensures { result.now ≡ password_of (input_of input.now) }
{
    match &input.config.password {
        Some(password) => password.as_slice(),
        None => &[],
    }
}

// The password, read as UTF-8.
fn password_text(alloc: Global, input: &Input<'_>) -> Result<Text, OutOfMemory>
    ensures { IfOk result (λ text. text ≡ lossy (password_of (input_of input.now))) }
{
    match lossy_text(alloc, password_of(input)) {
        Ok(text) => Ok(text),
        Err(_) => Err(OutOfMemory),
    }
}

fn password_message(password: Text) -> PgWireFrontendMessage
    ensures { result ≡ password_message password }
{
    PgWireFrontendMessage::PasswordMessageFamily(PasswordMessageFamily::Password(Password {
        password,
    }))
}

/// The password in clear text (AuthenticationCleartextPassword).
pub fn cleartext_message(
    alloc: Global,
    input: &Input<'_>,
) -> Result<PgWireFrontendMessage, OutOfMemory>
    ensures { IfOk result (λ m. m ≡ cleartext_message (input_of input.now)) }
{
    Ok(password_message(password_text(alloc, input)?))
}

/// The password hashed with the user name and a salt (AuthenticationMD5Password).
pub fn md5_message(
    alloc: Global,
    input: &Input<'_>,
    salt: &Octets,
) -> Result<PgWireFrontendMessage, OutOfMemory>
    ensures { IfOk result (λ m. m ≡ md5_message (input_of input.now) salt.now) }
{
    let password = password_text(alloc, input)?;
    let hashed = hash_md5_password(alloc, user_of(input), password.as_str(), salt.as_slice())?;
    Ok(password_message(hashed))
}

// ---- SCRAM

fn is_scram(method: &Text) -> bool
    ensures { result ≡ bytes_eq (codes "SCRAM-SHA-256") method.now }
{
    "SCRAM-SHA-256" == method.as_str()
}

fn is_bound_scram(method: &Text) -> bool
    ensures { result ≡ bytes_eq (codes "SCRAM-SHA-256-PLUS") method.now }
{
    "SCRAM-SHA-256-PLUS" == method.as_str()
}

// Whether `SCRAM-SHA-256` is among the methods.
fn offers_scram(methods: &Listed<Text>) -> bool
    ensures { result ≡ offers (codes "SCRAM-SHA-256") methods.now }
{
    methods.as_slice().iter().any(|method| is_scram(method))
}

// Whether `SCRAM-SHA-256-PLUS` is.
fn offers_binding(methods: &Listed<Text>) -> bool
    ensures { result ≡ offers (codes "SCRAM-SHA-256-PLUS") methods.now }
{
    methods
        .as_slice()
        .iter()
        .any(|method| is_bound_scram(method))
}

/// Whether a login must be bound to the server's certificate.
pub fn must_bind(input: &Input<'_>) -> bool
    ensures { result ≡ must_bind (input_of input.now) }
{
    match input.config.channel_binding {
        ChannelBinding::Require => true,
        ChannelBinding::Disable | ChannelBinding::Prefer => false,
    }
}

/// Whether one of the methods is taken.
pub fn takes_method(input: &Input<'_>, methods: &Listed<Text>) -> bool
    ensures { result ≡ takes_method (input_of input.now) methods.now }
{
    let binds = input.config.certificate_hash.is_some() && offers_binding(methods);
    match input.config.channel_binding {
        ChannelBinding::Disable => offers_scram(methods),
        ChannelBinding::Prefer => binds || offers_scram(methods),
        ChannelBinding::Require => binds,
    }
}

// What a login by one of the methods is bound to.
fn binding_of(input: &Input<'_>, methods: &Listed<Text>) -> Result<ClientBinding, OutOfMemory>
    ensures { IfOk result (λ binding. binding ≡ binding_of (input_of input.now) methods.now) }
{
    let Some(hash) = &input.config.certificate_hash else {
        return Ok(ClientBinding::None);
    };
    match input.config.channel_binding {
        ChannelBinding::Disable => Ok(ClientBinding::None),
        ChannelBinding::Prefer | ChannelBinding::Require => {
            if offers_binding(methods) {
                Ok(ClientBinding::EndPoint(hash.duplicate()?))
            } else {
                Ok(ClientBinding::NotOffered)
            }
        }
    }
}

/// The password, where it is UTF-8.
pub fn text_password<'a>(input: &Input<'a>) -> Option<&'a str>
    ensures text { IfSome result (λ t. (t.now ≡ password_of (input_of input.now))
        × (is_utf8 (password_of (input_of input.now)) ≡ true)) }
    ensures none { IfNone result (is_utf8 (password_of (input_of input.now)) ≡ false) }
{
    match str::from_utf8(password_of(input)) {
        Ok(text) => Some(text),
        Err(_) => None,
    }
}

/// Who logs in by SCRAM, of the prepared user name and the password.
pub fn scram_login(
    alloc: Global,
    input: &Input<'_>,
    methods: &Listed<Text>,
    user: Text,
    password: &str,
) -> Result<ClientLogin, OutOfMemory>
    requires user { saslprep (user_of (input_of input.now)) ≡ Some user }
    requires password { password.now ≡ password_of (input_of input.now) }
    ensures { IfOk result (λ login. login ≡ scram_login (input_of input.now) methods.now) }
{
    Ok(ClientLogin {
        binding: binding_of(input, methods)?,
        user,
        password: Text::from_str(alloc, password)?,
        nonce: random_nonce(alloc, input.nonce)?,
    })
}

// The method that a login is by.
fn method_of(binding: &ClientBinding) -> &str
    ensures { result.now ≡ method_of binding.now }
{
    match binding {
        ClientBinding::EndPoint(_) => "SCRAM-SHA-256-PLUS",
        _ => "SCRAM-SHA-256",
    }
}

/// The first message of the login (SASLInitialResponse).
pub fn first_message(
    alloc: Global,
    login: &ClientLogin,
) -> Result<PgWireFrontendMessage, OutOfMemory>
    ensures { IfOk result (λ m. m ≡ first_message login.now) }
{
    let text = client_first(alloc, login)?;
    let payload = Octets::from_slice(alloc, text.as_str().as_bytes())?;
    let auth_method = Text::from_str(alloc, method_of(&login.binding))?;
    Ok(PgWireFrontendMessage::PasswordMessageFamily(PasswordMessageFamily::SASLInitialResponse(
        SASLInitialResponse {
            auth_method,
            payload: Some(payload),
        },
    )))
}

/// The answer to the server's first text (SASLResponse).
pub fn response_message(alloc: Global, text: &Text) -> Result<PgWireFrontendMessage, OutOfMemory>
    ensures { IfOk result (λ m. m ≡ PgWireFrontendMessage.PasswordMessageFamily
        (PasswordMessageFamily.SASLResponse (record { payload = text.now }))) }
{
    let payload = Octets::from_slice(alloc, text.as_str().as_bytes())?;
    Ok(PgWireFrontendMessage::PasswordMessageFamily(PasswordMessageFamily::SASLResponse(
        SASLResponse { payload },
    )))
}

/// Why the server's last text is refused, where a signature is expected.
pub fn final_refusal(
    alloc: Global,
    expected: &Octets,
    last: &Octets,
) -> Result<Option<PgWireClientError>, OutOfMemory>
    ensures { IfOk result (λ refusal. refusal ≡ final_refusal expected.now last.now) }
{
    match ServerFinal::read(alloc, last.as_slice()) {
        Ok(ServerFinal::Signature(text)) => {
            if text.as_str().as_bytes() == expected.as_slice() {
                Ok(None)
            } else {
                Ok(Some(PgWireClientError::ScramError(ScramFault::SignatureMismatch)))
            }
        }
        Ok(ServerFinal::Failed(text)) => Ok(Some(PgWireClientError::ScramError(
            ScramFault::ServerError(text),
        ))),
        Err(PgWireError::OutOfMemory) => Err(OutOfMemory),
        Err(why) => Ok(Some(PgWireClientError::PgWireError(why))),
    }
}
