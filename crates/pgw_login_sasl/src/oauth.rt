//! Logins by a bearer token.
ghost use Rattle.std.specs.Prelude.{◌≡◌, ◌⊎◌, true, false, Ok, Err, IfOk, IfErr};
ghost use Rattle.std.specs.List.{list_all};
ghost use Rattle.std.specs.Option.{option_copied};
ghost use Rattle.pgw_login_sasl.specs.Token.{is_token_byte};
ghost use Rattle.pgw_types.specs.declared.error.PgWireError.TheVariants.{OutOfMemory as NoMemory};
ghost use Rattle.pgw_login.specs.Logins.{login_of};
ghost use Rattle.pgw_startup.specs.Password.{as_response};
ghost use Rattle.pgw_login_sasl.specs.ErrorText.{IsErrorText};
ghost use Rattle.pgw_login_sasl.specs.Oauth.{token_of, Judged, data_of, ByToken, ByData, oauth_end, OauthReplies};

use crate::data::auth_in;
use crate::error_text::error_text;
use crate::token::token_in;
use crate::validator::OauthValidator;
use pgw_login::source::LoginInfo;
use pgw_login::state::SASLState;
use pgw_startup::authentication::Authentication;
use pgw_startup::password::PasswordMessageFamily;
use pgw_types::error::{OauthFault, OauthRefusal, PgWireError, PgWireResult};
use pgw_types::memory::OutOfMemory;
use pgw_types::octets::Octets;
use pgw_types::text::Text;
use pgw_wire::reader::lossy_text;
use std::alloc::Global;
use std::str;

/// An issuer of tokens, and what judges them.
#[derive(Drop)]
pub struct Oauth {
    pub issuer: Text,
    pub scope: Text,
    pub validator: Box<dyn OauthValidator>,
    /// Whether names are mapped to users by the validator. It has no effect.
    pub skip_usermap: bool,
}

impl Oauth {
    pub fn new(issuer: Text, scope: Text, validator: Box<dyn OauthValidator>) -> Oauth
        ensures { result ≡ record {
          issuer = issuer;
          scope = scope;
          validator = validator;
          skip_usermap = false;
        } }
    {
        Oauth {
            issuer,
            scope,
            validator,
            skip_usermap: false,
        }
    }

    pub fn with_skip_usermapping(self, skip: bool) -> Oauth
        ensures { result ≡ record self { skip_usermap = skip } }
    {
        let Oauth {
            issuer,
            scope,
            validator,
            skip_usermap: _,
        } = self;
        Oauth {
            issuer,
            scope,
            validator,
            skip_usermap: skip,
        }
    }

    // Whether the token gives the user access.
    fn judge(&self, alloc: Global, token: &str, user: Option<&str>) -> PgWireResult<()>
        ensures { Judged (validates self.now.validator) self.now.issuer self.now.scope token.now
            (option_copied user.entry) result }
    {
        let Some(user) = user else {
            return Err(PgWireError::UserNameRequired);
        };
        let issuer = self.issuer.as_str();
        let scope = self.scope.as_str();
        let found = self.validator.validate(alloc, token, user, issuer, scope)?;
        if found.authorized {
            Ok(())
        } else {
            let why = OauthRefusal::Refused;
            Err(PgWireError::OAuthAuthenticationFailed(why))
        }
    }

    fn error_text(&self, alloc: Global) -> Result<Octets, OutOfMemory>
        ensures { IfOk result (λ text. IsErrorText self.now.issuer self.now.scope text) }
    {
        error_text(alloc, self.issuer.as_str(), self.scope.as_str())
    }

    // What is replied to the text of a message.
    fn reply_to_text(
        &self,
        alloc: Global,
        user: Option<&str>,
        text: &str,
    ) -> PgWireResult<(Option<Authentication>, SASLState)>
        ensures { (result ≡ Err NoMemory) ⊎ ByToken (validates self.now.validator) self.now.issuer
            self.now.scope (option_copied user.entry) (token_of text.now) result }
    {
        match token_of(alloc, text)? {
            Some(token) => match self.judge(alloc, token, user) {
                Ok(()) => Ok((None, SASLState::Finished)),
                Err(e) => Err(e),
            },
            None => {
                let reply = Authentication::SASLContinue(self.error_text(alloc)?);
                Ok((Some(reply), SASLState::OauthStateError))
            }
        }
    }

    // What is replied to the client's data.
    fn reply_to_data(
        &self,
        alloc: Global,
        user: Option<&str>,
        message: PasswordMessageFamily,
    ) -> PgWireResult<(Option<Authentication>, SASLState)>
        ensures { (result ≡ Err NoMemory) ⊎ ByData (validates self.now.validator) self.now.issuer
            self.now.scope (option_copied user.entry) (data_of message) result }
    {
        match data_of(alloc, message)? {
            Some(payload) => {
                let text = lossy_text(alloc, payload.as_slice())?;
                self.reply_to_text(alloc, user, text.as_str())
            }
            None => {
                let reply = Authentication::SASLContinue(Octets::from_slice(alloc, &[])?);
                Ok((Some(reply), SASLState::OauthStateInit))
            }
        }
    }

    /// What is replied to a client's message, and how far the exchange is then. In the state
    /// `OauthStateInit` the message is the client's data: without data it is asked for, without a token
    /// the client is told where to get one, and else the token is judged. In the state `OauthStateError`
    /// the client ends the login by one byte 1. In any other state the message is refused with
    /// `InvalidSASLState`.
    pub fn process_oauth_message(
        &self,
        alloc: Global,
        login: &LoginInfo<'_>,
        message: PasswordMessageFamily,
        state: &SASLState,
    ) -> PgWireResult<(Option<Authentication>, SASLState)>
        ensures { OauthReplies (validates self.now.validator) self.now.issuer self.now.scope
            (login_of login.now).user message state.now result }
    {
        match state {
            SASLState::OauthStateInit => self.reply_to_data(alloc, login.user(), message),
            SASLState::OauthStateError => ended(message),
            _ => Err(PgWireError::InvalidSASLState),
        }
    }
}

// The data of the first message, if it has some, or a whole further message.
fn data_of(alloc: Global, message: PasswordMessageFamily) -> PgWireResult<Option<Octets>>
    ensures { (result ≡ Err NoMemory) ⊎ (result ≡ data_of message) }
{
    match message {
        PasswordMessageFamily::SASLResponse(message) => Ok(Some(message.payload)),
        PasswordMessageFamily::SASLInitialResponse(message) => Ok(message.payload),
        PasswordMessageFamily::Raw(body) => {
            let message = PasswordMessageFamily::Raw(body);
            Ok(message.into_sasl_initial_response(alloc)?.payload)
        }
        PasswordMessageFamily::Password(_) => Err(PgWireError::FailedToCoercePasswordMessage),
    }
}

// The end of a login without a token.
fn ended(message: PasswordMessageFamily) -> PgWireResult<(Option<Authentication>, SASLState)>
    ensures { (result ≡ Err NoMemory) ⊎ (result ≡ oauth_end (as_response message)) }
{
    let message = message.into_sasl_response()?;
    if message.payload.as_slice() == [1].as_slice() {
        let why = OauthRefusal::Ended;
        Err(PgWireError::OAuthAuthenticationFailed(why))
    } else {
        Err(PgWireError::InvalidOauthMessage(OauthFault::NotOneByte))
    }
}

fn as_text(token: &[u8]) -> &str
    requires { list_all is_token_byte token.now ≡ true }
    ensures { result.now ≡ token.now }
{
    str::from_utf8(token).unwrap()
}

// The token in the data of a client's message, if there is a value of `auth`.
fn token_of(alloc: Global, text: &str) -> PgWireResult<Option<&str>>
    ensures ok { IfOk result (λ token. token_of text.now ≡ Ok (option_copied token)) }
    ensures err { IfErr result (λ e. (e ≡ NoMemory) ⊎ (token_of text.now ≡ Err e)) }
{
    let Some(auth) = auth_in(alloc, text)? else {
        return Ok(None);
    };
    match token_in(auth) {
        Some(token) => Ok(Some(as_text(token))),
        None => {
            let why = OauthRefusal::Malformed;
            Err(PgWireError::OAuthAuthenticationFailed(why))
        }
    }
}
