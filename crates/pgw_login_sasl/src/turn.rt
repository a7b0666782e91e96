//! What a password message is to a login by SASL.
ghost use Rattle.std.specs.Prelude.{◌≡◌, ◌⊎◌, Err};
ghost use Rattle.pgw_types.specs.declared.error.PgWireError.TheVariants.{OutOfMemory as NoMemory};
ghost use Rattle.pgw_login.specs.Acts.{is_initial};
ghost use Rattle.pgw_login_sasl.specs.Turns.{sasl_stage, turned, sasl_start, is_finished};

use crate::methods::Method;
use pgw_login::state::{LoginState, SASLState};
use pgw_startup::password::PasswordMessageFamily;
use pgw_types::error::{PgWireError, PgWireResult};
use std::alloc::Global;

/// What a password message is to a login.
#[derive(Clone, Copy, Debug, PartialEq, Eq)]
pub enum Stage {
    /// The one that names a method.
    First,
    /// A further one of this method.
    Further(Method),
    /// One that may not come.
    Over,
}

/// What a password message would be to a login now.
pub fn stage_of(state: &LoginState) -> Stage
    ensures { result ≡ sasl_stage state.now.started state.now.sasl }
{
    if !state.is_started() {
        return Stage::Over;
    }
    match state.sasl() {
        SASLState::Initial => Stage::First,
        SASLState::ScramClientFirstReceived => Stage::Further(Method::Scram),
        SASLState::ScramServerFirstSent(_) => Stage::Further(Method::Scram),
        SASLState::StoredServerFirstSent(_) => Stage::Further(Method::Scram),
        SASLState::OauthStateInit => Stage::Further(Method::OauthBearer),
        SASLState::OauthStateError => Stage::Further(Method::OauthBearer),
        SASLState::Finished => Stage::Over,
        SASLState::Failed => Stage::Over,
    }
}

/// The method of a message, and the message as it is read.
pub fn turned(
    alloc: Global,
    stage: Stage,
    message: PasswordMessageFamily,
) -> PgWireResult<(Method, PasswordMessageFamily)>
    ensures { (result ≡ Err NoMemory) ⊎ (result ≡ turned stage message) }
{
    match stage {
        Stage::First => {
            let message = message.into_sasl_initial_response(alloc)?;
            match Method::of(message.auth_method.as_str()) {
                Some(method) => Ok((method, PasswordMessageFamily::SASLInitialResponse(message))),
                None => Err(PgWireError::UnsupportedSASLAuthMethod(message.auth_method)),
            }
        }
        Stage::Further(method) => {
            let message = message.into_sasl_response()?;
            Ok((method, PasswordMessageFamily::SASLResponse(message)))
        }
        Stage::Over => Err(PgWireError::InvalidSASLState),
    }
}

/// Whether no password message has come.
pub fn is_initial(state: &SASLState) -> bool
    ensures { result ≡ is_initial state.now }
{
    matches!(state, SASLState::Initial)
}

/// Whether the exchange has ended well.
pub fn is_finished(state: &SASLState) -> bool
    ensures { result ≡ is_finished state.now }
{
    matches!(state, SASLState::Finished)
}

/// The state in which a method finds its first message.
pub fn begun(method: Method) -> SASLState
    ensures { result ≡ sasl_start method }
{
    match method {
        Method::Scram => SASLState::ScramClientFirstReceived,
        Method::OauthBearer => SASLState::OauthStateInit,
    }
}
