//! What an answer is called in the tables.
use pgw_types::error::{OauthFault, OauthRefusal, PgWireError, PgWireResult, ScramMessageFault};

fn oauth_words(fault: &OauthFault) -> &'static str {
    match fault {
        OauthFault::Flag => "Flag",
        OauthFault::ChannelBinding => "ChannelBinding",
        OauthFault::AuthzId => "AuthzId",
        OauthFault::Separator => "Separator",
        OauthFault::Pair => "Pair",
        OauthFault::Key => "Key",
        OauthFault::Value => "Value",
        OauthFault::TwiceAuth => "TwiceAuth",
        OauthFault::NotOneByte => "NotOneByte",
    }
}

fn refusal_words(why: &OauthRefusal) -> &'static str {
    match why {
        OauthRefusal::Malformed => "Malformed",
        OauthRefusal::Refused => "Refused",
        OauthRefusal::Ended => "Ended",
    }
}

fn scram_words(fault: &ScramMessageFault) -> &'static str {
    match fault {
        ScramMessageFault::NotUtf8 => "NotUtf8",
        ScramMessageFault::Grammar => "Grammar",
        ScramMessageFault::Count => "Count",
        ScramMessageFault::ChannelBinding => "ChannelBinding",
        ScramMessageFault::Nonce => "Nonce",
        ScramMessageFault::Empty => "Empty",
        ScramMessageFault::Mechanism => "Mechanism",
    }
}

/// What was refused.
pub fn words_of(answer: &PgWireResult<()>) -> &str {
    match answer {
        Ok(()) => "ok",
        Err(PgWireError::InvalidSASLState) => "InvalidSASLState",
        Err(PgWireError::FailedToCoercePasswordMessage) => "FailedToCoercePasswordMessage",
        Err(PgWireError::SaltRequired) => "SaltRequired",
        Err(PgWireError::UserNameRequired) => "UserNameRequired",
        Err(PgWireError::PidsExhausted) => "PidsExhausted",
        Err(PgWireError::InvalidMessageBody) => "InvalidMessageBody",
        Err(PgWireError::UnsupportedProtocolVersion(_, _)) => "UnsupportedProtocolVersion",
        Err(PgWireError::InvalidScramMessage(fault)) => scram_words(fault),
        Err(PgWireError::InvalidOauthMessage(fault)) => oauth_words(fault),
        Err(PgWireError::OAuthAuthenticationFailed(why)) => refusal_words(why),
        Err(PgWireError::OAuthValidationError(text)) => text.as_str(),
        Err(PgWireError::UnsupportedSASLAuthMethod(method)) => method.as_str(),
        Err(PgWireError::InvalidPassword(user)) => user.as_str(),
        Err(_) => "another error",
    }
}
