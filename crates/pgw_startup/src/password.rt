//! What a client answers to an authentication request.
ghost use Rattle.std.specs.Prelude.{◌≡◌};
ghost use Rattle.pgw_wire.specs.declared.framing.Framing.TheVariants.{Typed};
ghost use Rattle.pgw_wire.specs.Reading.{Gives};
ghost use Rattle.pgw_wire.specs.Writing.{text, has_zero as holds_zero, refused_if};
ghost use Rattle.pgw_startup.specs.Password.{password_payload, family_of, password_body, password_fault, as_password, as_initial_response, as_response};
ghost use Rattle.pgw_wire.specs.declared.limits.TheConstants.{SMALL_LIMIT};

use crate::sasl::{SASLInitialResponse, SASLResponse, read_initial_response, read_response};
use pgw_types::context::DecodeContext;
use pgw_types::error::{PgWireError, PgWireResult};
use pgw_types::listed::Duplicate;
use pgw_types::memory::OutOfMemory;
use pgw_types::octets::Octets;
use pgw_types::text::Text;
use pgw_wire::framing::Framing;
use pgw_wire::limits::SMALL_LIMIT;
use pgw_wire::message::Message;
use pgw_wire::reader::FieldReader;
use pgw_wire::writer::{Writer, has_zero, put_text, refused_if};
use std::alloc::Global;
use std::fmt;

pub const MESSAGE_TYPE_BYTE_PASSWORD_MESSAGE_FAMILY: u8 = b'p';

/// A password in clear text or hashed by MD5 (PasswordMessage).
#[derive(Drop, PartialEq, Eq)]
pub struct Password {
    pub password: Text,
}

/// It does not show the password.
impl fmt::Debug for Password {
    fn fmt<W: fmt::Write>(&self, f: &mut fmt::Formatter<W>) -> fmt::Result {
        f.write_str("Password(_)")
    }
}

impl Password {
    pub fn new(password: Text) -> Password
        ensures { result ≡ record { password = password } }
    {
        Password { password }
    }
}

#[tactic(auto, unfolding(crate::specs::Password::password_payload))]
fn read_password(alloc: Global, body: &Octets) -> PgWireResult<Password>
    ensures { Gives result (password_payload body.now) }
{
    let mut reader = FieldReader::new(body);
    let password = reader.take_text(alloc)?;
    reader.finish()?;
    Ok(Password { password })
}

impl Message for Password {
    ghost row_framing = { Typed 112 };

    ghost limit = { SMALL_LIMIT };

    ghost reading = { λ ctx. password_payload };

    ghost written = { λ m. text m.password };

    ghost fault = { λ m. refused_if (holds_zero m.password) };

    fn framing() -> Framing {
        Framing::Typed(MESSAGE_TYPE_BYTE_PASSWORD_MESSAGE_FAMILY)
    }

    fn max_message_length() -> usize {
        SMALL_LIMIT
    }

    #[tactic(auto, unfolding(pgw_wire::specs::Writing::text))]
    fn message_length(&self) -> usize {
        self.password.len() + 5
    }

    fn refusal(&self) -> Option<PgWireError> {
        refused_if(has_zero(&self.password))
    }

    fn put_body(&self, out: &mut Writer) -> Result<(), OutOfMemory> {
        put_text(out, &self.password)
    }

    fn decode_body(alloc: Global, body: &Octets, _ctx: &DecodeContext) -> PgWireResult<Password> {
        read_password(alloc, body)
    }
}

/// The messages of type byte `p`, which a server tells apart by what it asked for.
#[derive(Drop, PartialEq, Eq)]
pub enum PasswordMessageFamily {
    /// A body that is not read yet.
    Raw(Octets),
    Password(Password),
    SASLInitialResponse(SASLInitialResponse),
    SASLResponse(SASLResponse),
}

/// It shows which message it is, and nothing of a body.
impl fmt::Debug for PasswordMessageFamily {
    fn fmt<W: fmt::Write>(&self, f: &mut fmt::Formatter<W>) -> fmt::Result {
        match self {
            PasswordMessageFamily::Raw(_body) => f.write_str("Raw(_)"),
            PasswordMessageFamily::Password(m) => m.fmt(f),
            PasswordMessageFamily::SASLInitialResponse(m) => m.fmt(f),
            PasswordMessageFamily::SASLResponse(m) => m.fmt(f),
        }
    }
}

impl PasswordMessageFamily {
    /// The message as a password, whose body is read now if it was not before.
    pub fn into_password(self, alloc: Global) -> PgWireResult<Password>
        ensures { Gives result (as_password self) }
    {
        match self {
            PasswordMessageFamily::Raw(body) => read_password(alloc, &body),
            PasswordMessageFamily::Password(m) => Ok(m),
            _ => Err(PgWireError::FailedToCoercePasswordMessage),
        }
    }

    /// The message as the first one of SASL, whose body is read now if it was not before.
    pub fn into_sasl_initial_response(self, alloc: Global) -> PgWireResult<SASLInitialResponse>
        ensures { Gives result (as_initial_response self) }
    {
        match self {
            PasswordMessageFamily::Raw(body) => read_initial_response(alloc, &body),
            PasswordMessageFamily::SASLInitialResponse(m) => Ok(m),
            _ => Err(PgWireError::FailedToCoercePasswordMessage),
        }
    }

    /// The message as a further one of SASL, whose body is read now if it was not before.
    pub fn into_sasl_response(self) -> PgWireResult<SASLResponse>
        ensures { Gives result (as_response self) }
    {
        match self {
            PasswordMessageFamily::Raw(body) => read_response(&body),
            PasswordMessageFamily::SASLResponse(m) => Ok(m),
            _ => Err(PgWireError::FailedToCoercePasswordMessage),
        }
    }
}

impl Message for PasswordMessageFamily {
    ghost row_framing = { Typed 112 };

    ghost limit = { SMALL_LIMIT };

    ghost reading = { family_of };

    ghost written = { password_body };

    ghost fault = { password_fault };

    fn framing() -> Framing {
        Framing::Typed(MESSAGE_TYPE_BYTE_PASSWORD_MESSAGE_FAMILY)
    }

    fn max_message_length() -> usize {
        SMALL_LIMIT
    }

    fn message_length(&self) -> usize {
        match self {
            PasswordMessageFamily::Raw(body) => body.len() + 4,
            PasswordMessageFamily::Password(m) => m.message_length(),
            PasswordMessageFamily::SASLInitialResponse(m) => m.message_length(),
            PasswordMessageFamily::SASLResponse(m) => m.message_length(),
        }
    }

    fn refusal(&self) -> Option<PgWireError> {
        match self {
            PasswordMessageFamily::Raw(_body) => None,
            PasswordMessageFamily::Password(m) => m.refusal(),
            PasswordMessageFamily::SASLInitialResponse(m) => m.refusal(),
            PasswordMessageFamily::SASLResponse(m) => m.refusal(),
        }
    }

    fn put_body(&self, out: &mut Writer) -> Result<(), OutOfMemory> {
        match self {
            PasswordMessageFamily::Raw(body) => out.put_slice(body.as_slice()),
            PasswordMessageFamily::Password(m) => m.put_body(out),
            PasswordMessageFamily::SASLInitialResponse(m) => m.put_body(out),
            PasswordMessageFamily::SASLResponse(m) => m.put_body(out),
        }
    }

    #[tactic(auto, unfolding(crate::specs::Password::family_of, pgw_wire::specs::Reading::rest_at, pgw_wire::specs::Reading::read_end))]
    fn decode_body(
        _alloc: Global,
        body: &Octets,
        _ctx: &DecodeContext,
    ) -> PgWireResult<PasswordMessageFamily> {
        let mut reader = FieldReader::new(body);
        let body = reader.take_rest()?;
        Ok(PasswordMessageFamily::Raw(body))
    }
}

impl Duplicate for Password {
    fn duplicate(&self) -> Result<Password, OutOfMemory> {
        Ok(Password {
            password: self.password.duplicate()?,
        })
    }
}

impl Duplicate for PasswordMessageFamily {
    fn duplicate(&self) -> Result<PasswordMessageFamily, OutOfMemory> {
        match self {
            PasswordMessageFamily::Raw(x) => Ok(PasswordMessageFamily::Raw(x.duplicate()?)),
            PasswordMessageFamily::Password(x) => Ok(PasswordMessageFamily::Password(
                x.duplicate()?,
            )),
            PasswordMessageFamily::SASLInitialResponse(x) => Ok(
                PasswordMessageFamily::SASLInitialResponse(x.duplicate()?),
            ),
            PasswordMessageFamily::SASLResponse(x) => Ok(PasswordMessageFamily::SASLResponse(
                x.duplicate()?,
            )),
        }
    }
}
