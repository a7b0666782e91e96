//! What a server asks for at login.
ghost use Rattle.std.specs.Prelude.{◌≡◌, Ok, ◌∷◌, [], ◌++◌, OnOk};
ghost use Rattle.std.specs.List.{list_any, flat_map};
ghost use Rattle.pgw_wire.specs.declared.framing.Framing.TheVariants.{Typed};
ghost use Rattle.pgw_wire.specs.Reading.{Reads, name_at, octets_at, rest_at, marked_list_at};
ghost use Rattle.pgw_wire.specs.Formats.{made_at};
ghost use Rattle.pgw_wire.specs.Writing.{text as text_bytes, u32 as u32_bytes};
ghost use Rattle.pgw_startup.specs.declared.authentication.Authentication.TheVariants.{MD5Password, SASL, SASLContinue, SASLFinal};
ghost use Rattle.pgw_startup.specs.Login.{by_code, authentication_of, authentication, is_method_refused, authentication_fault};
ghost use Rattle.pgw_wire.specs.declared.limits.TheConstants.{SMALL_BACKEND_LIMIT};

use pgw_types::context::DecodeContext;
use pgw_types::error::{PgWireError, PgWireResult};
use pgw_types::listed::{Duplicate, Listed};
use pgw_types::memory::OutOfMemory;
use pgw_types::octets::Octets;
use pgw_types::text::Text;
use pgw_wire::field::{list_len, put_list};
use pgw_wire::framing::Framing;
use pgw_wire::item::take_up_to_mark;
use pgw_wire::limits::SMALL_BACKEND_LIMIT;
use pgw_wire::message::Message;
use pgw_wire::reader::FieldReader;
use pgw_wire::writer::{Writer, has_zero, put_u8, put_u32, refused_if};
use std::alloc::Global;

pub const MESSAGE_TYPE_BYTE_AUTHENTICATION: u8 = b'R';

/// An authentication request, or its end (AuthenticationOk and the other Authentication messages).
#[derive(Debug, Drop, PartialEq, Eq)]
pub enum Authentication {
    Ok,
    CleartextPassword,
    KerberosV5,
    /// The salt, four bytes.
    MD5Password(Octets),
    /// The names of the methods that the server offers, in its order.
    SASL(Listed<Text>),
    /// The method's own data, as SCRAM's server-first-message.
    SASLContinue(Octets),
    /// The method's last data, as SCRAM's server-final-message.
    SASLFinal(Octets),
}

// Whether a method has no spelling.
fn any_refused(methods: &[Text]) -> bool
    ensures { result ≡ list_any is_method_refused methods.now }
{
    methods.iter().any(|t| is_refused_method(t))
}

pub(crate) fn is_refused_method(method: &Text) -> bool
    ensures { result ≡ is_method_refused method.now }
{
    method.is_empty() || has_zero(method)
}

// Four bytes.
fn take_salt(reader: &mut FieldReader<'_>) -> PgWireResult<Authentication>
    ensures { Reads result reader.new (made_at MD5Password (octets_at 4) reader.old) }
{
    Ok(Authentication::MD5Password(reader.take_octets(4)?))
}

fn take_methods(alloc: Global, reader: &mut FieldReader<'_>) -> PgWireResult<Authentication>
    ensures { Reads result reader.new (made_at SASL (marked_list_at name_at) reader.old) }
{
    Ok(Authentication::SASL(take_up_to_mark(alloc, reader)?))
}

fn take_continue(reader: &mut FieldReader<'_>) -> PgWireResult<Authentication>
    ensures { Reads result reader.new (made_at SASLContinue rest_at reader.old) }
{
    Ok(Authentication::SASLContinue(reader.take_rest()?))
}

fn take_final(reader: &mut FieldReader<'_>) -> PgWireResult<Authentication>
    ensures { Reads result reader.new (made_at SASLFinal rest_at reader.old) }
{
    Ok(Authentication::SASLFinal(reader.take_rest()?))
}

// What follows the code.
#[tactic(auto, unfolding(crate::specs::Login::by_code))]
fn take_by_code(
    alloc: Global,
    reader: &mut FieldReader<'_>,
    code: u32,
) -> PgWireResult<Authentication>
    ensures { Reads result reader.new (by_code code reader.old) }
{
    match code {
        0 => Ok(Authentication::Ok),
        2 => Ok(Authentication::KerberosV5),
        3 => Ok(Authentication::CleartextPassword),
        5 => take_salt(reader),
        10 => take_methods(alloc, reader),
        11 => take_continue(reader),
        12 => take_final(reader),
        _ => Err(PgWireError::InvalidAuthenticationMessageCode(code.cast_signed())),
    }
}

// A code and bytes.
fn put_coded(out: &mut Writer, code: u32, bytes: &[u8]) -> Result<(), OutOfMemory>
    ensures ok { OnOk result (out.new.body ≡ out.old.body ++ u32_bytes code ++ bytes.now) }
    ensures kept { out.new.before ≡ out.old.before }
{
    put_u32(out, code)?;
    out.put_slice(bytes)
}

fn put_methods(out: &mut Writer, methods: &[Text]) -> Result<(), OutOfMemory>
    ensures ok { OnOk result (out.new.body ≡ out.old.body ++ u32_bytes 10
        ++ flat_map text_bytes methods.now ++ 0 ∷ []) }
    ensures kept { out.new.before ≡ out.old.before }
{
    put_u32(out, 10)?;
    put_list(out, methods)?;
    put_u8(out, 0)
}

impl Message for Authentication {
    ghost row_framing = { Typed 82 };

    ghost limit = { SMALL_BACKEND_LIMIT };

    ghost reading = { authentication_of };

    ghost written = { authentication };

    ghost fault = { authentication_fault };

    fn framing() -> Framing {
        Framing::Typed(MESSAGE_TYPE_BYTE_AUTHENTICATION)
    }

    fn max_message_length() -> usize {
        SMALL_BACKEND_LIMIT
    }

    #[tactic(auto, unfolding(pgw_wire::specs::Writing::u32))]
    fn message_length(&self) -> usize {
        match self {
            Authentication::Ok | Authentication::CleartextPassword | Authentication::KerberosV5 =>
                8,
            Authentication::MD5Password(bytes)
            | Authentication::SASLContinue(bytes)
            | Authentication::SASLFinal(bytes) => bytes.len() + 8,
            Authentication::SASL(methods) => list_len(methods.as_slice(), 9),
        }
    }

    fn refusal(&self) -> Option<PgWireError> {
        match self {
            Authentication::MD5Password(salt) => refused_if(salt.len() != 4),
            Authentication::SASL(methods) => refused_if(any_refused(methods.as_slice())),
            _ => None,
        }
    }

    fn put_body(&self, out: &mut Writer) -> Result<(), OutOfMemory> {
        match self {
            Authentication::Ok => put_u32(out, 0),
            Authentication::KerberosV5 => put_u32(out, 2),
            Authentication::CleartextPassword => put_u32(out, 3),
            Authentication::MD5Password(salt) => put_coded(out, 5, salt.as_slice()),
            Authentication::SASL(methods) => put_methods(out, methods.as_slice()),
            Authentication::SASLContinue(bytes) => put_coded(out, 11, bytes.as_slice()),
            Authentication::SASLFinal(bytes) => put_coded(out, 12, bytes.as_slice()),
        }
    }

    #[tactic(auto, unfolding(crate::specs::Login::authentication_of))]
    fn decode_body(
        alloc: Global,
        body: &Octets,
        _ctx: &DecodeContext,
    ) -> PgWireResult<Authentication> {
        let mut reader = FieldReader::new(body);
        let code = reader.take_u32()?;
        let message = take_by_code(alloc, &mut reader, code)?;
        reader.finish()?;
        Ok(message)
    }
}

impl Duplicate for Authentication {
    fn duplicate(&self) -> Result<Authentication, OutOfMemory> {
        match self {
            Authentication::Ok => Ok(Authentication::Ok),
            Authentication::CleartextPassword => Ok(Authentication::CleartextPassword),
            Authentication::KerberosV5 => Ok(Authentication::KerberosV5),
            Authentication::MD5Password(x) => Ok(Authentication::MD5Password(x.duplicate()?)),
            Authentication::SASL(x) => Ok(Authentication::SASL(x.duplicate()?)),
            Authentication::SASLContinue(x) => Ok(Authentication::SASLContinue(x.duplicate()?)),
            Authentication::SASLFinal(x) => Ok(Authentication::SASLFinal(x.duplicate()?)),
        }
    }
}
