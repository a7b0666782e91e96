//! What a client says in an exchange by SASL.
ghost use Rattle.std.specs.Prelude.{◌≡◌, ◌++◌, length, None, OnOk};
ghost use Rattle.pgw_wire.specs.declared.framing.Framing.TheVariants.{Typed};
ghost use Rattle.pgw_wire.specs.Reading.{Gives, Reads};
ghost use Rattle.pgw_wire.specs.Writing.{text, refused_if};
ghost use Rattle.pgw_startup.specs.Login.{is_method_refused};
ghost use Rattle.pgw_startup.specs.Password.{data_at, data_written, initial_response_of, initial_response, sasl_response_in};
ghost use Rattle.pgw_wire.specs.declared.limits.TheConstants.{SMALL_LIMIT};

use crate::authentication::is_refused_method;
use crate::password::MESSAGE_TYPE_BYTE_PASSWORD_MESSAGE_FAMILY;
use pgw_types::context::DecodeContext;
use pgw_types::error::{PgWireError, PgWireResult};
use pgw_types::listed::Duplicate;
use pgw_types::memory::OutOfMemory;
use pgw_types::octets::Octets;
use pgw_types::text::Text;
use pgw_wire::framing::Framing;
use pgw_wire::limits::SMALL_LIMIT;
use pgw_wire::message::Message;
use pgw_wire::reader::FieldReader;
use pgw_wire::writer::{Writer, put_i32, put_text, refused_if};
use std::alloc::Global;
use std::fmt;

/// The method that the client chose, which is not empty, and its first data, if there are any (SASLInitialResponse).
#[derive(Drop, PartialEq, Eq)]
pub struct SASLInitialResponse {
    pub auth_method: Text,
    pub payload: Option<Octets>,
}

/// It does not show the data.
impl fmt::Debug for SASLInitialResponse {
    fn fmt<W: fmt::Write>(&self, f: &mut fmt::Formatter<W>) -> fmt::Result {
        f.write_str("SASLInitialResponse(_)")
    }
}

impl SASLInitialResponse {
    pub fn new(auth_method: Text, payload: Option<Octets>) -> SASLInitialResponse
        ensures { result ≡ record { auth_method = auth_method; payload = payload } }
    {
        SASLInitialResponse {
            auth_method,
            payload,
        }
    }
}

// A length and as many bytes, or a length of -1.
#[tactic(auto, unfolding(crate::specs::Password::data_at))]
fn take_data(reader: &mut FieldReader<'_>) -> PgWireResult<Option<Octets>>
    ensures { Reads result reader.new (data_at reader.old) }
{
    let len = reader.take_i32()?;
    if len == -1 {
        return Ok(None);
    }
    if len < 0 {
        return Err(PgWireError::InvalidMessageBody);
    }
    let bytes = reader.take_octets(len as usize)?;
    Ok(Some(bytes))
}

#[tactic(auto, unfolding(crate::specs::Password::data_written, pgw_wire::specs::Writing::u32))]
fn put_data(out: &mut Writer, payload: &Option<Octets>) -> Result<(), OutOfMemory>
    ensures ok { OnOk result (out.new.body ≡ out.old.body ++ data_written payload.now) }
    ensures kept { out.new.before ≡ out.old.before }
{
    let Some(payload) = payload else {
        return put_i32(out, -1);
    };
    let [_, _, _, _, a, b, c, d] = payload.len().to_be_bytes();
    out.put_slice(&[a, b, c, d])?;
    out.put_slice(payload.as_slice())
}

#[tactic(auto, unfolding(crate::specs::Password::data_written, pgw_wire::specs::Writing::u32, pgw_wire::specs::Writing::i32))]
fn data_len(payload: &Option<Octets>) -> usize
    ensures { result ≡ length (data_written payload.now) }
{
    match payload {
        Some(payload) => payload.len() + 4,
        None => 4,
    }
}

/// Reads a body.
#[tactic(auto, unfolding(crate::specs::Password::initial_response_of))]
pub fn read_initial_response(alloc: Global, body: &Octets) -> PgWireResult<SASLInitialResponse>
    ensures { Gives result (initial_response_of body.now) }
{
    let mut reader = FieldReader::new(body);
    let auth_method = reader.take_text(alloc)?;
    let payload = take_data(&mut reader)?;
    reader.finish()?;
    Ok(SASLInitialResponse {
        auth_method,
        payload,
    })
}

impl Message for SASLInitialResponse {
    ghost row_framing = { Typed 112 };

    ghost limit = { SMALL_LIMIT };

    ghost reading = { λ ctx. initial_response_of };

    ghost written = { initial_response };

    ghost fault = { λ m. refused_if (is_method_refused m.auth_method) };

    fn framing() -> Framing {
        Framing::Typed(MESSAGE_TYPE_BYTE_PASSWORD_MESSAGE_FAMILY)
    }

    fn max_message_length() -> usize {
        SMALL_LIMIT
    }

    #[tactic(auto, unfolding(pgw_wire::specs::Writing::text))]
    fn message_length(&self) -> usize {
        (self.auth_method.len() + 5).saturating_add(data_len(&self.payload))
    }

    fn refusal(&self) -> Option<PgWireError> {
        refused_if(is_refused_method(&self.auth_method))
    }

    fn put_body(&self, out: &mut Writer) -> Result<(), OutOfMemory> {
        put_text(out, &self.auth_method)?;
        put_data(out, &self.payload)
    }

    fn decode_body(
        alloc: Global,
        body: &Octets,
        _ctx: &DecodeContext,
    ) -> PgWireResult<SASLInitialResponse> {
        read_initial_response(alloc, body)
    }
}

impl Duplicate for SASLInitialResponse {
    fn duplicate(&self) -> Result<SASLInitialResponse, OutOfMemory> {
        Ok(SASLInitialResponse {
            auth_method: self.auth_method.duplicate()?,
            payload: self.payload.duplicate()?,
        })
    }
}

/// The client's further data (SASLResponse).
#[derive(Drop, PartialEq, Eq)]
pub struct SASLResponse {
    pub payload: Octets,
}

/// It does not show the data.
impl fmt::Debug for SASLResponse {
    fn fmt<W: fmt::Write>(&self, f: &mut fmt::Formatter<W>) -> fmt::Result {
        f.write_str("SASLResponse(_)")
    }
}

impl SASLResponse {
    pub fn new(payload: Octets) -> SASLResponse
        ensures { result ≡ record { payload = payload } }
    {
        SASLResponse { payload }
    }
}

/// Reads a body.
#[tactic(auto, unfolding(crate::specs::Password::sasl_response_in, pgw_wire::specs::Reading::rest_at, pgw_wire::specs::Reading::read_end))]
pub fn read_response(body: &Octets) -> PgWireResult<SASLResponse>
    ensures { Gives result (sasl_response_in body.now) }
{
    let mut reader = FieldReader::new(body);
    let payload = reader.take_rest()?;
    Ok(SASLResponse { payload })
}

impl Message for SASLResponse {
    ghost row_framing = { Typed 112 };

    ghost limit = { SMALL_LIMIT };

    ghost reading = { λ ctx. sasl_response_in };

    ghost written = { λ m. m.payload };

    ghost fault = { λ m. None };

    fn framing() -> Framing {
        Framing::Typed(MESSAGE_TYPE_BYTE_PASSWORD_MESSAGE_FAMILY)
    }

    fn max_message_length() -> usize {
        SMALL_LIMIT
    }

    fn message_length(&self) -> usize {
        self.payload.len() + 4
    }

    fn refusal(&self) -> Option<PgWireError> {
        None
    }

    fn put_body(&self, out: &mut Writer) -> Result<(), OutOfMemory> {
        out.put_slice(self.payload.as_slice())
    }

    fn decode_body(
        _alloc: Global,
        body: &Octets,
        _ctx: &DecodeContext,
    ) -> PgWireResult<SASLResponse> {
        read_response(body)
    }
}

impl Duplicate for SASLResponse {
    fn duplicate(&self) -> Result<SASLResponse, OutOfMemory> {
        Ok(SASLResponse {
            payload: self.payload.duplicate()?,
        })
    }
}
