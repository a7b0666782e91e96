//! Messages whose body has no bytes: their type bytes say all.
ghost use Rattle.std.specs.Prelude.{◌≡◌, ℕ, [], None};
ghost use Rattle.pgw_types.specs.declared.context.DecodeContext.{DecodeContext as TheContext};
ghost use Rattle.pgw_wire.specs.declared.framing.Framing.TheVariants.{Typed};
ghost use Rattle.pgw_wire.specs.declared.limits.TheConstants.{SMALL_BACKEND_LIMIT, SMALL_LIMIT};
ghost use Rattle.pgw_wire.specs.Empty.{empty_request_of, empty_response_of};
ghost use Rattle.pgw_wire.specs.Equal.{IsExact};
ghost use Rattle.pgw_wire.specs.Formats.{IsRow, NoBody};

use crate::framing::Framing;
use crate::limits::{SMALL_BACKEND_LIMIT, SMALL_LIMIT};
use crate::message::Message;
use crate::reader::FieldReader;
use crate::writer::Writer;
use pgw_types::context::DecodeContext;
use pgw_types::error::{PgWireError, PgWireResult};
use pgw_types::listed::Duplicate;
use pgw_types::memory::OutOfMemory;
use pgw_types::octets::Octets;
use std::alloc::Global;

/// A message without a body that a client may send.
#[derive(Clone, Copy, Debug, PartialEq, Eq)]
pub struct EmptyRequest<const TYPE: u8>;

impl<const TYPE: u8> EmptyRequest<TYPE> {
    pub fn new() -> EmptyRequest<TYPE>
        ensures { result ≡ record {} }
    {
        EmptyRequest
    }
}

impl<const TYPE: u8> Message for EmptyRequest<TYPE> {
    ghost row_framing = { Typed TYPE };

    ghost limit = { SMALL_LIMIT };

    ghost reading = { empty_request_of TYPE };

    ghost written = { λ m. [] };

    ghost fault = { λ m. None };

    fn framing() -> Framing {
        Framing::Typed(TYPE)
    }

    fn max_message_length() -> usize {
        SMALL_LIMIT
    }

    fn message_length(&self) -> usize {
        4
    }

    fn refusal(&self) -> Option<PgWireError> {
        None
    }

    fn put_body(&self, _out: &mut Writer) -> Result<(), OutOfMemory> {
        Ok(())
    }

    #[tactic(auto, unfolding(crate::specs::Empty::empty_request_of))]
    fn decode_body(
        _alloc: Global,
        body: &Octets,
        _ctx: &DecodeContext,
    ) -> PgWireResult<EmptyRequest<TYPE>> {
        FieldReader::new(body).finish()?;
        Ok(EmptyRequest)
    }
}

impl<const TYPE: u8> Duplicate for EmptyRequest<TYPE> {
    fn duplicate(&self) -> Result<EmptyRequest<TYPE>, OutOfMemory> {
        Ok(*self)
    }
}

/// A message without a body that only a server sends.
#[derive(Clone, Copy, Debug, PartialEq, Eq)]
pub struct EmptyResponse<const TYPE: u8>;

impl<const TYPE: u8> EmptyResponse<TYPE> {
    pub fn new() -> EmptyResponse<TYPE>
        ensures { result ≡ record {} }
    {
        EmptyResponse
    }
}

impl<const TYPE: u8> Message for EmptyResponse<TYPE> {
    ghost row_framing = { Typed TYPE };

    ghost limit = { SMALL_BACKEND_LIMIT };

    ghost reading = { empty_response_of TYPE };

    ghost written = { λ m. [] };

    ghost fault = { λ m. None };

    fn framing() -> Framing {
        Framing::Typed(TYPE)
    }

    fn max_message_length() -> usize {
        SMALL_BACKEND_LIMIT
    }

    fn message_length(&self) -> usize {
        4
    }

    fn refusal(&self) -> Option<PgWireError> {
        None
    }

    fn put_body(&self, _out: &mut Writer) -> Result<(), OutOfMemory> {
        Ok(())
    }

    #[tactic(auto, unfolding(crate::specs::Empty::empty_response_of))]
    fn decode_body(
        _alloc: Global,
        body: &Octets,
        _ctx: &DecodeContext,
    ) -> PgWireResult<EmptyResponse<TYPE>> {
        FieldReader::new(body).finish()?;
        Ok(EmptyResponse)
    }
}

impl<const TYPE: u8> Duplicate for EmptyResponse<TYPE> {
    fn duplicate(&self) -> Result<EmptyResponse<TYPE>, OutOfMemory> {
        Ok(*self)
    }
}

/// What is read at the front of some bytes is spelled so, and what is spelled so is read, whatever follows it.
pub fn empty_rows_are_exact()
    ensures request { (byte : ℕ) (ctx : TheContext) →
        IsRow byte SMALL_LIMIT (empty_request_of byte ctx) NoBody }
    ensures response { (byte : ℕ) (ctx : TheContext) →
        IsRow byte SMALL_BACKEND_LIMIT (empty_response_of byte ctx) NoBody }
{}

/// Two messages of one type byte are equal exactly where they are the same.
pub fn empty_equality_is_exact<const TYPE: u8>()
    ensures request { IsExact ⟦<EmptyRequest<TYPE> as PartialEq>⟧.eq }
    ensures response { IsExact ⟦<EmptyResponse<TYPE> as PartialEq>⟧.eq }
{}
