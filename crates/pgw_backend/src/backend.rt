//! All messages of a server.
ghost use Rattle.std.specs.Prelude.{◌≡◌, ◌++◌, ℕ, List, IfOk, IfSome, OnOk, Ok, Some};
ghost use Rattle.pgw_wire.specs.Framing.{Decodes, Appends};
ghost use Rattle.pgw_backend.specs.Backend.{copy_by, extended_by, query_by, backend_by, backend_typed_front, backend_front, backend_encoding};
ghost use Rattle.pgw_backend.specs.Front.{AwaitsBackend, SpellsIn};
ghost use Rattle.pgw_backend.specs.Texts.{Suits};
ghost use Rattle.pgw_types.specs.declared.context.DecodeContext.{DecodeContext as TheContext};
ghost use Rattle.pgw_backend.specs.declared.backend.PgWireBackendMessage.{PgWireBackendMessage as TheMessage};

use crate::sound::is_sound;
use bytes::BytesMut;
use pgw_copy::copy::{
    CopyBothResponse, CopyData, CopyDone, CopyFail, CopyInResponse, CopyOutResponse,
};
use pgw_ext::extendedquery::{BindComplete, CloseComplete, ParseComplete, PortalSuspended};
use pgw_query::data::{DataRow, RowDescription};
use pgw_query::description::{NoData, ParameterDescription};
use pgw_query::notification::NotificationResponse;
use pgw_query::response::{
    CommandComplete, EmptyQueryResponse, ErrorResponse, NoticeResponse, ReadyForQuery,
};
use pgw_startup::authentication::Authentication;
use pgw_startup::backend_key_data::BackendKeyData;
use pgw_startup::negotiate::NegotiateProtocolVersion;
use pgw_startup::parameter_status::ParameterStatus;
use pgw_startup::response::{GssEncResponse, SslResponse};
use pgw_types::context::DecodeContext;
use pgw_types::error::{PgWireError, PgWireResult};
use pgw_types::listed::Duplicate;
use pgw_types::memory::OutOfMemory;
use pgw_wire::buffer::Buffer;
use pgw_wire::kinds::{decode_as, duplicate_as};
use pgw_wire::message::Message;
use std::alloc::Global;

/// A message of a server.
#[derive(Debug, Drop, PartialEq, Eq)]
pub enum PgWireBackendMessage {
    SslResponse(SslResponse),
    GssEncResponse(GssEncResponse),
    Authentication(Authentication),
    ParameterStatus(ParameterStatus),
    BackendKeyData(BackendKeyData),
    NegotiateProtocolVersion(NegotiateProtocolVersion),
    ParseComplete(ParseComplete),
    BindComplete(BindComplete),
    CloseComplete(CloseComplete),
    PortalSuspended(PortalSuspended),
    EmptyQueryResponse(EmptyQueryResponse),
    NoData(NoData),
    CommandComplete(CommandComplete),
    ReadyForQuery(ReadyForQuery),
    ErrorResponse(ErrorResponse),
    NoticeResponse(NoticeResponse),
    NotificationResponse(NotificationResponse),
    ParameterDescription(ParameterDescription),
    RowDescription(RowDescription),
    DataRow(DataRow),
    CopyData(CopyData),
    CopyDone(CopyDone),
    CopyFail(CopyFail),
    CopyInResponse(CopyInResponse),
    CopyOutResponse(CopyOutResponse),
    CopyBothResponse(CopyBothResponse),
}

impl PgWireBackendMessage {
    /// Takes the message at the front, if it is whole. A refusal leaves the buffer, as does want of memory.
    pub fn decode(
        alloc: Global,
        buf: &mut BytesMut,
        ctx: &DecodeContext,
    ) -> PgWireResult<Option<PgWireBackendMessage>>
        // A message that is read is spelled by the bytes that were taken.
        ensures found { IfOk result (λ o. IfSome o
            (λ m. (g : List ℕ) × (buf.old.items ≡ g ++ buf.new.items) × SpellsIn ctx.now m g)) }
        // What is spelled at the front is read, unless memory runs out.
        ensures only { (m : TheMessage) (g rest : List ℕ) → SpellsIn ctx.now m g → buf.old.items ≡ g
            ++ rest → Decodes result buf.old.items buf.new.items (Ok (Some (m, rest))) }
        // Which message it is or which refusal, and when nothing is whole yet.
        ensures exact { Decodes result buf.old.items buf.new.items
            (backend_front ctx.now buf.old.items) }
    {
        Self::decode_exact(alloc, buf, ctx)
    }

    /// As `decode`, at the front of any buffer. What the message keeps of its bytes is a part of the buffer's: a cut of octets, which copies nothing and shares their block.
    pub fn decode_from<B: Buffer>(
        alloc: Global,
        buf: &mut B,
        ctx: &DecodeContext,
    ) -> PgWireResult<Option<PgWireBackendMessage>>
        // A message that is read is spelled by the bytes that were taken.
        ensures found { IfOk result (λ o. IfSome o
            (λ m. (g : List ℕ) × (B.held buf.old ≡ g ++ B.held buf.new) × SpellsIn ctx.now m g)) }
        // What is spelled at the front is read, unless memory runs out.
        ensures only { (m : TheMessage) (g rest : List ℕ) → SpellsIn ctx.now m g → B.held buf.old
            ≡ g ++ rest → Decodes result (B.held buf.old) (B.held buf.new) (Ok (Some (m, rest))) }
        // Which message it is or which refusal, and when nothing is whole yet.
        ensures exact { Decodes result (B.held buf.old) (B.held buf.new)
            (backend_front ctx.now (B.held buf.old)) }
    {
        Self::decode_exact(alloc, buf, ctx)
    }

    // Takes the message at the front, if it is whole.
    #[tactic(auto, unfolding(crate::specs::Backend::backend_front))]
    fn decode_exact<B: Buffer>(
        alloc: Global,
        buf: &mut B,
        ctx: &DecodeContext,
    ) -> PgWireResult<Option<PgWireBackendMessage>>
        ensures { Decodes result (B.held buf.old) (B.held buf.new)
            (backend_front ctx.now (B.held buf.old)) }
    {
        if ctx.awaiting_backend_ssl_response {
            return decode_as(alloc, buf, ctx, Self::SslResponse);
        }
        if ctx.awaiting_backend_gss_response {
            return decode_as(alloc, buf, ctx, Self::GssEncResponse);
        }
        Self::decode_typed(alloc, buf, ctx)
    }

    // As `decode_exact`, in the phase in which each message has a type byte.
    fn decode_typed<B: Buffer>(
        alloc: Global,
        buf: &mut B,
        ctx: &DecodeContext,
    ) -> PgWireResult<Option<PgWireBackendMessage>>
        ensures { Decodes result (B.held buf.old) (B.held buf.new)
            (backend_typed_front ctx.now (B.held buf.old)) }
    {
        let bytes = buf.bytes();
        if bytes.len() < 2 {
            return Ok(None);
        }
        let byte = bytes[0];
        Self::decode_backend(byte, alloc, buf, ctx)
    }

    // By the type byte: the login, and all others.
    fn decode_backend<B: Buffer>(
        byte: u8,
        alloc: Global,
        buf: &mut B,
        ctx: &DecodeContext,
    ) -> PgWireResult<Option<PgWireBackendMessage>>
        ensures { Decodes result (B.held buf.old) (B.held buf.new)
            (backend_by byte ctx.now (B.held buf.old)) }
    {
        match byte {
            b'R' => decode_as(alloc, buf, ctx, Self::Authentication),
            b'S' => decode_as(alloc, buf, ctx, Self::ParameterStatus),
            b'K' => decode_as(alloc, buf, ctx, Self::BackendKeyData),
            b'v' => decode_as(alloc, buf, ctx, Self::NegotiateProtocolVersion),
            _ => Self::decode_query(byte, alloc, buf, ctx),
        }
    }

    // Queries, and what follows.
    fn decode_query<B: Buffer>(
        byte: u8,
        alloc: Global,
        buf: &mut B,
        ctx: &DecodeContext,
    ) -> PgWireResult<Option<PgWireBackendMessage>>
        ensures { Decodes result (B.held buf.old) (B.held buf.new)
            (query_by byte ctx.now (B.held buf.old)) }
    {
        match byte {
            b'C' => decode_as(alloc, buf, ctx, Self::CommandComplete),
            b'I' => decode_as(alloc, buf, ctx, Self::EmptyQueryResponse),
            b'Z' => decode_as(alloc, buf, ctx, Self::ReadyForQuery),
            b'E' => decode_as(alloc, buf, ctx, Self::ErrorResponse),
            b'N' => decode_as(alloc, buf, ctx, Self::NoticeResponse),
            b'A' => decode_as(alloc, buf, ctx, Self::NotificationResponse),
            b'T' => decode_as(alloc, buf, ctx, Self::RowDescription),
            b'D' => decode_as(alloc, buf, ctx, Self::DataRow),
            _ => Self::decode_extended(byte, alloc, buf, ctx),
        }
    }

    // The extended query, and what follows.
    fn decode_extended<B: Buffer>(
        byte: u8,
        alloc: Global,
        buf: &mut B,
        ctx: &DecodeContext,
    ) -> PgWireResult<Option<PgWireBackendMessage>>
        ensures { Decodes result (B.held buf.old) (B.held buf.new)
            (extended_by byte ctx.now (B.held buf.old)) }
    {
        match byte {
            b'1' => decode_as(alloc, buf, ctx, Self::ParseComplete),
            b'2' => decode_as(alloc, buf, ctx, Self::BindComplete),
            b'3' => decode_as(alloc, buf, ctx, Self::CloseComplete),
            b's' => decode_as(alloc, buf, ctx, Self::PortalSuspended),
            b'n' => decode_as(alloc, buf, ctx, Self::NoData),
            b't' => decode_as(alloc, buf, ctx, Self::ParameterDescription),
            _ => Self::decode_copy(byte, alloc, buf, ctx),
        }
    }

    // COPY.
    fn decode_copy<B: Buffer>(
        byte: u8,
        alloc: Global,
        buf: &mut B,
        ctx: &DecodeContext,
    ) -> PgWireResult<Option<PgWireBackendMessage>>
        ensures { Decodes result (B.held buf.old) (B.held buf.new)
            (copy_by byte ctx.now (B.held buf.old)) }
    {
        match byte {
            b'd' => decode_as(alloc, buf, ctx, Self::CopyData),
            b'c' => decode_as(alloc, buf, ctx, Self::CopyDone),
            b'f' => decode_as(alloc, buf, ctx, Self::CopyFail),
            b'G' => decode_as(alloc, buf, ctx, Self::CopyInResponse),
            b'H' => decode_as(alloc, buf, ctx, Self::CopyOutResponse),
            b'W' => decode_as(alloc, buf, ctx, Self::CopyBothResponse),
            _ => Err(PgWireError::InvalidMessageType(byte)),
        }
    }
}

impl PgWireBackendMessage {
    /// Appends the whole message, or nothing.
    pub fn encode(&self, buf: &mut BytesMut) -> PgWireResult<()>
        // What is written spells the message, in each context that awaits it and whose version its key suits.
        ensures spelled { OnOk result ((ctx : TheContext) → Suits ctx.protocol_version self.now →
            AwaitsBackend ctx self.now → (g : List ℕ) × (buf.new.items ≡ buf.old.items ++ g)
            × SpellsIn ctx self.now g) }
        // What is written is read again as the message in these contexts, whatever follows it, and that is left.
        ensures read_again { OnOk result ((ctx : TheContext) (rest : List ℕ) →
            Suits ctx.protocol_version self.now → AwaitsBackend ctx self.now → (g : List ℕ)
            × (buf.new.items ≡ buf.old.items ++ g)
            × (backend_front ctx (g ++ rest) ≡ Ok (Some (self.now, rest)))) }
        // Which bytes are written, or which refusal it is.
        ensures exact { Appends result buf.old.items buf.new.items (backend_encoding self.now) }
    {
        prove!(is_sound(self));
        self.encode_exact(buf)
    }

    #[tactic(auto, unfolding(crate::specs::Backend::backend_encoding))]
    fn encode_exact(&self, buf: &mut BytesMut) -> PgWireResult<()>
        ensures { Appends result buf.old.items buf.new.items (backend_encoding self.now) }
    {
        match self {
            Self::SslResponse(m) => m.encode(buf),
            Self::GssEncResponse(m) => m.encode(buf),
            Self::Authentication(m) => m.encode(buf),
            Self::ParameterStatus(m) => m.encode(buf),
            Self::BackendKeyData(m) => m.encode(buf),
            Self::NegotiateProtocolVersion(m) => m.encode(buf),
            Self::ParseComplete(m) => m.encode(buf),
            Self::BindComplete(m) => m.encode(buf),
            Self::CloseComplete(m) => m.encode(buf),
            Self::PortalSuspended(m) => m.encode(buf),
            Self::EmptyQueryResponse(m) => m.encode(buf),
            Self::NoData(m) => m.encode(buf),
            Self::CommandComplete(m) => m.encode(buf),
            Self::ReadyForQuery(m) => m.encode(buf),
            Self::ErrorResponse(m) => m.encode(buf),
            Self::NoticeResponse(m) => m.encode(buf),
            Self::NotificationResponse(m) => m.encode(buf),
            Self::ParameterDescription(m) => m.encode(buf),
            Self::RowDescription(m) => m.encode(buf),
            Self::DataRow(m) => m.encode(buf),
            Self::CopyData(m) => m.encode(buf),
            Self::CopyDone(m) => m.encode(buf),
            Self::CopyFail(m) => m.encode(buf),
            Self::CopyInResponse(m) => m.encode(buf),
            Self::CopyOutResponse(m) => m.encode(buf),
            Self::CopyBothResponse(m) => m.encode(buf),
        }
    }
}

impl Duplicate for PgWireBackendMessage {
    fn duplicate(&self) -> Result<PgWireBackendMessage, OutOfMemory> {
        match self {
            Self::SslResponse(m) => duplicate_as(m, Self::SslResponse),
            Self::GssEncResponse(m) => duplicate_as(m, Self::GssEncResponse),
            Self::Authentication(m) => duplicate_as(m, Self::Authentication),
            Self::ParameterStatus(m) => duplicate_as(m, Self::ParameterStatus),
            Self::BackendKeyData(m) => duplicate_as(m, Self::BackendKeyData),
            Self::NegotiateProtocolVersion(m) => duplicate_as(m, Self::NegotiateProtocolVersion),
            Self::ParseComplete(m) => duplicate_as(m, Self::ParseComplete),
            Self::BindComplete(m) => duplicate_as(m, Self::BindComplete),
            Self::CloseComplete(m) => duplicate_as(m, Self::CloseComplete),
            Self::PortalSuspended(m) => duplicate_as(m, Self::PortalSuspended),
            Self::EmptyQueryResponse(m) => duplicate_as(m, Self::EmptyQueryResponse),
            Self::NoData(m) => duplicate_as(m, Self::NoData),
            Self::CommandComplete(m) => duplicate_as(m, Self::CommandComplete),
            Self::ReadyForQuery(m) => duplicate_as(m, Self::ReadyForQuery),
            Self::ErrorResponse(m) => duplicate_as(m, Self::ErrorResponse),
            Self::NoticeResponse(m) => duplicate_as(m, Self::NoticeResponse),
            Self::NotificationResponse(m) => duplicate_as(m, Self::NotificationResponse),
            Self::ParameterDescription(m) => duplicate_as(m, Self::ParameterDescription),
            Self::RowDescription(m) => duplicate_as(m, Self::RowDescription),
            Self::DataRow(m) => duplicate_as(m, Self::DataRow),
            Self::CopyData(m) => duplicate_as(m, Self::CopyData),
            Self::CopyDone(m) => duplicate_as(m, Self::CopyDone),
            Self::CopyFail(m) => duplicate_as(m, Self::CopyFail),
            Self::CopyInResponse(m) => duplicate_as(m, Self::CopyInResponse),
            Self::CopyOutResponse(m) => duplicate_as(m, Self::CopyOutResponse),
            Self::CopyBothResponse(m) => duplicate_as(m, Self::CopyBothResponse),
        }
    }
}
