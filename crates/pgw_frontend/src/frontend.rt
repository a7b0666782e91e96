//! All messages of a client.
ghost use Rattle.std.specs.Prelude.{◌≡◌, ◌++◌, ℕ, List, IfOk, IfSome, OnOk, Ok, Some};
ghost use Rattle.pgw_types.specs.declared.context.ProtocolVersion.{ProtocolVersion as TheVersion};
ghost use Rattle.pgw_types.specs.declared.context.DecodeContext.{DecodeContext as TheContext};
ghost use Rattle.pgw_wire.specs.Framing.{Appends, Decodes};
ghost use Rattle.pgw_frontend.specs.Frontend.{encoding, negotiation_front, first_front, frontend_by, typed_front, frontend_front, is_extended};
ghost use Rattle.pgw_frontend.specs.FrontendSpells.{SpellsFrontend, AwaitsFrontend, as_read, SuitsFrontend};
ghost use Rattle.pgw_frontend.specs.declared.frontend.PgWireFrontendMessage.{PgWireFrontendMessage as TheMessage};

use crate::sound::is_sound;
use bytes::BytesMut;
use pgw_control::cancel::CancelRequest;
use pgw_control::gss_enc_request::GssEncRequest;
use pgw_control::ssl_request::SslRequest;
use pgw_control::terminate::Terminate;
use pgw_copy::copy::{CopyData, CopyDone, CopyFail};
use pgw_ext::extendedquery::{Bind, Close, Describe, Execute, Flush, Parse, PortalSuspended, Sync};
use pgw_query::simplequery::Query;
use pgw_startup::password::PasswordMessageFamily;
use pgw_startup::startup::Startup;
use pgw_types::context::DecodeContext;
use pgw_types::error::{PgWireError, PgWireResult};
use pgw_types::listed::Duplicate;
use pgw_types::memory::OutOfMemory;
use pgw_wire::buffer::Buffer;
use pgw_wire::kinds::{decode_as, duplicate_as};
use pgw_wire::message::Message;
use std::alloc::Global;

/// What a client asks for before its first message.
#[derive(Debug, Drop, PartialEq, Eq)]
pub enum SslNegotiationMetaMessage {
    PostgresSsl(SslRequest),
    PostgresGss(GssEncRequest),
    /// No encryption: the bytes at the front begin a first message.
    None,
}

impl Duplicate for SslNegotiationMetaMessage {
    fn duplicate(&self) -> Result<SslNegotiationMetaMessage, OutOfMemory> {
        match self {
            SslNegotiationMetaMessage::PostgresSsl(x) => Ok(SslNegotiationMetaMessage::PostgresSsl(
                *x,
            )),
            SslNegotiationMetaMessage::PostgresGss(x) => Ok(SslNegotiationMetaMessage::PostgresGss(
                *x,
            )),
            SslNegotiationMetaMessage::None => Ok(SslNegotiationMetaMessage::None),
        }
    }
}

/// A message of a client.
#[derive(Debug, Drop, PartialEq, Eq)]
pub enum PgWireFrontendMessage {
    SslNegotiation(SslNegotiationMetaMessage),
    Startup(Startup),
    CancelRequest(CancelRequest),
    PasswordMessageFamily(PasswordMessageFamily),
    /// Of a client this is only written: its byte is no type byte of a client's message.
    PortalSuspended(PortalSuspended),
    Query(Query),
    Parse(Parse),
    Bind(Bind),
    Close(Close),
    Describe(Describe),
    Execute(Execute),
    Flush(Flush),
    Sync(Sync),
    Terminate(Terminate),
    CopyData(CopyData),
    CopyDone(CopyDone),
    CopyFail(CopyFail),
}

impl PgWireFrontendMessage {
    /// Takes the message at the front, if it is whole, which the two flags of the context name. A refusal leaves the buffer, as does want of memory.
    pub fn decode(
        alloc: Global,
        buf: &mut BytesMut,
        ctx: &DecodeContext,
    ) -> PgWireResult<Option<PgWireFrontendMessage>>
        // A message that is read is spelled by the bytes that were taken.
        ensures found { IfOk result (λ o. IfSome o
            (λ m. (g : List ℕ) × (buf.old.items ≡ g ++ buf.new.items)
            × SpellsFrontend ctx.now.protocol_version m g)) }
        // What is spelled at the front is read, in its phase, unless memory runs out.
        ensures only { (m : TheMessage) (g rest : List ℕ) → AwaitsFrontend ctx.now m →
            SpellsFrontend ctx.now.protocol_version m g → buf.old.items ≡ g ++ rest →
            Decodes result buf.old.items buf.new.items (Ok (Some (m, rest))) }
        // Which message it is or which refusal, and when nothing is whole yet.
        ensures exact { Decodes result buf.old.items buf.new.items
            (frontend_front ctx.now buf.old.items) }
    {
        decode_exact(alloc, buf, ctx)
    }

    /// As `decode`, at the front of any buffer. What the message keeps of its bytes is a part of the buffer's: a cut of
    /// octets, which copies nothing and shares their block.
    pub fn decode_from<B: Buffer>(
        alloc: Global,
        buf: &mut B,
        ctx: &DecodeContext,
    ) -> PgWireResult<Option<PgWireFrontendMessage>>
        // A message that is read is spelled by the bytes that were taken.
        ensures found { IfOk result (λ o. IfSome o (λ m. (g : List ℕ)
            × (B.held buf.old ≡ g ++ B.held buf.new)
            × SpellsFrontend ctx.now.protocol_version m g)) }
        // What is spelled at the front is read, in its phase, unless memory runs out.
        ensures only { (m : TheMessage) (g rest : List ℕ) → AwaitsFrontend ctx.now m →
            SpellsFrontend ctx.now.protocol_version m g → B.held buf.old ≡ g ++ rest →
            Decodes result (B.held buf.old) (B.held buf.new) (Ok (Some (m, rest))) }
        // Which message it is or which refusal, and when nothing is whole yet.
        ensures exact { Decodes result (B.held buf.old) (B.held buf.new)
            (frontend_front ctx.now (B.held buf.old)) }
    {
        decode_exact(alloc, buf, ctx)
    }

    /// Appends the whole message, or nothing.
    pub fn encode(&self, buf: &mut BytesMut) -> PgWireResult<()>
        // What is written spells what comes back of the message, under each version that its key suits.
        ensures spelled { OnOk result ((v : TheVersion) → SuitsFrontend v self.now → (g : List ℕ)
            × (buf.new.items ≡ buf.old.items ++ g) × SpellsFrontend v (as_read self.now) g) }
        // In a context that awaits the message it comes back, whatever follows it, and what follows is left.
        ensures read_again { OnOk result ((ctx : TheContext) (rest : List ℕ) →
            SuitsFrontend ctx.protocol_version self.now → AwaitsFrontend ctx (as_read self.now) →
            (g : List ℕ) × (buf.new.items ≡ buf.old.items ++ g)
            × (frontend_front ctx (g ++ rest) ≡ Ok (Some (as_read self.now, rest)))) }
        // Which bytes are written, or which refusal it is.
        ensures exact { Appends result buf.old.items buf.new.items (encoding self.now) }
    {
        prove!(is_sound(self));
        self.encode_exact(buf)
    }

    #[tactic(auto, unfolding(crate::specs::Frontend::encoding))]
    fn encode_exact(&self, buf: &mut BytesMut) -> PgWireResult<()>
        ensures { Appends result buf.old.items buf.new.items (encoding self.now) }
    {
        match self {
            PgWireFrontendMessage::SslNegotiation(m) => match m {
                SslNegotiationMetaMessage::PostgresSsl(m) => m.encode(buf),
                SslNegotiationMetaMessage::PostgresGss(m) => m.encode(buf),
                SslNegotiationMetaMessage::None => Ok(()),
            },
            PgWireFrontendMessage::Startup(m) => m.encode(buf),
            PgWireFrontendMessage::CancelRequest(m) => m.encode(buf),
            PgWireFrontendMessage::PasswordMessageFamily(m) => m.encode(buf),
            PgWireFrontendMessage::PortalSuspended(m) => m.encode(buf),
            PgWireFrontendMessage::Query(m) => m.encode(buf),
            PgWireFrontendMessage::Parse(m) => m.encode(buf),
            PgWireFrontendMessage::Bind(m) => m.encode(buf),
            PgWireFrontendMessage::Close(m) => m.encode(buf),
            PgWireFrontendMessage::Describe(m) => m.encode(buf),
            PgWireFrontendMessage::Execute(m) => m.encode(buf),
            PgWireFrontendMessage::Flush(m) => m.encode(buf),
            PgWireFrontendMessage::Sync(m) => m.encode(buf),
            PgWireFrontendMessage::Terminate(m) => m.encode(buf),
            PgWireFrontendMessage::CopyData(m) => m.encode(buf),
            PgWireFrontendMessage::CopyDone(m) => m.encode(buf),
            PgWireFrontendMessage::CopyFail(m) => m.encode(buf),
        }
    }

    /// Whether the message is one of the extended query.
    pub fn is_extended_query(&self) -> bool
        ensures { result ≡ is_extended self.now }
    {
        match self {
            PgWireFrontendMessage::Parse(_)
            | PgWireFrontendMessage::Bind(_)
            | PgWireFrontendMessage::Close(_)
            | PgWireFrontendMessage::Describe(_)
            | PgWireFrontendMessage::Execute(_)
            | PgWireFrontendMessage::PortalSuspended(_)
            | PgWireFrontendMessage::Flush(_)
            | PgWireFrontendMessage::Sync(_) => true,
            _ => false,
        }
    }
}

// A request for encryption, or that there is none.
#[tactic(auto, unfolding(crate::specs::Frontend::negotiation_front))]
fn decode_negotiation<B: Buffer>(
    alloc: Global,
    buf: &mut B,
    ctx: &DecodeContext,
) -> PgWireResult<Option<PgWireFrontendMessage>>
    ensures { Decodes result (B.held buf.old) (B.held buf.new)
        (negotiation_front ctx.now (B.held buf.old)) }
{
    if buf.bytes().len() < 8 {
        return Ok(None);
    }
    if SslRequest::is_ssl_request_packet(buf.bytes()) {
        return Ok(SslRequest::decode_from(alloc, buf, ctx)?.map(|m| {
            PgWireFrontendMessage::SslNegotiation(SslNegotiationMetaMessage::PostgresSsl(m))
        }));
    }
    if GssEncRequest::is_gss_enc_request_packet(buf.bytes()) {
        return Ok(GssEncRequest::decode_from(alloc, buf, ctx)?.map(|m| {
            PgWireFrontendMessage::SslNegotiation(SslNegotiationMetaMessage::PostgresGss(m))
        }));
    }
    Ok(Some(PgWireFrontendMessage::SslNegotiation(SslNegotiationMetaMessage::None)))
}

// A Startup, or a CancelRequest in its place.
#[tactic(auto, unfolding(crate::specs::Frontend::first_front))]
fn decode_first<B: Buffer>(
    alloc: Global,
    buf: &mut B,
    ctx: &DecodeContext,
) -> PgWireResult<Option<PgWireFrontendMessage>>
    ensures { Decodes result (B.held buf.old) (B.held buf.new)
        (first_front ctx.now (B.held buf.old)) }
{
    if buf.bytes().len() < 8 {
        return Ok(None);
    }
    if CancelRequest::is_cancel_request_packet(buf.bytes()) {
        decode_as(alloc, buf, ctx, PgWireFrontendMessage::CancelRequest)
    } else {
        decode_as(alloc, buf, ctx, PgWireFrontendMessage::Startup)
    }
}

// A message with a type byte.
#[tactic(auto, unfolding(crate::specs::Frontend::typed_front))]
fn decode_typed<B: Buffer>(
    alloc: Global,
    buf: &mut B,
    ctx: &DecodeContext,
) -> PgWireResult<Option<PgWireFrontendMessage>>
    ensures { Decodes result (B.held buf.old) (B.held buf.new)
        (typed_front ctx.now (B.held buf.old)) }
{
    if buf.bytes().len() < 2 {
        return Ok(None);
    }
    let byte = buf.bytes()[0];
    decode_by(byte, alloc, buf, ctx)
}

// By the type byte.
fn decode_by<B: Buffer>(
    byte: u8,
    alloc: Global,
    buf: &mut B,
    ctx: &DecodeContext,
) -> PgWireResult<Option<PgWireFrontendMessage>>
    ensures { Decodes result (B.held buf.old) (B.held buf.new)
        (frontend_by byte ctx.now (B.held buf.old)) }
{
    match byte {
        b'p' => decode_as(
            alloc,
            buf,
            ctx,
            PgWireFrontendMessage::PasswordMessageFamily,
        ),
        b'Q' => decode_as(alloc, buf, ctx, PgWireFrontendMessage::Query),
        b'P' => decode_as(alloc, buf, ctx, PgWireFrontendMessage::Parse),
        b'B' => decode_as(alloc, buf, ctx, PgWireFrontendMessage::Bind),
        b'C' => decode_as(alloc, buf, ctx, PgWireFrontendMessage::Close),
        b'D' => decode_as(alloc, buf, ctx, PgWireFrontendMessage::Describe),
        b'E' => decode_as(alloc, buf, ctx, PgWireFrontendMessage::Execute),
        b'H' => decode_as(alloc, buf, ctx, PgWireFrontendMessage::Flush),
        b'S' => decode_as(alloc, buf, ctx, PgWireFrontendMessage::Sync),
        b'X' => decode_as(alloc, buf, ctx, PgWireFrontendMessage::Terminate),
        b'd' => decode_as(alloc, buf, ctx, PgWireFrontendMessage::CopyData),
        b'c' => decode_as(alloc, buf, ctx, PgWireFrontendMessage::CopyDone),
        b'f' => decode_as(alloc, buf, ctx, PgWireFrontendMessage::CopyFail),
        _ => Err(PgWireError::InvalidMessageType(byte)),
    }
}

// Takes the message at the front, if it is whole.
#[tactic(auto, unfolding(crate::specs::Frontend::frontend_front))]
fn decode_exact<B: Buffer>(
    alloc: Global,
    buf: &mut B,
    ctx: &DecodeContext,
) -> PgWireResult<Option<PgWireFrontendMessage>>
    ensures { Decodes result (B.held buf.old) (B.held buf.new)
        (frontend_front ctx.now (B.held buf.old)) }
{
    if ctx.awaiting_frontend_ssl {
        decode_negotiation(alloc, buf, ctx)
    } else if ctx.awaiting_frontend_startup {
        decode_first(alloc, buf, ctx)
    } else {
        decode_typed(alloc, buf, ctx)
    }
}

impl Duplicate for PgWireFrontendMessage {
    fn duplicate(&self) -> Result<PgWireFrontendMessage, OutOfMemory> {
        match self {
            Self::SslNegotiation(x) => duplicate_as(x, Self::SslNegotiation),
            Self::Startup(x) => duplicate_as(x, Self::Startup),
            Self::CancelRequest(x) => duplicate_as(x, Self::CancelRequest),
            Self::PasswordMessageFamily(x) => duplicate_as(x, Self::PasswordMessageFamily),
            Self::PortalSuspended(x) => duplicate_as(x, Self::PortalSuspended),
            Self::Query(x) => duplicate_as(x, Self::Query),
            Self::Parse(x) => duplicate_as(x, Self::Parse),
            Self::Bind(x) => duplicate_as(x, Self::Bind),
            Self::Close(x) => duplicate_as(x, Self::Close),
            Self::Describe(x) => duplicate_as(x, Self::Describe),
            Self::Execute(x) => duplicate_as(x, Self::Execute),
            Self::Flush(x) => duplicate_as(x, Self::Flush),
            Self::Sync(x) => duplicate_as(x, Self::Sync),
            Self::Terminate(x) => duplicate_as(x, Self::Terminate),
            Self::CopyData(x) => duplicate_as(x, Self::CopyData),
            Self::CopyDone(x) => duplicate_as(x, Self::CopyDone),
            Self::CopyFail(x) => duplicate_as(x, Self::CopyFail),
        }
    }
}
