//! What a client reads with and writes with.
ghost use Rattle.std.specs.Prelude.{◌≡◌, ◌++◌, ℕ, List, IfOk, IfSome, OnOk, OnErr, Ok, Some};
ghost use Rattle.pgw_types.specs.Versions.{first_context};
ghost use Rattle.pgw_wire.specs.Framing.{Decodes, Appends};
ghost use Rattle.pgw_backend.specs.Backend.{backend_front};
ghost use Rattle.pgw_backend.specs.Front.{SpellsIn};
ghost use Rattle.pgw_backend.specs.declared.backend.PgWireBackendMessage.{PgWireBackendMessage as TheMessage};
ghost use Rattle.pgw_frontend.specs.Frontend.{encoding};
ghost use Rattle.pgw_codec.specs.Phase.{phase_behind, with_codec_version};

use bytes::BytesMut;
use pgw_backend::backend::PgWireBackendMessage;
use pgw_frontend::frontend::{PgWireFrontendMessage, SslNegotiationMetaMessage};
use pgw_types::context::{DecodeContext, ProtocolVersion};
use pgw_types::error::PgWireResult;
use pgw_wire::buffer::Buffer;
use std::alloc::Global;
use std::marker::Model;

/// Reads what a server sends and writes what a client sends. A contract sees the context in which it reads.
#[derive(Debug, Drop)]
pub struct PgWireMessageClientCodec {
    decode_context: DecodeContext,
}

impl Model for PgWireMessageClientCodec {
    ghost use Rattle.pgw_types.specs.declared.context.DecodeContext.{DecodeContext as Context};

    ghost Value = { Context };

    ghost view = { λ c. c.decode_context };
}

impl PgWireMessageClientCodec {
    pub fn new(version: ProtocolVersion) -> PgWireMessageClientCodec
        ensures { result ≡ first_context version }
    {
        PgWireMessageClientCodec {
            decode_context: DecodeContext::new(version),
        }
    }

    /// The version under which the next message is read.
    pub fn protocol_version(&self) -> ProtocolVersion
        ensures { result ≡ self.now.protocol_version }
    {
        self.decode_context.protocol_version
    }

    /// For the version that a server offers: no message that is read sets it.
    pub fn set_protocol_version(&mut self, version: ProtocolVersion)
        ensures { self.new ≡ with_codec_version version self.old }
    {
        self.decode_context.protocol_version = version;
    }

    /// Takes the message at the front, if it is whole. A refusal leaves the buffer, as does want of memory.
    pub fn decode(
        &mut self,
        alloc: Global,
        src: &mut BytesMut,
    ) -> PgWireResult<Option<PgWireBackendMessage>>
        // A message that is read is spelled by the bytes that were taken.
        ensures found { IfOk result (λ o. IfSome o
            (λ m. (g : List ℕ) × (src.old.items ≡ g ++ src.new.items) × SpellsIn self.old m g)) }
        // What is spelled at the front is read, unless memory runs out.
        ensures only { (m : TheMessage) (g rest : List ℕ) → SpellsIn self.old m g → src.old.items
            ≡ g ++ rest → Decodes result src.old.items src.new.items (Ok (Some (m, rest))) }
        // Which message it is or which refusal, and when nothing is whole yet.
        ensures exact { Decodes result src.old.items src.new.items
            (backend_front self.old src.old.items) }
        ensures kept { self.new ≡ self.old }
    {
        PgWireBackendMessage::decode(alloc, src, &self.decode_context)
    }

    /// As `decode`, at the front of any buffer, such as octets, which a message keeps cuts of.
    pub fn decode_from<B: Buffer>(
        &mut self,
        alloc: Global,
        src: &mut B,
    ) -> PgWireResult<Option<PgWireBackendMessage>>
        // A message that is read is spelled by the bytes that were taken.
        ensures found { IfOk result (λ o. IfSome o
            (λ m. (g : List ℕ) × (B.held src.old ≡ g ++ B.held src.new) × SpellsIn self.old m g)) }
        // What is spelled at the front is read, unless memory runs out.
        ensures only { (m : TheMessage) (g rest : List ℕ) → SpellsIn self.old m g → B.held src.old
            ≡ g ++ rest → Decodes result (B.held src.old) (B.held src.new) (Ok (Some (m, rest))) }
        // Which message it is or which refusal, and when nothing is whole yet.
        ensures exact { Decodes result (B.held src.old) (B.held src.new)
            (backend_front self.old (B.held src.old)) }
        ensures kept { self.new ≡ self.old }
    {
        PgWireBackendMessage::decode_from(alloc, src, &self.decode_context)
    }

    /// Appends the whole message, or nothing. Behind a request for encryption its answer is awaited, until a message that
    /// is no such request is written.
    pub fn encode(&mut self, item: PgWireFrontendMessage, dst: &mut BytesMut) -> PgWireResult<()>
        // Which bytes are written, or which refusal it is.
        ensures exact { Appends result dst.old.items dst.new.items (encoding item) }
        ensures phase { OnOk result (self.new ≡ phase_behind item self.old) }
        ensures kept { OnErr result (self.new ≡ self.old) }
    {
        let written = self.write(&item, dst);
        drop(item);
        written
    }

    // As `encode`, of a message that stays.
    fn write(&mut self, item: &PgWireFrontendMessage, dst: &mut BytesMut) -> PgWireResult<()>
        ensures exact { Appends result dst.old.items dst.new.items (encoding item.now) }
        ensures phase { OnOk result (self.new ≡ phase_behind item.now self.old) }
        ensures kept { OnErr result (self.new ≡ self.old) }
    {
        item.encode(dst)?;
        self.pass(item);
        Ok(())
    }

    // What a message that was written makes of the phase.
    fn pass(&mut self, item: &PgWireFrontendMessage)
        ensures { self.new ≡ phase_behind item.now self.old }
    {
        match item {
            PgWireFrontendMessage::SslNegotiation(SslNegotiationMetaMessage::PostgresSsl(_)) => {
                self.decode_context.awaiting_backend_ssl_response = true;
            }
            PgWireFrontendMessage::SslNegotiation(SslNegotiationMetaMessage::PostgresGss(_)) => {
                self.decode_context.awaiting_backend_gss_response = true;
            }
            _ => {
                self.decode_context.awaiting_backend_ssl_response = false;
                self.decode_context.awaiting_backend_gss_response = false;
            }
        }
    }
}
