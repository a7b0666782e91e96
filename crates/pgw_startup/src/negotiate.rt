//! The version that a server offers.
ghost use Rattle.std.specs.Prelude.{◌≡◌, ◌||◌};
ghost use Rattle.std.specs.Int.{w32};
ghost use Rattle.std.specs.List.{list_any};
ghost use Rattle.pgw_wire.specs.declared.framing.Framing.TheVariants.{Typed};
ghost use Rattle.pgw_wire.specs.Reading.{Reads, text_at};
ghost use Rattle.pgw_wire.specs.Formats.{counted_at};
ghost use Rattle.pgw_wire.specs.Writing.{has_zero as holds_zero, refused_if};
ghost use Rattle.pgw_startup.specs.Login.{negotiate_of, negotiate, is_options_refused};
ghost use Rattle.pgw_startup.specs.Negotiate.{known_version as version_known, negotiated_version as version_offered};
ghost use Rattle.pgw_wire.specs.declared.limits.TheConstants.{SMALL_BACKEND_LIMIT};

use pgw_types::context::{DecodeContext, ProtocolVersion};
use pgw_types::error::{PgWireError, PgWireResult};
use pgw_types::listed::{Duplicate, Listed};
use pgw_types::memory::OutOfMemory;
use pgw_types::octets::Octets;
use pgw_types::text::Text;
use pgw_wire::field::{list_len, put_list, take_list, unsigned_count};
use pgw_wire::framing::Framing;
use pgw_wire::limits::SMALL_BACKEND_LIMIT;
use pgw_wire::message::Message;
use pgw_wire::reader::FieldReader;
use pgw_wire::writer::{Writer, has_zero, put_i32, put_u32, refused_if};
use std::alloc::Global;

pub const MESSAGE_TYPE_BYTE_NEGOTIATE_PROTOCOL_VERSION: u8 = b'v';

/// The newest version that the server knows, and the options that it does not (NegotiateProtocolVersion).
#[derive(Debug, Drop, PartialEq, Eq)]
pub struct NegotiateProtocolVersion {
    pub newest_minor_protocol: i32,
    pub unsupported_options: Listed<Text>,
}

impl NegotiateProtocolVersion {
    pub fn new(
        newest_minor_protocol: i32,
        unsupported_options: Listed<Text>,
    ) -> NegotiateProtocolVersion
        ensures { result ≡ record {
          newest_minor_protocol = newest_minor_protocol;
          unsupported_options = unsupported_options;
        } }
    {
        NegotiateProtocolVersion {
            newest_minor_protocol,
            unsupported_options,
        }
    }
}

fn any_has_zero(options: &[Text]) -> bool
    ensures { result ≡ list_any holds_zero options.now }
{
    options.iter().any(|t| has_zero(t))
}

fn is_refused(options: &[Text]) -> bool
    ensures { result ≡ is_options_refused options.now }
{
    options.len() > 2147483647 || any_has_zero(options)
}

// A count and as many options.
fn take_options(alloc: Global, reader: &mut FieldReader<'_>) -> PgWireResult<Listed<Text>>
    ensures { Reads result reader.new (counted_at w32 1 text_at reader.old) }
{
    let count = unsigned_count(reader.take_i32()?);
    take_list(alloc, reader, count, 1)
}

impl Message for NegotiateProtocolVersion {
    ghost row_framing = { Typed 118 };

    ghost limit = { SMALL_BACKEND_LIMIT };

    ghost reading = { negotiate_of };

    ghost written = { negotiate };

    ghost fault = { λ m. refused_if (is_options_refused m.unsupported_options) };

    fn framing() -> Framing {
        Framing::Typed(MESSAGE_TYPE_BYTE_NEGOTIATE_PROTOCOL_VERSION)
    }

    fn max_message_length() -> usize {
        SMALL_BACKEND_LIMIT
    }

    #[tactic(auto, unfolding(pgw_wire::specs::Writing::i32, pgw_wire::specs::Writing::u32))]
    fn message_length(&self) -> usize {
        list_len(self.unsupported_options.as_slice(), 12)
    }

    fn refusal(&self) -> Option<PgWireError> {
        let options = self.unsupported_options.as_slice();
        refused_if(is_refused(options))
    }

    fn put_body(&self, out: &mut Writer) -> Result<(), OutOfMemory> {
        let options = self.unsupported_options.as_slice();
        put_i32(out, self.newest_minor_protocol)?;
        put_u32(out, options.len() as u32)?;
        put_list(out, options)
    }

    #[tactic(auto, unfolding(crate::specs::Login::negotiate_of))]
    fn decode_body(
        alloc: Global,
        body: &Octets,
        _ctx: &DecodeContext,
    ) -> PgWireResult<NegotiateProtocolVersion> {
        let mut reader = FieldReader::new(body);
        let newest_minor_protocol = reader.take_i32()?;
        let unsupported_options = take_options(alloc, &mut reader)?;
        reader.finish()?;
        Ok(NegotiateProtocolVersion {
            newest_minor_protocol,
            unsupported_options,
        })
    }
}

fn known_version(major: u32, minor: u32) -> Option<ProtocolVersion>
    ensures { result ≡ version_known major minor }
{
    if major != 3 {
        return None;
    }
    if minor < 2 {
        Some(ProtocolVersion::PROTOCOL3_0)
    } else {
        Some(ProtocolVersion::PROTOCOL3_2)
    }
}

/// The version that both sides know, if there is one.
#[tactic(auto, unfolding(crate::specs::Negotiate::negotiated_version))]
pub fn negotiated_version(message: &NegotiateProtocolVersion) -> Option<ProtocolVersion>
    ensures { result ≡ version_offered message.now.newest_minor_protocol }
{
    let number = message.newest_minor_protocol;
    if number < 0 {
        return None;
    }
    let number = number as u32;
    if number > 65535 {
        known_version(number / 65536, number % 65536)
    } else {
        known_version(3, number)
    }
}

impl Duplicate for NegotiateProtocolVersion {
    fn duplicate(&self) -> Result<NegotiateProtocolVersion, OutOfMemory> {
        Ok(NegotiateProtocolVersion {
            newest_minor_protocol: self.newest_minor_protocol,
            unsupported_options: self.unsupported_options.duplicate()?,
        })
    }
}
