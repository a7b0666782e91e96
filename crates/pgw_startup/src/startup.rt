//! The first message of a client.
ghost use Rattle.std.specs.Prelude.{◌≡◌, IfOk};
ghost use Rattle.std.specs.FinMap as map;
ghost use Rattle.pgw_wire.specs.Pairs.{from_pairs};
ghost use Rattle.pgw_wire.specs.Writing.{refused_if};
ghost use Rattle.pgw_wire.specs.declared.framing.Framing.TheVariants.{Untyped};
ghost use Rattle.pgw_startup.specs.Startup.{startup_of, startup, is_startup_refused};
ghost use Rattle.pgw_wire.specs.declared.limits.TheConstants.{SMALL_LIMIT};

use pgw_types::context::DecodeContext;
use pgw_types::error::{PgWireError, PgWireResult};
use pgw_types::listed::Duplicate;
use pgw_types::memory::OutOfMemory;
use pgw_types::octets::Octets;
use pgw_types::text::Text;
use pgw_wire::framing::Framing;
use pgw_wire::item::take_up_to_mark;
use pgw_wire::limits::SMALL_LIMIT;
use pgw_wire::message::Message;
use pgw_wire::params::Params;
use pgw_wire::reader::FieldReader;
use pgw_wire::writer::{Writer, put_u8, put_u16, refused_if};
use std::alloc::Global;

/// The version that a client asks for, and its parameters (StartupMessage).
#[derive(Debug, Drop, PartialEq, Eq)]
pub struct Startup {
    pub protocol_number_major: u16,
    pub protocol_number_minor: u16,
    pub parameters: Params,
}

impl Startup {
    pub const PROTOCOL_VERSION_3_0: i32 = 196608;

    pub const PROTOCOL_VERSION_3_2: i32 = 196610;

    /// The first major version that is understood.
    pub const PG_PROTOCOL_EARLIEST: u16 = 3;

    /// The last major version that is understood.
    pub const PG_PROTOCOL_LATEST: u16 = 3;

    /// Version 3.0 without parameters.
    pub fn new(alloc: Global) -> Startup
        ensures { result ≡ record {
          protocol_number_major = 3;
          protocol_number_minor = 0;
          parameters
              = map.empty;
        } }
    {
        Startup {
            protocol_number_major: Startup::PG_PROTOCOL_LATEST,
            protocol_number_minor: 0,
            parameters: Params::new(alloc),
        }
    }
}

fn collected(alloc: Global, pairs: Vec<(Text, Text)>) -> Result<Params, OutOfMemory>
    ensures { IfOk result (λ m. m ≡ from_pairs pairs.items) }
{
    let mut params = Params::new(alloc);
    for (name, value) in pairs {
        params.insert(name, value)?;
    }
    Ok(params)
}

// Whether there is no spelling.
fn is_refused(m: &Startup) -> bool
    ensures { result ≡ is_startup_refused m.now }
{
    m.protocol_number_major != 3 || m.parameters.is_refused()
}

impl Message for Startup {
    ghost row_framing = { Untyped };

    ghost limit = { SMALL_LIMIT };

    ghost reading = { startup_of };

    ghost written = { startup };

    ghost fault = { λ m. refused_if (is_startup_refused m) };

    fn framing() -> Framing {
        Framing::Untyped
    }

    fn max_message_length() -> usize {
        SMALL_LIMIT
    }

    #[tactic(auto, unfolding(pgw_wire::specs::Writing::u16))]
    fn message_length(&self) -> usize {
        self.parameters.written_len(9)
    }

    fn refusal(&self) -> Option<PgWireError> {
        refused_if(is_refused(self))
    }

    fn put_body(&self, out: &mut Writer) -> Result<(), OutOfMemory> {
        put_u16(out, self.protocol_number_major)?;
        put_u16(out, self.protocol_number_minor)?;
        self.parameters.put(out)?;
        put_u8(out, 0)
    }

    #[tactic(auto, unfolding(crate::specs::Startup::startup_of, crate::specs::Startup::three))]
    fn decode_body(alloc: Global, body: &Octets, _ctx: &DecodeContext) -> PgWireResult<Startup> {
        if body.len() < 5 {
            return Err(PgWireError::InvalidStartupMessage);
        }
        let mut reader = FieldReader::new(body);
        let protocol_number_major = reader.take_u16()?;
        if protocol_number_major != 3 {
            return Err(PgWireError::InvalidStartupMessage);
        }
        let protocol_number_minor = reader.take_u16()?;
        let pairs = take_up_to_mark(alloc, &mut reader)?;
        reader.finish()?;
        let parameters = collected(alloc, pairs.into_vec())?;
        Ok(Startup {
            protocol_number_major,
            protocol_number_minor,
            parameters,
        })
    }
}

impl Duplicate for Startup {
    fn duplicate(&self) -> Result<Startup, OutOfMemory> {
        Ok(Startup {
            protocol_number_major: self.protocol_number_major,
            protocol_number_minor: self.protocol_number_minor,
            parameters: self.parameters.duplicate()?,
        })
    }
}
