//! Data, and its end.
ghost use Rattle.std.specs.Prelude.{◌≡◌, None};
ghost use Rattle.pgw_wire.specs.declared.framing.Framing.TheVariants.{Typed};
ghost use Rattle.pgw_wire.specs.Writing.{text, has_zero as holds_zero, refused_if};
ghost use Rattle.pgw_copy.specs.Rows.{copy_data_of, copy_fail_of};
ghost use Rattle.pgw_wire.specs.declared.limits.TheConstants.{LARGE_LIMIT, SMALL_LIMIT};

use pgw_types::context::DecodeContext;
use pgw_types::error::{PgWireError, PgWireResult};
use pgw_types::listed::Duplicate;
use pgw_types::memory::OutOfMemory;
use pgw_types::octets::Octets;
use pgw_types::text::Text;
use pgw_wire::empty::EmptyRequest;
use pgw_wire::framing::Framing;
use pgw_wire::limits::{LARGE_LIMIT, SMALL_LIMIT};
use pgw_wire::message::Message;
use pgw_wire::reader::FieldReader;
use pgw_wire::writer::{Writer, has_zero, put_text, refused_if};
use std::alloc::Global;

pub const MESSAGE_TYPE_BYTE_COPY_DATA: u8 = b'd';

pub const MESSAGE_TYPE_BYTE_COPY_DONE: u8 = b'c';

pub const MESSAGE_TYPE_BYTE_COPY_FAIL: u8 = b'f';

/// A piece of the data (CopyData).
#[derive(Debug, Drop, PartialEq, Eq)]
pub struct CopyData {
    pub payload: Octets,
}

impl CopyData {
    pub fn new(payload: Octets) -> CopyData
        ensures { result ≡ record { payload = payload } }
    {
        CopyData { payload }
    }
}

impl Message for CopyData {
    ghost row_framing = { Typed 100 };

    ghost limit = { LARGE_LIMIT };

    ghost reading = { copy_data_of };

    ghost written = { λ m. m.payload };

    ghost fault = { λ m. None };

    fn framing() -> Framing {
        Framing::Typed(MESSAGE_TYPE_BYTE_COPY_DATA)
    }

    fn max_message_length() -> usize {
        LARGE_LIMIT
    }

    fn message_length(&self) -> usize {
        self.payload.len() + 4
    }

    fn refusal(&self) -> Option<PgWireError> {
        None
    }

    fn put_body(&self, out: &mut Writer) -> Result<(), OutOfMemory> {
        out.put_slice(self.payload.as_slice())
    }

    #[tactic(auto, unfolding(crate::specs::Rows::copy_data_of))]
    fn decode_body(_alloc: Global, body: &Octets, _ctx: &DecodeContext) -> PgWireResult<CopyData> {
        let mut reader = FieldReader::new(body);
        let payload = reader.take_rest()?;
        reader.finish()?;
        Ok(CopyData { payload })
    }
}

impl Duplicate for CopyData {
    fn duplicate(&self) -> Result<CopyData, OutOfMemory> {
        Ok(CopyData {
            payload: self.payload.duplicate()?,
        })
    }
}

/// The data is complete (CopyDone).
pub type CopyDone = EmptyRequest<MESSAGE_TYPE_BYTE_COPY_DONE>;

/// The data can't be completed, and why (CopyFail).
#[derive(Debug, Drop, PartialEq, Eq)]
pub struct CopyFail {
    pub message: Text,
}

impl CopyFail {
    pub fn new(message: Text) -> CopyFail
        ensures { result ≡ record { message = message } }
    {
        CopyFail { message }
    }
}

impl Message for CopyFail {
    ghost row_framing = { Typed 102 };

    ghost limit = { SMALL_LIMIT };

    ghost reading = { copy_fail_of };

    ghost written = { λ m. text m.message };

    ghost fault = { λ m. refused_if (holds_zero m.message) };

    fn framing() -> Framing {
        Framing::Typed(MESSAGE_TYPE_BYTE_COPY_FAIL)
    }

    fn max_message_length() -> usize {
        SMALL_LIMIT
    }

    #[tactic(auto, unfolding(pgw_wire::specs::Writing::text))]
    fn message_length(&self) -> usize {
        self.message.len() + 5
    }

    fn refusal(&self) -> Option<PgWireError> {
        refused_if(has_zero(&self.message))
    }

    fn put_body(&self, out: &mut Writer) -> Result<(), OutOfMemory> {
        put_text(out, &self.message)
    }

    #[tactic(auto, unfolding(crate::specs::Rows::copy_fail_of))]
    fn decode_body(alloc: Global, body: &Octets, _ctx: &DecodeContext) -> PgWireResult<CopyFail> {
        let mut reader = FieldReader::new(body);
        let message = reader.take_text(alloc)?;
        reader.finish()?;
        Ok(CopyFail { message })
    }
}

impl Duplicate for CopyFail {
    fn duplicate(&self) -> Result<CopyFail, OutOfMemory> {
        Ok(CopyFail {
            message: self.message.duplicate()?,
        })
    }
}
