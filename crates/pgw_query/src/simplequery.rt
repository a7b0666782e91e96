//! A simple query.
ghost use Rattle.std.specs.Prelude.{◌≡◌, ◌+◌, length};
ghost use Rattle.pgw_wire.specs.declared.framing.Framing.TheVariants.{Typed};
ghost use Rattle.pgw_wire.specs.Framing.{Appends, body_or, encoded, saturated};
ghost use Rattle.pgw_wire.specs.Writing.{text, has_zero as holds_zero, refused_if};
ghost use Rattle.pgw_query.specs.Rows.{query_of};
ghost use Rattle.pgw_wire.specs.declared.limits.TheConstants.{LARGE_LIMIT};

use bytes::BytesMut;
use pgw_types::context::DecodeContext;
use pgw_types::error::{PgWireError, PgWireResult};
use pgw_types::listed::Duplicate;
use pgw_types::memory::OutOfMemory;
use pgw_types::octets::Octets;
use pgw_types::text::Text;
use pgw_wire::framing::Framing;
use pgw_wire::limits::LARGE_LIMIT;
use pgw_wire::message::Message;
use pgw_wire::reader::FieldReader;
use pgw_wire::writer::{Writer, has_zero, put_header, put_text, refused_if};
use std::alloc::Global;

pub const MESSAGE_TYPE_BYTE_QUERY: u8 = b'Q';

/// Statements to be run (Query).
#[derive(Debug, Drop, PartialEq, Eq)]
pub struct Query {
    pub query: Text,
}

impl Query {
    pub fn new(query: Text) -> Query
        ensures { result ≡ record { query = query } }
    {
        Query { query }
    }
}

impl Message for Query {
    ghost row_framing = { Typed 81 };

    ghost limit = { LARGE_LIMIT };

    ghost reading = { query_of };

    ghost written = { λ m. text m.query };

    ghost fault = { λ m. refused_if (holds_zero m.query) };

    fn framing() -> Framing {
        Framing::Typed(MESSAGE_TYPE_BYTE_QUERY)
    }

    fn max_message_length() -> usize {
        LARGE_LIMIT
    }

    fn message_length(&self) -> usize {
        length_of(&self.query)
    }

    fn refusal(&self) -> Option<PgWireError> {
        refused_if(has_zero(&self.query))
    }

    fn put_body(&self, out: &mut Writer) -> Result<(), OutOfMemory> {
        put_text(out, &self.query)
    }

    #[tactic(auto, unfolding(crate::specs::Rows::query_of))]
    fn decode_body(alloc: Global, body: &Octets, _ctx: &DecodeContext) -> PgWireResult<Query> {
        let mut reader = FieldReader::new(body);
        let query = reader.take_text(alloc)?;
        reader.finish()?;
        Ok(Query { query })
    }
}

// The length field of a query.
#[tactic(auto, unfolding(pgw_wire::specs::Writing::text))]
fn length_of(query: &Text) -> usize
    ensures { result ≡ saturated (length (text query.now) + 4) }
{
    query.len() + 5
}

/// Appends the message of a query that is kept, or nothing, as the message itself does: the text is copied once.
#[tactic(auto, unfolding(pgw_wire::specs::Framing::encoded))]
pub fn encode_query(query: &Text, buf: &mut BytesMut) -> PgWireResult<()>
    ensures { Appends result buf.old.items buf.new.items
        (encoded (Typed 81) LARGE_LIMIT (refused_if (holds_zero query.now)) (text query.now)) }
{
    let limit = Query::max_message_length();
    let len = length_of(query);
    if limit < len {
        return Err(PgWireError::MessageTooLarge(limit, len));
    }
    let start = buf.len();
    put_header(buf, Query::framing(), len)?;
    match append_text(query, buf) {
        Ok(()) => Ok(()),
        Err(e) => {
            buf.truncate(start);
            Err(e)
        }
    }
}

// Appends a text and its end, or nothing.
fn append_text(query: &Text, buf: &mut BytesMut) -> PgWireResult<()>
    ensures { Appends result buf.old.items buf.new.items
        (body_or (refused_if (holds_zero query.now)) (text query.now)) }
{
    if let Some(error) = refused_if(has_zero(query)) {
        return Err(error);
    }
    let mut out = Writer::begin(buf);
    match put_text(&mut out, query) {
        Ok(()) => {
            *buf = out.into_whole();
            Ok(())
        }
        Err(_) => {
            *buf = out.into_before();
            Err(PgWireError::OutOfMemory)
        }
    }
}

impl Duplicate for Query {
    fn duplicate(&self) -> Result<Query, OutOfMemory> {
        Ok(Query {
            query: self.query.duplicate()?,
        })
    }
}
