//! What a server says.
ghost use Rattle.std.specs.Prelude.{◌≡◌, ◌++◌, ◌∷◌, [], None, IfOk, OnOk};
ghost use Rattle.pgw_types.specs.Infos.{fields_of, info_from};
ghost use Rattle.pgw_wire.specs.declared.framing.Framing.TheVariants.{Typed};
ghost use Rattle.pgw_wire.specs.Writing.{text, has_zero as holds_zero, refused_if};
ghost use Rattle.std.specs.List.{list_any};
ghost use Rattle.pgw_wire.specs.Codes.{is_code_refused};
ghost use Rattle.pgw_query.specs.Rows.{status_of_byte, status_byte, ready_for_query_of, command_complete_of, info_response_of, codes_at, codes, codes_fault};
ghost use Rattle.pgw_wire.specs.Reading.{Reads};
ghost use Rattle.pgw_wire.specs.declared.limits.TheConstants.{LONG_LIMIT, SMALL_BACKEND_LIMIT};

use pgw_types::context::DecodeContext;
use pgw_types::error::{PgWireError, PgWireResult};
use pgw_types::error_info::ErrorInfo;
use pgw_types::listed::{Duplicate, Listed};
use pgw_types::memory::OutOfMemory;
use pgw_types::octets::Octets;
use pgw_types::text::Text;
use pgw_wire::empty::EmptyResponse;
use pgw_wire::field::{list_len, put_list};
use pgw_wire::framing::Framing;
use pgw_wire::item::take_up_to_mark;
use pgw_wire::limits::{LONG_LIMIT, SMALL_BACKEND_LIMIT};
use pgw_wire::message::Message;
use pgw_wire::reader::FieldReader;
use pgw_wire::writer::{Writer, has_zero, put_text, put_u8, refused_if};
use std::alloc::Global;

pub const MESSAGE_TYPE_BYTE_COMMAND_COMPLETE: u8 = b'C';

pub const MESSAGE_TYPE_BYTE_EMPTY_QUERY_RESPONSE: u8 = b'I';

pub const MESSAGE_TYPE_BYTE_READY_FOR_QUERY: u8 = b'Z';

pub const MESSAGE_TYPE_BYTE_ERROR_RESPONSE: u8 = b'E';

pub const MESSAGE_TYPE_BYTE_NOTICE_RESPONSE: u8 = b'N';

pub const READY_STATUS_IDLE: u8 = b'I';

pub const READY_STATUS_TRANSACTION_BLOCK: u8 = b'T';

pub const READY_STATUS_FAILED_TRANSACTION_BLOCK: u8 = b'E';

/// Whether the session is in a transaction, and whether that has failed.
#[derive(Clone, Copy, Debug, PartialEq, Eq)]
pub enum TransactionStatus {
    Idle,
    Transaction,
    Error,
}

#[tactic(auto, unfolding(crate::specs::Rows::status_of_byte))]
impl TryFrom<u8> for TransactionStatus {
    type Error = PgWireError;

    ghost try_from_gives = { λ byte r. r ≡ status_of_byte byte };

    fn try_from(byte: u8) -> Result<TransactionStatus, PgWireError> {
        match byte {
            b'I' => Ok(TransactionStatus::Idle),
            b'T' => Ok(TransactionStatus::Transaction),
            b'E' => Ok(TransactionStatus::Error),
            _ => Err(PgWireError::InvalidTransactionStatus(byte)),
        }
    }
}

/// The server is ready for the next query (ReadyForQuery).
#[derive(Debug, Drop, PartialEq, Eq)]
pub struct ReadyForQuery {
    pub status: TransactionStatus,
}

impl ReadyForQuery {
    pub fn new(status: TransactionStatus) -> ReadyForQuery
        ensures { result ≡ record { status = status } }
    {
        ReadyForQuery { status }
    }
}

impl Message for ReadyForQuery {
    ghost row_framing = { Typed 90 };

    ghost limit = { SMALL_BACKEND_LIMIT };

    ghost reading = { ready_for_query_of };

    ghost written = { λ m. status_byte m.status ∷ [] };

    ghost fault = { λ m. None };

    fn framing() -> Framing {
        Framing::Typed(MESSAGE_TYPE_BYTE_READY_FOR_QUERY)
    }

    fn max_message_length() -> usize {
        SMALL_BACKEND_LIMIT
    }

    fn message_length(&self) -> usize {
        5
    }

    fn refusal(&self) -> Option<PgWireError> {
        None
    }

    fn put_body(&self, out: &mut Writer) -> Result<(), OutOfMemory> {
        let byte = match self.status {
            TransactionStatus::Idle => READY_STATUS_IDLE,
            TransactionStatus::Transaction => READY_STATUS_TRANSACTION_BLOCK,
            TransactionStatus::Error => READY_STATUS_FAILED_TRANSACTION_BLOCK,
        };
        out.put_slice(&[byte])
    }

    #[tactic(auto, unfolding(crate::specs::Rows::ready_for_query_of))]
    fn decode_body(
        _alloc: Global,
        body: &Octets,
        _ctx: &DecodeContext,
    ) -> PgWireResult<ReadyForQuery> {
        let mut reader = FieldReader::new(body);
        let byte = reader.take_u8()?;
        let status = TransactionStatus::try_from(byte)?;
        reader.finish()?;
        Ok(ReadyForQuery { status })
    }
}

/// A command is done, with its tag (CommandComplete).
#[derive(Debug, Drop, PartialEq, Eq)]
pub struct CommandComplete {
    pub tag: Text,
}

impl CommandComplete {
    pub fn new(tag: Text) -> CommandComplete
        ensures { result ≡ record { tag = tag } }
    {
        CommandComplete { tag }
    }
}

impl Message for CommandComplete {
    ghost row_framing = { Typed 67 };

    ghost limit = { SMALL_BACKEND_LIMIT };

    ghost reading = { command_complete_of };

    ghost written = { λ m. text m.tag };

    ghost fault = { λ m. refused_if (holds_zero m.tag) };

    fn framing() -> Framing {
        Framing::Typed(MESSAGE_TYPE_BYTE_COMMAND_COMPLETE)
    }

    fn max_message_length() -> usize {
        SMALL_BACKEND_LIMIT
    }

    #[tactic(auto, unfolding(pgw_wire::specs::Writing::text))]
    fn message_length(&self) -> usize {
        self.tag.len() + 5
    }

    fn refusal(&self) -> Option<PgWireError> {
        refused_if(has_zero(&self.tag))
    }

    fn put_body(&self, out: &mut Writer) -> Result<(), OutOfMemory> {
        put_text(out, &self.tag)
    }

    #[tactic(auto, unfolding(crate::specs::Rows::command_complete_of))]
    fn decode_body(
        alloc: Global,
        body: &Octets,
        _ctx: &DecodeContext,
    ) -> PgWireResult<CommandComplete> {
        let mut reader = FieldReader::new(body);
        let tag = reader.take_text(alloc)?;
        reader.finish()?;
        Ok(CommandComplete { tag })
    }
}

/// An answer to an empty query (EmptyQueryResponse).
pub type EmptyQueryResponse = EmptyResponse<MESSAGE_TYPE_BYTE_EMPTY_QUERY_RESPONSE>;

// The fields up to the mark.
#[tactic(auto, unfolding(crate::specs::Rows::codes_at))]
fn take_codes(alloc: Global, reader: &mut FieldReader<'_>) -> PgWireResult<Listed<(u8, Text)>>
    ensures { Reads result reader.new (codes_at reader.old) }
{
    take_up_to_mark(alloc, reader)
}

fn any_refused(fields: &[(u8, Text)]) -> bool
    ensures { result ≡ list_any is_code_refused fields.now }
{
    fields.iter().any(|f| is_refused_field(f))
}

fn is_refused_field(field: &(u8, Text)) -> bool
    ensures { result ≡ is_code_refused field.now }
{
    field.0 == 0 || has_zero(&field.1)
}

// The fields and the mark.
fn put_codes(out: &mut Writer, fields: &[(u8, Text)]) -> Result<(), OutOfMemory>
    ensures ok { OnOk result (out.new.body ≡ out.old.body ++ codes fields.now) }
    ensures kept { out.new.before ≡ out.old.before }
{
    put_list(out, fields)?;
    put_u8(out, 0)
}

/// What a server tells of an error or a notice, as fields with their codes (ErrorResponse, NoticeResponse).
#[derive(Debug, Drop, PartialEq, Eq)]
pub struct InfoResponse<const TYPE: u8> {
    pub fields: Listed<(u8, Text)>,
}

/// A command, or the connection, failed.
pub type ErrorResponse = InfoResponse<MESSAGE_TYPE_BYTE_ERROR_RESPONSE>;

/// A warning, or another word to the user; nothing failed.
pub type NoticeResponse = InfoResponse<MESSAGE_TYPE_BYTE_NOTICE_RESPONSE>;

impl<const TYPE: u8> InfoResponse<TYPE> {
    pub fn new(fields: Listed<(u8, Text)>) -> InfoResponse<TYPE>
        ensures { result ≡ record { fields = fields } }
    {
        InfoResponse { fields }
    }

    /// The parts that are set, as fields, from which `ErrorInfo::from_fields` leads back.
    pub fn from_info(alloc: Global, info: ErrorInfo) -> Result<InfoResponse<TYPE>, OutOfMemory>
        ensures fields { IfOk result (λ m. m.fields ≡ fields_of info) }
        ensures back { IfOk result (λ m. info_from m.fields ≡ info) }
    {
        let fields = info.into_fields(alloc)?;
        Ok(InfoResponse { fields })
    }
}

impl<const TYPE: u8> Message for InfoResponse<TYPE> {
    ghost row_framing = { Typed TYPE };

    ghost limit = { LONG_LIMIT };

    ghost reading = { info_response_of TYPE };

    ghost written = { λ m. codes m.fields };

    ghost fault = { λ m. codes_fault m.fields };

    fn framing() -> Framing {
        Framing::Typed(TYPE)
    }

    fn max_message_length() -> usize {
        LONG_LIMIT
    }

    fn message_length(&self) -> usize {
        list_len(self.fields.as_slice(), 5)
    }

    fn refusal(&self) -> Option<PgWireError> {
        refused_if(any_refused(self.fields.as_slice()))
    }

    fn put_body(&self, out: &mut Writer) -> Result<(), OutOfMemory> {
        put_codes(out, self.fields.as_slice())
    }

    #[tactic(auto, unfolding(crate::specs::Rows::info_response_of))]
    fn decode_body(
        alloc: Global,
        body: &Octets,
        _ctx: &DecodeContext,
    ) -> PgWireResult<InfoResponse<TYPE>> {
        let mut reader = FieldReader::new(body);
        let fields = take_codes(alloc, &mut reader)?;
        reader.finish()?;
        Ok(InfoResponse { fields })
    }
}

impl Duplicate for ReadyForQuery {
    fn duplicate(&self) -> Result<ReadyForQuery, OutOfMemory> {
        Ok(ReadyForQuery {
            status: self.status,
        })
    }
}

impl Duplicate for CommandComplete {
    fn duplicate(&self) -> Result<CommandComplete, OutOfMemory> {
        Ok(CommandComplete {
            tag: self.tag.duplicate()?,
        })
    }
}

impl<const TYPE: u8> Duplicate for InfoResponse<TYPE> {
    fn duplicate(&self) -> Result<InfoResponse<TYPE>, OutOfMemory> {
        Ok(InfoResponse {
            fields: self.fields.duplicate()?,
        })
    }
}
