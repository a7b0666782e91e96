//! What another session tells.
ghost use Rattle.std.specs.Prelude.{◌≡◌, ◌||◌};
ghost use Rattle.pgw_wire.specs.declared.framing.Framing.TheVariants.{Typed};
ghost use Rattle.pgw_wire.specs.Writing.{refused_if};
ghost use Rattle.pgw_query.specs.Rows.{notification_response_of, notification_response, is_notification_refused};
ghost use Rattle.pgw_wire.specs.declared.limits.TheConstants.{LONG_LIMIT};

use pgw_types::context::DecodeContext;
use pgw_types::error::{PgWireError, PgWireResult};
use pgw_types::listed::Duplicate;
use pgw_types::memory::OutOfMemory;
use pgw_types::octets::Octets;
use pgw_types::text::Text;
use pgw_wire::framing::Framing;
use pgw_wire::limits::LONG_LIMIT;
use pgw_wire::message::Message;
use pgw_wire::reader::FieldReader;
use pgw_wire::writer::{Writer, has_zero, put_i32, put_text, refused_if};
use std::alloc::Global;

pub const MESSAGE_TYPE_BYTE_NOTIFICATION_RESPONSE: u8 = b'A';

/// A NOTIFY on a channel that this session listens to, with the process that sent it (NotificationResponse).
#[derive(Debug, Drop, PartialEq, Eq)]
pub struct NotificationResponse {
    pub pid: i32,
    pub channel: Text,
    pub payload: Text,
}

impl NotificationResponse {
    pub fn new(pid: i32, channel: Text, payload: Text) -> NotificationResponse
        ensures { result ≡ record { pid = pid; channel = channel; payload = payload } }
    {
        NotificationResponse {
            pid,
            channel,
            payload,
        }
    }
}

impl Message for NotificationResponse {
    ghost row_framing = { Typed 65 };

    ghost limit = { LONG_LIMIT };

    ghost reading = { notification_response_of };

    ghost written = { notification_response };

    ghost fault = { λ m. refused_if (is_notification_refused m) };

    fn framing() -> Framing {
        Framing::Typed(MESSAGE_TYPE_BYTE_NOTIFICATION_RESPONSE)
    }

    fn max_message_length() -> usize {
        LONG_LIMIT
    }

    #[tactic(auto, unfolding(pgw_wire::specs::Writing::text, pgw_wire::specs::Writing::i32))]
    fn message_length(&self) -> usize {
        (self.channel.len() + 10).saturating_add(self.payload.len())
    }

    fn refusal(&self) -> Option<PgWireError> {
        refused_if(has_zero(&self.channel) || has_zero(&self.payload))
    }

    fn put_body(&self, out: &mut Writer) -> Result<(), OutOfMemory> {
        put_i32(out, self.pid)?;
        put_text(out, &self.channel)?;
        put_text(out, &self.payload)
    }

    #[tactic(auto, unfolding(crate::specs::Rows::notification_response_of))]
    fn decode_body(
        alloc: Global,
        body: &Octets,
        _ctx: &DecodeContext,
    ) -> PgWireResult<NotificationResponse> {
        let mut reader = FieldReader::new(body);
        let pid = reader.take_i32()?;
        let channel = reader.take_text(alloc)?;
        let payload = reader.take_text(alloc)?;
        reader.finish()?;
        Ok(NotificationResponse {
            pid,
            channel,
            payload,
        })
    }
}

impl Duplicate for NotificationResponse {
    fn duplicate(&self) -> Result<NotificationResponse, OutOfMemory> {
        Ok(NotificationResponse {
            pid: self.pid,
            channel: self.channel.duplicate()?,
            payload: self.payload.duplicate()?,
        })
    }
}
