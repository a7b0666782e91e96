//! What a client's errors are called for people.

use crate::backend::PgWireBackendMessage;
use pgw_types::text::Text;
use std::fmt;

/// The name of a message in PostgreSQL's documentation (Message Formats).
pub fn message_name(message: &PgWireBackendMessage) -> &'static str {
    match message {
        PgWireBackendMessage::SslResponse(_) => "SSLResponse",
        PgWireBackendMessage::GssEncResponse(_) => "GSSENCResponse",
        PgWireBackendMessage::Authentication(_) => "Authentication",
        PgWireBackendMessage::ParameterStatus(_) => "ParameterStatus",
        PgWireBackendMessage::BackendKeyData(_) => "BackendKeyData",
        PgWireBackendMessage::NegotiateProtocolVersion(_) => "NegotiateProtocolVersion",
        PgWireBackendMessage::ParseComplete(_) => "ParseComplete",
        PgWireBackendMessage::BindComplete(_) => "BindComplete",
        PgWireBackendMessage::CloseComplete(_) => "CloseComplete",
        PgWireBackendMessage::PortalSuspended(_) => "PortalSuspended",
        PgWireBackendMessage::EmptyQueryResponse(_) => "EmptyQueryResponse",
        PgWireBackendMessage::NoData(_) => "NoData",
        PgWireBackendMessage::CommandComplete(_) => "CommandComplete",
        PgWireBackendMessage::ReadyForQuery(_) => "ReadyForQuery",
        PgWireBackendMessage::ErrorResponse(_) => "ErrorResponse",
        PgWireBackendMessage::NoticeResponse(_) => "NoticeResponse",
        PgWireBackendMessage::NotificationResponse(_) => "NotificationResponse",
        PgWireBackendMessage::ParameterDescription(_) => "ParameterDescription",
        PgWireBackendMessage::RowDescription(_) => "RowDescription",
        PgWireBackendMessage::DataRow(_) => "DataRow",
        PgWireBackendMessage::CopyData(_) => "CopyData",
        PgWireBackendMessage::CopyDone(_) => "CopyDone",
        PgWireBackendMessage::CopyFail(_) => "CopyFail",
        PgWireBackendMessage::CopyInResponse(_) => "CopyInResponse",
        PgWireBackendMessage::CopyOutResponse(_) => "CopyOutResponse",
        PgWireBackendMessage::CopyBothResponse(_) => "CopyBothResponse",
    }
}

/// Names with commas between them, or that there are none.
#[derive(Clone, Copy, Drop)]
pub struct Names<'a>(pub &'a [Text]);

impl<'a> fmt::Display for Names<'a> {
    fn fmt<W: fmt::Write>(&self, f: &mut fmt::Formatter<W>) -> fmt::Result {
        if self.0.is_empty() {
            return f.write_str("it names none");
        }
        let mut is_first = true;
        for name in self.0 {
            if !is_first {
                f.write_str(", ")?;
            }
            is_first = false;
            f.write_str(name.as_str())?;
        }
        Ok(())
    }
}
