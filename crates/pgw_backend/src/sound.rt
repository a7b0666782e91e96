//! What the program knows of a server's messages, for proofs: texts are UTF-8, and numbers fit. Each call answers true, and stands in a `prove!`, which costs nothing.
ghost use Rattle.std.specs.Prelude.{IsTrue};
ghost use Rattle.pgw_startup.specs.Sound.{IsAuthentication, IsParameterStatus, IsBackendKeyData, IsNegotiate};
ghost use Rattle.pgw_query.specs.Sound.{IsField, IsCoded, AreFields, AreCoded, IsNotification};
ghost use Rattle.pgw_copy.specs.Sound.{AreColumns};
ghost use Rattle.pgw_backend.specs.Texts.{IsSound};

use crate::backend::PgWireBackendMessage;
use pgw_query::data::FieldDescription;
use pgw_query::notification::NotificationResponse;
use pgw_startup::authentication::Authentication;
use pgw_startup::backend_key_data::BackendKeyData;
use pgw_startup::negotiate::NegotiateProtocolVersion;
use pgw_startup::parameter_status::ParameterStatus;
use pgw_types::text::Text;
use pgw_wire::sound::{are_codes, are_oids, are_texts, is_key, is_utf8};

fn is_coded(field: &(u8, Text))
    ensures { IsCoded field.now }
{
    let _code = field.0;
    is_utf8(&field.1);
}

fn are_coded(fields: &[(u8, Text)]) -> bool
    ensures yes { IsTrue result }
    ensures sound { AreCoded fields.now }
{
    for field in fields {
        is_coded(field);
    }
    true
}

fn is_field(f: &FieldDescription)
    ensures { IsField f.now }
{
    is_utf8(&f.name);
    let _table_id = f.table_id;
    let _column_id = f.column_id;
    let _type_id = f.type_id;
    let _type_size = f.type_size;
    let _type_modifier = f.type_modifier;
    let _format_code = f.format_code;
}

fn are_fields(fields: &[FieldDescription]) -> bool
    ensures yes { IsTrue result }
    ensures sound { AreFields fields.now }
{
    for field in fields {
        is_field(field);
    }
    true
}

fn is_authentication(m: &Authentication) -> bool
    ensures yes { IsTrue result }
    ensures sound { IsAuthentication m.now }
{
    match m {
        Authentication::SASL(methods) => are_texts(methods.as_slice()),
        _ => true,
    }
}

fn is_key_data(m: &BackendKeyData) -> bool
    ensures yes { IsTrue result }
    ensures sound { IsBackendKeyData m.now }
{
    let _pid = m.pid;
    is_key(&m.secret_key)
}

fn is_status(m: &ParameterStatus) -> bool
    ensures yes { IsTrue result }
    ensures sound { IsParameterStatus m.now }
{
    is_utf8(&m.name);
    is_utf8(&m.value)
}

fn is_negotiation(m: &NegotiateProtocolVersion) -> bool
    ensures yes { IsTrue result }
    ensures sound { IsNegotiate m.now }
{
    let _number = m.newest_minor_protocol;
    are_texts(m.unsupported_options.as_slice())
}

fn is_notification(m: &NotificationResponse) -> bool
    ensures yes { IsTrue result }
    ensures sound { IsNotification m.now }
{
    let _pid = m.pid;
    is_utf8(&m.channel);
    is_utf8(&m.payload)
}

fn are_columns(_format: i8, _columns: i16, codes: &[i16]) -> bool
    ensures yes { IsTrue result }
    ensures sound { AreColumns _format _columns codes.now }
{
    are_codes(codes)
}

/// Every message is sound.
pub fn is_sound(m: &PgWireBackendMessage) -> bool
    ensures yes { IsTrue result }
    ensures sound { IsSound m.now }
{
    match m {
        PgWireBackendMessage::Authentication(m) => is_authentication(m),
        PgWireBackendMessage::ParameterStatus(m) => is_status(m),
        PgWireBackendMessage::BackendKeyData(m) => is_key_data(m),
        PgWireBackendMessage::NegotiateProtocolVersion(m) => is_negotiation(m),
        PgWireBackendMessage::CommandComplete(m) => is_utf8(&m.tag),
        PgWireBackendMessage::ErrorResponse(m) => are_coded(m.fields.as_slice()),
        PgWireBackendMessage::NoticeResponse(m) => are_coded(m.fields.as_slice()),
        PgWireBackendMessage::NotificationResponse(m) => is_notification(m),
        PgWireBackendMessage::ParameterDescription(m) => are_oids(m.types.as_slice()),
        PgWireBackendMessage::RowDescription(m) => are_fields(m.fields.as_slice()),
        PgWireBackendMessage::DataRow(m) => {
            let _count = m.field_count;
            true
        }
        PgWireBackendMessage::CopyFail(m) => is_utf8(&m.message),
        PgWireBackendMessage::CopyInResponse(m) => {
            are_columns(m.format, m.columns, m.column_formats.as_slice())
        }
        PgWireBackendMessage::CopyOutResponse(m) => {
            are_columns(m.format, m.columns, m.column_formats.as_slice())
        }
        PgWireBackendMessage::CopyBothResponse(m) => {
            are_columns(m.format, m.columns, m.column_formats.as_slice())
        }
        _ => true,
    }
}
