//! What the program knows of a client's messages, for proofs: texts are UTF-8, and numbers fit. Each call answers true, and stands in a `prove!`, which costs nothing.
ghost use Rattle.std.specs.Prelude.{IsTrue};
ghost use Rattle.std.specs.FinMap as map;
ghost use Rattle.std.specs.List.{AllByRecursion};
ghost use Rattle.pgw_startup.specs.Sound.{IsPair, IsStartup};
ghost use Rattle.pgw_control.specs.Sound.{IsCancelRequest};
ghost use Rattle.pgw_frontend.specs.FrontendTexts.{IsText, IsSoundFrontend};

use crate::frontend::PgWireFrontendMessage;
use pgw_control::cancel::CancelRequest;
use pgw_startup::startup::Startup;
use pgw_types::text::Text;
use pgw_wire::params::Params;
use pgw_wire::sound::{are_codes, are_oids, is_key, is_utf8};

fn is_text(name: &Option<Text>) -> bool
    ensures yes { IsTrue result }
    ensures sound { IsText name.now }
{
    match name {
        Some(t) => is_utf8(t),
        None => true,
    }
}

fn are_pairs(params: &Params) -> bool
    ensures yes { IsTrue result }
    ensures sound { AllByRecursion IsPair (map.entries params.now) }
{
    for (name, value) in params.iter() {
        is_utf8(name);
        is_utf8(value);
    }
    true
}

fn is_startup(m: &Startup) -> bool
    ensures yes { IsTrue result }
    ensures sound { IsStartup m.now }
{
    let _major = m.protocol_number_major;
    let _minor = m.protocol_number_minor;
    are_pairs(&m.parameters)
}

fn is_cancel_request(m: &CancelRequest) -> bool
    ensures yes { IsTrue result }
    ensures sound { IsCancelRequest m.now }
{
    let _pid = m.pid;
    is_key(&m.secret_key)
}

/// Every message is sound.
pub fn is_sound(m: &PgWireFrontendMessage) -> bool
    ensures yes { IsTrue result }
    ensures sound { IsSoundFrontend m.now }
{
    match m {
        PgWireFrontendMessage::Startup(m) => is_startup(m),
        PgWireFrontendMessage::CancelRequest(m) => is_cancel_request(m),
        PgWireFrontendMessage::Query(m) => is_utf8(&m.query),
        PgWireFrontendMessage::Parse(m) => {
            is_text(&m.name);
            is_utf8(&m.query);
            are_oids(m.type_oids.as_slice())
        }
        PgWireFrontendMessage::Bind(m) => {
            is_text(&m.portal_name);
            is_text(&m.statement_name);
            are_codes(m.parameter_format_codes.as_slice());
            are_codes(m.result_column_format_codes.as_slice())
        }
        PgWireFrontendMessage::Close(m) => {
            let _kind = m.target_type;
            is_text(&m.name)
        }
        PgWireFrontendMessage::Describe(m) => {
            let _kind = m.target_type;
            is_text(&m.name)
        }
        PgWireFrontendMessage::Execute(m) => {
            let _rows = m.max_rows;
            is_text(&m.name)
        }
        PgWireFrontendMessage::CopyFail(m) => is_utf8(&m.message),
        _ => true,
    }
}
