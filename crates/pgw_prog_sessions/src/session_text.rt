//! The printed text of a session.
ghost use Rattle.std.specs.Prelude.{◌≡◌, ◌++◌, OnOk, ◌+◌, ◌<◌, Ok, Err};
ghost use Rattle.std.specs.List.{flat_map};
ghost use Rattle.std.specs.FinMap as map;
ghost use Rattle.pgw_prog_sessions.specs.SessionText.{sent_line, version_line, process_line, key_line, parameter_line, status_line, report_lines, error_line, result_text, session_text};
ghost use Rattle.pgw_prog_sessions.specs.AnswerLines.{answer_lines};

use crate::answer_lines::put_answers;
use crate::error_names::put_client_name;
use crate::pieces::{put, put_hex, put_quoted, put_signed};
use pgw_backend::client_error::PgWireClientError;
use pgw_query::response::TransactionStatus;
use pgw_session::types::SessionReport;
use pgw_types::context::ProtocolVersion;
use pgw_types::memory::OutOfMemory;
use pgw_types::text::Text;
use pgw_wire::params::Params;
use pgw_wire::secret_key::SecretKey;

#[tactic(auto, unfolding(crate::specs::SessionText::sent_line))]
fn put_sent(out: &mut Vec<u8>, bytes: &[u8]) -> Result<(), OutOfMemory>
    ensures { OnOk result (out.new.items ≡ out.old.items ++ sent_line bytes.now) }
{
    put(out, b"sent ")?;
    put_hex(out, bytes)?;
    put(out, b"\n")
}

#[tactic(auto, unfolding(crate::specs::SessionText::version_line))]
fn put_version(out: &mut Vec<u8>, version: ProtocolVersion) -> Result<(), OutOfMemory>
    ensures { OnOk result (out.new.items ≡ out.old.items ++ version_line version) }
{
    match version {
        ProtocolVersion::PROTOCOL3_0 => put(out, b"version 3.0\n"),
        ProtocolVersion::PROTOCOL3_2 => put(out, b"version 3.2\n"),
        ProtocolVersion::PROTOCOL3_9999 => put(out, b"version 3.9999\n"),
    }
}

#[tactic(auto, unfolding(crate::specs::SessionText::process_line))]
fn put_process(out: &mut Vec<u8>, process_id: i32) -> Result<(), OutOfMemory>
    ensures { OnOk result (out.new.items ≡ out.old.items ++ process_line process_id) }
{
    put(out, b"process ")?;
    put_signed(out, process_id)?;
    put(out, b"\n")
}

#[tactic(auto, unfolding(crate::specs::SessionText::key_line, pgw_wire::specs::Writing::i32))]
fn put_key(out: &mut Vec<u8>, key: &SecretKey) -> Result<(), OutOfMemory>
    ensures { OnOk result (out.new.items ≡ out.old.items ++ key_line key.now) }
{
    match key {
        SecretKey::I32(number) => {
            put(out, b"key i32 ")?;
            put_hex(out, &number.cast_unsigned().to_be_bytes())?;
            put(out, b"\n")
        }
        SecretKey::Bytes(bytes) => {
            put(out, b"key bytes ")?;
            put_hex(out, bytes.as_slice())?;
            put(out, b"\n")
        }
    }
}

#[tactic(auto, unfolding(crate::specs::SessionText::parameter_line))]
fn put_parameter(out: &mut Vec<u8>, name: &Text, value: &Text) -> Result<(), OutOfMemory>
    ensures { OnOk result (out.new.items ≡ out.old.items ++ parameter_line (name.now, value.now)) }
{
    put(out, b"parameter ")?;
    put_quoted(out, name.as_str().as_bytes())?;
    put(out, b" ")?;
    put_quoted(out, value.as_str().as_bytes())?;
    put(out, b"\n")
}

fn put_parameters(out: &mut Vec<u8>, parameters: &Params) -> Result<(), OutOfMemory>
    ensures { OnOk result (out.new.items ≡ out.old.items
        ++ flat_map parameter_line (map.entries parameters.now)) }
{
    for (name, value) in parameters.iter() {
        put_parameter(out, name, value)?;
    }
    Ok(())
}

#[tactic(auto, unfolding(crate::specs::SessionText::status_line))]
fn put_status(out: &mut Vec<u8>, status: TransactionStatus) -> Result<(), OutOfMemory>
    ensures { OnOk result (out.new.items ≡ out.old.items ++ status_line status) }
{
    match status {
        TransactionStatus::Idle => put(out, b"status I\n"),
        TransactionStatus::Transaction => put(out, b"status T\n"),
        TransactionStatus::Error => put(out, b"status E\n"),
    }
}

#[tactic(auto, unfolding(crate::specs::SessionText::report_lines))]
fn put_report(out: &mut Vec<u8>, report: &SessionReport) -> Result<(), OutOfMemory>
    ensures { OnOk result (out.new.items ≡ out.old.items ++ report_lines report.now) }
{
    put_version(out, report.version)?;
    put_process(out, report.process_id)?;
    put_key(out, &report.secret_key)?;
    put_parameters(out, &report.parameters)?;
    put_status(out, report.status)?;
    put_answers(out, report.answers.as_slice())
}

/// Appends the line of an error.
#[tactic(auto, unfolding(crate::specs::SessionText::error_line))]
pub fn put_error(out: &mut Vec<u8>, error: &PgWireClientError) -> Result<(), OutOfMemory>
    ensures { OnOk result (out.new.items ≡ out.old.items ++ error_line error.now) }
{
    put(out, b"error ")?;
    put_client_name(out, error)?;
    put(out, b"\n")
}

/// Appends a session's report, or its error.
pub fn put_result(
    out: &mut Vec<u8>,
    outcome: &Result<SessionReport, PgWireClientError>,
) -> Result<(), OutOfMemory>
    ensures { OnOk result (out.new.items ≡ out.old.items ++ result_text outcome.now) }
{
    match outcome {
        Ok(report) => put_report(out, report),
        Err(error) => put_error(out, error),
    }
}

/// Appends what a session is printed as.
#[tactic(auto, unfolding(crate::specs::SessionText::session_text))]
pub fn put_session(
    out: &mut Vec<u8>,
    sent: &[u8],
    outcome: &Result<SessionReport, PgWireClientError>,
) -> Result<(), OutOfMemory>
    ensures { OnOk result (out.new.items ≡ out.old.items ++ session_text sent.now outcome.now) }
{
    put_sent(out, sent)?;
    put_result(out, outcome)
}
