//! The report of a login.
ghost use Rattle.std.specs.Prelude.{◌≡◌, ◌++◌, codes, decimal, map, OnOk};
ghost use Rattle.std.specs.Fmt.{signed_decimal};
ghost use Rattle.std.specs.FinMap as finite;
ghost use Rattle.pgw_prog_commands.specs.Report.{clean_line, lines_text, login_lines, report_pair, report_parameter, report_text as text_of, server_text as server_shown, server_version, session_lines, time_lines};

use crate::notes::LoginKind;
use crate::words::{login_name, server_text, truth_word, version_word};
use pgw_prog_output::pieces::put;
use pgw_prog_output::shown::plain;
use pgw_types::address::Address;
use pgw_types::context::ProtocolVersion;
use pgw_types::memory::OutOfMemory;
use pgw_types::text::Text;
use pgw_wire::params::Params;
use std::alloc::Global;

/// What is told of a login. It holds no password.
#[derive(Drop)]
pub struct CheckReport<'a> {
    /// Where the server is.
    pub server: &'a Address,
    /// Which login the server asked for, if that was noted.
    pub login: Option<LoginKind>,
    /// Whether the server proved that it knows the password.
    pub proved: bool,
    pub version: ProtocolVersion,
    /// The user and the database that were asked for.
    pub user: &'a str,
    pub database: &'a str,
    /// The server's process number, or -1 where it told none.
    pub process_id: i32,
    /// What the server reported of itself.
    pub parameters: &'a Params,
    /// How many milliseconds the connection took.
    pub dial_took: u64,
    /// How many milliseconds the login over it took.
    pub login_took: u64,
}

// A line, without control characters but for its end.
fn put_line(alloc: Global, out: &mut Vec<u8>, line: &str) -> Result<(), OutOfMemory>
    ensures { OnOk result (out.new.items ≡ out.old.items ++ clean_line line.now) }
{
    let shown = plain(alloc, line)?;
    put(out, shown.as_bytes())?;
    put(out, b"\n")
}

// A word and what it stands for.
fn put_pair(alloc: Global, out: &mut Vec<u8>, word: &str, value: &str) -> Result<(), OutOfMemory>
    ensures { OnOk result (out.new.items ≡ out.old.items
        ++ clean_line (report_pair word.now value.now)) }
{
    let line = format!(in alloc; "{word} {value}")?;
    put_line(alloc, out, line.as_str())
}

fn put_server(alloc: Global, out: &mut Vec<u8>, server: &Address) -> Result<(), OutOfMemory>
    ensures { OnOk result (out.new.items ≡ out.old.items
        ++ clean_line (report_pair (codes "server") (server_shown server.now))) }
{
    let server = server_text(alloc, server)?;
    put_pair(alloc, out, "server", server.as_str())
}

// The version that the server told.
fn version_told(parameters: &Params) -> &str
    ensures { result.now ≡ server_version parameters.now }
{
    match parameters.get("server_version") {
        Some(version) => version.as_str(),
        None => "-",
    }
}

fn put_process(alloc: Global, out: &mut Vec<u8>, process_id: i32) -> Result<(), OutOfMemory>
    ensures { OnOk result (out.new.items ≡ out.old.items
        ++ clean_line (report_pair (codes "process") (signed_decimal process_id))) }
{
    let line = format!(in alloc; "process {process_id}")?;
    put_line(alloc, out, line.as_str())
}

fn put_took(alloc: Global, out: &mut Vec<u8>, word: &str, took: u64) -> Result<(), OutOfMemory>
    ensures { OnOk result (out.new.items ≡ out.old.items
        ++ clean_line (report_pair word.now (decimal took))) }
{
    let line = format!(in alloc; "{word} {took}")?;
    put_line(alloc, out, line.as_str())
}

// What the login came to.
fn put_login(alloc: Global, out: &mut Vec<u8>, report: &CheckReport<'_>) -> Result<(), OutOfMemory>
    ensures { OnOk result (out.new.items ≡ out.old.items ++ lines_text (login_lines report.now)) }
{
    put_server(alloc, out, report.server)?;
    put_pair(alloc, out, "login", login_name(report.login))?;
    put_pair(alloc, out, "server-proved", truth_word(report.proved))?;
    put_pair(alloc, out, "protocol", version_word(report.version))
}

// And the session.
fn put_session(
    alloc: Global,
    out: &mut Vec<u8>,
    report: &CheckReport<'_>,
) -> Result<(), OutOfMemory>
    ensures { OnOk result (out.new.items ≡ out.old.items
        ++ lines_text (session_lines report.now)) }
{
    put_pair(
        alloc,
        out,
        "server-version",
        version_told(report.parameters),
    )?;
    put_pair(alloc, out, "user", report.user)?;
    put_pair(alloc, out, "database", report.database)?;
    put_process(alloc, out, report.process_id)
}

fn put_parameter(
    alloc: Global,
    out: &mut Vec<u8>,
    name: &Text,
    value: &Text,
) -> Result<(), OutOfMemory>
    ensures { OnOk result (out.new.items ≡ out.old.items
        ++ clean_line (report_parameter (name.now, value.now))) }
{
    let line = format!(in alloc; "parameter {name} {value}")?;
    put_line(alloc, out, line.as_str())
}

fn put_parameters(alloc: Global, out: &mut Vec<u8>, parameters: &Params) -> Result<(), OutOfMemory>
    ensures { OnOk result (out.new.items ≡ out.old.items
        ++ lines_text (map report_parameter (finite.entries parameters.now))) }
{
    for (name, value) in parameters.iter() {
        put_parameter(alloc, out, name, value)?;
    }
    Ok(())
}

// How long each step took.
fn put_times(alloc: Global, out: &mut Vec<u8>, report: &CheckReport<'_>) -> Result<(), OutOfMemory>
    ensures { OnOk result (out.new.items ≡ out.old.items ++ lines_text (time_lines report.now)) }
{
    put_took(alloc, out, "dial-ms", report.dial_took)?;
    put_took(alloc, out, "login-ms", report.login_took)
}

/// Appends the lines of a report.
#[tactic(auto, using(crate::proofs::ReportLaws::joined))]
pub fn put_report(
    alloc: Global,
    out: &mut Vec<u8>,
    report: &CheckReport<'_>,
) -> Result<(), OutOfMemory>
    ensures { OnOk result (out.new.items ≡ out.old.items ++ text_of report.now) }
{
    put_login(alloc, out, report)?;
    put_session(alloc, out, report)?;
    put_parameters(alloc, out, report.parameters)?;
    put_times(alloc, out, report)
}
