//! The session of a script.
ghost use Rattle.std.specs.Prelude.{◌≡◌, ◌≢◌, ◌<◌, ◌≤◌, ◌+◌, ◌*◌, ◌||◌, nat_lt, [], length, Ok, Err, IfOk, OnOk, IsErrOf};
ghost use Rattle.pgw_backend.specs.declared.client_error.PgWireClientError.TheVariants as client;
ghost use Rattle.pgw_prog.specs.Held.{exit_status as status_for, Says, PrintsSession, PrintsOutcome, Holds};
ghost use Rattle.pgw_session.specs.Input.{input_with};
ghost use Rattle.pgw_link.specs.Calls.{is_reached, call_number};
ghost use Rattle.pgw_link.specs.Memory.{memory_tape, memory_left, faults_of, making_of};
ghost use Rattle.pgw_link.specs.Tape.{new_tape};
ghost use Rattle.pgw_prog_sessions.specs.SessionText.{session_text};

use crate::printed::Printed;
use crate::told::{told_of_outcome, told_of_refusal};
use pgw_backend::client_error::{PgWireClientError, PgWireClientResult};
use pgw_client::session::run_session;
use pgw_config::config::Config;
use pgw_link::memory::MemoryLink;
use pgw_prog_script::script::Script;
use pgw_prog_script::server_bytes::ServerBytes;
use pgw_prog_sessions::session_text::put_session;
use pgw_session::types::{Request, SessionReport};
use pgw_types::context::ProtocolVersion;
use pgw_types::listed::Listed;
use pgw_types::memory::OutOfMemory;
use pgw_types::octets::Octets;
use pgw_types::text::Text;
use std::alloc::Global;

/// The status to end with. Want of memory is no answer to be printed.
pub fn status_of(outcome: &PgWireClientResult<SessionReport>) -> Result<u8, OutOfMemory>
    ensures value { IfOk result (λ status. status ≡ status_for outcome.now) }
    ensures bound { IfOk result (λ status. status ≤ 1) }
    ensures memory { OnOk result (IsErrOf outcome.now client.OutOfMemory → ⊥) }
{
    match outcome {
        Ok(_) => Ok(0),
        Err(PgWireClientError::OutOfMemory) => Err(OutOfMemory),
        Err(_) => Ok(1),
    }
}

// A configuration with a script's version and its hash of the server's certificate.
fn configured(
    mut config: Config,
    version: ProtocolVersion,
    certificate_hash: Option<Octets>,
) -> Config
    ensures { result ≡ record config {
      protocol_version = version;
      certificate_hash = certificate_hash;
    } }
{
    config.protocol_version(version);
    config.certificate_hash = certificate_hash;
    config
}

// Prints a session's report or its error behind what was written. Want of memory is no answer to be printed.
fn print_with(
    alloc: Global,
    written: &[u8],
    outcome: &PgWireClientResult<SessionReport>,
    told: String,
) -> Result<Printed, OutOfMemory>
    ensures says { IfOk result (λ p. Says p (session_text written.now outcome.now)
        (status_for outcome.now)) }
    ensures memory { OnOk result (IsErrOf outcome.now client.OutOfMemory → ⊥) }
{
    let status = status_of(outcome)?;
    let mut text = Vec::new(alloc);
    put_session(&mut text, written, outcome)?;
    Ok(Printed { text, status, told })
}

fn print_session(
    alloc: Global,
    written: &[u8],
    outcome: &PgWireClientResult<SessionReport>,
) -> Result<Printed, OutOfMemory>
    ensures says { IfOk result (λ p. Says p (session_text written.now outcome.now)
        (status_for outcome.now)) }
    ensures memory { OnOk result (IsErrOf outcome.now client.OutOfMemory → ⊥) }
{
    print_with(alloc, written, outcome, told_of_outcome(alloc, outcome))
}

// Prints what a session over this link gave.
fn print_outcome(
    alloc: Global,
    link: &MemoryLink,
    outcome: &PgWireClientResult<SessionReport>,
) -> Result<Printed, OutOfMemory>
    ensures text { IfOk result (λ p. p.text.items
        ≡ session_text (memory_tape link.now).wrote outcome.now) }
    ensures status { IfOk result (λ p. p.status ≡ status_for outcome.now) }
    ensures memory { OnOk result (IsErrOf outcome.now client.OutOfMemory → ⊥) }
    ensures taken { OnOk result (length (making_of link.now).server
        ≤ length (memory_left link.now) + (making_of link.now).cut * (memory_tape link.now).reads) }
    ensures sent { OnOk result (length (memory_tape link.now).wrote
        ≤ (making_of link.now).cut * (memory_tape link.now).writes) }
    ensures fails { OnOk result (nat_lt 0 (faults_of link.now)
        ≡ (is_reached (making_of link.now).reads (call_number (memory_tape link.now).reads)
        || is_reached (making_of link.now).writes (call_number (memory_tape link.now).writes))) }
{
    if link.was_short_of_memory() {
        return Err(OutOfMemory);
    }
    print_session(alloc, link.written(), outcome)
}

// Holds a session over a link in memory, and prints it.
fn run(
    alloc: Global,
    link: &mut MemoryLink,
    config: &Config,
    requests: &[Request],
    nonce: &[u8; 18],
    limit: u64,
) -> Result<Printed, OutOfMemory>
    requires new { memory_tape link.old ≡ new_tape }
    requires left { memory_left link.old ≡ (making_of link.old).server }
    requires faultless { faults_of link.old ≡ 0 }
    ensures { IfOk result (PrintsSession (input_with config.now requests.now nonce.now) limit
        (making_of link.old)) }
{
    let outcome = run_session(alloc, link, config, requests, nonce, limit);
    let printed = print_outcome(alloc, link, &outcome);
    drop(outcome);
    printed
}

// The link of a script: what its server sends, and which calls fail.
pub fn link_of(
    alloc: Global,
    server: ServerBytes,
    cut: usize,
    fail_reads: Listed<u64>,
    fail_writes: Listed<u64>,
) -> Result<MemoryLink, OutOfMemory>
    requires { 0 < cut }
    ensures made { IfOk result (λ link. making_of link
        ≡ record { server = server; cut = cut; reads = fail_reads; writes = fail_writes }) }
    ensures first { IfOk result (λ link. memory_tape link ≡ new_tape) }
    ensures left { IfOk result (λ link. memory_left link ≡ (making_of link).server) }
    ensures faultless { IfOk result (λ link. faults_of link ≡ 0) }
{
    let server = server.into_octets()?;
    Ok(MemoryLink::new(alloc, server, cut, fail_reads, fail_writes))
}

// Holds the session of a script with the configuration of its connection text, and prints it.
fn hold_with(alloc: Global, script: Script, config: Config) -> Result<Printed, OutOfMemory>
    requires { 0 < script.cut }
    ensures { IfOk result (PrintsOutcome script (Ok config)) }
{
    let Script {
        protocol_version,
        certificate_hash,
        nonce,
        limit,
        cut,
        fail_reads,
        fail_writes,
        requests,
        server,
        ..
    } = script;
    let config = configured(config, protocol_version, certificate_hash);
    let held = match link_of(alloc, server, cut, fail_reads, fail_writes) {
        Ok(mut link) => run(
            alloc,
            &mut link,
            &config,
            requests.as_slice(),
            &nonce,
            limit,
        ),
        Err(error) => Err(error),
    };
    drop(requests);
    drop(config);
    held
}

// Prints why a connection text is refused. Want of memory is no refusal to be printed.
fn print_refusal(
    alloc: Global,
    text: &str,
    error: PgWireClientError,
) -> Result<Printed, OutOfMemory>
    ensures says { IfOk result (λ p. Says p (session_text [] (Err error)) 1) }
    ensures memory { OnOk result (error ≢ client.OutOfMemory) }
{
    let told = told_of_refusal(alloc, text, &error);
    let outcome = Err(error);
    let printed = print_with(alloc, b"", &outcome, told);
    drop(outcome);
    printed
}

/// Holds a script's session and prints it, or prints why its connection text is refused.
pub fn hold(alloc: Global, script: Script) -> Result<Printed, OutOfMemory>
    requires { 0 < script.cut }
    ensures { IfOk result (Holds script) }
{
    match Config::parse(alloc, script.config.as_str()) {
        Ok(config) => hold_with(alloc, script, config),
        Err(error) => {
            let error = PgWireClientError::from(error);
            print_refusal(alloc, script.config.as_str(), error)
        }
    }
}
