//! The login of a pair script.
ghost use Rattle.std.specs.Prelude.{◌≡◌, ◌<◌, ◌++◌, OnOk, IfOk};
ghost use Rattle.pgw_prog.specs.Held.{Says};
ghost use Rattle.pgw_prog.specs.Pair.{pair_input, client_refusal, client_line, server_refusal, server_line, pair_text, PrintsEnds, PrintsPair};

use crate::printed::Printed;
use pgw_backend::client_error::PgWireClientError;
use pgw_hash::pbkdf2::gen_salted_password;
use pgw_login_pair::parties::{ClientEnd, PairInput, PairOutcome, ServerEnd};
use pgw_login_pair::two_party;
use pgw_prog_script::pair_script::PairScript;
use pgw_prog_sessions::error_names::{put_client_name, put_wire_name};
use pgw_prog_sessions::pieces::put;
use pgw_scram::password::Password;
use pgw_types::error::PgWireError;
use pgw_types::memory::OutOfMemory;
use pgw_types::octets::Octets;
use std::alloc::Global;

#[tactic(auto, unfolding(crate::specs::Pair::client_refusal))]
fn put_client_refusal(out: &mut Vec<u8>, error: &PgWireClientError) -> Result<(), OutOfMemory>
    ensures { OnOk result (out.new.items ≡ out.old.items ++ client_refusal error.now) }
{
    put(out, b"client refused ")?;
    put_client_name(out, error)?;
    put(out, b"\n")
}

#[tactic(auto, unfolding(crate::specs::Pair::client_line))]
fn put_client(out: &mut Vec<u8>, end: &ClientEnd) -> Result<(), OutOfMemory>
    ensures { OnOk result (out.new.items ≡ out.old.items ++ client_line end.now) }
{
    match end {
        ClientEnd::Waiting => put(out, b"client waiting\n"),
        ClientEnd::Ready(_) => put(out, b"client ready\n"),
        ClientEnd::Refused(error) => put_client_refusal(out, error),
    }
}

#[tactic(auto, unfolding(crate::specs::Pair::server_refusal))]
fn put_server_refusal(out: &mut Vec<u8>, error: &PgWireError) -> Result<(), OutOfMemory>
    ensures { OnOk result (out.new.items ≡ out.old.items ++ server_refusal error.now) }
{
    put(out, b"server refused ")?;
    put_wire_name(out, error)?;
    put(out, b"\n")
}

#[tactic(auto, unfolding(crate::specs::Pair::server_line))]
fn put_server(out: &mut Vec<u8>, end: &ServerEnd) -> Result<(), OutOfMemory>
    ensures { OnOk result (out.new.items ≡ out.old.items ++ server_line end.now) }
{
    match end {
        ServerEnd::Waiting => put(out, b"server waiting\n"),
        ServerEnd::Finished => put(out, b"server finished\n"),
        ServerEnd::Refused(error) => put_server_refusal(out, error),
    }
}

fn put_pair(out: &mut Vec<u8>, outcome: &PairOutcome) -> Result<(), OutOfMemory>
    ensures { OnOk result (out.new.items ≡ out.old.items ++ pair_text outcome.now) }
{
    put_client(out, &outcome.client)?;
    put_server(out, &outcome.server)
}

// What the server keeps of a password.
fn kept(alloc: Global, script: &PairScript) -> Result<Password, OutOfMemory>
    requires { 0 < script.now.count }
    ensures { IfOk result (λ kept. kept ≡ (pair_input script.now).stored) }
{
    let key = gen_salted_password(
        alloc,
        script.stored.as_str(),
        script.salt.as_slice(),
        script.count,
    )?;
    let salt = Octets::from_slice(alloc, script.salt.as_slice())?;
    Ok(Password::new(Some(salt), Octets::from_slice(alloc, &key)?))
}

// The login that a script asks for.
fn input_of(alloc: Global, script: PairScript) -> Result<PairInput, OutOfMemory>
    requires { 0 < script.count }
    ensures { IfOk result (λ input. input ≡ pair_input script) }
{
    let stored = kept(alloc, &script)?;
    let password = Octets::from_slice(alloc, script.password.as_str().as_bytes())?;
    let PairScript {
        user,
        count,
        client_nonce,
        server_nonce,
        words,
        client_hash,
        server_hash,
        schedule,
        ..
    } = script;
    Ok(PairInput {
        user,
        password,
        stored,
        count,
        client_nonce,
        server_nonce,
        words,
        client_hash,
        server_hash,
        schedule,
    })
}

fn print_pair(alloc: Global, outcome: PairOutcome) -> Result<Printed, OutOfMemory>
    ensures { IfOk result (λ p. Says p (pair_text outcome) 0) }
{
    let mut text = Vec::new(alloc);
    let put = put_pair(&mut text, &outcome);
    drop(outcome);
    put?;
    Ok(Printed {
        text,
        status: 0,
        told: String::new(alloc),
    })
}

// Holds a login, and prints where both ends are behind its events.
fn hold(alloc: Global, input: &PairInput) -> Result<Printed, OutOfMemory>
    requires { 0 < input.now.count }
    ensures { IfOk result (PrintsEnds input.now) }
{
    match two_party(alloc, input) {
        Ok(outcome) => print_pair(alloc, outcome),
        Err(OutOfMemory) => Err(OutOfMemory),
    }
}

/// Holds a script's login, and prints where both ends are behind its events.
pub fn hold_pair(alloc: Global, script: PairScript) -> Result<Printed, OutOfMemory>
    requires { 0 < script.count }
    ensures { IfOk result (PrintsPair script) }
{
    let input = input_of(alloc, script)?;
    let printed = hold(alloc, &input);
    drop(input);
    printed
}
