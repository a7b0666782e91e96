//! The proxy of a relay script.
ghost use Rattle.std.specs.Prelude.{◌≡◌, ◌<◌, ◌≤◌, ◌++◌, IfOk, OnOk};
ghost use Rattle.pgw_link.specs.Memory.{memory_tape, making_of};
ghost use Rattle.pgw_prog.specs.Held.{Says};
ghost use Rattle.pgw_prog.specs.Relay.{bytes_line, fault_name, fault_line, relay_text, relay_status as status_for, IsFaultless, IsNewLink, LinkWentWell, PrintsRelayRun, PrintsRelay};

use crate::held::link_of;
use crate::printed::Printed;
use crate::told::told_of_fault;
use pgw_link::memory::MemoryLink;
use pgw_prog_script::relay_script::RelayScript;
use pgw_prog_sessions::pieces::{put, put_hex};
use pgw_proxy::fault::ProxyFault;
use pgw_proxy::recorded::Side;
use pgw_proxy::run::{ProxyRun, run_proxy};
use pgw_types::listed::Listed;
use pgw_types::memory::OutOfMemory;
use std::alloc::Global;

// A word, and bytes.
fn put_line(out: &mut Vec<u8>, word: &[u8], bytes: &[u8]) -> Result<(), OutOfMemory>
    ensures { OnOk result (out.new.items ≡ out.old.items ++ bytes_line word.now bytes.now) }
{
    put(out, word)?;
    put_hex(out, bytes)?;
    put(out, b"\n")
}

#[tactic(auto, unfolding(crate::specs::Relay::fault_name))]
fn put_fault_name(out: &mut Vec<u8>, fault: &ProxyFault) -> Result<(), OutOfMemory>
    ensures { OnOk result (out.new.items ≡ out.old.items ++ fault_name fault.now) }
{
    match fault {
        ProxyFault::Client(_) => put(out, b"Client"),
        ProxyFault::Server(_) => put(out, b"Server"),
        ProxyFault::Negotiation => put(out, b"Negotiation"),
        ProxyFault::TlsAccepted => put(out, b"TlsAccepted"),
        ProxyFault::ClientIo => put(out, b"ClientIo"),
        ProxyFault::ServerIo => put(out, b"ServerIo"),
        ProxyFault::Stopped => put(out, b"Stopped"),
        ProxyFault::OutOfMemory => put(out, b"OutOfMemory"),
    }
}

#[tactic(auto, unfolding(crate::specs::Relay::fault_line))]
fn put_fault(out: &mut Vec<u8>, fault: &Option<ProxyFault>) -> Result<(), OutOfMemory>
    ensures { OnOk result (out.new.items ≡ out.old.items ++ fault_line fault.now) }
{
    match fault {
        None => Ok(()),
        Some(fault) => {
            put(out, b"error ")?;
            put_fault_name(out, fault)?;
            put(out, b"\n")
        }
    }
}

#[tactic(auto, unfolding(crate::specs::Relay::relay_text))]
fn put_relay(
    out: &mut Vec<u8>,
    to_server: &[u8],
    to_client: &[u8],
    run: &ProxyRun,
) -> Result<(), OutOfMemory>
    ensures { OnOk result
        (out.new.items ≡ out.old.items ++ relay_text to_server.now to_client.now run.now) }
{
    put_line(out, b"to-server ", to_server)?;
    put_line(out, b"to-client ", to_client)?;
    put_line(out, b"record ", run.tape.as_slice())?;
    put_fault(out, &run.fault)
}

fn status_of(fault: &Option<ProxyFault>) -> u8
    ensures value { result ≡ status_for fault.now }
    ensures bound { result ≤ 1 }
{
    match fault {
        None => 0,
        Some(_) => 1,
    }
}

// What was written to a side, over a link of which no call failed.
fn sent_over(link: &MemoryLink) -> Result<&[u8], OutOfMemory>
    requires { IsFaultless link.now }
    ensures sent { IfOk result (λ bytes. bytes.now ≡ (memory_tape link.now).wrote) }
    ensures well { OnOk result (LinkWentWell link.now) }
{
    if link.was_short_of_memory() {
        return Err(OutOfMemory);
    }
    Ok(link.written())
}

// Prints what was passed on to each side, and the record.
fn print_run(
    alloc: Global,
    to_server: &[u8],
    to_client: &[u8],
    run: &ProxyRun,
) -> Result<Printed, OutOfMemory>
    ensures { IfOk result (λ p. Says p (relay_text to_server.now to_client.now run.now)
        (status_for run.now.fault)) }
{
    let mut text = Vec::new(alloc);
    put_relay(&mut text, to_server, to_client, run)?;
    Ok(Printed {
        text,
        status: status_of(&run.fault),
        told: told_of_fault(alloc, &run.fault),
    })
}

// Prints a run over these links, where memory sufficed.
fn print_over(
    alloc: Global,
    client: &MemoryLink,
    server: &MemoryLink,
    run: &ProxyRun,
) -> Result<Printed, OutOfMemory>
    requires client { IsFaultless client.now }
    requires server { IsFaultless server.now }
    ensures says { IfOk result (λ p. Says p
        (relay_text (memory_tape server.now).wrote (memory_tape client.now).wrote run.now)
        (status_for run.now.fault)) }
    ensures client { OnOk result (LinkWentWell client.now) }
    ensures server { OnOk result (LinkWentWell server.now) }
{
    let to_server = sent_over(server)?;
    let to_client = sent_over(client)?;
    print_run(alloc, to_server, to_client, run)
}

// Runs a proxy between two new links in memory, and prints it.
fn run_over(
    alloc: Global,
    client: &mut MemoryLink,
    server: &mut MemoryLink,
    turns: &[Side],
) -> Result<Printed, OutOfMemory>
    requires client { IsNewLink client.old }
    requires server { IsNewLink server.old }
    ensures { IfOk result
        (PrintsRelayRun turns.now (making_of client.old) (making_of server.old)) }
{
    let run = run_proxy(alloc, client, server, turns)?;
    let printed = print_over(alloc, client, server, &run);
    drop(run);
    printed
}

/// Runs the proxy of a script, and prints what was passed on to each side, and the record.
pub fn hold_relay(alloc: Global, script: RelayScript) -> Result<Printed, OutOfMemory>
    requires { 0 < script.cut }
    ensures { IfOk result (PrintsRelay script) }
{
    let RelayScript {
        cut,
        client,
        server,
        turns,
    } = script;
    let mut client = link_of(alloc, client, cut, Listed::new(alloc), Listed::new(alloc))?;
    let mut server = link_of(alloc, server, cut, Listed::new(alloc), Listed::new(alloc))?;
    let printed = run_over(alloc, &mut client, &mut server, turns.as_slice());
    drop(turns);
    printed
}
