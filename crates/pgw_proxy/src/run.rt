//! A proxy between two links.
ghost use Rattle.std.specs.Prelude.{◌≡◌, ◌<◌, [], OnOk};
ghost use Rattle.std.specs.Io.KnownBytes.{Keeps};
ghost use Rattle.pgw_link.specs.Foresight.{TapeEnds, Foreseen};
ghost use Rattle.pgw_link.specs.Tape.{HasTapeCause};
ghost use Rattle.pgw_proxy.specs.Run.{IsRelayForetold, RelaysOr, relay_links, span, start_of};
ghost use Rattle.pgw_proxy.specs.RunSteps.{SideWasRead, Delivers, EndsRelayRun, RelayMoves, RelayStops, end_by, start_by};
ghost use Rattle.pgw_proxy.specs.Stands.{Forwards, ProxyGoesOn};
ghost use Rattle.pgw_proxy.specs.Turns.{graver as graver_of, io_of, other as other_of};

use crate::fault::ProxyFault;
use crate::proxy::Proxy;
use crate::recorded::Side;
use bytes::BytesMut;
use pgw_link::link::Link;
use pgw_link::sending::send;
use pgw_types::memory::OutOfMemory;
use pgw_types::octets::Octets;
use std::alloc::Global;

// The most bytes that one turn reads.
const CHUNK: usize = 8192;

/// What a run of a proxy came to.
#[derive(Debug, Drop)]
pub struct ProxyRun {
    /// The record.
    pub tape: Octets,
    /// Why it stopped before its turns were over.
    pub fault: Option<ProxyFault>,
}

// The other side.
fn other(side: Side) -> Side
    ensures { result ≡ other_of side }
{
    match side {
        Side::Client => Side::Server,
        Side::Server => Side::Client,
    }
}

// The fault that a failed call of the link to a side is.
fn io_fault(side: Side) -> ProxyFault
    ensures { result ≡ io_of side }
{
    match side {
        Side::Client => ProxyFault::ClientIo,
        Side::Server => ProxyFault::ServerIo,
    }
}

// Reads once from the link to a side.
fn read_piece<L: Link>(
    link: &mut L,
    side: Side,
    piece: &mut [u8; CHUNK],
) -> Result<usize, ProxyFault>
    ensures cause { HasTapeCause (L.faults link.old) (L.faults link.new) result }
    ensures calm { OnOk result (L.faults link.new ≡ L.faults link.old) }
    ensures came { SideWasRead side (L.tape link.old) (L.tape link.new) piece.new result }
    ensures kept { L.plan link.new ≡ L.plan link.old }
    ensures foreseen { L.foretells → Foreseen (L.left link.old) (L.left link.new)
        (L.tape link.old) (L.tape link.new) }
    ensures ends { L.foretells → TapeEnds (L.left link.new) (L.tape link.old) (L.tape link.new) }
{
    match link.read(&mut piece[..CHUNK]) {
        Ok(n) => Ok(n),
        Err(_) => Err(io_fault(side)),
    }
}

// Has the proxy take a piece of a side.
fn pass(
    alloc: Global,
    side: Side,
    proxy: &mut Proxy,
    piece: &[u8],
    out: &mut BytesMut,
    tape: &mut BytesMut,
) -> Result<(), ProxyFault>
    requires { ProxyGoesOn proxy.old }
    ensures { Forwards side proxy.old proxy.new piece.now out.old.items out.new.items
        tape.old.items tape.new.items result }
{
    match side {
        Side::Client => proxy.from_client(alloc, piece, out, tape),
        Side::Server => proxy.from_server(alloc, piece, out, tape),
    }
}

// Writes what is due to a side, and flushes; nothing where nothing is due.
fn deliver<L: Link>(link: &mut L, side: Side, due: &[u8]) -> Result<(), ProxyFault>
    ensures cause { HasTapeCause (L.faults link.old) (L.faults link.new) result }
    ensures calm { OnOk result (L.faults link.new ≡ L.faults link.old) }
    ensures left { L.foretells → Keeps (L.left link.old) (L.left link.new) }
    ensures kept { L.plan link.new ≡ L.plan link.old }
    ensures delivers { Delivers side (L.tape link.old) (L.tape link.new) due.now result }
{
    if due.is_empty() {
        return Ok(());
    }
    match send(link, due) {
        Ok(()) => Ok(()),
        Err(_) => Err(io_fault(side)),
    }
}

// Why a turn stops whose write failed: want of memory goes before.
fn graver(passed: Result<(), ProxyFault>, fault: ProxyFault) -> ProxyFault
    ensures { result ≡ graver_of passed fault }
{
    match passed {
        Err(ProxyFault::OutOfMemory) => {
            drop(fault);
            ProxyFault::OutOfMemory
        }
        passed => {
            drop(passed);
            fault
        }
    }
}

// One turn: reads a piece of a side, and passes on what is whole then to the other.
fn turn<F: Link, T: Link>(
    alloc: Global,
    side: Side,
    proxy: &mut Proxy,
    from: &mut F,
    to: &mut T,
    piece: &mut [u8; CHUNK],
    tape: &mut BytesMut,
) -> Result<(), ProxyFault>
    requires { ProxyGoesOn proxy.old }
    ensures turn { RelayMoves side proxy.old proxy.new tape.old.items tape.new.items
        (start_by side (span F.tape F.left F.faults from.old from.new)
        (span T.tape T.left T.faults to.old to.new))
        (end_by side (span F.tape F.left F.faults from.old from.new)
        (span T.tape T.left T.faults to.old to.new))
        result }
    ensures from { F.foretells → IsRelayForetold (span F.tape F.left F.faults from.old from.new) }
    ensures to { T.foretells → IsRelayForetold (span T.tape T.left T.faults to.old to.new) }
    ensures kept { (F.plan from.new ≡ F.plan from.old) × (T.plan to.new ≡ T.plan to.old) }
{
    let n = match read_piece(from, side, piece) {
        Ok(n) => n,
        Err(fault) => return Err(fault),
    };
    if n == 0 {
        return Ok(());
    }
    let mut due = BytesMut::new(alloc);
    let passed = pass(alloc, side, proxy, &piece[..n], &mut due, tape);
    match deliver(to, other(side), due.as_slice()) {
        Ok(()) => passed,
        Err(fault) => Err(graver(passed, fault)),
    }
}

// One turn between the two links, by whose it is.
fn turn_of<A: Link, B: Link>(
    alloc: Global,
    side: Side,
    proxy: &mut Proxy,
    client: &mut A,
    server: &mut B,
    piece: &mut [u8; CHUNK],
    tape: &mut BytesMut,
) -> Result<(), ProxyFault>
    requires { ProxyGoesOn proxy.old }
    ensures turn { RelayMoves side proxy.old proxy.new tape.old.items tape.new.items
        (start_of (span A.tape A.left A.faults client.old client.new)
        (span B.tape B.left B.faults server.old server.new))
        (relay_links (span A.tape A.left A.faults client.old client.new)
        (span B.tape B.left B.faults server.old server.new))
        result }
    ensures client { A.foretells → IsRelayForetold
        (span A.tape A.left A.faults client.old client.new) }
    ensures server { B.foretells → IsRelayForetold
        (span B.tape B.left B.faults server.old server.new) }
    ensures kept { (A.plan client.new ≡ A.plan client.old)
        × (B.plan server.new ≡ B.plan server.old) }
{
    match side {
        Side::Client => turn(alloc, Side::Client, proxy, client, server, piece, tape),
        Side::Server => turn(alloc, Side::Server, proxy, server, client, piece, tape),
    }
}

// The turns of a proxy, up to the first fault.
fn take_turns<A: Link, B: Link>(
    alloc: Global,
    client: &mut A,
    server: &mut B,
    turns: &[Side],
    tape: &mut BytesMut,
) -> Result<(), ProxyFault>
    requires { tape.old.items ≡ [] }
    ensures relays { RelayStops turns.now (span A.tape A.left A.faults client.old client.new)
        (span B.tape B.left B.faults server.old server.new) tape.new.items result }
    ensures client { A.foretells → IsRelayForetold
        (span A.tape A.left A.faults client.old client.new) }
    ensures server { B.foretells → IsRelayForetold
        (span B.tape B.left B.faults server.old server.new) }
    ensures kept { (A.plan client.new ≡ A.plan client.old)
        × (B.plan server.new ≡ B.plan server.old) }
{
    let mut proxy = Proxy::new(alloc);
    let mut piece = [0u8; CHUNK];
    for side in turns {
        match turn_of(alloc, *side, &mut proxy, client, server, &mut piece, tape) {
            Ok(()) => {}
            Err(fault) => return Err(fault),
        }
    }
    Ok(())
}

// The record with the fault, unless memory was wanting.
fn ended(tape: BytesMut, stopped: Result<(), ProxyFault>) -> Result<ProxyRun, OutOfMemory>
    ensures { EndsRelayRun tape.items stopped result }
{
    let mut tape = tape;
    let len = tape.len();
    let fault = match stopped {
        Ok(()) => None,
        Err(ProxyFault::OutOfMemory) => return Err(OutOfMemory),
        Err(fault) => Some(fault),
    };
    match tape.freeze_to(len) {
        Ok(bytes) => Ok(ProxyRun {
            tape: Octets::from_bytes(bytes),
            fault,
        }),
        Err(_) => {
            drop(fault);
            Err(OutOfMemory)
        }
    }
}

/// Runs a proxy between a client and a server, in these turns: each reads once from its side, at most
/// 8192 bytes, and writes to the other side, and flushes, what is whole then. It ends with the turns or
/// with the first fault. A side that has ended passes nothing on, and is no fault.
pub fn run_proxy<A: Link, B: Link>(
    alloc: Global,
    client: &mut A,
    server: &mut B,
    turns: &[Side],
) -> Result<ProxyRun, OutOfMemory>
    ensures relays { RelaysOr turns.now (span A.tape A.left A.faults client.old client.new)
        (span B.tape B.left B.faults server.old server.new) A.foretells B.foretells result }
    // What the links were made with stays.
    ensures kept { (A.plan client.new ≡ A.plan client.old)
        × (B.plan server.new ≡ B.plan server.old) }
{
    let mut tape = BytesMut::new(alloc);
    let stopped = take_turns(alloc, client, server, turns, &mut tape);
    ended(tape, stopped)
}
