//! Records that are read back.
ghost use Rattle.std.specs.Prelude.{◌≡◌, ◌⊎◌, List, map, Ok, Err};
ghost use Rattle.pgw_proxy.specs.declared.fault.RecordFault.TheVariants as faults;
ghost use Rattle.pgw_proxy.specs.Proxied.{SideEvent, RelayCourse, Proxied};
ghost use Rattle.pgw_proxy.specs.Record.{RelayMessage, record_of};
ghost use Rattle.pgw_proxy.specs.Reading.{held_by as side_held, entry_at as entry_found, IsRelayReadAs};
ghost use Rattle.pgw_proxy.specs.ReadingSteps.{Finds, Becomes, is_relay_wanting as wanting};

use crate::context::Context;
use crate::fault::{ProxyFault, RecordFault};
use crate::front::take_message;
use crate::recorded::{Recorded, Side};
use pgw_types::listed::Listed;
use pgw_types::octets::Octets;
use pgw_wire::header::length_at;
use std::alloc::Global;

// The side, its message's bytes, and the records behind it.
#[derive(Clone, Copy, Drop)]
struct Entry<'a> {
    side: Side,
    message: &'a [u8],
    rest: &'a [u8],
}

// What stands behind the byte that names the side.
fn held_by(side: Side, bytes: &[u8], number: u64) -> Result<Entry<'_>, RecordFault>
    ensures { Finds number (side_held side bytes.now) result }
{
    if bytes.len() < 4 {
        return Err(RecordFault::Truncated(number));
    }
    let end = length_at(bytes, 0) as usize + 4;
    if bytes.len() < end {
        return Err(RecordFault::Truncated(number));
    }
    Ok(Entry {
        side,
        message: &bytes[4..end],
        rest: &bytes[end..],
    })
}

// What stands at the front.
#[tactic(auto, unfolding(crate::specs::Reading::entry_at))]
fn entry_at(bytes: &[u8], number: u64) -> Result<Entry<'_>, RecordFault>
    ensures { Finds number (entry_found bytes.now) result }
{
    match bytes {
        [] => Err(RecordFault::Truncated(number)),
        [0, rest @ ..] => held_by(Side::Client, rest, number),
        [1, rest @ ..] => held_by(Side::Server, rest, number),
        [direction, ..] => Err(RecordFault::BadDirection(number, *direction)),
    }
}

fn is_wanting(fault: &ProxyFault) -> bool
    ensures { result ≡ wanting fault.now }
{
    matches!(fault, ProxyFault::OutOfMemory)
}

// What a message's bytes are read as, where they are one message and no more.
fn read_message(
    alloc: Global,
    side: Side,
    context: &mut Context,
    bytes: &[u8],
    number: u64,
) -> Result<Recorded, RecordFault>
    ensures { Becomes side context.old bytes.now context.new number result }
{
    let mut left = match Octets::from_slice(alloc, bytes) {
        Ok(left) => left,
        Err(_) => return Err(RecordFault::OutOfMemory),
    };
    match take_message(alloc, side, context, &mut left) {
        Ok(Some(message)) => {
            if left.is_empty() {
                return Ok(message);
            }
            drop(message);
            Err(RecordFault::BadMessage(number))
        }
        Ok(None) => Err(RecordFault::BadMessage(number)),
        Err(fault) => {
            let is_wanting = is_wanting(&fault);
            drop(fault);
            if is_wanting {
                Err(RecordFault::OutOfMemory)
            } else {
                Err(RecordFault::BadMessage(number))
            }
        }
    }
}

/// Reads a record back: the messages that were passed on, of both sides, in order.
///
/// The first record that is faulty decides.
pub fn read_record(alloc: Global, bytes: &[u8]) -> Result<Listed<Recorded>, RecordFault>
    // What it is read as, or why not.
    ensures exact { IsRelayReadAs bytes.now result }
    // The record of a list of events gives the messages of that list, in order.
    ensures back { (events : List SideEvent) (messages : List RelayMessage) (course : RelayCourse) →
        Proxied events messages course → bytes.now ≡ record_of messages →
        (result ≡ Ok (map (λ m. m.message) messages)) ⊎ (result ≡ Err faults.OutOfMemory) }
{
    let mut messages = Listed::new(alloc);
    let mut context = Context::new();
    let mut rest = bytes;
    let mut number: u64 = 0;
    while rest.len() > 0 {
        let entry = match entry_at(rest, number) {
            Ok(entry) => entry,
            Err(fault) => return Err(fault),
        };
        let read = read_message(alloc, entry.side, &mut context, entry.message, number);
        let message = match read {
            Ok(message) => message,
            Err(fault) => return Err(fault),
        };
        match messages.push(message) {
            Ok(()) => {}
            Err(_) => return Err(RecordFault::OutOfMemory),
        }
        rest = entry.rest;
        number += 1;
    }
    Ok(messages)
}
