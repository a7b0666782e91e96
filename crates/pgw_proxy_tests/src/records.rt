//! Records that are read back, as tables.

use crate::pieces::same;
use pgw_proxy::fault::RecordFault;
use pgw_proxy::reading::read_record;
use pgw_proxy::recorded::Recorded;
use std::alloc::{AllocError, Global};
use std::test::Fail;

// A record in hexadecimal digits, and what it is read as: the letters of the sides, or the fault.
const RECORDS: &[(&str, &str)] = &[
    ("", ""),
    ("000000001200000012000300007573657200626f620000", "c"),
    (
        "00000000080000000804d2162f01000000014e000000001200000012000300007573657200626f620000",
        "csc",
    ),
    ("00", "Truncated 0"),
    (
        "000000001200000012000300007573657200626f6200",
        "Truncated 0",
    ),
    ("00000000080000000804d2162f0100000001", "Truncated 1"),
    ("02", "BadDirection 0 2"),
    ("00000000080000000804d2162fff", "BadDirection 1 255"),
    ("0000000000", "BadMessage 0"),
    ("00000000080000000804d2162f010000000153", "BadMessage 1"),
    (
        "00000000080000000804d2162f00000000080000000804d2162f",
        "BadMessage 1",
    ),
    ("00000000090000000804d2162f00", "BadMessage 0"),
];

fn told(alloc: Global, fault: RecordFault) -> Result<String, AllocError> {
    match fault {
        RecordFault::Truncated(number) => format!(in alloc; "Truncated {number}"),
        RecordFault::BadDirection(number, side) => format!(in alloc;
            "BadDirection {number} {side}"
        ),
        RecordFault::BadMessage(number) => format!(in alloc; "BadMessage {number}"),
        RecordFault::OutOfMemory => String::from_str(alloc, "OutOfMemory"),
    }
}

fn sides(alloc: Global, messages: &[Recorded]) -> Result<String, AllocError> {
    let mut text = String::new(alloc);
    for message in messages {
        match message {
            Recorded::Frontend(_) => text.push('c')?,
            Recorded::Backend(_) => text.push('s')?,
        }
    }
    Ok(text)
}

/// The letters of the sides of a record's messages, or the fault.
pub fn read(alloc: Global, bytes: &[u8]) -> Result<String, AllocError> {
    match read_record(alloc, bytes) {
        Ok(messages) => sides(alloc, messages.as_slice()),
        Err(fault) => told(alloc, fault),
    }
}

#[test]
fn records_are_read(rt: HostRuntime) -> Result<(), Fail> {
    for (record, wanted) in RECORDS {
        let bytes = hex::decode(rt.alloc(), record)?;
        same(read(rt.alloc(), &bytes)?.as_str(), wanted)?;
    }
    Ok(())
}
