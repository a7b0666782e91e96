//! Why a proxy stops, and why a record cannot be read, as people are told.

use crate::pieces::same;
use pgw_proxy::fault::{ProxyFault, RecordFault};
use pgw_types::error::PgWireError;
use std::alloc::Global;
use std::test::Fail;

// Each fault of a proxy, and its text.
fn proxy_faults() -> [(ProxyFault, &'static str); 8] {
    [
        (
            ProxyFault::Client(PgWireError::InvalidMessageType(122)),
            "the client's bytes are refused: invalid message type 122",
        ),
        (
            ProxyFault::Server(PgWireError::InvalidMessageType(255)),
            "the server's bytes are refused: invalid message type 255",
        ),
        (
            ProxyFault::Negotiation,
            "the client goes on before its request for encryption is answered",
        ),
        (ProxyFault::TlsAccepted, "the server goes on encrypted"),
        (
            ProxyFault::ClientIo,
            "a call of the connection to the client failed",
        ),
        (
            ProxyFault::ServerIo,
            "a call of the connection to the server failed",
        ),
        (ProxyFault::Stopped, "the proxy has stopped"),
        (ProxyFault::OutOfMemory, "out of memory"),
    ]
}

// Each fault of a record, and its text.
const RECORD_FAULTS: &[(RecordFault, &str)] = &[
    (RecordFault::Truncated(7), "record 7 is cut short"),
    (
        RecordFault::BadDirection(0, 255),
        "record 0 is of no side: 255",
    ),
    (
        RecordFault::BadMessage(18446744073709551615),
        "record 18446744073709551615 is not one message of its side",
    ),
    (RecordFault::OutOfMemory, "out of memory"),
];

#[test]
fn faults_of_a_proxy_are_told(rt: HostRuntime) -> Result<(), Fail> {
    for (fault, text) in proxy_faults() {
        same(format!(in rt.alloc(); "{fault}")?.as_str(), text)?;
    }
    Ok(())
}

#[test]
fn faults_of_a_record_are_told(rt: HostRuntime) -> Result<(), Fail> {
    for (fault, text) in RECORD_FAULTS {
        same(format!(in rt.alloc(); "{fault}")?.as_str(), text)?;
    }
    Ok(())
}
