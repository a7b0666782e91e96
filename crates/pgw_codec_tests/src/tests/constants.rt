//! Numbers of the protocol. The check evaluates each constant, and so needs no test.

use pgw_control::gss_enc_request::GssEncRequest;
use pgw_control::ssl_request::SslRequest;
use pgw_ext::extendedquery::{TARGET_TYPE_BYTE_PORTAL, TARGET_TYPE_BYTE_STATEMENT};
use pgw_query::data::{FORMAT_CODE_BINARY, FORMAT_CODE_TEXT};
use pgw_query::response::{
    READY_STATUS_FAILED_TRANSACTION_BLOCK, READY_STATUS_IDLE, READY_STATUS_TRANSACTION_BLOCK,
};
use pgw_startup::response::{GssEncResponse, SslResponse};
use pgw_startup::startup::Startup;
use pgw_types::context::ProtocolVersion;

const _: () = prove_eq!(Startup::PROTOCOL_VERSION_3_0, 196608);

const _: () = prove_eq!(Startup::PROTOCOL_VERSION_3_2, 196610);

const _: () = prove_eq!(Startup::PG_PROTOCOL_EARLIEST, 3);

const _: () = prove_eq!(Startup::PG_PROTOCOL_LATEST, 3);

const _: () = prove_eq!(SslRequest::BODY_MAGIC_NUMBER, 80877103);

const _: () = prove_eq!(GssEncRequest::BODY_MAGIC_NUMBER, 80877104);

const _: () = prove_eq!(TARGET_TYPE_BYTE_STATEMENT, b'S');

const _: () = prove_eq!(TARGET_TYPE_BYTE_PORTAL, b'P');

const _: () = prove_eq!(READY_STATUS_IDLE, b'I');

const _: () = prove_eq!(READY_STATUS_TRANSACTION_BLOCK, b'T');

const _: () = prove_eq!(READY_STATUS_FAILED_TRANSACTION_BLOCK, b'E');

const _: () = prove_eq!(SslResponse::BYTE_ACCEPT, b'S');

const _: () = prove_eq!(SslResponse::BYTE_REFUSE, b'N');

const _: () = prove_eq!(GssEncResponse::BYTE_ACCEPT, b'G');

const _: () = prove_eq!(GssEncResponse::BYTE_REFUSE, b'N');

const _: () = prove_eq!(SslRequest::BODY_SIZE, 8);

const _: () = prove_eq!(GssEncRequest::BODY_SIZE, 8);

const _: () = prove_eq!(SslResponse::MESSAGE_LENGTH, 1);

const _: () = prove_eq!(GssEncResponse::MESSAGE_LENGTH, 1);

const _: () = prove_eq!(FORMAT_CODE_TEXT, 0);

const _: () = prove_eq!(FORMAT_CODE_BINARY, 1);

const VERSIONS: &[(ProtocolVersion, i32)] = &[
    (ProtocolVersion::PROTOCOL3_0, 196608),
    (ProtocolVersion::PROTOCOL3_2, 196610),
    (ProtocolVersion::PROTOCOL3_9999, 206607),
];

#[test]
fn versions(rt: HostRuntime) {
    for (version, want) in VERSIONS {
        assert!(rt; i32::from(*version) == *want);
    }
}
