//! What is shown of messages that hold a secret, and what is cut from octets.

use crate::tests::login::{Kind, family};
use crate::tests::shared::{same, told};
use pgw_backend::backend::PgWireBackendMessage;
use pgw_frontend::frontend::PgWireFrontendMessage;
use pgw_types::context::DecodeContext;
use pgw_types::memory::OutOfMemory;
use pgw_types::octets::Octets;
use pgw_wire::secret_key::SecretKey;
use std::alloc::Global;
use std::test::Fail;

// A message among all messages of a client.
fn among_all(alloc: Global, kind: Kind) -> Result<PgWireFrontendMessage, OutOfMemory> {
    let message = family(alloc, kind)?;
    Ok(PgWireFrontendMessage::PasswordMessageFamily(message))
}

const SHOWN: &[(Kind, &str, &str)] = &[
    (Kind::Raw, "Ok(Raw(_))", "Ok(PasswordMessageFamily(Raw(_)))"),
    (
        Kind::Password,
        "Ok(Password(_))",
        "Ok(PasswordMessageFamily(Password(_)))",
    ),
    (
        Kind::Initial,
        "Ok(SASLInitialResponse(_))",
        "Ok(PasswordMessageFamily(SASLInitialResponse(_)))",
    ),
    (
        Kind::Response,
        "Ok(SASLResponse(_))",
        "Ok(PasswordMessageFamily(SASLResponse(_)))",
    ),
];

// Both kinds of a key.
fn keys(alloc: Global) -> Result<(SecretKey, SecretKey), OutOfMemory> {
    let key = SecretKey::I32(1);
    let bytes = SecretKey::Bytes(key.to_bytes(alloc)?);
    Ok((key, bytes))
}

#[test]
fn no_secret_is_shown(rt: HostRuntime) -> Result<(), Fail> {
    for (kind, alone, all) in SHOWN {
        same(told(rt.alloc(), family(rt.alloc(), *kind)), alone)?;
        same(told(rt.alloc(), among_all(rt.alloc(), *kind)), all)?;
    }
    let shown = told(rt.alloc(), keys(rt.alloc()));
    same(shown, "Ok((SecretKey(_), SecretKey(_)))")
}

// What is taken at the front.
fn taken(alloc: Global, octets: &mut Octets) -> Result<String, OutOfMemory> {
    let found = PgWireBackendMessage::decode_from(alloc, octets, &DecodeContext::default());
    told(alloc, found)
}

// A row of one value, that the server is ready, and a message that is cut.
const CUT: &[u8] = b"D\0\0\0\x0d\0\x01\0\0\0\x037\07Z\0\0\0\x05ID\0";

const TAKEN: &[&str] = &[
    "Ok(Some(DataRow(DataRow { payload: Octets { bytes: b\"\\0\\0\\0\\x037\\07\" }, field_count: 1 })))",
    "Ok(Some(ReadyForQuery(ReadyForQuery { status: Idle })))",
    "Ok(None)",
];

// What stands behind a message is left.
#[test]
fn messages_are_cut_from_octets(rt: HostRuntime) -> Result<(), Fail> {
    let alloc = rt.alloc();
    let mut octets = Octets::from_slice(alloc, CUT)?;
    for want in TAKEN {
        same(taken(alloc, &mut octets), want)?;
    }
    assert!(rt; octets.as_slice() == b"D\0".as_slice());
    Ok(())
}
