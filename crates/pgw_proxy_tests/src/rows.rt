//! What becomes of pieces, as tables.

use crate::pieces::{Outputs, Row, give_cut, no_outputs, outcome, same};
use bytes::BytesMut;
use pgw_proxy::proxy::Proxy;
use std::alloc::{AllocError, Global};
use std::test::Fail;

const ROWS: &[Row] = &[
    // A Startup.
    Row {
        pieces: &[('c', "00000012000300007573657200626f620000")],
        to_server: "00000012000300007573657200626f620000",
        to_client: "",
        record: "000000001200000012000300007573657200626f620000",
        fault: "-",
    },
    // An SSL request that is accepted.
    Row {
        pieces: &[('c', "0000000804d2162f"), ('s', "53")],
        to_server: "0000000804d2162f",
        to_client: "",
        record: "00000000080000000804d2162f",
        fault: "TlsAccepted",
    },
    // An SSL request that is refused: its answer is a message like others.
    Row {
        pieces: &[
            ('c', "0000000804d2162f"),
            ('s', "4e"),
            ('c', "00000012000300007573657200626f620000"),
        ],
        to_server: "0000000804d2162f00000012000300007573657200626f620000",
        to_client: "4e",
        record: "00000000080000000804d2162f01000000014e000000001200000012000300007573657200626f620000",
        fault: "-",
    },
    // A GSS request that is accepted.
    Row {
        pieces: &[('c', "0000000804d21630"), ('s', "47")],
        to_server: "0000000804d21630",
        to_client: "",
        record: "00000000080000000804d21630",
        fault: "TlsAccepted",
    },
    // Two SSL requests and a GSS request before a Startup.
    Row {
        pieces: &[
            ('c', "0000000804d2162f"),
            ('s', "4e"),
            ('c', "0000000804d2162f"),
            ('s', "4e"),
            ('c', "0000000804d21630"),
            ('s', "4e"),
            ('c', "00000012000300007573657200626f620000"),
            ('s', "520000000800000000"),
        ],
        to_server: "0000000804d2162f0000000804d2162f0000000804d2163000000012000300007573657200626f620000",
        to_client: "4e4e4e520000000800000000",
        record: "00000000080000000804d2162f01000000014e00000000080000000804d2162f01000000014e00000000080000000804d2163001000000014e000000001200000012000300007573657200626f6200000100000009520000000800000000",
        fault: "-",
    },
    // A GSS request that is answered as an SSL request is.
    Row {
        pieces: &[('c', "0000000804d21630"), ('s', "53")],
        to_server: "0000000804d21630",
        to_client: "",
        record: "00000000080000000804d21630",
        fault: "Server",
    },
    // A CancelRequest in place of a Startup.
    Row {
        pieces: &[('c', "0000001004d2162e0000000700000009")],
        to_server: "0000001004d2162e0000000700000009",
        to_client: "",
        record: "00000000100000001004d2162e0000000700000009",
        fault: "-",
    },
    // Behind it no request for encryption is read.
    Row {
        pieces: &[('c', "0000001004d2162e00000007000000090000000804d2162f")],
        to_server: "0000001004d2162e0000000700000009",
        to_client: "",
        record: "00000000100000001004d2162e0000000700000009",
        fault: "Client",
    },
    // A server that offers 3.2: its key has 32 bytes.
    Row {
        pieces: &[
            ('c', "00000012000300007573657200626f620000"),
            (
                's',
                "520000000800000000760000000c00030002000000004b0000002800000007000102030405060708090a0b0c0d0e0f101112131415161718191a1b1c1d1e1f5a0000000549",
            ),
        ],
        to_server: "00000012000300007573657200626f620000",
        to_client: "520000000800000000760000000c00030002000000004b0000002800000007000102030405060708090a0b0c0d0e0f101112131415161718191a1b1c1d1e1f5a0000000549",
        record: "000000001200000012000300007573657200626f6200000100000009520000000800000000010000000d760000000c000300020000000001000000294b0000002800000007000102030405060708090a0b0c0d0e0f101112131415161718191a1b1c1d1e1f01000000065a0000000549",
        fault: "-",
    },
    // A minor number that is not known yet is 3.2, and so is the server's offer.
    Row {
        pieces: &[
            ('c', "000000120003270f7573657200626f620000"),
            (
                's',
                "520000000800000000760000000c00030002000000004b0000002800000007000102030405060708090a0b0c0d0e0f101112131415161718191a1b1c1d1e1f5a0000000549",
            ),
        ],
        to_server: "000000120003270f7573657200626f620000",
        to_client: "520000000800000000760000000c00030002000000004b0000002800000007000102030405060708090a0b0c0d0e0f101112131415161718191a1b1c1d1e1f5a0000000549",
        record: "0000000012000000120003270f7573657200626f6200000100000009520000000800000000010000000d760000000c000300020000000001000000294b0000002800000007000102030405060708090a0b0c0d0e0f101112131415161718191a1b1c1d1e1f01000000065a0000000549",
        fault: "-",
    },
    // A server that offers 3.0: a key of 32 bytes is refused.
    Row {
        pieces: &[
            ('c', "00000012000300027573657200626f620000"),
            (
                's',
                "520000000800000000760000000c00030000000000004b0000002800000007000102030405060708090a0b0c0d0e0f101112131415161718191a1b1c1d1e1f5a0000000549",
            ),
        ],
        to_server: "00000012000300027573657200626f620000",
        to_client: "520000000800000000760000000c0003000000000000",
        record: "000000001200000012000300027573657200626f6200000100000009520000000800000000010000000d760000000c0003000000000000",
        fault: "Server",
    },
    // An offer before the Startup, or behind the first ReadyForQuery, has no effect.
    Row {
        pieces: &[
            ('s', "760000000c0003000200000000"),
            ('c', "00000012000300007573657200626f620000"),
            (
                's',
                "5a0000000549760000000c00030002000000004b0000002800000007000102030405060708090a0b0c0d0e0f101112131415161718191a1b1c1d1e1f",
            ),
        ],
        to_server: "00000012000300007573657200626f620000",
        to_client: "760000000c00030002000000005a0000000549760000000c0003000200000000",
        record: "010000000d760000000c0003000200000000000000001200000012000300007573657200626f62000001000000065a0000000549010000000d760000000c0003000200000000",
        fault: "Server",
    },
    // A text that is not UTF-8.
    Row {
        pieces: &[(
            'c',
            "00000012000300007573657200626f620000510000000f53454c4543542027ff2700",
        )],
        to_server: "00000012000300007573657200626f620000510000000f53454c4543542027ff2700",
        to_client: "",
        record: "000000001200000012000300007573657200626f6200000000000010510000000f53454c4543542027ff2700",
        fault: "-",
    },
    // COPY in both directions.
    Row {
        pieces: &[
            ('c', "00000012000300007573657200626f620000"),
            ('s', "4700000007000000"),
            ('c', "6400000007610a626400000006ff0a6300000004"),
            (
                's',
                "48000000070000006400000006ff0a6400000007610a626300000004",
            ),
        ],
        to_server: "00000012000300007573657200626f6200006400000007610a626400000006ff0a6300000004",
        to_client: "470000000700000048000000070000006400000006ff0a6400000007610a626300000004",
        record: "000000001200000012000300007573657200626f6200000100000008470000000700000000000000086400000007610a6200000000076400000006ff0a000000000563000000040100000008480000000700000001000000076400000006ff0a01000000086400000007610a6201000000056300000004",
        fault: "-",
    },
    // A server's byte that comes before the request that it answers, and is looked at with the next piece.
    Row {
        pieces: &[
            ('s', "4e"),
            ('c', "0000000804d2162f"),
            ('s', ""),
            ('c', "00000012000300007573657200626f620000"),
        ],
        to_server: "0000000804d2162f00000012000300007573657200626f620000",
        to_client: "4e",
        record: "00000000080000000804d2162f01000000014e000000001200000012000300007573657200626f620000",
        fault: "-",
    },
    // A client that does not wait for the answer.
    Row {
        pieces: &[('c', "0000000804d2162f00000012000300007573657200626f620000")],
        to_server: "0000000804d2162f",
        to_client: "",
        record: "00000000080000000804d2162f",
        fault: "Negotiation",
    },
    // An answer that is none.
    Row {
        pieces: &[('c', "0000000804d2162f"), ('s', "45")],
        to_server: "0000000804d2162f",
        to_client: "",
        record: "00000000080000000804d2162f",
        fault: "Server",
    },
    // A fault of the client behind a message.
    Row {
        pieces: &[(
            'c',
            "00000012000300007573657200626f6200005100000005007a00000004",
        )],
        to_server: "00000012000300007573657200626f620000510000000500",
        to_client: "",
        record: "000000001200000012000300007573657200626f6200000000000006510000000500",
        fault: "Client",
    },
    // A fault of the server behind a message.
    Row {
        pieces: &[
            ('c', "00000012000300007573657200626f620000"),
            ('s', "520000000800000000ff00000004"),
        ],
        to_server: "00000012000300007573657200626f620000",
        to_client: "520000000800000000",
        record: "000000001200000012000300007573657200626f6200000100000009520000000800000000",
        fault: "Server",
    },
    // A message that is not whole is not passed on.
    Row {
        pieces: &[(
            'c',
            "00000012000300007573657200626f620000510000000f53454c4543542027ff27",
        )],
        to_server: "00000012000300007573657200626f620000",
        to_client: "",
        record: "000000001200000012000300007573657200626f620000",
        fault: "-",
    },
];

// What comes behind a fault, each piece with the letter of its side.
const BEHIND: &[(char, &[u8])] = &[
    ('c', b"Q\0\0\0\x05\0"),
    ('s', b"Z\0\0\0\x05I"),
    ('c', b""),
    ('s', b""),
];

// The bytes as digits.
fn digits(alloc: Global, bytes: &BytesMut) -> Result<String, AllocError> {
    hex::encode(alloc, bytes.as_slice())
}

// Behind a fault nothing more is taken, of either side.
fn stays_stopped(alloc: Global, proxy: &mut Proxy, out: &mut Outputs) -> Result<(), Fail> {
    for (side, piece) in BEHIND {
        same(give_cut(alloc, proxy, *side, piece, 1000, out), "Stopped")?;
    }
    Ok(())
}

fn check(alloc: Global, row: &Row, size: usize) -> Result<(), Fail> {
    let mut proxy = Proxy::new(alloc);
    let mut out = no_outputs(alloc);
    let fault = outcome(alloc, &mut proxy, row, size, &mut out)?;
    same(fault, row.fault)?;
    if fault != "-" {
        stays_stopped(alloc, &mut proxy, &mut out)?;
    }
    same(digits(alloc, &out.to_server)?.as_str(), row.to_server)?;
    same(digits(alloc, &out.to_client)?.as_str(), row.to_client)?;
    same(digits(alloc, &out.tape)?.as_str(), row.record)
}

#[test]
fn rows_pass(rt: HostRuntime) -> Result<(), Fail> {
    for row in ROWS {
        for size in [1000, 7, 1] {
            check(rt.alloc(), row, size)?;
        }
    }
    Ok(())
}
