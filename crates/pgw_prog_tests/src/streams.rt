//! The stream from a number.

use pgw_prog_sessions::stream::stream;
use std::alloc::Global;
use std::test::Fail;

// AuthenticationOk, ReadyForQuery, and the column n.
const BEGINNING: &[u8; 42] =
    b"R\0\0\0\x08\0\0\0\0Z\0\0\0\x05IT\0\0\0\x1a\0\x01n\0\0\0\0\0\0\0\0\0\0\x17\0\x04\xff\xff\xff\xff\0\0";

// CommandComplete of no rows and of one, each with ReadyForQuery.
const NO_ROWS: &[u8; 20] = b"C\0\0\0\rSELECT 0\0Z\0\0\0\x05I";

const ONE_ROW: &[u8; 36] = b"D\0\0\0\x0f\0\x01\0\0\0\x0512345C\0\0\0\rSELECT 1\0Z\0\0\0\x05I";

// The two numbers behind 1.
const TWO_ROWS: &[u8; 61] =
    b"D\0\0\0\x14\0\x01\0\0\0\x0a1103527590D\0\0\0\x13\0\x01\0\0\0\x09377401575C\0\0\0\rSELECT 2\0Z\0\0\0\x05I";

fn is_stream(alloc: Global, count: u32, start: u32, behind: &[u8]) -> bool {
    let Ok(out) = stream(alloc, count, start) else {
        return false;
    };
    let bytes = out.as_slice();
    if bytes.len() < 42 {
        return false;
    }
    &bytes[..42] == BEGINNING.as_slice() && &bytes[42..] == behind
}

#[test]
fn no_rows(rt: HostRuntime) -> Result<(), Fail> {
    assert!(rt; is_stream(rt.alloc(), 0, 0, NO_ROWS));
    Ok(())
}

#[test]
fn one_row(rt: HostRuntime) -> Result<(), Fail> {
    assert!(rt; is_stream(rt.alloc(), 1, 0, ONE_ROW));
    Ok(())
}

#[test]
fn two_rows(rt: HostRuntime) -> Result<(), Fail> {
    assert!(rt; is_stream(rt.alloc(), 2, 1, TWO_ROWS));
    Ok(())
}

// A number from 2147483648 on begins as what it leaves.
#[test]
fn starts_are_taken_modulo(rt: HostRuntime) -> Result<(), Fail> {
    assert!(rt; is_stream(rt.alloc(), 1, 2147483648, ONE_ROW));
    Ok(())
}
