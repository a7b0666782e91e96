//! Rows as they came, one behind the other.
ghost use Rattle.std.specs.Prelude.{◌≡◌, drop};
ghost use Rattle.pgw_query.specs.Runs.{HasHead, IsHead, IsSpan, RowEndsAt, lent_row, row_end, row_in};

use crate::data::{DataRow, MESSAGE_TYPE_BYTE_DATA_ROW};
use crate::row_ref::DataRowRef;
use pgw_types::octets::Octets;
use pgw_wire::header::length_at;

/// Rows that lie together.
#[derive(Drop)]
pub enum Run {
    /// So many whole messages, one behind the other.
    Messages(usize, Octets),
    /// A row alone.
    Row(DataRow),
}

/// How many rows stand at the front of some bytes, and where they end.
#[derive(Clone, Copy)]
pub struct Span {
    pub rows: usize,
    pub end: usize,
}

/// What stands before a row's payload, and where that ends.
#[derive(Clone, Copy)]
pub struct Head {
    pub field_count: i16,
    pub end: usize,
}

/// The number of bytes before a row's payload: the type byte, the length, and how many values there are.
pub const HEAD: usize = 7;

// Where the row at the front ends, if one stands whole there. The length counts itself, and not the type byte.
fn row_len(bytes: &[u8]) -> Option<usize>
    ensures { RowEndsAt bytes.now result }
{
    if bytes.len() < HEAD || bytes[0] != MESSAGE_TYPE_BYTE_DATA_ROW {
        return None;
    }
    let len = length_at(bytes, 1);
    if len < 6 || len > 0x7fff_ffff {
        return None;
    }
    let end = len as usize + 1;
    if bytes.len() < end {
        return None;
    }
    Some(end)
}

/// The rows that stand whole at the front.
pub fn span_of(bytes: &[u8]) -> Span
    ensures { IsSpan bytes.now result }
{
    let mut rows = 0;
    let mut end = 0;
    while let Some(len) = row_len(&bytes[end..]) {
        end += len;
        rows += 1;
    }
    Span { rows, end }
}

/// Reads off what stands before the payload of the row at the front.
pub fn head_of(bytes: &[u8]) -> Head
    requires { HasHead bytes.now }
    ensures { IsHead bytes.now result }
{
    let len = length_at(bytes, 1);
    Head {
        field_count: u16::from_be_bytes([bytes[5], bytes[6]]).cast_signed(),
        end: len as usize + 1,
    }
}

/// The row at the front, and the bytes behind it.
pub fn first_row(bytes: &[u8]) -> (DataRowRef<'_>, &[u8])
    requires { HasHead bytes.now }
    ensures row { lent_row result.0 ≡ row_in bytes.now }
    ensures rest { result.1.now ≡ drop (row_end bytes.now) bytes.now }
{
    let head = head_of(bytes);
    let row = DataRowRef {
        field_count: head.field_count,
        payload: &bytes[HEAD..head.end],
    };
    (row, &bytes[head.end..])
}
