//! What is told of a report, in C's structs.

use crate::values::Value;

/// What a session told as a whole.
#[repr(C)]
#[derive(Clone, Copy)]
pub struct Summary {
    /// The minor number of the protocol's version, whose major one is 3.
    pub minor: u32,
    /// `I`, `T` or `E`: idle, in a transaction, in one that failed.
    pub status: u32,
    /// The server's process number as 32 bits, or all ones where it sent none.
    pub process: u32,
    pub parameters: usize,
    pub answers: usize,
    pub key: Value,
}

/// A parameter of the server.
#[repr(C)]
#[derive(Clone, Copy)]
pub struct Pair {
    pub name: Value,
    pub value: Value,
}

/// An answer.
#[repr(C)]
#[derive(Clone, Copy)]
pub struct AnswerInfo {
    pub kind: u32,
    pub results: usize,
    pub types: usize,
}

/// What one command gave.
#[repr(C)]
#[derive(Clone, Copy)]
pub struct ResultInfo {
    pub kind: u32,
    pub columns: usize,
    pub rows: usize,
    /// The command of the tag, or NULL where there is no tag.
    pub command: Value,
    /// How many rows the tag tells, where `counted` is 1.
    pub count: u64,
    pub counted: u32,
}

/// A column of a result.
#[repr(C)]
#[derive(Clone, Copy)]
pub struct ColumnInfo {
    pub name: Value,
    /// The number of its type.
    pub oid: u32,
    /// 0 for text, 1 for binary.
    pub format: u32,
}

/// The values of a row, side by side.
#[repr(C)]
#[derive(Clone, Copy)]
pub struct RowInfo {
    pub values: *const Value,
    pub count: usize,
}

/// A type.
#[repr(C)]
#[derive(Clone, Copy)]
pub struct TypeInfo {
    pub oid: u32,
}
