//! Servers that play a part, over one end of a stream in memory.

use futures::executor::block_on;
use std::alloc::AllocGlobal;
use std::io;
use std::random::RandomSource;
use std::sync::Wait;
use tokio::io::{DuplexStream, read_exact, write_all};

/// What a server waits for, and what it sends then.
pub type Part = (usize, &'static [u8]);

// AuthenticationOk, ReadyForQuery, behind a startup message of 18 bytes.
pub const LOGIN: Part = (18, b"R\0\0\0\x08\0\0\0\0Z\0\0\0\x05I");

// A row of one field, its command tag and ReadyForQuery, behind SELECT 1.
pub const ROW: Part = (
    14,
    b"T\0\0\0\x1a\0\x01a\0\0\0\0\0\0\0\0\0\0\x17\0\x04\xff\xff\xff\xff\0\0D\0\0\0\x0b\0\x01\0\0\0\x011C\0\0\0\rSELECT 1\0Z\0\0\0\x05I",
);

// A division by zero and ReadyForQuery, behind SELECT 1/0.
pub const ERROR: Part = (16, b"E\0\0\0\x13SERROR\0C22012\0\0Z\0\0\0\x05I");

// A row that breaks off.
pub const BROKEN: Part = (14, b"T\0\0\0\x1a\0\x01a\0");

/// Reads as many bytes as the part waits for, and sends its own.
pub fn play_one<R: Wait + RandomSource + AllocGlobal>(
    rt: &R,
    stream: DuplexStream,
    part: Part,
) -> io::Result<DuplexStream> {
    let (count, bytes) = part;
    let (stream, got) = block_on(rt, read_exact(stream, vec![in rt.alloc(); 0; count]?))??;
    drop(got);
    let (stream, _) = block_on(rt, write_all(stream, bytes))??;
    Ok(stream)
}

/// Plays the parts one after the other, and closes its end.
pub fn play<R: Wait + RandomSource + AllocGlobal>(
    rt: &R,
    mut stream: DuplexStream,
    parts: &[Part],
) -> io::Result<()> {
    for part in parts {
        stream = play_one(rt, stream, *part)?;
    }
    drop(stream);
    Ok(())
}
