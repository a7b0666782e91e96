//! A server that plays one part, over its end of a stream in memory.

use futures::executor::block_on;
use std::alloc::AllocGlobal;
use std::io;
use std::random::RandomSource;
use std::sync::Wait;
use tokio::io::{DuplexStream, read_exact, write_all};

// How many bytes it waits for each time, and what it sends then: a login; a division by zero; two rows; and nothing
// behind Terminate.
const PART: [(usize, &[u8]); 4] = [
    (18, b"R\0\0\0\x08\0\0\0\0Z\0\0\0\x05I"),
    (16, b"E\0\0\0\x13SERROR\0C22012\0\0Z\0\0\0\x05I"),
    (
        42,
        b"T\0\0\0\x1a\0\x01n\0\0\0\0\0\0\0\0\0\0\x17\0\x04\xff\xff\xff\xff\0\0D\0\0\0\x0b\0\x01\0\0\0\x011D\0\0\0\x0b\0\x01\0\0\0\x012C\0\0\0\rSELECT 2\0Z\0\0\0\x05I",
    ),
    (5, b""),
];

fn step<R>(rt: &R, stream: DuplexStream, count: usize, bytes: &[u8]) -> io::Result<DuplexStream>
where
    R: Wait + RandomSource + AllocGlobal,
{
    let (stream, heard) = block_on(rt, read_exact(stream, vec![in rt.alloc(); 0; count]?))??;
    drop(heard);
    let (stream, _) = block_on(rt, write_all(stream, bytes))??;
    Ok(stream)
}

/// Plays its part, and closes its end.
pub fn serve<R>(rt: &R, mut stream: DuplexStream) -> io::Result<()>
where
    R: Wait + RandomSource + AllocGlobal,
{
    for (count, bytes) in &PART {
        stream = step(rt, stream, *count, bytes)?;
    }
    drop(stream);
    Ok(())
}
