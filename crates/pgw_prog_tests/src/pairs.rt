//! `pair` over a schedule of single bytes, which no case can list.

use pgw_link::memory_dialer::MemoryDialer;
use pgw_link::memory_stream::{MemorySink, MemorySource};
use pgw_prog::program::run_program;
use pgw_types::listed::Listed;
use pgw_types::octets::Octets;
use std::alloc::Global;
use std::test::Fail;

const HEAD: &[u8] = b"user foo
password bar
stored bar
salt 73616c74
count 2
client 000000000000000000000000000000000000
server 000000000000000000000000000000000000
words 0000000000000000000000000000000000000000000000000000000000000000
";

// A script in which each end takes a byte in turn, so many times.
fn script(alloc: Global, turns: u32) -> Result<Octets, Fail> {
    let mut text = Vec::new(alloc);
    text.extend_from_slice(HEAD)?;
    for _ in 0..turns {
        text.extend_from_slice(b"to-server 1\nto-client 1\n")?;
    }
    Ok(Octets::from_slice(alloc, &text)?)
}

#[test]
fn single_bytes(rt: HostRuntime) -> Result<(), Fail> {
    let alloc = rt.alloc();
    let words = [String::from_str(alloc, "pair")?];
    let mut input = MemorySource::new(script(alloc, 3000)?, 8192, Listed::new(alloc));
    let mut output = MemorySink::new(alloc, 100, Listed::new(alloc));
    let mut dialer = MemoryDialer::new(Listed::new(alloc), Listed::new(alloc));
    let status = run_program(
        alloc,
        &words,
        &mut input,
        &mut output,
        &mut dialer,
        &[0; 18],
        &[0; 32],
    );
    assert_eq!(rt; status, 0);
    assert_eq!(rt;
        output.written(),
        b"client ready\nserver finished\n".as_slice()
    );
    Ok(())
}
