ghost use Rattle.std.specs.Prelude.{◌≤◌, IfOk};

use pgw_link::dialer::{DialError, Dialer};
use pgw_link::link::{Link, LinkFault};
use pgw_link::memory::MemoryLink;
use pgw_link::memory_dialer::MemoryDialer;
use pgw_link::memory_stream::{MemorySink, MemorySource};
use pgw_link::standard::{StdSink, StdSource};
use pgw_link::stream::{Sink, Source};
use pgw_link::stream_link::StreamLink;
use pgw_types::address::Address;
use pgw_types::listed::Listed;
use pgw_types::octets::Octets;
use pgw_types::text::Text;
use std::alloc::Global;
use std::io;
use std::io::{ErrorKind, Read, Write};
use std::process::Abort;
use std::test::Fail;

fn numbers(alloc: Global, items: &[u64]) -> Result<Listed<u64>, Fail> {
    let mut listed = Listed::new(alloc);
    for item in items {
        listed.push(*item)?;
    }
    Ok(listed)
}

// What each of four reads into three bytes answers; 9 stands for a fault.
fn reads<L: Link>(link: &mut L) -> [usize; 4] {
    let mut answers = [0usize; 4];
    for answer in &mut answers {
        let mut buf = [0u8; 3];
        *answer = match link.read(&mut buf) {
            Ok(count) => count,
            Err(LinkFault) => 9,
        };
    }
    answers
}

// The cut, the reads that fail, and what four reads answer.
const READS: &[(usize, &[u64], [usize; 4])] = &[
    (1, &[], [1, 1, 1, 1]),
    (1000, &[], [3, 1, 0, 0]),
    (2, &[2], [2, 9, 2, 0]),
    (1000, &[1, 4], [9, 3, 1, 9]),
];

// A link to a server that says four bytes.
fn speaking(alloc: Global, cut: usize, fails: &[u64]) -> Result<MemoryLink, Fail> {
    let server = Octets::from_slice(alloc, b"wxyz")?;
    let fails = numbers(alloc, fails)?;
    Ok(MemoryLink::new(alloc, server, cut.max(1), fails, Listed::new(alloc)))
}

// What four reads answer, and how many bytes were written.
fn read_from(link: &mut MemoryLink) -> ([usize; 4], usize) {
    (reads(link), link.written().len())
}

fn read_four(alloc: Global, cut: usize, fails: &[u64]) -> Result<([usize; 4], usize), Fail> {
    let mut link = speaking(alloc, cut, fails)?;
    Ok(read_from(&mut link))
}

#[test]
fn memory_link_reads(rt: HostRuntime) -> Result<(), Fail> {
    for (cut, fails, want) in READS {
        assert_eq!(rt;
            read_four(rt.alloc(), *cut, fails)?,
            (*want, 0),
            "cut {cut}"
        );
    }
    Ok(())
}

// What each of three writes of these bytes answers; 9 stands for a fault.
fn writes<L: Link>(link: &mut L, piece: &[u8; 3]) -> [usize; 3] {
    let mut answers = [0usize; 3];
    for answer in &mut answers {
        *answer = match link.write(piece) {
            Ok(count) => count,
            Err(LinkFault) => 9,
        };
    }
    answers
}

// The cut, the writes that fail, what three writes answer, and what is written.
const WRITES: &[(usize, &[u64], [usize; 3], &[u8])] = &[
    (1, &[], [1, 1, 1], b"aaa"),
    (1000, &[], [3, 3, 3], b"abcabcabc"),
    (2, &[1, 3], [9, 2, 9], b"ab"),
];

// A link to a server that says nothing.
fn silent(alloc: Global, cut: usize, fails: &[u64]) -> Result<MemoryLink, Fail> {
    let server = Octets::from_slice(alloc, b"")?;
    let fails = numbers(alloc, fails)?;
    Ok(MemoryLink::new(alloc, server, cut.max(1), Listed::new(alloc), fails))
}

fn check_writes<R: Abort>(rt: &R, link: &mut MemoryLink, want: &[usize; 3], written: &[u8]) {
    assert_eq!(rt; writes(link, b"abc"), *want);
    assert_eq!(rt; link.written(), written);
    assert!(rt; link.flush().is_ok() && !link.was_short_of_memory());
}

#[test]
fn memory_link_writes(rt: HostRuntime) -> Result<(), Fail> {
    for (cut, fails, want, written) in WRITES {
        let mut link = silent(rt.alloc(), *cut, fails)?;
        check_writes(&rt, &mut link, want, written);
    }
    Ok(())
}

// What two reads of a source answer; 9 stands for a fault.
fn drawn<S: Source>(source: &mut S) -> [usize; 2] {
    let mut answers = [0usize; 2];
    for answer in &mut answers {
        let mut buf = [0u8; 3];
        *answer = source.read(&mut buf).unwrap_or(9);
    }
    answers
}

// What two writes to a sink answer; 9 stands for a fault.
fn poured<S: Sink>(sink: &mut S) -> [usize; 2] {
    let mut answers = [0usize; 2];
    for answer in &mut answers {
        *answer = sink.write(b"abc").unwrap_or(9);
    }
    answers
}

// The cut, the calls that fail, what two reads answer, what two writes answer, and what is written.
const STREAMS: &[(usize, &[u64], [usize; 2], [usize; 2], &[u8])] = &[
    (2, &[], [2, 2], [2, 2], b"abab"),
    (1000, &[2], [3, 9], [3, 9], b"abc"),
    (1, &[1], [9, 1], [9, 1], b"a"),
];

fn read_twice(alloc: Global, cut: usize, fails: &[u64]) -> Result<[usize; 2], Fail> {
    let bytes = Octets::from_slice(alloc, b"wxyz")?;
    let mut source = MemorySource::new(bytes, cut.max(1), numbers(alloc, fails)?);
    Ok(drawn(&mut source))
}

#[test]
fn sources_in_memory(rt: HostRuntime) -> Result<(), Fail> {
    for (cut, fails, read, _, _) in STREAMS {
        assert_eq!(rt; read_twice(rt.alloc(), *cut, fails)?, *read, "cut {cut}");
    }
    Ok(())
}

fn check_sink<R: Abort>(rt: &R, sink: &mut MemorySink, wrote: &[usize; 2], written: &[u8]) {
    assert_eq!(rt; poured(sink), *wrote);
    assert_eq!(rt; sink.written(), written);
}

#[test]
fn sinks_in_memory(rt: HostRuntime) -> Result<(), Fail> {
    let alloc = rt.alloc();
    for (cut, fails, _, wrote, written) in STREAMS {
        let mut sink = MemorySink::new(alloc, (*cut).max(1), numbers(alloc, fails)?);
        check_sink(&rt, &mut sink, wrote, written);
    }
    Ok(())
}

// A writer that takes nothing.
#[derive(Drop)]
struct Full;

impl Write for Full {
    fn write(&mut self, _buf: &[u8]) -> io::Result<usize> {
        Ok(0)
    }

    fn flush(&mut self) -> io::Result<()> {
        Ok(())
    }
}

#[test]
fn streams_over_readers_and_writers(rt: HostRuntime) {
    let mut source = StdSource::new(b"wxyz".as_slice());
    assert_eq!(rt; drawn(&mut source), [3, 1]);
    let mut sink = StdSink::new(io::sink());
    assert_eq!(rt; poured(&mut sink), [3, 3]);
    let mut full = StdSink::new(Full);
    assert_eq!(rt; poured(&mut full), [9, 9]);
}

// A stream that is interrupted, then moves so many bytes, and then fails.
#[derive(Drop)]
struct Faulty {
    calls: u8,
    moves: usize,
}

impl Faulty {
    fn answer(&mut self, room: usize) -> io::Result<usize>
        ensures { IfOk result (λ n. n ≤ room) }
    {
        self.calls = self.calls.saturating_add(1);
        match self.calls {
            1 => Err(io::Error::from(ErrorKind::Interrupted)),
            2 => Ok(self.moves.min(room)),
            _ => Err(io::Error::from(ErrorKind::ConnectionReset)),
        }
    }
}

impl Read for Faulty {
    fn read(&mut self, buf: &mut [u8]) -> io::Result<usize> {
        self.answer(buf.len())
    }
}

impl Write for Faulty {
    fn write(&mut self, buf: &[u8]) -> io::Result<usize> {
        self.answer(buf.len())
    }

    fn flush(&mut self) -> io::Result<()> {
        self.answer(0).map(|_| ())
    }
}

// The bytes that move, what four reads answer, what three writes answer, and the faults of the writes and of a flush
// that fails.
const OVER_STREAMS: &[(usize, [usize; 4], [usize; 3], u64)] = &[
    (2, [2, 9, 9, 9], [2, 9, 9], 3),
    (0, [0, 9, 9, 9], [9, 9, 9], 4),
];

fn failure_kind(link: &StreamLink<Faulty>) -> Option<ErrorKind> {
    link.failure().map(|error| error.kind())
}

fn final_kind(link: StreamLink<Faulty>) -> Option<ErrorKind> {
    let (_, why) = link.into_failure();
    why.map(|error| error.kind())
}

// What four reads answer, and the faults behind them.
fn stream_reads(moves: usize) -> ([usize; 4], u64) {
    let mut link = StreamLink::new(Faulty { calls: 0, moves });
    (reads(&mut link), link.faults())
}

// What three writes answer, whether a flush fails, the faults behind it, and the kind of the failure.
fn written_through(link: &mut StreamLink<Faulty>) -> ([usize; 3], bool, u64, Option<ErrorKind>) {
    let answers = writes(link, b"abc");
    let fails = link.flush().is_err();
    (answers, fails, link.faults(), failure_kind(link))
}

fn check_stream_writes<R: Abort>(rt: &R, moves: usize, wrote: [usize; 3], faults: u64) {
    let mut link = StreamLink::new(Faulty { calls: 0, moves });
    let came = written_through(&mut link);
    let kind = final_kind(link);
    assert_eq!(rt;
        came,
        (wrote, true, faults, Some(ErrorKind::ConnectionReset))
    );
    assert_eq!(rt; kind, Some(ErrorKind::ConnectionReset));
}

#[test]
fn links_over_streams(rt: HostRuntime) {
    for (moves, read, wrote, faults) in OVER_STREAMS {
        assert_eq!(rt; stream_reads(*moves), (*read, 3));
        check_stream_writes(&rt, *moves, *wrote, *faults);
    }
}

// A dialer with one link, on which a read fails.
fn dialer_of_one(alloc: Global, fail_dials: &[u64]) -> Result<MemoryDialer, Fail> {
    let server = Octets::from_slice(alloc, b"wxyz")?;
    let fail_reads = numbers(alloc, &[1])?;
    let fail_dials = numbers(alloc, fail_dials)?;
    let mut links = Listed::new(alloc);
    links.push(MemoryLink::new(alloc, server, 10, fail_reads, Listed::new(alloc)))?;
    Ok(MemoryDialer::new(links, fail_dials))
}

// What a dial reads from its link, which is then closed; 0 stands for a dial that fails.
fn dialled<D: Dialer>(dialer: &mut D, address: &Address) -> usize {
    match dialer.dial(address) {
        Ok(mut link) => {
            let answers = reads(&mut link);
            dialer.close(link);
            answers[1]
        }
        Err(DialError::Fault) => 0,
        Err(DialError::OutOfMemory) => 9,
    }
}

// The dials that fail, and what comes of three dials.
const DIALS: &[(&[u64], [usize; 3])] = &[(&[], [3, 0, 0]), (&[1], [0, 3, 0]), (&[2, 3], [3, 0, 0])];

// What each of three dials reads.
fn three_dials<D: Dialer>(dialer: &mut D, address: &Address) -> [usize; 3] {
    let mut answers = [0usize; 3];
    for answer in &mut answers {
        *answer = dialled(dialer, address);
    }
    answers
}

fn check_dialer<R: Abort>(rt: &R, dialer: &mut MemoryDialer, address: &Address, want: &[usize; 3]) {
    assert!(rt; dialer.closed().is_none());
    assert_eq!(rt; three_dials(dialer, address), *want);
    assert!(rt; dialer.closed().is_some_and(|link| link.has_failed()));
}

fn check_dials<R: Abort>(rt: &R, alloc: Global, address: &Address) -> Result<(), Fail> {
    for (fails, want) in DIALS {
        let mut dialer = dialer_of_one(alloc, fails)?;
        check_dialer(rt, &mut dialer, address, want);
    }
    Ok(())
}

#[test]
fn dialers_in_memory(rt: HostRuntime) -> Result<(), Fail> {
    let address = Address::Host(Text::from_str(rt.alloc(), "db")?, 5432);
    check_dials(&rt, rt.alloc(), &address)
}
