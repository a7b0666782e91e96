//! Links over the system's streams.
ghost use Rattle.std.specs.Prelude.{◌<◌, ◌≤◌, ◌≡◌, length, nat_lt, is_some, IfOk};
ghost use Rattle.std.specs.Io.KnownBytes.{ReadConsumes, WriteAppends};
ghost use Rattle.pgw_types.specs.Counts.{Rose};
ghost use Rattle.pgw_link.specs.Tape.{new_tape};
ghost use Rattle.pgw_link.specs.Log.{tape_of};

use crate::link::{Link, LinkFault};
use crate::log::{Log, Note};
use std::io;
use std::io::{ErrorKind, Read, Write};
use std::net::TcpStream;
use std::os::unix::net::UnixStream;

/// A link over a stream, as the system's. It tells its history.
///
/// The one impl serves every stream. So what it tells of a read and hands to its caller are the bytes that the stream
/// gave, for each stream that states its bytes. A socket's stream states none, and is served by the same code. All
/// contact with a stream stays in here: what a link tells is a note of its calls, and only this ties it to a stream.
/// That a flush of the link flushes the stream is code: no stream states what its flush does.
#[derive(Drop)]
pub struct StreamLink<S: Read + Write + Drop> {
    stream: S,
    log: Log,
    faults: u64,
    failure: Option<io::Error>,
    ghost flushed_in: { log.flushed ≤ length log.wrote },
    ghost told: { is_some failure ≡ nat_lt 0 faults },
}

/// A link over TCP.
pub type TcpLink = StreamLink<TcpStream>;

/// A link over a Unix socket.
pub type UnixLink = StreamLink<UnixStream>;

impl<S: Read + Write + Drop> StreamLink<S> {
    pub fn new(stream: S) -> StreamLink<S>
        ensures faults { result.faults ≡ 0 }
        ensures tape { tape_of result.log ≡ new_tape }
        ensures stream { result.stream ≡ stream }
    {
        StreamLink {
            stream,
            log: Log::new(),
            faults: 0,
            failure: None,
        }
    }

    /// How often a call has failed.
    pub fn faults(&self) -> u64
        ensures { result ≡ self.now.faults }
    {
        self.faults
    }

    /// Why a call failed last, if one has failed.
    pub fn failure(&self) -> Option<&io::Error>
        ensures { is_some result ≡ nat_lt 0 self.now.faults }
    {
        self.failure.as_ref()
    }

    /// Closes the stream. Gives what its calls did, and why one failed last.
    pub fn into_failure(self) -> (Log, Option<io::Error>)
        ensures log { result.0 ≡ self.log }
        ensures failure { is_some result.1 ≡ nat_lt 0 self.faults }
    {
        let StreamLink { log, failure, .. } = self;
        (log, failure)
    }

    fn fail(&mut self, error: io::Error) -> LinkFault
        ensures later { self.old.faults ≤ self.new.faults }
        ensures rose { Rose self.old.faults self.new.faults }
        ensures log { self.new.log ≡ self.old.log }
        ensures stream { self.new.stream ≡ self.old.stream }
    {
        self.faults = self.faults.saturating_add(1);
        self.failure = Some(error);
        LinkFault
    }
}

// Reads once. A call that a signal interrupted is made again.
fn read_some<S: Read>(stream: &mut S, buf: &mut [u8]) -> io::Result<usize>
    ensures bound { IfOk result (λ n. n ≤ length buf.new) }
    ensures bytes { ReadConsumes (S.remaining stream.old) (S.remaining stream.new) result buf.new }
{
    'tries: for _ in 0..u64::MAX {
        match stream.read(buf) {
            Err(error) if error.kind() == ErrorKind::Interrupted => {}
            answer => return answer,
        }
    }
    Err(io::Error::from(ErrorKind::Interrupted))
}

// Writes once, a byte or more. A call that a signal interrupted is made again.
fn write_some<S: Write>(stream: &mut S, piece: &[u8]) -> io::Result<usize>
    ensures some { IfOk result (λ n. 0 < n) }
    ensures bound { IfOk result (λ n. n ≤ length piece.now) }
    ensures bytes { WriteAppends (S.contents stream.old) (S.contents stream.new) result piece.now }
{
    'tries: for _ in 0..u64::MAX {
        match stream.write(piece) {
            Ok(0) => return Err(io::Error::from(ErrorKind::WriteZero)),
            Err(error) if error.kind() == ErrorKind::Interrupted => {}
            answer => return answer,
        }
    }
    Err(io::Error::from(ErrorKind::Interrupted))
}

// A method touches its own half of the stream alone: a write within `read`, or a read within `write` or `flush`, is
// refused, since the stream's traits do not say what it leaves of the other half.
impl<S: Read + Write + Drop> Link for StreamLink<S> {
    ghost use Rattle.pgw_link.specs.Log.{tape_of};

    ghost tape = { λ s. tape_of s.log };

    ghost left = { λ s. S.remaining s.stream };

    ghost foretells = { ⊥ };

    ghost held = { λ s. S.contents s.stream };

    ghost faults = { λ s. s.faults };

    ghost Plan = { Unit {0} };

    ghost plan = { λ s. tt };

    ghost knows = { λ t s. absurd t };

    ghost flushed_in = { λ s. s.flushed_in };

    fn read(&mut self, buf: &mut [u8]) -> Result<usize, LinkFault> {
        match read_some(&mut self.stream, buf) {
            Ok(count) => {
                self.log = self.log.then(&Note::Read(buf, count));
                Ok(count)
            }
            Err(error) => {
                self.log = self.log.then(&Note::Unread);
                Err(self.fail(error))
            }
        }
    }

    fn write(&mut self, piece: &[u8]) -> Result<usize, LinkFault> {
        match write_some(&mut self.stream, piece) {
            Ok(count) => {
                self.log = self.log.then(&Note::Wrote(piece, count));
                Ok(count)
            }
            Err(error) => {
                self.log = self.log.then(&Note::Unwritten);
                Err(self.fail(error))
            }
        }
    }

    fn flush(&mut self) -> Result<(), LinkFault> {
        match self.stream.flush() {
            Ok(()) => {
                self.log = self.log.then(&Note::Flushed);
                Ok(())
            }
            Err(error) => Err(self.fail(error)),
        }
    }
}
