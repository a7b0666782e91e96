//! How a client comes by its messages.
ghost use Rattle.std.specs.Prelude.{◌≡◌, ◌⊎◌, ◌≤◌, ◌<◌, ◌+◌, length, take, true, false, Ok, Err, OnOk, OnErr, IfOk, IfErr, IsErrOf};
ghost use Rattle.pgw_link.specs.Tape.{Took, LinkFails, HasTapeCause as LinkHasCause};
ghost use Rattle.pgw_backend.specs.declared.client_error.PgWireClientError.TheVariants as client;
ghost use Rattle.pgw_client_calls.specs.Desk.{client_of};
ghost use Rattle.pgw_client_calls.specs.Line.{Foretold};
ghost use Rattle.pgw_client_calls.specs.Connection.{line_in};
ghost use Rattle.pgw_client_calls.specs.Reading.{ReadOnce, MessageCame, PassedOver, awaited};
ghost use Rattle.pgw_client_calls.specs.Filling.{Fills, Polls};
ghost use Rattle.pgw_client_calls.specs.Calls.{Polled};
ghost use Rattle.pgw_dialogue.specs.Wire.{IsOwn};
ghost use Rattle.pgw_handlers.specs.declared.client_info.ReadyState.TheVariants.{Pending};
ghost use Rattle.pgw_link.specs.Foresight.{TapeEnds, Foreseen};
ghost use Rattle.pgw_client_calls.specs.Talk.{passes, is_remote, in_place_of, first_error_of};
ghost use Rattle.pgw_handlers.specs.Handling.{HasCause, IsCaused};

use crate::client::PgWireClient;
use crate::connection::Connection;
use pgw_backend::backend::PgWireBackendMessage;
use pgw_backend::client_error::{PgWireClientError, PgWireClientResult};
use pgw_client::session::chunk_size;
use pgw_handlers::ReadyState;
use pgw_link::link::{Link, LinkFault};
use pgw_types::memory::OutOfMemory;
use std::alloc::Global;

/// The most bytes that one read asks for.
pub(crate) const CHUNK: usize = 8192;

/// What a client's bytes are read by way of. It is cleared once, as the client is made.
pub(crate) type Piece = Box<[u8; CHUNK]>;

/// A piece.
pub(crate) fn new_piece(alloc: Global) -> Result<Piece, OutOfMemory> {
    Ok(Box::new(alloc, [0u8; CHUNK])?)
}

// Reads once into the front of a piece, no more than so many bytes.
fn read_piece<L: Link>(
    link: &mut L,
    piece: &mut [u8; CHUNK],
    size: usize,
) -> Result<usize, LinkFault>
    requires some { 0 < size }
    requires within { size ≤ 8192 }
    ensures bound { IfOk result (λ n. n ≤ size) }
    ensures moved { IfOk result
        (λ n. Took (L.tape link.old) (L.tape link.new) (take n piece.new)) }
    ensures failed { OnErr result (LinkFails (L.tape link.old) (L.tape link.new)
        ((L.tape link.old).reads + 1) (L.tape link.old).writes) }
    ensures cause { LinkHasCause (L.faults link.old) (L.faults link.new) result }
    ensures no_fault { OnOk result (L.faults link.new ≡ L.faults link.old) }
    ensures foreseen { L.foretells → Foreseen (L.left link.old) (L.left link.new)
        (L.tape link.old) (L.tape link.new) }
    ensures ends { L.foretells → TapeEnds (L.left link.new) (L.tape link.old) (L.tape link.new) }
{
    link.read(&mut piece[..size])
}

// What a failure behind an error answers: the link's end leaves the error as it is.
fn in_place_of(error: PgWireClientError, failure: PgWireClientError) -> PgWireClientError
    ensures { result ≡ in_place_of error failure }
{
    match failure {
        PgWireClientError::UnexpectedEOF => error,
        other => {
            drop(error);
            other
        }
    }
}

// The error that stands behind a message that is passed over: the server's first, where none stood yet.
pub(crate) fn first_of(error: PgWireClientError, message: PgWireBackendMessage) -> PgWireClientError
    ensures { result ≡ first_error_of error message }
{
    match error {
        PgWireClientError::UnexpectedEOF => match message {
            PgWireBackendMessage::ErrorResponse(m) => PgWireClientError::RemoteError(m),
            other => {
                drop(other);
                PgWireClientError::UnexpectedEOF
            }
        },
        other => {
            drop(message);
            other
        }
    }
}

impl<L: Link> Connection<L> {
    // Reads once, no more than the limit leaves. False at the link's end.
    pub(crate) fn read_more(&mut self) -> PgWireClientResult<bool>
        ensures desk { self.new.desk ≡ self.old.desk }
        ensures limit { self.new.limit ≡ self.old.limit }
        ensures later { self.old.read ≤ self.new.read }
        ensures grows { result ≡ Ok true → self.old.read < self.new.read }
        ensures kept { OnOk result
            (length self.new.inbox + self.old.read ≡ length self.old.inbox + self.new.read) }
        ensures chunk { length self.new.inbox ≤ length self.old.inbox + 8192 }
        ensures limited { self.old.read ≡ self.old.limit → IsErrOf result client.ReadLimit }
        ensures below { IsErrOf result client.ReadLimit → self.old.read ≡ self.old.limit }
        ensures cause { HasCause (L.faults self.old.link) (L.faults self.new.link) false result }
        ensures foreseen { L.foretells → Foreseen (L.left self.old.link) (L.left self.new.link)
            (L.tape self.old.link) (L.tape self.new.link) }
        ensures ends { L.foretells → TapeEnds (L.left self.new.link) (L.tape self.old.link)
            (L.tape self.new.link) }
        ensures reads { ReadOnce
            (line_in L.tape L.faults self.old) (line_in L.tape L.faults self.new) result }
    {
        if self.read >= self.limit {
            return Err(PgWireClientError::ReadLimit);
        }
        let size = chunk_size(self.limit - self.read);
        let n = match read_piece(&mut self.link, &mut self.piece, size) {
            Ok(n) => n,
            Err(_) => return Err(PgWireClientError::IoError),
        };
        if n == 0 {
            return Ok(false);
        }
        self.read += n as u64;
        match self.inbox.append(&self.piece[..n]) {
            Ok(()) => Ok(true),
            Err(_) => Err(PgWireClientError::OutOfMemory),
        }
    }

    // Reads once. False at the link's end.
    #[tactic(auto, using(crate::proofs::ForetoldLaws::foretold_still))]
    fn fill(&mut self) -> PgWireClientResult<bool>
        ensures broken { self.old.desk.broken ≡ true → (result ≡ Err client.Broken) ×
            (self.new ≡ self.old) }
        ensures limited { self.old.desk.broken ≡ false → self.old.read ≡ self.old.limit → IsErrOf
            result client.ReadLimit }
        ensures below { IsErrOf result client.ReadLimit → self.old.read ≡ self.old.limit }
        ensures grows { result ≡ Ok true → self.old.read < self.new.read }
        ensures reads { self.old.desk.broken ≡ false → ReadOnce
            (line_in L.tape L.faults self.old) (line_in L.tape L.faults self.new) result }
        ensures buffered { length self.new.inbox ≤ length self.old.inbox + 8192 }
        ensures cause { HasCause (L.faults self.old.link) (L.faults self.new.link)
            self.old.desk.broken result }
        ensures foretold { L.foretells → Foretold (L.left self.old.link) (L.left self.new.link)
            (L.tape self.old.link) (L.tape self.new.link) }
        ensures usable { OnOk result (self.new.desk.broken ≡ false) }
        ensures unusable { OnErr result (self.new.desk.broken ≡ true) }
        ensures client { client_of self.new.desk ≡ client_of self.old.desk }
        ensures within { self.new.read ≤ self.new.limit }
        ensures limit { self.new.limit ≡ self.old.limit }
    {
        if self.desk.broken {
            return Err(PgWireClientError::Broken);
        }
        let read = self.read_more();
        match read {
            Ok(more) => Ok(more),
            Err(error) => {
                self.desk.broken = true;
                Err(error)
            }
        }
    }

    // Hands out the message at the buffer's front, or Pending where none is whole.
    fn poll_next(&mut self, alloc: Global) -> PgWireClientResult<ReadyState<PgWireBackendMessage>>
        ensures broken { self.old.desk.broken ≡ true → (result ≡ Err client.Broken) ×
            (self.new ≡ self.old) }
        ensures polled { self.old.desk.broken ≡ false → Polled self.old.desk.protocol_version
            self.old.inbox self.new.inbox self.new.desk.broken result }
        ensures awaits { self.old.desk.broken ≡ false → result ≡ Ok Pending → length
            self.old.inbox < awaited self.old.inbox }
        ensures empty { self.old.desk.broken ≡ false → length self.old.inbox ≡ 0 →
            (result ≡ Ok Pending) × (self.new ≡ self.old) }
        ensures calm { self.old.desk.broken ≡ false → IfErr result IsOwn }
        ensures client { client_of self.new.desk ≡ client_of self.old.desk }
        ensures link { self.new.link ≡ self.old.link }
        ensures read { self.new.read ≡ self.old.read }
        ensures limit { self.new.limit ≡ self.old.limit }
    {
        if self.desk.broken {
            return Err(PgWireClientError::Broken);
        }
        if self.inbox.len() == 0 {
            return Ok(ReadyState::Pending);
        }
        match self.inbox.next_message(alloc, self.desk.protocol_version) {
            Ok(Some(message)) => Ok(ReadyState::Ready(message)),
            Ok(None) => Ok(ReadyState::Pending),
            Err(error) => {
                self.desk.broken = true;
                Err(error)
            }
        }
    }

    // The message at the front of the buffer, for which it reads as often as it takes.
    #[tactic(auto, using(crate::proofs::ForetoldLaws::foretold_still))]
    pub(crate) fn next_message(&mut self, alloc: Global) -> PgWireClientResult<PgWireBackendMessage>
        ensures desk { self.new.desk ≡ self.old.desk }
        ensures limit { self.new.limit ≡ self.old.limit }
        ensures shrinks { OnOk result
            (length self.new.inbox + self.old.read < length self.old.inbox + self.new.read) }
        ensures cause { HasCause (L.faults self.old.link) (L.faults self.new.link) false result }
        ensures foretold { L.foretells → Foretold (L.left self.old.link) (L.left self.new.link)
            (L.tape self.old.link) (L.tape self.new.link) }
        ensures came { MessageCame (client_of self.old.desk)
            (line_in L.tape L.faults self.old) (line_in L.tape L.faults self.new) result }
    {
        'reads: loop {
            match self.inbox.next_message(alloc, self.desk.protocol_version) {
                Ok(Some(message)) => return Ok(message),
                Ok(None) => {}
                Err(e) => return Err(e),
            }
            match self.read_more() {
                Ok(true) => {}
                Ok(false) => return Err(PgWireClientError::UnexpectedEOF),
                Err(e) => return Err(e),
            }
        }
    }

    // Passes messages over up to ReadyForQuery, and gives the error that is answered then. UnexpectedEOF stands for none
    // yet.
    #[tactic(auto, using(crate::proofs::ForetoldLaws::foretold_still))]
    pub(crate) fn pass_over(
        &mut self,
        alloc: Global,
        mut error: PgWireClientError,
    ) -> PgWireClientError
        requires usable { self.old.desk.broken ≡ false }
        requires own { IsCaused error 0 0 false }
        ensures limit { self.new.limit ≡ self.old.limit }
        ensures config { self.new.desk.config ≡ self.old.desk.config }
        ensures later { L.faults self.old.link ≤ L.faults self.new.link }
        ensures cause { IsCaused result (L.faults self.old.link) (L.faults self.new.link) false }
        ensures foretold { L.foretells → Foretold (L.left self.old.link) (L.left self.new.link)
            (L.tape self.old.link) (L.tape self.new.link) }
        // An error behind which the client can be used is the one given, or one behind which it goes on.
        ensures usable { (self.new.desk.broken ≡ true) ⊎ (result ≡ error) ⊎ (passes result ≡ true) }
        ensures remote { (self.new.desk.broken ≡ true) ⊎ (result ≡ error) ⊎
            (is_remote result ≡ true) }
        ensures passed { PassedOver error (client_of self.old.desk)
            (line_in L.tape L.faults self.old) (line_in L.tape L.faults self.new)
            result (client_of self.new.desk) self.new.desk.broken }
    {
        'messages: loop {
            let message = match self.next_message(alloc) {
                Ok(message) => message,
                Err(failure) => {
                    self.desk.broken = true;
                    return in_place_of(error, failure);
                }
            };
            let noted = self.desk.note(&message);
            error = first_of(error, message);
            match noted {
                Ok(true) => return error,
                Ok(false) => {}
                Err(_) => {
                    drop(error);
                    self.desk.broken = true;
                    return PgWireClientError::OutOfMemory;
                }
            }
        }
    }
}

impl<L: Link> PgWireClient<L> {
    /// Reads once, no more than 8192 bytes and no more than the limit leaves. False at the link's end.
    pub fn fill(&mut self) -> PgWireClientResult<bool>
        ensures { Fills L.foretells L.left L.tape L.faults self.old self.new result }
    {
        self.connection.fill()
    }

    /// Hands out the message at the buffer's front, or Pending where none is whole. It reads nothing from the link, and
    /// takes no memory where the buffer is empty.
    pub fn poll_next(&mut self) -> PgWireClientResult<ReadyState<PgWireBackendMessage>>
        ensures { Polls self.old self.new result }
    {
        let alloc = self.connection.desk.alloc;
        self.connection.poll_next(alloc)
    }
}
