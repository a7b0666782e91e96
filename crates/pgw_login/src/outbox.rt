//! Where a server's messages go.
ghost use Rattle.std.specs.Prelude.{◌≡◌, ◌≤◌, ℕ, ◌+◌, OnOk, OnErr, IfErr, Ok, []};
ghost use Rattle.pgw_backend.specs.declared.backend.PgWireBackendMessage.{PgWireBackendMessage as TheMessage};
ghost use Rattle.pgw_login.specs.Sending.{NotTaken, and_encoding};

use bytes::BytesMut;
use pgw_backend::backend::PgWireBackendMessage;
use pgw_types::error::PgWireResult;
use std::alloc::Global;

/// Takes a server's messages.
pub trait Outbox {
    /// What is told of the messages that were taken, and nothing where an outbox tells nothing.
    ghost Sent: { Type 0 };

    ghost sent: { Self → Sent };

    /// What is told once one more is taken.
    ghost add: { Sent → TheMessage → Sent };

    /// How many of its calls failed.
    ghost faults: { Self → ℕ };

    /// How many of the messages that were taken wait here, and are not sent on yet.
    ghost waiting: { Self → ℕ };

    /// Takes a message. It may wait here for those that follow.
    fn feed(&mut self, message: PgWireBackendMessage) -> PgWireResult<()>
        ensures taken { OnOk result (sent self.new ≡ add (sent self.old) message) }
        ensures waits { waiting self.new ≤ waiting self.old + 1 }
        ensures calm { OnOk result (faults self.new ≡ faults self.old) }
        ensures kept { OnErr result (sent self.new ≡ sent self.old) }
        ensures cause { IfErr result (λ e. NotTaken message (faults self.old) (faults self.new)
            e) };

    /// Takes a message and sends it on, with all that wait.
    fn send(&mut self, message: PgWireBackendMessage) -> PgWireResult<()>
        ensures taken { OnOk result (sent self.new ≡ add (sent self.old) message) }
        ensures flushed { OnOk result (waiting self.new ≡ 0) }
        ensures calm { OnOk result (faults self.new ≡ faults self.old) }
        ensures kept { OnErr result (sent self.new ≡ sent self.old) }
        ensures cause { IfErr result (λ e. NotTaken message (faults self.old) (faults self.new)
            e) };
}

/// An outbox that writes the messages into a buffer. It never fails, and tells the bytes.
#[derive(Drop)]
pub struct ByteOutbox {
    pub buffer: BytesMut,
}

impl ByteOutbox {
    pub fn new(alloc: Global) -> ByteOutbox
        ensures { result.buffer.items ≡ [] }
    {
        ByteOutbox {
            buffer: BytesMut::new(alloc),
        }
    }
}

impl Outbox for ByteOutbox {
    ghost use Rattle.std.specs.Prelude.{List, ℕ, Result};
    ghost use Rattle.pgw_types.specs.declared.error.PgWireError.{PgWireError as Refusal};

    ghost Sent = { Result (List ℕ) Refusal };

    ghost sent = { λ o. Ok o.buffer.items };

    ghost add = { and_encoding };

    ghost faults = { λ o. 0 };

    ghost waiting = { λ o. 0 };

    fn feed(&mut self, message: PgWireBackendMessage) -> PgWireResult<()> {
        let written = message.encode(&mut self.buffer);
        drop(message);
        written
    }

    fn send(&mut self, message: PgWireBackendMessage) -> PgWireResult<()> {
        self.feed(message)
    }
}
