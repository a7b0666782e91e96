//! How the messages of a call are heard, up to its end.
ghost use Rattle.std.specs.Prelude.{◌≡◌, ◌<◌, ◌+◌, length, false, Bool, OnOk};
ghost use Rattle.pgw_backend.specs.declared.client_error.PgWireClientError.{PgWireClientError as TheError};
ghost use Rattle.pgw_handlers.specs.Handling.{HasCause};
ghost use Rattle.pgw_client_calls.specs.Talk.{Hearing, end};
ghost use Rattle.pgw_client_calls.specs.Desk.{client_of};
ghost use Rattle.pgw_client_calls.specs.Line.{Foretold};
ghost use Rattle.pgw_client_calls.specs.Connection.{line_in};
ghost use Rattle.pgw_client_calls.specs.Calls.{IsUsableAfter, HeardOn, TalksToCallEnd};

use crate::connection::Connection;
use pgw_backend::client_error::PgWireClientResult;
use pgw_handlers::ReadyState;
use pgw_link::link::Link;
use std::alloc::Global;

/// What the messages of a call are handed to, a login's or a query's.
pub(crate) trait Hearer {
    type Outcome: Drop;

    /// What it is to hear a message.
    ghost hears: { Hearing Self Self.Outcome };

    /// Behind which errors a call goes on.
    ghost goes_on: { TheError → Bool };

    /// Takes the next message, behind the rows that it takes together, and hears it.
    fn hear<L: Link>(
        &mut self,
        alloc: Global,
        connection: &mut Connection<L>,
    ) -> PgWireClientResult<ReadyState<Self::Outcome>>
        requires { connection.old.desk.broken ≡ false }
        ensures limit { connection.new.limit ≡ connection.old.limit }
        ensures config { connection.new.desk.config ≡ connection.old.desk.config }
        ensures shrinks { OnOk result (length connection.new.inbox + connection.old.read
            < length connection.old.inbox + connection.new.read) }
        ensures cause { HasCause (L.faults connection.old.link) (L.faults connection.new.link)
            false result }
        ensures foretold { L.foretells →
            Foretold (L.left connection.old.link) (L.left connection.new.link)
            (L.tape connection.old.link) (L.tape connection.new.link) }
        ensures usable { IsUsableAfter goes_on result connection.new.desk.broken }
        ensures heard { HeardOn hears goes_on self.old (client_of connection.old.desk)
            (line_in L.tape L.faults connection.old) (line_in L.tape L.faults connection.new)
            self.new (client_of connection.new.desk) connection.new.desk.broken result };
}

impl<L: Link> Connection<L> {
    // Has the messages heard until the call ends.
    pub(crate) fn talk<R: Hearer>(
        &mut self,
        alloc: Global,
        hearer: &mut R,
    ) -> PgWireClientResult<R::Outcome>
        requires { self.old.desk.broken ≡ false }
        ensures limit { self.new.limit ≡ self.old.limit }
        ensures config { self.new.desk.config ≡ self.old.desk.config }
        ensures cause { HasCause (L.faults self.old.link) (L.faults self.new.link) false result }
        ensures foretold { L.foretells → Foretold (L.left self.old.link) (L.left self.new.link)
            (L.tape self.old.link) (L.tape self.new.link) }
        ensures usable { IsUsableAfter R.goes_on result self.new.desk.broken }
        ensures talked { TalksToCallEnd R.hears R.goes_on hearer.old (client_of self.old.desk)
            (line_in L.tape L.faults self.old) (line_in L.tape L.faults self.new)
            (end result (client_of self.new.desk) self.new.desk.broken self.new.inbox) }
    {
        'messages: loop {
            match hearer.hear(alloc, self) {
                Ok(ReadyState::Pending) => {}
                Ok(ReadyState::Ready(outcome)) => return Ok(outcome),
                Err(error) => return Err(error),
            }
        }
    }
}
