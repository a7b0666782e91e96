//! Simple queries.
ghost use Rattle.std.specs.Prelude.{◌≡◌, ◌≤◌, ◌<◌, ◌+◌, length, true, false, Err, IfOk, OnOk, OnErr};
ghost use Rattle.pgw_backend.specs.declared.client_error.PgWireClientError.TheVariants as client;
ghost use Rattle.pgw_handlers.specs.Handling.{HasCause};
ghost use Rattle.pgw_handlers.specs.Simple.{simple_query, HeardInQuery, TakesSimpleRows};
ghost use Rattle.pgw_client_calls.specs.Talk.{end, passes};
ghost use Rattle.pgw_client_calls.specs.Desk.{client_of};
ghost use Rattle.pgw_client_calls.specs.Line.{Foretold};
ghost use Rattle.pgw_client_calls.specs.Connection.{line_in};
ghost use Rattle.pgw_client_calls.specs.Querying.{Queries};
ghost use Rattle.pgw_client_calls.specs.Calls.{IsUsableAfter, may_go_on, HeardNext, HeardOn, LineCall};

use crate::client::PgWireClient;
use crate::connection::Connection;
use crate::hearing::Hearer;
use pgw_backend::client_error::{PgWireClientError, PgWireClientResult};
use pgw_dialogue::inbox::Inbox;
use pgw_dialogue::table::is_ready;
use pgw_handlers::{ReadyState, SimpleQueryHandler};
use pgw_link::link::Link;
use pgw_types::listed::Listed;
use pgw_types::memory::OutOfMemory;
use std::alloc::Global;
use std::marker::Model;
use std::mem::replace;

impl<L: Link> Connection<L> {
    // Takes a message and has the handler hear it.
    fn hear_in_query<H: SimpleQueryHandler>(
        &mut self,
        alloc: Global,
        handler: &mut H,
    ) -> PgWireClientResult<ReadyState<Listed<H::QueryResponse>>>
        requires { self.old.desk.broken ≡ false }
        ensures limit { self.new.limit ≡ self.old.limit }
        ensures config { self.new.desk.config ≡ self.old.desk.config }
        ensures shrinks { OnOk result
            (length self.new.inbox + self.old.read < length self.old.inbox + self.new.read) }
        ensures cause { HasCause (L.faults self.old.link) (L.faults self.new.link) false result }
        ensures foretold { L.foretells → Foretold (L.left self.old.link) (L.left self.new.link)
            (L.tape self.old.link) (L.tape self.new.link) }
        ensures usable { IsUsableAfter passes result self.new.desk.broken }
        ensures heard { HeardNext (HeardInQuery H.means) passes handler.old
            (client_of self.old.desk)
            (line_in L.tape L.faults self.old) (line_in L.tape L.faults self.new)
            handler.new (client_of self.new.desk) self.new.desk.broken result }
    {
        let message = match self.next_message(alloc) {
            Ok(message) => message,
            Err(error) => {
                self.desk.broken = true;
                return Err(error);
            }
        };
        let closing = is_ready(&message);
        self.desk.clear();
        let answer = handler.on_message(alloc, &mut self.desk, message);
        self.follow(alloc, true, closing, answer)
    }

    // Has the handler take rows that stand whole at the buffer's front, as many as it likes.
    fn take_rows_in_query<H: SimpleQueryHandler>(
        &mut self,
        alloc: Global,
        handler: &mut H,
    ) -> Result<usize, OutOfMemory>
        ensures desk { self.new.desk ≡ self.old.desk }
        ensures link { self.new.link ≡ self.old.link }
        ensures read { self.new.read ≡ self.old.read }
        ensures limit { self.new.limit ≡ self.old.limit }
        ensures taken { IfOk result (TakesSimpleRows H.means handler.old handler.new
            self.old.inbox self.new.inbox) }
        ensures shorter { length self.new.inbox ≤ length self.old.inbox }
        ensures err { OnErr result (self.new.inbox ≡ self.old.inbox) }
    {
        self.inbox.settle()?;
        let mut parts = replace(&mut self.inbox, Inbox::new(alloc)).into_parts();
        let taken = handler.take_rows(&mut parts.front);
        self.inbox = parts.into_inbox();
        taken
    }

    // Has the handler take rows, and hear the message behind them.
    fn go_on_in_query<H: SimpleQueryHandler>(
        &mut self,
        alloc: Global,
        handler: &mut H,
    ) -> PgWireClientResult<ReadyState<Listed<H::QueryResponse>>>
        requires { self.old.desk.broken ≡ false }
        ensures limit { self.new.limit ≡ self.old.limit }
        ensures config { self.new.desk.config ≡ self.old.desk.config }
        ensures shrinks { OnOk result
            (length self.new.inbox + self.old.read < length self.old.inbox + self.new.read) }
        ensures cause { HasCause (L.faults self.old.link) (L.faults self.new.link) false result }
        ensures foretold { L.foretells → Foretold (L.left self.old.link) (L.left self.new.link)
            (L.tape self.old.link) (L.tape self.new.link) }
        ensures usable { IsUsableAfter passes result self.new.desk.broken }
        ensures heard { HeardOn (HeardInQuery H.means) passes handler.old (client_of self.old.desk)
            (line_in L.tape L.faults self.old) (line_in L.tape L.faults self.new)
            handler.new (client_of self.new.desk) self.new.desk.broken result }
    {
        match self.take_rows_in_query(alloc, handler) {
            Ok(_) => self.hear_in_query(alloc, handler),
            Err(_) => {
                self.desk.broken = true;
                Err(PgWireClientError::OutOfMemory)
            }
        }
    }

    // Asks a simple query.
    #[tactic(auto, using(crate::proofs::ForetoldLaws::foretold_still))]
    fn simple_query<H: SimpleQueryHandler + Drop>(
        &mut self,
        alloc: Global,
        mut handler: H,
        query: &str,
    ) -> PgWireClientResult<Listed<H::QueryResponse>>
        ensures broken { self.old.desk.broken ≡ true → (result ≡ Err client.Broken) ×
            (self.new ≡ self.old) }
        ensures asked { self.old.desk.broken ≡ false → LineCall
            (λ before after answer. H.means before (simple_query query.now) after answer)
            (HeardInQuery H.means) passes
            handler (client_of self.old.desk)
            (line_in L.tape L.faults self.old) (line_in L.tape L.faults self.new)
            (end result (client_of self.new.desk) self.new.desk.broken self.new.inbox) }
        ensures cause { HasCause (L.faults self.old.link) (L.faults self.new.link)
            self.old.desk.broken result }
        ensures foretold { L.foretells → Foretold (L.left self.old.link) (L.left self.new.link)
            (L.tape self.old.link) (L.tape self.new.link) }
        ensures usable { self.old.desk.broken ≡ false → IsUsableAfter may_go_on result
            self.new.desk.broken }
        ensures within { self.new.read ≤ self.new.limit }
        ensures limit { self.new.limit ≡ self.old.limit }
        ensures config { self.new.desk.config ≡ self.old.desk.config }
    {
        if self.desk.broken {
            return Err(PgWireClientError::Broken);
        }
        self.desk.clear();
        let opened = handler.simple_query(alloc, &mut self.desk, query);
        match self.begin(opened) {
            Ok(()) => self.talk(alloc, &mut InQuery { handler }),
            Err(error) => Err(error),
        }
    }
}

// A handler that hears a query's answer.
#[derive(Drop)]
struct InQuery<H> {
    handler: H,
}

impl<H> Model for InQuery<H> {
    ghost Value = { H };

    ghost view = { λ q. q.handler };
}

impl<H: SimpleQueryHandler> Hearer for InQuery<H> {
    type Outcome = Listed<H::QueryResponse>;

    ghost hears = { HeardInQuery H.means };

    ghost goes_on = { passes };

    fn hear<L: Link>(
        &mut self,
        alloc: Global,
        connection: &mut Connection<L>,
    ) -> PgWireClientResult<ReadyState<Listed<H::QueryResponse>>> {
        connection.go_on_in_query(alloc, &mut self.handler)
    }
}

impl<L: Link> PgWireClient<L> {
    /// Asks a simple query, and answers what the handler makes of the messages.
    pub fn simple_query<H: SimpleQueryHandler + Drop>(
        &mut self,
        handler: H,
        query: &str,
    ) -> PgWireClientResult<Listed<H::QueryResponse>>
        ensures { Queries L.foretells L.left L.tape L.faults H.means handler query.now
            self.old self.new result }
    {
        let alloc = self.connection.desk.alloc;
        self.connection.simple_query(alloc, handler, query)
    }
}
