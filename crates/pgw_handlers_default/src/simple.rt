//! The default handler of simple queries.
ghost use Rattle.std.specs.Prelude.{◌≡◌, ℕ, Bool};
ghost use Rattle.pgw_session.specs.Answers.{no_tally};
ghost use Rattle.pgw_handlers.specs.Client.{Sight};
ghost use Rattle.pgw_handlers.specs.Handling.{standing, pending, OfError};
ghost use Rattle.pgw_handlers_default.specs.Simple.{NotesMessage, is_misplaced, role_of};

use pgw_backend::backend::PgWireBackendMessage;
use pgw_backend::client_error::PgWireClientResult;
use pgw_dialogue::answers;
use pgw_dialogue::table::role;
use pgw_frontend::frontend::PgWireFrontendMessage;
use pgw_handlers::causes::misplaced;
use pgw_handlers::{ClientInfo, Outgoing, SimpleQueryHandler};
use pgw_query::data::{DataRow, RowDescription};
use pgw_query::response::{CommandComplete, EmptyQueryResponse, ReadyForQuery};
use pgw_query::simplequery::Query;
use pgw_session::stage::{Kind, Role};
use pgw_session::tally::Tally;
use pgw_session::types::Response;
use pgw_types::listed::Listed;
use pgw_types::memory::OutOfMemory;
use pgw_types::octets::Octets;
use pgw_types::text::Text;
use std::alloc::Global;
use std::mem::replace;

/// Its responses are those of the query's commands, in order.
#[derive(Debug, Drop)]
pub struct DefaultSimpleQueryHandler {
    tally: Tally,
}

// Whether a message has no place, by what came before.
fn is_misplaced(tally: &Tally, message: &PgWireBackendMessage) -> bool
    ensures { result ≡ is_misplaced (role_of tally.now message.now) }
{
    match role(Kind::Simple, tally.opened.is_some(), message) {
        Role::Misplaced => true,
        _ => false,
    }
}

// The responses of a tally.
fn responses_of(tally: Tally) -> Listed<Response>
    ensures { result ≡ tally.responses }
{
    let Tally { responses, .. } = tally;
    responses
}

impl DefaultSimpleQueryHandler {
    pub fn new(alloc: Global) -> DefaultSimpleQueryHandler
        ensures { result ≡ record { tally = no_tally } }
    {
        DefaultSimpleQueryHandler {
            tally: answers::no_tally(alloc),
        }
    }

    // Notes a message that has its place, and refuses any other.
    fn note(&mut self, alloc: Global, message: PgWireBackendMessage) -> PgWireClientResult<()>
        ensures means { (seen : Sight) → NotesMessage (standing self.old seen) message
            (standing self.new seen) (pending result) }
        ensures caused { (before now : ℕ) (broken : Bool) → OfError result before now broken }
    {
        if is_misplaced(&self.tally, &message) {
            return Err(misplaced(alloc, message));
        }
        answers::note(alloc, &mut self.tally, message)?;
        Ok(())
    }
}

impl SimpleQueryHandler for DefaultSimpleQueryHandler {
    ghost use Rattle.std.specs.Prelude.{Ok, Err};
    ghost use Rattle.pgw_handlers_default.specs.Simple.{QueryMeans, keeps_in_simple, misplaces_notifications, passes_simple_notices};

    type QueryResponse = Response;

    ghost means = { QueryMeans };

    ghost keeps = { keeps_in_simple };

    ghost passes = { passes_simple_notices };

    ghost misplaces = { misplaces_notifications };

    fn simple_query<C: ClientInfo + Outgoing>(
        &mut self,
        alloc: Global,
        client: &mut C,
        query: &str,
    ) -> PgWireClientResult<()> {
        self.tally = answers::no_tally(alloc);
        let query = Query::new(Text::from_str(alloc, query)?);
        client.send(PgWireFrontendMessage::Query(query))
    }

    fn on_row_description<C: ClientInfo + Outgoing>(
        &mut self,
        alloc: Global,
        _client: &mut C,
        message: RowDescription,
    ) -> PgWireClientResult<()> {
        self.note(alloc, PgWireBackendMessage::RowDescription(message))
    }

    fn on_data_row<C: ClientInfo + Outgoing>(
        &mut self,
        alloc: Global,
        _client: &mut C,
        message: DataRow,
    ) -> PgWireClientResult<()> {
        self.note(alloc, PgWireBackendMessage::DataRow(message))
    }

    // Where a result is open, rows are added to it as they lie.
    fn take_rows(&mut self, bytes: &mut Octets) -> Result<usize, OutOfMemory> {
        if self.tally.remote.is_some() {
            return Ok(0);
        }
        match &mut self.tally.opened {
            Some(opened) => opened.rows.take_front(bytes),
            None => Ok(0),
        }
    }

    fn on_command_complete<C: ClientInfo + Outgoing>(
        &mut self,
        alloc: Global,
        _client: &mut C,
        message: CommandComplete,
    ) -> PgWireClientResult<()> {
        self.note(alloc, PgWireBackendMessage::CommandComplete(message))
    }

    fn on_empty_query<C: ClientInfo + Outgoing>(
        &mut self,
        alloc: Global,
        _client: &mut C,
        message: EmptyQueryResponse,
    ) -> PgWireClientResult<()> {
        self.note(alloc, PgWireBackendMessage::EmptyQueryResponse(message))
    }

    fn on_ready_for_query<C: ClientInfo + Outgoing>(
        &mut self,
        alloc: Global,
        _client: &mut C,
        _message: ReadyForQuery,
    ) -> PgWireClientResult<Listed<Response>> {
        let tally = replace(&mut self.tally, answers::no_tally(alloc));
        Ok(responses_of(tally))
    }
}
