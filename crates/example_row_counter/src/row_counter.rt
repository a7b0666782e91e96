//! A handler that counts the rows of a query and keeps none.
ghost use Rattle.std.specs.Prelude.{◌≡◌};

use pgw_backend::client_error::PgWireClientResult;
use pgw_frontend::frontend::PgWireFrontendMessage;
use pgw_handlers::{ClientInfo, Outgoing, SimpleQueryHandler};
use pgw_query::data::{DataRow, RowDescription};
use pgw_query::response::{CommandComplete, EmptyQueryResponse, ReadyForQuery};
use pgw_query::simplequery::Query;
use pgw_types::listed::Listed;
use pgw_types::text::Text;
use std::alloc::Global;

/// Its one response is how many rows came.
#[derive(Debug, Drop)]
pub struct RowCounter {
    count: u64,
}

impl RowCounter {
    pub fn new() -> RowCounter
        ensures { result ≡ record { count = 0 } }
    {
        RowCounter { count: 0 }
    }
}

impl SimpleQueryHandler for RowCounter {
    ghost use Rattle.std.specs.Prelude.{Ok, Err};
    ghost use Rattle.example_row_counter.specs.Counting.{CountMeans, keeps_in_counter, counts_no_notifications, counter_passes_notices};

    type QueryResponse = u64;

    ghost means = { CountMeans };

    ghost keeps = { keeps_in_counter };

    ghost passes = { counter_passes_notices };

    ghost misplaces = { counts_no_notifications };

    fn simple_query<C: ClientInfo + Outgoing>(
        &mut self,
        alloc: Global,
        client: &mut C,
        query: &str,
    ) -> PgWireClientResult<()> {
        self.count = 0;
        let query = Query::new(Text::from_str(alloc, query)?);
        client.send(PgWireFrontendMessage::Query(query))
    }

    fn on_row_description<C: ClientInfo + Outgoing>(
        &mut self,
        _alloc: Global,
        _client: &mut C,
        _message: RowDescription,
    ) -> PgWireClientResult<()> {
        Ok(())
    }

    fn on_data_row<C: ClientInfo + Outgoing>(
        &mut self,
        _alloc: Global,
        _client: &mut C,
        _message: DataRow,
    ) -> PgWireClientResult<()> {
        self.count = self.count.saturating_add(1);
        Ok(())
    }

    fn on_command_complete<C: ClientInfo + Outgoing>(
        &mut self,
        _alloc: Global,
        _client: &mut C,
        _message: CommandComplete,
    ) -> PgWireClientResult<()> {
        Ok(())
    }

    fn on_empty_query<C: ClientInfo + Outgoing>(
        &mut self,
        _alloc: Global,
        _client: &mut C,
        _message: EmptyQueryResponse,
    ) -> PgWireClientResult<()> {
        Ok(())
    }

    fn on_ready_for_query<C: ClientInfo + Outgoing>(
        &mut self,
        alloc: Global,
        _client: &mut C,
        _message: ReadyForQuery,
    ) -> PgWireClientResult<Listed<u64>> {
        let mut counts = Listed::new(alloc);
        counts.push(self.count)?;
        Ok(counts)
    }
}
