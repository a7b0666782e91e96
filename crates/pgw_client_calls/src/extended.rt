//! Extended queries.
ghost use Rattle.std.specs.Prelude.{◌≡◌, ℕ, List, Err, IfOk};
ghost use Rattle.std.specs.Option.{option_copied};
ghost use Rattle.pgw_session.specs.declared.types.Request.{Request as TheRequest};
ghost use Rattle.pgw_session.specs.declared.types.Request.TheVariants as kind;
ghost use Rattle.pgw_client_calls.specs.Targets.{target_of};
ghost use Rattle.pgw_client_calls.specs.Lent.{AsksByClient, lent_pair, lent_prepare, no_answer, lent_result, description_of, all_responses};

use crate::client::PgWireClient;
use crate::gathered::Gathered;
use crate::requests;
use crate::requests::DescribeTarget;
use pgw_backend::client_error::{PgWireClientError, PgWireClientResult};
use pgw_handlers::ExtendedQueryHandler;
use pgw_link::link::Link;
use pgw_session::types::{DescribeResponse, ExecuteResult, PrepareResponse, Request};
use pgw_types::listed::Listed;
use pgw_types::memory::OutOfMemory;
use pgw_types::octets::Octets;
use std::alloc::Global;

/// What a client keeps between extended queries: nothing.
#[derive(Clone, Copy, Debug)]
pub struct ExtendedQueryState;

/// A client and a handler, lent for some calls of extended queries.
#[derive(Drop)]
pub struct ExtendedQueryClient<'a, L: Link, H: ExtendedQueryHandler> {
    pub client: &'a mut PgWireClient<L>,
    pub handler: &'a mut H,
}

impl<'a, L: Link, H: ExtendedQueryHandler> ExtendedQueryClient<'a, L, H> {
    pub fn new(client: &'a mut PgWireClient<L>, handler: &'a mut H) -> ExtendedQueryClient<'a, L, H>
        ensures client { result.client.now ≡ client.old }
        ensures handler { result.handler.now ≡ handler.old }
        ensures same_client { result.client.ghost_name ≡ client.entry.ghost_name }
        ensures same_handler { result.handler.ghost_name ≡ handler.entry.ghost_name }
    {
        ExtendedQueryClient { client, handler }
    }

    // Asks a request, for which memory may have been wanting.
    fn ask(
        &mut self,
        alloc: Global,
        request: Result<Request, OutOfMemory>,
    ) -> PgWireClientResult<(Gathered<H::Responses>, bool)>
        ensures asks { (q : TheRequest) → IfOk request (λ r. r ≡ q) →
            AsksByClient L.foretells L.left L.tape
            L.faults H.means H.Responses.listed q lent_pair self.old.handler.now
            self.new.handler.now
            self.old.client.now
            self.new.client.now result }
        ensures same_client { self.new.client.ghost_name ≡ self.old.client.ghost_name }
        ensures same_handler { self.new.handler.ghost_name ≡ self.old.handler.ghost_name }
    {
        self.client.ask(alloc, self.handler, request)
    }

    /// Asks a request of extended queries, and gives what its messages gave, and whether a portal
    /// was suspended.
    pub fn request(
        &mut self,
        request: &Request,
    ) -> PgWireClientResult<(Gathered<H::Responses>, bool)>
        requires { (sql : List ℕ) → request.now ≡ kind.Simple sql → ⊥ }
        ensures asks { AsksByClient L.foretells L.left L.tape L.faults H.means
            H.Responses.listed request.now lent_pair
            self.old.handler.now self.new.handler.now self.old.client.now self.new.client.now
            result }
        ensures same_client { self.new.client.ghost_name ≡ self.old.client.ghost_name }
        ensures same_handler { self.new.handler.ghost_name ≡ self.old.handler.ghost_name }
    {
        let alloc = self.client.alloc();
        self.client.ask_by(alloc, self.handler, request)
    }

    // Memory was wanting for a request.
    fn starve(&mut self) -> PgWireClientError
        ensures asks { (q : TheRequest) → AsksByClient L.foretells L.left L.tape L.faults H.means
            H.Responses.listed q lent_pair self.old.handler.now self.new.handler.now
            self.old.client.now
            self.new.client.now
            (Err result) }
        ensures same_client { self.new.client.ghost_name ≡ self.old.client.ghost_name }
        ensures same_handler { self.new.handler.ghost_name ≡ self.old.handler.ghost_name }
    {
        self.client.starve()
    }

    /// Prepares a statement, and tells the types of its parameters.
    pub fn prepare(
        &mut self,
        name: Option<&str>,
        query: &str,
        param_types: &[u32],
    ) -> PgWireClientResult<PrepareResponse>
        ensures asks { AsksByClient L.foretells L.left L.tape L.faults H.means
            H.Responses.listed (kind.Prepare (option_copied name.entry) query.now param_types.now)
            (lent_prepare (option_copied name.entry)) self.old.handler.now self.new.handler.now
            self.old.client.now self.new.client.now result }
        ensures same_client { self.new.client.ghost_name ≡ self.old.client.ghost_name }
        ensures same_handler { self.new.handler.ghost_name ≡ self.old.handler.ghost_name }
    {
        let alloc = self.client.alloc();
        let shown = match requests::named(alloc, name) {
            Ok(shown) => shown,
            Err(_) => return Err(self.starve()),
        };
        match self.ask(alloc, requests::prepare(alloc, name, query, param_types)) {
            Ok((gathered, _)) => Ok(PrepareResponse {
                name: shown,
                param_types: gathered.types,
            }),
            Err(error) => Err(error),
        }
    }

    /// Binds parameters, as text, to a statement. An empty list of formats asks for a result of texts.
    pub fn bind(
        &mut self,
        portal: Option<&str>,
        statement: Option<&str>,
        params: Listed<Option<Octets>>,
        result_formats: Listed<i16>,
    ) -> PgWireClientResult<()>
        ensures asks { AsksByClient L.foretells L.left L.tape L.faults H.means
            H.Responses.listed (kind.Bind (option_copied portal.entry)
            (option_copied statement.entry) params
            result_formats) no_answer self.old.handler.now self.new.handler.now self.old.client.now
            self.new.client.now result }
        ensures same_client { self.new.client.ghost_name ≡ self.old.client.ghost_name }
        ensures same_handler { self.new.handler.ghost_name ≡ self.old.handler.ghost_name }
    {
        let alloc = self.client.alloc();
        let request = requests::bind(alloc, portal, statement, params, result_formats);
        match self.ask(alloc, request) {
            Ok(_) => Ok(()),
            Err(error) => Err(error),
        }
    }

    /// Runs a portal up to so many rows (0: all), and answers what the handler makes of each.
    pub fn execute(
        &mut self,
        portal: Option<&str>,
        max_rows: i32,
    ) -> PgWireClientResult<ExecuteResult<H::Responses>>
        ensures asks { AsksByClient L.foretells L.left L.tape L.faults H.means
            H.Responses.listed (kind.Execute (option_copied portal.entry) max_rows) lent_result
            self.old.handler.now
            self.new.handler.now self.old.client.now self.new.client.now result }
        ensures same_client { self.new.client.ghost_name ≡ self.old.client.ghost_name }
        ensures same_handler { self.new.handler.ghost_name ≡ self.old.handler.ghost_name }
    {
        let alloc = self.client.alloc();
        match self.ask(alloc, requests::execute(alloc, portal, max_rows)) {
            Ok((gathered, suspended)) => Ok(executed(gathered, suspended)),
            Err(error) => Err(error),
        }
    }

    /// Tells the parameters of a statement, and the columns of it or of a portal.
    pub fn describe(&mut self, target: DescribeTarget<'_>) -> PgWireClientResult<DescribeResponse>
        ensures asks { AsksByClient L.foretells L.left L.tape L.faults H.means
            H.Responses.listed (kind.Describe (target_of target.entry)) description_of
            self.old.handler.now
            self.new.handler.now self.old.client.now self.new.client.now result }
        ensures same_client { self.new.client.ghost_name ≡ self.old.client.ghost_name }
        ensures same_handler { self.new.handler.ghost_name ≡ self.old.handler.ghost_name }
    {
        let alloc = self.client.alloc();
        match self.ask(alloc, requests::describe(alloc, target)) {
            Ok((gathered, _)) => Ok(DescribeResponse {
                param_types: gathered.types,
                fields: gathered.columns,
            }),
            Err(error) => Err(error),
        }
    }

    /// Closes a statement or a portal.
    pub fn close(&mut self, target: DescribeTarget<'_>) -> PgWireClientResult<()>
        ensures asks { AsksByClient L.foretells L.left L.tape L.faults H.means
            H.Responses.listed (kind.Close (target_of target.entry)) no_answer self.old.handler.now
            self.new.handler.now self.old.client.now self.new.client.now result }
        ensures same_client { self.new.client.ghost_name ≡ self.old.client.ghost_name }
        ensures same_handler { self.new.handler.ghost_name ≡ self.old.handler.ghost_name }
    {
        let alloc = self.client.alloc();
        match self.ask(alloc, requests::close(alloc, target)) {
            Ok(_) => Ok(()),
            Err(error) => Err(error),
        }
    }

    /// Prepares, binds and runs a query without names, and answers what the handler makes of each row.
    pub fn query(
        &mut self,
        sql: &str,
        param_types: &[u32],
        params: Listed<Option<Octets>>,
    ) -> PgWireClientResult<H::Responses>
        ensures asks { AsksByClient L.foretells L.left L.tape L.faults H.means
            H.Responses.listed (kind.Query sql.now param_types.now params) all_responses
            self.old.handler.now
            self.new.handler.now self.old.client.now self.new.client.now result }
        ensures same_client { self.new.client.ghost_name ≡ self.old.client.ghost_name }
        ensures same_handler { self.new.handler.ghost_name ≡ self.old.handler.ghost_name }
    {
        let alloc = self.client.alloc();
        match self.ask(alloc, requests::query(alloc, sql, param_types, params)) {
            Ok((gathered, _)) => Ok(gathered.responses),
            Err(error) => Err(error),
        }
    }
}

// All rows came, or the portal was suspended behind some.
fn executed<S: Drop>(gathered: Gathered<S>, suspended: bool) -> ExecuteResult<S>
    ensures { result ≡ lent_result gathered suspended }
{
    let responses = gathered.responses;
    if suspended {
        ExecuteResult::Suspended(responses)
    } else {
        ExecuteResult::Complete(responses)
    }
}

impl<L: Link> PgWireClient<L> {
    /// Lends the client and a handler for calls of extended queries.
    pub fn extended_query<'a, H: ExtendedQueryHandler>(
        &'a mut self,
        handler: &'a mut H,
    ) -> ExtendedQueryClient<'a, L, H>
        ensures client { result.client.now ≡ self.old }
        ensures handler { result.handler.now ≡ handler.old }
        ensures same_client { result.client.ghost_name ≡ self.entry.ghost_name }
        ensures same_handler { result.handler.ghost_name ≡ handler.entry.ghost_name }
    {
        ExtendedQueryClient::new(self, handler)
    }
}
