//! A client over a stream that may keep one waiting.
ghost use Rattle.std.specs.Prelude.{◌≡◌, true, false};
ghost use Rattle.std.specs.Bool.{Decides};
ghost use Rattle.std.specs.Option.{option_copied};
ghost use Rattle.pgw_session.specs.declared.types.Request.TheVariants as request;
ghost use Rattle.pgw_session.specs.declared.types.Target.TheVariants as target;
ghost use Rattle.pgw_client_push.specs.Standing.{IsIdle};
ghost use Rattle.pgw_client_push.specs.Told.{config_of, push_room, push_standing};
ghost use Rattle.pgw_tokio.specs.Client.{IsUsable, fault_in, push_in, stream_in};
ghost use Rattle.pgw_tokio.specs.Asking.{CanAsk, IsAskingOf};
ghost use Rattle.pgw_tokio.specs.Calling.{BeginsRequest, ClientStands};

use crate::asking::Asking;
use crate::calling::ClientEngine;
use pgw_config::config::Config;
use pgw_query::response::TransactionStatus;
use pgw_session::standing::Standing;
use pgw_session::types::{Request, Target};
use pgw_tokio_moving::{BoxedMoving, Exchange};
use pgw_types::listed::Listed;
use pgw_types::octets::Octets;
use pgw_types::text::Text;
use pgw_wire::params::Params;
use pgw_wire::secret_key::SecretKey;
use std::io;
use tokio::io::{AsyncRead, AsyncWrite};

/// A client that has logged in over a stream that may keep one waiting, and that is asked one request at a time.
///
/// A request takes the client, and its future gives it back with the answer. So a future that is let go before it ended
/// takes the client with it: none is left within an answer. Whether an answer came before its request was written is not
/// looked at.
#[derive(Drop)]
pub struct AsyncClient<S> {
    // On the heap, so that a request and its answer move none of it.
    pub(crate) exchange: Box<Exchange<S, ClientEngine>>,
}

// Begins to ask a request, with nothing written yet.
fn begin<S>(exchange: &mut Exchange<S, ClientEngine>, is_usable: bool, request: Request)
    requires { is_usable ≡ true → IsIdle exchange.old.engine.client }
    ensures stream { exchange.new.stream ≡ exchange.old.stream }
    ensures still { exchange.new.unflushed ≡ false }
    ensures begins { BeginsRequest is_usable exchange.old.engine.client request
        exchange.new.engine exchange.new.turn exchange.new.out.items }
    ensures stands { ClientStands exchange.new.engine exchange.new.turn }
    ensures fault { exchange.new.engine.fault ≡ exchange.old.engine.fault }
{
    exchange.out.clear();
    exchange.turn = exchange.engine.ask(is_usable, request, &mut exchange.out);
    exchange.unflushed = false;
}

impl<S> AsyncClient<S> {
    /// Whether it can be asked: no earlier request failed on its way. It takes no memory.
    pub fn is_usable(&self) -> bool
        ensures { Decides result (IsUsable self.now) }
    {
        let engine = &self.exchange.engine;
        engine.fault.is_none() && engine.client.is_idle()
    }

    /// The error of the stream's call that failed, if one did.
    pub fn fault(&self) -> Option<&io::Error>
        ensures { option_copied result ≡ fault_in self.now }
    {
        self.exchange.engine.fault.as_ref()
    }

    /// The stream that it reads and writes.
    pub fn stream(&self) -> &S
        ensures { result.now ≡ stream_in self.now }
    {
        &self.exchange.stream
    }

    /// The configuration that it logged in by.
    pub fn config(&self) -> &Config
        ensures { result.now ≡ config_of (push_in self.now) }
    {
        self.exchange.engine.client.config()
    }

    /// What it was told of its connection. Of a client that can't be used any more nothing is promised of it.
    pub fn standing(&self) -> &Standing
        ensures { result.now ≡ push_standing (push_in self.now) }
    {
        self.exchange.engine.client.told()
    }

    /// The server's parameters, as it last told them.
    pub fn server_parameters(&self) -> &Params
        ensures { result.now ≡ (push_standing (push_in self.now)).parameters }
    {
        &self.standing().parameters
    }

    /// The server's process number, or -1 where it sent none. It and `secret_key` are what `cancel` takes: keep them before
    /// you ask.
    pub fn process_id(&self) -> i32
        ensures { result ≡ (push_standing (push_in self.now)).process_id }
    {
        self.standing().process_id
    }

    /// The key by which a request can be canceled.
    pub fn secret_key(&self) -> &SecretKey
        ensures { result.now ≡ (push_standing (push_in self.now)).secret_key }
    {
        &self.standing().secret_key
    }

    /// How many bytes more it may read in all. Where there is none a request of a client that can be used is written, and
    /// answered from the bytes that were read before, or by ReadLimit where they do not hold the answer.
    pub fn room(&self) -> u64
        ensures { result ≡ push_room (push_in self.now) }
    {
        self.exchange.engine.client.room()
    }

    /// Whether the server has a transaction open, as it last told.
    pub fn transaction_status(&self) -> TransactionStatus
        ensures { result ≡ (push_standing (push_in self.now)).status }
    {
        self.standing().status
    }
}

/// Requests. Of a client that can't be used the answer is Broken, and no byte moves. Where a request has no spelling, or
/// memory is wanting for it, nothing is written and the client can be asked again. Behind other errors it can't: ask
/// `is_usable`.
impl<S: AsyncRead + AsyncWrite> AsyncClient<S> {
    /// Asks a request of any kind. An error of the server's is an answer, once the server is ready again; what stops the
    /// client before that is the answer in its place.
    pub fn ask(self, request: Request) -> Asking<S>
        ensures asks { IsAskingOf self request result }
        ensures ready { CanAsk result }
    {
        let is_usable = self.is_usable();
        let AsyncClient { mut exchange } = self;
        begin(&mut exchange, is_usable, request);
        Asking {
            moving: BoxedMoving::new(exchange),
        }
    }

    /// Asks a simple query, which may hold several commands.
    pub fn simple_query(self, sql: Text) -> Asking<S>
        ensures asks { IsAskingOf self (request.Simple sql) result }
        ensures ready { CanAsk result }
    {
        self.ask(Request::Simple(sql))
    }

    /// Prepares a statement: its name, its query and the types of its parameters.
    pub fn prepare(self, name: Option<Text>, sql: Text, types: Listed<u32>) -> Asking<S>
        ensures asks { IsAskingOf self (request.Prepare name sql types) result }
        ensures ready { CanAsk result }
    {
        self.ask(Request::Prepare(name, sql, types))
    }

    /// Binds a portal to a statement, with the parameters as text, and the formats of the result (none: all text).
    pub fn bind(
        self,
        portal: Option<Text>,
        statement: Option<Text>,
        parameters: Listed<Option<Octets>>,
        formats: Listed<i16>,
    ) -> Asking<S>
        ensures asks { IsAskingOf self (request.Bind portal statement parameters formats)
            result }
        ensures ready { CanAsk result }
    {
        self.ask(Request::Bind(portal, statement, parameters, formats))
    }

    /// Runs a portal, up to so many rows; 0 is all.
    pub fn execute(self, portal: Option<Text>, rows: i32) -> Asking<S>
        ensures asks { IsAskingOf self (request.Execute portal rows) result }
        ensures ready { CanAsk result }
    {
        self.ask(Request::Execute(portal, rows))
    }

    /// Asks for the parameters and columns of a prepared statement.
    pub fn describe_statement(self, name: Option<Text>) -> Asking<S>
        ensures asks { IsAskingOf self (request.Describe (target.Statement name)) result }
        ensures ready { CanAsk result }
    {
        self.ask(Request::Describe(Target::Statement(name)))
    }

    /// Asks for the columns of a portal.
    pub fn describe_portal(self, name: Option<Text>) -> Asking<S>
        ensures asks { IsAskingOf self (request.Describe (target.Portal name)) result }
        ensures ready { CanAsk result }
    {
        self.ask(Request::Describe(Target::Portal(name)))
    }

    /// Closes a prepared statement.
    pub fn close_statement(self, name: Option<Text>) -> Asking<S>
        ensures asks { IsAskingOf self (request.Close (target.Statement name)) result }
        ensures ready { CanAsk result }
    {
        self.ask(Request::Close(Target::Statement(name)))
    }

    /// Closes a portal.
    pub fn close_portal(self, name: Option<Text>) -> Asking<S>
        ensures asks { IsAskingOf self (request.Close (target.Portal name)) result }
        ensures ready { CanAsk result }
    {
        self.ask(Request::Close(Target::Portal(name)))
    }

    /// Asks a query with the types of its parameters and their values as text.
    pub fn query(
        self,
        sql: Text,
        types: Listed<u32>,
        parameters: Listed<Option<Octets>>,
    ) -> Asking<S>
        ensures asks { IsAskingOf self (request.Query sql types parameters) result }
        ensures ready { CanAsk result }
    {
        self.ask(Request::Query(sql, types, parameters))
    }
}
