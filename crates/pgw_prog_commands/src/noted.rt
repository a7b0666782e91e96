//! A handler of a login that notes what the server asks for.
ghost use Rattle.std.specs.Prelude.{◌≡◌};

use crate::notes::{Clock, LoginNotes, is_final};
use pgw_backend::client_error::PgWireClientResult;
use pgw_handlers::{ClientInfo, Outgoing, ServerInformation, StartupHandler};
use pgw_handlers_default::DefaultStartupHandler;
use pgw_query::response::ReadyForQuery;
use pgw_startup::authentication::Authentication;
use pgw_startup::backend_key_data::BackendKeyData;
use std::alloc::Global;
use std::marker::Model;

/// The default handler of a login, which notes beside it what the server asks for. A contract sees the default handler
/// alone, and no clause says what is noted in the end.
#[derive(Drop)]
pub struct NotedStartupHandler<'a, T: Clock> {
    handler: DefaultStartupHandler,
    notes: &'a mut LoginNotes,
    clock: &'a mut T,
}

impl<'a, T: Clock> Model for NotedStartupHandler<'a, T> {
    ghost use Rattle.pgw_handlers_default.specs.declared.startup.DefaultStartupHandler.{DefaultStartupHandler};

    ghost Value = { DefaultStartupHandler };

    ghost view = { λ h. h.handler };
}

impl<'a, T: Clock> NotedStartupHandler<'a, T> {
    pub fn new(
        handler: DefaultStartupHandler,
        notes: &'a mut LoginNotes,
        clock: &'a mut T,
    ) -> NotedStartupHandler<'a, T>
        ensures { result ≡ handler }
    {
        NotedStartupHandler {
            handler,
            notes,
            clock,
        }
    }
}

impl<'a, T: Clock> StartupHandler for NotedStartupHandler<'a, T> {
    ghost use Rattle.std.specs.Prelude.{Ok, Err};
    ghost use Rattle.pgw_handlers_default.specs.Startup.{StartupMeans, exchanges, keeps_in_startup, misplaces_notifications, passes_notices, settles_version};

    ghost means = { StartupMeans };

    ghost exchanges = { exchanges };

    ghost settles = { settles_version };

    ghost keeps = { keeps_in_startup };

    ghost passes = { passes_notices };

    ghost misplaces = { misplaces_notifications };

    fn in_exchange(&self) -> bool {
        self.handler.in_exchange()
    }

    fn startup<C: ClientInfo + Outgoing>(
        &mut self,
        alloc: Global,
        client: &mut C,
    ) -> PgWireClientResult<()> {
        let at = self.clock.now();
        self.notes.begin(at);
        self.handler.startup(alloc, client)
    }

    fn on_authentication<C: ClientInfo + Outgoing>(
        &mut self,
        alloc: Global,
        client: &mut C,
        message: Authentication,
    ) -> PgWireClientResult<()> {
        self.notes.hear(&message);
        let last = is_final(&message);
        let answer = self.handler.on_authentication(alloc, client, message);
        self.notes.accept(last && answer.is_ok());
        answer
    }

    fn on_backend_key<C: ClientInfo + Outgoing>(
        &mut self,
        alloc: Global,
        client: &mut C,
        message: BackendKeyData,
    ) -> PgWireClientResult<()> {
        self.handler.on_backend_key(alloc, client, message)
    }

    fn on_ready_for_query<C: ClientInfo + Outgoing>(
        &mut self,
        alloc: Global,
        client: &mut C,
        message: ReadyForQuery,
    ) -> PgWireClientResult<ServerInformation> {
        self.handler.on_ready_for_query(alloc, client, message)
    }
}
