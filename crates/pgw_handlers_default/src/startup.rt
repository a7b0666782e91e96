//! The default handler of a login.
ghost use Rattle.std.specs.Prelude.{◌≡◌, pos, negsuc, IfOk};
ghost use Rattle.pgw_wire.specs.declared.secret_key.SecretKey.TheVariants.{I32};
ghost use Rattle.pgw_session.specs.declared.stage.Stage.TheVariants.{Starting};
ghost use Rattle.pgw_session.specs.Segments.{startup_message};
ghost use Rattle.pgw_session.specs.Table.{next_after as table};
ghost use Rattle.pgw_handlers.specs.Handling.{standing, pending, ready_answer, Leaves};
ghost use Rattle.pgw_handlers_default.specs.Causes.{RefusesCaused};
ghost use Rattle.pgw_handlers_default.specs.Startup.{FollowsNext, GivesInformation, SendsReply, closes, login_input};

use pgw_backend::backend::PgWireBackendMessage;
use pgw_backend::client_error::PgWireClientResult;
use pgw_config::config::Config;
use pgw_dialogue::input::Input;
use pgw_dialogue::machine::startup_message;
use pgw_dialogue::table::after;
use pgw_frontend::frontend::PgWireFrontendMessage;
use pgw_handlers::causes::misplaced;
use pgw_handlers::{ClientInfo, Outgoing, ServerInformation, StartupHandler};
use pgw_query::response::ReadyForQuery;
use pgw_session::stage::{Next, Stage};
use pgw_startup::authentication::Authentication;
use pgw_startup::backend_key_data::BackendKeyData;
use pgw_types::listed::Duplicate;
use pgw_types::memory::OutOfMemory;
use pgw_wire::secret_key::SecretKey;
use std::alloc::Global;

/// It logs in with the client's configuration, by no password, one in clear text, one under MD5, or SCRAM-SHA-256.
#[derive(Drop)]
pub struct DefaultStartupHandler {
    nonce: [u8; 18],
    stage: Stage,
    process_id: i32,
    secret_key: SecretKey,
}

// Sends a message, if there is one.
fn send_reply<C: Outgoing>(
    client: &mut C,
    reply: Option<PgWireFrontendMessage>,
) -> PgWireClientResult<()>
    ensures sends { SendsReply reply (C.sight client.old) (C.sight client.new) result }
    ensures leaves { Leaves C.own C.rest C.faults C.sight client.old client.new result }
{
    match reply {
        Some(message) => client.send(message),
        None => Ok(()),
    }
}

impl DefaultStartupHandler {
    /// A handler of one login. The nonce is to be random and used for no other.
    pub fn new(nonce: [u8; 18]) -> DefaultStartupHandler
        ensures { result ≡ record {
          nonce = nonce;
          stage = Starting;
          process_id = negsuc 0;
          secret_key = I32 (pos 0);
        } }
    {
        DefaultStartupHandler {
            nonce,
            stage: Stage::Starting,
            process_id: -1,
            secret_key: SecretKey::I32(0),
        }
    }

    // What the table says of a message at the handler's stage.
    fn next(
        &self,
        alloc: Global,
        config: &Config,
        message: &PgWireBackendMessage,
    ) -> Result<Next, OutOfMemory>
        ensures { IfOk result (λ n. n ≡ table (login_input self.now config.now) self.now.stage
            message.now) }
    {
        let input = Input {
            config,
            requests: &[],
            nonce: &self.nonce,
        };
        after(alloc, &input, &self.stage, message)
    }

    // Whether a message closes the startup segment.
    fn closes(
        &self,
        alloc: Global,
        config: &Config,
        message: &PgWireBackendMessage,
    ) -> Result<bool, OutOfMemory>
        ensures { IfOk result (λ b. b ≡ closes
            (table (login_input self.now config.now) self.now.stage message.now)) }
    {
        let next = self.next(alloc, config, message)?;
        let closes = match &next {
            Next::Closes => true,
            _ => false,
        };
        drop(next);
        Ok(closes)
    }

    // What the server told of itself.
    fn information<C: ClientInfo>(&self, client: &C) -> PgWireClientResult<ServerInformation>
        ensures { GivesInformation (standing self.now (C.sight client.now))
            (standing self.now (C.sight client.now)) (ready_answer result) }
    {
        let parameters = client.server_parameters().duplicate()?;
        let secret_key = self.secret_key.duplicate()?;
        Ok(ServerInformation {
            parameters,
            process_id: self.process_id,
            secret_key,
        })
    }

    // The message that begins the connection.
    fn opening(&self, alloc: Global, config: &Config) -> Result<PgWireFrontendMessage, OutOfMemory>
        ensures { IfOk result (λ m. m ≡ startup_message (login_input self.now config.now)) }
    {
        let input = Input {
            config,
            requests: &[],
            nonce: &self.nonce,
        };
        startup_message(alloc, &input)
    }

    // Does what the table says: sends the reply and goes on to the stage, or refuses the message.
    fn follow<C: ClientInfo + Outgoing>(
        &mut self,
        alloc: Global,
        client: &mut C,
        message: PgWireBackendMessage,
        next: Next,
    ) -> PgWireClientResult<()>
        requires { RefusesCaused next }
        ensures follows { FollowsNext next message (standing self.old (C.sight client.old))
            (standing self.new (C.sight client.new)) (pending result) }
        ensures leaves { Leaves C.own C.rest C.faults C.sight client.old client.new result }
    {
        match next {
            Next::Goes(stage, reply) => {
                drop(message);
                send_reply(client, reply)?;
                self.stage = stage;
                Ok(())
            }
            Next::Refuses(error) => {
                drop(message);
                Err(error)
            }
            Next::Closes | Next::Wrong | Next::PassesOver => Err(misplaced(alloc, message)),
        }
    }
}

impl StartupHandler for DefaultStartupHandler {
    ghost use Rattle.std.specs.Prelude.{Ok, Err};
    ghost use Rattle.pgw_handlers_default.specs.Startup.{StartupMeans, exchanges, keeps_in_startup, misplaces_notifications, passes_notices, settles_version};

    ghost means = { StartupMeans };

    ghost exchanges = { exchanges };

    ghost settles = { settles_version };

    ghost keeps = { keeps_in_startup };

    ghost passes = { passes_notices };

    ghost misplaces = { misplaces_notifications };

    fn in_exchange(&self) -> bool {
        match self.stage {
            Stage::Challenged(_) | Stage::Proving(_) => true,
            _ => false,
        }
    }

    fn startup<C: ClientInfo + Outgoing>(
        &mut self,
        alloc: Global,
        client: &mut C,
    ) -> PgWireClientResult<()> {
        self.stage = Stage::Starting;
        self.process_id = -1;
        self.secret_key = SecretKey::I32(0);
        let opening = self.opening(alloc, client.config())?;
        client.send(opening)
    }

    fn on_authentication<C: ClientInfo + Outgoing>(
        &mut self,
        alloc: Global,
        client: &mut C,
        message: Authentication,
    ) -> PgWireClientResult<()> {
        let message = PgWireBackendMessage::Authentication(message);
        match self.next(alloc, client.config(), &message) {
            Ok(next) => self.follow(alloc, client, message, next),
            Err(error) => {
                drop(message);
                Err(error.into())
            }
        }
    }

    fn on_backend_key<C: ClientInfo + Outgoing>(
        &mut self,
        _alloc: Global,
        _client: &mut C,
        message: BackendKeyData,
    ) -> PgWireClientResult<()> {
        let BackendKeyData { pid, secret_key } = message;
        self.process_id = pid;
        self.secret_key = secret_key;
        Ok(())
    }

    fn on_ready_for_query<C: ClientInfo + Outgoing>(
        &mut self,
        alloc: Global,
        client: &mut C,
        message: ReadyForQuery,
    ) -> PgWireClientResult<ServerInformation> {
        let message = PgWireBackendMessage::ReadyForQuery(message);
        match self.closes(alloc, client.config(), &message) {
            Ok(true) => {
                drop(message);
                self.information(client)
            }
            Ok(false) => Err(misplaced(alloc, message)),
            Err(error) => {
                drop(message);
                Err(error.into())
            }
        }
    }
}
