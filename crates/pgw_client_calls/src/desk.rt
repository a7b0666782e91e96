//! What a client lays before its handlers.
ghost use Rattle.std.specs.Prelude.{◌≡◌, [], false, IfErr, IfOk, OnOk, OnErr};
ghost use Rattle.std.specs.FinMap as map;
ghost use Rattle.pgw_session.specs.Segments.{is_ready};
ghost use Rattle.pgw_config.specs.declared.config.Config.{Config as TheConfig};
ghost use Rattle.pgw_client_calls.specs.Talk.{fresh, client_after};
ghost use Rattle.pgw_frontend.specs.Frontend.{encoding};
ghost use Rattle.pgw_dialogue.specs.Wire.{PutOut};
ghost use Rattle.pgw_handlers.specs.Handling.{OfError};
ghost use Rattle.pgw_handlers.specs.Sending.{Sent, NotSent, IsSpelled, SendLeavesUsable};
ghost use Rattle.pgw_client_calls.specs.Desk.{client_of, sight_of, first_client, insert_all, with_information, is_wanting};

use bytes::BytesMut;
use pgw_backend::backend::PgWireBackendMessage;
use pgw_backend::client_error::{PgWireClientError, PgWireClientResult};
use pgw_config::config::Config;
use pgw_dialogue::standings::own_key;
use pgw_frontend::frontend::PgWireFrontendMessage;
use pgw_handlers::{ClientInfo, Outgoing, Seen, ServerInformation};
use pgw_query::response::TransactionStatus;
use pgw_types::context::ProtocolVersion;
use pgw_types::listed::Duplicate;
use pgw_types::memory::OutOfMemory;
use pgw_types::text::Text;
use pgw_wire::params::Params;
use pgw_wire::secret_key::SecretKey;
use std::alloc::Global;

/// What a client knows of its connection, and where its handlers put what they send. They never see its link.
#[derive(Drop)]
pub struct Desk {
    pub(crate) alloc: Global,
    pub(crate) config: Config,
    pub(crate) parameters: Params,
    pub(crate) process_id: i32,
    pub(crate) secret_key: SecretKey,
    pub(crate) protocol_version: ProtocolVersion,
    pub(crate) transaction_status: TransactionStatus,
    // What was sent and is not written yet.
    pub(crate) out: BytesMut,
    // Whether an error has left the client unusable.
    pub(crate) broken: bool,
}

// Sets each parameter, in order.
fn insert_all(parameters: &mut Params, more: &Params) -> Result<(), OutOfMemory>
    ensures { OnOk result (parameters.new ≡ insert_all parameters.old (map.entries more.now)) }
{
    for (name, value) in more.iter() {
        parameters.insert(name.duplicate()?, value.duplicate()?)?;
    }
    Ok(())
}

impl Desk {
    /// Before a server told anything.
    pub(crate) fn new(alloc: Global, config: Config) -> Desk
        ensures { sight_of result ≡ fresh (first_client config) }
    {
        let protocol_version = config.get_protocol_version();
        Desk {
            alloc,
            config,
            parameters: Params::new(alloc),
            process_id: -1,
            secret_key: SecretKey::I32(0),
            protocol_version,
            transaction_status: TransactionStatus::Idle,
            out: BytesMut::new(alloc),
            broken: false,
        }
    }

    /// Drops what was sent.
    pub(crate) fn clear(&mut self)
        ensures client { client_of self.new ≡ client_of self.old }
        ensures out { self.new.out.items ≡ [] }
        ensures broken { self.new.broken ≡ self.old.broken }
        ensures fresh { self.old.broken ≡ false → sight_of self.new ≡ fresh (client_of self.old) }
    {
        self.out.clear();
    }

    /// Takes in what the server told of itself. The key is a copy, which keeps no larger block alive.
    pub(crate) fn take_in(&mut self, information: ServerInformation) -> Result<(), OutOfMemory>
        ensures ok { OnOk result (client_of self.new
            ≡ with_information information (client_of self.old)) }
        ensures broken { self.new.broken ≡ self.old.broken }
        ensures config { self.new.config ≡ self.old.config }
    {
        let ServerInformation {
            parameters,
            process_id,
            secret_key,
        } = information;
        insert_all(&mut self.parameters, &parameters)?;
        let secret_key = own_key(self.alloc, &secret_key)?;
        self.process_id = process_id;
        self.secret_key = secret_key;
        Ok(())
    }

    /// Notes what a message tells that is passed over, and says whether it is ReadyForQuery.
    pub(crate) fn note(&mut self, message: &PgWireBackendMessage) -> Result<bool, OutOfMemory>
        ensures ready { IfOk result (λ ready. ready ≡ is_ready message.now) }
        ensures told { IfOk result (λ ready. client_of self.new
            ≡ client_after message.now (client_of self.old)) }
        ensures kept { OnErr result (client_of self.new ≡ client_of self.old) }
        ensures broken { self.new.broken ≡ self.old.broken }
        ensures config { self.new.config ≡ self.old.config }
    {
        match message {
            PgWireBackendMessage::ParameterStatus(m) => {
                let name = m.name.duplicate()?;
                let value = m.value.duplicate()?;
                self.parameters.insert(name, value)?;
                Ok(false)
            }
            PgWireBackendMessage::ReadyForQuery(m) => {
                self.transaction_status = m.status;
                Ok(true)
            }
            _ => Ok(false),
        }
    }
}

impl Seen for Desk {
    ghost sight = { sight_of };

    ghost faults = { λ d. 0 };

    ghost Own = { TheConfig };

    ghost own = { λ d. d.config };

    ghost Rest = { Unit {0} };

    ghost rest = { λ d. tt };
}

impl ClientInfo for Desk {
    fn config(&self) -> &Config {
        &self.config
    }

    fn server_parameters(&self) -> &Params {
        &self.parameters
    }

    fn set_server_parameter(&mut self, name: Text, value: Text) -> Result<(), OutOfMemory> {
        self.parameters.insert(name, value)
    }

    fn process_id(&self) -> i32 {
        self.process_id
    }

    fn secret_key(&self) -> &SecretKey {
        &self.secret_key
    }

    fn protocol_version(&self) -> ProtocolVersion {
        self.protocol_version
    }

    fn set_protocol_version(&mut self, version: ProtocolVersion) {
        self.protocol_version = version;
    }

    fn transaction_status(&self) -> TransactionStatus {
        self.transaction_status
    }

    fn set_transaction_status(&mut self, status: TransactionStatus) {
        self.transaction_status = status;
    }
}

/// Appends a message's one spelling, or nothing.
pub(crate) fn put(message: &PgWireFrontendMessage, out: &mut BytesMut) -> PgWireClientResult<()>
    ensures { PutOut (encoding message.now) out.old.items out.new.items result }
{
    match message.encode(out) {
        Ok(()) => Ok(()),
        Err(e) => Err(PgWireClientError::from(e)),
    }
}

// Whether memory was wanting.
fn is_wanting(error: &PgWireClientError) -> bool
    ensures { result ≡ is_wanting error.now }
{
    matches!(error, PgWireClientError::OutOfMemory)
}

impl Desk {
    // Appends what a handler sends. A message that has no spelling leaves the desk as it was, any other error unusable.
    fn append(&mut self, message: &PgWireFrontendMessage) -> PgWireClientResult<()>
        ensures sent { OnOk result (Sent (encoding message.now) (sight_of self.old)
            (sight_of self.new)) }
        ensures failed { IfErr result (λ e. NotSent (encoding message.now) (sight_of self.old)
            (sight_of self.new) e) }
        ensures spelled { IsSpelled (encoding message.now) result }
        ensures client { client_of self.new ≡ client_of self.old }
        ensures usable { SendLeavesUsable result self.old.broken self.new.broken }
        ensures config { self.new.config ≡ self.old.config }
        ensures cause { OfError result 0 0 self.new.broken }
    {
        if self.broken {
            return Err(PgWireClientError::Broken);
        }
        match put(message, &mut self.out) {
            Ok(()) => Ok(()),
            Err(e) => {
                self.broken = is_wanting(&e);
                Err(e)
            }
        }
    }
}

impl Outgoing for Desk {
    fn send(&mut self, message: PgWireFrontendMessage) -> PgWireClientResult<()> {
        let sent = self.append(&message);
        drop(message);
        sent
    }
}
