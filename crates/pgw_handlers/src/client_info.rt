//! What a handler asks and tells of a client.
ghost use Rattle.std.specs.Prelude.{◌≡◌, ℕ, OnOk, OnErr};
ghost use Rattle.pgw_handlers.specs.Client.{Sight, with_parameter, with_sight_version, with_sight_status};

use pgw_config::config::Config;
use pgw_query::response::TransactionStatus;
use pgw_types::context::ProtocolVersion;
use pgw_types::memory::OutOfMemory;
use pgw_types::text::Text;
use pgw_wire::params::Params;
use pgw_wire::secret_key::SecretKey;

/// What a server told of itself as a client logged in.
#[derive(Debug, Drop)]
pub struct ServerInformation {
    pub parameters: Params,
    pub process_id: i32,
    pub secret_key: SecretKey,
}

/// Whether a handler waits for more messages, or has what was asked for.
#[derive(Debug, Drop)]
pub enum ReadyState<D> {
    Pending,
    Ready(D),
}

/// What a client tells of itself in contracts. It has no function.
pub trait Seen {
    /// What a handler sees of the client.
    ghost sight: { Self → Sight };

    /// How many calls of its link failed. It never falls.
    ghost faults: { Self → ℕ };

    /// What of the client no handler changes.
    ghost Own: { Type 0 };

    ghost own: { Self → Own };

    /// What of its link no handler changes.
    ghost Rest: { Type 0 };

    ghost rest: { Self → Rest };
}

/// What handlers ask and tell of a client.
pub trait ClientInfo: Seen {
    fn config(&self) -> &Config
        ensures { result.now ≡ (Self.sight self.now).client.config };

    /// Each parameter that a call noted of the server's, with its last value.
    fn server_parameters(&self) -> &Params
        ensures { result.now ≡ (Self.sight self.now).client.parameters };

    fn set_server_parameter(&mut self, name: Text, value: Text) -> Result<(), OutOfMemory>
        ensures set { OnOk result (Self.sight self.new
            ≡ with_parameter name value (Self.sight self.old)) }
        ensures kept { OnErr result (Self.sight self.new ≡ Self.sight self.old) }
        ensures own { Self.own self.new ≡ Self.own self.old }
        ensures rest { Self.rest self.new ≡ Self.rest self.old }
        ensures calm { Self.faults self.new ≡ Self.faults self.old };

    /// The server's process number, or -1 where it told none.
    fn process_id(&self) -> i32
        ensures { result ≡ (Self.sight self.now).client.process_id };

    fn secret_key(&self) -> &SecretKey
        ensures { result.now ≡ (Self.sight self.now).client.secret_key };

    /// The version under which the next message is read.
    fn protocol_version(&self) -> ProtocolVersion
        ensures { result ≡ (Self.sight self.now).client.protocol_version };

    fn set_protocol_version(&mut self, version: ProtocolVersion)
        ensures set { Self.sight self.new ≡ with_sight_version version (Self.sight self.old) }
        ensures own { Self.own self.new ≡ Self.own self.old }
        ensures rest { Self.rest self.new ≡ Self.rest self.old }
        ensures calm { Self.faults self.new ≡ Self.faults self.old };

    fn transaction_status(&self) -> TransactionStatus
        ensures { result ≡ (Self.sight self.now).client.transaction_status };

    fn set_transaction_status(&mut self, status: TransactionStatus)
        ensures set { Self.sight self.new ≡ with_sight_status status (Self.sight self.old) }
        ensures own { Self.own self.new ≡ Self.own self.old }
        ensures rest { Self.rest self.new ≡ Self.rest self.old }
        ensures calm { Self.faults self.new ≡ Self.faults self.old };
}
