//! What a server knows of a client.
ghost use Rattle.std.specs.Prelude.{◌≡◌, pos};
ghost use Rattle.std.specs.FinMap as map;
ghost use Rattle.pgw_types.specs.declared.context.ProtocolVersion.TheVariants.{PROTOCOL3_2};
ghost use Rattle.pgw_wire.specs.declared.secret_key.SecretKey.TheVariants.{I32};
ghost use Rattle.pgw_query.specs.declared.response.TransactionStatus.TheVariants.{Idle};
ghost use Rattle.pgw_login.specs.Client.{LoginClient, with_version, with_key, with_state, with_status, with_metadata};
ghost use Rattle.pgw_login.specs.declared.client_info.PgWireConnectionState.TheVariants.{AwaitingSslRequest};

use pgw_query::response::TransactionStatus;
use pgw_types::context::ProtocolVersion;
use pgw_types::text::Text;
use pgw_wire::params::Params;
use pgw_wire::secret_key::SecretKey;
use std::alloc::Global;

pub const DEFAULT_NAME: &str = "POSTGRESQL_DEFAULT_NAME";

pub const METADATA_USER: &str = "user";

pub const METADATA_DATABASE: &str = "database";

pub const METADATA_CLIENT_ENCODING: &str = "client_encoding";

pub const METADATA_APPLICATION_NAME: &str = "application_name";

/// How far a connection is.
#[derive(Clone, Copy, Debug, PartialEq, Eq)]
pub enum PgWireConnectionState {
    AwaitingSslRequest,
    AwaitingStartup,
    AuthenticationInProgress,
    ReadyForQuery,
    QueryInProgress,
    CopyInProgress(bool),
    AwaitingSync,
}

impl Default for PgWireConnectionState {
    ghost is_default = { λ state. state ≡ AwaitingSslRequest };

    fn default() -> PgWireConnectionState {
        PgWireConnectionState::AwaitingSslRequest
    }
}

/// What handlers ask and tell of a client.
pub trait ClientInfo {
    /// What is seen of the client.
    ghost sight: { Self → LoginClient };

    /// Where the client calls from.
    fn host(&self) -> &Text
        ensures { result.now ≡ (sight self.now).host };

    /// Whether the connection is encrypted.
    fn is_secure(&self) -> bool
        ensures { result ≡ (sight self.now).is_secure };

    fn protocol_version(&self) -> ProtocolVersion
        ensures { result ≡ (sight self.now).protocol_version };

    fn set_protocol_version(&mut self, version: ProtocolVersion)
        ensures { sight self.new ≡ with_version version (sight self.old) };

    fn pid_and_secret_key(&self) -> (i32, &SecretKey)
        ensures { (result.0 ≡ (sight self.now).pid)
            × (result.1.now ≡ (sight self.now).secret_key) };

    fn set_pid_and_secret_key(&mut self, pid: i32, secret_key: SecretKey)
        ensures { sight self.new ≡ with_key pid secret_key (sight self.old) };

    fn state(&self) -> PgWireConnectionState
        ensures { result ≡ (sight self.now).state };

    fn set_state(&mut self, state: PgWireConnectionState)
        ensures { sight self.new ≡ with_state state (sight self.old) };

    fn transaction_status(&self) -> TransactionStatus
        ensures { result ≡ (sight self.now).transaction_status };

    fn set_transaction_status(&mut self, status: TransactionStatus)
        ensures { sight self.new ≡ with_status status (sight self.old) };

    /// The parameters that the client gave as it began.
    fn metadata(&self) -> &Params
        ensures { result.now ≡ (sight self.now).metadata };

    fn set_metadata(&mut self, metadata: Params)
        ensures { sight self.new ≡ with_metadata metadata (sight self.old) };
}

/// A client, with what its server keeps of it besides.
#[derive(Drop)]
pub struct DefaultClient<E> {
    pub host: Text,
    pub is_secure: bool,
    pub protocol_version: ProtocolVersion,
    pub pid_secret_key: (i32, SecretKey),
    pub state: PgWireConnectionState,
    pub transaction_status: TransactionStatus,
    pub metadata: Params,
    pub session_extensions: E,
}

impl<E> DefaultClient<E> {
    /// A client of which nothing is known yet.
    pub fn new(alloc: Global, host: Text, is_secure: bool, session: E) -> DefaultClient<E>
        ensures { result ≡ record {
          host = host;
          is_secure = is_secure;
          protocol_version = PROTOCOL3_2;
          pid_secret_key = (pos 0, I32 (pos 0));
          state = AwaitingSslRequest;
          transaction_status = Idle;
          metadata = map.empty;
          session_extensions = session;
        } }
    {
        DefaultClient {
            host,
            is_secure,
            protocol_version: ProtocolVersion::PROTOCOL3_2,
            pid_secret_key: (0, SecretKey::I32(0)),
            state: PgWireConnectionState::AwaitingSslRequest,
            transaction_status: TransactionStatus::Idle,
            metadata: Params::new(alloc),
            session_extensions: session,
        }
    }
}

impl<E> ClientInfo for DefaultClient<E> {
    ghost use Rattle.pgw_login.specs.DefaultClients.{login_client};

    ghost sight = { login_client };

    fn host(&self) -> &Text {
        &self.host
    }

    fn is_secure(&self) -> bool {
        self.is_secure
    }

    fn protocol_version(&self) -> ProtocolVersion {
        self.protocol_version
    }

    fn set_protocol_version(&mut self, version: ProtocolVersion) {
        self.protocol_version = version;
    }

    fn pid_and_secret_key(&self) -> (i32, &SecretKey) {
        (self.pid_secret_key.0, &self.pid_secret_key.1)
    }

    fn set_pid_and_secret_key(&mut self, pid: i32, secret_key: SecretKey) {
        self.pid_secret_key = (pid, secret_key);
    }

    fn state(&self) -> PgWireConnectionState {
        self.state
    }

    fn set_state(&mut self, state: PgWireConnectionState) {
        self.state = state;
    }

    fn transaction_status(&self) -> TransactionStatus {
        self.transaction_status
    }

    fn set_transaction_status(&mut self, status: TransactionStatus) {
        self.transaction_status = status;
    }

    fn metadata(&self) -> &Params {
        &self.metadata
    }

    fn set_metadata(&mut self, metadata: Params) {
        self.metadata = metadata;
    }
}
