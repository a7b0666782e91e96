//! What goes into two parties, and what comes of them.
use pgw_backend::client_error::PgWireClientError;
use pgw_handlers::client_info::ServerInformation;
use pgw_machine::event::Event;
use pgw_scram::password::Password;
use pgw_types::error::PgWireError;
use pgw_types::listed::Listed;
use pgw_types::octets::Octets;
use pgw_types::text::Text;

/// What the client knows, what the server keeps of the password, and the events in order.
#[derive(Drop)]
pub struct PairInput {
    pub user: Text,
    pub password: Octets,
    pub stored: Password,
    pub count: u32,
    pub client_nonce: [u8; 18],
    pub server_nonce: [u8; 18],
    pub words: [u8; 32],
    /// What the client takes for the hash of the server's certificate (`tls-server-end-point`).
    pub client_hash: Option<Octets>,
    /// The hash of the server's own certificate. Where there is one, it offers to bind a login.
    pub server_hash: Option<Octets>,
    pub schedule: Listed<Event>,
}

/// Where the client is.
#[derive(Drop)]
pub enum ClientEnd {
    Waiting,
    Ready(ServerInformation),
    Refused(PgWireClientError),
}

/// Where the server is.
#[derive(Drop)]
pub enum ServerEnd {
    Waiting,
    Finished,
    Refused(PgWireError),
}

/// Where both are, what each wrote, and how many of the other's bytes each took.
#[derive(Drop)]
pub struct PairOutcome {
    pub client: ClientEnd,
    pub server: ServerEnd,
    pub to_server: Octets,
    pub to_client: Octets,
    pub taken_by_server: u64,
    pub taken_by_client: u64,
}
