//! Messages of both sides.

use pgw_backend::backend::PgWireBackendMessage;
use pgw_frontend::frontend::PgWireFrontendMessage;

/// Which end of a connection sent something.
#[derive(Clone, Copy, Debug, Drop)]
pub enum Side {
    Client,
    Server,
}

/// A message of either side.
#[derive(Debug, Drop)]
pub enum Recorded {
    Frontend(PgWireFrontendMessage),
    Backend(PgWireBackendMessage),
}
