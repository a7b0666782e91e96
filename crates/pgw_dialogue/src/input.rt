//! What goes into a session.

use pgw_config::config::Config;
use pgw_session::types::Request;

/// The configuration, the requests in order, and the bytes of the client's SCRAM nonce.
#[derive(Clone, Copy)]
pub struct Input<'a> {
    pub config: &'a Config,
    pub requests: &'a [Request],
    pub nonce: &'a [u8; 18],
}
