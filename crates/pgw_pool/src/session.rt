//! A session that is idle in a pool.

use pgw_client::Link;
use pgw_client_calls::PgWireClient;

/// A session, and how many leases it has had. The count stays at the greatest u64.
#[derive(Drop)]
pub struct Session<L: Link> {
    pub(crate) client: PgWireClient<L>,
    pub(crate) leases: u64,
}
