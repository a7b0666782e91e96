//! What ends a group of requests.

use pgw_wire::empty::EmptyRequest;

pub const MESSAGE_TYPE_BYTE_FLUSH: u8 = b'H';

pub const MESSAGE_TYPE_BYTE_SYNC: u8 = b'S';

/// What the server has ready is to be sent (Flush).
pub type Flush = EmptyRequest<MESSAGE_TYPE_BYTE_FLUSH>;

/// The transaction ends here, unless BEGIN opened it (Sync).
pub type Sync = EmptyRequest<MESSAGE_TYPE_BYTE_SYNC>;
