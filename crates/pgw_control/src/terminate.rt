//! The end of a connection.

use pgw_wire::empty::EmptyRequest;

pub const MESSAGE_TYPE_BYTE_TERMINATE: u8 = b'X';

/// The client closes the connection (Terminate).
pub type Terminate = EmptyRequest<MESSAGE_TYPE_BYTE_TERMINATE>;
