//! All messages of the extended query.
pub use crate::bind::{
    Bind, BindComplete, MESSAGE_TYPE_BYTE_BIND, MESSAGE_TYPE_BYTE_BIND_COMPLETE,
};
pub use crate::execute::{
    Execute, MESSAGE_TYPE_BYTE_EXECUTE, MESSAGE_TYPE_BYTE_PORTAL_SUSPENDED, PortalSuspended,
};
pub use crate::flush::{Flush, MESSAGE_TYPE_BYTE_FLUSH, MESSAGE_TYPE_BYTE_SYNC, Sync};
pub use crate::parse::{
    MESSAGE_TYPE_BYTE_PARSE, MESSAGE_TYPE_BYTE_PARSE_COMPLETE, Parse, ParseComplete,
};
pub use crate::target::{
    Close, CloseComplete, Describe, MESSAGE_TYPE_BYTE_CLOSE, MESSAGE_TYPE_BYTE_CLOSE_COMPLETE,
    MESSAGE_TYPE_BYTE_DESCRIBE, TARGET_TYPE_BYTE_PORTAL, TARGET_TYPE_BYTE_STATEMENT,
};
