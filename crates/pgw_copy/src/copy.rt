//! All messages of COPY.
pub use crate::data::{
    CopyData, CopyDone, CopyFail, MESSAGE_TYPE_BYTE_COPY_DATA, MESSAGE_TYPE_BYTE_COPY_DONE,
    MESSAGE_TYPE_BYTE_COPY_FAIL,
};
pub use crate::response::{
    CopyBothResponse, CopyInResponse, CopyOutResponse, CopyResponse,
    MESSAGE_TYPE_BYTE_COPY_BOTH_RESPONSE, MESSAGE_TYPE_BYTE_COPY_IN_RESPONSE,
    MESSAGE_TYPE_BYTE_COPY_OUT_RESPONSE,
};
