//! Equality of the messages of COPY.
ghost use Rattle.pgw_wire.specs.Equal.{IsExact};

use crate::copy::{CopyData, CopyFail, CopyResponse};

/// Two messages are equal exactly where they are the same.
pub fn equality_is_exact()
    ensures copy_data { IsExact ⟦<CopyData as PartialEq>⟧.eq }
    ensures copy_fail { IsExact ⟦<CopyFail as PartialEq>⟧.eq }
{}

/// Two responses of one type byte are equal exactly where they are the same.
pub fn response_equality_is_exact<const TYPE: u8>()
    ensures { IsExact ⟦<CopyResponse<TYPE> as PartialEq>⟧.eq }
{}
