//! Bytes that are handed out, by where they lie.
ghost use Rattle.std.specs.Prelude.{◌≡◌};
ghost use Rattle.std.specs.Ptr.{as_ptr};
ghost use Rattle.hothummei_c.specs.Values.{IsNull, HoldsCBytes};

/// Bytes that lie in the session, or SQL's NULL.
#[repr(C)]
#[derive(Clone, Copy)]
pub struct Value {
    pub at: *const u8,
    pub len: usize,
    /// 1 where it is NULL, and else 0.
    pub null: u32,
}

// Where the bytes begin.
fn pointer_of(bytes: &[u8]) -> *const u8
    ensures { result ≡ as_ptr bytes.entry }
{
    bytes.as_ptr()
}

/// These bytes.
pub fn value_of(bytes: &[u8]) -> Value
    ensures at { result.at ≡ as_ptr bytes.entry }
    ensures tells { HoldsCBytes bytes.now result }
{
    Value {
        at: pointer_of(bytes),
        len: bytes.len(),
        null: 0,
    }
}

/// NULL, at an empty place.
pub fn null_value() -> Value
    ensures { IsNull result }
{
    Value {
        at: pointer_of(&[]),
        len: 0,
        null: 1,
    }
}
