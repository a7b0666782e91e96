//! What is of one kind, as one of all kinds.
ghost use Rattle.std.specs.Prelude.{◌≡◌, IfOk, OnErr};
ghost use Rattle.pgw_wire.specs.Framing.{wire_front, as_one_of, Decodes};

use crate::buffer::Buffer;
use crate::message::Message;
use pgw_types::context::DecodeContext;
use pgw_types::error::PgWireResult;
use pgw_types::listed::Duplicate;
use pgw_types::memory::OutOfMemory;
use std::alloc::Global;

/// Takes the message of one kind at the front, if it is whole, as one of all kinds.
///
/// For the kind that `make` makes of each message: what stands at the front is read as that kind.
pub fn decode_as<M: Message, A, B: Buffer, F: FnOnce(M) -> A>(
    alloc: Global,
    buf: &mut B,
    ctx: &DecodeContext,
    make: F,
) -> PgWireResult<Option<A>>
    requires { F.IsAlwaysCallable make }
    ensures taken { (kind : M → A) → ((m : M) (a : A) → F.post make m a → a ≡ kind m) →
        Decodes result (B.held buf.old) (B.held buf.new)
        (as_one_of kind (wire_front M.row_framing M.limit (M.reading ctx.now) (B.held buf.old))) }
    ensures kept { OnErr result (B.held buf.new ≡ B.held buf.old) }
{
    Ok(M::decode_from(alloc, buf, ctx)?.map(make))
}

/// A copy of a value of one kind, as one of all kinds.
pub fn duplicate_as<M: Duplicate, A, F: FnOnce(M) -> A>(
    value: &M,
    make: F,
) -> Result<A, OutOfMemory>
    requires { F.IsAlwaysCallable make }
    ensures { IfOk result (λ copy. F.post make value.now copy) }
{
    Ok(make(value.duplicate()?))
}
