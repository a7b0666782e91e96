//! Lists with an unsigned count of 16 bits.
ghost use Rattle.std.specs.Prelude.{◌≡◌, ◌^◌, ◌<◌, ◌++◌, length, OnOk};
ghost use Rattle.pgw_wire.specs.Reading.{Reads};
ghost use Rattle.pgw_wire.specs.Counted.{counted16_at, counted16};

use crate::field::{Field, put_list, take_list};
use crate::reader::FieldReader;
use crate::writer::{Writer, put_u16};
use pgw_types::error::PgWireResult;
use pgw_types::listed::Listed;
use pgw_types::memory::OutOfMemory;
use std::alloc::Global;

/// A count of 16 bits, and as many elements, each of them at least so large.
pub fn take_counted16<T: Field>(
    alloc: Global,
    reader: &mut FieldReader<'_>,
    least: usize,
) -> PgWireResult<Listed<T>>
    ensures { Reads result reader.new (counted16_at least T.at reader.old) }
{
    let count = reader.take_u16()? as usize;
    take_list(alloc, reader, count, least)
}

/// Appends a count of 16 bits and the elements.
pub fn put_counted16<T: Field>(out: &mut Writer, items: &[T]) -> Result<(), OutOfMemory>
    requires { length items.now < 2 ^ 16 }
    ensures ok { OnOk result (out.new.body ≡ out.old.body ++ counted16 T.spelled items.now) }
    ensures kept { out.new.before ≡ out.old.before }
{
    put_u16(out, items.len() as u16)?;
    put_list(out, items)
}
