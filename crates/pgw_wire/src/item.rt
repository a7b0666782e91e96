//! What lists with a mark at their end are made of.
ghost use Rattle.std.specs.Prelude.{◌≡◌, ◌<◌, ℕ, List, Option, Result, Ok, length};
ghost use Rattle.pgw_types.specs.declared.error.PgWireError.{PgWireError as TheError};
ghost use Rattle.pgw_wire.specs.Reading.{Reads, marked_list_at};

use crate::reader::FieldReader;
use pgw_types::error::PgWireResult;
use pgw_types::listed::Listed;
use pgw_types::text::Text;
use std::alloc::Global;

/// What may stand in a list that ends with a mark.
pub trait Item: Sized + Drop {
    // what bytes are read as: an element or the mark
    ghost at: { List ℕ → Result (Option Self × List ℕ) TheError };

    fn take(alloc: Global, reader: &mut FieldReader<'_>) -> PgWireResult<Option<Self>>
        ensures { Reads result reader.new (at reader.old) };

    // each takes a byte or more
    ghost shrinks: { (bytes : List ℕ) (o : Option Self) (rest : List ℕ) → at bytes ≡ Ok (o, rest) →
        length rest < length bytes };
}

/// The elements up to the mark.
pub fn take_up_to_mark<T: Item>(
    alloc: Global,
    reader: &mut FieldReader<'_>,
) -> PgWireResult<Listed<T>>
    ensures { Reads result reader.new (marked_list_at T.at reader.old) }
{
    let mut items = Listed::new(alloc);
    loop {
        match T::take(alloc, reader)? {
            Some(item) => items.push(item)?,
            None => return Ok(items),
        }
    }
}

/// A name and its value; an empty name is the mark.
#[tactic(auto, unfolding(crate::specs::Pairs::pair_at))]
impl Item for (Text, Text) {
    ghost use Rattle.pgw_wire.specs.Pairs.{pair_at};
    ghost use Rattle.pgw_wire.specs.PairLaws.{pair_shrinks};

    ghost at = { pair_at };

    ghost shrinks = { pair_shrinks };

    fn take(alloc: Global, reader: &mut FieldReader<'_>) -> PgWireResult<Option<(Text, Text)>> {
        let name = reader.take_text(alloc)?;
        if name.is_empty() {
            return Ok(None);
        }
        let value = reader.take_text(alloc)?;
        Ok(Some((name, value)))
    }
}

/// A text; an empty one is the mark.
impl Item for Text {
    ghost use Rattle.pgw_wire.specs.Reading.{name_at};
    ghost use Rattle.pgw_wire.specs.CodeLaws.{name_shrinks};

    ghost at = { name_at };

    ghost shrinks = { name_shrinks };

    fn take(alloc: Global, reader: &mut FieldReader<'_>) -> PgWireResult<Option<Text>> {
        reader.take_name(alloc)
    }
}

/// A code and its text; a code 0 is the mark.
#[tactic(auto, unfolding(crate::specs::Codes::code_at))]
impl Item for (u8, Text) {
    ghost use Rattle.pgw_wire.specs.Codes.{code_at};
    ghost use Rattle.pgw_wire.specs.CodeLaws.{code_shrinks};

    ghost at = { code_at };

    ghost shrinks = { code_shrinks };

    fn take(alloc: Global, reader: &mut FieldReader<'_>) -> PgWireResult<Option<(u8, Text)>> {
        let code = reader.take_u8()?;
        if code == 0 {
            return Ok(None);
        }
        let text = reader.take_text(alloc)?;
        Ok(Some((code, text)))
    }
}
