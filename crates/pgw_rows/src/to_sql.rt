//! What a parameter of a query is made of.
ghost use Rattle.std.specs.Prelude.{◌≡◌, ℕ, List, Option, Some, None, IfOk, string_bytes};
ghost use Rattle.std.specs.Int.{w16, w32, w64};
ghost use Rattle.std.specs.Fmt.{signed_decimal};
ghost use Rattle.std.specs.Option.{option_and_then};
ghost use Rattle.pgw_query.specs.declared.pg_type.PgType.{PgType as TheType};
ghost use Rattle.pgw_query.specs.declared.pg_type.PgType.TheVariants as types;
ghost use Rattle.pgw_rows.specs.Written.{bool_binary, bool_text, integer_binary, octets_text};

use itoa::{Buffer, Integer};
use pgw_query::pg_type::PgType;
use pgw_types::listed::Duplicate;
use pgw_types::memory::OutOfMemory;
use pgw_types::octets::Octets;
use pgw_types::text::Text;
use std::alloc::{AllocError, Global};

/// What a parameter of a query is made of, in either form. NULL is none.
pub trait ToSql {
    // the type of the value
    ghost value_type: { TheType };

    // the bytes in binary form
    ghost as_binary: { Self → Option (List ℕ) };

    // the bytes in text form
    ghost as_text: { Self → Option (List ℕ) };

    /// The type of the value, as a statement may be told of its parameters.
    fn sql_type() -> PgType
        ensures { result ≡ value_type };

    /// The value in binary form.
    fn to_sql(&self, alloc: Global) -> Result<Option<Octets>, OutOfMemory>
        ensures { IfOk result (λ bytes. bytes ≡ as_binary self.now) };

    /// The value in text form.
    fn to_sql_text(&self, alloc: Global) -> Result<Option<Octets>, OutOfMemory>
        ensures { IfOk result (λ bytes. bytes ≡ as_text self.now) };
}

fn copied(alloc: Global, bytes: &[u8]) -> Result<Option<Octets>, OutOfMemory>
    ensures { IfOk result (λ copy. copy ≡ Some bytes.now) }
{
    Ok(Some(Octets::from_slice(alloc, bytes)?))
}

// The decimal digits of a number.
fn decimal<I: Integer>(alloc: Global, number: I) -> Result<Option<Octets>, OutOfMemory>
    ensures { IfOk result (λ copy. copy ≡ Some (I.text number)) }
{
    let mut buffer = Buffer::new();
    copied(alloc, buffer.format(number).as_bytes())
}

fn hex_digits(alloc: Global, bytes: &[u8]) -> Result<String, AllocError>
    ensures { IfOk result (λ text. string_bytes text ≡ octets_text bytes.now) }
{
    let digits = hex::encode(alloc, bytes)?;
    let mut text = String::from_str(alloc, "\\x")?;
    text.push_str(digits.as_str())?;
    Ok(text)
}

impl ToSql for bool {
    ghost value_type = { types.Bool };

    ghost as_binary = { λ value. Some (bool_binary value) };

    ghost as_text = { λ value. Some (bool_text value) };

    fn sql_type() -> PgType {
        PgType::Bool
    }

    fn to_sql(&self, alloc: Global) -> Result<Option<Octets>, OutOfMemory> {
        copied(alloc, if *self { &[1] } else { &[0] })
    }

    fn to_sql_text(&self, alloc: Global) -> Result<Option<Octets>, OutOfMemory> {
        copied(alloc, if *self { b"t" } else { b"f" })
    }
}

impl ToSql for i16 {
    ghost value_type = { types.Int2 };

    ghost as_binary = { λ value. Some (integer_binary w16 value) };

    ghost as_text = { λ value. Some (signed_decimal value) };

    fn sql_type() -> PgType {
        PgType::Int2
    }

    fn to_sql(&self, alloc: Global) -> Result<Option<Octets>, OutOfMemory> {
        copied(alloc, &self.to_be_bytes())
    }

    fn to_sql_text(&self, alloc: Global) -> Result<Option<Octets>, OutOfMemory> {
        decimal(alloc, *self)
    }
}

impl ToSql for i32 {
    ghost value_type = { types.Int4 };

    ghost as_binary = { λ value. Some (integer_binary w32 value) };

    ghost as_text = { λ value. Some (signed_decimal value) };

    fn sql_type() -> PgType {
        PgType::Int4
    }

    fn to_sql(&self, alloc: Global) -> Result<Option<Octets>, OutOfMemory> {
        copied(alloc, &self.to_be_bytes())
    }

    fn to_sql_text(&self, alloc: Global) -> Result<Option<Octets>, OutOfMemory> {
        decimal(alloc, *self)
    }
}

impl ToSql for i64 {
    ghost value_type = { types.Int8 };

    ghost as_binary = { λ value. Some (integer_binary w64 value) };

    ghost as_text = { λ value. Some (signed_decimal value) };

    fn sql_type() -> PgType {
        PgType::Int8
    }

    fn to_sql(&self, alloc: Global) -> Result<Option<Octets>, OutOfMemory> {
        copied(alloc, &self.to_be_bytes())
    }

    fn to_sql_text(&self, alloc: Global) -> Result<Option<Octets>, OutOfMemory> {
        decimal(alloc, *self)
    }
}

impl ToSql for Text {
    ghost value_type = { types.Text };

    ghost as_binary = { λ value. Some value };

    ghost as_text = { λ value. Some value };

    fn sql_type() -> PgType {
        PgType::Text
    }

    fn to_sql(&self, alloc: Global) -> Result<Option<Octets>, OutOfMemory> {
        copied(alloc, self.as_str().as_bytes())
    }

    fn to_sql_text(&self, alloc: Global) -> Result<Option<Octets>, OutOfMemory> {
        copied(alloc, self.as_str().as_bytes())
    }
}

/// A text that the caller keeps.
impl ToSql for &str {
    ghost value_type = { types.Text };

    ghost as_binary = { λ value. Some value.now };

    ghost as_text = { λ value. Some value.now };

    fn sql_type() -> PgType
        ensures { result ≡ types.Text }
    {
        PgType::Text
    }

    fn to_sql(&self, alloc: Global) -> Result<Option<Octets>, OutOfMemory> {
        copied(alloc, self.as_bytes())
    }

    fn to_sql_text(&self, alloc: Global) -> Result<Option<Octets>, OutOfMemory> {
        copied(alloc, self.as_bytes())
    }
}

/// In binary form the parameter shares the bytes.
impl ToSql for Octets {
    ghost value_type = { types.Bytea };

    ghost as_binary = { λ value. Some value };

    ghost as_text = { λ value. Some (octets_text value) };

    fn sql_type() -> PgType {
        PgType::Bytea
    }

    fn to_sql(&self, _alloc: Global) -> Result<Option<Octets>, OutOfMemory> {
        Ok(Some(self.duplicate()?))
    }

    fn to_sql_text(&self, alloc: Global) -> Result<Option<Octets>, OutOfMemory> {
        let text = hex_digits(alloc, self.as_slice())?;
        copied(alloc, text.as_bytes())
    }
}

/// None is NULL.
impl<T: ToSql> ToSql for Option<T> {
    ghost value_type = { T.value_type };

    ghost as_binary = { option_and_then T.as_binary };

    ghost as_text = { option_and_then T.as_text };

    fn sql_type() -> PgType {
        T::sql_type()
    }

    fn to_sql(&self, alloc: Global) -> Result<Option<Octets>, OutOfMemory> {
        match self {
            Some(value) => value.to_sql(alloc),
            None => Ok(None),
        }
    }

    fn to_sql_text(&self, alloc: Global) -> Result<Option<Octets>, OutOfMemory> {
        match self {
            Some(value) => value.to_sql_text(alloc),
            None => Ok(None),
        }
    }
}
