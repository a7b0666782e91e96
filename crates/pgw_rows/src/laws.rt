//! What holds of the values of a row, and of a parameter.
ghost use Rattle.std.specs.Prelude.{◌≡◌, ◌<◌, ◌^◌, ◌∷◌, ◌++◌, ℕ, ℤ, List, Option, Bool, true, Some, length, FitsSigned, IsUtf8};
ghost use Rattle.std.specs.Int.{w16, w32, w64};
ghost use Rattle.hex.specs.Hex.{IsBytes};
ghost use Rattle.pgw_query.specs.declared.pg_type.PgType.{PgType as TheType};
ghost use Rattle.pgw_wire.specs.Formats.{SpellsMany};
ghost use Rattle.pgw_wire.specs.Values.{SpellsNullable};
ghost use Rattle.pgw_rows.specs.Rows.{value_at};
ghost use Rattle.pgw_rows.specs.Values.{is_text};
ghost use Rattle.pgw_rows.specs.Written.{IsReadBack};

use crate::from_sql::{FromSql, FromSqlText};
use crate::to_sql::ToSql;
use pgw_types::octets::Octets;
use pgw_types::text::Text;

/// What is read at the front of a row is spelled so, and a row that spells some values gives them one after the other.
/// A value is spelled as that of a parameter: by the number of its bytes and the bytes, or any negative number for NULL.
pub fn values_are_exact()
    ensures found { (bytes : List ℕ) (value : Option (List ℕ)) (rest : List ℕ) → length bytes
        < 2 ^ 31 → value_at bytes ≡ Some (value, rest) → (front : List ℕ) × (bytes ≡ front ++ rest)
        × SpellsNullable value front }
    ensures given { (value : Option (List ℕ)) (values : List (Option (List ℕ))) (bytes : List ℕ) →
        SpellsMany SpellsNullable (value ∷ values) bytes → (rest : List ℕ)
        × (value_at bytes ≡ Some (value, rest)) × SpellsMany SpellsNullable values rest }
{}

/// What is written of a value is read as that value again, in either form, as of its type.
pub fn written_values_are_read_back()
    ensures bools { (x : Bool) → IsReadBack ⟦<bool as ToSql>⟧.value_type
        ⟦<bool as ToSql>⟧.as_binary ⟦<bool as ToSql>⟧.as_text
        ⟦<bool as FromSql>⟧.of_binary ⟦<bool as FromSqlText>⟧.of_text x }
    ensures shorts { (x : ℤ) → FitsSigned w16 x → IsReadBack ⟦<i16 as ToSql>⟧.value_type
        ⟦<i16 as ToSql>⟧.as_binary ⟦<i16 as ToSql>⟧.as_text
        ⟦<i16 as FromSql>⟧.of_binary ⟦<i16 as FromSqlText>⟧.of_text x }
    ensures integers { (x : ℤ) → FitsSigned w32 x → IsReadBack ⟦<i32 as ToSql>⟧.value_type
        ⟦<i32 as ToSql>⟧.as_binary ⟦<i32 as ToSql>⟧.as_text
        ⟦<i32 as FromSql>⟧.of_binary ⟦<i32 as FromSqlText>⟧.of_text x }
    ensures longs { (x : ℤ) → FitsSigned w64 x → IsReadBack ⟦<i64 as ToSql>⟧.value_type
        ⟦<i64 as ToSql>⟧.as_binary ⟦<i64 as ToSql>⟧.as_text
        ⟦<i64 as FromSql>⟧.of_binary ⟦<i64 as FromSqlText>⟧.of_text x }
    // A text is read back as of each type whose values are texts.
    ensures texts { (ty : TheType) (x : List ℕ) → is_text ty ≡ true → IsUtf8 x → IsReadBack ty
        ⟦<Text as ToSql>⟧.as_binary ⟦<Text as ToSql>⟧.as_text
        ⟦<Text as FromSql>⟧.of_binary ⟦<Text as FromSqlText>⟧.of_text x }
    ensures octets { (x : List ℕ) → IsBytes x → IsReadBack ⟦<Octets as ToSql>⟧.value_type
        ⟦<Octets as ToSql>⟧.as_binary ⟦<Octets as ToSql>⟧.as_text
        ⟦<Octets as FromSql>⟧.of_binary ⟦<Octets as FromSqlText>⟧.of_text x }
{}
