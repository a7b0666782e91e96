//! Lines of CSV (RFC 4180). A line ends with a line feed, as `psql --csv` ends it.
ghost use Rattle.std.specs.Prelude.{◌≡◌, ◌++◌, OnOk};
ghost use Rattle.std.specs.List.{flat_map};
ghost use Rattle.csv.specs.Writing.{default_writer, needs_byte, needs_quotes as calls_for_quotes};
ghost use Rattle.pgw_prog_output.specs.CsvLines.{blank_text, csv_field, csv_fields, csv_line, csv_rest, escaped_byte, is_blank_line, field_in_csv};

use crate::pieces::put;
use pgw_types::memory::OutOfMemory;
use pgw_types::octets::Octets;

// Whether a byte makes its field stand between quotes.
fn is_special(byte: u8) -> bool
    ensures { result ≡ needs_byte default_writer byte }
{
    matches!(byte, b',' | b'"' | b'\r' | b'\n')
}

fn needs_quotes(field: &[u8]) -> bool
    ensures { result ≡ calls_for_quotes default_writer field.now }
{
    field.iter().any(|byte| is_special(*byte))
}

fn put_escaped_byte(out: &mut Vec<u8>, byte: u8) -> Result<(), OutOfMemory>
    ensures { OnOk result (out.new.items ≡ out.old.items ++ escaped_byte byte) }
{
    if byte == b'"' {
        put(out, b"\"\"")
    } else {
        put(out, &[byte])
    }
}

// What stands between the quotes.
fn put_escaped(out: &mut Vec<u8>, field: &[u8]) -> Result<(), OutOfMemory>
    ensures { OnOk result (out.new.items ≡ out.old.items ++ flat_map escaped_byte field.now) }
{
    for byte in field {
        put_escaped_byte(out, *byte)?;
    }
    Ok(())
}

fn put_text(out: &mut Vec<u8>, field: &[u8]) -> Result<(), OutOfMemory>
    ensures { OnOk result (out.new.items ≡ out.old.items ++ field_in_csv field.now) }
{
    if needs_quotes(field) {
        put(out, b"\"")?;
        put_escaped(out, field)?;
        put(out, b"\"")
    } else {
        put(out, field)
    }
}

fn put_field(out: &mut Vec<u8>, field: &Option<Octets>) -> Result<(), OutOfMemory>
    ensures { OnOk result (out.new.items ≡ out.old.items ++ csv_field field.now) }
{
    match field {
        Some(text) => put_text(out, text.as_slice()),
        None => Ok(()),
    }
}

// The fields behind the first, each behind a comma.
fn put_rest(out: &mut Vec<u8>, fields: &[Option<Octets>]) -> Result<(), OutOfMemory>
    ensures { OnOk result (out.new.items ≡ out.old.items ++ csv_rest fields.now) }
{
    for field in fields {
        put(out, b",")?;
        put_field(out, field)?;
    }
    Ok(())
}

fn put_fields(out: &mut Vec<u8>, fields: &[Option<Octets>]) -> Result<(), OutOfMemory>
    ensures { OnOk result (out.new.items ≡ out.old.items ++ csv_fields fields.now) }
{
    match fields {
        [] => Ok(()),
        [first, rest @ ..] => {
            put_field(out, first)?;
            put_rest(out, rest)
        }
    }
}

// Whether the fields show no byte: a reader would pass over their line.
fn is_blank(fields: &[Option<Octets>]) -> bool
    ensures { result ≡ is_blank_line fields.now }
{
    match fields {
        [] => true,
        [None] => true,
        [Some(text)] => text.is_empty(),
        _ => false,
    }
}

// Two quotes where the fields show no byte.
fn put_blank(out: &mut Vec<u8>, fields: &[Option<Octets>]) -> Result<(), OutOfMemory>
    ensures { OnOk result (out.new.items ≡ out.old.items ++ blank_text fields.now) }
{
    if is_blank(fields) {
        put(out, b"\"\"")
    } else {
        Ok(())
    }
}

/// Appends a row as a line of CSV. NULL is an empty field; a line of one empty field is two quotes.
#[tactic(auto, using(crate::proofs::CsvLaws::line_joined))]
pub fn put_csv_line(out: &mut Vec<u8>, fields: &[Option<Octets>]) -> Result<(), OutOfMemory>
    ensures { OnOk result (out.new.items ≡ out.old.items ++ csv_line fields.now) }
{
    put_fields(out, fields)?;
    put_blank(out, fields)?;
    put(out, b"\n")
}
