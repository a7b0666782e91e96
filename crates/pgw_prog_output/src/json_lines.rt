//! Lines of JSON (RFC 8259): an object for each row.
ghost use Rattle.std.specs.Prelude.{◌≡◌, ◌++◌, ◌∷◌, [], OnOk};
ghost use Rattle.json.specs.Token.{end_object};
ghost use Rattle.json.specs.Tree.{json_tokens, members_tokens};
ghost use Rattle.pgw_prog_output.specs.JsonLines.{json_line, json_row, json_of, json_text, members_of, AddsJsonTokens};
ghost use Rattle.pgw_prog_output.specs.declared.columns.ColumnKind.TheVariants as kind;

use crate::columns::{Column, ColumnKind};
use crate::pieces::put;
use json::{Writer, is_number};
use pgw_types::memory::OutOfMemory;
use pgw_types::octets::Octets;
use std::alloc::{AllocError, Global};
use std::mem::replace;

fn put_truth(writer: &mut Writer, text: &str) -> Result<(), AllocError>
    ensures { AddsJsonTokens writer.old writer.new result
        (json_tokens (json_text kind.Truth text.now)) }
{
    if text == "t" {
        writer.boolean(true)
    } else if text == "f" {
        writer.boolean(false)
    } else {
        writer.string(text)
    }
}

fn put_number(writer: &mut Writer, text: &str) -> Result<(), AllocError>
    ensures { AddsJsonTokens writer.old writer.new result
        (json_tokens (json_text kind.Number text.now)) }
{
    if is_number(text) {
        writer.number(text)
    } else {
        writer.string(text)
    }
}

fn put_text(writer: &mut Writer, kind: ColumnKind, text: &str) -> Result<(), AllocError>
    ensures { AddsJsonTokens writer.old writer.new result (json_tokens (json_text kind text.now)) }
{
    match kind {
        ColumnKind::Truth => put_truth(writer, text),
        ColumnKind::Number => put_number(writer, text),
        ColumnKind::Words => writer.string(text),
    }
}

fn put_value(
    alloc: Global,
    writer: &mut Writer,
    kind: ColumnKind,
    value: &Option<Octets>,
) -> Result<(), AllocError>
    ensures { AddsJsonTokens writer.old writer.new result (json_tokens (json_of kind value.now)) }
{
    match value {
        Some(bytes) => {
            let text = String::from_utf8_lossy(alloc, bytes.as_slice())?;
            put_text(writer, kind, text.as_str())
        }
        None => writer.null(),
    }
}

// The members of a row's object.
#[tactic(auto, using(crate::proofs::RowLaws::members_end))]
fn put_members(
    alloc: Global,
    writer: &mut Writer,
    columns: &[Column],
    row: &[Option<Octets>],
) -> Result<(), AllocError>
    ensures before { OnOk result (writer.new.before ≡ writer.old.before) }
    ensures members { OnOk result (writer.new.tokens ++ end_object ∷ []
        ≡ writer.old.tokens ++ members_tokens (members_of columns.now row.now)) }
{
    for at in 0..columns.len().min(row.len()) {
        let column = &columns[at];
        writer.key(column.name.as_str())?;
        put_value(alloc, writer, column.kind, &row[at])?;
    }
    Ok(())
}

fn put_object(
    alloc: Global,
    writer: &mut Writer,
    columns: &[Column],
    row: &[Option<Octets>],
) -> Result<(), AllocError>
    ensures { AddsJsonTokens writer.old writer.new result
        (json_tokens (json_row columns.now row.now)) }
{
    writer.begin_object()?;
    put_members(alloc, writer, columns, row)?;
    writer.end_object()
}

/// Appends a row as an object on a line. Behind an error what stood in the text may be gone.
#[tactic(auto, unfolding(crate::specs::JsonLines::json_line))]
pub fn put_json_line(
    alloc: Global,
    out: &mut Vec<u8>,
    columns: &[Column],
    row: &[Option<Octets>],
) -> Result<(), OutOfMemory>
    ensures { OnOk result (out.new.items ≡ out.old.items ++ json_line columns.now row.now) }
{
    let mut writer = Writer::new(replace(out, Vec::new(alloc)));
    put_object(alloc, &mut writer, columns, row)?;
    *out = writer.into_inner();
    put(out, b"\n")
}
