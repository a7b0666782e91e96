//! The printed lines of answers.
ghost use Rattle.std.specs.Prelude.{◌≡◌, ◌++◌, [], OnOk, codes, decimal, ◌+◌, ◌<◌};
ghost use Rattle.std.specs.List.{flat_map};
ghost use Rattle.pgw_query.specs.Runs.{lent_row};
ghost use Rattle.pgw_prog_sessions.specs.Pieces.{line_end, quoted, quoted_byte};
ghost use Rattle.pgw_prog_sessions.specs.AnswerLines.{rows_text, printed_tag, type_number, format_number, field_line, row_line, response_lines, item_line, name_text, oid_text, oids_text, rows_lines, executed_lines, told_lines, answer_lines, numbered};

use crate::pieces::{put, put_decimal, put_hex, put_quoted, put_quoted_bytes, put_signed};
use itoa::Buffer;
use pgw_query::data_rows::DataRows;
use pgw_query::field_info::{FieldFormat, FieldInfo};
use pgw_query::pg_type::PgType;
use pgw_query::row_ref::DataRowRef;
use pgw_query::tag::Tag;
use pgw_session::types::{Answer, DescribeResponse, ExecuteResult, PrepareResponse, Response};
use pgw_types::memory::OutOfMemory;
use pgw_types::text::Text;

#[tactic(auto, unfolding(crate::specs::AnswerLines::type_number))]
fn number_of(datatype: PgType) -> u32
    ensures { result ≡ type_number datatype }
{
    match datatype {
        PgType::Bool => 16,
        PgType::Bytea => 17,
        PgType::Name => 19,
        PgType::Int8 => 20,
        PgType::Int2 => 21,
        PgType::Int4 => 23,
        PgType::Text => 25,
        PgType::Unknown => 705,
        PgType::Bpchar => 1042,
        PgType::Varchar => 1043,
        PgType::Other(number) => number,
    }
}

#[tactic(auto, unfolding(crate::specs::AnswerLines::format_number))]
fn code_of(format: FieldFormat) -> u64
    ensures { result ≡ format_number format }
{
    match format {
        FieldFormat::Text => 0,
        FieldFormat::Binary => 1,
    }
}

#[tactic(auto, unfolding(crate::specs::AnswerLines::field_line))]
fn put_field(out: &mut Vec<u8>, field: &FieldInfo) -> Result<(), OutOfMemory>
    ensures { OnOk result (out.new.items ≡ out.old.items ++ field_line field.now) }
{
    put(out, b"field ")?;
    put_quoted(out, field.name.as_str().as_bytes())?;
    put(out, b" ")?;
    put_decimal(out, u64::from(number_of(field.datatype)))?;
    put(out, b" ")?;
    put_decimal(out, code_of(field.format))?;
    put(out, b"\n")
}

#[tactic(auto, unfolding(crate::specs::AnswerLines::row_line))]
fn put_row(out: &mut Vec<u8>, row: DataRowRef<'_>) -> Result<(), OutOfMemory>
    ensures { OnOk result (out.new.items ≡ out.old.items ++ row_line (lent_row row.entry)) }
{
    put(out, b"row ")?;
    put_signed(out, i32::from(row.field_count))?;
    put(out, b" ")?;
    put_hex(out, row.payload)?;
    put(out, b"\n")
}

// A space and a number, as they stand in quotes.
#[tactic(auto, using(crate::proofs::PieceLaws::quoted_behind))]
fn put_quoted_number(out: &mut Vec<u8>, number: u64) -> Result<(), OutOfMemory>
    ensures { OnOk result (out.new.items ≡ out.old.items
        ++ flat_map quoted_byte (codes " " ++ decimal number)) }
{
    let mut buffer = Buffer::new();
    put_quoted_bytes(out, b" ")?;
    put_quoted_bytes(out, buffer.format(number).as_bytes())
}

// What stands behind a command, as it stands in quotes.
#[tactic(auto, using(crate::proofs::PieceLaws::quoted_behind))]
fn put_quoted_rows(
    out: &mut Vec<u8>,
    oid: Option<u32>,
    rows: Option<usize>,
) -> Result<(), OutOfMemory>
    ensures { OnOk result (out.new.items ≡ out.old.items
        ++ flat_map quoted_byte (rows_text oid rows)) }
{
    match (oid, rows) {
        (_, None) => Ok(()),
        (None, Some(rows)) => put_quoted_number(out, rows as u64),
        (Some(oid), Some(rows)) => {
            put_quoted_number(out, u64::from(oid))?;
            put_quoted_number(out, rows as u64)
        }
    }
}

#[tactic(auto, unfolding(crate::specs::AnswerLines::printed_tag, crate::specs::Pieces::quoted), using(crate::proofs::PieceLaws::quoted_behind))]
fn put_quoted_tag(out: &mut Vec<u8>, tag: &Tag) -> Result<(), OutOfMemory>
    ensures { OnOk result (out.new.items ≡ out.old.items ++ quoted (printed_tag tag.now)) }
{
    put(out, b"\"")?;
    put_quoted_bytes(out, tag.command.as_str().as_bytes())?;
    put_quoted_rows(out, tag.oid, tag.rows)?;
    put(out, b"\"")
}

fn put_fields(out: &mut Vec<u8>, fields: &[FieldInfo]) -> Result<(), OutOfMemory>
    ensures { OnOk result (out.new.items ≡ out.old.items ++ flat_map field_line fields.now) }
{
    for field in fields {
        put_field(out, field)?;
    }
    Ok(())
}

fn put_rows(out: &mut Vec<u8>, rows: &DataRows) -> Result<(), OutOfMemory>
    ensures { OnOk result (out.new.items ≡ out.old.items ++ flat_map row_line rows.now) }
{
    for row in rows {
        put_row(out, row)?;
    }
    Ok(())
}

#[tactic(auto, unfolding(crate::specs::AnswerLines::response_lines))]
fn put_response(out: &mut Vec<u8>, response: &Response) -> Result<(), OutOfMemory>
    ensures { OnOk result (out.new.items ≡ out.old.items ++ response_lines response.now) }
{
    match response {
        Response::EmptyQuery => put(out, b"empty\n"),
        Response::Execution(tag) => {
            put(out, b"done ")?;
            put_quoted_tag(out, tag)?;
            put(out, b"\n")
        }
        Response::Query(tag, fields, rows) => {
            put(out, b"rows ")?;
            put_quoted_tag(out, tag)?;
            put(out, b"\n")?;
            put_fields(out, fields.as_slice())?;
            put_rows(out, rows)
        }
    }
}

fn put_responses(out: &mut Vec<u8>, responses: &[Response]) -> Result<(), OutOfMemory>
    ensures { OnOk result (out.new.items ≡ out.old.items ++ flat_map response_lines responses.now) }
{
    for response in responses {
        put_response(out, response)?;
    }
    Ok(())
}

#[tactic(auto, unfolding(crate::specs::AnswerLines::item_line))]
fn put_item(out: &mut Vec<u8>, code: u8, text: &Text) -> Result<(), OutOfMemory>
    ensures { OnOk result (out.new.items ≡ out.old.items ++ item_line (code, text.now)) }
{
    put(out, b"item ")?;
    put_hex(out, &[code])?;
    put(out, b" ")?;
    put_quoted(out, text.as_str().as_bytes())?;
    put(out, b"\n")
}

fn put_items(out: &mut Vec<u8>, items: &[(u8, Text)]) -> Result<(), OutOfMemory>
    ensures { OnOk result (out.new.items ≡ out.old.items ++ flat_map item_line items.now) }
{
    for (code, text) in items {
        put_item(out, *code, text)?;
    }
    Ok(())
}

#[tactic(auto, unfolding(crate::specs::AnswerLines::name_text))]
fn put_name(out: &mut Vec<u8>, name: &Option<Text>) -> Result<(), OutOfMemory>
    ensures { OnOk result (out.new.items ≡ out.old.items ++ name_text name.now) }
{
    match name {
        None => put(out, b"-"),
        Some(name) => put_quoted(out, name.as_str().as_bytes()),
    }
}

fn put_more_oids(out: &mut Vec<u8>, types: &[PgType]) -> Result<(), OutOfMemory>
    ensures { OnOk result (out.new.items ≡ out.old.items
        ++ flat_map (λ t. codes "," ++ oid_text t) types.now) }
{
    for datatype in types {
        put(out, b",")?;
        put_decimal(out, u64::from(number_of(*datatype)))?;
    }
    Ok(())
}

#[tactic(auto, unfolding(crate::specs::AnswerLines::oids_text))]
fn put_oids(out: &mut Vec<u8>, types: &[PgType]) -> Result<(), OutOfMemory>
    ensures { OnOk result (out.new.items ≡ out.old.items ++ oids_text types.now) }
{
    match types {
        [] => put(out, b"-"),
        [first, more @ ..] => {
            put_decimal(out, u64::from(number_of(*first)))?;
            put_more_oids(out, more)
        }
    }
}

fn put_counted_rows(out: &mut Vec<u8>, word: &[u8], rows: &DataRows) -> Result<(), OutOfMemory>
    ensures { OnOk result (out.new.items ≡ out.old.items ++ rows_lines word.now rows.now) }
{
    put(out, word)?;
    put_decimal(out, rows.len() as u64)?;
    put(out, b"\n")?;
    put_rows(out, rows)
}

fn put_executed(out: &mut Vec<u8>, answer: &ExecuteResult<DataRows>) -> Result<(), OutOfMemory>
    ensures { OnOk result (out.new.items ≡ out.old.items ++ executed_lines answer.now) }
{
    match answer {
        ExecuteResult::Complete(rows) => put_counted_rows(out, b" complete ", rows),
        ExecuteResult::Suspended(rows) => put_counted_rows(out, b" suspended ", rows),
    }
}

fn put_prepared(out: &mut Vec<u8>, prepared: &PrepareResponse) -> Result<(), OutOfMemory>
    ensures { OnOk result (out.new.items ≡ out.old.items
        ++ (codes " prepared " ++ name_text (prepared.now).name ++ codes " "
        ++ oids_text (prepared.now).param_types ++ line_end)) }
{
    put(out, b" prepared ")?;
    put_name(out, &prepared.name)?;
    put(out, b" ")?;
    put_oids(out, prepared.param_types.as_slice())?;
    put(out, b"\n")
}

fn put_described(out: &mut Vec<u8>, described: &DescribeResponse) -> Result<(), OutOfMemory>
    ensures { OnOk result (out.new.items ≡ out.old.items
        ++ (codes " described " ++ oids_text (described.now).param_types ++ line_end
        ++ flat_map field_line (described.now).fields)) }
{
    put(out, b" described ")?;
    put_oids(out, described.param_types.as_slice())?;
    put(out, b"\n")?;
    put_fields(out, described.fields.as_slice())
}

#[tactic(auto, unfolding(crate::specs::AnswerLines::told_lines))]
fn put_told(out: &mut Vec<u8>, answer: &Answer) -> Result<(), OutOfMemory>
    ensures { OnOk result (out.new.items ≡ out.old.items ++ told_lines answer.now) }
{
    match answer {
        Answer::Responses(responses) => {
            let responses = responses.as_slice();
            put(out, b" responses ")?;
            put_decimal(out, responses.len() as u64)?;
            put(out, b"\n")?;
            put_responses(out, responses)
        }
        Answer::Prepared(prepared) => put_prepared(out, prepared),
        Answer::Bound => put(out, b" bound\n"),
        Answer::Executed(rows) => put_executed(out, rows),
        Answer::Described(described) => put_described(out, described),
        Answer::Closed => put(out, b" closed\n"),
        Answer::Rows(rows) => put_counted_rows(out, b" rows ", rows),
        Answer::Remote(error) => {
            put(out, b" remote\n")?;
            put_items(out, error.fields.as_slice())
        }
    }
}

/// Appends the lines of an answer with this number.
#[tactic(auto, unfolding(crate::specs::AnswerLines::answer_lines))]
pub fn put_answer(out: &mut Vec<u8>, number: u64, answer: &Answer) -> Result<(), OutOfMemory>
    ensures { OnOk result (out.new.items ≡ out.old.items ++ answer_lines number answer.now) }
{
    put(out, b"answer ")?;
    put_decimal(out, number)?;
    put_told(out, answer)
}

/// Appends the lines of answers, numbered from 1.
pub fn put_answers(out: &mut Vec<u8>, answers: &[Answer]) -> Result<(), OutOfMemory>
    ensures { OnOk result (out.new.items ≡ out.old.items ++ numbered 1 answers.now) }
{
    for (index, answer) in answers.iter().enumerate() {
        put_answer(out, index as u64 + 1, answer)?;
    }
    Ok(())
}
