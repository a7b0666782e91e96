//! Tags, types and columns.

use crate::tests::shared::same;
use pgw_query::data::FieldDescription;
use pgw_query::field_info::FieldInfo;
use pgw_query::pg_type::PgType;
use pgw_query::tag::Tag;
use pgw_types::listed::Duplicate;
use pgw_types::memory::OutOfMemory;
use pgw_types::text::Text;
use std::alloc::Global;
use std::test::Fail;

// Each tag with the parts that are read of it.
const TAGS: &[(&str, &str)] = &[
    ("SELECT 3", "SELECT None Some(3)"),
    ("INSERT 0 5", "INSERT Some(0) Some(5)"),
    (" UPDATE +7 ", "UPDATE None Some(7)"),
    ("CREATE TABLE", "CREATE TABLE None None"),
    ("INSERT 4294967296 1", "INSERT 4294967296 1 None None"),
    ("BEGIN", "BEGIN None None"),
    ("A 1 2 3", "A 1 2 3 None None"),
];

fn tag(alloc: Global, text: &str) -> Result<Tag, OutOfMemory> {
    let tag = Tag::parse(alloc, text)?;
    let copy = tag.duplicate();
    drop(tag);
    copy
}

fn tag_shown(alloc: Global, text: &str) -> Result<String, OutOfMemory> {
    let tag = tag(alloc, text)?;
    let command = tag.command.as_str();
    Ok(format!(in alloc; "{command} {:?} {:?}", tag.oid, tag.rows)?)
}

// The text of the message that a tag makes.
fn tag_written(alloc: Global, text: &str) -> Result<String, OutOfMemory> {
    let message = tag(alloc, text)?.into_command_complete(alloc)?;
    Ok(message.tag.into_string())
}

const PRINTED_TAGS: &[&str] = &["BEGIN", "SELECT 3", "INSERT 0 5"];

#[test]
fn tags(rt: HostRuntime) -> Result<(), Fail> {
    let alloc = rt.alloc();
    for (text, want) in TAGS {
        same(tag_shown(alloc, text), want)?;
    }
    for text in PRINTED_TAGS {
        same(tag_written(alloc, text), text)?;
    }
    Ok(())
}

const TYPES: &[(u32, PgType)] = &[
    (16, PgType::Bool),
    (17, PgType::Bytea),
    (19, PgType::Name),
    (20, PgType::Int8),
    (21, PgType::Int2),
    (23, PgType::Int4),
    (25, PgType::Text),
    (705, PgType::Unknown),
    (1042, PgType::Bpchar),
    (1043, PgType::Varchar),
    (26, PgType::Other(26)),
];

#[test]
fn types(rt: HostRuntime) -> Result<(), Fail> {
    for (oid, want) in TYPES {
        assert!(rt; PgType::from_oid(*oid) == *want && want.oid() == *oid);
    }
    Ok(())
}

fn description(alloc: Global) -> Result<FieldDescription, OutOfMemory> {
    Ok(FieldDescription {
        name: Text::from_str(alloc, "n")?,
        table_id: 0,
        column_id: -1,
        type_id: 25,
        type_size: -1,
        type_modifier: 7,
        format_code: 2,
    })
}

fn field(alloc: Global) -> Result<FieldInfo, OutOfMemory> {
    let description = description(alloc)?;
    let copy = description.duplicate();
    drop(description);
    Ok(FieldInfo::from_description(copy?))
}

fn field_shown(alloc: Global, field: &FieldInfo) -> Result<String, OutOfMemory> {
    Ok(format!(in alloc;
        "{:?} {:?} {:?} {:?}",
        field.table_id, field.column_id, field.datatype, field.format
    )?)
}

fn field_copy(alloc: Global) -> Result<FieldInfo, OutOfMemory> {
    let field = field(alloc)?;
    let copy = field.duplicate();
    drop(field);
    copy
}

// What is shown of a copy.
fn column_shown(alloc: Global) -> Result<String, OutOfMemory> {
    let copy = field_copy(alloc)?;
    let shown = field_shown(alloc, &copy);
    drop(copy);
    shown
}

#[test]
fn columns(rt: HostRuntime) -> Result<(), Fail> {
    same(column_shown(rt.alloc()), "None Some(-1) Text Binary")
}
