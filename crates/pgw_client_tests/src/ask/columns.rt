//! Columns, looked up by their names.

use pgw_client::{FieldFormat, FieldInfo, Listed, OutOfMemory, PgType, Text};
use pgw_client_ask::column;
use std::alloc::Global;
use std::process::Abort;
use std::test::Fail;

const NAMES: &[&str] = &["a", "b", "a", "", "größe"];

// A name, and the place of the first column that has it.
const CASES: &[(&str, Option<usize>)] = &[
    ("a", Some(0)),
    ("b", Some(1)),
    ("", Some(3)),
    ("größe", Some(4)),
    ("A", None),
    ("ab", None),
    ("gr", None),
];

fn named(alloc: Global, name: &str) -> Result<FieldInfo, OutOfMemory> {
    Ok(FieldInfo {
        name: Text::from_str(alloc, name)?,
        table_id: None,
        column_id: None,
        datatype: PgType::Int4,
        type_size: 4,
        type_modifier: -1,
        format: FieldFormat::Text,
    })
}

fn fields(alloc: Global) -> Result<Listed<FieldInfo>, OutOfMemory> {
    let mut fields = Listed::new(alloc);
    for name in NAMES {
        fields.push(named(alloc, name)?)?;
    }
    Ok(fields)
}

fn check_columns<R: Abort>(rt: &R, fields: &[FieldInfo]) {
    for case in CASES {
        let (name, _) = *case;
        assert_eq!(rt; (name, column(fields, name)), *case);
    }
}

#[test]
fn columns_are_found(rt: HostRuntime) -> Result<(), Fail> {
    let fields = fields(rt.alloc())?;
    check_columns(&rt, fields.as_slice());
    Ok(())
}
