use crate::shared::{add, same, told};
use pgw_rows::{Parameters, ToSql};
use pgw_types::memory::OutOfMemory;
use pgw_types::octets::Octets;
use pgw_types::text::Text;
use std::alloc::Global;
use std::test::Fail;

// A value's type, its binary form and its text form.
fn forms<T: ToSql>(alloc: Global, value: &T) -> Result<String, OutOfMemory> {
    let mut words = String::new(alloc);
    add(alloc, &mut words, T::sql_type())?;
    add(alloc, &mut words, value.to_sql(alloc)?)?;
    add(alloc, &mut words, value.to_sql_text(alloc)?)?;
    Ok(words)
}

#[test]
fn booleans(rt: HostRuntime) -> Result<(), Fail> {
    same(
        forms(rt.alloc(), &true),
        "Bool; Some(Octets { bytes: b\"\\x01\" }); Some(Octets { bytes: b\"t\" }); ",
    )?;
    same(
        forms(rt.alloc(), &false),
        "Bool; Some(Octets { bytes: b\"\\0\" }); Some(Octets { bytes: b\"f\" }); ",
    )
}

#[test]
fn numbers(rt: HostRuntime) -> Result<(), Fail> {
    same(
        forms(rt.alloc(), &-32768_i16),
        "Int2; Some(Octets { bytes: b\"\\x80\\0\" }); Some(Octets { bytes: b\"-32768\" }); ",
    )?;
    same(
        forms(rt.alloc(), &258_i32),
        "Int4; Some(Octets { bytes: b\"\\0\\0\\x01\\x02\" }); Some(Octets { bytes: b\"258\" }); ",
    )?;
    same(
        forms(rt.alloc(), &-1_i64),
        "Int8; Some(Octets { bytes: b\"\\xff\\xff\\xff\\xff\\xff\\xff\\xff\\xff\" }); Some(Octets { bytes: b\"-1\" }); ",
    )
}

#[test]
fn texts_and_octets(rt: HostRuntime) -> Result<(), Fail> {
    let word = "Text; Some(Octets { bytes: b\"ab\" }); Some(Octets { bytes: b\"ab\" }); ";
    same(forms(rt.alloc(), &"ab"), word)?;
    same(forms(rt.alloc(), &Text::from_str(rt.alloc(), "ab")?), word)?;
    same(
        forms(rt.alloc(), &Octets::from_slice(rt.alloc(), b"\0\xff")?),
        "Bytea; Some(Octets { bytes: b\"\\0\\xff\" }); Some(Octets { bytes: b\"\\\\x00ff\" }); ",
    )
}

#[test]
fn optional_values(rt: HostRuntime) -> Result<(), Fail> {
    let none: Option<i32> = None;
    same(forms(rt.alloc(), &none), "Int4; None; None; ")?;
    same(
        forms(rt.alloc(), &Some(7_i16)),
        "Int2; Some(Octets { bytes: b\"\\0\\x07\" }); Some(Octets { bytes: b\"7\" }); ",
    )
}

fn some_parameters(alloc: Global) -> Result<Parameters, OutOfMemory> {
    let mut parameters = Parameters::new(alloc);
    parameters.push_text(alloc, &7_i32)?;
    parameters.push_binary(alloc, &true)?;
    let none: Option<Text> = None;
    parameters.push_text(alloc, &none)?;
    Ok(parameters)
}

#[test]
fn parameters_in_order(rt: HostRuntime) -> Result<(), Fail> {
    let parameters = some_parameters(rt.alloc())?;
    let mut words = String::new(rt.alloc());
    add(
        rt.alloc(),
        &mut words,
        (parameters.len(), parameters.is_empty()),
    )?;
    add(
        rt.alloc(),
        &mut words,
        parameters.type_oids(rt.alloc())?.as_slice(),
    )?;
    add(
        rt.alloc(),
        &mut words,
        parameters.format_codes(rt.alloc())?.as_slice(),
    )?;
    same(
        told(rt.alloc(), parameters.into_values(rt.alloc())?),
        "Listed { items: [Some(Octets { bytes: b\"7\" }), Some(Octets { bytes: b\"\\x01\" }), None] }",
    )?;
    let found: Result<String, OutOfMemory> = Ok(words);
    same(found, "(3, false); [23, 16, 25]; [0, 1, 0]; ")
}
