//! The longest lists, and names and columns that do not fit.

use crate::tests::shared::{comes_back, encoded, refused, same, told, typed};
use pgw_copy::copy::CopyInResponse;
use pgw_ext::extendedquery::{Bind, Close, Execute, Parse, TARGET_TYPE_BYTE_PORTAL};
use pgw_types::context::ProtocolVersion;
use pgw_types::error::PgWireResult;
use pgw_types::listed::{Duplicate, Listed};
use pgw_types::memory::OutOfMemory;
use pgw_types::octets::Octets;
use pgw_types::text::Text;
use pgw_wire::message::Message;
use std::alloc::Global;
use std::test::Fail;

// As many object identifiers 25.
fn parse_of(alloc: Global, count: u32) -> Result<Parse, OutOfMemory> {
    let mut oids = Listed::new(alloc);
    for _ in 0..count {
        oids.push(25_u32)?;
    }
    Ok(Parse::new(None, Text::new(alloc), oids))
}

// As many formats 0.
fn formats_of(alloc: Global, count: u32) -> Result<Listed<i16>, OutOfMemory> {
    let mut formats = Listed::new(alloc);
    for _ in 0..count {
        formats.push(0_i16)?;
    }
    Ok(formats)
}

// As many values `1234`.
fn values_of(alloc: Global, count: u32) -> Result<Listed<Option<Octets>>, OutOfMemory> {
    let mut values = Listed::new(alloc);
    for _ in 0..count {
        values.push(Some(Octets::from_slice(alloc, b"1234")?))?;
    }
    Ok(values)
}

// As many formats and values.
fn bind_of(alloc: Global, count: u32) -> Result<Bind, OutOfMemory> {
    let values = values_of(alloc, count)?;
    let formats = formats_of(alloc, count)?;
    Ok(Bind::new(None, None, formats, values, Listed::new(alloc)))
}

// Whether so many bytes are written, which are read as it.
fn is_long<M: Message + Duplicate + PartialEq + Drop>(
    alloc: Global,
    message: &M,
    length: usize,
) -> Result<bool, Fail> {
    let buf = encoded(alloc, message)?;
    Ok(buf.len() == length && comes_back::<M>(alloc, buf.as_slice())?)
}

fn parse_is_long(alloc: Global) -> Result<bool, Fail> {
    let message = parse_of(alloc, 65535)?;
    let is_long = is_long(alloc, &message, 262149);
    drop(message);
    is_long
}

fn bind_is_long(alloc: Global) -> Result<bool, Fail> {
    let message = bind_of(alloc, 65535)?;
    let is_long = is_long(alloc, &message, 655363);
    drop(message);
    is_long
}

#[test]
fn longest_lists(rt: HostRuntime) -> Result<(), Fail> {
    assert!(rt; parse_is_long(rt.alloc())? && bind_is_long(rt.alloc())?);
    Ok(())
}

fn long_parse_refused(alloc: Global) -> Result<String, OutOfMemory> {
    let message = parse_of(alloc, 65536)?;
    let told = refused(alloc, &message);
    drop(message);
    told
}

fn long_bind_refused(alloc: Global) -> Result<String, OutOfMemory> {
    let message = bind_of(alloc, 65536)?;
    let told = refused(alloc, &message);
    drop(message);
    told
}

fn zero_refused(alloc: Global) -> Result<String, OutOfMemory> {
    let name = Text::from_str(alloc, "a\0")?;
    refused(alloc, &Execute::new(Some(name), 0))
}

// So many columns with one format.
fn columns_refused(alloc: Global, columns: i16) -> Result<String, OutOfMemory> {
    let formats = formats_of(alloc, 1)?;
    refused(alloc, &CopyInResponse::new(0, columns, formats))
}

#[test]
fn longer_lists_and_other_counts(rt: HostRuntime) -> Result<(), Fail> {
    let alloc = rt.alloc();
    same(long_parse_refused(alloc), "Err(InvalidMessageBody)")?;
    same(long_bind_refused(alloc), "Err(InvalidMessageBody)")?;
    same(zero_refused(alloc), "Err(InvalidMessageBody)")?;
    for columns in [-1_i16, 0, 2] {
        same(columns_refused(alloc, columns), "Err(InvalidMessageBody)")?;
    }
    Ok(())
}

// An empty name, written and read.
fn empty_name(alloc: Global) -> PgWireResult<Option<Close>> {
    let close = Close::new(TARGET_TYPE_BYTE_PORTAL, Some(Text::new(alloc)));
    let mut buf = encoded(alloc, &close)?;
    Close::decode(alloc, &mut buf, &typed(ProtocolVersion::PROTOCOL3_2))
}

#[test]
fn an_empty_name_is_none(rt: HostRuntime) -> Result<(), Fail> {
    let alloc = rt.alloc();
    same(
        told(alloc, empty_name(alloc)),
        "Ok(Some(Close { target_type: 80, name: None }))",
    )
}
