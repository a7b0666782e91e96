use crate::shared::{same, told};
use pgw_query::pg_type::PgType;
use pgw_rows::{FromSql, FromSqlText};
use pgw_types::memory::OutOfMemory;
use pgw_types::octets::Octets;
use pgw_types::text::Text;
use std::alloc::Global;
use std::fmt::Debug;
use std::test::Fail;

const BAD: &str = "Err(FromSqlError(BadText))";

fn of_text<T: FromSqlText + Debug + Drop>(
    alloc: Global,
    ty: PgType,
    text: &[u8],
) -> Result<String, OutOfMemory> {
    told(alloc, T::from_sql_text(alloc, &ty, text))
}

fn of_binary<T: FromSql + Debug + Drop>(
    alloc: Global,
    ty: PgType,
    raw: &[u8],
) -> Result<String, OutOfMemory> {
    told(alloc, T::from_sql(alloc, &ty, raw))
}

// What is read of the text by the type of this many bytes.
fn number_of(alloc: Global, size: u8, text: &[u8]) -> Result<String, OutOfMemory> {
    match size {
        2 => of_text::<i16>(alloc, PgType::Int2, text),
        4 => of_text::<i32>(alloc, PgType::Int4, text),
        _ => of_text::<i64>(alloc, PgType::Int8, text),
    }
}

const EXTREMES: &[(u8, &[u8], &str)] = &[
    (2, b"32767", "Ok(32767)"),
    (2, b"32768", BAD),
    (2, b"-32768", "Ok(-32768)"),
    (2, b"-32769", BAD),
    (4, b"2147483647", "Ok(2147483647)"),
    (4, b"2147483648", BAD),
    (4, b"-2147483648", "Ok(-2147483648)"),
    (4, b"-2147483649", BAD),
    (8, b"9223372036854775807", "Ok(9223372036854775807)"),
    (8, b"9223372036854775808", BAD),
    (8, b"-9223372036854775808", "Ok(-9223372036854775808)"),
    (8, b"-9223372036854775809", BAD),
];

#[test]
fn numbers_in_text(rt: HostRuntime) -> Result<(), Fail> {
    for (size, text, wanted) in EXTREMES {
        same(number_of(rt.alloc(), *size, text), wanted)?;
    }
    Ok(())
}

const SPELLINGS: &[(&[u8], &str)] = &[
    (b"0", "Ok(0)"),
    (b"-0", "Ok(0)"),
    (b"+7", "Ok(7)"),
    (b"-7", "Ok(-7)"),
    (b"007", "Ok(7)"),
    (b"-00000000000000000000000007", "Ok(-7)"),
    (b"", BAD),
    (b"+", BAD),
    (b"-", BAD),
    (b"+-7", BAD),
    (b"--7", BAD),
    (b" 7", BAD),
    (b"7 ", BAD),
    (b"7\0", BAD),
    (b"0x7", BAD),
    (b"7.0", BAD),
    (b"1e3", BAD),
    (b"1_000", BAD),
    (b"\xd9\xa7", BAD),
    (b"\xff", BAD),
];

#[test]
fn spellings_of_numbers(rt: HostRuntime) -> Result<(), Fail> {
    for (text, wanted) in SPELLINGS {
        for size in [2, 4, 8] {
            same(number_of(rt.alloc(), size, text), wanted)?;
        }
    }
    Ok(())
}

// What is read of the bytes by the type of this many bytes.
fn binary_number(alloc: Global, size: u8, raw: &[u8]) -> Result<String, OutOfMemory> {
    match size {
        2 => of_binary::<i16>(alloc, PgType::Int2, raw),
        4 => of_binary::<i32>(alloc, PgType::Int4, raw),
        _ => of_binary::<i64>(alloc, PgType::Int8, raw),
    }
}

const BINARY: &[(u8, &[u8], &str)] = &[
    (2, &[0x80, 0], "Ok(-32768)"),
    (2, &[0x7f, 0xff], "Ok(32767)"),
    (2, &[1], "Err(FromSqlError(WrongLength(1)))"),
    (4, &[0xff, 0xff, 0xff, 0xfe], "Ok(-2)"),
    (4, &[0, 1], "Err(FromSqlError(WrongLength(2)))"),
    (8, &[0x80, 0, 0, 0, 0, 0, 0, 1], "Ok(-9223372036854775807)"),
    (8, &[], "Err(FromSqlError(WrongLength(0)))"),
];

#[test]
fn binary_numbers(rt: HostRuntime) -> Result<(), Fail> {
    for (size, raw, wanted) in BINARY {
        same(binary_number(rt.alloc(), *size, raw), wanted)?;
    }
    Ok(())
}

const TRUTHS: &[(&[u8], &str)] = &[
    (b"t", "Ok(true)"),
    (b"f", "Ok(false)"),
    (b"T", BAD),
    (b"true", BAD),
    (b"1", BAD),
    (b"", BAD),
];

const BINARY_TRUTHS: &[(&[u8], &str)] = &[
    (&[0], "Ok(false)"),
    (&[1], "Ok(true)"),
    (&[255], "Ok(true)"),
    (&[], "Err(FromSqlError(WrongLength(0)))"),
    (&[0, 1], "Err(FromSqlError(WrongLength(2)))"),
];

#[test]
fn booleans(rt: HostRuntime) -> Result<(), Fail> {
    for (text, wanted) in TRUTHS {
        same(of_text::<bool>(rt.alloc(), PgType::Bool, text), wanted)?;
    }
    for (raw, wanted) in BINARY_TRUTHS {
        same(of_binary::<bool>(rt.alloc(), PgType::Bool, raw), wanted)?;
    }
    Ok(())
}

const TEXT_TYPES: &[PgType] = &[
    PgType::Text,
    PgType::Varchar,
    PgType::Bpchar,
    PgType::Name,
    PgType::Unknown,
];

// Bytes, and what is read of them in both formats.
const TEXTS: &[(&[u8], &str)] = &[
    (b"", "Ok(Text { text: \"\" })"),
    (b" a\xc3\xa9 ", "Ok(Text { text: \" a\u{e9} \" })"),
    (b"\xff", BAD),
];

const NO_TEXT_TYPES: &[(PgType, &str)] = &[
    (PgType::Bytea, "Err(FromSqlError(WrongType(Bytea)))"),
    (PgType::Int4, "Err(FromSqlError(WrongType(Int4)))"),
    (PgType::Other(26), "Err(FromSqlError(WrongType(Other(26))))"),
];

fn text_is(alloc: Global, ty: PgType, raw: &[u8], wanted: &str) -> Result<(), Fail> {
    same(of_binary::<Text>(alloc, ty, raw), wanted)?;
    same(of_text::<Text>(alloc, ty, raw), wanted)
}

#[test]
fn texts(rt: HostRuntime) -> Result<(), Fail> {
    for ty in TEXT_TYPES {
        for (raw, wanted) in TEXTS {
            text_is(rt.alloc(), *ty, raw, wanted)?;
        }
    }
    for (ty, wanted) in NO_TEXT_TYPES {
        text_is(rt.alloc(), *ty, b"a", wanted)?;
    }
    Ok(())
}

// Types that a text holds the text form of, and no binary one: json, float4, float8, date, time, timestamp, timestamptz,
// interval, numeric, uuid, jsonb.
const WRITTEN_OUT: &[u32] = &[
    114, 700, 701, 1082, 1083, 1114, 1184, 1186, 1700, 2950, 3802,
];

#[test]
fn other_texts(rt: HostRuntime) -> Result<(), Fail> {
    for oid in WRITTEN_OUT {
        let ty = PgType::from_oid(*oid);
        for (raw, wanted) in TEXTS {
            same(of_text::<Text>(rt.alloc(), ty, raw), wanted)?;
        }
        let wanted = told(rt.alloc(), ty)?;
        same(
            of_binary::<Text>(rt.alloc(), ty, b"7"),
            format!(in rt.alloc(); "Err(FromSqlError(WrongType({wanted})))")?.as_str(),
        )?;
    }
    Ok(())
}

const OCTETS: &[(&[u8], &str)] = &[
    (b"\\x", "Ok(Octets { bytes: b\"\" })"),
    (b"\\x00ff", "Ok(Octets { bytes: b\"\\0\\xff\" })"),
    (b"\\xDeAd", "Ok(Octets { bytes: b\"\\xde\\xad\" })"),
    (b"\\x0", BAD),
    (b"\\x0g", BAD),
    (b"\\X00", BAD),
    (b"x00", BAD),
    (b"\\", BAD),
    (b"", BAD),
    (b"\\x 00", BAD),
];

#[test]
fn octets(rt: HostRuntime) -> Result<(), Fail> {
    for (text, wanted) in OCTETS {
        same(of_text::<Octets>(rt.alloc(), PgType::Bytea, text), wanted)?;
    }
    same(
        of_binary::<Octets>(rt.alloc(), PgType::Bytea, b"\xff\x00"),
        "Ok(Octets { bytes: b\"\\xff\\0\" })",
    )
}

const OTHER: PgType = PgType::Other(1700);

const WRONG: &str = "Err(FromSqlError(WrongType(Other(1700))))";

#[test]
fn other_types(rt: HostRuntime) -> Result<(), Fail> {
    same(of_binary::<bool>(rt.alloc(), OTHER, &[1]), WRONG)?;
    same(of_text::<bool>(rt.alloc(), OTHER, b"t"), WRONG)?;
    same(of_binary::<i16>(rt.alloc(), OTHER, &[0, 1]), WRONG)?;
    same(of_text::<i16>(rt.alloc(), OTHER, b"1"), WRONG)?;
    same(of_binary::<i32>(rt.alloc(), OTHER, &[0]), WRONG)?;
    same(of_text::<i32>(rt.alloc(), OTHER, b"x"), WRONG)?;
    same(of_binary::<i64>(rt.alloc(), OTHER, &[]), WRONG)?;
    same(of_text::<i64>(rt.alloc(), OTHER, b"1"), WRONG)?;
    same(of_binary::<Octets>(rt.alloc(), OTHER, b""), WRONG)?;
    same(of_text::<Octets>(rt.alloc(), OTHER, b"\\x"), WRONG)
}
