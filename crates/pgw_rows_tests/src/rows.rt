use crate::shared::{add, same, told};
use pgw_query::data::DataRow;
use pgw_query::field_info::{FieldFormat, FieldInfo};
use pgw_query::pg_type::PgType;
use pgw_rows::{DataRowDecoder, DataRows, DataRowsReader, FromSql, FromSqlText};
use pgw_types::listed::Listed;
use pgw_types::memory::OutOfMemory;
use pgw_types::octets::Octets;
use pgw_types::text::Text;
use std::alloc::Global;
use std::fmt::Debug;
use std::test::Fail;

type Kind = (PgType, FieldFormat);

fn column(alloc: Global, kind: &Kind) -> Result<FieldInfo, OutOfMemory> {
    Ok(FieldInfo {
        name: Text::from_str(alloc, "n")?,
        table_id: None,
        column_id: None,
        datatype: kind.0,
        type_size: -1,
        type_modifier: -1,
        format: kind.1,
    })
}

fn columns(alloc: Global, kinds: &[Kind]) -> Result<Listed<FieldInfo>, OutOfMemory> {
    let mut columns = Listed::new(alloc);
    for kind in kinds {
        columns.push(column(alloc, kind)?)?;
    }
    Ok(columns)
}

fn row(alloc: Global, payload: &[u8]) -> Result<DataRow, OutOfMemory> {
    Ok(DataRow::new(Octets::from_slice(alloc, payload)?, 1))
}

// What two values are read as.
fn two_values<T: FromSql + FromSqlText + Debug + Drop>(
    alloc: Global,
    decoder: &mut DataRowDecoder<'_>,
    words: &mut String,
) -> Result<(), OutOfMemory> {
    add(alloc, words, decoder.next_value::<T>(alloc))?;
    add(alloc, words, decoder.next_value::<T>(alloc))
}

fn two_lent(
    alloc: Global,
    decoder: &mut DataRowDecoder<'_>,
    words: &mut String,
) -> Result<(), OutOfMemory> {
    add(alloc, words, decoder.next_raw())?;
    add(alloc, words, decoder.next_raw())
}

fn add_values<T: FromSql + FromSqlText + Debug + Drop>(
    alloc: Global,
    columns: &[FieldInfo],
    payload: &[u8],
    words: &mut String,
) -> Result<(), OutOfMemory> {
    let row = row(alloc, payload)?;
    let mut decoder = DataRowDecoder::new(columns, &row);
    two_values::<T>(alloc, &mut decoder, words)?;
    add(alloc, words, decoder.next_raw())
}

fn add_lent(
    alloc: Global,
    columns: &[FieldInfo],
    payload: &[u8],
    words: &mut String,
) -> Result<(), OutOfMemory> {
    let row = row(alloc, payload)?;
    let mut decoder = DataRowDecoder::new(columns, &row);
    add(alloc, words, (decoder.len(), decoder.is_empty()))?;
    two_lent(alloc, &mut decoder, words)
}

// Two values of a row as they are read, and what is lent behind them.
fn values<T: FromSql + FromSqlText + Debug + Drop>(
    alloc: Global,
    kinds: &[Kind],
    payload: &[u8],
) -> Result<String, OutOfMemory> {
    let columns = columns(alloc, kinds)?;
    let mut words = String::new(alloc);
    add_values::<T>(alloc, columns.as_slice(), payload, &mut words)?;
    Ok(words)
}

// The number of values of a row, whether it has none, and the bytes of two as they are lent.
fn lent(alloc: Global, kinds: &[Kind], payload: &[u8]) -> Result<String, OutOfMemory> {
    let columns = columns(alloc, kinds)?;
    let mut words = String::new(alloc);
    add_lent(alloc, columns.as_slice(), payload, &mut words)?;
    Ok(words)
}

const NUMBER: &[Kind] = &[(PgType::Int4, FieldFormat::Text)];

const BOTH_FORMATS: &[Kind] = &[
    (PgType::Bytea, FieldFormat::Binary),
    (PgType::Bytea, FieldFormat::Text),
];

const TEXT: &[Kind] = &[(PgType::Text, FieldFormat::Text)];

const BINARY_TEXT: &[Kind] = &[(PgType::Text, FieldFormat::Binary)];

#[test]
fn select_one(rt: HostRuntime) -> Result<(), Fail> {
    same(
        values::<i32>(rt.alloc(), NUMBER, b"\0\0\0\x011"),
        "Ok(Some(1)); Err(DataRowIndexOutOfBounds); Err(DataRowIndexOutOfBounds); ",
    )?;
    same(
        lent(rt.alloc(), NUMBER, b"\0\0\0\x011"),
        "(1, false); Ok(Some([49])); Err(DataRowIndexOutOfBounds); ",
    )
}

#[test]
fn octets_in_both_formats(rt: HostRuntime) -> Result<(), Fail> {
    same(
        values::<Octets>(rt.alloc(), BOTH_FORMATS, b"\0\0\0\x02\0\xff\0\0\0\x04\\x00"),
        "Ok(Some(Octets { bytes: b\"\\0\\xff\" })); Ok(Some(Octets { bytes: b\"\\0\" })); Err(DataRowIndexOutOfBounds); ",
    )
}

#[test]
fn texts_are_read(rt: HostRuntime) -> Result<(), Fail> {
    same(
        values::<Text>(rt.alloc(), BINARY_TEXT, b"\0\0\0\x02ab"),
        "Ok(Some(Text { text: \"ab\" })); Err(DataRowIndexOutOfBounds); Err(DataRowIndexOutOfBounds); ",
    )
}

// Rows that end within their value.
const SHORT: &[&[u8]] = &[
    b"",
    b"\0\0\0",
    b"\0\0\0\x01",
    b"\0\0\0\x02a",
    b"\x7f\xff\xff\xffa",
];

// Nothing is read, however often it is tried.
#[test]
fn short_rows(rt: HostRuntime) -> Result<(), Fail> {
    for payload in SHORT {
        same(
            values::<Text>(rt.alloc(), TEXT, payload),
            "Err(DataRowIndexOutOfBounds); Err(DataRowIndexOutOfBounds); Err(DataRowIndexOutOfBounds); ",
        )?;
    }
    Ok(())
}

// A negative length is NULL, and a row without columns has no value.
#[test]
fn other_rows(rt: HostRuntime) -> Result<(), Fail> {
    same(
        lent(rt.alloc(), TEXT, b"\x80\0\0\0"),
        "(1, false); Ok(None); Err(DataRowIndexOutOfBounds); ",
    )?;
    same(
        lent(rt.alloc(), &[], b"\0\0\0\0"),
        "(0, true); Err(DataRowIndexOutOfBounds); Err(DataRowIndexOutOfBounds); ",
    )
}

const TWO_NUMBERS: &[Kind] = &[(PgType::Int4, FieldFormat::Text); 2];

const THREE_NUMBERS: &[Kind] = &[(PgType::Int4, FieldFormat::Text); 3];

// Rows with NULL among other values, and what two of them are read as, with what is lent behind them.
const NULLS: &[(&[Kind], &[u8], &str)] = &[
    (
        TWO_NUMBERS,
        b"\xff\xff\xff\xff\0\0\0\x017",
        "Ok(None); Ok(Some(7)); Err(DataRowIndexOutOfBounds); ",
    ),
    (
        TWO_NUMBERS,
        b"\0\0\0\x017\xff\xff\xff\xff",
        "Ok(Some(7)); Ok(None); Err(DataRowIndexOutOfBounds); ",
    ),
    (
        THREE_NUMBERS,
        b"\0\0\0\x017\xff\xff\xff\xff\0\0\0\x018",
        "Ok(Some(7)); Ok(None); Ok(Some([56])); ",
    ),
    (
        THREE_NUMBERS,
        b"\xff\xff\xff\xff\xff\xff\xff\xff\0\0\0\x018",
        "Ok(None); Ok(None); Ok(Some([56])); ",
    ),
];

// The values behind a NULL stand where they do: it has a length, and no bytes.
#[test]
fn nulls_among_values(rt: HostRuntime) -> Result<(), Fail> {
    for (kinds, payload, wanted) in NULLS {
        same(values::<i32>(rt.alloc(), kinds, payload), wanted)?;
    }
    same(
        lent(rt.alloc(), TWO_NUMBERS, b"\xff\xff\xff\xff\0\0\0\x017"),
        "(2, false); Ok(None); Ok(Some([55])); ",
    )
}

// What two values of the next row are read as.
fn add_row<T: FromSql + FromSqlText + Debug + Drop>(
    alloc: Global,
    reader: &mut DataRowsReader,
    words: &mut String,
) -> Result<(), OutOfMemory> {
    match reader.next_row() {
        Some(mut decoder) => two_values::<T>(alloc, &mut decoder, words),
        None => add(alloc, words, "no row"),
    }
}

// What two values of each row are read as, of fewer than five rows.
fn all_rows<T: FromSql + FromSqlText + Debug + Drop>(
    alloc: Global,
    mut reader: DataRowsReader,
) -> Result<String, OutOfMemory> {
    let mut words = String::new(alloc);
    for _ in 0..5 {
        add_row::<T>(alloc, &mut reader, &mut words)?;
    }
    Ok(words)
}

// Two rows of one value and one without, and the beginning of a message that is no row, since its length ends before the
// number of values does.
const FRONT: &[u8] =
    b"D\0\0\0\x0b\0\x01\0\0\0\x011D\0\0\0\x0b\0\x01\0\0\0\x012D\0\0\0\x06\0\0D\0\0\0\x05\0\0";

fn one_row(alloc: Global, payload: &[u8]) -> Result<DataRows, OutOfMemory> {
    let mut rows = DataRows::new(alloc);
    rows.push(row(alloc, payload)?)?;
    Ok(rows)
}

// Adds the rows of the front.
fn add_front(alloc: Global, rows: &mut DataRows) -> Result<String, OutOfMemory> {
    let mut bytes = Octets::from_slice(alloc, FRONT)?;
    let taken = rows.take_front(&mut bytes)?;
    told(alloc, (taken, bytes))
}

// A row that is pushed, and behind it those of the front.
fn some_rows(alloc: Global) -> Result<DataRows, Fail> {
    let mut rows = one_row(alloc, b"\0\0\0\x010")?;
    same(
        add_front(alloc, &mut rows),
        "(3, Octets { bytes: b\"D\\0\\0\\0\\x05\\0\\0\" })",
    )?;
    Ok(rows)
}

fn three_rows(alloc: Global) -> Result<DataRows, OutOfMemory> {
    let mut rows = Listed::new(alloc);
    for number in [1_u8, 2, 3] {
        rows.push(row(alloc, &[0, 0, 0, 2, 0, number])?)?;
    }
    DataRows::from_rows(alloc, rows)
}

fn pushed(alloc: Global) -> Result<String, OutOfMemory> {
    let columns = columns(alloc, &[(PgType::Int2, FieldFormat::Binary)])?;
    let rows = three_rows(alloc)?;
    all_rows::<i16>(alloc, DataRowsReader::new(columns, rows))
}

#[test]
fn rows_in_order(rt: HostRuntime) -> Result<(), Fail> {
    same(
        pushed(rt.alloc()),
        "Ok(Some(1)); Err(DataRowIndexOutOfBounds); Ok(Some(2)); Err(DataRowIndexOutOfBounds); Ok(Some(3)); Err(DataRowIndexOutOfBounds); \"no row\"; \"no row\"; ",
    )?;
    same(
        all_rows::<i16>(rt.alloc(), DataRowsReader::empty(rt.alloc())),
        "\"no row\"; \"no row\"; \"no row\"; \"no row\"; \"no row\"; ",
    )
}

fn of_a_run(alloc: Global) -> Result<String, Fail> {
    let columns = columns(alloc, TWO_NUMBERS)?;
    let rows = some_rows(alloc)?;
    Ok(all_rows::<i32>(alloc, DataRowsReader::new(columns, rows))?)
}

// A row of a run is let go once it is given, and ends where it does in the run.
#[test]
fn rows_of_a_run_in_order(rt: HostRuntime) -> Result<(), Fail> {
    let found = of_a_run(rt.alloc())?;
    assert_eq!(rt;
        found.as_str(),
        "Ok(Some(0)); Err(DataRowIndexOutOfBounds); Ok(Some(1)); Err(DataRowIndexOutOfBounds); Ok(Some(2)); Err(DataRowIndexOutOfBounds); Err(DataRowIndexOutOfBounds); Err(DataRowIndexOutOfBounds); \"no row\"; "
    );
    Ok(())
}

// The rows of `some_rows`: how many values each has, and its payload; and none behind them.
const LENT: &str =
    "(4, false); Some(DataRowRef { field_count: 1, payload: [0, 0, 0, 1, 48] }); Some(DataRowRef { field_count: 1, payload: [0, 0, 0, 1, 49] }); Some(DataRowRef { field_count: 1, payload: [0, 0, 0, 1, 50] }); Some(DataRowRef { field_count: 0, payload: [] }); None; ";

fn lent_rows(alloc: Global, rows: &DataRows) -> Result<String, OutOfMemory> {
    let mut words = String::new(alloc);
    add(alloc, &mut words, (rows.len(), rows.is_empty()))?;
    let mut lent = rows.iter();
    for _ in 0..5 {
        add(alloc, &mut words, lent.next())?;
    }
    Ok(words)
}

#[test]
fn rows_are_lent(rt: HostRuntime) -> Result<(), Fail> {
    let rows = some_rows(rt.alloc())?;
    same(lent_rows(rt.alloc(), &rows), LENT)
}

// A row alone, the rows of `some_rows`, and none behind them.
const TAKEN: &str =
    "Ok(Some(DataRow { payload: Octets { bytes: b\"\\0\\0\\0\\x01a\" }, field_count: 1 })); Ok(Some(DataRow { payload: Octets { bytes: b\"\\0\\0\\0\\x010\" }, field_count: 1 })); Ok(Some(DataRow { payload: Octets { bytes: b\"\\0\\0\\0\\x011\" }, field_count: 1 })); Ok(Some(DataRow { payload: Octets { bytes: b\"\\0\\0\\0\\x012\" }, field_count: 1 })); Ok(Some(DataRow { payload: Octets { bytes: b\"\" }, field_count: 0 })); Ok(None); ";

fn appended(alloc: Global) -> Result<DataRows, Fail> {
    let mut rows = one_row(alloc, b"\0\0\0\x01a")?;
    rows.append(some_rows(alloc)?)?;
    Ok(rows)
}

fn taken_rows(alloc: Global, mut reader: DataRowsReader) -> Result<String, OutOfMemory> {
    let mut words = String::new(alloc);
    for _ in 0..6 {
        add(alloc, &mut words, reader.take_row())?;
    }
    Ok(words)
}

#[test]
fn rows_are_taken(rt: HostRuntime) -> Result<(), Fail> {
    let rows = appended(rt.alloc())?;
    let reader = DataRowsReader::new(Listed::new(rt.alloc()), rows);
    same(taken_rows(rt.alloc(), reader), TAKEN)
}

// Bytes, how many rows stand whole at their front and are taken, and how many bytes are left.
const FRONTS: &[(&[u8], &str)] = &[
    (b"", "(0, 0, 0)"),
    (b"D\0\0\0\x06\0", "(0, 0, 6)"),
    (b"D\0\0\0\x06\0\0", "(1, 1, 0)"),
    (b"E\0\0\0\x06\0\0", "(0, 0, 7)"),
    (b"D\0\0\0\x05\0\0", "(0, 0, 7)"),
    (b"D\0\0\0\x07\0\0", "(0, 0, 7)"),
    (b"D\x80\0\0\x06\0\0", "(0, 0, 7)"),
    (b"D\xff\xff\xff\xff\0\0", "(0, 0, 7)"),
    (b"D\0\0\0\x06\0\x01D\0\0\0\x06\0\x02D", "(2, 2, 1)"),
];

fn front(alloc: Global, front: &[u8]) -> Result<String, OutOfMemory> {
    let mut bytes = Octets::from_slice(alloc, front)?;
    let mut rows = DataRows::new(alloc);
    let taken = rows.take_front(&mut bytes)?;
    told(alloc, (taken, rows.len(), bytes.len()))
}

#[test]
fn rows_at_fronts(rt: HostRuntime) -> Result<(), Fail> {
    for (bytes, wanted) in FRONTS {
        same(front(rt.alloc(), bytes), wanted)?;
    }
    Ok(())
}
