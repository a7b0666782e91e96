//! The command over links in memory: what is printed, the status, and what the server got.
use crate::commands::servers::{Setting, new_setting};
use pgw_prog_commands::query::run_query;
use pgw_prog_output::printer::RowFormat;
use pgw_types::listed::Listed;
use pgw_types::memory::OutOfMemory;
use pgw_types::text::Text;
use std::alloc::Global;
use std::process::Abort;
use std::test::Fail;

// What a server says, by the message formats of the protocol: it lets the client in, and answers `n` 1 and NULL, and
// `t` "a,b" and the empty text.
const ANSWERS: &[u8] = b"R\0\0\0\x08\0\0\0\0Z\0\0\0\x05I\
    T\0\0\0\x1a\0\x01n\0\0\0\0\0\0\0\0\0\0\x17\0\x04\xff\xff\xff\xff\0\0\
    D\0\0\0\x0b\0\x01\0\0\0\x011D\0\0\0\x0a\0\x01\xff\xff\xff\xffC\0\0\0\x0dSELECT 2\0Z\0\0\0\x05I\
    T\0\0\0\x1a\0\x01t\0\0\0\0\0\0\0\0\0\0\x19\xff\xff\xff\xff\xff\xff\0\0\
    D\0\0\0\x0d\0\x01\0\0\0\x03a,bD\0\0\0\x0a\0\x01\0\0\0\0C\0\0\0\x0dSELECT 2\0Z\0\0\0\x05I";

// The second query is answered by an error.
const FAILS: &[u8] = b"R\0\0\0\x08\0\0\0\0Z\0\0\0\x05I\
    T\0\0\0\x1a\0\x01n\0\0\0\0\0\0\0\0\0\0\x17\0\x04\xff\xff\xff\xff\0\0\
    D\0\0\0\x0b\0\x01\0\0\0\x011C\0\0\0\x0dSELECT 1\0Z\0\0\0\x05I\
    E\0\0\0\x17SERROR\0C42601\0Mno\0\0Z\0\0\0\x05I";

// A row of two values stands below one column.
const UNFIT: &[u8] = b"R\0\0\0\x08\0\0\0\0Z\0\0\0\x05I\
    T\0\0\0\x1a\0\x01n\0\0\0\0\0\0\0\0\0\0\x17\0\x04\xff\xff\xff\xff\0\0\
    D\0\0\0\x10\0\x02\0\0\0\x011\0\0\0\x012C\0\0\0\x0dSELECT 1\0Z\0\0\0\x05I";

// It ends behind the first row.
const ENDS: &[u8] = b"R\0\0\0\x08\0\0\0\0Z\0\0\0\x05I\
    T\0\0\0\x1a\0\x01n\0\0\0\0\0\0\0\0\0\0\x17\0\x04\xff\xff\xff\xff\0\0\
    D\0\0\0\x0b\0\x01\0\0\0\x011";

// Its sessions may only be read, or may be written to; then it answers as above.
const READ_ONLY: &[u8] = b"R\0\0\0\x08\0\0\0\0Z\0\0\0\x05I\
    T\0\0\0\x2e\0\x01transaction_read_only\0\0\0\0\0\0\0\0\0\0\x19\xff\xff\xff\xff\xff\xff\0\0\
    D\0\0\0\x0c\0\x01\0\0\0\x02onC\0\0\0\x09SHOW\0Z\0\0\0\x05I";

const WRITABLE: &[u8] = b"R\0\0\0\x08\0\0\0\0Z\0\0\0\x05I\
    T\0\0\0\x2e\0\x01transaction_read_only\0\0\0\0\0\0\0\0\0\0\x19\xff\xff\xff\xff\xff\xff\0\0\
    D\0\0\0\x0d\0\x01\0\0\0\x03offC\0\0\0\x09SHOW\0Z\0\0\0\x05I\
    T\0\0\0\x1a\0\x01n\0\0\0\0\0\0\0\0\0\0\x17\0\x04\xff\xff\xff\xff\0\0\
    D\0\0\0\x0b\0\x01\0\0\0\x011C\0\0\0\x0dSELECT 1\0Z\0\0\0\x05I";

const REFUSAL: &[u8] = b"E\0\0\0\x17SFATAL\0C28000\0Mno\0\0";

const ANY: &str = "hostaddr=127.0.0.1 user=bob";

const WANTED: &str = "hostaddr=127.0.0.1 user=bob target_session_attrs=read-write";

// A connection text for all places, what their servers say, how rows are printed, the number of a write of standard
// output that fails, what is printed, and the status.
type Case = (
    &'static str,
    &'static [&'static [u8]],
    RowFormat,
    u64,
    &'static str,
    u8,
);

const CASES: &[Case] = &[
    (
        ANY,
        &[ANSWERS],
        RowFormat::Csv,
        0,
        "n\n1\n\"\"\nt\n\"a,b\"\n\"\"\n",
        0,
    ),
    (
        ANY,
        &[ANSWERS],
        RowFormat::Json,
        0,
        "{\"n\":1}\n{\"n\":null}\n{\"t\":\"a,b\"}\n{\"t\":\"\"}\n",
        0,
    ),
    (ANY, &[ANSWERS], RowFormat::Csv, 1, "", 3),
    (ANY, &[FAILS], RowFormat::Csv, 0, "n\n1\n", 1),
    (ANY, &[UNFIT], RowFormat::Csv, 0, "n\n", 1),
    (ANY, &[ENDS], RowFormat::Csv, 0, "n\n1\n", 1),
    (ANY, &[REFUSAL, ANSWERS], RowFormat::Csv, 0, "", 1),
    (WANTED, &[READ_ONLY], RowFormat::Csv, 0, "", 1),
    (
        WANTED,
        &[READ_ONLY, WRITABLE],
        RowFormat::Csv,
        0,
        "n\n1\n",
        1,
    ),
];

fn queries(alloc: Global) -> Result<Listed<Text>, OutOfMemory> {
    let mut queries = Listed::new(alloc);
    queries.push(Text::from_str(alloc, "TABLE a")?)?;
    queries.push(Text::from_str(alloc, "TABLE b")?)?;
    Ok(queries)
}

fn ran(alloc: Global, format: RowFormat, queries: &[Text], setting: &mut Setting) -> u8 {
    run_query(
        alloc,
        format,
        setting.places.as_slice(),
        queries,
        &mut setting.output,
        &mut setting.errors,
        &mut setting.dialer,
    )
}

fn check_output<R: Abort>(rt: &R, setting: &Setting, status: u8, printed: &str, wanted: u8) {
    assert_eq!(rt; status, wanted);
    assert_eq!(rt; setting.output.written(), printed.as_bytes());
}

fn check_each<R: Abort>(rt: &R, alloc: Global, queries: &[Text]) -> Result<(), Fail> {
    for (text, servers, format, failing_write, printed, wanted) in CASES {
        let mut setting = new_setting(alloc, text, servers, *failing_write)?;
        let status = ran(alloc, *format, queries, &mut setting);
        check_output(rt, &setting, status, printed, *wanted);
    }
    Ok(())
}

#[test]
fn queries_are_answered(rt: HostRuntime) -> Result<(), Fail> {
    let queries = queries(rt.alloc())?;
    check_each(&rt, rt.alloc(), queries.as_slice())
}

// What the server got: a startup message of 18 bytes, both queries and Terminate.
const SENT: &[u8] = b"Q\0\0\0\x0cTABLE a\0Q\0\0\0\x0cTABLE b\0X\0\0\0\x04";

fn sent(alloc: Global, queries: &[Text]) -> Result<(u8, bool), Fail> {
    let mut setting = new_setting(alloc, ANY, &[ANSWERS], 0)?;
    let status = ran(alloc, RowFormat::Csv, queries, &mut setting);
    Ok((status, setting.was_sent(SENT)))
}

fn sent_as_it_is(alloc: Global) -> Result<(u8, bool), Fail> {
    let queries = queries(alloc)?;
    sent(alloc, queries.as_slice())
}

#[test]
fn queries_are_sent_as_they_are(rt: HostRuntime) -> Result<(), Fail> {
    assert_eq!(rt; sent_as_it_is(rt.alloc())?, (0, true));
    Ok(())
}
