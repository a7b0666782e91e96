//! What a server sends in a session with one query that gives a number of rows.
ghost use Rattle.std.specs.Prelude.{◌≡◌, ◌<◌, ◌∷◌, [], ◌^◌, map, IfOk, OnOk};
ghost use Rattle.pgw_backend.specs.declared.backend.PgWireBackendMessage.TheVariants as backend;
ghost use Rattle.pgw_prog_sessions.specs.Stream.{HasEncoding, IsStream, PutsEncodings, before_rows, column, complete as completion, stream_end, next_number, numbers_behind, stream_ready as readiness, row_of};

use bytes::BytesMut;
use itoa::Buffer;
use pgw_backend::backend::PgWireBackendMessage;
use pgw_query::data::{
    FORMAT_CODE_TEXT, FieldDescription, MESSAGE_TYPE_BYTE_DATA_ROW, RowDescription,
};
use pgw_query::response::{CommandComplete, ReadyForQuery, TransactionStatus};
use pgw_startup::authentication::Authentication;
use pgw_types::error::PgWireError;
use pgw_types::listed::Listed;
use pgw_types::memory::OutOfMemory;
use pgw_types::text::Text;
use std::alloc::Global;

// The numbers are below this.
const MODULUS: u32 = 2147483648;

// The most bytes of a row, whose number has ten digits at most.
const ROW: usize = 21;

// The most bytes of what stands before the rows and behind them.
const AROUND: usize = 128;

// The number behind one.
fn next_number(number: u32) -> u32
    requires { number < 2 ^ 31 }
    ensures value { result ≡ next_number number }
    ensures bound { result < 2 ^ 31 }
{
    ((u64::from(number) * 1103515245 + 12345) % u64::from(MODULUS)) as u32
}

// Appends a message, and lets it go.
fn put(out: &mut BytesMut, message: PgWireBackendMessage) -> Result<(), OutOfMemory>
    requires { HasEncoding message }
    ensures { OnOk result (PutsEncodings (message ∷ []) out.old.items out.new.items) }
{
    let put = message.encode(out);
    drop(message);
    let refusal = put.err();
    // The message has an encoding, so no other refusal comes.
    prove!(matches!(&refusal, None | Some(PgWireError::OutOfMemory)));
    match refusal {
        None => Ok(()),
        Some(error) => {
            drop(error);
            Err(OutOfMemory)
        }
    }
}

// Appends a row whose one field is the number, as it is encoded.
fn put_row(out: &mut BytesMut, number: u32) -> Result<(), OutOfMemory>
    ensures { OnOk result (PutsEncodings (backend.DataRow (row_of number) ∷ []) out.old.items
        out.new.items) }
{
    let mut buffer = Buffer::new();
    let digits = buffer.format(number).as_bytes();
    let len = digits.len() as u32;
    out.extend_from_slice(&[MESSAGE_TYPE_BYTE_DATA_ROW])?;
    out.extend_from_slice(&(len + 10).to_be_bytes())?;
    out.extend_from_slice(&[0, 1])?;
    out.extend_from_slice(&len.to_be_bytes())?;
    out.extend_from_slice(digits)?;
    Ok(())
}

// Appends so many rows, whose numbers follow this one.
fn put_rows(out: &mut BytesMut, count: u32, before: u32) -> Result<(), OutOfMemory>
    requires { before < 2 ^ 31 }
    ensures { OnOk result (PutsEncodings
        (map backend.DataRow (map row_of (numbers_behind count before)))
        out.old.items out.new.items) }
{
    let mut number = before;
    let mut left = count;
    while left > 0 {
        number = next_number(number);
        put_row(out, number)?;
        left -= 1;
    }
    Ok(())
}

fn description(alloc: Global) -> Result<PgWireBackendMessage, OutOfMemory>
    ensures { IfOk result (λ message. message
        ≡ backend.RowDescription (record { fields = column ∷ [] })) }
{
    let mut fields = Listed::new(alloc);
    let name = Text::from_str(alloc, "n")?;
    fields.push(FieldDescription::new(name, 0, 0, 23, 4, -1, FORMAT_CODE_TEXT))?;
    Ok(PgWireBackendMessage::RowDescription(RowDescription::new(fields)))
}

fn complete(alloc: Global, count: u32) -> Result<PgWireBackendMessage, OutOfMemory>
    ensures { IfOk result (λ message. message ≡ completion count) }
{
    let mut buffer = Buffer::new();
    let mut tag = String::from_str(alloc, "SELECT ")?;
    tag.push_str(buffer.format(count))?;
    let tag = Text::from_str(alloc, tag.as_str())?;
    Ok(PgWireBackendMessage::CommandComplete(CommandComplete::new(tag)))
}

fn ready() -> PgWireBackendMessage
    ensures { result ≡ readiness }
{
    PgWireBackendMessage::ReadyForQuery(ReadyForQuery::new(TransactionStatus::Idle))
}

// What stands before the rows.
fn put_beginning(alloc: Global, out: &mut BytesMut) -> Result<(), OutOfMemory>
    ensures { OnOk result (PutsEncodings before_rows out.old.items out.new.items) }
{
    put(
        out,
        PgWireBackendMessage::Authentication(Authentication::Ok),
    )?;
    put(out, ready())?;
    put(out, description(alloc)?)?;
    Ok(())
}

// What stands behind them.
fn put_end(alloc: Global, out: &mut BytesMut, count: u32) -> Result<(), OutOfMemory>
    ensures { OnOk result (PutsEncodings (stream_end count) out.old.items out.new.items) }
{
    put(out, complete(alloc, count)?)?;
    put(out, ready())?;
    Ok(())
}

/// What a server sends: no login is asked for, and the one query gives so many rows of one number.
pub fn stream(alloc: Global, count: u32, start: u32) -> Result<BytesMut, OutOfMemory>
    ensures { IfOk result (λ out. IsStream count start out.items) }
{
    let mut out = BytesMut::with_capacity(alloc, AROUND + count as usize * ROW)?;
    put_beginning(alloc, &mut out)?;
    put_rows(&mut out, count, start % MODULUS)?;
    put_end(alloc, &mut out, count)?;
    Ok(out)
}
