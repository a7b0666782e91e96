//! The calls that C makes: each is the function behind it, at the session behind the handle.
//!
//! A handle is null, or the start of a block in which `hothummei_c_place` put a session. A call by a null handle answers
//! that it is null. Where it is not, the session that lies there is lent to the function for the call.
ghost use Rattle.std.specs.Prelude.{◌≡◌, ◌<◌, [], Some, None, string_bytes};
ghost use types.Logic.{sem};
ghost use Rattle.pgw_session.specs.declared.types.Request.TheVariants as request;
ghost use Rattle.pgw_wire.specs.Reading.{name_of};
ghost use Rattle.hothummei_c.specs.Asks.{AddsParameter, AsksRows, numbered_target};
ghost use Rattle.hothummei_c.specs.Handle.{session_or_null, room_at_start, room_behind, session_at};
ghost use Rattle.hothummei_c.specs.Reads.{FindsAnswer, FindsColumn, FindsFault, FindsField, FindsPair, FindsResult, FindsRow, FindsType, SumsUp};
ghost use Rattle.hothummei_c.specs.Session.{HandleAsks, AsksWith, AsksWithin, HandleBegins, ConnectsInC, MeetsBytesEnd, IsNewSession, HandleSends, TakesBytes, RefusesText, UnreadOne};
ghost use Rattle.hothummei_c.specs.Turns.{Shows, phase_number};

use crate::codes::NULL_POINTER;
use crate::infos::{AnswerInfo, ColumnInfo, Pair, ResultInfo, RowInfo, Summary, TypeInfo};
use crate::session::{Session, let_go, new_session};
use crate::values::Value;
use crate::{asks, reads, turns};
use std::alloc::Global;
use std::mem::size_of;

/// What C sees of a session: nothing.
#[repr(C)]
#[derive(Drop)]
pub struct Handle {
    hidden: u8,
}

/// How many bytes the block of a session has. It begins where a block of `malloc` may.
#[unsafe(no_mangle)]
pub extern "C" fn hothummei_c_size() -> usize {
    size_of::<Session>()
}

/// Puts a session with nothing in it at the start of a block.
#[unsafe(no_mangle)]
pub unsafe extern "C" fn hothummei_c_place(handle: *mut Handle, alloc: Global)
    requires* { sem 𝓛 (room_at_start handle) }
    ensures* { sem 𝓛 (session_or_null handle IsNewSession ⊥) }
{
    handle.cast::<Session>().write(new_session(alloc));
}

/// Lets the session go. The block is C's again.
#[unsafe(no_mangle)]
pub unsafe extern "C" fn hothummei_c_release(handle: *mut Handle)
    ghost of: { Session }
    requires* { sem 𝓛 (session_at handle of) }
    ensures* { sem 𝓛 (room_behind handle) }
{
    if handle.is_null() {
        return;
    }
    let_go(handle.cast::<Session>().read());
}

/// Reads the connection text, and takes the nonce of a SCRAM login.
#[unsafe(no_mangle)]
pub unsafe extern "C" fn hothummei_c_connection(
    handle: *mut Handle,
    text: &[u8],
    nonce: &[u8; 18],
) -> u32
    ghost of: { Session }
    requires* { sem 𝓛 (session_at handle of) }
    ensures* { sem 𝓛 (session_or_null handle (λ s. ConnectsInC of s text.now nonce.now result)
        (result ≡ 1)) }
{
    if handle.is_null() {
        return NULL_POINTER;
    }
    asks::connection(&mut *handle.cast::<Session>(), text, nonce)
}

/// Asks a simple query.
#[unsafe(no_mangle)]
pub unsafe extern "C" fn hothummei_c_simple(handle: *mut Handle, sql: &[u8]) -> u32
    ghost of: { Session }
    requires* { sem 𝓛 (session_at handle of) }
    ensures* { sem 𝓛 (session_or_null handle
        (λ s. HandleAsks of s (RefusesText sql.now) (request.Simple sql.now)
        result) (result ≡ 1)) }
{
    if handle.is_null() {
        return NULL_POINTER;
    }
    asks::simple(&mut *handle.cast::<Session>(), sql)
}

/// Prepares a statement; an empty name is none.
#[unsafe(no_mangle)]
pub unsafe extern "C" fn hothummei_c_prepare(handle: *mut Handle, name: &[u8], sql: &[u8]) -> u32
    ghost of: { Session }
    requires* { sem 𝓛 (session_at handle of) }
    ensures* { sem 𝓛 (session_or_null handle (λ s. HandleAsks of s (UnreadOne name.now sql.now)
        (request.Prepare (name_of name.now) sql.now []) result) (result ≡ 1)) }
{
    if handle.is_null() {
        return NULL_POINTER;
    }
    asks::prepare(&mut *handle.cast::<Session>(), name, sql)
}

/// Binds a statement to a portal, with the parameters that stand ready.
#[unsafe(no_mangle)]
pub unsafe extern "C" fn hothummei_c_bind(
    handle: *mut Handle,
    portal: &[u8],
    statement: &[u8],
) -> u32
    ghost of: { Session }
    requires* { sem 𝓛 (session_at handle of) }
    ensures* { sem 𝓛 (session_or_null handle
        (λ s. AsksWith of s (UnreadOne portal.now statement.now)
        (request.Bind (name_of portal.now) (name_of statement.now) of.parameters []) result)
        (result ≡ 1)) }
{
    if handle.is_null() {
        return NULL_POINTER;
    }
    asks::bind(&mut *handle.cast::<Session>(), portal, statement)
}

/// Runs a portal for so many rows at most; 0 is all.
#[unsafe(no_mangle)]
pub unsafe extern "C" fn hothummei_c_execute(handle: *mut Handle, portal: &[u8], rows: u32) -> u32
    ghost of: { Session }
    requires* { sem 𝓛 (session_at handle of) }
    ensures* { sem 𝓛 (session_or_null handle (λ s. AsksRows of s portal.now rows result)
        (result ≡ 1)) }
{
    if handle.is_null() {
        return NULL_POINTER;
    }
    asks::execute(&mut *handle.cast::<Session>(), portal, rows)
}

/// Describes a statement (0) or a portal (1).
#[unsafe(no_mangle)]
pub unsafe extern "C" fn hothummei_c_describe(handle: *mut Handle, kind: u32, name: &[u8]) -> u32
    ghost of: { Session }
    requires* { sem 𝓛 (session_at handle of) }
    ensures* { sem 𝓛 (session_or_null handle (λ s. AsksWithin of s (1 < kind) name.now
        (request.Describe (numbered_target kind (name_of name.now))) result) (result ≡ 1)) }
{
    if handle.is_null() {
        return NULL_POINTER;
    }
    asks::describe(&mut *handle.cast::<Session>(), kind, name)
}

/// Closes a statement (0) or a portal (1).
#[unsafe(no_mangle)]
pub unsafe extern "C" fn hothummei_c_close(handle: *mut Handle, kind: u32, name: &[u8]) -> u32
    ghost of: { Session }
    requires* { sem 𝓛 (session_at handle of) }
    ensures* { sem 𝓛 (session_or_null handle (λ s. AsksWithin of s (1 < kind) name.now
        (request.Close (numbered_target kind (name_of name.now))) result) (result ≡ 1)) }
{
    if handle.is_null() {
        return NULL_POINTER;
    }
    asks::close(&mut *handle.cast::<Session>(), kind, name)
}

/// Asks a query, with the parameters that stand ready.
#[unsafe(no_mangle)]
pub unsafe extern "C" fn hothummei_c_query(handle: *mut Handle, sql: &[u8]) -> u32
    ghost of: { Session }
    requires* { sem 𝓛 (session_at handle of) }
    ensures* { sem 𝓛 (session_or_null handle
        (λ s. AsksWith of s (RefusesText sql.now) (request.Query sql.now []
        of.parameters) result) (result ≡ 1)) }
{
    if handle.is_null() {
        return NULL_POINTER;
    }
    asks::query(&mut *handle.cast::<Session>(), sql)
}

/// Has the text of one parameter more stand ready.
#[unsafe(no_mangle)]
pub unsafe extern "C" fn hothummei_c_parameter(handle: *mut Handle, value: &[u8]) -> u32
    ghost of: { Session }
    requires* { sem 𝓛 (session_at handle of) }
    ensures* { sem 𝓛 (session_or_null handle (λ s. AddsParameter of s (Some value.now) result)
        (result ≡
        1)) }
{
    if handle.is_null() {
        return NULL_POINTER;
    }
    asks::parameter(&mut *handle.cast::<Session>(), value)
}

/// Has one parameter more stand ready, which is NULL.
#[unsafe(no_mangle)]
pub unsafe extern "C" fn hothummei_c_null_parameter(handle: *mut Handle) -> u32
    ghost of: { Session }
    requires* { sem 𝓛 (session_at handle of) }
    ensures* { sem 𝓛 (session_or_null handle (λ s. AddsParameter of s None result) (result ≡ 1)) }
{
    if handle.is_null() {
        return NULL_POINTER;
    }
    asks::null_parameter(&mut *handle.cast::<Session>())
}

/// Begins the session; it takes no more bytes than the limit.
#[unsafe(no_mangle)]
pub unsafe extern "C" fn hothummei_c_start(handle: *mut Handle, limit: u64) -> u32
    ghost of: { Session }
    requires* { sem 𝓛 (session_at handle of) }
    ensures* { sem 𝓛 (session_or_null handle (λ s. HandleBegins of s limit result) (result ≡ 1)) }
{
    if handle.is_null() {
        return NULL_POINTER;
    }
    turns::start(&mut *handle.cast::<Session>(), limit)
}

/// Takes bytes that came from the server.
#[unsafe(no_mangle)]
pub unsafe extern "C" fn hothummei_c_take(handle: *mut Handle, piece: &[u8]) -> u32
    ghost of: { Session }
    requires* { sem 𝓛 (session_at handle of) }
    ensures* { sem 𝓛 (session_or_null handle (λ s. TakesBytes of s piece.now result) (result ≡ 1)) }
{
    if handle.is_null() {
        return NULL_POINTER;
    }
    turns::take(&mut *handle.cast::<Session>(), piece)
}

/// Shows what is to be sent.
#[unsafe(no_mangle)]
pub unsafe extern "C" fn hothummei_c_pending(handle: *mut Handle, out: &mut Value) -> u32
    ghost of: { Session }
    requires* { sem 𝓛 (session_at handle of) }
    ensures* { sem 𝓛 (session_or_null handle (λ s. Shows of s of.out.items out.new result)
        (result ≡ 1)) }
{
    if handle.is_null() {
        return NULL_POINTER;
    }
    turns::pending(&mut *handle.cast::<Session>(), out)
}

/// Takes note that so many bytes were sent.
#[unsafe(no_mangle)]
pub unsafe extern "C" fn hothummei_c_sent(handle: *mut Handle, count: usize) -> u32
    ghost of: { Session }
    requires* { sem 𝓛 (session_at handle of) }
    ensures* { sem 𝓛 (session_or_null handle (λ s. HandleSends of s count result) (result ≡ 1)) }
{
    if handle.is_null() {
        return NULL_POINTER;
    }
    turns::sent(&mut *handle.cast::<Session>(), count)
}

/// How far it has come.
#[unsafe(no_mangle)]
pub unsafe extern "C" fn hothummei_c_phase(handle: *mut Handle) -> u32
    ghost of: { Session }
    requires* { sem 𝓛 (session_at handle of) }
    ensures* { sem 𝓛 (session_or_null handle (λ s. (result ≡ phase_number of.phase) × (s ≡ of))
        (result ≡
        1)) }
{
    if handle.is_null() {
        return NULL_POINTER;
    }
    turns::phase(&mut *handle.cast::<Session>())
}

/// Says what it means that no more bytes come.
#[unsafe(no_mangle)]
pub unsafe extern "C" fn hothummei_c_at_end(handle: *mut Handle) -> u32
    ghost of: { Session }
    requires* { sem 𝓛 (session_at handle of) }
    ensures* { sem 𝓛 (session_or_null handle (λ s. MeetsBytesEnd of s result) (result ≡ 1)) }
{
    if handle.is_null() {
        return NULL_POINTER;
    }
    turns::at_end(&mut *handle.cast::<Session>())
}

/// Shows the sentence of the error that it failed by.
#[unsafe(no_mangle)]
pub unsafe extern "C" fn hothummei_c_sentence(handle: *mut Handle, out: &mut Value) -> u32
    ghost of: { Session }
    requires* { sem 𝓛 (session_at handle of) }
    ensures* { sem 𝓛 (session_or_null handle
        (λ s. Shows of s (string_bytes of.sentence) out.new result)
        (result ≡ 1)) }
{
    if handle.is_null() {
        return NULL_POINTER;
    }
    turns::sentence(&mut *handle.cast::<Session>(), out)
}

/// Tells the whole.
#[unsafe(no_mangle)]
pub unsafe extern "C" fn hothummei_c_summary(handle: *mut Handle, out: &mut Summary) -> u32
    ghost of: { Session }
    requires* { sem 𝓛 (session_at handle of) }
    ensures* { sem 𝓛 (session_or_null handle (λ s. SumsUp of s out.new result) (result ≡ 1)) }
{
    if handle.is_null() {
        return NULL_POINTER;
    }
    reads::summary(&mut *handle.cast::<Session>(), out)
}

/// Tells a parameter of the server.
#[unsafe(no_mangle)]
pub unsafe extern "C" fn hothummei_c_server_parameter(
    handle: *mut Handle,
    index: usize,
    out: &mut Pair,
) -> u32
    ghost of: { Session }
    requires* { sem 𝓛 (session_at handle of) }
    ensures* { sem 𝓛 (session_or_null handle (λ s. FindsPair of s index out.new result)
        (result ≡ 1)) }
{
    if handle.is_null() {
        return NULL_POINTER;
    }
    reads::server_parameter(&mut *handle.cast::<Session>(), index, out)
}

/// Tells the answer to a request.
#[unsafe(no_mangle)]
pub unsafe extern "C" fn hothummei_c_answer(
    handle: *mut Handle,
    index: usize,
    out: &mut AnswerInfo,
) -> u32
    ghost of: { Session }
    requires* { sem 𝓛 (session_at handle of) }
    ensures* { sem 𝓛 (session_or_null handle (λ s. FindsAnswer of s index out.new result)
        (result ≡ 1)) }
{
    if handle.is_null() {
        return NULL_POINTER;
    }
    reads::answer(&mut *handle.cast::<Session>(), index, out)
}

/// Tells the type of a statement's parameter.
#[unsafe(no_mangle)]
pub unsafe extern "C" fn hothummei_c_parameter_type(
    handle: *mut Handle,
    answer: usize,
    index: usize,
    out: &mut TypeInfo,
) -> u32
    ghost of: { Session }
    requires* { sem 𝓛 (session_at handle of) }
    ensures* { sem 𝓛 (session_or_null handle (λ s. FindsType of s answer index out.new result)
        (result ≡
        1)) }
{
    if handle.is_null() {
        return NULL_POINTER;
    }
    reads::parameter_type(&mut *handle.cast::<Session>(), answer, index, out)
}

/// Shows a field of the server's error that the session failed by.
#[unsafe(no_mangle)]
pub unsafe extern "C" fn hothummei_c_error_field(
    handle: *mut Handle,
    code: u32,
    out: &mut Value,
) -> u32
    ghost of: { Session }
    requires* { sem 𝓛 (session_at handle of) }
    ensures* { sem 𝓛 (session_or_null handle (λ s. FindsFault of s code out.new result)
        (result ≡ 1)) }
{
    if handle.is_null() {
        return NULL_POINTER;
    }
    reads::error_field(&mut *handle.cast::<Session>(), code, out)
}

/// Shows a field of the server's error that answers a request.
#[unsafe(no_mangle)]
pub unsafe extern "C" fn hothummei_c_answer_field(
    handle: *mut Handle,
    answer: usize,
    code: u32,
    out: &mut Value,
) -> u32
    ghost of: { Session }
    requires* { sem 𝓛 (session_at handle of) }
    ensures* { sem 𝓛 (session_or_null handle (λ s. FindsField of s answer code out.new result)
        (result ≡
        1)) }
{
    if handle.is_null() {
        return NULL_POINTER;
    }
    reads::answer_field(&mut *handle.cast::<Session>(), answer, code, out)
}

/// Tells what one command of a request gave.
#[unsafe(no_mangle)]
pub unsafe extern "C" fn hothummei_c_result(
    handle: *mut Handle,
    answer: usize,
    index: usize,
    out: &mut ResultInfo,
) -> u32
    ghost of: { Session }
    requires* { sem 𝓛 (session_at handle of) }
    ensures* { sem 𝓛 (session_or_null handle (λ s. FindsResult of s answer index out.new result)
        (result
        ≡ 1)) }
{
    if handle.is_null() {
        return NULL_POINTER;
    }
    reads::result_info(&mut *handle.cast::<Session>(), answer, index, out)
}

/// Tells a column of a result.
#[unsafe(no_mangle)]
pub unsafe extern "C" fn hothummei_c_column(
    handle: *mut Handle,
    answer: usize,
    number: usize,
    index: usize,
    out: &mut ColumnInfo,
) -> u32
    ghost of: { Session }
    requires* { sem 𝓛 (session_at handle of) }
    ensures* { sem 𝓛 (session_or_null handle
        (λ s. FindsColumn of s answer number index out.new result)
        (result ≡ 1)) }
{
    if handle.is_null() {
        return NULL_POINTER;
    }
    reads::column(&mut *handle.cast::<Session>(), answer, number, index, out)
}

/// Has the values of a row stand side by side.
#[unsafe(no_mangle)]
pub unsafe extern "C" fn hothummei_c_row(
    handle: *mut Handle,
    answer: usize,
    number: usize,
    index: usize,
    out: &mut RowInfo,
) -> u32
    ghost of: { Session }
    requires* { sem 𝓛 (session_at handle of) }
    ensures* { sem 𝓛 (session_or_null handle (λ s. FindsRow of s answer number index out.new result)
        (result ≡ 1)) }
{
    if handle.is_null() {
        return NULL_POINTER;
    }
    reads::row(&mut *handle.cast::<Session>(), answer, number, index, out)
}
