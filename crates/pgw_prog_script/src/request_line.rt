//! The requests of a session script.
ghost use Rattle.std.specs.Prelude.{◌≡◌, map, IfOk};
ghost use Rattle.std.specs.Option.{option_copied};
ghost use Rattle.pgw_types.specs.Numbers.{number_in};
ghost use Rattle.pgw_config.specs.Pieces.{pushed, all_read};
ghost use Rattle.pgw_prog_script.specs.RequestLine.{text_in, hex_in, word_in, name_in, signed_in_line, oid_in, format_in, row_limit_in, parameter_in, oids_in, parameters_in, formats_in, prepare_in, bind_in, execute_in, target_in, query_in, extended_in, request_in};

use hex::FromHexError;
use pgw_session::types::{Request, Target};
use pgw_types::listed::Listed;
use pgw_types::marks::{behind_word, cut_at, pieces_at};
use pgw_types::memory::OutOfMemory;
use pgw_types::octets::Octets;
use pgw_types::text::Text;
use std::alloc::Global;
use std::str;

/// The text that bytes are, where they are UTF-8.
#[tactic(auto, unfolding(crate::specs::RequestLine::text_in))]
pub fn read_text(alloc: Global, value: &[u8]) -> Result<Option<Text>, OutOfMemory>
    ensures { IfOk result (λ o. o ≡ text_in value.now) }
{
    match str::from_utf8(value) {
        Ok(text) => Ok(Some(Text::from_str(alloc, text)?)),
        Err(_) => Ok(None),
    }
}

#[tactic(auto, unfolding(crate::specs::RequestLine::word_in))]
fn read_word(alloc: Global, value: &[u8]) -> Result<Option<Text>, OutOfMemory>
    ensures { IfOk result (λ o. o ≡ word_in value.now) }
{
    match cut_at(value, b' ') {
        (_, Some(_)) => Ok(None),
        (_, None) if value.is_empty() => Ok(None),
        (_, None) => read_text(alloc, value),
    }
}

#[tactic(auto, unfolding(crate::specs::RequestLine::name_in))]
fn read_name(alloc: Global, value: &[u8]) -> Result<Option<Option<Text>>, OutOfMemory>
    ensures { IfOk result (λ o. o ≡ name_in value.now) }
{
    if value == b"-".as_slice() {
        return Ok(Some(None));
    }
    Ok(read_word(alloc, value)?.map(Some))
}

// Bytes as the text that they are.
fn as_text(value: &[u8]) -> Option<&str>
    ensures { option_copied result ≡ text_in value.now }
{
    match str::from_utf8(value) {
        Ok(text) => Some(text),
        Err(_) => None,
    }
}

fn parse_u32(text: &str) -> Option<u32>
    ensures { result ≡ number_in 32 text.now }
{
    text.parse::<u32>().ok()
}

fn parse_i16(text: &str) -> Option<i16>
    ensures { result ≡ signed_in_line 16 text.now }
{
    text.parse::<i16>().ok()
}

fn parse_i32(text: &str) -> Option<i32>
    ensures { result ≡ signed_in_line 32 text.now }
{
    text.parse::<i32>().ok()
}

fn read_oid(value: &[u8]) -> Option<u32>
    ensures { result ≡ oid_in value.now }
{
    match as_text(value) {
        Some(text) => parse_u32(text),
        None => None,
    }
}

fn read_format(value: &[u8]) -> Option<i16>
    ensures { result ≡ format_in value.now }
{
    match as_text(value) {
        Some(text) => parse_i16(text),
        None => None,
    }
}

fn read_rows(value: &[u8]) -> Option<i32>
    ensures { result ≡ row_limit_in value.now }
{
    match as_text(value) {
        Some(text) => parse_i32(text),
        None => None,
    }
}

/// The bytes of hex digits, two for each byte.
#[tactic(auto, unfolding(crate::specs::RequestLine::hex_in))]
pub fn read_hex(alloc: Global, digits: &[u8]) -> Result<Option<Octets>, OutOfMemory>
    ensures { IfOk result (λ o. o ≡ hex_in digits.now) }
{
    match hex::decode(alloc, digits) {
        Ok(bytes) => Ok(Some(Octets::from_slice(alloc, &bytes)?)),
        Err(FromHexError::OutOfMemory) => Err(OutOfMemory),
        Err(_) => Ok(None),
    }
}

#[tactic(auto, unfolding(crate::specs::RequestLine::parameter_in))]
fn read_parameter(alloc: Global, value: &[u8]) -> Result<Option<Option<Octets>>, OutOfMemory>
    ensures { IfOk result (λ o. o ≡ parameter_in value.now) }
{
    if value == b"null".as_slice() {
        return Ok(Some(None));
    }
    let Some(digits) = behind_word(b"x", value) else {
        return Ok(None);
    };
    Ok(read_hex(alloc, digits)?.map(Some))
}

/// A list with one element more, if there are both.
pub(crate) fn with_next<T: Drop>(
    all: Option<Listed<T>>,
    next: Option<T>,
) -> Result<Option<Listed<T>>, OutOfMemory>
    ensures { IfOk result (λ r. r ≡ pushed all next) }
{
    match (all, next) {
        (Some(mut all), Some(next)) => {
            all.push(next)?;
            Ok(Some(all))
        }
        _ => Ok(None),
    }
}

fn all_oids(alloc: Global, pieces: &[&[u8]]) -> Result<Option<Listed<u32>>, OutOfMemory>
    ensures { IfOk result (λ all. all ≡ all_read oid_in (map (λ piece. piece.now) pieces.now)) }
{
    let mut all = Some(Listed::new(alloc));
    for piece in pieces {
        all = with_next(all, read_oid(piece))?;
    }
    Ok(all)
}

#[tactic(auto, unfolding(crate::specs::RequestLine::oids_in))]
fn read_oids(alloc: Global, value: &[u8]) -> Result<Option<Listed<u32>>, OutOfMemory>
    ensures { IfOk result (λ o. o ≡ oids_in value.now) }
{
    if value == b"-".as_slice() {
        return Ok(Some(Listed::new(alloc)));
    }
    let pieces = pieces_at(alloc, value, b',')?;
    all_oids(alloc, &pieces)
}

fn all_formats(alloc: Global, pieces: &[&[u8]]) -> Result<Option<Listed<i16>>, OutOfMemory>
    ensures { IfOk result (λ all. all ≡ all_read format_in (map (λ piece. piece.now) pieces.now)) }
{
    let mut all = Some(Listed::new(alloc));
    for piece in pieces {
        all = with_next(all, read_format(piece))?;
    }
    Ok(all)
}

#[tactic(auto, unfolding(crate::specs::RequestLine::formats_in))]
fn read_formats(alloc: Global, value: &[u8]) -> Result<Option<Listed<i16>>, OutOfMemory>
    ensures { IfOk result (λ o. o ≡ formats_in value.now) }
{
    if value == b"-".as_slice() {
        return Ok(Some(Listed::new(alloc)));
    }
    let pieces = pieces_at(alloc, value, b',')?;
    all_formats(alloc, &pieces)
}

fn all_parameters(
    alloc: Global,
    pieces: &[&[u8]],
) -> Result<Option<Listed<Option<Octets>>>, OutOfMemory>
    ensures { IfOk result (λ all. all ≡ all_read parameter_in
        (map (λ piece. piece.now) pieces.now)) }
{
    let mut all = Some(Listed::new(alloc));
    for piece in pieces {
        all = with_next(all, read_parameter(alloc, piece)?)?;
    }
    Ok(all)
}

#[tactic(auto, unfolding(crate::specs::RequestLine::parameters_in))]
fn read_parameters(
    alloc: Global,
    value: &[u8],
) -> Result<Option<Listed<Option<Octets>>>, OutOfMemory>
    ensures { IfOk result (λ o. o ≡ parameters_in value.now) }
{
    if value == b"-".as_slice() {
        return Ok(Some(Listed::new(alloc)));
    }
    let pieces = pieces_at(alloc, value, b',')?;
    all_parameters(alloc, &pieces)
}

#[tactic(auto, unfolding(crate::specs::RequestLine::prepare_in))]
fn read_prepare(alloc: Global, text: &[u8]) -> Result<Option<Request>, OutOfMemory>
    ensures { IfOk result (λ o. o ≡ prepare_in text.now) }
{
    let (name, Some(rest)) = cut_at(text, b' ') else {
        return Ok(None);
    };
    let (oids, Some(sql)) = cut_at(rest, b' ') else {
        return Ok(None);
    };
    let name = read_name(alloc, name)?;
    let oids = read_oids(alloc, oids)?;
    let sql = read_text(alloc, sql)?;
    match (name, oids, sql) {
        (Some(name), Some(oids), Some(sql)) => Ok(Some(Request::Prepare(name, sql, oids))),
        _ => Ok(None),
    }
}

#[tactic(auto, unfolding(crate::specs::RequestLine::bind_in))]
fn read_bind(alloc: Global, text: &[u8]) -> Result<Option<Request>, OutOfMemory>
    ensures { IfOk result (λ o. o ≡ bind_in text.now) }
{
    let (portal, Some(rest)) = cut_at(text, b' ') else {
        return Ok(None);
    };
    let (statement, Some(rest)) = cut_at(rest, b' ') else {
        return Ok(None);
    };
    let (parameters, Some(formats)) = cut_at(rest, b' ') else {
        return Ok(None);
    };
    let portal = read_name(alloc, portal)?;
    let statement = read_name(alloc, statement)?;
    let parameters = read_parameters(alloc, parameters)?;
    let formats = read_formats(alloc, formats)?;
    match (portal, statement, parameters, formats) {
        (Some(portal), Some(statement), Some(parameters), Some(formats)) => Ok(Some(Request::Bind(
            portal, statement, parameters, formats,
        ))),
        _ => Ok(None),
    }
}

#[tactic(auto, unfolding(crate::specs::RequestLine::execute_in))]
fn read_execute(alloc: Global, text: &[u8]) -> Result<Option<Request>, OutOfMemory>
    ensures { IfOk result (λ o. o ≡ execute_in text.now) }
{
    let (portal, Some(rows)) = cut_at(text, b' ') else {
        return Ok(None);
    };
    match (read_name(alloc, portal)?, read_rows(rows)) {
        (Some(portal), Some(rows)) => Ok(Some(Request::Execute(portal, rows))),
        _ => Ok(None),
    }
}

#[tactic(auto, unfolding(crate::specs::RequestLine::target_in))]
fn read_target(alloc: Global, text: &[u8]) -> Result<Option<Target>, OutOfMemory>
    ensures { IfOk result (λ o. o ≡ target_in text.now) }
{
    let (kind, Some(name)) = cut_at(text, b' ') else {
        return Ok(None);
    };
    let name = read_name(alloc, name)?;
    if kind == b"s".as_slice() {
        Ok(name.map(Target::Statement))
    } else if kind == b"p".as_slice() {
        Ok(name.map(Target::Portal))
    } else {
        Ok(None)
    }
}

#[tactic(auto, unfolding(crate::specs::RequestLine::query_in))]
fn read_query(alloc: Global, text: &[u8]) -> Result<Option<Request>, OutOfMemory>
    ensures { IfOk result (λ o. o ≡ query_in text.now) }
{
    let (oids, Some(rest)) = cut_at(text, b' ') else {
        return Ok(None);
    };
    let (parameters, Some(sql)) = cut_at(rest, b' ') else {
        return Ok(None);
    };
    let oids = read_oids(alloc, oids)?;
    let parameters = read_parameters(alloc, parameters)?;
    let sql = read_text(alloc, sql)?;
    match (oids, parameters, sql) {
        (Some(oids), Some(parameters), Some(sql)) => {
            Ok(Some(Request::Query(sql, oids, parameters)))
        }
        _ => Ok(None),
    }
}

#[tactic(auto, unfolding(crate::specs::RequestLine::extended_in))]
fn read_extended(alloc: Global, line: &[u8]) -> Result<Option<Request>, OutOfMemory>
    ensures { IfOk result (λ o. o ≡ extended_in line.now) }
{
    if let Some(text) = behind_word(b"prepare ", line) {
        return read_prepare(alloc, text);
    }
    if let Some(text) = behind_word(b"bind ", line) {
        return read_bind(alloc, text);
    }
    if let Some(text) = behind_word(b"execute ", line) {
        return read_execute(alloc, text);
    }
    if let Some(text) = behind_word(b"query ", line) {
        return read_query(alloc, text);
    }
    Ok(None)
}

/// The request that a line makes, if it does.
#[tactic(auto, unfolding(crate::specs::RequestLine::request_in))]
pub fn read_request(alloc: Global, line: &[u8]) -> Result<Option<Request>, OutOfMemory>
    ensures { IfOk result (λ o. o ≡ request_in line.now) }
{
    if let Some(sql) = behind_word(b"simple ", line) {
        return Ok(read_text(alloc, sql)?.map(Request::Simple));
    }
    if let Some(text) = behind_word(b"describe ", line) {
        return Ok(read_target(alloc, text)?.map(Request::Describe));
    }
    if let Some(text) = behind_word(b"close ", line) {
        return Ok(read_target(alloc, text)?.map(Request::Close));
    }
    read_extended(alloc, line)
}
