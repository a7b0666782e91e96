//! The lines of a file of passwords.
ghost use Rattle.std.specs.Prelude.{◌≡◌, ◌<◌, ◌≤◌, ◌==◌, length, take, slice_index, false, IfOk, OnOk, IfSome, option_map};
ghost use Rattle.pgw_secrets.specs.PasswordFile.{without_return, IsFile};
ghost use Rattle.pgw_secrets.specs.PasswordReader.{BeginsFile, IsPasswordLineEnd, SpecialAt, passfile_line, is_special, is_mark, is_escape, colon_from, value_from, password_field, CutAt, CutsIn, PartsIn, AddsPasswordEntry, entry_of};
ghost use Rattle.pgw_secrets.specs.PasswordShown.{password_parts};

use crate::password_file::{Entry, Field};
use pgw_types::listed::{Duplicate, Listed};
use pgw_types::memory::OutOfMemory;
use pgw_types::octets::Octets;
use std::alloc::Global;

// ---- fields

// A colon that no backslash escapes.
fn is_mark(escaped: bool, byte: u8) -> bool
    ensures { result ≡ is_mark escaped byte }
{
    !escaped && byte == b':'
}

// A backslash that none escapes.
fn is_escape(escaped: bool, byte: u8) -> bool
    ensures { result ≡ is_escape escaped byte }
{
    !escaped && byte == b'\\'
}

// A colon or a backslash.
fn is_special(byte: u8) -> bool
    ensures { result ≡ is_special byte }
{
    byte == b':' || byte == b'\\'
}

// The place of the first of these.
fn special_in(text: &[u8]) -> Option<usize>
    ensures { SpecialAt text.now result }
{
    for (i, byte) in text.iter().enumerate() {
        if is_special(*byte) {
            return Some(i);
        }
    }
    None
}

// The place of the first colon that no backslash escapes.
fn colon_in(text: &[u8]) -> Option<usize>
    ensures place { result ≡ colon_from false 0 text.now }
    ensures bound { IfSome result (λ at. at < length text.now) }
{
    match special_in(text) {
        Some(at) => {
            if text[at] == b':' {
                return Some(at);
            }
            scan_for_colon(text)
        }
        None => None,
    }
}

// The place of the first colon that no backslash escapes, byte by byte.
#[tactic(auto, unfolding(crate::specs::PasswordReader::colon_from))]
fn scan_for_colon(text: &[u8]) -> Option<usize>
    ensures place { result ≡ colon_from false 0 text.now }
    ensures bound { IfSome result (λ at. at < length text.now) }
{
    let mut escaped = false;
    for (i, byte) in text.iter().enumerate() {
        if is_mark(escaped, *byte) {
            return Some(i);
        }
        escaped = is_escape(escaped, *byte);
    }
    None
}

// A field as it is written, and what stands behind its colon.
fn cut_field(text: &[u8]) -> Option<(&[u8], &[u8])>
    ensures { CutAt text.now (option_map (λ p. (p.0.now, p.1.now)) result) }
{
    match colon_in(text) {
        Some(at) => Some((&text[..at], &text[at + 1..])),
        None => None,
    }
}

// What is written with a backslash.
#[tactic(auto, unfolding(crate::specs::PasswordReader::value_from))]
fn unescaped(alloc: Global, text: &[u8]) -> Result<Octets, OutOfMemory>
    ensures { IfOk result (λ v. v ≡ value_from false text.now) }
{
    let mut value = Vec::new(alloc);
    let mut escaped = false;
    for byte in text {
        if !escaped && *byte == b'\\' {
            escaped = true;
        } else {
            value.push(*byte)?;
            escaped = false;
        }
    }
    Octets::from_vec(value)
}

// What is written at the front of a file's rest: a cut of the file where no backslash stands in it.
fn value_of(alloc: Global, rest: &Octets, text: &[u8]) -> Result<Octets, OutOfMemory>
    requires { BeginsFile text.now rest.now }
    ensures { IfOk result (λ v. v ≡ value_from false text.now) }
{
    if text.contains(&b'\\') {
        return unescaped(alloc, text);
    }
    rest.slice(0, text.len())
}

fn field_of(alloc: Global, rest: &Octets, text: &[u8]) -> Result<Field, OutOfMemory>
    requires { BeginsFile text.now rest.now }
    ensures { IfOk result (λ f. f ≡ password_field text.now) }
{
    if text == b"*".as_slice() {
        return Ok(Field::Any);
    }
    Ok(Field::Is(value_of(alloc, rest, text)?))
}

// ---- lines

// The parts of a line as they are written.
#[derive(Clone, Copy, Drop)]
struct Parts<'a> {
    host: &'a [u8],
    port: &'a [u8],
    database: &'a [u8],
    user: &'a [u8],
    password: &'a [u8],
}

fn is_comment(line: &[u8]) -> bool
    ensures { result ≡ (slice_index line.now 0 == 35) }
{
    line.starts_with(b"#")
}

// The parts of a line that is no comment.
fn parts_of(line: &[u8]) -> Option<Parts<'_>>
    ensures { CutsIn line.now (option_map password_parts result) }
{
    let Some((host, line)) = cut_field(line) else {
        return None;
    };
    let Some((port, line)) = cut_field(line) else {
        return None;
    };
    let Some((database, line)) = cut_field(line) else {
        return None;
    };
    let Some((user, password)) = cut_field(line) else {
        return None;
    };
    Some(Parts {
        host,
        port,
        database,
        user,
        password,
    })
}

// The parts of an entry.
fn parts_in(line: &[u8]) -> Option<Parts<'_>>
    ensures { PartsIn line.now (option_map password_parts result) }
{
    if is_comment(line) {
        return None;
    }
    parts_of(line)
}

// The entry of a line at the front of a file's rest.
fn entry_of(alloc: Global, rest: &Octets, parts: &Parts<'_>) -> Result<Entry, OutOfMemory>
    requires { BeginsFile (passfile_line (password_parts parts.now)) rest.now }
    ensures { IfOk result (λ e. e ≡ entry_of (password_parts parts.now)) }
{
    let mut rest = rest.duplicate()?;
    let host = field_of(alloc, &rest, parts.host)?;
    rest.advance(parts.host.len() + 1);
    let port = field_of(alloc, &rest, parts.port)?;
    rest.advance(parts.port.len() + 1);
    let database = field_of(alloc, &rest, parts.database)?;
    rest.advance(parts.database.len() + 1);
    let user = field_of(alloc, &rest, parts.user)?;
    rest.advance(parts.user.len() + 1);
    let password = value_of(alloc, &rest, parts.password)?;
    Ok(Entry {
        host,
        port,
        database,
        user,
        password,
    })
}

// Without a carriage return at its end.
fn without_return(line: &[u8]) -> &[u8]
    ensures { result.now ≡ without_return line.now }
{
    let length = line.len();
    if length > 0 && line[length - 1] == b'\r' {
        &line[..length - 1]
    } else {
        line
    }
}

// The place of the first line feed.
fn line_end(text: &[u8]) -> Option<usize>
    ensures { IsPasswordLineEnd text.now result }
{
    for (i, byte) in text.iter().enumerate() {
        if *byte == b'\n' {
            return Some(i);
        }
    }
    None
}

// The line that ends at a place.
fn line_up_to(rest: &[u8], end: usize) -> &[u8]
    requires { end ≤ length rest.now }
    ensures { result.now ≡ without_return (take end rest.now) }
{
    without_return(&rest[..end])
}

// Adds the entry of the line that ends at a place of a file's rest, if it is one.
fn add_line(
    alloc: Global,
    entries: &mut Listed<Entry>,
    rest: &Octets,
    end: usize,
) -> Result<(), OutOfMemory>
    requires { end ≤ length rest.now }
    ensures { OnOk result (AddsPasswordEntry (without_return (take end rest.now)) entries.old
        entries.new) }
{
    let line = line_up_to(rest.as_slice(), end);
    let Some(parts) = parts_in(line) else {
        return Ok(());
    };
    let entry = entry_of(alloc, rest, &parts)?;
    entries.push(entry)
}

/// The entries of a file.
pub(crate) fn read_lines(alloc: Global, bytes: &[u8]) -> Result<Listed<Entry>, OutOfMemory>
    ensures { IfOk result (IsFile bytes.now) }
{
    let mut entries = Listed::new(alloc);
    let mut rest = Octets::from_slice(alloc, bytes)?;
    loop {
        match line_end(rest.as_slice()) {
            Some(end) => {
                add_line(alloc, &mut entries, &rest, end)?;
                rest.advance(end + 1);
            }
            None => {
                add_line(alloc, &mut entries, &rest, rest.len())?;
                return Ok(entries);
            }
        }
    }
}
