//! Connection texts that are pairs of a key and a value.
ghost use Rattle.std.specs.Prelude.{◌≡◌, ◌<◌, ◌+◌, [], true, false, length, IfOk, IfSome, not, string_bytes};
ghost use Rattle.std.specs.List.{position, flat_map};
ghost use Rattle.std.specs.Char.{is_whitespace, encode_utf8};
ghost use Rattle.std.specs.Str.{chars};
ghost use Rattle.pgw_config_text.specs.KeyValue.{ends_key, ends_value, IsCut};
ghost use Rattle.pgw_config_text.specs.Reader.{behind_blank, key_at, behind_key, conninfo_value, quoted_by, bare_by, with_value_at, with_key_at, conninfo_front};
ghost use Rattle.pgw_config_text.specs.Shown.{pair_front};

use crate::part::{Cut, Fault, Part};
use pgw_types::listed::Listed;
use pgw_types::memory::OutOfMemory;
use pgw_types::text::Text;
use std::alloc::Global;

fn characters(alloc: Global, text: &str) -> Result<Vec<char>, OutOfMemory>
    ensures { IfOk result (λ all. all.items ≡ chars text.now) }
{
    let mut all = Vec::new(alloc);
    for c in text.chars() {
        all.push(c)?;
    }
    Ok(all)
}

fn is_blank(c: char) -> bool
    ensures { result ≡ is_whitespace c }
{
    c.is_whitespace()
}

// The place of the first character that is no white space.
fn blank_end(text: &[char]) -> Option<usize>
    ensures place { result ≡ position (λ c. not (is_whitespace c)) text.now }
    ensures bound { IfSome result (λ at. at < length text.now) }
{
    text.iter().position(|c| !is_blank(*c))
}

#[tactic(auto, unfolding(crate::specs::Reader::behind_blank))]
fn skip_blank(text: &[char]) -> &[char]
    ensures { result.now ≡ behind_blank text.now }
{
    match blank_end(text) {
        Some(at) => &text[at..],
        None => &[],
    }
}

fn ends_a_key(c: char) -> bool
    ensures { result ≡ ends_key c }
{
    c.is_whitespace() || c == '='
}

// The place of the first character behind a key.
fn key_end(text: &[char]) -> Option<usize>
    ensures place { result ≡ position ends_key text.now }
    ensures bound { IfSome result (λ at. at < length text.now) }
{
    text.iter().position(|c| ends_a_key(*c))
}

#[tactic(auto, unfolding(crate::specs::Reader::key_at, crate::specs::Reader::behind_key))]
fn cut_key(text: &[char]) -> (&[char], &[char])
    ensures key { result.0.now ≡ key_at text.now }
    ensures behind { result.1.now ≡ behind_key text.now }
{
    match key_end(text) {
        Some(at) => text.split_at(at),
        None => (text, &[]),
    }
}

fn ends_a_value(c: char, quoted: bool) -> bool
    ensures { result ≡ ends_value quoted c }
{
    if quoted { c == '\'' } else { c.is_whitespace() }
}

// What a value stands for, and where it ends before the text does.
#[derive(Drop)]
struct Value {
    text: Text,
    end: Option<usize>,
}

fn value_up_to(text: String, end: Option<usize>) -> Value
    ensures text { result.text ≡ string_bytes text }
    ensures end { result.end ≡ end }
{
    Value {
        text: Text::from_string(text),
        end,
    }
}

// What a value stands for, and how many characters of it there are before the one that ends it.
#[tactic(auto, unfolding(crate::specs::Reader::conninfo_value))]
fn read_value(alloc: Global, text: &[char], quoted: bool) -> Result<Value, OutOfMemory>
    ensures value { IfOk result (λ v. (v.text, v.end)
        ≡ conninfo_value (ends_value quoted) false 0 text.now) }
    ensures bound { IfOk result (λ v. IfSome v.end (λ at. at < length text.now)) }
{
    let mut value = String::new(alloc);
    let mut escaped = false;
    for (i, c) in text.iter().enumerate() {
        if !escaped && *c == '\\' {
            escaped = true;
        } else if !escaped && ends_a_value(*c, quoted) {
            return Ok(value_up_to(value, Some(i)));
        } else {
            value.push(*c)?;
            escaped = false;
        }
    }
    Ok(value_up_to(value, None))
}

// The text of characters.
fn text_of(alloc: Global, characters: &[char]) -> Result<Text, OutOfMemory>
    ensures { IfOk result (λ t. t ≡ flat_map encode_utf8 characters.now) }
{
    let mut text = String::new(alloc);
    for c in characters {
        text.push(*c)?;
    }
    Ok(Text::from_string(text))
}

// What stands at the front of a text: nothing but white space, a pair and what is behind it, or
// neither.
#[derive(Drop)]
enum Front<'a> {
    Nothing,
    Faulty,
    Pair(Text, Text, &'a [char]),
}

// The value behind the quote that opens it.
fn read_quoted<'a>(alloc: Global, key: Text, text: &'a [char]) -> Result<Front<'a>, OutOfMemory>
    ensures { IfOk result (λ f. pair_front f ≡ quoted_by key text.now
        (conninfo_value (ends_value true) false 0 text.now)) }
{
    let value = read_value(alloc, text, true)?;
    match value.end {
        Some(at) => Ok(Front::Pair(key, value.text, &text[at + 1..])),
        None => Ok(Front::Faulty),
    }
}

fn read_bare<'a>(alloc: Global, key: Text, text: &'a [char]) -> Result<Front<'a>, OutOfMemory>
    ensures { IfOk result (λ f. pair_front f ≡ bare_by key text.now
        (conninfo_value (ends_value false) false 0 text.now)) }
{
    let value = read_value(alloc, text, false)?;
    if value.text.is_empty() {
        return Ok(Front::Faulty);
    }
    match value.end {
        Some(at) => Ok(Front::Pair(key, value.text, &text[at..])),
        None => Ok(Front::Pair(key, value.text, &[])),
    }
}

// What stands behind the equals sign and white space.
fn read_behind_key<'a>(alloc: Global, key: Text, text: &'a [char]) -> Result<Front<'a>, OutOfMemory>
    ensures { IfOk result (λ f. pair_front f ≡ with_value_at key text.now) }
{
    match text {
        ['\'', inner @ ..] => read_quoted(alloc, key, inner),
        _ => read_bare(alloc, key, text),
    }
}

fn read_from_key(alloc: Global, text: &[char]) -> Result<Front<'_>, OutOfMemory>
    ensures { IfOk result (λ f. pair_front f ≡ with_key_at (key_at text.now)
        (behind_blank (behind_key text.now))) }
{
    let (key, behind) = cut_key(text);
    match skip_blank(behind) {
        ['=', value @ ..] if !key.is_empty() => {
            read_behind_key(alloc, text_of(alloc, key)?, skip_blank(value))
        }
        _ => Ok(Front::Faulty),
    }
}

#[tactic(auto, unfolding(crate::specs::Reader::conninfo_front))]
fn read_front(alloc: Global, text: &[char]) -> Result<Front<'_>, OutOfMemory>
    ensures { IfOk result (λ f. pair_front f ≡ conninfo_front text.now) }
{
    let text = skip_blank(text);
    if text.is_empty() {
        return Ok(Front::Nothing);
    }
    read_from_key(alloc, text)
}

// The pairs of a text up to its end, or up to the first fault of form.
fn cut_all(alloc: Global, text: &[char]) -> Result<Cut, OutOfMemory>
    ensures { IfOk result (λ r. IsCut text.now r.parts r.fault) }
{
    let mut parts = Listed::new(alloc);
    let mut rest = text;
    loop {
        match read_front(alloc, rest)? {
            Front::Nothing => {
                let fault = None;
                return Ok(Cut { parts, fault });
            }
            Front::Faulty => {
                let fault = Some(Fault::Syntax);
                return Ok(Cut { parts, fault });
            }
            Front::Pair(key, value, behind) => {
                parts.push(Part::Pair(key, value))?;
                rest = behind;
            }
        }
    }
}

/// The pairs of a connection text.
pub(crate) fn read_pairs(alloc: Global, text: &str) -> Result<Cut, OutOfMemory>
    ensures { IfOk result (λ r. IsCut (chars text.now) r.parts r.fault) }
{
    let all = characters(alloc, text)?;
    cut_all(alloc, all.as_slice())
}
