//! IP addresses as text (RFC 4291, section 2.2).
ghost use Rattle.std.specs.Prelude.{◌≡◌, ◌+◌, ◌++◌, ◌==◌, ◌<◌, IfOk, OnOk, IfSome, Some, length, slice_index};
ghost use Rattle.std.specs.List.{position};
ghost use Rattle.pgw_config.specs.Pieces.{all_read};
ghost use Rattle.pgw_config.specs.HostAddr.{digits_in, exactly, octet_of, v4_of, group_of, as_groups, tail_of, last_group, behind_colons, cut_by, filled, groups_of, v6_of, addr_of};

use crate::config::HostAddr;
use crate::lists::{pieces, with_next};
use pgw_types::listed::Listed;
use pgw_types::memory::OutOfMemory;
use pgw_types::text::Text;
use std::alloc::Global;

fn has_plus(text: &str) -> bool
    ensures { result ≡ (slice_index text.now 0 == 43) }
{
    text.as_bytes().first() == Some(&b'+')
}

fn read_decimal(text: &str) -> Option<u8>
    ensures { result ≡ digits_in 10 8 text.now }
{
    if has_plus(text) {
        return None;
    }
    text.parse::<u8>().ok()
}

fn read_hexadecimal(text: &str) -> Option<u16>
    ensures { result ≡ digits_in 16 16 text.now }
{
    if has_plus(text) {
        return None;
    }
    u16::from_str_radix(text, 16).ok()
}

#[tactic(auto, unfolding(crate::specs::HostAddr::octet_of))]
fn read_octet(text: &str) -> Option<u8>
    ensures { result ≡ octet_of text.now }
{
    if text.len() > 1 && text.as_bytes().first() == Some(&b'0') {
        return None;
    }
    read_decimal(text)
}

#[tactic(auto, unfolding(crate::specs::HostAddr::group_of))]
fn read_group(text: &str) -> Option<u16>
    ensures { result ≡ group_of text.now }
{
    if text.len() < 5 {
        read_hexadecimal(text)
    } else {
        None
    }
}

fn read_octets(alloc: Global, texts: &[Text]) -> Result<Option<Listed<u8>>, OutOfMemory>
    ensures { IfOk result (λ r. r ≡ all_read octet_of texts.now) }
{
    let mut all = Some(Listed::new(alloc));
    for text in texts {
        all = with_next(all, read_octet(text.as_str()))?;
    }
    Ok(all)
}

fn read_groups(alloc: Global, texts: &[Text]) -> Result<Option<Listed<u16>>, OutOfMemory>
    ensures { IfOk result (λ r. r ≡ all_read group_of texts.now) }
{
    let mut all = Some(Listed::new(alloc));
    for text in texts {
        all = with_next(all, read_group(text.as_str()))?;
    }
    Ok(all)
}

#[tactic(auto, unfolding(crate::specs::HostAddr::v4_of))]
fn read_v4(alloc: Global, text: &str) -> Result<Option<[u8; 4]>, OutOfMemory>
    ensures { IfOk result (λ r. r ≡ v4_of text.now) }
{
    let texts = pieces(alloc, text, '.')?;
    let Some(octets) = read_octets(alloc, texts.as_slice())? else {
        return Ok(None);
    };
    match octets.as_slice() {
        [a, b, c, d] => Ok(Some([*a, *b, *c, *d])),
        _ => Ok(None),
    }
}

// The two groups that an IPv4 text stands for.
fn as_groups(alloc: Global, octets: [u8; 4]) -> Result<Listed<u16>, OutOfMemory>
    ensures { IfOk result (λ all. all ≡ as_groups octets) }
{
    let mut all = Listed::new(alloc);
    all.push(256 * octets[0] as u16 + octets[1] as u16)?;
    all.push(256 * octets[2] as u16 + octets[3] as u16)?;
    Ok(all)
}

// The groups of the last piece, which may be an IPv4 text.
fn read_last(alloc: Global, texts: &[Text]) -> Result<Option<Listed<u16>>, OutOfMemory>
    ensures { IfOk result (λ r. r ≡ last_group texts.now) }
{
    let Some(text) = texts.first() else {
        return Ok(Some(Listed::new(alloc)));
    };
    match read_v4(alloc, text.as_str())? {
        Some(octets) => Ok(Some(as_groups(alloc, octets)?)),
        None => with_next(Some(Listed::new(alloc)), read_group(text.as_str())),
    }
}

fn append(all: &mut Listed<u16>, groups: &[u16]) -> Result<(), OutOfMemory>
    ensures { OnOk result (all.new ≡ all.old ++ groups.now) }
{
    for group in groups {
        all.push(*group)?;
    }
    Ok(())
}

#[tactic(auto, unfolding(crate::specs::HostAddr::tail_of))]
fn read_tail(alloc: Global, texts: &[Text]) -> Result<Option<Listed<u16>>, OutOfMemory>
    ensures { IfOk result (λ r. r ≡ tail_of texts.now) }
{
    let (front, last) = texts.split_at(texts.len().saturating_sub(1));
    let Some(mut all) = read_groups(alloc, front)? else {
        return Ok(None);
    };
    let Some(groups) = read_last(alloc, last)? else {
        return Ok(None);
    };
    append(&mut all, groups.as_slice())?;
    Ok(Some(all))
}

// What stands behind a `::`.
fn read_end(alloc: Global, texts: &[Text]) -> Result<Option<Listed<u16>>, OutOfMemory>
    ensures { IfOk result (λ r. r ≡ behind_colons texts.now) }
{
    match texts {
        [] => Ok(None),
        [text] if text.is_empty() => Ok(Some(Listed::new(alloc))),
        _ => read_tail(alloc, texts),
    }
}

// The groups before and behind a `::`, and those that it stands for.
fn fill(front: Listed<u16>, back: &[u16]) -> Result<Option<Listed<u16>>, OutOfMemory>
    ensures { IfOk result (λ r. r ≡ filled (Some front) (Some back.now)) }
{
    let mut all = front;
    if all.as_slice().len() >= 8 || back.len() >= 8 - all.as_slice().len() {
        return Ok(None);
    }
    let zeros = 8 - all.as_slice().len() - back.len();
    append(&mut all, &[0; 8][..zeros])?;
    append(&mut all, back)?;
    Ok(Some(all))
}

fn read_around(
    alloc: Global,
    front: &[Text],
    back: &[Text],
) -> Result<Option<Listed<u16>>, OutOfMemory>
    ensures { IfOk result (λ r. r ≡ filled (all_read group_of front.now) (behind_colons back.now)) }
{
    let Some(groups) = read_groups(alloc, front)? else {
        return Ok(None);
    };
    match read_end(alloc, back)? {
        Some(end) => fill(groups, end.as_slice()),
        None => Ok(None),
    }
}

fn empty_piece(texts: &[Text]) -> Option<usize>
    ensures place { result ≡ position (λ piece. length piece == 0) texts.now }
    ensures bound { IfSome result (λ at. at < length texts.now) }
{
    texts.iter().position(|text| text.is_empty())
}

fn read_cut(alloc: Global, texts: &[Text]) -> Result<Option<Listed<u16>>, OutOfMemory>
    ensures { IfOk result (λ r. r ≡ cut_by texts.now
        (position (λ piece. length piece == 0) texts.now)) }
{
    match empty_piece(texts) {
        None => read_tail(alloc, texts),
        Some(0) => Ok(None),
        Some(at) => read_around(alloc, &texts[..at], &texts[at + 1..]),
    }
}

fn read_pieces(alloc: Global, texts: &[Text]) -> Result<Option<Listed<u16>>, OutOfMemory>
    ensures { IfOk result (λ r. r ≡ groups_of texts.now) }
{
    match texts {
        [first, second, back @ ..] if first.is_empty() && second.is_empty() => {
            read_around(alloc, &[], back)
        }
        _ => read_cut(alloc, texts),
    }
}

fn all_eight(groups: &[u16]) -> Option<[u16; 8]>
    ensures { result ≡ exactly 8 (Some groups.now) }
{
    match groups {
        [a, b, c, d, e, f, g, h] => Some([*a, *b, *c, *d, *e, *f, *g, *h]),
        _ => None,
    }
}

#[tactic(auto, unfolding(crate::specs::HostAddr::v6_of))]
fn read_v6(alloc: Global, text: &str) -> Result<Option<[u16; 8]>, OutOfMemory>
    ensures { IfOk result (λ r. r ≡ v6_of text.now) }
{
    let texts = pieces(alloc, text, ':')?;
    let Some(groups) = read_pieces(alloc, texts.as_slice())? else {
        return Ok(None);
    };
    Ok(all_eight(groups.as_slice()))
}

/// The address that a text writes: IPv4 with four numbers, or IPv6 without a zone.
#[tactic(auto, unfolding(crate::specs::HostAddr::addr_of))]
pub(crate) fn read_addr(alloc: Global, text: &str) -> Result<Option<HostAddr>, OutOfMemory>
    ensures { IfOk result (λ r. r ≡ addr_of text.now) }
{
    if let Some(octets) = read_v4(alloc, text)? {
        return Ok(Some(HostAddr::V4(octets)));
    }
    Ok(read_v6(alloc, text)?.map(HostAddr::V6))
}
