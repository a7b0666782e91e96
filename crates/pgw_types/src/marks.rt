//! Texts that are cut at marks.
ghost use Rattle.std.specs.Prelude.{◌≡◌, ◌<◌, ◌==◌, length, IfOk, IfSome, map, position};
ghost use Rattle.std.specs.Option.{option_copied};
ghost use Rattle.pgw_types.specs.Marks.{before_mark, behind_mark, behind_word as rest_behind, pieces_at as pieces_between};

use std::alloc::{AllocError, Global};

fn mark_in(text: &[u8], mark: u8) -> Option<usize>
    ensures place { result ≡ position (λ b. b == mark) text.now }
    ensures bound { IfSome result (λ at. at < length text.now) }
{
    text.iter().position(|byte| *byte == mark)
}

/// What stands before the first mark, or all, and what stands behind it, if there is one.
#[tactic(auto, unfolding(crate::specs::Marks::before_mark, crate::specs::Marks::behind_mark))]
pub fn cut_at(text: &[u8], mark: u8) -> (&[u8], Option<&[u8]>)
    ensures before { result.0.now ≡ before_mark mark text.now }
    ensures behind { option_copied result.1 ≡ behind_mark mark text.now }
{
    match mark_in(text, mark) {
        Some(at) => (&text[..at], Some(&text[at + 1..])),
        None => (text, None),
    }
}

/// What stands behind a word.
#[tactic(auto, unfolding(crate::specs::Marks::behind_word))]
pub fn behind_word<'a>(word: &[u8], text: &'a [u8]) -> Option<&'a [u8]>
    ensures { option_copied result ≡ rest_behind word.now text.now }
{
    text.strip_prefix(word)
}

/// The pieces of a text between its marks.
pub fn pieces_at(alloc: Global, text: &[u8], mark: u8) -> Result<Vec<&[u8]>, AllocError>
    ensures { IfOk result (λ all. map (λ piece. piece.now) all.items
        ≡ pieces_between mark text.now) }
{
    text.split(|byte| *byte == mark).collect(alloc)
}
