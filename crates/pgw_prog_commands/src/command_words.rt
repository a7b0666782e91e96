//! The words of `query` and of `check`.
ghost use Rattle.std.specs.Prelude.{◌≡◌, map, string_bytes, IfOk};
ghost use Rattle.pgw_prog_commands.specs.Words.{check_for, query_for};

use crate::options::{Options, Parted, part};
use pgw_types::listed::Listed;
use pgw_types::memory::OutOfMemory;
use pgw_types::text::Text;
use std::alloc::Global;

/// What the words behind `query` ask for. It may hold a password, and shows none by `Debug`, which it has not.
#[derive(Drop)]
pub struct QueryWords {
    pub options: Options,
    pub text: Text,
    pub queries: Listed<Text>,
}

/// What the words behind `check` ask for.
#[derive(Drop)]
pub struct CheckWords {
    pub options: Options,
    pub text: Text,
}

fn texts(alloc: Global, words: &[String]) -> Result<Listed<Text>, OutOfMemory>
    ensures { IfOk result (λ texts. texts ≡ map string_bytes words.now) }
{
    let mut texts = Listed::new(alloc);
    for word in words {
        texts.push(Text::from_str(alloc, word.as_str())?)?;
    }
    Ok(texts)
}

/// The words behind `query`, or none where they are outside the grammar.
pub fn query_words(alloc: Global, words: &[String]) -> Result<Option<QueryWords>, OutOfMemory>
    ensures { IfOk result (λ asked. asked ≡ query_for (map string_bytes words.now)) }
{
    let Some(Parted { options, rest }) = part(alloc, words)? else {
        return Ok(None);
    };
    match rest {
        [text, _, ..] => Ok(Some(QueryWords {
            options,
            text: Text::from_str(alloc, text.as_str())?,
            queries: texts(alloc, &rest[1..])?,
        })),
        _ => Ok(None),
    }
}

/// The words behind `check`, or none where they are outside the grammar. It prints no rows, so it takes no format.
pub fn check_words(alloc: Global, words: &[String]) -> Result<Option<CheckWords>, OutOfMemory>
    ensures { IfOk result (λ asked. asked ≡ check_for (map string_bytes words.now)) }
{
    let Some(Parted { options, rest }) = part(alloc, words)? else {
        return Ok(None);
    };
    match rest {
        [text] if options.format.is_none() => Ok(Some(CheckWords {
            options,
            text: Text::from_str(alloc, text.as_str())?,
        })),
        _ => Ok(None),
    }
}
