//! Command tags.
ghost use Rattle.std.specs.Prelude.{◌≡◌, IfOk, IfSome, None, Some, string_bytes, take};
ghost use Rattle.std.specs.String.Boundary.{IsSplitPoint};
ghost use Rattle.pgw_types.specs.Numbers.{number_in};
ghost use Rattle.pgw_query.specs.Tags.{plain_tag, counted_tag, inserted_tag, tag_of, tag_text};

use crate::response::CommandComplete;
use pgw_types::listed::Duplicate;
use pgw_types::memory::OutOfMemory;
use pgw_types::text::Text;
use std::alloc::Global;

/// What a command did: its name, and how many rows it touched (CommandComplete).
#[derive(Debug, Drop, PartialEq, Eq)]
pub struct Tag {
    pub command: Text,
    pub oid: Option<u32>,
    pub rows: Option<usize>,
}

fn rows_in(text: &str) -> Option<usize>
    ensures { result ≡ number_in 64 text.now }
{
    text.parse::<usize>().ok()
}

fn oid_in(text: &str) -> Option<u32>
    ensures { result ≡ number_in 32 text.now }
{
    text.parse::<u32>().ok()
}

// ---- the words of a text

// A tag whose command is a part of the text.
#[derive(Drop)]
struct Words<'a> {
    command: &'a str,
    oid: Option<u32>,
    rows: Option<usize>,
}

// The whole text.
fn plain(text: &str) -> Words<'_>
    ensures { plain_tag text.now ≡ record {
      command = result.command.now;
      oid = result.oid;
      rows = result.rows;
    } }
{
    Words {
        command: text,
        oid: None,
        rows: None,
    }
}

// A command and its rows, or the whole text.
fn counted<'a>(text: &'a str, command: &'a str, rows: Option<usize>) -> Words<'a>
    ensures { counted_tag text.now command.now rows ≡ record {
      command = result.command.now;
      oid = result.oid;
      rows = result.rows;
    } }
{
    match rows {
        Some(_) => Words {
            command,
            oid: None,
            rows,
        },
        None => plain(text),
    }
}

// A command, an object and its rows, or the whole text.
fn inserted<'a>(text: &'a str, command: &'a str, oid: Option<u32>, rows: Option<usize>) -> Words<'a>
    ensures { inserted_tag text.now command.now oid rows ≡ record {
      command = result.command.now;
      oid = result.oid;
      rows = result.rows;
    } }
{
    match (oid, rows) {
        (Some(_), Some(_)) => Words { command, oid, rows },
        _ => plain(text),
    }
}

#[tactic(auto, unfolding(crate::specs::Tags::tag_of))]
fn words_of(text: &str) -> Words<'_>
    ensures { tag_of text.now ≡ record {
      command = result.command.now;
      oid = result.oid;
      rows = result.rows;
    } }
{
    let mut words = text.split_whitespace();
    let Some(command) = words.next() else {
        return plain(text);
    };
    let Some(second) = words.next() else {
        return plain(text);
    };
    let Some(third) = words.next() else {
        return counted(text, command, rows_in(second));
    };
    match words.next() {
        Some(_) => plain(text),
        None => inserted(text, command, oid_in(second), rows_in(third)),
    }
}

// Where the command ends in a text that begins with it, and the numbers behind it.
#[derive(Clone, Copy, Drop)]
struct Cut {
    len: usize,
    oid: Option<u32>,
    rows: Option<usize>,
}

// The cut of a text that begins with its command.
fn cut_of(text: &String) -> Option<Cut>
    ensures at { IfSome result (λ cut. IsSplitPoint (string_bytes text.now) cut.len) }
    ensures tag { IfSome result (λ cut. tag_of (string_bytes text.now) ≡ record {
      command = take cut.len (string_bytes text.now);
      oid = cut.oid;
      rows = cut.rows;
    }) }
{
    let words = words_of(text.as_str());
    let len = words.command.len();
    if !text.as_bytes().starts_with(words.command.as_bytes()) || !text.is_char_boundary(len) {
        return None;
    }
    Some(Cut {
        len,
        oid: words.oid,
        rows: words.rows,
    })
}

impl Tag {
    /// A command without numbers, as `CREATE TABLE`.
    pub fn new(command: Text) -> Tag
        ensures command { result.command ≡ command }
        ensures oid { result.oid ≡ None }
        ensures rows { result.rows ≡ None }
    {
        Tag {
            command,
            oid: None,
            rows: None,
        }
    }

    /// With the OID of an inserted row, which INSERT tells (0 today).
    pub fn with_oid(self, oid: u32) -> Tag
        ensures command { result.command ≡ self.command }
        ensures oid { result.oid ≡ Some oid }
        ensures rows { result.rows ≡ self.rows }
    {
        Tag {
            command: self.command,
            oid: Some(oid),
            rows: self.rows,
        }
    }

    /// With the number of rows that the command gave or changed.
    pub fn with_rows(self, rows: usize) -> Tag
        ensures command { result.command ≡ self.command }
        ensures oid { result.oid ≡ self.oid }
        ensures rows { result.rows ≡ Some rows }
    {
        Tag {
            command: self.command,
            oid: self.oid,
            rows: Some(rows),
        }
    }

    /// What the text of a CommandComplete says.
    pub fn parse(alloc: Global, text: &str) -> Result<Tag, OutOfMemory>
        ensures { IfOk result (λ tag. tag ≡ tag_of text.now) }
    {
        let words = words_of(text);
        Ok(Tag {
            command: Text::from_str(alloc, words.command)?,
            oid: words.oid,
            rows: words.rows,
        })
    }

    /// What a text says that is given away: where the text begins with the command, no other is made.
    pub fn from_text(alloc: Global, text: Text) -> Result<Tag, OutOfMemory>
        ensures { IfOk result (λ tag. tag ≡ tag_of text) }
    {
        let mut text = text.into_string();
        let Some(cut) = cut_of(&text) else {
            return Tag::parse(alloc, text.as_str());
        };
        text.truncate(cut.len);
        Ok(Tag {
            command: Text::from_string(text),
            oid: cut.oid,
            rows: cut.rows,
        })
    }

    /// The message whose text is the tag's.
    #[tactic(auto, unfolding(crate::specs::Tags::tag_text))]
    pub fn into_command_complete(self, alloc: Global) -> Result<CommandComplete, OutOfMemory>
        ensures { IfOk result (λ m. m.tag ≡ tag_text self) }
    {
        let Some(rows) = self.rows else {
            return Ok(CommandComplete { tag: self.command });
        };
        let command = self.command.as_str();
        let text = match self.oid {
            Some(oid) => format!(in alloc; "{command} {oid} {rows}")?,
            None => format!(in alloc; "{command} {rows}")?,
        };
        Ok(CommandComplete {
            tag: Text::from_string(text),
        })
    }
}

impl Duplicate for Tag {
    fn duplicate(&self) -> Result<Tag, OutOfMemory> {
        Ok(Tag {
            command: self.command.duplicate()?,
            oid: self.oid,
            rows: self.rows,
        })
    }
}
