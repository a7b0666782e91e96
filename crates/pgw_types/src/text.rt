//! Text.
ghost use Rattle.std.specs.Prelude.{◌≡◌, ◌↔◌, IsTrue, [], ◌<◌, ◌^◌, ◌==◌, length, IfOk, IsUtf8, string_bytes, nat_eq, Some, refl};
ghost use Rattle.std.specs.Ordering.{nat_cmp, as_partial_cmp};
ghost use Rattle.std.specs.Cmp.Lexicographic.{pointwise, slice_cmp, nat_list_eq_equiv, nat_list_cmp_total, texts_ties, texts_po};
ghost use Rattle.std.specs.Cmp.{partial_equiv_from_equiv};
ghost use Rattle.std.specs.Cmp.Rules.{hashing};
ghost use Rattle.std.proofs.Common.{rules};

use crate::listed::Duplicate;
use crate::memory::OutOfMemory;
use std::alloc::{AllocError, Global};
use std::cmp::Ordering;
use std::fmt;
use std::marker::Model;

/// Text, which a contract sees as its UTF-8.
#[derive(Debug, Drop)]
pub struct Text {
    text: String,
}

impl Model for Text {
    ghost use Rattle.std.specs.Prelude.{ℕ, List, IsUtf8, string_bytes};

    ghost Value = { List ℕ };

    ghost view = { λ t. string_bytes t.text };

    ghost invariant = { λ t. IsUtf8 (string_bytes t.text) };
}

impl Text {
    /// The empty text. It takes no memory.
    pub fn new(alloc: Global) -> Text
        ensures { result ≡ [] }
    {
        Text {
            text: String::new(alloc),
        }
    }

    /// A copy of the text.
    pub fn from_str(alloc: Global, text: &str) -> Result<Text, OutOfMemory>
        ensures { IfOk result (λ t. t ≡ text.now) }
    {
        let text = String::from_str(alloc, text)?;
        Ok(Text { text })
    }

    /// The text that a string holds.
    pub fn from_string(text: String) -> Text
        ensures { result ≡ string_bytes text }
    {
        // Tells the proof that the bytes are UTF-8.
        let _ = text.as_str();
        Text { text }
    }

    pub fn into_string(self) -> String
        ensures { string_bytes result ≡ self }
    {
        let Text { text } = self;
        text
    }

    pub fn as_str(&self) -> &str
        ensures value { result.now ≡ self.now }
        ensures utf8 { IsUtf8 self.now }
    {
        self.text.as_str()
    }

    /// The number of UTF-8 bytes.
    pub fn len(&self) -> usize
        ensures value { result ≡ length self.now }
        ensures bound { result < 2 ^ 63 }
    {
        self.text.as_bytes().len()
    }

    pub fn is_empty(&self) -> bool
        ensures { result ≡ (length self.now == 0) }
    {
        self.len() == 0
    }
}

/// The text itself.
impl fmt::Display for Text {
    ghost output = { λ t. Some t };

    fn fmt<W: fmt::Write>(&self, f: &mut fmt::Formatter<W>) -> fmt::Result {
        f.write_str(self.as_str())
    }
}

impl Clone for Text {
    ghost is_clone = { λ x y. y ≡ x };

    fn clone(&self) -> Result<Text, AllocError> {
        Ok(Text {
            text: self.text.clone()?,
        })
    }
}

impl Duplicate for Text {
    fn duplicate(&self) -> Result<Text, OutOfMemory> {
        Ok(self.clone()?)
    }
}

impl Duplicate for (u8, Text) {
    fn duplicate(&self) -> Result<(u8, Text), OutOfMemory> {
        Ok((self.0, self.1.duplicate()?))
    }
}

impl PartialEq for Text {
    ghost eq = { pointwise nat_eq };

    ghost laws = { partial_equiv_from_equiv nat_list_eq_equiv };

    fn eq(&self, other: &Self) -> bool
        ensures value { result ≡ pointwise nat_eq self.now other.now }
        ensures same { IsTrue result ↔ (self.now ≡ other.now) }
    {
        self.as_str() == other.as_str()
    }
}

impl Eq for Text {
    ghost laws = { nat_list_eq_equiv };
}

impl PartialOrd for Text {
    ghost partial_cmp = { λ x y. Some (slice_cmp nat_cmp x y) };

    ghost laws = { texts_po };

    fn partial_cmp(&self, other: &Self) -> Option<Ordering> {
        Some(self.cmp(other))
    }
}

impl Ord for Text {
    ghost cmp = { slice_cmp nat_cmp };

    ghost total = { nat_list_cmp_total };

    ghost matches_partial_cmp = { λ x y. refl };

    ghost matches_eq = { texts_ties };

    fn cmp(&self, other: &Self) -> Ordering {
        self.as_str().cmp(&other.as_str())
    }
}
