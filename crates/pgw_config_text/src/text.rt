//! Connection texts.
ghost use Rattle.std.specs.Prelude.{◌≡◌, IfOk};
ghost use Rattle.std.specs.Option.{option_copied};
ghost use Rattle.pgw_config_text.specs.declared.part.Cut.{Cut as TheCut};
ghost use Rattle.pgw_config_text.specs.Text.{HasCut, url_in};

use crate::key_value::read_pairs;
use crate::part::Cut;
use crate::url::read_url;
use pgw_types::marks::behind_word;
use pgw_types::memory::OutOfMemory;
use std::alloc::Global;

// What stands behind the scheme of a URL.
fn behind_scheme(text: &[u8]) -> Option<&[u8]>
    ensures { option_copied result ≡ url_in text.now }
{
    if let Some(rest) = behind_word(b"postgres://", text) {
        return Some(rest);
    }
    behind_word(b"postgresql://", text)
}

/// The parts of a connection text: of a URL, as `postgres://bob@db.example/sales`, where the text begins with
/// `postgres://` or `postgresql://`, or else of keys and values, as `user=bob dbname='a b'`.
pub fn cut(alloc: Global, text: &str) -> Result<Cut, OutOfMemory>
    ensures cut { IfOk result (HasCut text.now) }
    // A text is cut in one way.
    ensures only { IfOk result (λ cut. (other : TheCut) → HasCut text.now other → other ≡ cut) }
{
    match behind_scheme(text.as_bytes()) {
        Some(rest) => read_url(alloc, rest),
        None => read_pairs(alloc, text),
    }
}
