//! Preparation of names and passwords.
ghost use Rattle.std.specs.Prelude.{◌≡◌, IfOk, IsNone, chars};
ghost use Rattle.std.specs.List.{list_any};
ghost use Rattle.std.specs.Char.{is_ascii_control};
ghost use Rattle.pgw_hash.specs.Saslprep.{saslprep};

use pgw_types::memory::OutOfMemory;
use pgw_types::text::Text;
use std::alloc::Global;
use unicode_normalization::to_nfkc;

/// A text prepared, or `None` where it holds an ASCII control character.
#[tactic(auto, unfolding(crate::specs::Saslprep::saslprep))]
pub fn saslprep(alloc: Global, text: &str) -> Result<Option<Text>, OutOfMemory>
    ensures value { IfOk result (λ form. form ≡ saslprep text.now) }
    ensures refused { IsNone (saslprep text.now) → result ≡ Ok None }
{
    if has_control(text) {
        return Ok(None);
    }
    let form = to_nfkc(alloc, text)?;
    Ok(Some(Text::from_string(form)))
}

fn has_control(text: &str) -> bool
    ensures { result ≡ list_any is_ascii_control (chars text.now) }
{
    text.chars().any(|c| c.is_ascii_control())
}
