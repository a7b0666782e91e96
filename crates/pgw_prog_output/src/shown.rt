//! A value as people are shown it.
ghost use Rattle.std.specs.Prelude.{◌≡◌, ◌++◌, string_bytes, IfOk, OnOk};
ghost use Rattle.pgw_prog_output.specs.Shown.{visible, printed_value as shown_of, without_controls};

use pgw_types::memory::OutOfMemory;
use pgw_types::octets::Octets;
use std::alloc::{AllocError, Global};

#[tactic(auto, unfolding(crate::specs::Shown::visible))]
fn put_visible(out: &mut String, c: char) -> Result<(), AllocError>
    ensures { OnOk result (string_bytes out.new ≡ string_bytes out.old ++ visible c) }
{
    match c {
        '\n' => out.push_str("\\n"),
        '\r' => out.push_str("\\r"),
        '\t' => out.push_str("\\t"),
        _ if c.is_control() => out.push('\u{fffd}'),
        _ => out.push(c),
    }
}

/// A text without control characters.
pub fn plain(alloc: Global, text: &str) -> Result<String, OutOfMemory>
    ensures { IfOk result (λ plain. string_bytes plain ≡ without_controls text.now) }
{
    let mut plain = String::new(alloc);
    for c in text.chars() {
        put_visible(&mut plain, c)?;
    }
    Ok(plain)
}

/// A value as people are shown it; NULL is the word.
#[tactic(auto, unfolding(crate::specs::Shown::printed_value))]
pub fn shown(alloc: Global, value: &Option<Octets>) -> Result<String, OutOfMemory>
    ensures { IfOk result (λ text. string_bytes text ≡ shown_of value.now) }
{
    match value {
        Some(bytes) => {
            let text = String::from_utf8_lossy(alloc, bytes.as_slice())?;
            plain(alloc, text.as_str())
        }
        None => Ok(String::from_str(alloc, "NULL")?),
    }
}
