//! Kinds of fields that the extended query has of its own.
ghost use Rattle.std.specs.Prelude.{◌≡◌, ◌+◌, ◌++◌, length, OnOk};
ghost use Rattle.pgw_wire.specs.Framing.{saturated};
ghost use Rattle.pgw_ext.specs.Kinds.{name as name_bytes, is_name_refused as is_name_refused_list};

use pgw_types::memory::OutOfMemory;
use pgw_types::text::Text;
use pgw_wire::writer::{Writer, has_zero, put_text, put_u8};

/// Whether a name holds a zero byte, so that it has no spelling.
pub fn is_name_refused(name: &Option<Text>) -> bool
    ensures { result ≡ is_name_refused_list name.now }
{
    match name {
        Some(text) => has_zero(text),
        None => false,
    }
}

/// Appends a name.
#[tactic(auto, unfolding(crate::specs::Kinds::name))]
pub fn put_name(out: &mut Writer, name: &Option<Text>) -> Result<(), OutOfMemory>
    ensures ok { OnOk result (out.new.body ≡ out.old.body ++ name_bytes name.now) }
    ensures kept { out.new.before ≡ out.old.before }
{
    match name {
        Some(text) => put_text(out, text),
        None => put_u8(out, 0),
    }
}

/// How many bytes a name takes, and some more.
#[tactic(auto, unfolding(crate::specs::Kinds::name, pgw_wire::specs::Writing::text))]
pub fn name_len(name: &Option<Text>, more: usize) -> usize
    ensures { result ≡ saturated (more + length (name_bytes name.now)) }
{
    match name {
        Some(text) => more.saturating_add(text.len() + 1),
        None => more.saturating_add(1),
    }
}
