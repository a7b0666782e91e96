//! Scripts of every kind, line by line.
ghost use Rattle.std.specs.Prelude.{◌≡◌, ◌<◌, ◌∷◌, ◌==◌, Some, None, length, OnOk, IfOk, IfSome, position, if◌then◌else◌};
ghost use Rattle.pgw_prog_script.specs.Form.{Form, lines_of, step, read_script, ReadsScript};

use memchr::memchr;
use pgw_types::memory::OutOfMemory;
use std::alloc::Global;

/// Why a text is no script.
#[derive(Clone, Copy, Debug, PartialEq, Eq)]
pub enum ScriptFault {
    /// The number of the first line outside the grammar.
    Line(u64),
    OutOfMemory,
}

impl From<OutOfMemory> for ScriptFault {
    ghost use Rattle.pgw_prog_script.specs.declared.lines.ScriptFault.TheVariants.{OutOfMemory as NoMemory};

    ghost from_gives = { λ _ e. e ≡ NoMemory };

    fn from(_e: OutOfMemory) -> ScriptFault {
        ScriptFault::OutOfMemory
    }
}

/// A script of one kind, as far as its lines were read.
pub trait Draft: Drop {
    type Script: Drop;

    /// What a line says.
    ghost Line: { Type 0 };

    /// Where in a script a line stands.
    ghost Place: { Type 0 };

    /// The grammar.
    ghost form: { Form Line Place Self.Script };

    /// The place of the line that was read last.
    ghost place: { Self → Place };

    /// What the lines that were read say.
    ghost script: { Self → Self.Script };

    /// What holds of each script, however far it was read.
    ghost Holds: { Self.Script → Type 0 };

    /// No line was read.
    fn new(alloc: Global) -> Self
        ensures place { place result ≡ form.start }
        ensures script { script result ≡ form.first }
        ensures holds { Holds (script result) };

    /// Reads a line and takes it, where it is in the grammar and may stand here. Behind one that is not, the draft is of
    /// no use.
    fn read(&mut self, alloc: Global, line: &[u8]) -> Result<bool, OutOfMemory>
        ensures step { IfOk result (λ went. step form (place self.old) (script self.old)
            (form.line_of line.now)
            ≡ (if went then Some (place self.new, script self.new) else None)) }
        ensures holds { OnOk result (Holds (script self.old) → Holds (script self.new)) };

    /// Whether the script may end here.
    fn may_end(&self) -> bool
        ensures { result ≡ form.may_end (place self.now) };

    /// The script.
    fn finish(self) -> Self::Script
        ensures { result ≡ script self };
}

// The place of the first line feed.
fn line_end(text: &[u8]) -> Option<usize>
    ensures place { result ≡ position (λ b. b == 10) text.now }
    ensures bound { IfSome result (λ end. end < length text.now) }
{
    memchr(b'\n', text)
}

// The first line of a text, and what stands behind it.
fn first_line(text: &[u8]) -> (&[u8], &[u8])
    requires { 0 < length text.now }
    ensures lines { lines_of text.now ≡ result.0.now ∷ lines_of result.1.now }
    ensures less { length result.1.now < length text.now }
{
    match line_end(text) {
        None => (text, b""),
        Some(end) => {
            let (line, _) = text.split_at(end);
            let (_, behind) = text.split_at(end + 1);
            (line, behind)
        }
    }
}

/// Reads a whole script.
pub fn read_whole<D: Draft>(alloc: Global, text: &[u8]) -> Result<D::Script, ScriptFault>
    ensures exact { ReadsScript result (read_script D.form text.now) }
    ensures holds { IfOk result D.Holds }
{
    let mut draft = D::new(alloc);
    let mut number = 0u64;
    let mut rest = text;
    while rest.len() > 0 {
        let (line, behind) = first_line(rest);
        number += 1;
        if !draft.read(alloc, line)? {
            return Err(ScriptFault::Line(number));
        }
        rest = behind;
    }
    if draft.may_end() {
        Ok(draft.finish())
    } else {
        Err(ScriptFault::Line(number + 1))
    }
}
