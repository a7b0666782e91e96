//! What holds of the grammar of each kind of scripts.
ghost use Rattle.pgw_prog_script.specs.Grammar.{ScriptsAreRead, FaultsAreRead, EachTextIsOne};

use crate::lines::Draft;

/// A text in the grammar is read as what its lines say, and of another the first line outside the grammar is told: each
/// text is one of these, and in one way.
pub fn grammar_is_read<D: Draft>()
    ensures scripts { ScriptsAreRead D.form }
    ensures faults { FaultsAreRead D.form }
    ensures one { EachTextIsOne D.form }
{}
