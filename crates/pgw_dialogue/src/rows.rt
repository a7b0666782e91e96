//! The rows of a result, which a session takes together and without what other messages need.
ghost use Rattle.std.specs.Prelude.{IfOk, OnOk};
ghost use Rattle.std.specs.Bool.{Decides};
ghost use Rattle.pgw_query.specs.Runs.{HasNoRow};
ghost use Rattle.pgw_dialogue.specs.Rows.{AddsRows, TakesRows, RowsTaken};

use crate::inbox::Inbox;
use pgw_session::notes::Notes;
use pgw_session::stage::{Kind, Stage};
use pgw_session::tally::Tally;
use pgw_types::memory::OutOfMemory;

/// Whether rows may come now, each of which changes nothing but what the open segment gave.
pub fn takes_rows(notes: &Notes) -> bool
    ensures { Decides result (TakesRows notes.now) }
{
    if notes.first_passed.is_some() || notes.tally.remote.is_some() {
        return false;
    }
    match &notes.stage {
        Stage::Answering(kind, rows) => match kind {
            Kind::Simple => *rows,
            Kind::Execute | Kind::Query => true,
            _ => false,
        },
        Stage::PassingOver => true,
        _ => false,
    }
}

// Adds the rows that stand whole at the inbox's front to those of the open result, or else of the portal.
fn add_rows(tally: &mut Tally, inbox: &mut Inbox) -> Result<usize, OutOfMemory>
    ensures rows { IfOk result (AddsRows tally.old tally.new inbox.old inbox.new) }
    ensures all { OnOk result (HasNoRow inbox.new) }
{
    match &mut tally.opened {
        Some(opened) => inbox.take_rows(&mut opened.rows),
        None => inbox.take_rows(&mut tally.rows),
    }
}

/// Takes the rows that stand whole at the inbox's front, all of them; answers whether there was one.
pub fn take_rows(notes: &mut Notes, inbox: &mut Inbox) -> Result<bool, OutOfMemory>
    requires { TakesRows notes.old }
    ensures taken { IfOk result (λ some. RowsTaken some notes.old notes.new inbox.old inbox.new) }
    ensures all { OnOk result (HasNoRow inbox.new) }
{
    let count = add_rows(&mut notes.tally, inbox)?;
    Ok(count > 0)
}
