//! What a pass knows, and the steps on the two words.
use crate::call::Entry;
use crate::held::Held;
use crate::registry::Registry;
use crate::share::Share;
use atomic_table::{Join, Play, Seat, Split, Table, TableRule};
use std::alloc::Global;
use std::collections::LinkedList;
use std::marker::{Brand, PhantomData};

/// A list that was seen, with the numbers whose calls stood in it.
pub struct Old {
    pub seen: LinkedList<Entry>,
    pub numbers: LinkedList<u64>,
}

/// What a pass knows. No value of it is made.
pub struct Sight {
    /// The history that it has seen.
    pub seen: LinkedList<Entry>,
    /// Its number, once it has been told.
    pub own: u64,
    pub named: bool,
    /// Its number, and those of the passes that it took in.
    pub numbers: LinkedList<u64>,
    /// Its share of all calls.
    pub share: Share,
    /// What was seen before a join, until the next load.
    pub one: Old,
    pub two: Old,
    /// It has the turn, and then this is the state after the whole history.
    pub turn: bool,
    pub state: Registry,
}

/// Word 0 is the turn, word 1 the number of events. The slot has the object.
pub struct OneHistory;

impl TableRule<Option<Held>, Sight, ()> for OneHistory {
    ghost use Rattle.pgw_registry.specs.History.{Ruled, founder};

    ghost holds = { λ _. Ruled };

    ghost first = { λ _. founder };
}

pub type Desk = Table<Option<Held>, Sight, (), OneHistory, Global>;

pub type Place = Seat<Option<Held>, Sight>;

/// Which call is made. Each call of a program picks it.
pub trait Asked {
    ghost use Rattle.pgw_registry.specs.declared.call.Call.{Call};

    ghost call: { Call };
}

impl Asked for Brand {
    ghost use Rattle.pgw_registry.specs.declared.call.Call.TheVariants.{NewHandle};

    ghost call = { NewHandle };
}

pub struct TakesTurn;

impl Play<Option<Held>, Sight> for TakesTurn {
    ghost use Rattle.pgw_registry.specs.History.{TookLog};

    ghost then = { TookLog };
}

pub struct LeavesTurn;

impl Play<Option<Held>, Sight> for LeavesTurn {
    ghost use Rattle.pgw_registry.specs.History.{Left};

    ghost then = { Left };
}

pub struct Looks;

impl Play<Option<Held>, Sight> for Looks {
    ghost use Rattle.pgw_registry.specs.History.{Looked};

    ghost then = { Looked };
}

pub struct Names;

impl Play<Option<Held>, Sight> for Names {
    ghost use Rattle.pgw_registry.specs.History.{NamesProcess};

    ghost then = { NamesProcess };
}

pub struct Appends<C> {
    of: PhantomData<C>,
}

impl<C: Asked> Play<Option<Held>, Sight> for Appends<C> {
    ghost use Rattle.pgw_registry.specs.History.{AppendsToLog};

    ghost then = { AppendsToLog C.call };
}

pub struct Passes;

impl Split<Sight> for Passes {
    ghost use Rattle.pgw_registry.specs.History.{halved, newcomer};

    ghost left = { halved };

    ghost right = { newcomer };
}

impl Join<Sight> for Passes {
    ghost use Rattle.pgw_registry.specs.History.{both_of, spent_sight};

    ghost both = { both_of };

    ghost spent = { spent_sight };
}
