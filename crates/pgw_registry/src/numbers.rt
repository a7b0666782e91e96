//! What a seat knows of the numbers, the rule of the word, and the steps on it.

use crate::share::Share;
use atomic_table::{Join, Play, Seat, Split, Table, TableRule};
use std::alloc::Global;
use std::collections::LinkedList;

/// What a seat knows. No value of it is made.
pub struct Hand {
    /// No number below it is drawn.
    pub begins: u64,
    /// The numbers that it drew, and those of the seats that it took in.
    pub drawn: LinkedList<u64>,
    /// The greatest number that it has loaded or drawn.
    pub seen: u64,
    /// The number of seats whose lists it holds.
    pub seats: u64,
    /// It has drawn a number for a seat that is still to be made.
    pub owes: bool,
    /// Its share of all numbers.
    pub share: Share,
}

/// The rule that each number is drawn once. Its key is the first number.
pub struct EachOnce;

impl TableRule<(), Hand, u64> for EachOnce {
    ghost use Rattle.pgw_registry.specs.Numbers.{Ruled, founder};

    ghost holds = { Ruled };

    ghost first = { founder };
}

/// The word from which numbers are drawn.
pub type Word = Table<(), Hand, u64, EachOnce, Global>;

/// The seat with which a thread makes a step.
pub type Place = Seat<(), Hand>;

/// Sees the word.
pub struct Looks;

impl Play<(), Hand> for Looks {
    ghost use Rattle.pgw_registry.specs.Numbers.{Looked};

    ghost then = { Looked };
}

/// Tells that the numbers that it holds differ.
pub struct Compares;

impl Play<(), Hand> for Compares {
    ghost use Rattle.pgw_registry.specs.Numbers.{Compared};

    ghost then = { Compared };
}

/// Draws the number of the word.
pub struct Draws;

impl Play<(), Hand> for Draws {
    ghost use Rattle.pgw_registry.specs.Numbers.{DrewNumber};

    ghost then = { DrewNumber };
}

/// Draws the number of the word for a seat.
pub struct DrawsForSeat;

impl Play<(), Hand> for DrawsForSeat {
    ghost use Rattle.pgw_registry.specs.Numbers.{DrewForSeat};

    ghost then = { DrewForSeat };
}

/// Makes a seat that is owed, and takes a seat in.
pub struct Seats;

impl Split<Hand> for Seats {
    ghost use Rattle.pgw_registry.specs.Numbers.{with_seat_made, newcomer};

    ghost left = { with_seat_made };

    ghost right = { newcomer };
}

impl Join<Hand> for Seats {
    ghost use Rattle.pgw_registry.specs.Numbers.{both_of, spent_hand};

    ghost both = { both_of };

    ghost spent = { spent_hand };
}
