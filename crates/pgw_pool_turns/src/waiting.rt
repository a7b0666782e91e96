//! Those who wait, in the order in which they came.
ghost use Rattle.std.specs.Prelude.{◌≡◌, ◌<◌, ◌↔◌, [], length, IsTrue, IfOk, IfErr, OnErr, slice_get};
ghost use Rattle.pgw_pool_turns.specs.Rows.{Joins, JoinsNone, IsTurnOf, row, without, served};

use std::alloc::{AllocError, Global};
use std::collections::VecDeque;
use std::marker::Model;

/// A row of tickets. Room for all of them is taken as it is made.
#[derive(Drop)]
pub struct Waiting {
    issued: u64,
    tickets: VecDeque<u64>,
    room: usize,
}

impl Model for Waiting {
    ghost use Rattle.std.specs.Prelude.{◌≤◌, ◌+◌};
    ghost use Rattle.std.specs.VecDeque.{deque_capacity};
    ghost use Rattle.pgw_pool_turns.specs.Rows.{TurnRow, row, IsInOrder};

    ghost Value = { TurnRow };

    ghost view = { λ w. row w.room w.issued w.tickets.items };

    ghost invariant = { λ w. IsInOrder (row w.room w.issued w.tickets.items)
        × (w.room ≤ deque_capacity w.tickets) };
}

/// Why no ticket is given.
#[derive(Clone, Copy, Debug, PartialEq, Eq, Drop)]
pub enum JoinError {
    /// As many wait as there is room for.
    Full,
    /// 18446744073709551615 tickets were given.
    Exhausted,
}

impl Waiting {
    /// Nobody waits, and so many may.
    pub fn new(alloc: Global, room: usize) -> Result<Waiting, AllocError>
        ensures { IfOk result (λ w. w ≡ row room 0 []) }
    {
        Ok(Waiting {
            issued: 0,
            tickets: VecDeque::with_capacity(alloc, room)?,
            room,
        })
    }

    /// How many wait.
    pub fn len(&self) -> usize
        ensures { result ≡ length self.now.waiting }
    {
        self.tickets.len()
    }

    /// The next ticket, behind all others. It takes no memory.
    pub fn join(&mut self) -> Result<u64, JoinError>
        ensures joined { IfOk result (Joins self.old self.new) }
        ensures refused { IfErr result (JoinsNone self.old) }
        ensures same { OnErr result (self.new ≡ self.old) }
    {
        if self.tickets.len() >= self.room {
            return Err(JoinError::Full);
        }
        if self.issued == u64::MAX {
            return Err(JoinError::Exhausted);
        }
        let ticket = self.issued;
        self.tickets.push_back_reserved(ticket);
        self.issued += 1;
        Ok(ticket)
    }

    /// Whether it is this ticket's turn.
    pub fn is_first(&self, ticket: u64) -> bool
        ensures { IsTrue result ↔ IsTurnOf ticket self.now }
    {
        match self.tickets.front() {
            Some(first) => *first == ticket,
            None => false,
        }
    }

    /// The ticket whose turn it is.
    pub fn first(&self) -> Option<u64>
        ensures { result ≡ slice_get self.now.waiting 0 }
    {
        self.tickets.front().copied()
    }

    /// The first who waits is served, and no longer waits.
    pub fn serve(&mut self)
        ensures { self.new ≡ served self.old }
    {
        let _served = self.tickets.pop_front();
    }

    /// Who has this ticket waits no longer. The others stay in their order.
    pub fn leave(&mut self, ticket: u64)
        ensures { self.new ≡ without ticket self.old }
    {
        self.tickets.retain(|other| *other != ticket);
    }
}
