//! A stock, its things that are out, and those who wait.
ghost use Rattle.std.specs.Prelude.{◌≡◌, ◌+◌, ◌-◌, ◌<◌, ◌≤◌, ◌↔◌, IsTrue, IfOk, IfErr, IfSome, OnErr, IfNone, MatchBool, [], ◌⊎◌};
ghost use Rattle.pgw_pool_turns.specs.Rows.{JoinsNone};
ghost use Rattle.pgw_pool_turns.specs.Standings.{IsFree, IsTurn, with_next_turn, gone, lost, claimed, HasPlace, numbers_of, new_standing};
ghost use Rattle.pgw_pool_turns.specs.Desks.{desk_held, IsDeskCounted, DeskLendsFirst, TakesBack, TakesNone, LosesOne};

use crate::stock::Stock;
use crate::waiting::{JoinError, Waiting};
use std::alloc::{AllocError, Global};
use std::marker::Model;

/// A plain object: one thread at a time uses it.
#[derive(Drop)]
pub struct Desk<S: Stock> {
    stock: S,
    room: usize,
    out: usize,
    waiting: Waiting,
}

impl<S: Stock> Model for Desk<S> {
    ghost use Rattle.std.specs.Prelude.{◌≡◌};
    ghost use Rattle.pgw_pool_turns.specs.Standings.{IsWithinRoom, turn_standing};
    ghost use Rattle.pgw_pool_turns.specs.Desks.{TurnStock, desk_held};

    ghost Value = { TurnStock S };

    ghost view = { λ d. desk_held d.stock
        (turn_standing d.room (S.ready d.stock) d.out d.waiting) };

    ghost invariant = { λ d. IsWithinRoom (turn_standing d.room (S.ready d.stock) d.out d.waiting)
        × (d.room ≡ S.room d.stock) };
}

/// How many things there are.
#[derive(Clone, Copy, Debug, PartialEq, Eq, Drop)]
pub struct Numbers {
    /// There is room for so many.
    pub capacity: usize,
    /// These can be lent.
    pub ready: usize,
    /// These are out, or a place is kept for them.
    pub out: usize,
    /// So many wait for one.
    pub waiting: usize,
}

impl<S: Stock> Desk<S> {
    /// Nothing is out, and nobody waits; so many may.
    pub fn new(alloc: Global, stock: S, room_to_wait: usize) -> Result<Desk<S>, AllocError>
        requires { S.ready stock ≤ S.room stock }
        ensures { IfOk result
            (λ d. d ≡ desk_held stock (new_standing (S.room stock) (S.ready stock) room_to_wait)) }
    {
        let room = stock.room();
        Ok(Desk {
            room,
            out: 0,
            waiting: Waiting::new(alloc, room_to_wait)?,
            stock,
        })
    }

    /// The stock, once nobody uses the desk.
    pub fn into_stock(self) -> S
        ensures stock { result ≡ self.stock }
        ensures fits { S.ready result ≤ S.room result }
    {
        let Desk { stock, .. } = self;
        stock
    }

    pub fn numbers(&self) -> Numbers
        ensures numbers { result ≡ numbers_of self.now.counts }
        ensures counted { IsDeskCounted S.ready S.room self.now }
        ensures kept { result.ready + result.out ≤ result.capacity }
    {
        Numbers {
            capacity: self.room,
            ready: self.stock.ready(),
            out: self.out,
            waiting: self.waiting.len(),
        }
    }

    /// Whether one can be lent to who comes now: one is ready, and nobody waits.
    pub fn is_free(&self) -> bool
        ensures free { IsTrue result ↔ IsFree self.now.counts }
        ensures counted { IsDeskCounted S.ready S.room self.now }
    {
        self.stock.ready() > 0 && self.waiting.len() == 0
    }

    /// Whether one can be lent to who has this ticket: one is ready, and the ticket is the first.
    pub fn is_turn(&self, ticket: u64) -> bool
        ensures { IsTrue result ↔ IsTurn ticket self.now.counts }
    {
        self.stock.ready() > 0 && self.waiting.is_first(ticket)
    }

    /// The ticket of who is to be woken: one is ready, and this is the first.
    pub fn due(&self) -> Option<u64>
        ensures due { IfSome result (λ ticket. IsTurn ticket self.now.counts) }
        ensures none { IfNone result ((self.now.counts.ready ≡ 0)
            ⊎ (self.now.counts.row.waiting ≡ [])) }
    {
        if self.stock.ready() == 0 {
            return None;
        }
        self.waiting.first()
    }

    /// A ticket behind those of all who wait. It takes no memory.
    pub fn join(&mut self) -> Result<u64, JoinError>
        ensures joined { IfOk result (λ ticket. (ticket ≡ self.old.counts.row.issued)
            × (self.new ≡ desk_held self.old.stock (with_next_turn self.old.counts))) }
        ensures refused { IfErr result (JoinsNone self.old.counts.row) }
        ensures same { OnErr result (self.new ≡ self.old) }
    {
        self.waiting.join()
    }

    /// Who has this ticket waits no longer.
    pub fn leave(&mut self, ticket: u64)
        ensures counted { IsDeskCounted S.ready S.room self.old }
        ensures gone { self.new ≡ desk_held self.old.stock (gone ticket self.old.counts) }
    {
        self.waiting.leave(ticket)
    }

    fn lend(&mut self) -> Option<S::Lent>
        requires { 0 < self.old.counts.ready }
        ensures counted { IsDeskCounted S.ready S.room self.old }
        ensures fresh { IfSome result S.fresh }
        ensures lends { DeskLendsFirst S.lends S.is_spent self.old self.new result }
    {
        self.waiting.serve();
        let lent = self.stock.lend();
        if lent.is_some() {
            self.out += 1;
        }
        lent
    }

    /// Lends to who comes while nobody waits. None: the stock has lent as many as it ever will.
    pub fn lend_at_once(&mut self) -> Option<S::Lent>
        requires { IsFree self.old.counts }
        ensures fresh { IfSome result S.fresh }
        ensures lends { DeskLendsFirst S.lends S.is_spent self.old self.new result }
    {
        self.lend()
    }

    /// Lends to who has this ticket, which no longer waits, at None neither.
    pub fn lend_to(&mut self, ticket: u64) -> Option<S::Lent>
        requires { IsTurn ticket self.old.counts }
        ensures counted { IsDeskCounted S.ready S.room self.old }
        ensures fresh { IfSome result S.fresh }
        ensures lends { DeskLendsFirst S.lends S.is_spent self.old self.new result }
    {
        let _first = ticket;
        self.lend()
    }

    /// Takes back a thing that was out, and says whether it did. It does not where none is out, or
    /// where the thing is none of the stock's own.
    pub fn put(&mut self, back: S::Back) -> bool
        ensures counted { IsDeskCounted S.ready S.room self.old }
        ensures taken { MatchBool result (TakesBack S.takes S.refuses back self.old self.new)
            (TakesNone S.refuses back self.old × (self.new ≡ self.old)) }
    {
        if self.out == 0 {
            drop(back);
            return false;
        }
        let taken = self.stock.put(back);
        if taken {
            self.out -= 1;
        }
        taken
    }

    /// Fills a place that was kept, and says whether it did. Where the stock does not take the
    /// thing the place is free again.
    pub fn fill(&mut self, back: S::Back) -> bool
        ensures counted { IsDeskCounted S.ready S.room self.old }
        ensures taken { MatchBool result (TakesBack S.takes S.refuses back self.old self.new)
            (TakesNone S.refuses back self.old
            × (self.new ≡ desk_held self.old.stock (lost self.old.counts))) }
    {
        let filled = self.put(back);
        if !filled {
            self.give_up();
        }
        filled
    }

    /// A thing that was out does not come back. The stock is told, where one is out.
    pub fn lose(&mut self)
        ensures { LosesOne S.loses self.old self.new }
    {
        if self.out == 0 {
            return;
        }
        self.stock.lose();
        self.out -= 1;
    }

    /// A place that was kept is free again.
    pub fn give_up(&mut self)
        ensures { self.new ≡ desk_held self.old.stock (lost self.old.counts) }
    {
        self.out = self.out.saturating_sub(1);
    }

    /// Keeps a place for a thing that is to come, where there is one.
    pub fn claim(&mut self) -> bool
        ensures counted { IsDeskCounted S.ready S.room self.old }
        ensures claimed { MatchBool result (HasPlace self.old.counts
            × (self.new ≡ desk_held self.old.stock (claimed self.old.counts)))
            ((self.new ≡ self.old)
            × (self.old.counts.ready + self.old.counts.out ≡ self.old.counts.room)) }
    {
        if self.stock.ready() + self.out >= self.room {
            return false;
        }
        self.out += 1;
        true
    }
}
