//! A desk that threads share.
ghost use Rattle.std.specs.Prelude.{◌≡◌, ◌≢◌, ◌+◌, ◌≤◌, IfOk, IfErr, IsTrue, false, MatchBool};
ghost use Rattle.std.specs.Sync.Mutex.{mutex_guard_value};
ghost use Rattle.pgw_pool_turns.specs.Standings.{IsTurn, HasPlace, numbers_of};
ghost use Rattle.pgw_pool_turns.specs.Desks.{TurnStock, IsDeskCounted, refusal_for, TakesBack, TakesNone, Lending};

use crate::bells::Bells;
use crate::desk::{Desk, Numbers};
use crate::stock::Stock;
use crate::waiting::JoinError;
use std::alloc::{AllocError, Global};
use std::sync::{Mutex, MutexGuard, Wait};
use std::time::{Clock, Duration};

/// Why nothing is lent.
#[derive(Clone, Copy, Debug, PartialEq, Eq, Drop)]
pub enum LendRefusal {
    /// None came back within the time.
    TimedOut,
    /// As many wait as may.
    Crowded,
    /// The stock, or the row of those who wait, has no number left.
    Exhausted,
}

/// A desk under a lock. Who finds nothing to be lent waits, behind those who came before.
#[derive(Drop)]
pub struct Turns<S: Stock> {
    desk: Mutex<Desk<S>>,
    bells: Bells,
}

fn refusal_of(error: JoinError) -> LendRefusal
    ensures { result ≡ refusal_for error }
{
    match error {
        JoinError::Full => LendRefusal::Crowded,
        JoinError::Exhausted => LendRefusal::Exhausted,
    }
}

impl<S: Stock> Turns<S> {
    pub fn new(alloc: Global, stock: S, room_to_wait: usize) -> Result<Turns<S>, AllocError>
        requires { S.ready stock ≤ S.room stock }
    {
        Ok(Turns {
            desk: Mutex::new(Desk::new(alloc, stock, room_to_wait)?),
            bells: Bells::new(alloc)?,
        })
    }

    /// The stock, once no thread uses it.
    pub fn into_stock(self) -> S
        ensures { S.ready result ≤ S.room result }
    {
        let Turns { desk, bells } = self;
        drop(bells);
        desk.into_inner().into_stock()
    }

    /// How many things there are, at one moment.
    pub fn numbers<R: Wait>(&self, rt: &R) -> Numbers
        ensures numbers { (d : TurnStock S) × IsDeskCounted S.ready S.room d
            × (result ≡ numbers_of d.counts) }
        ensures kept { result.ready + result.out ≤ result.capacity }
    {
        self.desk.lock(rt).numbers()
    }

    // Wakes the one whose turn it is.
    fn tell(&self, desk: MutexGuard<'_, Desk<S>>) {
        let due = desk.due();
        drop(desk);
        if let Some(ticket) = due {
            self.bells.of(ticket).notify_all();
        }
    }

    // Waits for a ticket's turn, and says whether it has come.
    fn wait<'b, R: Wait + Clock>(
        &self,
        rt: &R,
        desk: MutexGuard<'b, Desk<S>>,
        ticket: u64,
        limit: Option<Duration>,
    ) -> (MutexGuard<'b, Desk<S>>, bool)
        ensures turn { IsTrue result.1 → IsTurn ticket (mutex_guard_value result.0).counts }
        ensures late { result.1 ≡ false → ¬ IsTurn ticket (mutex_guard_value result.0).counts }
        ensures endless { limit ≡ None → IsTrue result.1 }
    {
        match limit {
            Some(limit) => {
                let bell = self.bells.of(ticket);
                let (desk, waited) = bell.wait_timeout_while(
                    rt,
                    desk,
                    limit,
                    |desk| !desk.is_turn(ticket),
                );
                let in_time = !waited.timed_out();
                (desk, in_time)
            }
            None => {
                let bell = self.bells.of(ticket);
                let desk = bell.wait_while(rt, desk, |desk| !desk.is_turn(ticket));
                (desk, true)
            }
        }
    }

    /// Lends one to the first who waits. Who waited longer than the limit is refused; None is no
    /// limit.
    pub fn lend<R: Wait + Clock>(
        &self,
        rt: &R,
        limit: Option<Duration>,
    ) -> Result<S::Lent, LendRefusal>
        // Of some desk, which is the one behind the lock as it was at one moment.
        ensures lending { (old : TurnStock S) × (new : TurnStock S) ×
            IsDeskCounted S.ready S.room old
            × Lending S.lends S.is_spent old new result }
        ensures fresh { IfOk result S.fresh }
        // Who waits without a limit is not refused for time.
        ensures endless { limit ≡ None → IfErr result (λ e. e ≢ LendRefusal.TimedOut) }
    {
        let mut desk = self.desk.lock(rt);
        if desk.is_free() {
            return desk.lend_at_once().ok_or(LendRefusal::Exhausted);
        }
        let ticket = match desk.join() {
            Ok(ticket) => ticket,
            Err(error) => return Err(refusal_of(error)),
        };
        let (mut desk, in_time) = self.wait(rt, desk, ticket, limit);
        if !in_time {
            desk.leave(ticket);
            self.tell(desk);
            return Err(LendRefusal::TimedOut);
        }
        let lent = desk.lend_to(ticket);
        self.tell(desk);
        lent.ok_or(LendRefusal::Exhausted)
    }

    /// Takes back a thing that was out, and says whether it did. It does not where none is out, or
    /// where the thing is none of the stock's own.
    pub fn give_back<R: Wait>(&self, rt: &R, back: S::Back) -> bool
        ensures { (old : TurnStock S) × (new : TurnStock S) × IsDeskCounted S.ready S.room old
            × MatchBool result (TakesBack S.takes S.refuses back old new)
            (TakesNone S.refuses back old) }
    {
        let mut desk = self.desk.lock(rt);
        let taken = desk.put(back);
        self.tell(desk);
        taken
    }

    /// Fills a place that was kept, and says whether it did. Where the stock does not take the
    /// thing the place is free again.
    pub fn fill<R: Wait>(&self, rt: &R, back: S::Back) -> bool
        ensures { (old : TurnStock S) × (new : TurnStock S) × IsDeskCounted S.ready S.room old
            × MatchBool result (TakesBack S.takes S.refuses back old new)
            (TakesNone S.refuses back old) }
    {
        let mut desk = self.desk.lock(rt);
        let filled = desk.fill(back);
        self.tell(desk);
        filled
    }

    /// A thing that was out does not come back.
    pub fn lose<R: Wait>(&self, rt: &R) {
        self.desk.lock(rt).lose();
    }

    /// A place that was kept is free again.
    pub fn give_up<R: Wait>(&self, rt: &R) {
        self.desk.lock(rt).give_up();
    }

    /// Keeps a place for a thing that is to come, where there is one: it is filled, or given up.
    pub fn claim<R: Wait>(&self, rt: &R) -> bool
        ensures { (d : TurnStock S) × IsDeskCounted S.ready S.room d
            × MatchBool result (HasPlace d.counts)
            (d.counts.ready + d.counts.out ≡ d.counts.room) }
    {
        self.desk.lock(rt).claim()
    }
}
