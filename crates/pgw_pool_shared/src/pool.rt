//! A pool that threads share.
ghost use Rattle.std.specs.Prelude.{◌≡◌, ◌≢◌, ◌⊎◌, ◌≤◌, ◌+◌, List, [], false, IfOk, IfErr};
ghost use Rattle.pgw_backend.specs.declared.client_error.PgWireClientError.TheVariants as failure;
ghost use Rattle.pgw_handlers.specs.Handling.{HasCause};

use crate::lease::SharedLease;
use crate::ready::Ready;
use crate::sessions::Sessions;
use pgw_client::{Config, Dialer, Link, PgWireClientError, PgWireClientResult};
use pgw_pool::{DropCause, Pool, Spare};
use pgw_pool_turns::{LendRefusal, Numbers, Turns};
use std::alloc::Global;
use std::sync::Wait;
use std::time::{Clock, Duration};

/// Some sessions with one server, which threads share.
#[derive(Drop)]
pub struct SharedPool<L: Link> {
    alloc: Global,
    turns: Turns<Sessions<L>>,
}

/// What became of a session that was given back.
#[derive(Debug, Drop)]
pub enum GivenBack {
    /// It is idle, behind all others, or its next holder has it.
    Kept,
    /// It is let go with its link: the reset failed, or left a transaction open. Its place is free.
    Dropped(DropCause),
    /// It is none of this pool's sessions, as far as can be told, and let go with its link.
    Foreign,
}

/// Whether a place was filled.
#[derive(Clone, Copy, Debug, PartialEq, Eq, Drop)]
pub enum Refilled {
    /// A session more is idle, or its first holder has it.
    Added,
    /// No place is free.
    Full,
    /// A session was connected, but by then another pool's lease had its place: it is let go.
    Displaced,
}

impl<L: Link> SharedPool<L> {
    ghost use Rattle.pgw_pool_turns.specs.declared.turns.LendRefusal.TheVariants.{TimedOut};
    ghost use Rattle.pgw_pool.specs.Histories.{History, View, AreIdle};
    ghost use Rattle.pgw_pool.specs.Views.{idle_in, lent_by};
    ghost use Rattle.pgw_pool.specs.Starting.{dials, ConnectAll, PoolConnects, NotConnects};
    ghost use Rattle.pgw_pool.specs.Returning.{GivesBack};
    ghost use Rattle.pgw_pool_shared.specs.Shelves.{IsNewLease, NotShared, returned_by_pool, IsRefilled};

    /// Connects one session for each nonce, with at most one dial each. Each nonce is to be random and
    /// used for no other. Where one fails, those before it are let go. So many threads may wait at a
    /// time; room for them is taken now.
    pub fn start<D: Dialer<Link = L>>(
        alloc: Global,
        config: &Config,
        nonces: &[[u8; 18]],
        limit: u64,
        dialer: &mut D,
        room_to_wait: usize,
    ) -> PgWireClientResult<SharedPool<L>>
        // Else no pool was started; or memory was wanting for those who wait, behind all logins.
        ensures refused { IfErr result (NotShared D.foretells config.now limit nonces.now
            (dials (D.tape dialer.old) (D.offers dialer.old) (D.faults dialer.old))
            (dials (D.tape dialer.new) (D.offers dialer.new) (D.faults dialer.new))) }
        ensures connected { IfOk result (λ pool. (vs : List View) × ConnectAll config.now limit
            (dials (D.tape dialer.old) (D.offers dialer.old) (D.faults dialer.old)) nonces.now
            (dials (D.tape dialer.new) (D.offers dialer.new) (D.faults dialer.new)) vs) }
        ensures cause { HasCause (D.faults dialer.old) (D.faults dialer.new) false result }
    {
        let pool = match Pool::start(alloc, config, nonces, limit, dialer) {
            Ok(pool) => pool,
            Err(error) => return Err(error),
        };
        match Turns::new(alloc, Sessions { pool }, room_to_wait) {
            Ok(turns) => Ok(SharedPool { alloc, turns }),
            Err(_) => Err(PgWireClientError::OutOfMemory),
        }
    }

    /// The pool, once no thread shares it. Its leases are to be given back before: a shared lease goes
    /// to a shared pool alone.
    pub fn into_pool(self) -> Pool<L>
        // Over each of its idle sessions stand a login and its leases, each with a reset behind it.
        ensures { (hs : List History) ×
            AreIdle (lent_by result) hs (idle_in L.tape L.faults result) }
    {
        let SharedPool {
            alloc: _alloc,
            turns,
        } = self;
        let Sessions { pool } = turns.into_stock();
        pool
    }

    /// How many sessions are idle and how many out, for how many there is room, and how many threads
    /// wait, at one moment. A session that is being reset or logged in is out.
    pub fn numbers<R: Wait>(&self, rt: &R) -> Numbers
        ensures { result.ready + result.out ≤ result.capacity }
    {
        self.turns.numbers(rt)
    }

    /// Lends the session that has been idle longest, to the thread that has waited longest. It takes
    /// no memory. A thread waits for a session for the time given, or where that is None until it
    /// gets one; zero is not to wait.
    pub fn lend<R: Wait + Clock>(
        &self,
        rt: &R,
        time: Option<Duration>,
    ) -> Result<SharedLease<L>, LendRefusal>
        // Over the session stand its leases before, each with a reset behind it, and nothing was asked
        // in this one.
        ensures lent { IfOk result IsNewLease }
        // Who waits without a time is not refused for it.
        ensures endless { time ≡ None → IfErr result (λ e. e ≢ TimedOut) }
    {
        self.turns.lend(rt, time)
    }

    /// Ends a lease: asks `DISCARD ALL` of its session while no other thread waits for that. Where it
    /// is answered, and no transaction is open behind it, the session is idle, or lent to the thread
    /// that has waited longest. Else it is dropped with its link.
    pub fn give_back<R: Wait>(&self, rt: &R, lease: SharedLease<L>) -> GivenBack
        // By the answer of the reset, as `pgw_pool::Pool::give_back` keeps or drops a session.
        ensures { (now : List View) × GivesBack lease.view [] now (returned_by_pool result) }
    {
        let SharedLease { lease } = lease;
        match lease.reset() {
            Ok(spare) => {
                if self.turns.give_back(rt, Ready { spare }) {
                    GivenBack::Kept
                } else {
                    GivenBack::Foreign
                }
            }
            Err(cause) => {
                self.turns.lose(rt);
                GivenBack::Dropped(cause)
            }
        }
    }

    /// Connects a session for a place that is free, with at most one dial, while no other thread waits
    /// for that. Where it fails the place is free again. The nonce is to be random and used for no
    /// other.
    pub fn refill<D: Dialer<Link = L>, R: Wait>(
        &self,
        rt: &R,
        config: &Config,
        nonce: [u8; 18],
        limit: u64,
        dialer: &mut D,
    ) -> PgWireClientResult<Refilled>
        ensures refilled { IfOk result (IsRefilled config.now limit nonce
            (dials (D.tape dialer.old) (D.offers dialer.old) (D.faults dialer.old))
            (dials (D.tape dialer.new) (D.offers dialer.new) (D.faults dialer.new))) }
        ensures refused { IfErr result (λ e. NotConnects D.foretells config.now limit nonce
            (dials (D.tape dialer.old) (D.offers dialer.old) (D.faults dialer.old))
            (dials (D.tape dialer.new) (D.offers dialer.new) (D.faults dialer.new)) e
            ⊎ ((e ≡ failure.OutOfMemory)
            × (dials (D.tape dialer.new) (D.offers dialer.new) (D.faults dialer.new)
            ≡ dials (D.tape dialer.old) (D.offers dialer.old) (D.faults dialer.old)))) }
    {
        if !self.turns.claim(rt) {
            return Ok(Refilled::Full);
        }
        match Spare::connect(self.alloc, config, nonce, limit, dialer) {
            Ok(spare) => {
                if self.turns.fill(rt, Ready { spare }) {
                    Ok(Refilled::Added)
                } else {
                    Ok(Refilled::Displaced)
                }
            }
            Err(error) => {
                self.turns.give_up(rt);
                Err(error)
            }
        }
    }
}
