//! A pool.
ghost use Rattle.std.specs.Prelude.{◌≡◌, ◌≢◌, ◌<◌, ◌≤◌, List, [], ◌∷◌, ◌++◌, length, replicate, ◌+◌, ◌-◌, false, IfOk, IfErr, IsOk, OnOk};
ghost use Rattle.std.specs.VecDeque.{deque_len, deque_capacity};
ghost use Rattle.pgw_handlers.specs.Handling.{HasCause};

use crate::lease::Lease;
use crate::returned::{Returned, reset};
use crate::session::Session;
use crate::starting::log_in;
use pgw_client::{Config, Dialer, Link, PgWireClientError, PgWireClientResult};
use pgw_client_calls::PgWireClient;
use std::alloc::Global;
use std::collections::VecDeque;

/// Some sessions with one server. Room for all of them is taken as it is started.
#[derive(Drop)]
pub struct Pool<L: Link> {
    pub(crate) alloc: Global,
    // The one that has been idle longest stands first.
    pub(crate) idle: VecDeque<Session<L>>,
    pub(crate) room: usize,
    pub(crate) lent: u64,
    // Its leases that were not given back yet.
    pub(crate) out: usize,
    pub(crate) dropped: u64,
    pub(crate) connected: u64,
    ghost fits: { deque_len idle + out ≤ room },
    ghost reserved: { room ≤ deque_capacity idle },
}

/// Why no session is lent.
#[derive(Clone, Copy, Debug, PartialEq, Eq, Drop)]
pub enum LendError {
    /// None is idle.
    Empty,
    /// 18446744073709551615 leases were lent.
    Exhausted,
}

impl<L: Link> Pool<L> {
    ghost use Rattle.pgw_pool.specs.Histories.{History, Lent, IsLent, AreIdle};
    ghost use Rattle.pgw_pool.specs.Views.{view_of, left_in, idle_in, lefts_in, counts_in, lent_by, out_by, dropped_by, connected_by, room_of, reserved_in, lease_number, leases_of, left_of, lease_view};
    ghost use Rattle.pgw_pool.specs.Leases.{leases_with_this, AreCounted, LendsOne, LendsCounted, counts_behind, BackCounted};
    ghost use Rattle.pgw_pool.specs.Lending.{most_leases, Lends, LendsNone, LendsFirst};
    ghost use Rattle.pgw_pool.specs.Returning.{GivesBack, GivesForetold, GivenBack, DropsFrom, dropped_behind};
    ghost use Rattle.pgw_pool.specs.Starting.{dials, new_histories, ConnectAll, ConnectForetold, NotStarted};

    /// Connects one session for each nonce, with at most one dial each. Each nonce is to be random and
    /// used for no other. Where one fails, those before it are let go.
    pub fn start<D: Dialer<Link = L>>(
        alloc: Global,
        config: &Config,
        nonces: &[[u8; 18]],
        limit: u64,
        dialer: &mut D,
    ) -> PgWireClientResult<Pool<L>>
        ensures room { IfOk result (λ pool. room_of pool ≡ length nonces.now) }
        ensures none { IfOk result (λ pool. lent_by pool ≡ 0) }
        ensures out { IfOk result (λ pool. out_by pool ≡ 0) }
        ensures dropped { IfOk result (λ pool. dropped_by pool ≡ 0) }
        ensures counted { IfOk result (λ pool. connected_by pool ≡ length nonces.now) }
        // Memory is taken for all of them.
        ensures reserved { IfOk result (λ pool. room_of pool ≤ reserved_in pool) }
        // All of them are idle, in the order of the nonces, and none was lent.
        ensures idle { IfOk result (λ pool. AreIdle (lent_by pool)
            (new_histories config.now nonces.now) (idle_in L.tape L.faults pool)) }
        // None has had a lease.
        ensures had { IfOk result (λ pool. counts_in pool ≡ replicate (length nonces.now) 0) }
        ensures all_counted { IfOk result (λ pool.
            AreCounted (new_histories config.now nonces.now) (counts_in pool)) }
        ensures connected { IfOk result (λ pool. ConnectAll config.now limit
            (dials (D.tape dialer.old) (D.offers dialer.old) (D.faults dialer.old)) nonces.now
            (dials (D.tape dialer.new) (D.offers dialer.new) (D.faults dialer.new))
            (idle_in L.tape L.faults pool)) }
        // Of a dialer that knows its offers: the bytes of each login are the front of its dial's offer.
        ensures foretold { D.foretells → IfOk result (λ pool. ConnectForetold config.now limit
            (dials (D.tape dialer.old) (D.offers dialer.old) (D.faults dialer.old)) nonces.now
            (dials (D.tape dialer.new) (D.offers dialer.new) (D.faults dialer.new))
            (lefts_in L.left pool) (idle_in L.tape L.faults pool)) }
        // Else the first that failed gives the error; or memory was wanting between two logins.
        ensures refused { IfErr result (NotStarted D.foretells config.now limit nonces.now
            (dials (D.tape dialer.old) (D.offers dialer.old) (D.faults dialer.old))
            (dials (D.tape dialer.new) (D.offers dialer.new) (D.faults dialer.new))) }
        // IoError comes only where the dialer's count rose, and Broken never.
        ensures cause { HasCause (D.faults dialer.old) (D.faults dialer.new) false result }
    {
        let mut idle = match VecDeque::with_capacity(alloc, nonces.len()) {
            Ok(idle) => idle,
            Err(_) => return Err(PgWireClientError::OutOfMemory),
        };
        for nonce in nonces {
            match log_in(alloc, config, *nonce, limit, dialer) {
                Ok(client) => idle.push_back_reserved(Session { client, leases: 0 }),
                Err(error) => return Err(error),
            }
        }
        Ok(Pool {
            alloc,
            idle,
            room: nonces.len(),
            lent: 0,
            out: 0,
            dropped: 0,
            connected: nonces.len() as u64,
        })
    }

    // Puts a session behind all that are idle, in the room that was taken.
    pub(crate) fn keep(&mut self, client: PgWireClient<L>, leases: u64)
        requires { length (idle_in L.tape L.faults self.old) + out_by self.old < room_of self.old }
        ensures room { room_of self.new ≡ room_of self.old }
        ensures reserved { reserved_in self.new ≡ reserved_in self.old }
        ensures lent { lent_by self.new ≡ lent_by self.old }
        ensures out { out_by self.new ≡ out_by self.old }
        ensures dropped { dropped_by self.new ≡ dropped_by self.old }
        ensures connected { connected_by self.new ≡ connected_by self.old }
        ensures idle { idle_in L.tape L.faults self.new
            ≡ idle_in L.tape L.faults self.old ++ view_of L.tape L.faults client ∷ [] }
        ensures lefts { lefts_in L.left self.new
            ≡ lefts_in L.left self.old ++ left_in L.left client ∷ [] }
        ensures had { counts_in self.new ≡ counts_in self.old ++ leases ∷ [] }
        ensures counts { length (idle_in L.tape L.faults self.new)
            ≡ length (idle_in L.tape L.faults self.old) + 1 }
    {
        self.idle.push_back_reserved(Session { client, leases });
    }

    /// How many sessions it has room for, which are those that it was started with.
    pub fn capacity(&self) -> usize
        ensures { result ≡ room_of self.now }
    {
        self.room
    }

    /// How many of its sessions are idle.
    pub fn idle(&self) -> usize
        ensures counts { result ≡ length (idle_in L.tape L.faults self.now) }
        ensures fits { result ≤ room_of self.now }
        ensures reserved { room_of self.now ≤ reserved_in self.now }
    {
        self.idle.len()
    }

    /// How many of its leases were not given back yet, if each lease that is given back is its own.
    pub fn out(&self) -> usize
        ensures counts { result ≡ out_by self.now }
        ensures fits { length (idle_in L.tape L.faults self.now) + result ≤ room_of self.now }
    {
        self.out
    }

    /// How many sessions it has dropped. The count stays at the greatest u64.
    pub fn dropped(&self) -> u64
        ensures { result ≡ dropped_by self.now }
    {
        self.dropped
    }

    /// How many sessions it has connected. The count stays at the greatest u64.
    pub fn connected(&self) -> u64
        ensures { result ≡ connected_by self.now }
    {
        self.connected
    }

    /// Lends the session that has been idle longest. It takes no memory.
    pub fn lend(&mut self) -> Result<Lease<L>, LendError>
        ensures room { room_of self.new ≡ room_of self.old }
        ensures reserved { reserved_in self.new ≡ reserved_in self.old }
        ensures out { OnOk result (out_by self.new ≡ out_by self.old + 1) }
        ensures dropped { dropped_by self.new ≡ dropped_by self.old }
        ensures connected { connected_by self.new ≡ connected_by self.old }
        // Where one is idle and a number is left, it is lent: no memory is wanted for that.
        ensures lends { idle_in L.tape L.faults self.old ≢ [] → lent_by self.old ≢ most_leases →
            IsOk result }
        ensures lent { IfOk result (λ lease. Lends
            (idle_in L.tape L.faults self.old) (lent_by self.old)
            (idle_in L.tape L.faults self.new) (lent_by self.new)
            (lease_number lease) (lease_view L.tape L.faults lease)) }
        ensures counts { OnOk result (length (idle_in L.tape L.faults self.old)
            ≡ length (idle_in L.tape L.faults self.new) + 1) }
        // So the pool has room for it again.
        ensures fits { OnOk result (length (idle_in L.tape L.faults self.new) < room_of self.new) }
        // Whatever was done over the idle sessions, the first of them is lent, with a lease in which
        // nothing was asked, and status Idle if it was lent before.
        ensures first { (hs : List History) →
            AreIdle (lent_by self.old) hs (idle_in L.tape L.faults self.old) →
            IfOk result (λ lease. LendsFirst hs
            (lent_by self.new) (idle_in L.tape L.faults self.new)
            (lease_number lease) (lease_view L.tape L.faults lease)) }
        // It has had one lease more, and the others as many as before.
        ensures had { IfOk result (λ lease.
            LendsOne (counts_in self.old) (counts_in self.new) (leases_of lease)) }
        ensures all_counted { (hs : List History) → AreCounted hs (counts_in self.old) →
            IfOk result (λ lease. LendsCounted hs (counts_in self.new) (leases_of lease)) }
        // What its link has to come stays.
        ensures foretold { IfOk result (λ lease.
            lefts_in L.left self.old ≡ left_of L.left lease ∷ lefts_in L.left self.new) }
        // Empty comes exactly where none is idle, and else Exhausted exactly where 2^64-1 were lent.
        ensures refused { IfErr result
            (LendsNone (idle_in L.tape L.faults self.old) (lent_by self.old)) }
        ensures same { IfErr result (λ e. self.new ≡ self.old) }
    {
        if self.idle.is_empty() {
            return Err(LendError::Empty);
        }
        if self.lent == u64::MAX {
            return Err(LendError::Exhausted);
        }
        match self.idle.pop_front() {
            Some(session) => {
                let Session { client, leases } = session;
                let leases = leases.saturating_add(1);
                self.lent += 1;
                self.out += 1;
                Ok(Lease {
                    client,
                    number: self.lent,
                    leases,
                })
            }
            None => Err(LendError::Empty),
        }
    }

    /// Asks `DISCARD ALL` of a session whose lease is over. Where that is answered, and no transaction
    /// is open behind it, the session is idle from then on, behind all others. Else it is dropped with
    /// its link. To keep it takes no memory of the pool's own: the room taken for the sessions stays.
    pub fn give_back(&mut self, lease: Lease<L>) -> Returned
        requires { length (idle_in L.tape L.faults self.old) < room_of self.old }
        ensures room { room_of self.new ≡ room_of self.old }
        ensures reserved { reserved_in self.new ≡ reserved_in self.old }
        ensures lent { lent_by self.new ≡ lent_by self.old }
        ensures out { out_by self.new ≡ out_by self.old - 1 }
        ensures drops { dropped_by self.new ≡ dropped_behind (dropped_by self.old) result }
        ensures connected { connected_by self.new ≡ connected_by self.old }
        ensures counts { length (idle_in L.tape L.faults self.new)
            ≤ length (idle_in L.tape L.faults self.old) + 1 }
        // Kept only where that simple query is answered by responses, and the status is Idle.
        ensures gives_back { GivesBack (lease_view L.tape L.faults lease)
            (idle_in L.tape L.faults self.old) (idle_in L.tape L.faults self.new) result }
        // Of a link that knows what is to come: the cause is one that these bytes have.
        ensures foretold { L.foretells → GivesForetold (left_of L.left lease)
            (lease_view L.tape L.faults lease)
            (idle_in L.tape L.faults self.old) (idle_in L.tape L.faults self.new)
            (lefts_in L.left self.old) (lefts_in L.left self.new) result }
        // Whatever was done over the session, the lease and the reset are made besides; and where it
        // is dropped the idle sessions are those that were idle before.
        ensures given { (hs : List History) (h : History) (l : Lent) →
            AreIdle (lent_by self.old) hs (idle_in L.tape L.faults self.old) →
            IsLent h l (lease_view L.tape L.faults lease) → l.number ≤ lent_by self.old →
            GivenBack (lent_by self.new) hs h l (idle_in L.tape L.faults self.new) result }
        ensures dropped { (h : History) (l : Lent) → IsLent h l (lease_view L.tape L.faults lease) →
            DropsFrom h l (lease_view L.tape L.faults lease) result }
        // Where it is kept, its leases are counted with it, this one included.
        ensures had { counts_in self.new
            ≡ counts_behind (counts_in self.old) (leases_of lease) result }
        ensures all_counted { (hs : List History) (h : History) (l : Lent) →
            AreCounted hs (counts_in self.old) → leases_of lease ≡ leases_with_this h →
            BackCounted hs h l (counts_in self.new) result }
    {
        let Lease {
            mut client,
            number: _number,
            leases,
        } = lease;
        self.out = self.out.saturating_sub(1);
        match reset(self.alloc, &mut client) {
            Returned::Kept => {
                self.keep(client, leases);
                Returned::Kept
            }
            Returned::Dropped(cause) => {
                drop(client);
                self.dropped = self.dropped.saturating_add(1);
                Returned::Dropped(cause)
            }
        }
    }
}
