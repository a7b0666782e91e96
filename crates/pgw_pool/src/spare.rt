//! A session that no pool holds, and that may be put into one.
ghost use Rattle.std.specs.Prelude.{◌≡◌, ◌≢◌, ◌⊎◌, ◌<◌, ◌≤◌, ◌+◌, ◌-◌, ◌++◌, ◌∷◌, [], ℕ, List, Option, length, false, IfOk, IfErr};
ghost use Rattle.pgw_backend.specs.declared.client_error.PgWireClientError.TheVariants as failure;
ghost use Rattle.pgw_types.specs.Counts.{next_count};
ghost use Rattle.pgw_handlers.specs.Handling.{HasCause};
ghost use Rattle.pgw_link.specs.Tape.{new_tape};
ghost use Rattle.pgw_link.specs.Dials.{MakesNext};
ghost use Rattle.pgw_client_calls.specs.Line.{Foretold};

use crate::lease::Lease;
use crate::pool::Pool;
use crate::returned::{DropCause, Returned, reset};
use crate::starting::log_in;
use pgw_client::{Config, Dialer, Link, PgWireClientResult};
use pgw_client_calls::PgWireClient;
use std::alloc::Global;

/// A session that was logged in and never lent, or whose last lease is over and was reset. With it
/// its link is let go.
#[derive(Drop)]
pub struct Spare<L: Link> {
    pub(crate) client: PgWireClient<L>,
    pub(crate) number: u64,
    pub(crate) leases: u64,
}

impl<L: Link> Spare<L> {
    ghost use Rattle.pgw_pool.specs.Histories.{IsIdleInPool, new_history};
    ghost use Rattle.pgw_pool.specs.Starting.{dials, PoolConnects, NotConnects};
    ghost use Rattle.pgw_pool.specs.Spares.{last_lease, spare_leases, spare_view, spare_left};

    /// Connects a session, with one dial at most. The nonce is to be random and used for no other.
    pub fn connect<D: Dialer<Link = L>>(
        alloc: Global,
        config: &Config,
        nonce: [u8; 18],
        limit: u64,
        dialer: &mut D,
    ) -> PgWireClientResult<Spare<L>>
        ensures number { IfOk result (λ s. last_lease s ≡ 0) }
        ensures had { IfOk result (λ s. spare_leases s ≡ 0) }
        ensures idle { IfOk result (λ s.
            IsIdleInPool 0 (new_history config.now nonce) (spare_view L.tape L.faults s)) }
        ensures connected { IfOk result (λ s. PoolConnects config.now limit nonce
            (dials (D.tape dialer.old) (D.offers dialer.old) (D.faults dialer.old))
            (dials (D.tape dialer.new) (D.offers dialer.new) (D.faults dialer.new))
            (spare_view L.tape L.faults s)) }
        // Of a dialer that knows its offers: the bytes of the login are the front of the next one.
        ensures foretold { D.foretells → IfOk result (λ s. (offer : Option (List ℕ))
            × MakesNext (D.offers dialer.old) (D.offers dialer.new) offer
            × Foretold offer (spare_left L.left s) new_tape
            (spare_view L.tape L.faults s).line.tape) }
        ensures refused { IfErr result (λ e. NotConnects D.foretells config.now limit nonce
            (dials (D.tape dialer.old) (D.offers dialer.old) (D.faults dialer.old))
            (dials (D.tape dialer.new) (D.offers dialer.new) (D.faults dialer.new)) e
            ⊎ ((e ≡ failure.OutOfMemory)
            × (dials (D.tape dialer.new) (D.offers dialer.new) (D.faults dialer.new)
            ≡ dials (D.tape dialer.old) (D.offers dialer.old) (D.faults dialer.old)))) }
        // IoError comes only where the dialer's count rose, and Broken never.
        ensures cause { HasCause (D.faults dialer.old) (D.faults dialer.new) false result }
    {
        match log_in(alloc, config, nonce, limit, dialer) {
            Ok(client) => {
                Ok(Spare {
                    client,
                    number: 0,
                    leases: 0,
                })
            }
            Err(error) => Err(error),
        }
    }

    /// The number of its last lease, or 0.
    pub fn number(&self) -> u64
        ensures { result ≡ last_lease self.now }
    {
        self.number
    }
}

impl<L: Link> Lease<L> {
    ghost use Rattle.pgw_pool.specs.Histories.{History, Lent, IsLent, IsIdleInPool, with_lease};
    ghost use Rattle.pgw_session.specs.Events.{Event};
    ghost use Rattle.pgw_pool.specs.Views.{lease_number, leases_of, left_of, lease_view};
    ghost use Rattle.pgw_pool.specs.Leases.{leases_had, leases_with_this};
    ghost use Rattle.pgw_pool.specs.Returning.{GivesBack, GivesForetold, DropsFrom};
    ghost use Rattle.pgw_pool.specs.Spares.{last_lease, spare_leases, spare_view, spares_in, lefts_of, returned_as, IsSpared};

    /// Ends the lease: asks `DISCARD ALL` of its session, which needs no pool. Where that is answered,
    /// and no transaction is open behind it, the session may be put into a pool. Else it is dropped
    /// with its link.
    pub fn reset(self) -> Result<Spare<L>, DropCause>
        ensures number { IfOk result (λ s. last_lease s ≡ lease_number self) }
        ensures had { IfOk result (λ s. spare_leases s ≡ leases_of self) }
        // As `Pool::give_back` keeps or drops it.
        ensures gives_back { GivesBack (lease_view L.tape L.faults self) []
            (spares_in L.tape L.faults result) (returned_as result) }
        // Of a link that knows what is to come: the cause is one that these bytes have.
        ensures foretold { L.foretells → GivesForetold (left_of L.left self)
            (lease_view L.tape L.faults self) [] (spares_in L.tape L.faults result)
            [] (lefts_of L.left result) (returned_as result) }
        ensures dropped { (h : History) (l : Lent) → IsLent h l (lease_view L.tape L.faults self) →
            DropsFrom h l (lease_view L.tape L.faults self) (returned_as result) }
        // Whatever was done over the session, the lease and the reset are made besides.
        ensures over { (h : History) (l : Lent) → IsLent h l (lease_view L.tape L.faults self) →
            IfOk result (λ s. IsSpared h l (spare_view L.tape L.faults s)) }
        ensures all_counted { (h : History) (l : Lent) → leases_of self ≡ leases_with_this h →
            IfOk result (λ s. (es : List Event) → spare_leases s ≡ leases_had (with_lease h l es)) }
    {
        let Lease {
            mut client,
            number,
            leases,
        } = self;
        match reset(client.alloc(), &mut client) {
            Returned::Kept => {
                Ok(Spare {
                    client,
                    number,
                    leases,
                })
            }
            Returned::Dropped(cause) => {
                drop(client);
                Err(cause)
            }
        }
    }
}

impl<L: Link> Pool<L> {
    ghost use Rattle.pgw_pool.specs.Histories.{History, IsIdleInPool, AreIdle};
    ghost use Rattle.pgw_pool.specs.Views.{idle_in, lefts_in, counts_in, lent_by, out_by, dropped_by, connected_by, room_of, reserved_in};
    ghost use Rattle.pgw_pool.specs.Leases.{leases_had, AreCounted};
    ghost use Rattle.pgw_pool.specs.Spares.{last_lease, spare_leases, spare_left, spare_view};

    /// How many leases it has lent, which is the number of the last one.
    pub fn lent(&self) -> u64
        ensures { result ≡ lent_by self.now }
    {
        self.lent
    }

    /// A session is idle from now on, behind all others: one that was connected, or that comes back
    /// from a lease. It takes no memory.
    pub fn put(&mut self, spare: Spare<L>)
        requires room { length (idle_in L.tape L.faults self.old) < room_of self.old }
        // One that comes back makes room by that.
        requires new { last_lease spare ≡ 0 →
            length (idle_in L.tape L.faults self.old) + out_by self.old < room_of self.old }
        ensures room { room_of self.new ≡ room_of self.old }
        ensures reserved { reserved_in self.new ≡ reserved_in self.old }
        ensures lent { lent_by self.new ≡ lent_by self.old }
        ensures dropped { dropped_by self.new ≡ dropped_by self.old }
        ensures new { last_lease spare ≡ 0 → (out_by self.new ≡ out_by self.old)
            × (connected_by self.new ≡ next_count (connected_by self.old)) }
        ensures back { last_lease spare ≢ 0 → (out_by self.new ≡ out_by self.old - 1)
            × (connected_by self.new ≡ connected_by self.old) }
        ensures idle { idle_in L.tape L.faults self.new
            ≡ idle_in L.tape L.faults self.old ++ spare_view L.tape L.faults spare ∷ [] }
        ensures lefts { lefts_in L.left self.new
            ≡ lefts_in L.left self.old ++ spare_left L.left spare ∷ [] }
        ensures counts { length (idle_in L.tape L.faults self.new)
            ≡ length (idle_in L.tape L.faults self.old) + 1 }
        // Where its last lease is one of this pool's, the pool stands for its history too.
        ensures stands { (hs : List History) (h : History) →
            AreIdle (lent_by self.old) hs (idle_in L.tape L.faults self.old) →
            IsIdleInPool (last_lease spare) h (spare_view L.tape L.faults spare) →
            last_lease spare ≤ lent_by self.old →
            AreIdle (lent_by self.new) (hs ++ h ∷ []) (idle_in L.tape L.faults self.new) }
        // Its leases are counted with it.
        ensures had { counts_in self.new ≡ counts_in self.old ++ spare_leases spare ∷ [] }
        ensures all_counted { (hs : List History) (h : History) →
            AreCounted hs (counts_in self.old) → spare_leases spare ≡ leases_had h →
            AreCounted (hs ++ h ∷ []) (counts_in self.new) }
    {
        let Spare {
            client,
            number,
            leases,
        } = spare;
        if number == 0 {
            self.keep(client, leases);
            self.connected = self.connected.saturating_add(1);
        } else {
            self.out = self.out.saturating_sub(1);
            self.keep(client, leases);
        }
    }

    /// A lease that was out is over, and its session was let go.
    pub fn lose(&mut self)
        ensures room { room_of self.new ≡ room_of self.old }
        ensures reserved { reserved_in self.new ≡ reserved_in self.old }
        ensures lent { lent_by self.new ≡ lent_by self.old }
        ensures out { out_by self.new ≡ out_by self.old - 1 }
        ensures dropped { dropped_by self.new ≡ next_count (dropped_by self.old) }
        ensures connected { connected_by self.new ≡ connected_by self.old }
        ensures idle { idle_in L.tape L.faults self.new ≡ idle_in L.tape L.faults self.old }
        ensures lefts { lefts_in L.left self.new ≡ lefts_in L.left self.old }
        ensures had { counts_in self.new ≡ counts_in self.old }
    {
        self.out = self.out.saturating_sub(1);
        self.dropped = self.dropped.saturating_add(1);
    }
}
