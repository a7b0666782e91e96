//! Leases that end by how many their session has had.
ghost use Rattle.std.specs.Prelude.{◌≡◌, ◌<◌, ◌≤◌, ◌+◌, ◌-◌, List, length, false};
ghost use Rattle.pgw_handlers.specs.Handling.{HasCause};
ghost use Rattle.pgw_client_calls.specs.Closing.{Closed};

use crate::lease::Lease;
use crate::pool::Pool;
use crate::returned::Returned;
use pgw_client::{Dialer, Link, PgWireClientResult};

/// How a lease ended.
#[derive(Debug, Drop)]
pub enum LeaseEnd {
    /// Its session had more leases to come, and was given back.
    GivenBack(Returned),
    /// It was the last one of its session. An error says that leave could not be taken of the server.
    Retired(PgWireClientResult<()>),
}

impl<L: Link> Pool<L> {
    ghost use Rattle.pgw_pool.specs.Histories.{History, Lent, IsLent, AreIdle};
    ghost use Rattle.pgw_pool.specs.Views.{idle_in, lefts_in, counts_in, lent_by, out_by, dropped_by, connected_by, room_of, reserved_in, leases_of, left_of, lease_view};
    ghost use Rattle.pgw_pool.specs.Leases.{leases_with_this, AreCounted, counts_behind, BackCounted};
    ghost use Rattle.pgw_pool.specs.Returning.{GivesBack, GivesForetold, GivenBack, DropsFrom};
    ghost use Rattle.pgw_pool.specs.Ending.{IfGivenBack, IfRetired, dropped_by_end};

    /// Gives a lease back as `give_back` does, if its session has had fewer leases than the most, this
    /// one included. Else it retires the session, as `retire` does.
    pub fn give_back_within<D: Dialer<Link = L>>(
        &mut self,
        lease: Lease<L>,
        most: u64,
        dialer: &mut D,
    ) -> LeaseEnd
        requires { length (idle_in L.tape L.faults self.old) < room_of self.old }
        ensures room { room_of self.new ≡ room_of self.old }
        ensures reserved { reserved_in self.new ≡ reserved_in self.old }
        ensures lent { lent_by self.new ≡ lent_by self.old }
        ensures out { out_by self.new ≡ out_by self.old - 1 }
        ensures drops { dropped_by self.new ≡ dropped_by_end (dropped_by self.old) result }
        ensures connected { connected_by self.new ≡ connected_by self.old }
        ensures counts { length (idle_in L.tape L.faults self.new)
            ≤ length (idle_in L.tape L.faults self.old) + 1 }
        // It is given back exactly where its session has had fewer leases, and else retired.
        ensures within { IfGivenBack result (λ returned. leases_of lease < most) }
        ensures past { IfRetired result (λ left. most ≤ leases_of lease) }
        // Of one that is given back, all that `give_back` says; and no dialer is asked.
        ensures gives_back { IfGivenBack result (GivesBack (lease_view L.tape L.faults lease)
            (idle_in L.tape L.faults self.old) (idle_in L.tape L.faults self.new)) }
        ensures foretold { L.foretells → IfGivenBack result (GivesForetold (left_of L.left lease)
            (lease_view L.tape L.faults lease)
            (idle_in L.tape L.faults self.old) (idle_in L.tape L.faults self.new)
            (lefts_in L.left self.old) (lefts_in L.left self.new)) }
        ensures given { (hs : List History) (h : History) (l : Lent) →
            AreIdle (lent_by self.old) hs (idle_in L.tape L.faults self.old) →
            IsLent h l (lease_view L.tape L.faults lease) → l.number ≤ lent_by self.old →
            IfGivenBack result
            (GivenBack (lent_by self.new) hs h l (idle_in L.tape L.faults self.new)) }
        ensures dropped { (h : History) (l : Lent) → IsLent h l (lease_view L.tape L.faults lease) →
            IfGivenBack result (DropsFrom h l (lease_view L.tape L.faults lease)) }
        ensures had { IfGivenBack result (λ returned. counts_in self.new
            ≡ counts_behind (counts_in self.old) (leases_of lease) returned) }
        ensures all_counted { (hs : List History) (h : History) (l : Lent) →
            AreCounted hs (counts_in self.old) → leases_of lease ≡ leases_with_this h →
            IfGivenBack result (BackCounted hs h l (counts_in self.new)) }
        ensures unasked { IfGivenBack result (λ returned. dialer.new ≡ dialer.old) }
        // Of one that is retired, all that `retire` says.
        ensures idle { IfRetired result (λ left.
            idle_in L.tape L.faults self.new ≡ idle_in L.tape L.faults self.old) }
        ensures lefts { IfRetired result (λ left.
            lefts_in L.left self.new ≡ lefts_in L.left self.old) }
        ensures stay { IfRetired result (λ left. counts_in self.new ≡ counts_in self.old) }
        ensures closed { IfRetired result (Closed (lease_view L.tape L.faults lease).broken
            (lease_view L.tape L.faults lease).line.tape
            (lease_view L.tape L.faults lease).line.faults
            (D.tape dialer.old) (D.tape dialer.new)
            (D.faults dialer.old) (D.faults dialer.new)) }
        ensures cause { IfRetired result (λ left.
            HasCause (D.faults dialer.old) (D.faults dialer.new) false left) }
        // In each case the links that the dialer makes next are those that they were.
        ensures offers { D.foretells → D.offers dialer.new ≡ D.offers dialer.old }
    {
        if lease.leases() < most {
            LeaseEnd::GivenBack(self.give_back(lease))
        } else {
            LeaseEnd::Retired(self.retire(lease, dialer))
        }
    }
}
