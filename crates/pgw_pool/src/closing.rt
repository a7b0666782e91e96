//! The end of a pool, and of a session that is not to be kept.
ghost use Rattle.std.specs.Prelude.{◌≡◌, [], ◌-◌, false};
ghost use Rattle.pgw_types.specs.Counts.{next_count};
ghost use Rattle.pgw_handlers.specs.Handling.{HasCause};
ghost use Rattle.pgw_client_calls.specs.Closing.{Closed};
ghost use Rattle.pgw_pool.specs.Closing.{first_pool_error};

use crate::lease::Lease;
use crate::pool::Pool;
use crate::session::Session;
use pgw_client::{Dialer, Link, PgWireClientResult};

fn first_error(
    first: PgWireClientResult<()>,
    next: PgWireClientResult<()>,
) -> PgWireClientResult<()>
    ensures { result ≡ first_pool_error first next }
{
    match first {
        Ok(()) => next,
        Err(error) => {
            drop(next);
            Err(error)
        }
    }
}

impl<L: Link> Pool<L> {
    ghost use Rattle.pgw_pool.specs.Views.{idle_in, lefts_in, counts_in, lent_by, out_by, dropped_by, connected_by, room_of, reserved_in, lease_view};
    ghost use Rattle.pgw_pool.specs.Closing.{ClosesIdleSessions};

    /// Ends the pool: takes leave of the server on each idle session, the longest idle one first, and
    /// gives its link back to the dialer, which closes it in each case. The first error is told. It
    /// takes no memory.
    pub fn close<D: Dialer<Link = L>>(self, dialer: &mut D) -> PgWireClientResult<()>
        ensures closed { ClosesIdleSessions (idle_in L.tape L.faults self)
            (D.tape dialer.old) (D.faults dialer.old) []
            (D.tape dialer.new) (D.faults dialer.new) result }
        // The links that the dialer makes next are those that they were.
        ensures offers { D.foretells → D.offers dialer.new ≡ D.offers dialer.old }
    {
        let Pool {
            alloc: _alloc,
            mut idle,
            room: _room,
            lent: _lent,
            out: _out,
            dropped: _dropped,
            connected: _connected,
        } = self;
        let mut result = Ok(());
        'sessions: while let Some(session) = idle.pop_front() {
            let Session {
                client,
                leases: _leases,
            } = session;
            let left = client.close(dialer);
            result = first_error(result, left);
        }
        result
    }

    /// Ends a lease whose session is not to be kept, as one that has been used often or long: takes
    /// leave of the server on it, and gives its link back to the dialer, which closes it in each case.
    /// It takes no memory.
    pub fn retire<D: Dialer<Link = L>>(
        &mut self,
        lease: Lease<L>,
        dialer: &mut D,
    ) -> PgWireClientResult<()>
        ensures room { room_of self.new ≡ room_of self.old }
        ensures reserved { reserved_in self.new ≡ reserved_in self.old }
        ensures lent { lent_by self.new ≡ lent_by self.old }
        ensures out { out_by self.new ≡ out_by self.old - 1 }
        ensures dropped { dropped_by self.new ≡ next_count (dropped_by self.old) }
        ensures connected { connected_by self.new ≡ connected_by self.old }
        // The idle sessions are those that were idle before, so this one is never lent again.
        ensures idle { idle_in L.tape L.faults self.new ≡ idle_in L.tape L.faults self.old }
        ensures lefts { lefts_in L.left self.new ≡ lefts_in L.left self.old }
        ensures had { counts_in self.new ≡ counts_in self.old }
        ensures closed { Closed (lease_view L.tape L.faults lease).broken
            (lease_view L.tape L.faults lease).line.tape
            (lease_view L.tape L.faults lease).line.faults
            (D.tape dialer.old) (D.tape dialer.new)
            (D.faults dialer.old) (D.faults dialer.new) result }
        // IoError comes only where the dialer's count rose.
        ensures cause { HasCause (D.faults dialer.old) (D.faults dialer.new) false result }
        ensures offers { D.foretells → D.offers dialer.new ≡ D.offers dialer.old }
    {
        let Lease {
            client,
            number: _number,
            leases: _leases,
        } = lease;
        self.out = self.out.saturating_sub(1);
        self.dropped = self.dropped.saturating_add(1);
        client.close(dialer)
    }
}
