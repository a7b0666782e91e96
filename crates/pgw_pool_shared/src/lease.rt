//! A session that a thread has.
ghost use Rattle.std.specs.Prelude.{◌≡◌, Err, true, false};
ghost use Rattle.pgw_backend.specs.declared.client_error.PgWireClientError.TheVariants as failure;
ghost use Rattle.pgw_handlers.specs.Handling.{HasCause};

use pgw_client::{Answer, Link, PgWireClientResult, Request};
use pgw_pool::Lease;
use std::marker::Model;

/// A session that is lent, until it is given back to its pool. It cannot be let go in another way.
/// Contracts see its number and its view; over that session a login was made, then the requests of
/// leases that are over, each with a reset behind it, and those of this one.
pub struct SharedLease<L: Link> {
    pub(crate) lease: Lease<L>,
}

impl<L: Link> Model for SharedLease<L> {
    ghost use Rattle.std.specs.Coded.{codes, coded_list, coded_ℕ};
    ghost use Rattle.std.specs.FinMap as map;
    ghost use Rattle.std.specs.Ordering.{nat_cmp};
    ghost use Rattle.std.specs.Cmp.Lexicographic.{slice_cmp};
    ghost use Rattle.pgw_pool.specs.Stocks.{Out, leased, IsOut};
    ghost use Rattle.pgw_pool.specs.Views.{lease_number, lease_view};

    ghost Value = { Out };

    ghost coded = { Prim.hlevel (
      codes,
      map.code {R = slice_cmp nat_cmp} (coded_list coded_ℕ) (coded_list coded_ℕ),
    ) };

    ghost view = { λ s. leased (lease_number s.lease) (lease_view L.tape L.faults s.lease) };

    ghost invariant = { λ s. IsOut (lease_number s.lease)
        (leased (lease_number s.lease) (lease_view L.tape L.faults s.lease)) };
}

impl<L: Link> SharedLease<L> {
    ghost use Rattle.pgw_pool.specs.Histories.{History, Lent, IsLent};
    ghost use Rattle.pgw_pool.specs.Lending.{LeaseRan};
    ghost use Rattle.pgw_pool.specs.Stocks.{IsOut};
    ghost use Rattle.pgw_client_ask.specs.Asking.{Asks};
    ghost use Rattle.pgw_client_calls.specs.Line.{StaysWithin};

    /// The first lease of a pool has number 1.
    pub fn number(&self) -> u64
        ensures { result ≡ self.now.number }
    {
        self.lease.number()
    }

    pub fn link(&self) -> &L
        ensures { L.tape result.now ≡ self.now.view.line.tape }
    {
        self.lease.link()
    }

    /// Asks a request by the default handlers, and gives its answer, as `pgw_pool::Lease::run` does.
    pub fn run(&mut self, request: &Request) -> PgWireClientResult<Answer>
        ensures number { self.new.number ≡ self.old.number }
        // Over the session stand its leases before and the requests of this one, or an error has left
        // it unusable.
        ensures out { IsOut self.new.number self.new }
        ensures broken { self.old.view.broken ≡ true →
            (result ≡ Err failure.Broken) × (self.new ≡ self.old) }
        ensures ran { (h : History) (l : Lent) → IsLent h l self.old.view →
            LeaseRan h l request.now self.new.view self.new.view.broken result }
        ensures asks { self.old.view.broken ≡ false →
            Asks request.now self.old.view.client self.old.view.line self.new.view.client
            self.new.view.line self.new.view.broken result }
        ensures cause { HasCause self.old.view.line.faults self.new.view.line.faults
            self.old.view.broken result }
        // No more bytes are read than the pool was given as the limit of a session.
        ensures within { StaysWithin self.old.view.line self.new.view.line }
    {
        self.lease.run(request)
    }
}
