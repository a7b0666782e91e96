//! The sessions of a pool, as things to be lent.

use crate::lease::SharedLease;
use crate::ready::Ready;
use pgw_client::Link;
use pgw_pool::Pool;
use pgw_pool_turns::Stock;
use std::marker::Model;

/// A pool, each idle session of which has its history.
#[derive(Drop)]
pub struct Sessions<L: Link> {
    pub(crate) pool: Pool<L>,
}

impl<L: Link> Model for Sessions<L> {
    ghost use Rattle.std.specs.Prelude.{List};
    ghost use Rattle.std.specs.Coded.{codes, coded_list, coded_ℕ};
    ghost use Rattle.std.specs.FinMap as map;
    ghost use Rattle.std.specs.Ordering.{nat_cmp};
    ghost use Rattle.std.specs.Cmp.Lexicographic.{slice_cmp};
    ghost use Rattle.pgw_pool.specs.Histories.{History, AreIdle};
    ghost use Rattle.pgw_pool.specs.Views.{idle_in, lent_by};
    ghost use Rattle.pgw_pool_shared.specs.Shelves.{Shelf};
    ghost use Rattle.pgw_pool_shared.specs.Pools.{shelf_of};

    ghost Value = { Shelf };

    ghost coded = { Prim.hlevel (
      codes,
      map.code {R = slice_cmp nat_cmp} (coded_list coded_ℕ) (coded_list coded_ℕ),
    ) };

    ghost view = { λ s. shelf_of L.tape L.faults s.pool };

    ghost invariant = { λ s. (hs : List History) ×
        AreIdle (lent_by s.pool) hs (idle_in L.tape L.faults s.pool) };
}

impl<L: Link> Stock for Sessions<L> {
    ghost use Rattle.std.specs.Prelude.{length};
    ghost use Rattle.pgw_pool_shared.specs.Shelves.{LendsLease, IsSpent, TakesSession, RefusesSession, LosesSession, IsNewLease};

    type Lent = SharedLease<L>;

    type Back = Ready<L>;

    ghost ready = { λ s. length s.idle };

    ghost room = { λ s. s.room };

    ghost lends = { LendsLease };

    ghost is_spent = { IsSpent };

    ghost takes = { TakesSession };

    ghost refuses = { RefusesSession };

    ghost loses = { LosesSession };

    ghost fresh = { IsNewLease };

    fn ready(&self) -> usize {
        self.pool.idle()
    }

    fn room(&self) -> usize {
        self.pool.capacity()
    }

    fn lend(&mut self) -> Option<SharedLease<L>> {
        match self.pool.lend() {
            Ok(lease) => Some(SharedLease { lease }),
            Err(_) => None,
        }
    }

    // A session of another pool is let go, as far as its number tells; so is a new one without a place.
    fn put(&mut self, back: Ready<L>) -> bool {
        let Ready { spare } = back;
        let number = spare.number();
        if number > self.pool.lent() {
            drop(spare);
            return false;
        }
        if number == 0 && self.pool.idle() + self.pool.out() >= self.pool.capacity() {
            drop(spare);
            return false;
        }
        self.pool.put(spare);
        true
    }

    fn lose(&mut self) {
        self.pool.lose();
    }
}
