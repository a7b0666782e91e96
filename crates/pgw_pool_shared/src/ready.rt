//! A session that may be lent again.

use pgw_client::Link;
use pgw_pool::Spare;
use std::marker::Model;

/// A session that was logged in, or whose last lease was reset, and which has its history.
#[derive(Drop)]
pub struct Ready<L: Link> {
    pub(crate) spare: Spare<L>,
}

impl<L: Link> Model for Ready<L> {
    ghost use Rattle.std.specs.Coded.{codes, coded_list, coded_ℕ};
    ghost use Rattle.std.specs.FinMap as map;
    ghost use Rattle.std.specs.Ordering.{nat_cmp};
    ghost use Rattle.std.specs.Cmp.Lexicographic.{slice_cmp};
    ghost use Rattle.pgw_pool.specs.Spares.{last_lease, spare_view};
    ghost use Rattle.pgw_pool.specs.Histories.{History, IsIdleInPool};
    ghost use Rattle.pgw_pool_shared.specs.Shelves.{Rested, rested};

    ghost Value = { Rested };

    ghost coded = { Prim.hlevel (
      codes,
      map.code {R = slice_cmp nat_cmp} (coded_list coded_ℕ) (coded_list coded_ℕ),
    ) };

    ghost view = { λ r. rested (last_lease r.spare) (spare_view L.tape L.faults r.spare) };

    ghost invariant = { λ r. (h : History) ×
        IsIdleInPool (last_lease r.spare) h (spare_view L.tape L.faults r.spare) };
}
