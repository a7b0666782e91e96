//! What holds of the sessions of a pool.
ghost use Rattle.std.specs.Prelude.{◌≡◌, ℕ, List, [], ◌++◌};
ghost use Rattle.pgw_client_laws.specs.Stands.{AreAnswered};
ghost use Rattle.pgw_pool.specs.Histories.{History, Lent, View, IsIdleInPool, IsLent};
ghost use Rattle.pgw_pool.specs.Sessions.{AreAllAnswered, IsMadeOf};
ghost use Rattle.pgw_pool.specs.Stocks.{Stock, StockSteps, IsStockInOrder};
ghost use Rattle.pgw_pool.specs.Ledgers.{Loan, Ledger, IsLedger, LedgerCall, calls_of, Entries};

use pgw_client_laws::laws::clients_are_sessions;

/// What a session of a pool got and sent is its startup segment, then for each of its leases the segments of that lease's
/// own requests and one of the reset; and while it is lent those of the requests made so far. No request may have been
/// passed over.
pub fn sessions_are_leases()
    ensures idle { (lent : ℕ) (h : History) (v : View) → IsIdleInPool lent h v →
        AreAllAnswered h.over → IsMadeOf h [] v }
    ensures lent { (h : History) (l : Lent) (v : View) → IsLent h l v → AreAllAnswered h.over →
        AreAnswered l.made → IsMadeOf h l.made v }
{
    clients_are_sessions();
}

/// Whatever calls are made of a pool and of its leases, in whatever order, each session that is idle has a history of
/// leases that are over, and each that is out one with its lease so far, if these had one before. These are the histories
/// from before, with what each call has added: a request to its own lease, a lease and its reset to its own session.
pub fn calls_keep_sessions_in_order()
    ensures order { (s t : Stock) → StockSteps s t → IsStockInOrder s → IsStockInOrder t }
    ensures entries { (s t : Stock) (steps : StockSteps s t) (a : Ledger) → IsLedger a s →
        (b : Ledger) × Entries (calls_of s t steps) a b × IsLedger b t }
{}

/// A session that was dropped stays so, whatever calls are made. Only an idle one is lent.
pub fn dropped_sessions_stay()
    ensures { (calls : List LedgerCall) (a b : Ledger) → Entries calls a b →
        (more : List Loan) × (b.dropped ≡ a.dropped ++ more) }
{}
