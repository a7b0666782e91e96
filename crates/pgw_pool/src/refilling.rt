//! Sessions in place of those that were dropped.
ghost use Rattle.std.specs.Prelude.{◌≡◌, ◌⊎◌, ◌<◌, ◌++◌, ◌∷◌, [], ℕ, List, Option, length, ◌+◌, false, IfErr, OnOk, OnErr};
ghost use Rattle.pgw_backend.specs.declared.client_error.PgWireClientError.TheVariants as failure;
ghost use Rattle.pgw_types.specs.Counts.{next_count};
ghost use Rattle.pgw_handlers.specs.Handling.{HasCause};

use crate::pool::Pool;
use crate::starting::log_in;
use pgw_client::{Config, Dialer, Link, PgWireClientResult};

impl<L: Link> Pool<L> {
    ghost use Rattle.pgw_pool.specs.Histories.{History, new_history, AreIdle};
    ghost use Rattle.pgw_pool.specs.Views.{idle_in, lefts_in, counts_in, lent_by, out_by, dropped_by, connected_by, room_of, reserved_in};
    ghost use Rattle.pgw_pool.specs.Leases.{AreCounted};
    ghost use Rattle.pgw_pool.specs.Starting.{dials, Refills, RefillsForetold, NotConnects};

    /// Connects a session in place of one that was lost, with at most one dial. It stands behind all
    /// that are idle. The nonce is to be random and used for no other. An error leaves the pool as it
    /// was.
    pub fn refill<D: Dialer<Link = L>>(
        &mut self,
        config: &Config,
        nonce: [u8; 18],
        limit: u64,
        dialer: &mut D,
    ) -> PgWireClientResult<()>
        requires { length (idle_in L.tape L.faults self.old) + out_by self.old < room_of self.old }
        ensures room { room_of self.new ≡ room_of self.old }
        ensures reserved { reserved_in self.new ≡ reserved_in self.old }
        ensures lent { lent_by self.new ≡ lent_by self.old }
        ensures out { out_by self.new ≡ out_by self.old }
        ensures dropped { dropped_by self.new ≡ dropped_by self.old }
        ensures connected { OnOk result (connected_by self.new ≡ next_count
            (connected_by self.old)) }
        ensures refills { OnOk result (Refills config.now limit nonce
            (dials (D.tape dialer.old) (D.offers dialer.old) (D.faults dialer.old))
            (dials (D.tape dialer.new) (D.offers dialer.new) (D.faults dialer.new))
            (idle_in L.tape L.faults self.old) (idle_in L.tape L.faults self.new)) }
        // What the links of the others have to come stays.
        ensures lefts { OnOk result ((left : Option (List ℕ)) ×
            (lefts_in L.left self.new ≡ lefts_in L.left self.old ++ left ∷ [])) }
        // Whatever was done over the idle sessions, one more is idle behind them, of which none was
        // lent.
        ensures given { (hs : List History) →
            AreIdle (lent_by self.old) hs (idle_in L.tape L.faults self.old) →
            OnOk result (AreIdle (lent_by self.new) (hs ++ new_history config.now nonce ∷ [])
            (idle_in L.tape L.faults self.new)) }
        // It has had no lease.
        ensures had { OnOk result (counts_in self.new ≡ counts_in self.old ++ 0 ∷ []) }
        ensures all_counted { (hs : List History) → AreCounted hs (counts_in self.old) →
            OnOk result (AreCounted (hs ++ new_history config.now nonce ∷ [])
            (counts_in self.new)) }
        // Of a dialer that knows its offers: the bytes of the login are the front of the next one.
        ensures foretold { D.foretells → OnOk result (RefillsForetold config.now limit nonce
            (dials (D.tape dialer.old) (D.offers dialer.old) (D.faults dialer.old))
            (dials (D.tape dialer.new) (D.offers dialer.new) (D.faults dialer.new))
            (idle_in L.tape L.faults self.old) (idle_in L.tape L.faults self.new)
            (lefts_in L.left self.old) (lefts_in L.left self.new)) }
        // Else the login failed, and why; or memory was wanting, and the dialer tells what it told.
        ensures refused { IfErr result (λ e. NotConnects D.foretells config.now limit nonce
            (dials (D.tape dialer.old) (D.offers dialer.old) (D.faults dialer.old))
            (dials (D.tape dialer.new) (D.offers dialer.new) (D.faults dialer.new)) e
            ⊎ ((e ≡ failure.OutOfMemory)
            × (dials (D.tape dialer.new) (D.offers dialer.new) (D.faults dialer.new)
            ≡ dials (D.tape dialer.old) (D.offers dialer.old) (D.faults dialer.old)))) }
        ensures same { OnErr result (self.new ≡ self.old) }
        // IoError comes only where the dialer's count rose, and Broken never.
        ensures cause { HasCause (D.faults dialer.old) (D.faults dialer.new) false result }
    {
        match log_in(self.alloc, config, nonce, limit, dialer) {
            Ok(client) => {
                self.keep(client, 0);
                self.connected = self.connected.saturating_add(1);
                Ok(())
            }
            Err(error) => Err(error),
        }
    }
}
