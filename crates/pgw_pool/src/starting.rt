//! The logins of a pool's sessions.
ghost use Rattle.std.specs.Prelude.{◌≡◌, ◌⊎◌, ℕ, List, Option, false, IfOk, IfErr};
ghost use Rattle.pgw_link.specs.Tape.{new_tape};
ghost use Rattle.pgw_link.specs.Dials.{MakesNext};
ghost use Rattle.pgw_client_calls.specs.Line.{Foretold};
ghost use Rattle.pgw_backend.specs.declared.client_error.PgWireClientError.TheVariants as failure;
ghost use Rattle.pgw_handlers.specs.Handling.{HasCause};
ghost use Rattle.pgw_pool.specs.Histories.{IsIdleInPool, new_history};
ghost use Rattle.pgw_pool.specs.Views.{view_of, left_in};
ghost use Rattle.pgw_pool.specs.Starting.{dials, PoolConnects, NotConnects};

use pgw_client::{Config, Dialer, Link, PgWireClientError, PgWireClientResult};
use pgw_client_calls::PgWireClient;
use pgw_client_laws::laws::logins_begin_a_client;
use pgw_handlers_default::DefaultStartupHandler;
use pgw_types::listed::Duplicate;
use std::alloc::Global;

// Logs one session in.
pub(crate) fn log_in<L: Link, D: Dialer<Link = L>>(
    alloc: Global,
    config: &Config,
    nonce: [u8; 18],
    limit: u64,
    dialer: &mut D,
) -> PgWireClientResult<PgWireClient<L>>
    ensures idle { IfOk result (λ client.
        IsIdleInPool 0 (new_history config.now nonce) (view_of L.tape L.faults client)) }
    ensures connects { IfOk result (λ client. PoolConnects config.now limit nonce
        (dials (D.tape dialer.old) (D.offers dialer.old) (D.faults dialer.old))
        (dials (D.tape dialer.new) (D.offers dialer.new) (D.faults dialer.new))
        (view_of L.tape L.faults client)) }
    ensures refused { IfErr result (λ e. NotConnects D.foretells config.now limit nonce
        (dials (D.tape dialer.old) (D.offers dialer.old) (D.faults dialer.old))
        (dials (D.tape dialer.new) (D.offers dialer.new) (D.faults dialer.new)) e
        ⊎ ((e ≡ failure.OutOfMemory)
        × (dials (D.tape dialer.new) (D.offers dialer.new) (D.faults dialer.new)
        ≡ dials (D.tape dialer.old) (D.offers dialer.old) (D.faults dialer.old)))) }
    ensures foretold { D.foretells → IfOk result (λ client. (offer : Option (List ℕ))
        × MakesNext (D.offers dialer.old) (D.offers dialer.new) offer
        × Foretold offer (left_in L.left client) new_tape
        (view_of L.tape L.faults client).line.tape) }
    ensures cause { HasCause (D.faults dialer.old) (D.faults dialer.new) false result }
{
    logins_begin_a_client();
    match config.duplicate() {
        Ok(copy) => {
            PgWireClient::connect(
                alloc,
                copy,
                DefaultStartupHandler::new(nonce),
                dialer,
                limit,
            )
        }
        Err(_) => Err(PgWireClientError::OutOfMemory),
    }
}
