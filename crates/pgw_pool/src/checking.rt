//! Sessions that are checked before they are lent.
ghost use Rattle.std.specs.Prelude.{◌≡◌, ◌<◌, List, length, ◌+◌, Result, IfOk, IfErr, OnOk, OnErr};
ghost use Rattle.pgw_backend.specs.declared.client_error.PgWireClientError.{PgWireClientError as TheError};
ghost use Rattle.pgw_session.specs.declared.types.Response.{Response as TheResponse};
ghost use Rattle.pgw_client_calls.specs.Line.{Foretold};
ghost use Rattle.pgw_pool.specs.Histories.{check};
ghost use Rattle.pgw_pool.specs.Views.{view_of, left_in};
ghost use Rattle.pgw_pool.specs.Returning.{IsAskedIn};
ghost use Rattle.pgw_pool.specs.Checking.{is_empty_query, fit_by_status, fit_by};

use crate::lease::Lease;
use crate::pool::Pool;
use crate::returned::{DropCause, cause_of};
use crate::session::Session;
use pgw_client::{Link, Listed, PgWireClientResult, Response, TransactionStatus};
use pgw_client_calls::{ClientInfo, PgWireClient};
use pgw_client_laws::laws::{simple_queries_are_segments, simple_queries_follow_one_another};
use pgw_handlers_default::DefaultSimpleQueryHandler;
use std::alloc::Global;

/// Why a session is not fit to be lent.
#[derive(Debug, Drop)]
pub enum Unfit {
    /// The empty query was answered by something else than one empty query.
    Answered(Listed<Response>),
    /// For this a session that is given back would be dropped too.
    Dropped(DropCause),
}

/// Why no session that still answers is lent.
#[derive(Debug, Drop)]
pub enum CheckError {
    /// None is idle.
    Empty,
    /// 18446744073709551615 leases were lent.
    Exhausted,
    /// The one that had been idle longest is not fit, and is dropped with its link. The next one may
    /// be tried.
    Unfit(Unfit),
}

// Asks an empty query.
fn ask_check<L: Link>(
    alloc: Global,
    client: &mut PgWireClient<L>,
) -> PgWireClientResult<Listed<Response>>
    ensures asked { IsAskedIn check (view_of L.tape L.faults client.old)
        (view_of L.tape L.faults client.new) result }
    ensures foretold { L.foretells →
        Foretold (left_in L.left client.old) (left_in L.left client.new)
        (view_of L.tape L.faults client.old).line.tape
        (view_of L.tape L.faults client.new).line.tape }
{
    simple_queries_are_segments();
    simple_queries_follow_one_another();
    let handler = DefaultSimpleQueryHandler::new(alloc);
    client.simple_query(handler, "")
}

fn is_empty_query(responses: &Listed<Response>) -> bool
    ensures { result ≡ is_empty_query responses.now }
{
    match responses.as_slice() {
        [Response::EmptyQuery] => true,
        _ => false,
    }
}

fn fit_by_status(status: TransactionStatus) -> Result<(), Unfit>
    ensures { result ≡ fit_by_status status }
{
    match status {
        TransactionStatus::Idle => Ok(()),
        other => Err(Unfit::Dropped(DropCause::Status(other))),
    }
}

fn fit_by(
    answer: PgWireClientResult<Listed<Response>>,
    status: TransactionStatus,
    broken: bool,
) -> Result<(), Unfit>
    ensures { result ≡ fit_by answer status broken }
{
    match answer {
        Ok(responses) => {
            if is_empty_query(&responses) {
                drop(responses);
                fit_by_status(status)
            } else {
                Err(Unfit::Answered(responses))
            }
        }
        Err(error) => Err(Unfit::Dropped(cause_of(error, broken))),
    }
}

// Checks whether a session is fit.
#[tactic(auto, using(crate::proofs::CheckLaws::is_told))]
fn look_at<L: Link>(alloc: Global, client: &mut PgWireClient<L>) -> Result<(), Unfit>
    ensures asked { (a : Result (List TheResponse) TheError) ×
        IsAskedIn check (view_of L.tape L.faults client.old) (view_of L.tape L.faults client.new) a
        × (result ≡ fit_by a (view_of L.tape L.faults client.new).client.transaction_status
        (view_of L.tape L.faults client.new).broken) }
    ensures foretold { L.foretells →
        Foretold (left_in L.left client.old) (left_in L.left client.new)
        (view_of L.tape L.faults client.old).line.tape
        (view_of L.tape L.faults client.new).line.tape }
{
    let answer = ask_check(alloc, client);
    fit_by(answer, client.transaction_status(), client.is_broken())
}

impl<L: Link> Pool<L> {
    ghost use Rattle.std.specs.Prelude.{Ok};
    ghost use Rattle.pgw_pool.specs.Histories.{History, AreIdle};
    ghost use Rattle.pgw_pool.specs.Views.{idle_in, lefts_in, counts_in, left_of, lent_by, out_by, connected_by, dropped_by, room_of, reserved_in, lease_number, leases_of, lease_view};
    ghost use Rattle.pgw_pool.specs.Leases.{AreCounted, LendsOne, LendsFitCounted, LeavesCounts, StayCounted};
    ghost use Rattle.pgw_pool.specs.Checking.{ChecksForetold, LendsFit, LendsNoneFit, NoneForetold, LendsChecked, StayChecked};

    /// Lends the session that has been idle longest, if it still answers: it is asked an empty query
    /// first. Where it does not answer that by one empty query, with no transaction open behind it, it
    /// is dropped with its link, and why is told.
    pub fn lend_checked(&mut self) -> Result<Lease<L>, CheckError>
        ensures room { room_of self.new ≡ room_of self.old }
        ensures reserved { reserved_in self.new ≡ reserved_in self.old }
        ensures connected { connected_by self.new ≡ connected_by self.old }
        ensures dropped { OnOk result (dropped_by self.new ≡ dropped_by self.old) }
        ensures out { OnOk result (out_by self.new ≡ out_by self.old + 1) }
        ensures lent { IfOk result (λ lease. LendsFit
            (idle_in L.tape L.faults self.old) (lent_by self.old)
            (idle_in L.tape L.faults self.new) (lent_by self.new)
            (lease_number lease) (lease_view L.tape L.faults lease)) }
        // What each link has to come stays with its session; and of one that knows that, the check
        // took its front.
        ensures foretold { IfOk result (λ lease. ChecksForetold L.foretells
            (idle_in L.tape L.faults self.old) (lefts_in L.left self.old)
            (idle_in L.tape L.faults self.new) (lefts_in L.left self.new)
            (lease_view L.tape L.faults lease) (left_of L.left lease) (Ok tt)) }
        // So the pool has room for it again.
        ensures fits { OnOk result (length (idle_in L.tape L.faults self.new) < room_of self.new) }
        // Whatever was done over the idle sessions, the first is lent with a check more, in a lease in
        // which nothing was asked.
        ensures checked { (hs : List History) →
            AreIdle (lent_by self.old) hs (idle_in L.tape L.faults self.old) →
            IfOk result (λ lease. LendsChecked hs
            (lent_by self.new) (idle_in L.tape L.faults self.new)
            (lease_number lease) (lease_view L.tape L.faults lease)) }
        // It has had one lease more, and the others as many as before.
        ensures had { IfOk result (λ lease.
            LendsOne (counts_in self.old) (counts_in self.new) (leases_of lease)) }
        ensures all_counted { (hs : List History) → AreCounted hs (counts_in self.old) →
            IfOk result (λ lease. LendsFitCounted hs (counts_in self.new) (leases_of lease)) }
        // Empty comes exactly where none is idle, and else Exhausted where all numbers are spent; then
        // nothing was done. Else the first was asked, and this is why it was not fit.
        ensures refused { IfErr result (LendsNoneFit
            (idle_in L.tape L.faults self.old) (dropped_by self.old) (lent_by self.old)
            (idle_in L.tape L.faults self.new) (dropped_by self.new)) }
        // Of a link that knows what is to come: the cause is one that these bytes have.
        ensures none_foretold { IfErr result (NoneForetold L.foretells
            (idle_in L.tape L.faults self.old) (lefts_in L.left self.old)
            (idle_in L.tape L.faults self.new) (lefts_in L.left self.new)) }
        ensures stay { (hs : List History) →
            AreIdle (lent_by self.old) hs (idle_in L.tape L.faults self.old) →
            IfErr result (λ e. StayChecked e hs (lent_by self.new)
            (idle_in L.tape L.faults self.new)) }
        // The count of one that is dropped goes with it.
        ensures leaves { IfErr result (LeavesCounts (counts_in self.old) (counts_in self.new)) }
        ensures stay_counted { (hs : List History) → AreCounted hs (counts_in self.old) →
            IfErr result (λ e. StayCounted e hs (counts_in self.new)) }
        ensures same { OnErr result ((lent_by self.new ≡ lent_by self.old)
            × (out_by self.new ≡ out_by self.old)) }
    {
        if self.idle.is_empty() {
            return Err(CheckError::Empty);
        }
        if self.lent == u64::MAX {
            return Err(CheckError::Exhausted);
        }
        let Some(session) = self.idle.pop_front() else {
            return Err(CheckError::Empty);
        };
        let Session { mut client, leases } = session;
        match look_at(self.alloc, &mut client) {
            Ok(()) => {
                let leases = leases.saturating_add(1);
                self.lent += 1;
                self.out += 1;
                Ok(Lease {
                    client,
                    number: self.lent,
                    leases,
                })
            }
            Err(why) => {
                drop(client);
                self.dropped = self.dropped.saturating_add(1);
                Err(CheckError::Unfit(why))
            }
        }
    }
}
