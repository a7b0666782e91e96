//! A session that is lent.
ghost use Rattle.std.specs.Prelude.{◌≡◌, Err, IfOk, IfErr, true, false};
ghost use Rattle.pgw_backend.specs.declared.client_error.PgWireClientError.TheVariants as failure;
ghost use Rattle.pgw_handlers.specs.Handling.{HasCause};
ghost use Rattle.pgw_client_calls.specs.State.{link_of};
ghost use Rattle.pgw_client_calls.specs.Canceling.{IsTokenOf};
ghost use Rattle.pgw_client_calls.specs.Connecting.{LacksAddress};
ghost use Rattle.pgw_client_ask.specs.Asking.{Asks, EndsRequest};

use pgw_client::{Answer, Link, PgWireClientResult, Request};
use pgw_client_ask::ask;
use pgw_client_calls::{CancelToken, PgWireClient};

/// A session that is lent, until it is given back to a pool. It cannot be let go in another way.
pub struct Lease<L: Link> {
    pub(crate) client: PgWireClient<L>,
    pub(crate) number: u64,
    pub(crate) leases: u64,
}

impl<L: Link> Lease<L> {
    ghost use Rattle.pgw_pool.specs.Histories.{History, Lent, IsLent};
    ghost use Rattle.pgw_client_calls.specs.Line.{Foretold, StaysWithin};
    ghost use Rattle.pgw_pool.specs.Views.{lease_number, leases_of, client_in, left_of, lease_view};
    ghost use Rattle.pgw_pool.specs.Lending.{LeaseRan};

    /// The first lease of a pool has number 1.
    pub fn number(&self) -> u64
        ensures { result ≡ lease_number self.now }
    {
        self.number
    }

    /// How many leases its session has had, this one included. The count stays at the greatest u64.
    pub fn leases(&self) -> u64
        ensures { result ≡ leases_of self.now }
    {
        self.leases
    }

    pub fn link(&self) -> &L
        ensures { result.now ≡ link_of (client_in self.now) }
    {
        self.client.link()
    }

    /// What cancels what the server does for the session of this lease, to be used from anywhere.
    pub fn cancel_token(&self) -> PgWireClientResult<CancelToken>
        ensures broken { (lease_view L.tape L.faults self.now).broken ≡ true →
            result ≡ Err failure.Broken }
        // It is this session's.
        ensures token { IfOk result (IsTokenOf (lease_view L.tape L.faults self.now).client) }
        // Else the configuration has no address, or memory was wanting.
        ensures lacks { (lease_view L.tape L.faults self.now).broken ≡ false →
            IfErr result (LacksAddress (lease_view L.tape L.faults self.now).client.config) }
    {
        self.client.cancel_token()
    }

    /// Asks a request by the default handlers, and gives its answer. The server's error is an answer,
    /// where the session can go on behind it.
    pub fn run(&mut self, request: &Request) -> PgWireClientResult<Answer>
        ensures number { lease_number self.new ≡ lease_number self.old }
        ensures had { leases_of self.new ≡ leases_of self.old }
        // A session that an earlier error left unusable is asked nothing.
        ensures broken { (lease_view L.tape L.faults self.old).broken ≡ true →
            (result ≡ Err failure.Broken) × (self.new ≡ self.old) }
        // Whatever was done over the session, this request is made besides, and the answer is that of
        // its own segment; an error tells how far it was made.
        ensures ran { (h : History) (l : Lent) → IsLent h l (lease_view L.tape L.faults self.old) →
            LeaseRan h l request.now (lease_view L.tape L.faults self.new)
            (lease_view L.tape L.faults self.new).broken result }
        // What the client's own call does, with the reason of each error.
        ensures asks { let old = lease_view L.tape L.faults self.old in
            let new = lease_view L.tape L.faults self.new in
            old.broken ≡ false →
            Asks request.now old.client old.line new.client new.line new.broken result }
        // Nothing is read behind the end that its link answers, and behind any answer but IoError all
        // that was written is flushed.
        ensures ended { let old = lease_view L.tape L.faults self.old in
            let new = lease_view L.tape L.faults self.new in
            old.broken ≡ false →
            EndsRequest request.now old.line new.client new.line new.broken result }
        ensures cause { let old = lease_view L.tape L.faults self.old in
            let new = lease_view L.tape L.faults self.new in
            HasCause old.line.faults new.line.faults old.broken result }
        // Of a link that knows what is to come: the bytes taken are its front, and the end is
        // answered behind the last byte.
        ensures foretold { L.foretells →
            Foretold (left_of L.left self.old) (left_of L.left self.new)
            (lease_view L.tape L.faults self.old).line.tape
            (lease_view L.tape L.faults self.new).line.tape }
        // No more bytes are read than the pool was given as the limit of a session.
        ensures within { StaysWithin (lease_view L.tape L.faults self.old).line
            (lease_view L.tape L.faults self.new).line }
    {
        ask(&mut self.client, request)
    }
}
