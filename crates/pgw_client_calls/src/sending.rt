//! How a client writes what its handlers send, and what becomes of their answers.
ghost use Rattle.std.specs.Prelude.{◌≡◌, ◌⊎◌, ◌≤◌, true, false, length, IfErr, OnOk, OnErr};
ghost use Rattle.pgw_backend.specs.declared.client_error.PgWireClientError.TheVariants as client;
ghost use Rattle.pgw_link.specs.Sending.{Wrote, WroteSome};
ghost use Rattle.pgw_handlers.specs.Handling.{HasCause, IsCaused, OfError, Leaves};
ghost use Rattle.pgw_client_calls.specs.Talk.{passes, is_refusal};
ghost use Rattle.pgw_client_calls.specs.Desk.{client_of};
ghost use Rattle.pgw_client_calls.specs.Line.{Foretold};
ghost use Rattle.pgw_client_calls.specs.Connection.{line_in, state_of};
ghost use Rattle.pgw_frontend.specs.Frontend.{encoding};
ghost use Rattle.pgw_handlers.specs.Sending.{Sent, NotSent, IsSpelled, SendLeavesUsable as StaysUsable};
ghost use Rattle.pgw_client_calls.specs.Calls.{IsUsableAfter, goes_on_if, PutsOnLine, HandlerOpens, GivesUp, Follows, sight_in, faults_in, own_in, rest_in};

use crate::client::PgWireClient;
use crate::connection::Connection;
use pgw_backend::client_error::{PgWireClientError, PgWireClientResult};
use pgw_frontend::frontend::PgWireFrontendMessage;
use pgw_handlers::{Outgoing, ReadyState};
use pgw_link::link::Link;
use pgw_link::sending::send;
use std::alloc::Global;

// An error behind which a client goes on, once ReadyForQuery has come.
fn passes(error: &PgWireClientError) -> bool
    ensures { result ≡ passes error.now }
{
    match error {
        PgWireClientError::RemoteError(_) | PgWireClientError::UnexpectedMessage(_) => true,
        _ => false,
    }
}

// The encoder's refusal.
fn is_refusal(error: &PgWireClientError) -> bool
    ensures { result ≡ is_refusal error.now }
{
    matches!(error, PgWireClientError::PgWireError(_))
}

// As `passes`, of a call that goes on behind errors at all.
fn goes_on_if(some: bool, error: &PgWireClientError) -> bool
    ensures { result ≡ goes_on_if some error.now }
{
    some && passes(error)
}

impl<L: Link> Connection<L> {
    // Writes what was sent as one piece, and flushes.
    fn write_out(&mut self) -> PgWireClientResult<()>
        ensures client { client_of self.new.desk ≡ client_of self.old.desk }
        ensures inbox { self.new.inbox ≡ self.old.inbox }
        ensures read { self.new.read ≡ self.old.read }
        ensures limit { self.new.limit ≡ self.old.limit }
        ensures usable { OnOk result (self.new.desk.broken ≡ self.old.desk.broken) }
        ensures broken { OnErr result (self.new.desk.broken ≡ true) }
        ensures io { IfErr result (λ e. e ≡ client.IoError) }
        ensures cause { HasCause (L.faults self.old.link) (L.faults self.new.link) false result }
        ensures foretold { L.foretells → Foretold (L.left self.old.link) (L.left self.new.link)
            (L.tape self.old.link) (L.tape self.new.link) }
        ensures clean { OnOk result (L.faults self.new.link ≡ L.faults self.old.link) }
        ensures wrote { OnOk result
            (Wrote (L.tape self.old.link) (L.tape self.new.link) self.old.desk.out.items) }
        ensures failed { OnErr result
            (WroteSome (L.tape self.old.link) (L.tape self.new.link) self.old.desk.out.items) }
        ensures within { (L.tape self.old.link).flushed ≤ length (L.tape self.old.link).wrote }
    {
        match send(&mut self.link, self.desk.out.as_slice()) {
            Ok(()) => Ok(()),
            Err(_) => {
                self.desk.broken = true;
                Err(PgWireClientError::IoError)
            }
        }
    }

    // As `write_out`, where there is something to write.
    #[tactic(auto, using(crate::proofs::ForetoldLaws::foretold_still))]
    pub(crate) fn put_out(&mut self) -> PgWireClientResult<()>
        ensures client { client_of self.new.desk ≡ client_of self.old.desk }
        ensures inbox { self.new.inbox ≡ self.old.inbox }
        ensures read { self.new.read ≡ self.old.read }
        ensures limit { self.new.limit ≡ self.old.limit }
        ensures usable { OnOk result (self.new.desk.broken ≡ self.old.desk.broken) }
        ensures broken { OnErr result (self.new.desk.broken ≡ true) }
        ensures io { IfErr result (λ e. e ≡ client.IoError) }
        ensures cause { HasCause (L.faults self.old.link) (L.faults self.new.link) false result }
        ensures foretold { L.foretells → Foretold (L.left self.old.link) (L.left self.new.link)
            (L.tape self.old.link) (L.tape self.new.link) }
        ensures puts { PutsOnLine self.old.desk.out.items
            (line_in L.tape L.faults self.old) (line_in L.tape L.faults self.new) result }
    {
        if self.desk.out.len() == 0 {
            return Ok(());
        }
        self.write_out()
    }

    // What becomes of a handler's opening of a call: it is written, or refused.
    #[tactic(auto, using(crate::proofs::ForetoldLaws::foretold_still))]
    pub(crate) fn begin(&mut self, opened: PgWireClientResult<()>) -> PgWireClientResult<()>
        requires { OfError opened 0 0 self.old.desk.broken }
        ensures client { client_of self.new.desk ≡ client_of self.old.desk }
        ensures limit { self.new.limit ≡ self.old.limit }
        ensures cause { HasCause (L.faults self.old.link) (L.faults self.new.link) false result }
        ensures foretold { L.foretells → Foretold (L.left self.old.link) (L.left self.new.link)
            (L.tape self.old.link) (L.tape self.new.link) }
        ensures usable { IsUsableAfter is_refusal result self.new.desk.broken }
        ensures opens { HandlerOpens self.old.desk.broken self.old.desk.out.items
            (line_in L.tape L.faults self.old) (line_in L.tape L.faults self.new)
            opened result self.new.desk.broken }
    {
        if self.desk.broken {
            drop(opened);
            return Err(PgWireClientError::OutOfMemory);
        }
        match opened {
            Ok(()) => self.put_out(),
            Err(error) => {
                self.desk.broken = !is_refusal(&error);
                Err(error)
            }
        }
    }

    // What becomes of a handler's error: the messages up to ReadyForQuery are passed over, where the call goes on behind
    // it, or the client cannot be used any more.
    #[tactic(auto, using(crate::proofs::ForetoldLaws::foretold_still))]
    fn give_up(
        &mut self,
        alloc: Global,
        goes_on: bool,
        closing: bool,
        error: PgWireClientError,
    ) -> PgWireClientError
        requires usable { self.old.desk.broken ≡ false }
        requires own { IsCaused error 0 0 false }
        ensures limit { self.new.limit ≡ self.old.limit }
        ensures config { self.new.desk.config ≡ self.old.desk.config }
        ensures later { L.faults self.old.link ≤ L.faults self.new.link }
        ensures cause { IsCaused result (L.faults self.old.link) (L.faults self.new.link) false }
        ensures foretold { L.foretells → Foretold (L.left self.old.link) (L.left self.new.link)
            (L.tape self.old.link) (L.tape self.new.link) }
        ensures usable { (self.new.desk.broken ≡ true) ⊎ (goes_on_if goes_on result ≡ true) }
        ensures gives_up { GivesUp (goes_on_if goes_on) closing (client_of self.old.desk)
            (line_in L.tape L.faults self.old) (line_in L.tape L.faults self.new)
            error result (client_of self.new.desk) self.new.desk.broken }
    {
        if !goes_on_if(goes_on, &error) {
            self.desk.broken = true;
            return error;
        }
        if closing {
            return error;
        }
        self.pass_over(alloc, error)
    }

    // What becomes of a handler's answer: what it sent is written, or it gives up.
    #[tactic(auto, using(crate::proofs::ForetoldLaws::foretold_still))]
    pub(crate) fn follow<T: Drop>(
        &mut self,
        alloc: Global,
        goes_on: bool,
        closing: bool,
        answer: PgWireClientResult<ReadyState<T>>,
    ) -> PgWireClientResult<ReadyState<T>>
        requires { OfError answer 0 0 self.old.desk.broken }
        ensures limit { self.new.limit ≡ self.old.limit }
        ensures config { self.new.desk.config ≡ self.old.desk.config }
        ensures inbox { OnOk result (self.new.inbox ≡ self.old.inbox) }
        ensures read { OnOk result (self.new.read ≡ self.old.read) }
        ensures cause { HasCause (L.faults self.old.link) (L.faults self.new.link) false result }
        ensures foretold { L.foretells → Foretold (L.left self.old.link) (L.left self.new.link)
            (L.tape self.old.link) (L.tape self.new.link) }
        ensures usable { IsUsableAfter (goes_on_if goes_on) result self.new.desk.broken }
        ensures follows { Follows (goes_on_if goes_on) closing self.old.desk.broken
            self.old.desk.out.items (client_of self.old.desk)
            (line_in L.tape L.faults self.old) (line_in L.tape L.faults self.new)
            answer result (client_of self.new.desk) self.new.desk.broken }
    {
        if self.desk.broken {
            drop(answer);
            return Err(PgWireClientError::OutOfMemory);
        }
        match answer {
            Ok(state) => match self.put_out() {
                Ok(()) => Ok(state),
                Err(error) => Err(error),
            },
            Err(error) => Err(self.give_up(alloc, goes_on, closing, error)),
        }
    }
}

impl<L: Link> Connection<L> {
    // Writes a message as one piece, and flushes.
    #[tactic(auto, using(crate::proofs::ForetoldLaws::foretold_still))]
    fn send(&mut self, message: PgWireFrontendMessage) -> PgWireClientResult<()>
        ensures sent { OnOk result (Sent (encoding message)
            (sight_in L.tape (state_of self.old)) (sight_in L.tape (state_of self.new))) }
        ensures failed { IfErr result (λ e. NotSent (encoding message)
            (sight_in L.tape (state_of self.old)) (sight_in L.tape (state_of self.new)) e) }
        ensures spelled { IsSpelled (encoding message) result }
        ensures client { client_of self.new.desk ≡ client_of self.old.desk }
        ensures usable { StaysUsable result self.old.desk.broken self.new.desk.broken }
        ensures leaves { Leaves own_in (rest_in L.tape) (faults_in L.faults) (sight_in L.tape)
            (state_of self.old) (state_of self.new) result }
        ensures foretold { L.foretells → Foretold (L.left self.old.link) (L.left self.new.link)
            (L.tape self.old.link) (L.tape self.new.link) }
    {
        self.desk.clear();
        match self.desk.send(message) {
            Ok(()) => self.write_out(),
            Err(error) => Err(error),
        }
    }
}

impl<L: Link> Outgoing for PgWireClient<L> {
    fn send(&mut self, message: PgWireFrontendMessage) -> PgWireClientResult<()>
        ensures sent { OnOk result (Sent (encoding message)
            (sight_in L.tape self.old) (sight_in L.tape self.new)) }
        ensures failed { IfErr result (λ e. NotSent (encoding message)
            (sight_in L.tape self.old) (sight_in L.tape self.new) e) }
        ensures spelled { IsSpelled (encoding message) result }
        ensures client { self.new.known ≡ self.old.known }
        ensures usable { StaysUsable result self.old.broken self.new.broken }
        ensures leaves { Leaves own_in (rest_in L.tape) (faults_in L.faults) (sight_in L.tape)
            self.old self.new result }
        // Nothing is read, so of a link that knows what is to come that stays.
        ensures foretold { L.foretells → Foretold (L.left self.old.link) (L.left self.new.link)
            (L.tape self.old.link) (L.tape self.new.link) }
    {
        self.connection.send(message)
    }
}
