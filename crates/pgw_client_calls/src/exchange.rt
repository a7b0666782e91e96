//! How a client asks a request of extended queries, and hands its answer to a handler.
ghost use Rattle.std.specs.Prelude.{◌≡◌, ◌≢◌, ◌⊎◌, ◌<◌, ◌≤◌, ◌+◌, length, true, false, Ok, Err, IfOk, OnErr};
ghost use Rattle.pgw_backend.specs.declared.client_error.PgWireClientError.TheVariants as client;
ghost use Rattle.pgw_session.specs.declared.types.Request.{Request as TheRequest};
ghost use Rattle.pgw_handlers.specs.Handling.{HasCause, IsCaused};
ghost use Rattle.pgw_handlers.specs.Extended.{TakesExtendedRows};
ghost use Rattle.pgw_handlers.specs.declared.client_info.ReadyState.TheVariants.{Pending};
ghost use Rattle.pgw_client_calls.specs.Desk.{client_of};
ghost use Rattle.pgw_client_calls.specs.Line.{Foretold, IsFlushed};
ghost use Rattle.pgw_client_calls.specs.State.{line_of};
ghost use Rattle.pgw_client_calls.specs.Connection.{line_in};
ghost use Rattle.pgw_client_calls.specs.Lent.{AsksByClient, lent_pair};
ghost use Rattle.pgw_client_calls.specs.Calls.{IsUsableAfter};
ghost use Rattle.pgw_client_calls.specs.Talk.{is_remote};
ghost use Rattle.pgw_client_calls.specs.Extended.{none_gathered, finish, is_suspended, call_role, as_lists, in_lists};
ghost use Rattle.pgw_client_calls.specs.ExtendedSteps.{is_sync_due, passed_answer, no_error, may_stay, Synced, SettlesSync, HeededOne, HeededNext, LineExchange, MakesCall, HeededOn, takes_rows};

use crate::client::PgWireClient;
use crate::connection::Connection;
use crate::gathered::{Gathered, hand_all, nothing_gathered, take};
use crate::reading::first_of;
use pgw_backend::backend::PgWireBackendMessage;
use pgw_backend::client_error::{PgWireClientError, PgWireClientResult, unexpected};
use pgw_dialogue::inbox::Inbox;
use pgw_dialogue::requests::{kind_of, sends_of};
use pgw_dialogue::table::{behind_error, role};
use pgw_ext::extendedquery::Sync;
use pgw_handlers::{ExtendedQueryHandler, ReadyState};
use pgw_link::link::Link;
use pgw_session::stage::{Kind, Role};
use pgw_session::types::Request;
use pgw_types::memory::OutOfMemory;
use std::alloc::Global;
use std::mem::replace;

// Whether Sync is due behind the server's error.
fn is_due(kind: Kind) -> bool
    ensures { result ≡ is_sync_due kind }
{
    let due = behind_error(kind);
    let is_due = due.is_some();
    drop(due);
    is_due
}

// Whether rows may come.
fn takes_rows(kind: Kind) -> bool
    ensures { result ≡ takes_rows kind }
{
    matches!(kind, Kind::Execute | Kind::Query)
}

// Whether the message says that a portal was suspended.
fn is_suspended(message: &PgWireBackendMessage) -> bool
    ensures { result ≡ is_suspended message.now }
{
    matches!(message, PgWireBackendMessage::PortalSuspended(_))
}

// What becomes of a message by the table of requests; of a notification the handler is asked.
fn place(kind: Kind, message: &PgWireBackendMessage) -> Role
    ensures { result ≡ call_role kind message.now }
{
    match message {
        PgWireBackendMessage::NotificationResponse(_) => Role::Taken(false),
        _ => role(kind, false, message),
    }
}

// What messages that were passed over answer.
fn passed_answer(error: PgWireClientError, broken: bool) -> PgWireClientResult<ReadyState<bool>>
    ensures { result ≡ passed_answer error broken }
{
    match error {
        PgWireClientError::UnexpectedEOF => {
            if broken {
                Err(PgWireClientError::UnexpectedEOF)
            } else {
                Ok(ReadyState::Ready(false))
            }
        }
        other => Err(other),
    }
}

impl<L: Link> Connection<L> {
    // Sends Sync, where it is due.
    #[tactic(auto, using(crate::proofs::ForetoldLaws::foretold_still))]
    fn sync<H: ExtendedQueryHandler>(
        &mut self,
        alloc: Global,
        handler: &mut H,
        due: bool,
    ) -> PgWireClientResult<()>
        requires usable { self.old.desk.broken ≡ false }
        ensures limit { self.new.limit ≡ self.old.limit }
        ensures config { self.new.desk.config ≡ self.old.desk.config }
        ensures cause { HasCause (L.faults self.old.link) (L.faults self.new.link) false result }
        ensures foretold { L.foretells → Foretold (L.left self.old.link) (L.left self.new.link)
            (L.tape self.old.link) (L.tape self.new.link) }
        ensures usable { IsUsableAfter no_error result self.new.desk.broken }
        ensures synced { Synced H.means handler.old (client_of self.old.desk)
            (line_in L.tape L.faults self.old) (line_in L.tape L.faults self.new)
            handler.new (client_of self.new.desk) due result self.new.desk.broken }
    {
        if !due {
            return Ok(());
        }
        self.desk.clear();
        let synced = handler.sync(alloc, &mut self.desk, Sync::new());
        match self.begin(synced) {
            Ok(()) => Ok(()),
            Err(error) => {
                self.desk.broken = true;
                Err(error)
            }
        }
    }

    // Behind the end of an answer: sends Sync, where it is due, and passes the messages over up to ReadyForQuery. The
    // error is the answer then, where there is one (UnexpectedEOF: none yet).
    fn settle<H: ExtendedQueryHandler>(
        &mut self,
        alloc: Global,
        handler: &mut H,
        due: bool,
        error: PgWireClientError,
    ) -> PgWireClientResult<ReadyState<bool>>
        requires usable { self.old.desk.broken ≡ false }
        requires own { IsCaused error 0 0 false }
        requires starts { (error ≡ client.UnexpectedEOF) ⊎ (is_remote error ≡ true) }
        ensures limit { self.new.limit ≡ self.old.limit }
        ensures config { self.new.desk.config ≡ self.old.desk.config }
        ensures ends { result ≢ Ok Pending }
        ensures cause { HasCause (L.faults self.old.link) (L.faults self.new.link) false result }
        ensures foretold { L.foretells → Foretold (L.left self.old.link) (L.left self.new.link)
            (L.tape self.old.link) (L.tape self.new.link) }
        ensures usable { IsUsableAfter is_remote result self.new.desk.broken }
        ensures settled { SettlesSync H.means due handler.old (client_of self.old.desk)
            (line_in L.tape L.faults self.old) (line_in L.tape L.faults self.new)
            error handler.new (client_of self.new.desk) result self.new.desk.broken }
    {
        match self.sync(alloc, handler, due) {
            Ok(()) => {
                let passed = self.pass_over(alloc, error);
                passed_answer(passed, self.desk.broken)
            }
            Err(failure) => {
                drop(error);
                Err(failure)
            }
        }
    }

    // Heeds a message by its place.
    #[tactic(auto, using(crate::proofs::ForetoldLaws::foretold_still))]
    fn heed_one<H: ExtendedQueryHandler>(
        &mut self,
        alloc: Global,
        handler: &mut H,
        kind: Kind,
        gathered: &mut Gathered<H::Responses>,
        message: PgWireBackendMessage,
    ) -> PgWireClientResult<ReadyState<bool>>
        requires usable { self.old.desk.broken ≡ false }
        ensures limit { self.new.limit ≡ self.old.limit }
        ensures config { self.new.desk.config ≡ self.old.desk.config }
        ensures goes_on { result ≡ Ok Pending → (self.new.inbox ≡ self.old.inbox) ×
            (self.new.read ≡ self.old.read) }
        ensures cause { HasCause (L.faults self.old.link) (L.faults self.new.link) false result }
        ensures foretold { L.foretells → Foretold (L.left self.old.link) (L.left self.new.link)
            (L.tape self.old.link) (L.tape self.new.link) }
        ensures usable { IsUsableAfter is_remote result self.new.desk.broken }
        ensures heeded { HeededOne H.means kind handler.old (client_of self.old.desk)
            (as_lists H.Responses.listed gathered.old) message
            (line_in L.tape L.faults self.old) (line_in L.tape L.faults self.new)
            handler.new (client_of self.new.desk) (as_lists H.Responses.listed gathered.new)
            result self.new.desk.broken }
    {
        match place(kind, &message) {
            Role::Taken(_) => match take(alloc, handler, &mut self.desk, gathered, message) {
                Ok(()) => Ok(ReadyState::Pending),
                Err(error) => Err(error),
            },
            Role::Closing => {
                let suspended = is_suspended(&message);
                match take(alloc, handler, &mut self.desk, gathered, message) {
                    Ok(()) => Ok(ReadyState::Ready(suspended)),
                    Err(error) => Err(error),
                }
            }
            Role::Completing => match take(alloc, handler, &mut self.desk, gathered, message) {
                Ok(()) => self.settle(alloc, handler, true, PgWireClientError::UnexpectedEOF),
                Err(error) => Err(error),
            },
            Role::Failing => {
                let error = first_of(PgWireClientError::UnexpectedEOF, message);
                self.settle(alloc, handler, is_due(kind), error)
            }
            Role::Misplaced => {
                self.desk.broken = true;
                Err(unexpected(alloc, message))
            }
        }
    }

    // The next message of a call. It says whether the call goes on, and else whether the portal was suspended.
    fn heed_next<H: ExtendedQueryHandler>(
        &mut self,
        alloc: Global,
        handler: &mut H,
        kind: Kind,
        gathered: &mut Gathered<H::Responses>,
    ) -> PgWireClientResult<ReadyState<bool>>
        requires usable { self.old.desk.broken ≡ false }
        ensures limit { self.new.limit ≡ self.old.limit }
        ensures config { self.new.desk.config ≡ self.old.desk.config }
        ensures shrinks { result ≡ Ok Pending → length self.new.inbox + self.old.read < length
            self.old.inbox + self.new.read }
        ensures cause { HasCause (L.faults self.old.link) (L.faults self.new.link) false result }
        ensures foretold { L.foretells → Foretold (L.left self.old.link) (L.left self.new.link)
            (L.tape self.old.link) (L.tape self.new.link) }
        ensures usable { IsUsableAfter is_remote result self.new.desk.broken }
        ensures heeded { HeededNext H.means kind handler.old (client_of self.old.desk)
            (as_lists H.Responses.listed gathered.old)
            (line_in L.tape L.faults self.old) (line_in L.tape L.faults self.new)
            handler.new (client_of self.new.desk) (as_lists H.Responses.listed gathered.new)
            self.new.desk.broken result }
    {
        match self.next_message(alloc) {
            Ok(message) => self.heed_one(alloc, handler, kind, gathered, message),
            Err(error) => {
                self.desk.broken = true;
                Err(error)
            }
        }
    }

    // Has the handler take rows that stand whole at the buffer's front, as many as it likes.
    fn take_rows_in_exchange<H: ExtendedQueryHandler>(
        &mut self,
        alloc: Global,
        handler: &mut H,
        responses: &mut H::Responses,
    ) -> Result<usize, OutOfMemory>
        ensures desk { self.new.desk ≡ self.old.desk }
        ensures link { self.new.link ≡ self.old.link }
        ensures read { self.new.read ≡ self.old.read }
        ensures limit { self.new.limit ≡ self.old.limit }
        ensures taken { IfOk result (TakesExtendedRows H.means handler.old handler.new
            (H.Responses.listed responses.old) (H.Responses.listed responses.new)
            self.old.inbox self.new.inbox) }
        ensures shorter { length self.new.inbox ≤ length self.old.inbox }
        ensures err { OnErr result (self.new.inbox ≡ self.old.inbox) }
    {
        self.inbox.settle()?;
        let mut parts = replace(&mut self.inbox, Inbox::new(alloc)).into_parts();
        let taken = handler.take_rows(&mut parts.front, responses);
        self.inbox = parts.into_inbox();
        taken
    }

    // Has the handler take rows, where any may come, and heeds the message behind them.
    fn go_on_in_exchange<H: ExtendedQueryHandler>(
        &mut self,
        alloc: Global,
        handler: &mut H,
        kind: Kind,
        gathered: &mut Gathered<H::Responses>,
    ) -> PgWireClientResult<ReadyState<bool>>
        requires usable { self.old.desk.broken ≡ false }
        ensures limit { self.new.limit ≡ self.old.limit }
        ensures config { self.new.desk.config ≡ self.old.desk.config }
        ensures shrinks { result ≡ Ok Pending → length self.new.inbox + self.old.read < length
            self.old.inbox + self.new.read }
        ensures cause { HasCause (L.faults self.old.link) (L.faults self.new.link) false result }
        ensures foretold { L.foretells → Foretold (L.left self.old.link) (L.left self.new.link)
            (L.tape self.old.link) (L.tape self.new.link) }
        ensures usable { IsUsableAfter is_remote result self.new.desk.broken }
        ensures heeded { HeededOn H.means kind handler.old (client_of self.old.desk)
            (as_lists H.Responses.listed gathered.old)
            (line_in L.tape L.faults self.old) (line_in L.tape L.faults self.new)
            handler.new (client_of self.new.desk) (as_lists H.Responses.listed gathered.new)
            self.new.desk.broken result }
    {
        if !takes_rows(kind) {
            return self.heed_next(alloc, handler, kind, gathered);
        }
        match self.take_rows_in_exchange(alloc, handler, &mut gathered.responses) {
            Ok(_) => self.heed_next(alloc, handler, kind, gathered),
            Err(_) => {
                self.desk.broken = true;
                Err(PgWireClientError::OutOfMemory)
            }
        }
    }

    // The messages of a call, up to its end.
    fn exchange<H: ExtendedQueryHandler>(
        &mut self,
        alloc: Global,
        handler: &mut H,
        kind: Kind,
    ) -> PgWireClientResult<(Gathered<H::Responses>, bool)>
        requires usable { self.old.desk.broken ≡ false }
        ensures limit { self.new.limit ≡ self.old.limit }
        ensures config { self.new.desk.config ≡ self.old.desk.config }
        ensures cause { HasCause (L.faults self.old.link) (L.faults self.new.link) false result }
        ensures foretold { L.foretells → Foretold (L.left self.old.link) (L.left self.new.link)
            (L.tape self.old.link) (L.tape self.new.link) }
        ensures usable { IsUsableAfter is_remote result self.new.desk.broken }
        ensures exchanged { LineExchange H.means kind handler.old (client_of self.old.desk)
            none_gathered
            (line_in L.tape L.faults self.old) (line_in L.tape L.faults self.new)
            (finish (in_lists H.Responses.listed result) handler.new (client_of self.new.desk)
            self.new.desk.broken self.new.inbox) }
    {
        let mut gathered = nothing_gathered(alloc);
        'messages: loop {
            match self.go_on_in_exchange(alloc, handler, kind, &mut gathered) {
                Ok(ReadyState::Pending) => {}
                Ok(ReadyState::Ready(suspended)) => return Ok((gathered, suspended)),
                Err(error) => return Err(error),
            }
        }
    }

    // Asks a request.
    #[tactic(auto, using(crate::proofs::ForetoldLaws::foretold_still))]
    fn request<H: ExtendedQueryHandler>(
        &mut self,
        alloc: Global,
        handler: &mut H,
        request: &Request,
    ) -> PgWireClientResult<(Gathered<H::Responses>, bool)>
        requires usable { self.old.desk.broken ≡ false }
        ensures limit { self.new.limit ≡ self.old.limit }
        ensures config { self.new.desk.config ≡ self.old.desk.config }
        ensures cause { HasCause (L.faults self.old.link) (L.faults self.new.link) false result }
        ensures foretold { L.foretells → Foretold (L.left self.old.link) (L.left self.new.link)
            (L.tape self.old.link) (L.tape self.new.link) }
        ensures usable { IsUsableAfter may_stay result self.new.desk.broken }
        ensures called { MakesCall H.means request.now handler.old (client_of self.old.desk)
            (line_in L.tape L.faults self.old) (line_in L.tape L.faults self.new)
            (finish (in_lists H.Responses.listed result) handler.new (client_of self.new.desk)
            self.new.desk.broken self.new.inbox) }
    {
        let messages = match sends_of(alloc, request) {
            Ok(messages) => messages,
            Err(_) => {
                self.desk.broken = true;
                return Err(PgWireClientError::OutOfMemory);
            }
        };
        self.desk.clear();
        let opened = hand_all(alloc, handler, &mut self.desk, messages);
        match self.begin(opened) {
            Ok(()) => self.exchange(alloc, handler, kind_of(request)),
            Err(error) => Err(error),
        }
    }

    // Asks a request of a client that may be unusable.
    #[tactic(auto, using(crate::proofs::ForetoldLaws::foretold_still))]
    pub(crate) fn ask_by<H: ExtendedQueryHandler>(
        &mut self,
        alloc: Global,
        handler: &mut H,
        request: &Request,
    ) -> PgWireClientResult<(Gathered<H::Responses>, bool)>
        ensures within { self.new.read ≤ self.new.limit }
        ensures limit { self.new.limit ≡ self.old.limit }
        ensures config { self.new.desk.config ≡ self.old.desk.config }
        ensures cause { HasCause (L.faults self.old.link) (L.faults self.new.link)
            self.old.desk.broken result }
        ensures foretold { L.foretells → Foretold (L.left self.old.link) (L.left self.new.link)
            (L.tape self.old.link) (L.tape self.new.link) }
        ensures broken { self.old.desk.broken ≡ true → (result ≡ Err client.Broken) ×
            (self.new ≡ self.old) × (handler.new ≡ handler.old) }
        ensures usable { self.old.desk.broken ≡ false → IsUsableAfter may_stay result
            self.new.desk.broken }
        ensures called { self.old.desk.broken ≡ false
            → MakesCall H.means request.now handler.old (client_of self.old.desk)
            (line_in L.tape L.faults self.old) (line_in L.tape L.faults self.new)
            (finish (in_lists H.Responses.listed result) handler.new (client_of self.new.desk)
            self.new.desk.broken self.new.inbox) }
    {
        if self.desk.broken {
            return Err(PgWireClientError::Broken);
        }
        self.request(alloc, handler, request)
    }

    // Asks a request that memory may have been wanting for.
    #[tactic(auto, using(crate::proofs::ForetoldLaws::foretold_still))]
    pub(crate) fn ask<H: ExtendedQueryHandler>(
        &mut self,
        alloc: Global,
        handler: &mut H,
        request: Result<Request, OutOfMemory>,
    ) -> PgWireClientResult<(Gathered<H::Responses>, bool)>
        ensures within { self.new.read ≤ self.new.limit }
        ensures limit { self.new.limit ≡ self.old.limit }
        ensures config { self.new.desk.config ≡ self.old.desk.config }
        ensures cause { HasCause (L.faults self.old.link) (L.faults self.new.link)
            self.old.desk.broken result }
        ensures foretold { L.foretells → Foretold (L.left self.old.link) (L.left self.new.link)
            (L.tape self.old.link) (L.tape self.new.link) }
        ensures broken { self.old.desk.broken ≡ true → (result ≡ Err client.Broken) ×
            (self.new ≡ self.old) × (handler.new ≡ handler.old) }
        ensures usable { self.old.desk.broken ≡ false → IsUsableAfter may_stay result
            self.new.desk.broken }
        ensures called { (q : TheRequest) → IfOk request (λ r. r ≡ q) → self.old.desk.broken ≡ false
            → MakesCall H.means q handler.old (client_of self.old.desk)
            (line_in L.tape L.faults self.old) (line_in L.tape L.faults self.new)
            (finish (in_lists H.Responses.listed result) handler.new (client_of self.new.desk)
            self.new.desk.broken self.new.inbox) }
    {
        if self.desk.broken {
            drop(request);
            return Err(PgWireClientError::Broken);
        }
        match request {
            Ok(request) => {
                let answer = self.request(alloc, handler, &request);
                drop(request);
                answer
            }
            Err(_) => {
                self.desk.broken = true;
                Err(PgWireClientError::OutOfMemory)
            }
        }
    }
}

impl<L: Link> PgWireClient<L> {
    // Asks a request.
    pub(crate) fn ask_by<H: ExtendedQueryHandler>(
        &mut self,
        alloc: Global,
        handler: &mut H,
        request: &Request,
    ) -> PgWireClientResult<(Gathered<H::Responses>, bool)>
        ensures { AsksByClient L.foretells L.left L.tape L.faults H.means H.Responses.listed
            request.now lent_pair handler.old handler.new self.old self.new result }
    {
        self.connection.ask_by(alloc, handler, request)
    }

    // Memory was wanting for a request.
    pub(crate) fn starve(&mut self) -> PgWireClientError
        ensures broken { self.old.broken ≡ true → (result ≡ client.Broken) × (self.new ≡ self.old) }
        ensures starved { self.old.broken ≡ false → (result ≡ client.OutOfMemory) ×
            (self.new.broken ≡ true) }
        ensures line { line_of L.tape L.faults self.new ≡ line_of L.tape L.faults self.old }
        ensures link { self.new.link ≡ self.old.link }
        ensures within { self.new.read ≤ self.new.limit }
        ensures config { (self.new.known).config ≡ (self.old.known).config }
        ensures flushed { self.old.broken ≡ false →
            IsFlushed (line_of L.tape L.faults self.old) }
    {
        if self.connection.desk.broken {
            return PgWireClientError::Broken;
        }
        self.connection.desk.broken = true;
        PgWireClientError::OutOfMemory
    }

    // Asks a request that memory may have been wanting for.
    pub(crate) fn ask<H: ExtendedQueryHandler>(
        &mut self,
        alloc: Global,
        handler: &mut H,
        request: Result<Request, OutOfMemory>,
    ) -> PgWireClientResult<(Gathered<H::Responses>, bool)>
        ensures { (q : TheRequest) → IfOk request (λ r. r ≡ q) →
            AsksByClient L.foretells L.left L.tape L.faults H.means H.Responses.listed
            q lent_pair handler.old handler.new self.old self.new result }
    {
        self.connection.ask(alloc, handler, request)
    }
}
