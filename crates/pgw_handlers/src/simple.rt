//! What a client asks simple queries by.
ghost use Rattle.std.specs.Prelude.{◌≡◌, List, IfOk, OnErr};
ghost use Rattle.pgw_startup.specs.declared.parameter_status.ParameterStatus.{ParameterStatus as TheStatus};
ghost use Rattle.pgw_query.specs.Rows.{NoticeResponse as TheNotice};
ghost use Rattle.pgw_query.specs.declared.notification.NotificationResponse.{NotificationResponse as TheNotification};
ghost use Rattle.pgw_handlers.specs.Handling.{HandlerView, standing, CallAnswer, pending, ready_answer, EndsAtReady, KeepsParameter, HandlerStays, HandlerMisplaces, Leaves};
ghost use Rattle.pgw_handlers.specs.Simple.{SimpleCall, simple_query, on_row_description, on_data_row, on_command_complete, on_empty_query, on_parameter_status, on_notice, on_notification, on_ready_for_query, HeardInQuery, TakesSimpleRows};

use crate::causes::misplaced;
use crate::client_info::{ClientInfo, ReadyState};
use crate::outgoing::Outgoing;
use pgw_backend::backend::PgWireBackendMessage;
use pgw_backend::client_error::{PgWireClientError, PgWireClientResult};
use pgw_query::data::{DataRow, RowDescription};
use pgw_query::notification::NotificationResponse;
use pgw_query::response::{CommandComplete, EmptyQueryResponse, NoticeResponse, ReadyForQuery};
use pgw_startup::parameter_status::ParameterStatus;
use pgw_types::listed::Listed;
use pgw_types::memory::OutOfMemory;
use pgw_types::octets::Octets;
use std::alloc::Global;

/// Asks a simple query, and makes responses of the server's messages up to ReadyForQuery.
pub trait SimpleQueryHandler {
    type QueryResponse: Drop;

    /// What the handler does: a call leads from one standing to another, and gives the answer.
    ghost means: { HandlerView Self → SimpleCall → HandlerView Self →
        CallAnswer (List Self.QueryResponse) →
        Type 0 };

    /// Asks the query.
    fn simple_query<C: ClientInfo + Outgoing>(
        &mut self,
        alloc: Global,
        client: &mut C,
        query: &str,
    ) -> PgWireClientResult<()>
        ensures means { means (standing self.old (C.sight client.old)) (simple_query query.now)
            (standing self.new (C.sight client.new)) (pending result) }
        ensures leaves { Leaves C.own C.rest C.faults C.sight client.old client.new result };

    /// Hears a message: hands it to its function, and sets the status that a ReadyForQuery tells before that.
    fn on_message<C: ClientInfo + Outgoing>(
        &mut self,
        alloc: Global,
        client: &mut C,
        message: PgWireBackendMessage,
    ) -> PgWireClientResult<ReadyState<Listed<Self::QueryResponse>>>
        ensures means { HeardInQuery means (standing self.old (C.sight client.old)) message
            (standing self.new (C.sight client.new)) result }
        ensures ready { IfOk result (EndsAtReady message) }
        ensures leaves { Leaves C.own C.rest C.faults C.sight client.old client.new result }
    {
        match message {
            PgWireBackendMessage::RowDescription(m) => {
                self.on_row_description(alloc, client, m)?;
                Ok(ReadyState::Pending)
            }
            PgWireBackendMessage::DataRow(m) => {
                self.on_data_row(alloc, client, m)?;
                Ok(ReadyState::Pending)
            }
            PgWireBackendMessage::CommandComplete(m) => {
                self.on_command_complete(alloc, client, m)?;
                Ok(ReadyState::Pending)
            }
            PgWireBackendMessage::EmptyQueryResponse(m) => {
                self.on_empty_query(alloc, client, m)?;
                Ok(ReadyState::Pending)
            }
            PgWireBackendMessage::ParameterStatus(m) => {
                self.on_parameter_status(alloc, client, m)?;
                Ok(ReadyState::Pending)
            }
            PgWireBackendMessage::ReadyForQuery(m) => {
                client.set_transaction_status(m.status);
                let responses = self.on_ready_for_query(alloc, client, m)?;
                Ok(ReadyState::Ready(responses))
            }
            PgWireBackendMessage::ErrorResponse(m) => Err(PgWireClientError::RemoteError(m)),
            PgWireBackendMessage::NoticeResponse(m) => {
                self.on_notice(alloc, client, m)?;
                Ok(ReadyState::Pending)
            }
            PgWireBackendMessage::NotificationResponse(m) => {
                self.on_notification(alloc, client, m)?;
                Ok(ReadyState::Pending)
            }
            other => Err(misplaced(alloc, other)),
        }
    }

    fn on_row_description<C: ClientInfo + Outgoing>(
        &mut self,
        alloc: Global,
        client: &mut C,
        message: RowDescription,
    ) -> PgWireClientResult<()>
        ensures means { means (standing self.old (C.sight client.old)) (on_row_description message)
            (standing self.new (C.sight client.new)) (pending result) }
        ensures leaves { Leaves C.own C.rest C.faults C.sight client.old client.new result };

    fn on_data_row<C: ClientInfo + Outgoing>(
        &mut self,
        alloc: Global,
        client: &mut C,
        message: DataRow,
    ) -> PgWireClientResult<()>
        ensures means { means (standing self.old (C.sight client.old)) (on_data_row message)
            (standing self.new (C.sight client.new)) (pending result) }
        ensures leaves { Leaves C.own C.rest C.faults C.sight client.old client.new result };

    /// Takes rows that stand whole at the front of some bytes, as many as it likes, and hears them as
    /// `on_data_row` hears each; answers how many. A client calls it before it takes a message. It sees
    /// no client and sends nothing. By its own body it takes none.
    #[tactic(auto, using(crate::proofs::RowLaws::takes_none))]
    fn take_rows(&mut self, bytes: &mut Octets) -> Result<usize, OutOfMemory>
        ensures taken { IfOk result (TakesSimpleRows means self.old self.new bytes.old bytes.new) }
        ensures err { OnErr result ((self.new ≡ self.old) × (bytes.new ≡ bytes.old)) }
    {
        let _ = bytes;
        Ok(0)
    }

    fn on_command_complete<C: ClientInfo + Outgoing>(
        &mut self,
        alloc: Global,
        client: &mut C,
        message: CommandComplete,
    ) -> PgWireClientResult<()>
        ensures means { means (standing self.old (C.sight client.old)) (on_command_complete message)
            (standing self.new (C.sight client.new)) (pending result) }
        ensures leaves { Leaves C.own C.rest C.faults C.sight client.old client.new result };

    fn on_empty_query<C: ClientInfo + Outgoing>(
        &mut self,
        alloc: Global,
        client: &mut C,
        message: EmptyQueryResponse,
    ) -> PgWireClientResult<()>
        ensures means { means (standing self.old (C.sight client.old)) (on_empty_query message)
            (standing self.new (C.sight client.new)) (pending result) }
        ensures leaves { Leaves C.own C.rest C.faults C.sight client.old client.new result };

    /// Leaves a parameter that the server reports to the client.
    fn on_parameter_status<C: ClientInfo + Outgoing>(
        &mut self,
        alloc: Global,
        client: &mut C,
        message: ParameterStatus,
    ) -> PgWireClientResult<()>
        ensures means { means (standing self.old (C.sight client.old)) (on_parameter_status message)
            (standing self.new (C.sight client.new)) (pending result) }
        ensures leaves { Leaves C.own C.rest C.faults C.sight client.old client.new result }
    {
        let ParameterStatus { name, value } = message;
        client.set_server_parameter(name, value)?;
        Ok(())
    }

    /// Hears a notice of the server's, and does nothing with it.
    fn on_notice<C: ClientInfo + Outgoing>(
        &mut self,
        alloc: Global,
        client: &mut C,
        message: NoticeResponse,
    ) -> PgWireClientResult<()>
        ensures means { means (standing self.old (C.sight client.old)) (on_notice message)
            (standing self.new (C.sight client.new)) (pending result) }
        ensures leaves { Leaves C.own C.rest C.faults C.sight client.old client.new result }
    {
        drop(message);
        Ok(())
    }

    /// Hears a notification, which a session gets that listens to a channel. It has no place here;
    /// a handler that listens takes it by a body of its own.
    fn on_notification<C: ClientInfo + Outgoing>(
        &mut self,
        alloc: Global,
        client: &mut C,
        message: NotificationResponse,
    ) -> PgWireClientResult<()>
        ensures means { means (standing self.old (C.sight client.old)) (on_notification message)
            (standing self.new (C.sight client.new)) (pending result) }
        ensures leaves { Leaves C.own C.rest C.faults C.sight client.old client.new result }
    {
        let message = PgWireBackendMessage::NotificationResponse(message);
        Err(misplaced(alloc, message))
    }

    /// The responses, in order.
    fn on_ready_for_query<C: ClientInfo + Outgoing>(
        &mut self,
        alloc: Global,
        client: &mut C,
        message: ReadyForQuery,
    ) -> PgWireClientResult<Listed<Self::QueryResponse>>
        ensures means { means (standing self.old (C.sight client.old)) (on_ready_for_query message)
            (standing self.new (C.sight client.new)) (ready_answer result) }
        ensures leaves { Leaves C.own C.rest C.faults C.sight client.old client.new result };

    /// The handler may do as the trait's own bodies: leave a parameter to the client,
    ghost keeps: { (before after : HandlerView Self) (m : TheStatus)
        (answer : CallAnswer (List Self.QueryResponse)) → KeepsParameter m before after answer →
        means before (on_parameter_status m) after answer };

    /// do nothing with a notice,
    ghost passes: { (before after : HandlerView Self) (m : TheNotice)
        (answer : CallAnswer (List Self.QueryResponse)) → HandlerStays before after answer →
        means before (on_notice m) after answer };

    /// and have no place for a notification.
    ghost misplaces: { (before after : HandlerView Self) (m : TheNotification)
        (answer : CallAnswer (List Self.QueryResponse)) → HandlerMisplaces m before after answer →
        means before (on_notification m) after answer };
}
