//! What a client logs in by.
ghost use Rattle.std.specs.Prelude.{◌≡◌, Bool, IfOk};
ghost use Rattle.pgw_startup.specs.declared.negotiate.NegotiateProtocolVersion.{NegotiateProtocolVersion as TheOffer};
ghost use Rattle.pgw_startup.specs.declared.parameter_status.ParameterStatus.{ParameterStatus as TheStatus};
ghost use Rattle.pgw_query.specs.Rows.{NoticeResponse as TheNotice};
ghost use Rattle.pgw_query.specs.declared.notification.NotificationResponse.{NotificationResponse as TheNotification};
ghost use Rattle.pgw_handlers.specs.declared.client_info.ServerInformation.{ServerInformation as TheInformation};
ghost use Rattle.pgw_handlers.specs.Handling.{HandlerView, standing, CallAnswer, pending, ready_answer, EndsAtReady, KeepsParameter, HandlerStays, HandlerMisplaces, Leaves};
ghost use Rattle.pgw_handlers.specs.Startup.{StartupCall, startup, on_authentication, on_negotiate_protocol_version, on_parameter_status, on_notice, on_notification, on_backend_key, on_ready_for_query, SettlesVersion, HeardAtStartup};

use crate::causes::{admitted, misplaced};
use crate::client_info::{ClientInfo, ReadyState, ServerInformation};
use crate::outgoing::Outgoing;
use pgw_backend::backend::PgWireBackendMessage;
use pgw_backend::client_error::{PgWireClientError, PgWireClientResult};
use pgw_query::notification::NotificationResponse;
use pgw_query::response::{NoticeResponse, ReadyForQuery};
use pgw_startup::authentication::Authentication;
use pgw_startup::backend_key_data::BackendKeyData;
use pgw_startup::negotiate::{NegotiateProtocolVersion, negotiated_version};
use pgw_startup::parameter_status::ParameterStatus;
use std::alloc::Global;

/// Logs a client in: it sends what begins a connection, and hears the server's messages up to the first ReadyForQuery.
pub trait StartupHandler {
    /// What the handler does: a call leads from one standing to another, and gives the answer.
    ghost means: { HandlerView Self → StartupCall → HandlerView Self → CallAnswer TheInformation →
        Type 0 };

    /// Whether the handler is within a login exchange, where a server says nothing else than the next of it.
    ghost exchanges: { Self → Bool };

    fn in_exchange(&self) -> bool
        ensures { result ≡ exchanges self.now };

    /// Begins the connection.
    fn startup<C: ClientInfo + Outgoing>(
        &mut self,
        alloc: Global,
        client: &mut C,
    ) -> PgWireClientResult<()>
        ensures means { means (standing self.old (C.sight client.old)) startup
            (standing self.new (C.sight client.new)) (pending result) }
        ensures leaves { Leaves C.own C.rest C.faults C.sight client.old client.new result };

    /// Hears a message: hands it to its function, and sets the status that a ReadyForQuery tells before that. Within a
    /// login exchange only an authentication request and an error have one.
    fn on_message<C: ClientInfo + Outgoing>(
        &mut self,
        alloc: Global,
        client: &mut C,
        message: PgWireBackendMessage,
    ) -> PgWireClientResult<ReadyState<ServerInformation>>
        ensures means { HeardAtStartup exchanges means (standing self.old (C.sight client.old))
            message (standing self.new (C.sight client.new)) result }
        ensures ready { IfOk result (EndsAtReady message) }
        ensures leaves { Leaves C.own C.rest C.faults C.sight client.old client.new result }
    {
        let message = admitted(alloc, self.in_exchange(), message)?;
        match message {
            PgWireBackendMessage::Authentication(m) => {
                self.on_authentication(alloc, client, m)?;
                Ok(ReadyState::Pending)
            }
            PgWireBackendMessage::NegotiateProtocolVersion(m) => {
                self.on_negotiate_protocol_version(alloc, client, m)?;
                Ok(ReadyState::Pending)
            }
            PgWireBackendMessage::ParameterStatus(m) => {
                self.on_parameter_status(alloc, client, m)?;
                Ok(ReadyState::Pending)
            }
            PgWireBackendMessage::BackendKeyData(m) => {
                self.on_backend_key(alloc, client, m)?;
                Ok(ReadyState::Pending)
            }
            PgWireBackendMessage::ReadyForQuery(m) => {
                client.set_transaction_status(m.status);
                let information = self.on_ready_for_query(alloc, client, m)?;
                Ok(ReadyState::Ready(information))
            }
            PgWireBackendMessage::ErrorResponse(m) => Err(PgWireClientError::RemoteError(m)),
            PgWireBackendMessage::NoticeResponse(m) => {
                self.on_notice(alloc, client, m)?;
                Ok(ReadyState::Pending)
            }
            PgWireBackendMessage::NotificationResponse(m) => {
                self.on_notification(alloc, client, m)?;
                Ok(ReadyState::Pending)
            }
            other => Err(misplaced(alloc, other)),
        }
    }

    fn on_authentication<C: ClientInfo + Outgoing>(
        &mut self,
        alloc: Global,
        client: &mut C,
        message: Authentication,
    ) -> PgWireClientResult<()>
        ensures means { means (standing self.old (C.sight client.old)) (on_authentication message)
            (standing self.new (C.sight client.new)) (pending result) }
        ensures leaves { Leaves C.own C.rest C.faults C.sight client.old client.new result };

    /// Settles on the version that the server offers, where the client knows it.
    fn on_negotiate_protocol_version<C: ClientInfo + Outgoing>(
        &mut self,
        alloc: Global,
        client: &mut C,
        message: NegotiateProtocolVersion,
    ) -> PgWireClientResult<()>
        ensures means { means (standing self.old (C.sight client.old))
            (on_negotiate_protocol_version message) (standing self.new (C.sight client.new))
            (pending result) }
        ensures leaves { Leaves C.own C.rest C.faults C.sight client.old client.new result }
    {
        match negotiated_version(&message) {
            Some(version) => {
                client.set_protocol_version(version);
                Ok(())
            }
            None => {
                let message = PgWireBackendMessage::NegotiateProtocolVersion(message);
                Err(misplaced(alloc, message))
            }
        }
    }

    /// Leaves a parameter that the server reports to the client.
    fn on_parameter_status<C: ClientInfo + Outgoing>(
        &mut self,
        alloc: Global,
        client: &mut C,
        message: ParameterStatus,
    ) -> PgWireClientResult<()>
        ensures means { means (standing self.old (C.sight client.old)) (on_parameter_status message)
            (standing self.new (C.sight client.new)) (pending result) }
        ensures leaves { Leaves C.own C.rest C.faults C.sight client.old client.new result }
    {
        let ParameterStatus { name, value } = message;
        client.set_server_parameter(name, value)?;
        Ok(())
    }

    /// Hears a notice of the server's, and does nothing with it.
    fn on_notice<C: ClientInfo + Outgoing>(
        &mut self,
        alloc: Global,
        client: &mut C,
        message: NoticeResponse,
    ) -> PgWireClientResult<()>
        ensures means { means (standing self.old (C.sight client.old)) (on_notice message)
            (standing self.new (C.sight client.new)) (pending result) }
        ensures leaves { Leaves C.own C.rest C.faults C.sight client.old client.new result }
    {
        drop(message);
        Ok(())
    }

    /// Hears a notification, which a session gets that listens to a channel. It has no place here;
    /// a handler that listens takes it by a body of its own.
    fn on_notification<C: ClientInfo + Outgoing>(
        &mut self,
        alloc: Global,
        client: &mut C,
        message: NotificationResponse,
    ) -> PgWireClientResult<()>
        ensures means { means (standing self.old (C.sight client.old)) (on_notification message)
            (standing self.new (C.sight client.new)) (pending result) }
        ensures leaves { Leaves C.own C.rest C.faults C.sight client.old client.new result }
    {
        let message = PgWireBackendMessage::NotificationResponse(message);
        Err(misplaced(alloc, message))
    }

    fn on_backend_key<C: ClientInfo + Outgoing>(
        &mut self,
        alloc: Global,
        client: &mut C,
        message: BackendKeyData,
    ) -> PgWireClientResult<()>
        ensures means { means (standing self.old (C.sight client.old)) (on_backend_key message)
            (standing self.new (C.sight client.new)) (pending result) }
        ensures leaves { Leaves C.own C.rest C.faults C.sight client.old client.new result };

    /// What the server told of itself.
    fn on_ready_for_query<C: ClientInfo + Outgoing>(
        &mut self,
        alloc: Global,
        client: &mut C,
        message: ReadyForQuery,
    ) -> PgWireClientResult<ServerInformation>
        ensures means { means (standing self.old (C.sight client.old)) (on_ready_for_query message)
            (standing self.new (C.sight client.new)) (ready_answer result) }
        ensures leaves { Leaves C.own C.rest C.faults C.sight client.old client.new result };

    /// The handler may do as the trait's own bodies: settle on a version,
    ghost settles: { (before after : HandlerView Self) (m : TheOffer)
        (answer : CallAnswer TheInformation) → SettlesVersion m before after answer →
        means before (on_negotiate_protocol_version m) after answer };

    /// leave a parameter to the client,
    ghost keeps: { (before after : HandlerView Self) (m : TheStatus)
        (answer : CallAnswer TheInformation) →
        KeepsParameter m before after answer → means before (on_parameter_status m) after answer };

    /// do nothing with a notice,
    ghost passes: { (before after : HandlerView Self) (m : TheNotice)
        (answer : CallAnswer TheInformation) → HandlerStays before after answer →
        means before (on_notice m) after answer };

    /// and have no place for a notification.
    ghost misplaces: { (before after : HandlerView Self) (m : TheNotification)
        (answer : CallAnswer TheInformation) → HandlerMisplaces m before after answer →
        means before (on_notification m) after answer };
}
