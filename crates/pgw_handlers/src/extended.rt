//! What a client asks extended queries by.
ghost use Rattle.std.specs.Prelude.{◌≡◌, Ok, Err, IfOk, OnErr};
ghost use Rattle.pgw_query.specs.Rows.{NoticeResponse as TheNotice};
ghost use Rattle.pgw_query.specs.declared.notification.NotificationResponse.{NotificationResponse as TheNotification};
ghost use Rattle.pgw_backend.specs.declared.backend.PgWireBackendMessage.TheVariants as backend;
ghost use Rattle.pgw_backend.specs.declared.client_error.PgWireClientError.{PgWireClientError as ClientError};
ghost use Rattle.pgw_backend.specs.ClientError.{IsUnexpected};
ghost use Rattle.pgw_handlers.specs.Client.{Sight};
ghost use Rattle.pgw_handlers.specs.Handling.{HandlerView, standing, Leaves, HasOwnCause};
ghost use Rattle.pgw_handlers.specs.Extended.{ExtendedCall, parse, bind, execute, describe, close, sync, flush, on_parameter_description, on_row_description, on_data_row, on_command_complete, on_portal_suspended, on_notice, on_notification, Given, nothing, given_nothing, of_types, of_columns, of_response, of_tag, TakesExtendedRows};

use crate::causes::misplaced;
use crate::client_info::ClientInfo;
use crate::outgoing::Outgoing;
use crate::responses::ResponseList;
use pgw_backend::backend::PgWireBackendMessage;
use pgw_backend::client_error::PgWireClientResult;
use pgw_ext::extendedquery::{Bind, Close, Describe, Execute, Flush, Parse, Sync};
use pgw_query::data::{DataRow, RowDescription};
use pgw_query::description::ParameterDescription;
use pgw_query::field_info::FieldInfo;
use pgw_query::notification::NotificationResponse;
use pgw_query::pg_type::PgType;
use pgw_query::response::{CommandComplete, NoticeResponse};
use pgw_query::tag::Tag;
use pgw_types::listed::Listed;
use pgw_types::memory::OutOfMemory;
use pgw_types::octets::Octets;
use std::alloc::Global;

/// Sends the messages of extended queries, and makes something of what the server answers them with.
pub trait ExtendedQueryHandler {
    type QueryResponse: Drop;

    /// Where they are kept: `Listed<Self::QueryResponse>`, where no list of another kind serves better.
    type Responses: ResponseList<Response = Self::QueryResponse>;

    /// What the handler does: a call leads from one standing to another, and gives the reply.
    ghost means: { HandlerView Self → ExtendedCall → HandlerView Self → Given Self.QueryResponse →
        Type 0 };

    fn parse<C: ClientInfo + Outgoing>(
        &mut self,
        alloc: Global,
        client: &mut C,
        message: Parse,
    ) -> PgWireClientResult<()>
        ensures means { means (standing self.old (C.sight client.old)) (parse message)
            (standing self.new (C.sight client.new)) (given_nothing result) }
        ensures leaves { Leaves C.own C.rest C.faults C.sight client.old client.new result };

    fn bind<C: ClientInfo + Outgoing>(
        &mut self,
        alloc: Global,
        client: &mut C,
        message: Bind,
    ) -> PgWireClientResult<()>
        ensures means { means (standing self.old (C.sight client.old)) (bind message)
            (standing self.new (C.sight client.new)) (given_nothing result) }
        ensures leaves { Leaves C.own C.rest C.faults C.sight client.old client.new result };

    fn execute<C: ClientInfo + Outgoing>(
        &mut self,
        alloc: Global,
        client: &mut C,
        message: Execute,
    ) -> PgWireClientResult<()>
        ensures means { means (standing self.old (C.sight client.old)) (execute message)
            (standing self.new (C.sight client.new)) (given_nothing result) }
        ensures leaves { Leaves C.own C.rest C.faults C.sight client.old client.new result };

    fn describe<C: ClientInfo + Outgoing>(
        &mut self,
        alloc: Global,
        client: &mut C,
        message: Describe,
    ) -> PgWireClientResult<()>
        ensures means { means (standing self.old (C.sight client.old)) (describe message)
            (standing self.new (C.sight client.new)) (given_nothing result) }
        ensures leaves { Leaves C.own C.rest C.faults C.sight client.old client.new result };

    fn close<C: ClientInfo + Outgoing>(
        &mut self,
        alloc: Global,
        client: &mut C,
        message: Close,
    ) -> PgWireClientResult<()>
        ensures means { means (standing self.old (C.sight client.old)) (close message)
            (standing self.new (C.sight client.new)) (given_nothing result) }
        ensures leaves { Leaves C.own C.rest C.faults C.sight client.old client.new result };

    fn sync<C: ClientInfo + Outgoing>(
        &mut self,
        alloc: Global,
        client: &mut C,
        message: Sync,
    ) -> PgWireClientResult<()>
        ensures means { means (standing self.old (C.sight client.old)) sync
            (standing self.new (C.sight client.new)) (given_nothing result) }
        ensures leaves { Leaves C.own C.rest C.faults C.sight client.old client.new result };

    fn flush<C: ClientInfo + Outgoing>(
        &mut self,
        alloc: Global,
        client: &mut C,
        message: Flush,
    ) -> PgWireClientResult<()>
        ensures means { means (standing self.old (C.sight client.old)) flush
            (standing self.new (C.sight client.new)) (given_nothing result) }
        ensures leaves { Leaves C.own C.rest C.faults C.sight client.old client.new result };

    /// The types of the parameters.
    fn on_parameter_description(
        &mut self,
        alloc: Global,
        message: ParameterDescription,
    ) -> PgWireClientResult<Listed<PgType>>
        ensures means { (seen : Sight) → means (standing self.old seen)
            (on_parameter_description message) (standing self.new seen) (of_types result) }
        ensures cause { HasOwnCause result };

    /// The columns.
    fn on_row_description(
        &mut self,
        alloc: Global,
        message: RowDescription,
    ) -> PgWireClientResult<Listed<FieldInfo>>
        ensures means { (seen : Sight) → means (standing self.old seen) (on_row_description message)
            (standing self.new seen) (of_columns result) }
        ensures cause { HasOwnCause result };

    /// What is made of a row.
    fn on_data_row(
        &mut self,
        alloc: Global,
        message: DataRow,
    ) -> PgWireClientResult<Self::QueryResponse>
        ensures means { (seen : Sight) → means (standing self.old seen) (on_data_row message)
            (standing self.new seen) (of_response result) }
        ensures cause { HasOwnCause result };

    /// Takes rows that stand whole at the front of some bytes, as many as it likes, hears them as
    /// `on_data_row` hears each, and keeps what it makes of them; answers how many. A client calls it
    /// before it takes a message. By its own body it takes none.
    #[tactic(auto, using(crate::proofs::RowLaws::gives_none))]
    fn take_rows(
        &mut self,
        bytes: &mut Octets,
        responses: &mut Self::Responses,
    ) -> Result<usize, OutOfMemory>
        ensures taken { IfOk result (TakesExtendedRows means self.old self.new
            (Self.Responses.listed responses.old) (Self.Responses.listed responses.new)
            bytes.old bytes.new) }
        ensures err { OnErr result ((self.new ≡ self.old) × (responses.new ≡ responses.old) ×
            (bytes.new ≡ bytes.old)) }
    {
        let _ = bytes;
        let _ = responses;
        Ok(0)
    }

    fn on_command_complete(
        &mut self,
        alloc: Global,
        message: CommandComplete,
    ) -> PgWireClientResult<Tag>
        ensures means { (seen : Sight) → means (standing self.old seen)
            (on_command_complete message) (standing self.new seen) (of_tag result) }
        ensures cause { HasOwnCause result };

    fn on_portal_suspended(&mut self, alloc: Global) -> PgWireClientResult<()>
        ensures means { (seen : Sight) → means (standing self.old seen) on_portal_suspended
            (standing self.new seen) (given_nothing result) }
        ensures cause { HasOwnCause result };

    /// Hears a notice of the server's, and does nothing with it.
    fn on_notice(&mut self, alloc: Global, message: NoticeResponse) -> PgWireClientResult<()>
        ensures means { (seen : Sight) → means (standing self.old seen) (on_notice message)
            (standing self.new seen) (given_nothing result) }
        ensures cause { HasOwnCause result }
    {
        drop(message);
        Ok(())
    }

    /// Hears a notification, which a session gets that listens to a channel. It has no place here;
    /// a handler that listens takes it by a body of its own.
    fn on_notification(
        &mut self,
        alloc: Global,
        message: NotificationResponse,
    ) -> PgWireClientResult<()>
        ensures means { (seen : Sight) → means (standing self.old seen) (on_notification message)
            (standing self.new seen) (given_nothing result) }
        ensures cause { HasOwnCause result }
    {
        let message = PgWireBackendMessage::NotificationResponse(message);
        Err(misplaced(alloc, message))
    }

    /// The handler may do as the trait's own bodies: do nothing with a notice,
    ghost passes: { (before : HandlerView Self) (m : TheNotice) →
        means before (on_notice m) before (Ok nothing) };

    /// and have no place for a notification.
    ghost misplaces: { (before : HandlerView Self) (m : TheNotification) (e : ClientError) →
        IsUnexpected (backend.NotificationResponse m) e →
        means before (on_notification m) before (Err e) };
}
