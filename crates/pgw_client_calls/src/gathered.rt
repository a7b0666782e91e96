//! What the messages of an extended query give.
ghost use Rattle.std.specs.Prelude.{◌≡◌, ◌∷◌, [], false};
ghost use Rattle.pgw_handlers.specs.Handling.{standing, OfError};
ghost use Rattle.pgw_handlers.specs.Client.{Client};
ghost use Rattle.pgw_client_calls.specs.Desk.{client_of, sight_of};
ghost use Rattle.pgw_client_calls.specs.Extended.{none_gathered, as_lists, calls_for, CallsInOrder};
ghost use Rattle.pgw_client_calls.specs.Calls.{IsUsableAfter};
ghost use Rattle.pgw_client_calls.specs.ExtendedSteps.{Heeded, TookMessage, no_error};

use crate::desk::Desk;
use pgw_backend::backend::PgWireBackendMessage;
use pgw_backend::client_error::{PgWireClientError, PgWireClientResult};
use pgw_frontend::frontend::PgWireFrontendMessage;
use pgw_handlers::{ExtendedQueryHandler, ResponseList};
use pgw_query::data::DataRow;
use pgw_query::field_info::FieldInfo;
use pgw_query::pg_type::PgType;
use pgw_types::listed::Listed;
use std::alloc::Global;

/// What the messages of a request gave.
#[derive(Drop)]
pub struct Gathered<S> {
    /// The parameters' types and the columns that were told last.
    pub types: Listed<PgType>,
    pub columns: Listed<FieldInfo>,
    /// What was made of each row.
    pub responses: S,
}

// Of no message.
pub(crate) fn nothing_gathered<S: ResponseList>(alloc: Global) -> Gathered<S>
    ensures { as_lists S.listed result ≡ none_gathered }
{
    Gathered {
        types: Listed::new(alloc),
        columns: Listed::new(alloc),
        responses: S::no_responses(alloc),
    }
}

// ---- openings

// Hands a message of an opening to its function.
fn hand<H: ExtendedQueryHandler>(
    alloc: Global,
    handler: &mut H,
    desk: &mut Desk,
    message: PgWireFrontendMessage,
) -> PgWireClientResult<()>
    ensures opens { CallsInOrder H.means (calls_for (message ∷ []))
        (standing handler.old (sight_of desk.old)) (standing handler.new (sight_of desk.new))
        result }
    ensures config { desk.new.config ≡ desk.old.config }
    ensures cause { OfError result 0 0 desk.new.broken }
{
    match message {
        PgWireFrontendMessage::Parse(m) => handler.parse(alloc, desk, m),
        PgWireFrontendMessage::Bind(m) => handler.bind(alloc, desk, m),
        PgWireFrontendMessage::Execute(m) => handler.execute(alloc, desk, m),
        PgWireFrontendMessage::Describe(m) => handler.describe(alloc, desk, m),
        PgWireFrontendMessage::Close(m) => handler.close(alloc, desk, m),
        PgWireFrontendMessage::Sync(m) => handler.sync(alloc, desk, m),
        PgWireFrontendMessage::Flush(m) => handler.flush(alloc, desk, m),
        other => {
            drop(other);
            Ok(())
        }
    }
}

// Hands the messages of an opening to their functions, up to the first that answers an error.
pub(crate) fn hand_all<H: ExtendedQueryHandler>(
    alloc: Global,
    handler: &mut H,
    desk: &mut Desk,
    messages: Vec<PgWireFrontendMessage>,
) -> PgWireClientResult<()>
    ensures opens { CallsInOrder H.means (calls_for messages.items)
        (standing handler.old (sight_of desk.old)) (standing handler.new (sight_of desk.new))
        result }
    ensures config { desk.new.config ≡ desk.old.config }
    ensures cause { OfError result 0 0 desk.new.broken }
{
    for message in messages {
        match hand(alloc, handler, desk, message) {
            Ok(()) => {}
            Err(error) => return Err(error),
        }
    }
    Ok(())
}

// ---- messages

// Keeps what the handler makes of a row.
fn heed_row<H: ExtendedQueryHandler>(
    alloc: Global,
    handler: &mut H,
    gathered: &mut Gathered<H::Responses>,
    row: DataRow,
) -> PgWireClientResult<()>
    ensures heeded { (c : Client) → Heeded H.means handler.old c
        (as_lists H.Responses.listed gathered.old) (PgWireBackendMessage.DataRow row)
        handler.new (as_lists H.Responses.listed gathered.new) result }
    ensures cause { OfError result 0 0 false }
{
    match handler.on_data_row(alloc, row) {
        Ok(response) => match gathered.responses.keep(response) {
            Ok(()) => Ok(()),
            Err(_) => Err(PgWireClientError::OutOfMemory),
        },
        Err(error) => Err(error),
    }
}

// Heeds a message by its function, if it has one.
fn heed<H: ExtendedQueryHandler>(
    alloc: Global,
    handler: &mut H,
    gathered: &mut Gathered<H::Responses>,
    message: PgWireBackendMessage,
) -> PgWireClientResult<()>
    ensures heeded { (c : Client) → Heeded H.means handler.old c
        (as_lists H.Responses.listed gathered.old) message
        handler.new (as_lists H.Responses.listed gathered.new) result }
    ensures cause { OfError result 0 0 false }
{
    match message {
        PgWireBackendMessage::ParameterDescription(m) => {
            match handler.on_parameter_description(alloc, m) {
                Ok(types) => {
                    gathered.types = types;
                    Ok(())
                }
                Err(error) => Err(error),
            }
        }
        PgWireBackendMessage::RowDescription(m) => match handler.on_row_description(alloc, m) {
            Ok(columns) => {
                gathered.columns = columns;
                Ok(())
            }
            Err(error) => Err(error),
        },
        PgWireBackendMessage::DataRow(m) => heed_row(alloc, handler, gathered, m),
        PgWireBackendMessage::CommandComplete(m) => match handler.on_command_complete(alloc, m) {
            Ok(_tag) => Ok(()),
            Err(error) => Err(error),
        },
        PgWireBackendMessage::PortalSuspended(_) => handler.on_portal_suspended(alloc),
        PgWireBackendMessage::NoticeResponse(m) => handler.on_notice(alloc, m),
        PgWireBackendMessage::NotificationResponse(m) => handler.on_notification(alloc, m),
        other => {
            drop(other);
            Ok(())
        }
    }
}

// Heeds a message that has a place, and notes what it tells. An error leaves the client broken.
pub(crate) fn take<H: ExtendedQueryHandler>(
    alloc: Global,
    handler: &mut H,
    desk: &mut Desk,
    gathered: &mut Gathered<H::Responses>,
    message: PgWireBackendMessage,
) -> PgWireClientResult<()>
    requires usable { desk.old.broken ≡ false }
    ensures config { desk.new.config ≡ desk.old.config }
    ensures cause { OfError result 0 0 false }
    ensures usable { IsUsableAfter no_error result desk.new.broken }
    ensures took { TookMessage H.means handler.old (client_of desk.old)
        (as_lists H.Responses.listed gathered.old) message handler.new (client_of desk.new)
        (as_lists H.Responses.listed gathered.new) result desk.new.broken }
{
    match desk.note(&message) {
        Ok(_) => match heed(alloc, handler, gathered, message) {
            Ok(()) => Ok(()),
            Err(error) => {
                desk.broken = true;
                Err(error)
            }
        },
        Err(_) => {
            drop(message);
            desk.broken = true;
            Err(PgWireClientError::OutOfMemory)
        }
    }
}
