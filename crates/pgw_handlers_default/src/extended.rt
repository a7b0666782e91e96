//! The default handler of extended queries.
ghost use Rattle.std.specs.Prelude.{◌≡◌, None};
ghost use Rattle.pgw_handlers_default.specs.Rows.{rows_of_last};

use pgw_backend::client_error::PgWireClientResult;
use pgw_dialogue::answers::{columns, types};
use pgw_ext::extendedquery::{Bind, Close, Describe, Execute, Flush, Parse, Sync};
use pgw_frontend::frontend::PgWireFrontendMessage;
use pgw_handlers::{ClientInfo, ExtendedQueryHandler, Outgoing};
use pgw_query::data::{DataRow, RowDescription};
use pgw_query::data_rows::DataRows;
use pgw_query::description::ParameterDescription;
use pgw_query::field_info::FieldInfo;
use pgw_query::pg_type::PgType;
use pgw_query::response::CommandComplete;
use pgw_query::tag::Tag;
use pgw_types::listed::{Duplicate, Listed};
use pgw_types::memory::OutOfMemory;
use pgw_types::octets::Octets;
use std::alloc::Global;

/// Its responses are the rows. It keeps the command tag of the last portal that it ran, once that has ended.
#[derive(Debug, Drop)]
pub struct DefaultExtendedQueryHandler {
    pub last_tag: Option<Tag>,
}

impl DefaultExtendedQueryHandler {
    pub fn new() -> DefaultExtendedQueryHandler
        ensures { result ≡ record { last_tag = None } }
    {
        DefaultExtendedQueryHandler { last_tag: None }
    }

    /// How many rows the last command inserted, changed, deleted or gave, where its tag tells it.
    pub fn last_rows(&self) -> Option<usize>
        ensures { result ≡ rows_of_last self.now.last_tag }
    {
        match &self.last_tag {
            Some(tag) => tag.rows,
            None => None,
        }
    }
}

impl ExtendedQueryHandler for DefaultExtendedQueryHandler {
    ghost use Rattle.std.specs.Prelude.{Ok, Err};
    ghost use Rattle.pgw_handlers_default.specs.Extended.{ExtendedMeans, misplaces_notifications, passes_extended_notices};

    type QueryResponse = DataRow;

    type Responses = DataRows;

    ghost means = { ExtendedMeans };

    ghost passes = { passes_extended_notices };

    ghost misplaces = { misplaces_notifications };

    fn parse<C: ClientInfo + Outgoing>(
        &mut self,
        _alloc: Global,
        client: &mut C,
        message: Parse,
    ) -> PgWireClientResult<()> {
        client.send(PgWireFrontendMessage::Parse(message))
    }

    fn bind<C: ClientInfo + Outgoing>(
        &mut self,
        _alloc: Global,
        client: &mut C,
        message: Bind,
    ) -> PgWireClientResult<()> {
        client.send(PgWireFrontendMessage::Bind(message))
    }

    fn execute<C: ClientInfo + Outgoing>(
        &mut self,
        _alloc: Global,
        client: &mut C,
        message: Execute,
    ) -> PgWireClientResult<()> {
        self.last_tag = None;
        client.send(PgWireFrontendMessage::Execute(message))
    }

    fn describe<C: ClientInfo + Outgoing>(
        &mut self,
        _alloc: Global,
        client: &mut C,
        message: Describe,
    ) -> PgWireClientResult<()> {
        client.send(PgWireFrontendMessage::Describe(message))
    }

    fn close<C: ClientInfo + Outgoing>(
        &mut self,
        _alloc: Global,
        client: &mut C,
        message: Close,
    ) -> PgWireClientResult<()> {
        client.send(PgWireFrontendMessage::Close(message))
    }

    fn sync<C: ClientInfo + Outgoing>(
        &mut self,
        _alloc: Global,
        client: &mut C,
        message: Sync,
    ) -> PgWireClientResult<()> {
        client.send(PgWireFrontendMessage::Sync(message))
    }

    fn flush<C: ClientInfo + Outgoing>(
        &mut self,
        _alloc: Global,
        client: &mut C,
        message: Flush,
    ) -> PgWireClientResult<()> {
        client.send(PgWireFrontendMessage::Flush(message))
    }

    fn on_parameter_description(
        &mut self,
        alloc: Global,
        message: ParameterDescription,
    ) -> PgWireClientResult<Listed<PgType>> {
        Ok(types(alloc, message.types.as_slice())?)
    }

    fn on_row_description(
        &mut self,
        alloc: Global,
        message: RowDescription,
    ) -> PgWireClientResult<Listed<FieldInfo>> {
        Ok(columns(alloc, message.fields.into_vec())?)
    }

    fn on_data_row(&mut self, _alloc: Global, message: DataRow) -> PgWireClientResult<DataRow> {
        Ok(message)
    }

    // Rows are kept as they lie.
    fn take_rows(&mut self, bytes: &mut Octets, rows: &mut DataRows) -> Result<usize, OutOfMemory> {
        rows.take_front(bytes)
    }

    fn on_command_complete(
        &mut self,
        alloc: Global,
        message: CommandComplete,
    ) -> PgWireClientResult<Tag> {
        let tag = Tag::from_text(alloc, message.tag)?;
        self.last_tag = Some(tag.duplicate()?);
        Ok(tag)
    }

    fn on_portal_suspended(&mut self, _alloc: Global) -> PgWireClientResult<()> {
        Ok(())
    }
}
