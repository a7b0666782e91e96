//! A handler of a caller's own that listens: it keeps the notices and notifications that it hears.
ghost use Rattle.std.specs.Prelude.{⊤};

use pgw_backend::client_error::PgWireClientResult;
use pgw_client::{DataRows, Listed, Text};
use pgw_client_calls::{
    ClientInfo, ExtendedQueryHandler, Outgoing, PgWireFrontendMessage, SimpleQueryHandler,
};
use pgw_ext::extendedquery::{Bind, Close, Describe, Execute, Flush, Parse, Sync};
use pgw_query::data::{DataRow, RowDescription};
use pgw_query::description::ParameterDescription;
use pgw_query::field_info::FieldInfo;
use pgw_query::notification::NotificationResponse;
use pgw_query::pg_type::PgType;
use pgw_query::response::{CommandComplete, EmptyQueryResponse, NoticeResponse, ReadyForQuery};
use pgw_query::simplequery::Query;
use pgw_query::tag::Tag;
use pgw_types::memory::OutOfMemory;
use std::alloc::Global;
use std::mem::replace;

/// What it heard since its last answer.
#[derive(Drop)]
pub struct Listener {
    pub heard: Listed<Text>,
}

impl Listener {
    pub fn new(alloc: Global) -> Listener {
        Listener {
            heard: Listed::new(alloc),
        }
    }

    // Keeps the codes of a notice's fields.
    fn keep_notice(&mut self, alloc: Global, message: NoticeResponse) -> Result<(), OutOfMemory> {
        for (_code, text) in message.fields.into_vec() {
            self.heard.push(text)?;
        }
        self.heard.push(Text::from_str(alloc, "noticed")?)?;
        Ok(())
    }

    fn keep(&mut self, message: NotificationResponse) -> Result<(), OutOfMemory> {
        self.heard.push(message.channel)?;
        self.heard.push(message.payload)?;
        Ok(())
    }
}

impl SimpleQueryHandler for Listener {
    type QueryResponse = Text;

    ghost means = { λ before call after answer. ⊤ };

    ghost keeps = { λ before after m answer kept. tt };

    ghost passes = { λ before after m answer passed. tt };

    ghost misplaces = { λ before after m answer refused. tt };

    fn simple_query<C: ClientInfo + Outgoing>(
        &mut self,
        alloc: Global,
        client: &mut C,
        query: &str,
    ) -> PgWireClientResult<()> {
        let query = Query::new(Text::from_str(alloc, query)?);
        client.send(PgWireFrontendMessage::Query(query))
    }

    fn on_row_description<C: ClientInfo + Outgoing>(
        &mut self,
        _alloc: Global,
        _client: &mut C,
        _message: RowDescription,
    ) -> PgWireClientResult<()> {
        Ok(())
    }

    fn on_data_row<C: ClientInfo + Outgoing>(
        &mut self,
        _alloc: Global,
        _client: &mut C,
        _message: DataRow,
    ) -> PgWireClientResult<()> {
        Ok(())
    }

    fn on_command_complete<C: ClientInfo + Outgoing>(
        &mut self,
        _alloc: Global,
        _client: &mut C,
        _message: CommandComplete,
    ) -> PgWireClientResult<()> {
        Ok(())
    }

    fn on_empty_query<C: ClientInfo + Outgoing>(
        &mut self,
        _alloc: Global,
        _client: &mut C,
        _message: EmptyQueryResponse,
    ) -> PgWireClientResult<()> {
        Ok(())
    }

    fn on_notice<C: ClientInfo + Outgoing>(
        &mut self,
        alloc: Global,
        _client: &mut C,
        message: NoticeResponse,
    ) -> PgWireClientResult<()> {
        Ok(self.keep_notice(alloc, message)?)
    }

    fn on_notification<C: ClientInfo + Outgoing>(
        &mut self,
        _alloc: Global,
        _client: &mut C,
        message: NotificationResponse,
    ) -> PgWireClientResult<()> {
        Ok(self.keep(message)?)
    }

    fn on_ready_for_query<C: ClientInfo + Outgoing>(
        &mut self,
        alloc: Global,
        _client: &mut C,
        _message: ReadyForQuery,
    ) -> PgWireClientResult<Listed<Text>> {
        Ok(replace(&mut self.heard, Listed::new(alloc)))
    }
}

impl ExtendedQueryHandler for Listener {
    type QueryResponse = DataRow;

    type Responses = DataRows;

    ghost means = { λ before call after reply. ⊤ };

    ghost passes = { λ before m. tt };

    ghost misplaces = { λ before m e refused. tt };

    fn parse<C: ClientInfo + Outgoing>(
        &mut self,
        _alloc: Global,
        client: &mut C,
        message: Parse,
    ) -> PgWireClientResult<()> {
        client.send(PgWireFrontendMessage::Parse(message))
    }

    fn bind<C: ClientInfo + Outgoing>(
        &mut self,
        _alloc: Global,
        client: &mut C,
        message: Bind,
    ) -> PgWireClientResult<()> {
        client.send(PgWireFrontendMessage::Bind(message))
    }

    fn execute<C: ClientInfo + Outgoing>(
        &mut self,
        _alloc: Global,
        client: &mut C,
        message: Execute,
    ) -> PgWireClientResult<()> {
        client.send(PgWireFrontendMessage::Execute(message))
    }

    fn describe<C: ClientInfo + Outgoing>(
        &mut self,
        _alloc: Global,
        client: &mut C,
        message: Describe,
    ) -> PgWireClientResult<()> {
        client.send(PgWireFrontendMessage::Describe(message))
    }

    fn close<C: ClientInfo + Outgoing>(
        &mut self,
        _alloc: Global,
        client: &mut C,
        message: Close,
    ) -> PgWireClientResult<()> {
        client.send(PgWireFrontendMessage::Close(message))
    }

    fn sync<C: ClientInfo + Outgoing>(
        &mut self,
        _alloc: Global,
        client: &mut C,
        message: Sync,
    ) -> PgWireClientResult<()> {
        client.send(PgWireFrontendMessage::Sync(message))
    }

    fn flush<C: ClientInfo + Outgoing>(
        &mut self,
        _alloc: Global,
        client: &mut C,
        message: Flush,
    ) -> PgWireClientResult<()> {
        client.send(PgWireFrontendMessage::Flush(message))
    }

    fn on_parameter_description(
        &mut self,
        alloc: Global,
        _message: ParameterDescription,
    ) -> PgWireClientResult<Listed<PgType>> {
        Ok(Listed::new(alloc))
    }

    fn on_row_description(
        &mut self,
        alloc: Global,
        _message: RowDescription,
    ) -> PgWireClientResult<Listed<FieldInfo>> {
        Ok(Listed::new(alloc))
    }

    fn on_data_row(&mut self, _alloc: Global, message: DataRow) -> PgWireClientResult<DataRow> {
        Ok(message)
    }

    fn on_command_complete(
        &mut self,
        alloc: Global,
        message: CommandComplete,
    ) -> PgWireClientResult<Tag> {
        Ok(Tag::from_text(alloc, message.tag)?)
    }

    fn on_portal_suspended(&mut self, _alloc: Global) -> PgWireClientResult<()> {
        Ok(())
    }

    fn on_notice(&mut self, alloc: Global, message: NoticeResponse) -> PgWireClientResult<()> {
        Ok(self.keep_notice(alloc, message)?)
    }

    fn on_notification(
        &mut self,
        _alloc: Global,
        message: NotificationResponse,
    ) -> PgWireClientResult<()> {
        Ok(self.keep(message)?)
    }
}
