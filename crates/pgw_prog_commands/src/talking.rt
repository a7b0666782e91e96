//! A client, as what queries are asked of.

use pgw_backend::backend::PgWireBackendMessage;
use pgw_backend::client_error::{PgWireClientError, PgWireClientResult};
use pgw_client_calls::{Outgoing, PgWireClient, PgWireFrontendMessage, ReadyState};
use pgw_link::dialer::Dialer;
use pgw_link::link::Link;
use pgw_prog_output::messages::Messages;
use pgw_query::simplequery::Query;
use pgw_types::text::Text;

/// A client, as what queries are asked of.
#[derive(Drop)]
pub struct Talking<L: Link> {
    pub client: PgWireClient<L>,
}

impl<L: Link> Messages for Talking<L> {
    ghost use Rattle.pgw_prog_output.specs.Lines.{LineFills, SendsQuery, LineTakes};
    ghost use Rattle.pgw_prog_commands.specs.Talking.{line_of_client};

    ghost line = { λ talking. line_of_client L.tape L.faults talking.client };

    #[tactic(auto, using(crate::proofs::TalkingLaws::sends, crate::proofs::TalkingLaws::unspelled))]
    fn ask(&mut self, query: &str) -> PgWireClientResult<()> {
        match Text::from_str(self.client.alloc(), query) {
            Ok(query) => self
                .client
                .send(PgWireFrontendMessage::Query(Query::new(query))),
            Err(_) => Err(PgWireClientError::OutOfMemory),
        }
    }

    #[tactic(auto, using(crate::proofs::TalkingLaws::none_taken, crate::proofs::TalkingLaws::one_taken, crate::proofs::TalkingLaws::untaken))]
    fn next_whole(&mut self) -> PgWireClientResult<Option<PgWireBackendMessage>> {
        match self.client.poll_next() {
            Ok(ReadyState::Ready(message)) => Ok(Some(message)),
            Ok(ReadyState::Pending) => Ok(None),
            Err(error) => Err(error),
        }
    }

    #[tactic(auto, using(crate::proofs::TalkingLaws::filled))]
    fn wait(&mut self) -> PgWireClientResult<bool> {
        self.client.fill()
    }
}
