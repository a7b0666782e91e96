//! Where the messages of a server come from.
ghost use Rattle.pgw_prog_output.specs.Lines.{LineFills, ServerLine, SendsQuery, LineTakes};

use pgw_backend::backend::PgWireBackendMessage;
use pgw_backend::client_error::PgWireClientResult;

/// A client that asks queries, and hands out what its server says.
pub trait Messages {
    /// What is told of it and of the bytes between it and its server.
    ghost line: { Self → ServerLine };

    /// Asks a query, as a simple one.
    fn ask(&mut self, query: &str) -> PgWireClientResult<()>
        ensures { SendsQuery query.now (line self.old) (line self.new) result };

    /// Hands out the next message, or none where none is whole yet.
    fn next_whole(&mut self) -> PgWireClientResult<Option<PgWireBackendMessage>>
        ensures { LineTakes (line self.old) (line self.new) result };

    /// Waits for more bytes. False where there are no more.
    fn wait(&mut self) -> PgWireClientResult<bool>
        ensures { LineFills (line self.old) (line self.new) result };
}
