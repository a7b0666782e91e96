//! Where a handler's messages go.
ghost use Rattle.std.specs.Prelude.{◌≡◌, OnOk, IfErr};
ghost use Rattle.pgw_frontend.specs.Frontend.{encoding};
ghost use Rattle.pgw_handlers.specs.Sending.{Sent, NotSent, IsSpelled, SendLeavesUsable};
ghost use Rattle.pgw_handlers.specs.Handling.{Leaves};

use crate::client_info::Seen;
use pgw_backend::client_error::PgWireClientResult;
use pgw_frontend::frontend::PgWireFrontendMessage;

/// Sends a client's messages.
pub trait Outgoing: Seen {
    /// Writes a message and flushes. A message that has no spelling leaves the client as it was, any other error
    /// unusable.
    fn send(&mut self, message: PgWireFrontendMessage) -> PgWireClientResult<()>
        ensures sent { OnOk result (Sent (encoding message) (Self.sight self.old)
            (Self.sight self.new)) }
        ensures failed { IfErr result (λ e. NotSent (encoding message) (Self.sight self.old)
            (Self.sight self.new) e) }
        ensures spelled { IsSpelled (encoding message) result }
        ensures client { (Self.sight self.new).client ≡ (Self.sight self.old).client }
        ensures usable { SendLeavesUsable result (Self.sight self.old).broken
            (Self.sight self.new).broken }
        ensures leaves { Leaves Self.own Self.rest Self.faults Self.sight self.old self.new
            result };
}
