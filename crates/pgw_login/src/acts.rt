//! Sending, as an act.
ghost use Rattle.std.specs.Prelude.{◌≡◌, OnOk, ◌∷◌, []};
ghost use Rattle.pgw_login.specs.Acts.{standing_in_login, Sends, Did};
ghost use Rattle.pgw_login.specs.declared.state.LoginState.{LoginState as TheState};
ghost use Rattle.pgw_login.specs.Client.{LoginClient};

use crate::outbox::Outbox;
use pgw_backend::backend::PgWireBackendMessage;
use pgw_types::error::PgWireResult;

/// Hands some messages on.
pub fn feed_all<O: Outbox>(out: &mut O, messages: Vec<PgWireBackendMessage>) -> PgWireResult<()>
    ensures { (client : LoginClient) (login : TheState) →
        Did O.add (O.sent out.old) (O.sent out.new) (Sends messages.items)
        (standing_in_login client login (O.faults out.old))
        (standing_in_login client login (O.faults out.new))
        result }
{
    for message in messages {
        out.feed(message)?;
    }
    Ok(())
}

/// Sends a message on, with all that wait.
pub fn send<O: Outbox>(out: &mut O, message: PgWireBackendMessage) -> PgWireResult<()>
    ensures sent { (client : LoginClient) (login : TheState) →
        Did O.add (O.sent out.old) (O.sent out.new) (Sends (message ∷ []))
        (standing_in_login client login (O.faults out.old))
        (standing_in_login client login (O.faults out.new))
        result }
    ensures flushed { OnOk result (O.waiting out.new ≡ 0) }
{
    out.send(message)
}
