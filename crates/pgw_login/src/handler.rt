//! What handles a client's messages up to its login.
ghost use Rattle.std.specs.Prelude.{◌≡◌, OnOk, List};
ghost use Rattle.pgw_frontend.specs.declared.frontend.PgWireFrontendMessage.{PgWireFrontendMessage as TheMessage};
ghost use Rattle.pgw_backend.specs.declared.backend.PgWireBackendMessage.{PgWireBackendMessage as Backend};
ghost use Rattle.pgw_login.specs.Acts.{Standing, standing_in_login, Answer, Did};
ghost use Rattle.pgw_login.specs.Hearing.{heard};
ghost use Rattle.pgw_login.specs.declared.state.LoginState.{LoginState as TheState};

use crate::client_info::ClientInfo;
use crate::outbox::Outbox;
use crate::state::LoginState;
use pgw_frontend::frontend::PgWireFrontendMessage;
use pgw_startup::password::PasswordMessageFamily;
use pgw_startup::startup::Startup;
use pgw_types::error::PgWireResult;
use std::alloc::Global;

/// What a message of a client is to a login.
#[derive(Drop)]
pub enum Heard {
    Startup(Startup),
    Password(PasswordMessageFamily),
    Other,
}

impl Heard {
    pub fn of(message: PgWireFrontendMessage) -> Heard
        ensures { result ≡ heard message }
    {
        match message {
            PgWireFrontendMessage::Startup(startup) => Heard::Startup(startup),
            PgWireFrontendMessage::PasswordMessageFamily(message) => Heard::Password(message),
            PgWireFrontendMessage::SslNegotiation(_)
            | PgWireFrontendMessage::CancelRequest(_)
            | PgWireFrontendMessage::PortalSuspended(_)
            | PgWireFrontendMessage::Query(_)
            | PgWireFrontendMessage::Parse(_)
            | PgWireFrontendMessage::Bind(_)
            | PgWireFrontendMessage::Close(_)
            | PgWireFrontendMessage::Describe(_)
            | PgWireFrontendMessage::Execute(_)
            | PgWireFrontendMessage::Flush(_)
            | PgWireFrontendMessage::Sync(_)
            | PgWireFrontendMessage::Terminate(_)
            | PgWireFrontendMessage::CopyData(_)
            | PgWireFrontendMessage::CopyDone(_)
            | PgWireFrontendMessage::CopyFail(_) => Heard::Other,
        }
    }
}

/// Handles a client's messages up to its login.
pub trait StartupHandler {
    /// The login draws from what this handler has.
    ghost fits: { Self → TheState → Type 0 };

    /// What the handler does with a message: an act, which leads from one standing to another, with
    /// the messages that it sends and its answer.
    ghost means: { Self → TheMessage → Standing → Standing → List Backend → Answer → Type 0 };

    fn on_startup<C: ClientInfo, O: Outbox>(
        &self,
        alloc: Global,
        client: &mut C,
        out: &mut O,
        state: &mut LoginState,
        message: PgWireFrontendMessage,
    ) -> PgWireResult<()>
        requires { fits self.now state.old }
        ensures fits { fits self.now state.new }
        ensures means { Did O.add (O.sent out.old) (O.sent out.new) (means self.now message)
            (standing_in_login (C.sight client.old) state.old (O.faults out.old))
            (standing_in_login (C.sight client.new) state.new (O.faults out.new)) result }
        // Where nothing waited in the outbox before, nothing waits there behind an answer that is Ok.
        ensures flushed { O.waiting out.old ≡ 0 → OnOk result (O.waiting out.new ≡ 0) };
}
