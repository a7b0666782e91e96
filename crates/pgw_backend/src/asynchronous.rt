//! What a client takes at any time.
ghost use Rattle.std.specs.Prelude.{◌≡◌};
ghost use Rattle.pgw_backend.specs.Asynchronous.{is_asynchronous};

use crate::backend::PgWireBackendMessage;

impl PgWireBackendMessage {
    /// Whether a client that listens to no channel takes it whatever it awaits, but for a login
    /// exchange: a notice, or a parameter's new value.
    pub fn is_asynchronous(&self) -> bool
        ensures { result ≡ is_asynchronous self.now }
    {
        match self {
            PgWireBackendMessage::NoticeResponse(_) | PgWireBackendMessage::ParameterStatus(_) =>
                true,
            _ => false,
        }
    }
}
