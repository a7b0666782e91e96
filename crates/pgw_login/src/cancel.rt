//! What a server does with a request to cancel, and with an error.
ghost use Rattle.std.specs.Prelude.{◌≡◌, Result, Ok};
ghost use Rattle.std.specs.Arc.{arc_value};
ghost use Rattle.pgw_control.specs.declared.cancel.CancelRequest.{CancelRequest as Request};
ghost use Rattle.pgw_registry.specs.Passes.{Known};
ghost use Rattle.pgw_registry.specs.declared.error.RegistryError.{RegistryError as Refusal};
ghost use Rattle.pgw_types.specs.declared.error.PgWireError.{PgWireError as Error};
ghost use Rattle.pgw_login.specs.Client.{LoginClient};
ghost use Rattle.pgw_login.specs.Canceling.{CanceledBy};

use crate::client_info::ClientInfo;
use crate::noop::NoopHandler;
use pgw_control::cancel::CancelRequest;
use pgw_registry::error::RegistryError;
use pgw_registry::manager::{ConnectionManager, Pass};
use pgw_types::error::PgWireError;
use std::sync::{Arc, Wait};

/// Handles requests to cancel (CancelRequest).
pub trait CancelHandler {
    /// The pass is one that this takes.
    ghost fits: { Self → Known → Type 0 };

    /// What may become of a pass, and be answered, for a request.
    ghost cancels: { Self → Known → Request → Known → Result (Unit {0}) Refusal → Type 0 };

    fn on_cancel_request(
        &self,
        pass: &mut Pass,
        request: CancelRequest,
    ) -> Result<(), RegistryError>
        requires { fits self.now pass.old }
        ensures fits { fits self.now pass.new }
        ensures cancels { cancels self.now pass.old request pass.new result };
}

/// Cancels at a manager that threads share. The client is not told whether there was such a
/// connection.
#[derive(Drop)]
pub struct DefaultCancelHandler<R: Wait> {
    manager: Arc<ConnectionManager>,
    rt: R,
}

impl<R: Wait> DefaultCancelHandler<R> {
    pub fn new(manager: Arc<ConnectionManager>, rt: R) -> DefaultCancelHandler<R>
        ensures { arc_value result.manager ≡ arc_value manager }
    {
        DefaultCancelHandler { manager, rt }
    }
}

impl<R: Wait> CancelHandler for DefaultCancelHandler<R> {
    ghost fits = { λ h v. v.of ≡ arc_value h.manager };

    ghost cancels = { λ h v request w answer. CanceledBy v request w answer };

    fn on_cancel_request(
        &self,
        pass: &mut Pass,
        request: CancelRequest,
    ) -> Result<(), RegistryError> {
        let manager = &self.manager;
        match manager.cancel(&self.rt, pass, request.pid, &request.secret_key) {
            Ok(_) => Ok(()),
            Err(e) => Err(e),
        }
    }
}

impl<G> CancelHandler for NoopHandler<G> {
    ghost fits = { λ h v. Unit {0} };

    ghost cancels = { λ h v request w answer. (w ≡ v) × (answer ≡ Ok tt) };

    fn on_cancel_request(
        &self,
        _pass: &mut Pass,
        _request: CancelRequest,
    ) -> Result<(), RegistryError> {
        Ok(())
    }
}

/// Looks at an error before it is told the client.
pub trait ErrorHandler {
    /// What may become of an error.
    ghost turns: { Self → LoginClient → Error → Error → Type 0 };

    fn on_error<C: ClientInfo>(&self, client: &C, error: &mut PgWireError)
        ensures { turns self.now (C.sight client.now) error.old error.new };
}

impl<G> ErrorHandler for NoopHandler<G> {
    ghost turns = { λ h client old new. new ≡ old };

    fn on_error<C: ClientInfo>(&self, _client: &C, _error: &mut PgWireError) {}
}

/// The handlers of a server.
#[derive(Drop)]
pub struct PgWireServerHandlers<S, E, C> {
    pub startup_handler: S,
    pub error_handler: E,
    pub cancel_handler: C,
}
