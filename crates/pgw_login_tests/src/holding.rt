//! An outbox that holds back what it is fed until something is sent.
ghost use Rattle.std.specs.Prelude.{◌≡◌, None};
ghost use Rattle.pgw_login.specs.declared.state.LoginState.{LoginState as TheState};

use crate::handlers::{LET_IN, WELCOMED};
use crate::support::{DRAWN, OnePassword, Silent, Step, let_go, log_in};
use bytes::BytesMut;
use pgw_backend::backend::PgWireBackendMessage;
use pgw_login::cleartext::CleartextPasswordAuthStartupHandler;
use pgw_login::handler::StartupHandler;
use pgw_login::noop::NoopHandler;
use pgw_login::outbox::{ByteOutbox, Outbox};
use pgw_login::state::LoginState;
use pgw_registry::generator::{PidSeat, RandomPidSecretKeyGenerator};
use pgw_types::error::PgWireResult;
use pgw_types::memory::OutOfMemory;
use std::alloc::Global;
use std::process::Abort;
use std::test::Fail;

#[derive(Drop)]
struct Holding {
    held: ByteOutbox,
    gone: BytesMut,
    waits: bool,
}

impl Outbox for Holding {
    ghost use Rattle.std.specs.Prelude.{cond};

    ghost Sent = { Unit {0} };

    ghost sent = { λ o. tt };

    ghost add = { λ told message. tt };

    ghost faults = { λ o. 0 };

    ghost waiting = { λ o. cond o.waits 1 0 };

    fn feed(&mut self, message: PgWireBackendMessage) -> PgWireResult<()> {
        self.waits = true;
        self.held.feed(message)
    }

    fn send(&mut self, message: PgWireBackendMessage) -> PgWireResult<()> {
        self.feed(message)?;
        self.gone.extend_from_slice(&self.held.buffer)?;
        self.held.buffer.clear();
        self.waits = false;
        Ok(())
    }
}

// What is sent of all that a handler hands on.
fn sent_by<H: StartupHandler, R: Abort>(
    rt: &R,
    alloc: Global,
    handler: &H,
    seat: PidSeat,
    steps: &[Step<'_>],
) -> Result<BytesMut, OutOfMemory>
    requires { (state : TheState) → state.seat ≡ seat → state.pass ≡ None → state.registered
        ≡ None → H.fits handler.now state }
{
    let mut out = Holding {
        held: ByteOutbox::new(alloc),
        gone: BytesMut::new(alloc),
        waits: false,
    };
    let (nonce, key) = DRAWN;
    let mut state = LoginState::new(nonce, key, seat, None);
    let told = log_in(alloc, handler, &mut out, &mut state, steps);
    let_go(rt, state);
    drop(told?);
    Ok(out.gone)
}

fn sent_in_cleartext<R: Abort>(rt: &R, alloc: Global) -> Result<BytesMut, OutOfMemory> {
    let (generator, seat) = RandomPidSecretKeyGenerator::new(alloc)?;
    let source = OnePassword {
        password: b"secret",
    };
    let handler = CleartextPasswordAuthStartupHandler::new(source, Silent, generator);
    let steps = [Step::Startup("bob"), Step::Password("secret")];
    sent_by(rt, alloc, &handler, seat, &steps)
}

fn sent_for_nothing<R: Abort>(rt: &R, alloc: Global) -> Result<BytesMut, OutOfMemory> {
    let (generator, seat) = RandomPidSecretKeyGenerator::new(alloc)?;
    let handler = NoopHandler::new(generator);
    sent_by(rt, alloc, &handler, seat, &[Step::Startup("bob")])
}

// Nothing of what a client is told in a login is held back.
#[test]
fn all_is_sent(rt: HostRuntime) -> Result<(), Fail> {
    let in_cleartext = sent_in_cleartext(&rt, rt.alloc())?;
    assert_eq!(rt; in_cleartext.as_slice(), LET_IN);
    drop(in_cleartext);
    let for_nothing = sent_for_nothing(&rt, rt.alloc())?;
    assert_eq!(rt; for_nothing.as_slice(), WELCOMED);
    Ok(())
}
