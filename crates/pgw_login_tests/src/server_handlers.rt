//! Generators, and the handlers of a server together.
ghost use Rattle.std.specs.Prelude.{pos, ◌≤ℤ◌};

use crate::cancels::canceled_by_noop;
use crate::handlers::WELCOMED;
use crate::support::{DRAWN, OnePassword, Outcome, Silent, Step, compare, outcome_of};
use pgw_login::cancel::{ErrorHandler, PgWireServerHandlers};
use pgw_login::cleartext::CleartextPasswordAuthStartupHandler;
use pgw_login::client_info::{DefaultClient, PgWireConnectionState};
use pgw_login::md5::Md5PasswordAuthStartupHandler;
use pgw_login::noop::NoopHandler;
use pgw_registry::generator::RandomPidSecretKeyGenerator;
use pgw_types::context::ProtocolVersion;
use pgw_types::error::PgWireError;
use pgw_types::memory::OutOfMemory;
use pgw_types::text::Text;
use std::alloc::Global;
use std::process::Abort;
use std::test::Fail;

const SECRET: OnePassword = OnePassword {
    password: b"secret",
};

const STEPS: &[Step<'static>] = &[Step::Startup("bob"), Step::Password("secret")];

// A server that asks for a password in clear text, and draws from a generator that was set later.
fn cleartext_from<R: Abort>(rt: &R, alloc: Global, first: i32) -> Result<Outcome, OutOfMemory>
    requires { pos 0 ≤ℤ first }
{
    let (generator, _seat) = RandomPidSecretKeyGenerator::new(alloc)?;
    let (another, seat) = RandomPidSecretKeyGenerator::starting_at(alloc, first)?;
    let handler = CleartextPasswordAuthStartupHandler::new(
        SECRET, Silent, generator,
    ).with_pid_secret_key_generator(another);
    outcome_of(rt, alloc, &handler, seat, DRAWN, STEPS)
}

// A server that asks for an MD5 password, and draws from a generator that was set later.
fn md5_from<R: Abort>(rt: &R, alloc: Global, first: i32) -> Result<Outcome, OutOfMemory>
    requires { pos 0 ≤ℤ first }
{
    let (generator, _seat) = RandomPidSecretKeyGenerator::new(alloc)?;
    let (another, seat) = RandomPidSecretKeyGenerator::starting_at(alloc, first)?;
    let handler = Md5PasswordAuthStartupHandler::new(
        SECRET, Silent, generator,
    ).with_pid_secret_key_generator(another);
    outcome_of(rt, alloc, &handler, seat, DRAWN, STEPS)
}

// A client's number is of the generator that was set, up to the greatest.
#[test]
fn another_generator(rt: HostRuntime) -> Result<(), Fail> {
    let by_cleartext = cleartext_from(&rt, rt.alloc(), 7)?.client;
    let let_in = PgWireConnectionState::ReadyForQuery;
    assert_eq!(rt;
        by_cleartext,
        (let_in, ProtocolVersion::PROTOCOL3_0, true, 7)
    );
    let by_md5 = md5_from(&rt, rt.alloc(), i32::MAX)?.client;
    assert_eq!(rt;
        by_md5,
        (let_in, ProtocolVersion::PROTOCOL3_0, true, 2147483647)
    );
    Ok(())
}

// Whether a handler of errors leaves an error as it was.
fn leaves_it<E: ErrorHandler>(alloc: Global, handler: &E) -> bool {
    let client = DefaultClient::new(alloc, Text::new(alloc), false, ());
    let mut error = PgWireError::PidsExhausted;
    handler.on_error(&client, &mut error);
    matches!(&error, PgWireError::PidsExhausted)
}

// An error is left as it was, and nothing is canceled.
fn check_others<R: Abort>(
    rt: &R,
    alloc: Global,
    errors: &NoopHandler<()>,
    cancels: &NoopHandler<()>,
) -> Result<(), OutOfMemory> {
    assert!(rt; leaves_it(alloc, errors));
    assert_eq!(rt; canceled_by_noop(alloc, cancels)?, (Ok(()), 0));
    Ok(())
}

#[test]
fn handlers_of_a_server(rt: HostRuntime) -> Result<(), Fail> {
    let alloc = rt.alloc();
    let (generator, seat) = RandomPidSecretKeyGenerator::new(alloc)?;
    let handlers = PgWireServerHandlers {
        startup_handler: NoopHandler::new(generator),
        error_handler: NoopHandler::new(()),
        cancel_handler: NoopHandler::new(()),
    };
    let steps = [Step::Startup("bob")];
    let outcome = outcome_of(&rt, alloc, &handlers.startup_handler, seat, DRAWN, &steps)?;
    compare(&rt, &outcome, "ok", WELCOMED);
    drop(outcome);
    check_others(
        &rt,
        alloc,
        &handlers.error_handler,
        &handlers.cancel_handler,
    )?;
    Ok(())
}
