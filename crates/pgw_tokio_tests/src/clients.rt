//! Requests that are asked one at a time.
ghost use Rattle.std.specs.Prelude.{IfOk};
ghost use Rattle.pgw_tokio.specs.Login.{StreamCanLogIn};

use crate::servers::{ERROR, LOGIN, Part, ROW, play};
use futures::executor::block_on;
use pgw_backend::client_error::PgWireClientResult;
use pgw_config::config::Config;
use pgw_session::types::{Answer, Response};
use pgw_tokio::{Answered, AsyncClient, LoggingIn, log_in};
use pgw_types::text::Text;
use std::alloc::{AllocGlobal, Global};
use std::random::RandomSource;
use std::sync::Wait;
use std::test::Fail;
use std::thread;
use tokio::io::{AsyncRead, AsyncWrite, DuplexStream, duplex};

fn rows_of(responses: &[Response]) -> &'static str {
    match responses {
        [Response::Query(_, _, rows)] if rows.len() == 1 => "one row",
        _ => "other responses",
    }
}

// What came of a query.
fn told(came: &PgWireClientResult<Answer>) -> &'static str {
    match came {
        Ok(Answer::Responses(responses)) => rows_of(responses.as_slice()),
        Ok(Answer::Remote(_)) => "an error",
        Ok(_) => "another answer",
        Err(_) => "refused",
    }
}

/// Begins to log in.
pub fn begun<S: AsyncRead + AsyncWrite>(alloc: Global, stream: S) -> Result<LoggingIn<S>, Fail>
    ensures { IfOk result StreamCanLogIn }
{
    let config = Config::parse(alloc, "user=bob")?;
    match log_in(alloc, stream, config, &[0; 18], 1000) {
        Ok(logging_in) => Ok(logging_in),
        Err(refused) => Err(Fail::from(refused.error)),
    }
}

/// Logs in.
pub fn logged_in<R: Wait + RandomSource + AllocGlobal>(
    rt: &R,
    stream: DuplexStream,
) -> Result<AsyncClient<DuplexStream>, Fail> {
    let logging_in = begun(rt.alloc(), stream)?;
    match block_on(rt, logging_in)? {
        Ok(client) => Ok(client),
        Err(refused) => Err(Fail::from(refused.error)),
    }
}

/// Asks a query; what its answer is.
pub fn asked<R: Wait + RandomSource + AllocGlobal>(
    rt: &R,
    client: AsyncClient<DuplexStream>,
    query: &str,
) -> Result<(AsyncClient<DuplexStream>, &'static str), Fail> {
    let query = Text::from_str(rt.alloc(), query)?;
    let Answered { client, answer } = block_on(rt, client.simple_query(query))?;
    Ok((client, told(&answer)))
}

fn asked_three<R: Wait + RandomSource + AllocGlobal>(
    rt: &R,
    stream: DuplexStream,
) -> Result<(&'static str, &'static str, &'static str), Fail> {
    let client = logged_in(rt, stream)?;
    let (client, first) = asked(rt, client, "SELECT 1")?;
    let (client, second) = asked(rt, client, "SELECT 1/0")?;
    let (client, third) = asked(rt, client, "SELECT 1")?;
    drop(client);
    Ok((first, second, third))
}

const PARTS: [Part; 4] = [LOGIN, ROW, ERROR, ROW];

// Each direction holds so many bytes at most: with one, each byte is a piece of its own, and each write waits.
#[test]
fn each_request_has_its_own_answer(rt: HostRuntime) -> Result<(), Fail> {
    for size in [1, 2, 7, 64, 8192] {
        let (near, far) = duplex(rt.alloc(), size)?;
        let rt = &rt;
        let (played, answers) = thread::join(
            rt,
            move || play(rt, far, &PARTS),
            move || asked_three(rt, near),
        );
        let answers = answers?;
        played?;
        assert_eq!(rt; (size, answers), (size, ("one row", "an error", "one row")));
    }
    Ok(())
}
