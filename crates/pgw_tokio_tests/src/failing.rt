//! Streams whose calls fail.
ghost use Rattle.std.specs.Prelude.{⊤};

use crate::clients::begun;
use crate::servers::LOGIN;
use futures::executor::block_on;
use futures::task::{Context, Poll};
use pgw_backend::client_error::PgWireClientError;
use pgw_tokio::{Answered, AsyncClient, NotLoggedIn};
use pgw_types::text::Text;
use std::alloc::AllocGlobal;
use std::io;
use std::random::RandomSource;
use std::sync::Wait;
use std::test::Fail;
use tokio::io::{AsyncRead, AsyncWrite};

// What a server says, over a stream of which so many reads and so many writes go well. Behind them each call fails.
#[derive(Drop)]
struct Failing {
    said: &'static [u8],
    good_reads: u32,
    good_writes: u32,
}

impl AsyncRead for Failing {
    ghost reads = { λ _ _ _. ⊤ };

    ghost is_at_end = { λ _. ⊤ };

    ghost reads_nothing = { λ _. tt };

    ghost reads_in_order = { λ _ _ _ _ _ _ _. tt };

    fn poll_read(&mut self, cx: &mut Context<'_>, buf: &mut [u8]) -> Poll<io::Result<usize>> {
        if self.good_reads == 0 {
            return Poll::Ready(Err(io::Error::from(io::ErrorKind::ConnectionReset)));
        }
        self.good_reads -= 1;
        AsyncRead::poll_read(&mut self.said, cx, buf)
    }
}

impl AsyncWrite for Failing {
    ghost writes = { λ _ _ _. ⊤ };

    ghost writes_nothing = { λ _. tt };

    ghost writes_in_order = { λ _ _ _ _ _ _ _. tt };

    fn poll_write(&mut self, _cx: &mut Context<'_>, buf: &[u8]) -> Poll<io::Result<usize>> {
        if self.good_writes == 0 {
            return Poll::Ready(Err(io::Error::from(io::ErrorKind::BrokenPipe)));
        }
        self.good_writes -= 1;
        Poll::Ready(Ok(buf.len()))
    }

    fn poll_flush(&mut self, _cx: &mut Context<'_>) -> Poll<io::Result<()>> {
        Poll::Ready(Ok(()))
    }

    fn poll_shutdown(&mut self, _cx: &mut Context<'_>) -> Poll<io::Result<()>> {
        Poll::Ready(Ok(()))
    }
}

fn fault_word(fault: Option<&io::Error>) -> &'static str {
    match fault.map(|fault| fault.kind()) {
        None => "no fault",
        Some(io::ErrorKind::ConnectionReset) => "reset",
        Some(io::ErrorKind::BrokenPipe) => "broken pipe",
        Some(_) => "another fault",
    }
}

fn error_word(error: &PgWireClientError) -> &'static str {
    match error {
        PgWireClientError::IoError => "IoError",
        PgWireClientError::UnexpectedEOF => "UnexpectedEOF",
        PgWireClientError::Broken => "Broken",
        _ => "another error",
    }
}

// How far it came, the error, and the stream's own.
type Outcome = (&'static str, &'static str, &'static str);

fn outcome_of(answered: &Answered<Failing>) -> Outcome {
    let error = match &answered.answer {
        Ok(_) => "answered",
        Err(error) => error_word(error),
    };
    let how = if answered.client.is_usable() {
        "usable"
    } else {
        "unusable"
    };
    (how, error, fault_word(answered.client.fault()))
}

fn refusal_of(refused: &NotLoggedIn<Failing>) -> Outcome {
    (
        "refused",
        error_word(&refused.error),
        fault_word(refused.fault.as_ref()),
    )
}

// Asks one query.
fn asked<R: Wait + RandomSource + AllocGlobal>(
    rt: &R,
    client: AsyncClient<Failing>,
) -> Result<(AsyncClient<Failing>, Outcome), Fail> {
    let query = Text::from_str(rt.alloc(), "SELECT 1")?;
    let answered = block_on(rt, client.simple_query(query))?;
    let outcome = outcome_of(&answered);
    let Answered { client, .. } = answered;
    Ok((client, outcome))
}

fn asked_twice<R: Wait + RandomSource + AllocGlobal>(
    rt: &R,
    client: AsyncClient<Failing>,
) -> Result<(Outcome, Outcome), Fail> {
    let (client, first) = asked(rt, client)?;
    let (client, second) = asked(rt, client)?;
    drop(client);
    Ok((first, second))
}

// What comes of a login, and of two queries behind it.
fn outcomes_of<R: Wait + RandomSource + AllocGlobal>(
    rt: &R,
    stream: Failing,
) -> Result<(Outcome, Outcome), Fail> {
    let logging_in = begun(rt.alloc(), stream)?;
    match block_on(rt, logging_in)? {
        Ok(client) => asked_twice(rt, client),
        Err(refused) => Ok((refusal_of(&refused), ("", "", ""))),
    }
}

// How many reads and how many writes go well, and what comes of it. A login reads once and writes once.
const CASES: &[(u32, u32, Outcome, Outcome)] = &[
    (0, 9, ("refused", "IoError", "reset"), ("", "", "")),
    (9, 0, ("refused", "IoError", "broken pipe"), ("", "", "")),
    (
        1,
        9,
        ("unusable", "IoError", "reset"),
        ("unusable", "Broken", "reset"),
    ),
    (
        9,
        1,
        ("unusable", "IoError", "broken pipe"),
        ("unusable", "Broken", "broken pipe"),
    ),
    (
        9,
        9,
        ("unusable", "UnexpectedEOF", "no fault"),
        ("unusable", "Broken", "no fault"),
    ),
];

#[test]
fn a_failing_stream_is_told_by_its_own_error(rt: HostRuntime) -> Result<(), Fail> {
    for (good_reads, good_writes, first, second) in CASES {
        let (_, said) = LOGIN;
        let stream = Failing {
            said,
            good_reads: *good_reads,
            good_writes: *good_writes,
        };
        let outcomes = outcomes_of(&rt, stream)?;
        assert_eq!(rt; outcomes, (*first, *second));
    }
    Ok(())
}
