//! What is done in a lease.

use anyhow::{Context, Result, bail};
use pgw_client::{
    Answer, ClientSocket, ErrorInfo, ErrorResponse, Listed, PgWireClientResult, Request, Response,
};
use pgw_pool_shared::{DropCause, GivenBack, LendRefusal, SharedLease, SharedPool};
use std::alloc::Global;
use std::sync::Wait;
use std::time::{Clock, Duration};

pub(crate) type Lease = SharedLease<ClientSocket>;

/// How long a thread waits for a session.
pub(crate) fn patience() -> Option<Duration> {
    Some(Duration::from_secs(60))
}

// How many temporary tables, prepared statements and changed settings there are.
const LOOK: &str = "SELECT (SELECT count(*) FROM pg_class WHERE relnamespace = pg_my_temp_schema())
    + (SELECT count(*) FROM pg_prepared_statements)
    + (SELECT count(*) WHERE current_setting('search_path') = 'herons')";

const TABLE: &str = "CREATE TEMP TABLE nests AS SELECT n FROM generate_series(1, 3) AS n";

const SETTING: &str = "SET search_path TO herons";

fn told(error: ErrorResponse) -> ErrorInfo {
    ErrorInfo::from_fields(error.fields)
}

// Asks what the server is not to refuse.
fn ask(lease: &mut Lease, request: &Request) -> Result<Answer> {
    match lease.run(request)? {
        Answer::Remote(error) => {
            let error = told(error);
            bail!("{}: {}", error.code, error.message)
        }
        answer => Ok(answer),
    }
}

// The number that a query gave.
fn number(alloc: Global, responses: Listed<Response>) -> Result<i64> {
    for response in responses.into_vec() {
        let mut rows = response.into_data_rows_reader(alloc);
        if let Some(mut row) = rows.next_row() {
            return row.next_value(alloc)?.context("NULL");
        }
    }
    bail!("no row")
}

fn ask_simple(alloc: Global, lease: &mut Lease, sql: &str) -> Result<Answer> {
    let request = Request::simple(alloc, sql)?;
    ask(lease, &request)
}

fn number_in(alloc: Global, answer: Answer) -> Result<i64> {
    match answer {
        Answer::Responses(responses) => number(alloc, responses),
        _ => bail!("another answer"),
    }
}

// How many things of a former lease are there.
fn look(alloc: Global, lease: &mut Lease) -> Result<i64> {
    let answer = ask_simple(alloc, lease, LOOK)?;
    number_in(alloc, answer)
}

fn change(alloc: Global, lease: &mut Lease, sql: &str) -> Result<()> {
    drop(ask_simple(alloc, lease, sql)?);
    Ok(())
}

fn prepare(alloc: Global, lease: &mut Lease) -> Result<()> {
    let eggs = Request::prepare(alloc, "eggs", "SELECT $1::int")?;
    drop(ask(lease, &eggs)?);
    Ok(())
}

/// Looks what is there of a former lease, and gives how many things that are; where nothing is, makes some.
pub(crate) fn visit(alloc: Global, lease: &mut Lease) -> Result<i64> {
    let found = look(alloc, lease)?;
    // They would be refused, where there are such already.
    if found == 0 {
        change(alloc, lease, TABLE)?;
        change(alloc, lease, SETTING)?;
        prepare(alloc, lease)?;
    }
    Ok(found)
}

fn refusal(refusal: LendRefusal) -> &'static str {
    match refusal {
        LendRefusal::TimedOut => "no session came back",
        LendRefusal::Crowded => "too many threads wait",
        LendRefusal::Exhausted => "no number is left",
    }
}

// What became of a session, in words.
fn end(alloc: Global, given_back: GivenBack) -> Result<String> {
    let words = match given_back {
        GivenBack::Kept => format!(in alloc; "kept"),
        GivenBack::Foreign => format!(in alloc; "none of this pool's"),
        GivenBack::Dropped(DropCause::Refused(error)) => {
            format!(in alloc;
                "dropped, since the reset is refused by {}",
                told(error).code
            )
        }
        GivenBack::Dropped(DropCause::Status(_)) => {
            format!(in alloc; "dropped, since it is open behind the reset")
        }
        GivenBack::Dropped(DropCause::Failed(error)) => format!(in alloc; "dropped: {error}"),
        GivenBack::Dropped(DropCause::OutOfMemory) => format!(in alloc; "dropped: no memory"),
    };
    Ok(words?)
}

/// Gives a lease back with its transaction open, and says what became of its session.
pub(crate) fn leave_open<R: Wait + Clock>(
    rt: &R,
    alloc: Global,
    pool: &SharedPool<ClientSocket>,
) -> Result<String> {
    let mut lease = match pool.lend(rt, patience()) {
        Ok(lease) => lease,
        Err(why) => bail!("{}", refusal(why)),
    };
    let begun = change(alloc, &mut lease, "BEGIN");
    let given_back = pool.give_back(rt, lease);
    begun?;
    end(alloc, given_back)
}
