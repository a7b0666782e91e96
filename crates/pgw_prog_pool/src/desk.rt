//! The calls of a pool script, one by one.
ghost use Rattle.std.specs.Prelude.{◌≡◌, ◌<◌, ◌++◌, [], length, slice_index_or, map, IfOk, OnOk, MatchOption, true, false};
ghost use Rattle.pgw_prog_script.specs.declared.pool_line.PoolCall.TheVariants as call;
ghost use Rattle.pgw_prog_sessions.specs.AnswerLines.{answer_lines};
ghost use Rattle.pgw_prog_sessions.specs.SessionText.{error_line};
ghost use Rattle.pgw_prog_pool.specs.Lines.{lease_line, none_line, cause_name, returned_line, wants_memory as wants, was_wanting as wanting};
ghost use Rattle.pgw_prog_pool.specs.Standing.{AllBack, IsNotOut};
ghost use Rattle.pgw_prog_pool.specs.Views.{seat_place as place_for, pool_standing, HasRoom, PrintsRun, PrintsCall};

use pgw_client::{Answer, MemoryLink, OutOfMemory, PgWireClientError, Request};
use pgw_pool::{DropCause, Lease, LendError, Pool, Returned};
use pgw_prog_script::pool_script::PoolCall;
use pgw_prog_sessions::answer_lines::put_answer;
use pgw_prog_sessions::pieces::{put, put_decimal};
use pgw_prog_sessions::session_text::put_error;

/// A lease that is out, and how many requests were answered in it.
pub struct Seat {
    lease: Lease<MemoryLink>,
    answers: u64,
}

#[tactic(auto, unfolding(crate::specs::Lines::lease_line))]
fn put_lease(text: &mut Vec<u8>, number: u64) -> Result<(), OutOfMemory>
    ensures { OnOk result (text.new.items ≡ text.old.items ++ lease_line number) }
{
    put(text, b"lease ")?;
    put_decimal(text, number)?;
    put(text, b"\n")
}

#[tactic(auto, unfolding(crate::specs::Lines::none_line))]
fn put_none(text: &mut Vec<u8>, why: LendError) -> Result<(), OutOfMemory>
    ensures { OnOk result (text.new.items ≡ text.old.items ++ none_line why) }
{
    match why {
        LendError::Empty => put(text, b"empty\n"),
        LendError::Exhausted => put(text, b"exhausted\n"),
    }
}

#[tactic(auto, unfolding(crate::specs::Lines::cause_name))]
fn put_cause(text: &mut Vec<u8>, why: &DropCause) -> Result<(), OutOfMemory>
    ensures { OnOk result (text.new.items ≡ text.old.items ++ cause_name why.now) }
{
    match why {
        DropCause::Failed(_) => put(text, b"Failed"),
        DropCause::Refused(_) => put(text, b"Refused"),
        DropCause::Status(_) => put(text, b"Status"),
        DropCause::OutOfMemory => put(text, b"OutOfMemory"),
    }
}

#[tactic(auto, unfolding(crate::specs::Lines::returned_line))]
fn put_returned(text: &mut Vec<u8>, returned: &Returned) -> Result<(), OutOfMemory>
    ensures { OnOk result (text.new.items ≡ text.old.items ++ returned_line returned.now) }
{
    match returned {
        Returned::Kept => put(text, b"kept\n"),
        Returned::Dropped(why) => {
            put(text, b"dropped ")?;
            put_cause(text, why)?;
            put(text, b"\n")
        }
    }
}

/// Whether memory was wanting. No call of a script's links is to fail, so one fails only where a write finds no memory.
pub fn wants_memory(error: &PgWireClientError) -> bool
    ensures { result ≡ wants error.now }
{
    matches!(
        error,
        PgWireClientError::OutOfMemory | PgWireClientError::IoError
    )
}

fn was_wanting(returned: &Returned) -> bool
    ensures { result ≡ wanting returned.now }
{
    match returned {
        Returned::Dropped(DropCause::OutOfMemory) => true,
        Returned::Dropped(DropCause::Failed(error)) => wants_memory(error),
        _ => false,
    }
}

// Prints what became of a session, unless memory was wanting.
fn tell_returned(text: &mut Vec<u8>, returned: &Returned) -> Result<(), OutOfMemory>
    ensures line { OnOk result (text.new.items ≡ text.old.items ++ returned_line returned.now) }
    ensures memory { OnOk result (wanting returned.now ≡ false) }
{
    if was_wanting(returned) {
        return Err(OutOfMemory);
    }
    put_returned(text, returned)
}

fn tell_answer(text: &mut Vec<u8>, number: u64, answer: Answer) -> Result<(), OutOfMemory>
    ensures { OnOk result (text.new.items ≡ text.old.items ++ answer_lines number answer) }
{
    let put = put_answer(text, number, &answer);
    drop(answer);
    put
}

// Prints an error, unless memory was wanting.
fn tell_error(text: &mut Vec<u8>, error: PgWireClientError) -> Result<(), OutOfMemory>
    ensures line { OnOk result (text.new.items ≡ text.old.items ++ error_line error) }
    ensures memory { OnOk result (wants error ≡ false) }
{
    if wants_memory(&error) {
        drop(error);
        return Err(OutOfMemory);
    }
    let put = put_error(text, &error);
    drop(error);
    put
}

fn lend(
    pool: &mut Pool<MemoryLink>,
    out: &mut Vec<Seat>,
    text: &mut Vec<u8>,
) -> Result<(), OutOfMemory>
    requires { HasRoom pool.old out.old.items }
    ensures room { HasRoom pool.new out.new.items }
    ensures called { OnOk result (PrintsCall true (pool_standing pool.old out.old.items) call.Lend
        (pool_standing pool.new out.new.items) text.old.items text.new.items) }
{
    out.reserve(1)?;
    match pool.lend() {
        Ok(lease) => {
            let number = lease.number();
            out.push_reserved(Seat { lease, answers: 0 });
            put_lease(text, number)
        }
        Err(why) => put_none(text, why),
    }
}

// The place of the lease with this number among those that are out.
fn place_of(out: &[Seat], number: u64) -> Option<usize>
    ensures { MatchOption result (IsNotOut number (map place_for out.now))
        (λ at. (at < length out.now)
        × ((s : Seat) → (place_for (slice_index_or out.now at s)).number ≡ number)) }
{
    for (at, seat) in out.iter().enumerate() {
        if seat.lease.number() == number {
            return Some(at);
        }
    }
    None
}

fn run(seat: &mut Seat, request: &Request, text: &mut Vec<u8>) -> Result<(), OutOfMemory>
    ensures { OnOk result (PrintsRun request.now (place_for seat.old) (place_for seat.new)
        text.old.items text.new.items) }
{
    match seat.lease.run(request) {
        Ok(answer) => {
            seat.answers = seat.answers.saturating_add(1);
            tell_answer(text, seat.answers, answer)
        }
        Err(error) => tell_error(text, error),
    }
}

fn run_in(
    pool: &Pool<MemoryLink>,
    out: &mut Vec<Seat>,
    number: u64,
    request: &Request,
    text: &mut Vec<u8>,
) -> Result<bool, OutOfMemory>
    requires { HasRoom pool.now out.old.items }
    ensures room { HasRoom pool.now out.new.items }
    ensures called { IfOk result (λ known. PrintsCall known (pool_standing pool.now out.old.items)
        (call.Run number request.now) (pool_standing pool.now out.new.items)
        text.old.items text.new.items) }
{
    match place_of(out.as_slice(), number) {
        Some(at) => {
            run(&mut out[at], request, text)?;
            Ok(true)
        }
        None => Ok(false),
    }
}

fn give_back(
    pool: &mut Pool<MemoryLink>,
    out: &mut Vec<Seat>,
    number: u64,
    text: &mut Vec<u8>,
) -> Result<bool, OutOfMemory>
    requires { HasRoom pool.old out.old.items }
    ensures room { HasRoom pool.new out.new.items }
    ensures called { IfOk result (λ known. PrintsCall known (pool_standing pool.old out.old.items)
        (call.Back number) (pool_standing pool.new out.new.items)
        text.old.items text.new.items) }
{
    match place_of(out.as_slice(), number) {
        Some(at) => {
            let Seat {
                lease,
                answers: _answers,
            } = out.remove(at);
            let returned = pool.give_back(lease);
            let told = tell_returned(text, &returned);
            drop(returned);
            told?;
            Ok(true)
        }
        None => Ok(false),
    }
}

/// Makes a call, and prints what comes of it; answers whether the lease that it names is out.
pub fn make_call(
    pool: &mut Pool<MemoryLink>,
    out: &mut Vec<Seat>,
    call: &PoolCall,
    text: &mut Vec<u8>,
) -> Result<bool, OutOfMemory>
    requires { HasRoom pool.old out.old.items }
    ensures room { HasRoom pool.new out.new.items }
    ensures called { IfOk result (λ known. PrintsCall known (pool_standing pool.old out.old.items)
        call.now (pool_standing pool.new out.new.items) text.old.items text.new.items) }
{
    match call {
        PoolCall::Lend => {
            lend(pool, out, text)?;
            Ok(true)
        }
        PoolCall::Run(number, request) => run_in(pool, out, *number, request, text),
        PoolCall::Back(number) => give_back(pool, out, *number, text),
    }
}

/// Gives all leases back, in the order that they were lent. It answers whether memory was wanting.
pub fn give_all_back(pool: &mut Pool<MemoryLink>, mut out: Vec<Seat>) -> bool
    requires { HasRoom pool.old out.items }
    ensures { AllBack (pool_standing pool.old out.items) (pool_standing pool.new []) }
{
    let mut wanting = false;
    'leases: while out.len() > 0 {
        let Seat {
            lease,
            answers: _answers,
        } = out.remove(0);
        let returned = pool.give_back(lease);
        if was_wanting(&returned) {
            wanting = true;
        }
        drop(returned);
    }
    out.destroy_empty();
    wanting
}
