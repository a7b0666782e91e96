//! The pool of a pool script.
ghost use Rattle.std.specs.Prelude.{◌<◌, ◌++◌, IfOk, codes, decimal};
ghost use Rattle.pgw_prog_sessions.specs.Pieces.{line_end};
ghost use Rattle.pgw_prog_sessions.specs.SessionText.{error_line};
ghost use Rattle.pgw_prog.specs.Held.{Says};
ghost use Rattle.pgw_prog.specs.Pool.{pool_text, pool_status, PrintsPool};

use crate::printed::Printed;
use crate::told::{told_of_pool_line, told_of_refusal};
use pgw_backend::client_error::PgWireClientError;
use pgw_prog_pool::run::{PoolOutcome, run_pool};
use pgw_prog_script::pool_script::PoolScript;
use pgw_prog_sessions::pieces::{put, put_decimal};
use pgw_prog_sessions::session_text::put_error;
use pgw_types::memory::OutOfMemory;
use std::alloc::Global;

// Prints why no pool was started.
fn print_refusal(
    alloc: Global,
    config: &str,
    error: PgWireClientError,
) -> Result<Printed, OutOfMemory>
    ensures { IfOk result (λ p. Says p (error_line error) 1) }
{
    let told = told_of_refusal(alloc, config, &error);
    let mut text = Vec::new(alloc);
    let put = put_error(&mut text, &error);
    drop(error);
    put?;
    Ok(Printed {
        text,
        status: 1,
        told,
    })
}

// Prints the number of the line that names a lease which is not out.
fn print_line(alloc: Global, number: u64, script: &[u8]) -> Result<Printed, OutOfMemory>
    ensures { IfOk result (λ p. Says p (codes "line " ++ decimal number ++ line_end) 2) }
{
    let mut text = Vec::new(alloc);
    put(&mut text, b"line ")?;
    put_decimal(&mut text, number)?;
    put(&mut text, b"\n")?;
    Ok(Printed {
        text,
        status: 2,
        told: told_of_pool_line(alloc, script, number),
    })
}

// Prints what a script came to.
fn print_outcome(
    alloc: Global,
    config: &str,
    script: &[u8],
    outcome: PoolOutcome,
) -> Result<Printed, OutOfMemory>
    ensures { IfOk result (λ p. Says p (pool_text outcome) (pool_status outcome)) }
{
    match outcome {
        PoolOutcome::Told(text) => Ok(Printed {
            text,
            status: 0,
            told: String::new(alloc),
        }),
        PoolOutcome::Refused(error) => print_refusal(alloc, config, error),
        PoolOutcome::NotOut(number) => print_line(alloc, number, script),
    }
}

/// Makes the calls of a pool script, whose text is given too, and prints what comes of them.
pub fn hold_pool(alloc: Global, script: PoolScript, text: &[u8]) -> Result<Printed, OutOfMemory>
    requires { 0 < script.cut }
    ensures { IfOk result (PrintsPool script) }
{
    let outcome = match run_pool(alloc, &script) {
        Ok(outcome) => outcome,
        Err(_) => {
            drop(script);
            return Err(OutOfMemory);
        }
    };
    let printed = print_outcome(alloc, script.config.as_str(), text, outcome);
    drop(script);
    printed
}
