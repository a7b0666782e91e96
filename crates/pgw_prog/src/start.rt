//! The program over standard input and output and the system's sockets.
ghost use Rattle.pgw_prog.specs.Command.{IsSoundCommand};

use crate::command::{Command, command_from, command_of};
use crate::program::run_command_with;
use crate::told::{NO_MEMORY, NO_RANDOM_BYTES};
use pgw_link::socket_dialer::{SocketDialer, Timeouts};
use pgw_link::standard::{StdSink, StdSource};
use pgw_types::memory::OutOfMemory;
use rand::RngExt;
use rand::rngs::StdRng;
use std::alloc::Global;
use std::mem::forget;
use std::{env, io};

/// Runs the command that the words behind the program's name ask for, and says with which status to end.
pub fn start(rt: &HostRuntime) -> u8 {
    match words_of(rt) {
        Ok(words) => start_with(rt, words),
        Err(error) if error.kind() == io::ErrorKind::OutOfMemory => told(rt, NO_MEMORY, 4),
        // A word that is no text is no command.
        Err(_) => run(rt, &[String::new(rt.alloc())]),
    }
}

// Tells people this on standard error, and ends with the status.
fn told(rt: &HostRuntime, text: &str, status: u8) -> u8 {
    let _ = rt.eprint(text);
    status
}

/// The words behind the program's name, where each is a text.
pub fn words_of(rt: &HostRuntime) -> io::Result<Vec<String>> {
    let mut words = Vec::new(rt.alloc());
    for word in env::args(rt)?.skip(1) {
        words.push(word)?;
    }
    Ok(words)
}

/// Runs a command over standard input and output, with fresh bytes where it wants them.
pub fn run(rt: &HostRuntime, words: &[String]) -> u8 {
    match command_of(rt.alloc(), words) {
        Ok(command) => run_command(rt, words, command),
        Err(OutOfMemory) => told(rt, NO_MEMORY, 4),
    }
}

/// Runs the command that these words ask for, which it takes over, and says with which status to end.
pub fn start_with(rt: &HostRuntime, mut words: Vec<String>) -> u8 {
    let status = match command_from(rt.alloc(), &mut words) {
        Ok(command) => run_command(rt, &words, command),
        Err(OutOfMemory) => told(rt, NO_MEMORY, 4),
    };
    // The program ends: the system takes the words back at once.
    forget(words);
    status
}

// Whether a command wants random bytes: only a session with a server and a new secret do.
fn wants_random_bytes(command: &Command) -> bool {
    matches!(command, Command::Connect(_) | Command::Secret(_))
}

fn run_command(rt: &HostRuntime, words: &[String], command: Command) -> u8
    requires { IsSoundCommand command }
{
    if wants_random_bytes(&command) {
        run_fresh(rt, words, command)
    } else {
        run_with(rt, words, command, &[0; 18], &[0; 32])
    }
}

fn run_fresh(rt: &HostRuntime, words: &[String], command: Command) -> u8
    requires { IsSoundCommand command }
{
    let rng: io::Result<StdRng> = rand::make_rng(rt);
    let Ok(mut rng) = rng else {
        drop(command);
        return told(rt, NO_RANDOM_BYTES, 3);
    };
    let nonce: [u8; 18] = rng.random();
    let words32: [u8; 32] = rng.random();
    run_with(rt, words, command, &nonce, &words32)
}

fn run_with(
    rt: &HostRuntime,
    words: &[String],
    command: Command,
    nonce: &[u8; 18],
    words32: &[u8; 32],
) -> u8
    requires { IsSoundCommand command }
{
    let mut input = StdSource::new(rt.reader());
    let mut output = StdSink::new(io::writer(rt));
    let mut errors = StdSink::new(rt.stderr());
    let mut dialer = SocketDialer::new(rt, Timeouts::NONE);
    run_command_with(
        rt.alloc(),
        words,
        command,
        &mut input,
        &mut output,
        &mut errors,
        &mut dialer,
        nonce,
        words32,
    )
}
