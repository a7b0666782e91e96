//! What people are told on standard error. No clause speaks of these texts; where memory runs out, nothing is told.

use pgw_backend::client_error::{PgWireClientError, PgWireClientResult};
use pgw_config_text::part::Part;
use pgw_config_text::text::cut;
use pgw_prog_script::expected::{
    expected_at, expected_in_pair_at, expected_in_pool_at, expected_in_relay_at,
};
use pgw_proxy::fault::ProxyFault;
use pgw_session::types::SessionReport;
use pgw_types::memory::OutOfMemory;
use std::alloc::{AllocError, Global};
use std::fmt::Write;

pub const NO_SCRIPT: &str = "standard input could not be read\n";

pub const NO_OUTPUT: &str = "standard output could not be written\n";

pub const NO_MEMORY: &str = "memory ran out\n";

pub const NO_RANDOM_BYTES: &str = "the system gave no random bytes\n";

pub const TOO_LONG: &str = "a script has at most 16777216 bytes\n";

// The text, or an empty one where memory ran out.
fn or_empty(alloc: Global, text: Result<String, AllocError>) -> String {
    match text {
        Ok(text) => text,
        Err(_) => String::new(alloc),
    }
}

/// A fixed text.
pub fn told(alloc: Global, text: &str) -> String {
    or_empty(alloc, String::from_str(alloc, text))
}

// Whether a word may be a connection text: it may hold a password, and is not shown.
fn may_hold_password(word: &str) -> bool {
    word.as_bytes()
        .iter()
        .any(|byte| *byte == b'=' || *byte == b':')
}

// That a word is no command.
fn no_command(alloc: Global, word: &str) -> Result<String, AllocError> {
    if may_hold_password(word) {
        format!(in alloc; "the first word is no command, as connect is")
    } else {
        format!(in alloc; "{word:?} is no command")
    }
}

// That a command takes no word behind it.
fn more_fault(alloc: Global, word: &str, next: &str) -> Result<String, AllocError> {
    if may_hold_password(next) {
        format!(in alloc; "{word:?} takes no word behind it")
    } else {
        format!(in alloc; "{word:?} takes no word behind it, as {next:?}")
    }
}

// Why the words behind the program's name are no command.
fn words_fault(alloc: Global, words: &[String]) -> Result<String, AllocError> {
    match words {
        [word, rest @ ..] if word.as_str() == "connect" => connect_fault(alloc, rest),
        [word, ..] if word.as_str() == "gen" => format!(in alloc;
            "gen takes ROWS, a number up to 1000000, and START, a number of 32 bits"
        ),
        [word, ..] if word.as_str() == "secret" => format!(in alloc;
            "secret takes PASSWORD, and COUNT, a number from 1 to 4294967295"
        ),
        [word, ..] if word.as_str() == "passfile" => format!(in alloc;
            "passfile takes HOST, PORT, a number up to 65535, DATABASE and USER"
        ),
        [word] if word.is_empty() => format!(in alloc;
            "an empty word, or one that is not UTF-8, is no command"
        ),
        [word, next, ..] => match word.as_str() {
            "script" | "pair" | "relay" | "pool" | "--help" | "--version" => more_fault(
                alloc, word, next,
            ),
            _ => no_command(alloc, word),
        },
        [word] => no_command(alloc, word),
        [] => format!(in alloc; "no word was given"),
    }
}

// Why the words behind `connect` name no session.
fn connect_fault(alloc: Global, rest: &[String]) -> Result<String, AllocError> {
    match rest {
        // The words are not shown: a connection text in the wrong place may hold a password.
        [_, _, _, ..] => {
            format!(in alloc; "the second word behind connect, its LIMIT, is no number of 64 bits")
        }
        _ => format!(in alloc; "connect takes TEXT LIMIT QUERY, and may take more queries"),
    }
}

/// Why the words are no command, and where to read of commands.
pub fn told_of_words(alloc: Global, words: &[String]) -> String {
    let sentence = or_empty(alloc, words_fault(alloc, words));
    or_empty(
        alloc,
        format!(in alloc; "{sentence}; try hothummei --help\n"),
    )
}

// What was expected at a line, and what stands out in its place.
fn told_of(alloc: Global, number: u64, expected: &str, found: &str) -> String {
    or_empty(
        alloc,
        format!(in alloc; "line {number}: expected {expected}{found}\n"),
    )
}

/// What was expected where a session script's line with this number is the first outside the grammar.
pub fn told_of_line(alloc: Global, text: &[u8], number: u64) -> String {
    let (expected, found) = expected_at(text, number);
    told_of(alloc, number, expected, found)
}

/// What was expected at that line of a pair script.
pub fn told_of_pair_line(alloc: Global, text: &[u8], number: u64) -> String {
    let (expected, found) = expected_in_pair_at(text, number);
    told_of(alloc, number, expected, found)
}

/// What was expected at that line of a relay script.
pub fn told_of_relay_line(alloc: Global, text: &[u8], number: u64) -> String {
    let (expected, found) = expected_in_relay_at(text, number);
    told_of(alloc, number, expected, found)
}

/// What was expected at that line of a pool script, also where a lease's number is not out there.
pub fn told_of_pool_line(alloc: Global, text: &[u8], number: u64) -> String {
    let (expected, found) = expected_in_pool_at(text, number);
    told_of(alloc, number, expected, found)
}

// A text without control characters but for line feeds: a server's message must not steer a terminal.
fn without_controls(alloc: Global, text: &str) -> Result<String, AllocError> {
    let mut plain = String::new(alloc);
    for c in text.chars() {
        if c.is_control() && c != '\n' {
            write!(plain, "{}", c.escape_default())?;
        } else {
            plain.push(c)?;
        }
    }
    Ok(plain)
}

fn sentence(alloc: Global, error: &PgWireClientError) -> Result<String, AllocError> {
    let text = format!(in alloc; "{error}\n")?;
    without_controls(alloc, text.as_str())
}

/// Why a proxy stopped, where it did.
pub fn told_of_fault(alloc: Global, fault: &Option<ProxyFault>) -> String {
    match fault {
        None => String::new(alloc),
        Some(fault) => or_empty(alloc, format!(in alloc; "{fault}\n")),
    }
}

/// Why a session ended, where it ended with an error.
pub fn told_of_outcome(alloc: Global, outcome: &PgWireClientResult<SessionReport>) -> String {
    match outcome {
        Ok(_) => String::new(alloc),
        Err(error) => or_empty(alloc, sentence(alloc, error)),
    }
}

// The number of the part with this key, counted from 1, where a password stands before it.
fn behind_password(parts: &[Part], key: &str) -> Option<u64> {
    let mut has_password = false;
    for (index, part) in parts.iter().enumerate() {
        match part {
            Part::Password(_) => has_password = true,
            Part::Host(_) => {}
            Part::Pair(name, _) => {
                if name.as_str() == key {
                    return if has_password {
                        Some(index as u64 + 1)
                    } else {
                        None
                    };
                }
                if name.as_str() == "password" {
                    has_password = true;
                }
            }
        }
    }
    None
}

fn unknown_key(
    alloc: Global,
    text: &str,
    key: &str,
    error: &PgWireClientError,
) -> Result<String, OutOfMemory> {
    let parts = cut(alloc, text)?;
    let number = behind_password(parts.parts.as_slice(), key);
    drop(parts);
    match number {
        Some(number) => Ok(format!(in alloc;
            "part {number} of the connection text, behind its password, has an unknown key\n"
        )?),
        None => Ok(sentence(alloc, error)?),
    }
}

fn refusal(alloc: Global, text: &str, error: &PgWireClientError) -> Result<String, OutOfMemory> {
    match error {
        PgWireClientError::UnknownConfig(key) => unknown_key(alloc, text, key.as_str(), error),
        PgWireClientError::InvalidUtf8ConfigValue(bytes) => Ok(format!(in alloc;
            "a value of the connection text, of {} bytes, is not UTF-8\n",
            bytes.as_slice().len()
        )?),
        _ => Ok(sentence(alloc, error)?),
    }
}

/// Why a connection text is refused. A key that stands behind a password is not shown, since it may be a part of a
/// password with a blank, nor are the bytes of a value.
pub fn told_of_refusal(alloc: Global, text: &str, error: &PgWireClientError) -> String {
    match refusal(alloc, text, error) {
        Ok(told) => told,
        Err(OutOfMemory) => String::new(alloc),
    }
}
